//! Whether ZooKeeper has all of the metadata.
ghost use Rattle.std.specs.Prelude.{◌≡◌, None, OnOk, IfErr, option_map};
ghost use Rattle.kz_types.specs.declared.machine.Answer.TheVariants.{Unclosed};
ghost use Rattle.kz_spec_data.specs.Tree.{unclosed_path};
ghost use Rattle.kz_spec_machine.specs.Machine.{behind_refusal, rest_refusal};
ghost use Rattle.kz_exit.specs.Faults.{IsRestFault};

use crate::faults::ExitFault;
use kz_tree::{ClosedFault, Tree};
use kz_types::Recorded;

// The tree is closed.
fn check_closed(tree: &Tree) -> Result<(), ExitFault>
    ensures ok { OnOk result (unclosed_path tree.now ≡ None) }
    ensures err { IfErr result (IsRestFault (option_map (λ path. Unclosed path) (unclosed_path tree.now))) }
{
    match tree.closed() {
        Ok(()) => Ok(()),
        Err(ClosedFault::Unclosed { path }) => Err(ExitFault::Unclosed { path }),
        Err(ClosedFault::NoMemory) => Err(ExitFault::NoMemory),
    }
}

// What is recorded is the log's end.
fn check_recorded(recorded: Option<Recorded>, log_end: i64) -> Result<(), ExitFault>
    ensures ok { OnOk result (behind_refusal recorded log_end ≡ None) }
    ensures err { IfErr result (IsRestFault (behind_refusal recorded log_end)) }
{
    match recorded {
        Some(Recorded { offset, .. }) if offset != log_end => Err(ExitFault::Behind {
            recorded: offset,
            end: log_end,
        }),
        _ => Ok(()),
    }
}

/// Whether a migration may be finalised whose log ends at this offset, -1 where it is empty: ZooKeeper has all of the
/// metadata. `Unclosed`, where the tree isn't closed; `Behind`, where the recorded offset isn't the log's end. The first of
/// these is told. `NoMemory`. No other fault comes.
#[tactic(auto, using(crate::proofs::Refusals::first_told, crate::proofs::Refusals::later_told, crate::proofs::Refusals::none_told))]
pub fn may_finalise(tree: &Tree, log_end: i64) -> Result<(), ExitFault>
    ensures ok { OnOk result (rest_refusal tree.now log_end ≡ None) }
    ensures err { IfErr result (IsRestFault (rest_refusal tree.now log_end)) }
{
    check_closed(tree)?;
    let recorded = tree.recorded()?;
    check_recorded(recorded, log_end)
}
