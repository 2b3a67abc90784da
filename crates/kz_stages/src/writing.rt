//! The writes of SYNC_KRAFT_TO_ZK and DUAL_WRITE.
ghost use Rattle.std.specs.Prelude.{◌≡◌, ◌<◌, ℕ, false, length, Err, option_map, IfOk, OnErr, IsErrOf, if◌then◌else◌};
ghost use Rattle.kz_types.specs.declared.fault.TreeFault.TheVariants.{Limit};
ghost use Rattle.kz_spec_data.specs.Requests.{Multi, Either, IsTaken, ChangesDisk};
ghost use Rattle.kz_spec_data.specs.Tree.{multi};
ghost use Rattle.kz_spec_data.specs.Difference.{after_chunk};
ghost use Rattle.kz_spec_machine.specs.Driver.{reaches, write_ops, writes};
ghost use Rattle.kz_resync.specs.Remainders.{Remainder};
ghost use Rattle.kz_requests.specs.Fares.{Fares, IsAfterRequest, tree_after};
ghost use Rattle.kz_requests.specs.Disks.{answer_of_made, TreeDisk};
ghost use Rattle.kz_stages.specs.Rows.{driver_of, stage_of};
ghost use Rattle.kz_stages.specs.Writes.{held_remainder, held_scope, more_of, last_of, outcome_of_taken, outcome_of_refused, write_outcome, after_write_outcome, IsWritten, WriteFares, WriteDisk, WriteStop};

use crate::row::{DriverRow, Stage, begin_again, resign};
use kz_fence::write_ops;
use kz_requests::{StepFault, multi, path_at};
use kz_resync::Remaining;
use kz_tree::{Wire, ZTree};
use kz_types::{BAD_VERSION, DriverState, NO_NODE, NoMemory, Op, Reply, TreeFault};
use std::alloc::Global;
use std::mem;

/// What is written.
#[derive(Clone, Copy, Debug, PartialEq, Eq)]
pub enum Scope {
    /// All metadata, in SYNC_KRAFT_TO_ZK.
    All,
    /// What has changed, in DUAL_WRITE.
    Change,
}

/// What became of a write.
#[derive(Drop)]
pub enum WriteOutcome {
    /// All is written, and this offset is recorded.
    Last { offset: i64 },
    /// So many operations are written, and others remain.
    More { count: usize },
    /// The tree is no longer this claim's.
    Fenced { claim: i32 },
    /// The tree wasn't as it was read.
    Refused,
    /// The driver stays as it is, and tells why.
    Stopped { told: Reply },
}

// What became of a write of the next of these operations that the tree took.
fn outcome_of_taken(remaining: &Remaining) -> WriteOutcome
    ensures { result ≡ outcome_of_taken remaining.now }
{
    if remaining.is_last() {
        WriteOutcome::Last {
            offset: remaining.target().offset,
        }
    } else {
        WriteOutcome::More {
            count: remaining.next().len(),
        }
    }
}

// What became of a write that the tree refused.
fn outcome_of_refused(claim: i32, index: usize, code: i32) -> WriteOutcome
    ensures { result ≡ outcome_of_refused claim index code }
{
    if index < 1 && (code == BAD_VERSION || code == NO_NODE) {
        WriteOutcome::Fenced { claim }
    } else {
        WriteOutcome::Refused
    }
}

// What became of a write that this fault stops.
fn outcome_of_fault(
    alloc: Global,
    claim: i32,
    made: &[Op],
    fault: TreeFault,
) -> Result<WriteOutcome, NoMemory>
    requires { (index number : ℕ) → fault ≡ Limit index number → index < length made.now }
    ensures { (r : Remainder) → made.now ≡ write_ops claim r.ops r.target → IfOk result (λ written. written ≡ write_outcome claim r (Err fault)) }
{
    match fault {
        TreeFault::Refused { index, code } => Ok(outcome_of_refused(claim, index, code)),
        TreeFault::Limit { index, .. } => Ok(WriteOutcome::Stopped {
            told: Reply::Limit {
                path: path_at(alloc, made, index)?,
            },
        }),
        other => Ok(WriteOutcome::Stopped {
            told: Reply::TreeFailed(other),
        }),
    }
}

// The multi of the next write under a claim.
fn next_write(alloc: Global, claim: i32, remaining: &Remaining) -> Result<Vec<Op>, NoMemory>
    ensures { IfOk result (λ made. made.items ≡ write_ops claim remaining.now.ops remaining.now.target) }
{
    let target = remaining.target();
    if remaining.is_last() {
        write_ops(alloc, claim, remaining.next(), Some(&target))
    } else {
        write_ops(alloc, claim, remaining.next(), None)
    }
}

// Asks the tree for the next write under a claim, whose multi is this.
fn ask_multi<T: ZTree>(
    alloc: Global,
    claim: i32,
    remaining: &Remaining,
    made: &[Op],
    tree: &mut Wire<T>,
) -> Result<WriteOutcome, StepFault>
    requires { 0 < length made.now }
    ensures said { made.now ≡ write_ops claim remaining.now.ops remaining.now.target → IfOk result (λ written. written ≡ write_outcome claim remaining.now (multi (T.tree tree.old.inner) made.now)) }
    ensures tree { IsAfterRequest (reaches tree.old.plan false) (tree_after (multi (T.tree tree.old.inner) made.now) (T.tree tree.old.inner)) (T.tree tree.old.inner) result (T.tree tree.new.inner) }
    ensures fares { Fares false false result tree.old tree.new }
    ensures disk { TreeDisk (ChangesDisk (IsTaken (multi (T.tree tree.old.inner) made.now)) (T.payload_bytes (T.tree tree.old.inner) (Multi made.now)))
        (answer_of_made (multi (T.tree tree.old.inner) made.now)) tree.old.plan result (T.disk tree.old.inner) (T.disk tree.new.inner) }
    ensures stop { IsErrOf result (StepFault.Tree TreeFault.Device) → Either (T.tree tree.old.inner)
        (if reaches tree.old.plan false then tree_after (multi (T.tree tree.old.inner) made.now) (T.tree tree.old.inner) else T.tree tree.old.inner) (T.left tree.new.inner) }
{
    match multi(tree, made)? {
        None => Ok(outcome_of_taken(remaining)),
        Some(fault) => Ok(outcome_of_fault(alloc, claim, made, fault)?),
    }
}

// Asks the tree for the next write under a claim.
fn ask_write<T: ZTree>(
    alloc: Global,
    claim: i32,
    remaining: &Remaining,
    tree: &mut Wire<T>,
) -> Result<WriteOutcome, StepFault>
    ensures said { IfOk result (λ written. written ≡ write_outcome claim remaining.now (multi (T.tree tree.old.inner) (write_ops claim remaining.now.ops remaining.now.target))) }
    ensures tree { IsAfterRequest (reaches tree.old.plan false) (tree_after (multi (T.tree tree.old.inner) (write_ops claim remaining.now.ops remaining.now.target)) (T.tree tree.old.inner)) (T.tree tree.old.inner) result (T.tree tree.new.inner) }
    ensures fares { Fares false false result tree.old tree.new }
    ensures disk { TreeDisk (ChangesDisk (IsTaken (multi (T.tree tree.old.inner) (write_ops claim remaining.now.ops remaining.now.target))) (T.payload_bytes (T.tree tree.old.inner) (Multi (write_ops claim remaining.now.ops remaining.now.target))))
        (answer_of_made (multi (T.tree tree.old.inner) (write_ops claim remaining.now.ops remaining.now.target))) tree.old.plan result (T.disk tree.old.inner) (T.disk tree.new.inner) }
    ensures stop { IsErrOf result (StepFault.Tree TreeFault.Device) → Either (T.tree tree.old.inner)
        (if reaches tree.old.plan false then tree_after (multi (T.tree tree.old.inner) (write_ops claim remaining.now.ops remaining.now.target)) (T.tree tree.old.inner) else T.tree tree.old.inner) (T.left tree.new.inner) }
{
    let made = next_write(alloc, claim, remaining)?;
    ask_multi(alloc, claim, remaining, &made, tree)
}

// What a driver has still to write, where it writes.
fn remaining_of(stage: &Stage) -> Option<&Remaining>
    ensures { option_map (λ r. r.now) result ≡ held_remainder stage.entry.now }
{
    match stage {
        Stage::WriteResync { remaining } => Some(remaining),
        Stage::WriteDelta { remaining } => Some(remaining),
        _ => None,
    }
}

// What a driver writes, where it writes.
fn scope_of(stage: &Stage) -> Scope
    ensures { result ≡ held_scope stage.now }
{
    match stage {
        Stage::WriteDelta { .. } => Scope::Change,
        _ => Scope::All,
    }
}

// The stage after a write that isn't the last one.
fn later_write(old: Stage) -> Stage
    ensures { (r : Remainder) → held_remainder old ≡ Some r → stage_of result ≡ more_of (held_scope old) r.target (after_chunk r.ops) }
{
    match old {
        Stage::WriteResync { remaining } => {
            let mut rest = remaining;
            rest.done();
            Stage::WriteResync { remaining: rest }
        }
        Stage::WriteDelta { remaining } => {
            let mut rest = remaining;
            rest.done();
            Stage::WriteDelta { remaining: rest }
        }
        other => other,
    }
}

// The stage after the last write.
fn last_of(scope: Scope) -> Stage
    ensures { stage_of result ≡ last_of scope }
{
    match scope {
        Scope::All => Stage::KraftControllerToBrokerComm,
        Scope::Change => Stage::DualWrite,
    }
}

// The driver after a write.
fn after_write(row: &mut DriverRow, written: WriteOutcome) -> Reply
    ensures driver { (r : Remainder) → held_remainder row.old.stage ≡ Some r → after_write_outcome written r (λ rest. more_of (held_scope row.old.stage) r.target rest) (last_of (held_scope row.old.stage)) (driver_of row.old) ≡ (driver_of row.new, result) }
    ensures view { row.new.view ≡ row.old.view }
    ensures id { row.new.id ≡ row.old.id }
{
    match written {
        WriteOutcome::Last { offset } => {
            row.stage = last_of(scope_of(&row.stage));
            row.recorded = Some(offset);
            Reply::Recorded { offset }
        }
        WriteOutcome::More { count } => {
            row.stage = later_write(mem::replace(&mut row.stage, Stage::DualWrite));
            Reply::Wrote { ops: count }
        }
        WriteOutcome::Fenced { claim } => {
            resign(row);
            Reply::FencedWrite { claim }
        }
        WriteOutcome::Refused => {
            begin_again(row);
            Reply::Moved(DriverState::BecomeController)
        }
        WriteOutcome::Stopped { told } => told,
    }
}

/// Writes the next of the operations that the driver holds, under its claim. At `Err` the driver is as it was.
pub fn write<T: ZTree>(
    alloc: Global,
    row: &mut DriverRow,
    tree: &mut Wire<T>,
) -> Result<Reply, StepFault>
    ensures driver { (r : Remainder) → held_remainder row.old.stage ≡ Some r → IfOk result (λ told. writes (T.tree tree.old.inner) row.old.claim r.ops r.target (λ rest. more_of (held_scope row.old.stage) r.target rest) (last_of (held_scope row.old.stage)) (driver_of row.old) ≡ (driver_of row.new, told)) }
    ensures tree { (r : Remainder) → held_remainder row.old.stage ≡ Some r → IsWritten (reaches tree.old.plan false) (T.tree tree.old.inner) row.old.claim r result (T.tree tree.new.inner) }
    ensures view { row.new.view ≡ row.old.view }
    ensures err { OnErr result (row.new ≡ row.old) }
    ensures fares { (r : Remainder) → held_remainder row.old.stage ≡ Some r → WriteFares row.old.claim result tree.old tree.new }
    ensures disk { (r : Remainder) → held_remainder row.old.stage ≡ Some r → WriteDisk T.payload_bytes (T.tree tree.old.inner) row.old.claim r tree.old.plan result (T.disk tree.old.inner) (T.disk tree.new.inner) }
    ensures stop { (r : Remainder) → held_remainder row.old.stage ≡ Some r → IsErrOf result (StepFault.Tree TreeFault.Device) → WriteStop (reaches tree.old.plan false) (T.tree tree.old.inner) row.old.claim r (T.left tree.new.inner) }
    ensures id { row.new.id ≡ row.old.id }
{
    let Some(remaining) = remaining_of(&row.stage) else {
        return Ok(Reply::Idle);
    };
    let Some(claim) = row.claim else {
        begin_again(row);
        return Ok(Reply::Moved(DriverState::BecomeController));
    };
    let written = ask_write(alloc, claim, remaining, tree)?;
    Ok(after_write(row, written))
}
