//! An election.
ghost use Rattle.std.specs.Prelude.{◌≡◌, ◌<◌, ◌∷◌, [], ◌++◌, length, None, IfOk, OnOk, OnErr, if◌then◌else◌};
ghost use Rattle.kz_types.specs.declared.machine.Event.TheVariants as event;
ghost use Rattle.kz_spec_data.specs.Log.{elect};
ghost use Rattle.kz_spec_machine.specs.Machine.{election_records, running_refusal};
ghost use Rattle.kz_world_parts.specs.Disks.{payloads_of};
ghost use Rattle.kz_world_parts.specs.EventDisks.{disks_in, ElectsController, ResultDisks};
ghost use Rattle.kz_world_parts.specs.EventStops.{EventLeaves};
ghost use Rattle.kz_world_parts.specs.Worlds.{world_of, world_of_parts, records_on_election, IsDone, AreKept};

use kz_log::MetaLog;
use kz_tree::ZTree;
use kz_types::{Answer, MetaRecord, NO_MIGRATION, NoMemory, PRE_MIGRATION};
use kz_world_parts::{
    CountedView, EventFault, Parts, after_log_fault, elect_driver, read, running_refusal,
};
use std::alloc::Global;

// Adds a record where it is wanted.
fn push_if(items: &mut Vec<MetaRecord>, wanted: bool, item: MetaRecord) -> Result<(), NoMemory>
    ensures { OnOk result (items.new.items ≡ items.old.items ++ (if wanted then item ∷ [] else [])) }
{
    if wanted {
        items.push(item)?;
    }
    Ok(())
}

// What an election writes, by what is known of the log: a record of nothing; the end of a transaction that has begun; and
// the first state of the migration, where it has none.
fn election_records(alloc: Global, view: &CountedView) -> Result<Vec<MetaRecord>, NoMemory>
    ensures { IfOk result (λ items. items.items ≡ records_on_election view.now.begun view.now.image.state) }
{
    let mut items = Vec::new(alloc);
    items.push(MetaRecord::NoOp)?;
    push_if(
        &mut items,
        view.begun().is_some(),
        MetaRecord::AbortTransaction { reason: None },
    )?;
    let is_unset = view.image().state() == NO_MIGRATION;
    push_if(
        &mut items,
        is_unset,
        MetaRecord::ZkMigrationState {
            state: PRE_MIGRATION,
        },
    )?;
    Ok(items)
}

// A controller that runs is elected, where the log has room for these records.
#[tactic(auto, unfolding(kz_spec_machine::specs::Machine::next))]
fn elect_running<T: ZTree, L: MetaLog>(
    parts: &mut Parts<T, L>,
    id: i32,
    now: i64,
    items: &[MetaRecord],
) -> Result<Answer, EventFault>
    requires kept { AreKept L.log parts.old }
    requires running { running_refusal (world_of T.tree L.log parts.old) id ≡ None }
    requires items { items.now ≡ election_records (L.log parts.old.log.inner) }
    requires some { 0 < length items.now }
    ensures ok { IfOk result (IsDone (world_of T.tree L.log parts.old) (event.Elect id now) (world_of T.tree L.log parts.new)) }
    ensures kept { AreKept L.log parts.new }
    ensures err { OnErr result (world_of T.tree L.log parts.new ≡ world_of T.tree L.log parts.old) }
    ensures disks { ElectsController (L.log parts.old.log.inner) now (payloads_of T.payload_bytes L.payload_bytes) result (disks_in T.disk L.disk (world_of_parts parts.old)) (disks_in T.disk L.disk (world_of_parts parts.new)) }
    ensures stop { EventLeaves (world_of T.tree L.log parts.old) (event.Elect id now) result (disks_in T.disk L.disk (world_of_parts parts.old)) (T.left parts.new.tree.inner) (L.left parts.new.log.inner) }
{
    match parts.log.inner_mut().elect(now, items) {
        Ok(elected) => {
            elect_driver(&mut parts.drivers, id, elected.epoch);
            Ok(Answer::Elected {
                epoch: elected.epoch,
                offset: elected.end,
            })
        }
        Err(fault) => after_log_fault(fault),
    }
}

/// Elects a controller as the leader of the log. Refused, and where memory runs out or the log's store fails, it changes
/// nothing.
#[tactic(auto, unfolding(kz_spec_machine::specs::Machine::next))]
pub fn elect<T: ZTree, L: MetaLog>(
    alloc: Global,
    parts: &mut Parts<T, L>,
    id: i32,
    now: i64,
) -> Result<Answer, EventFault>
    requires { AreKept L.log parts.old }
    ensures ok { IfOk result (IsDone (world_of T.tree L.log parts.old) (event.Elect id now) (world_of T.tree L.log parts.new)) }
    ensures kept { AreKept L.log parts.new }
    ensures err { OnErr result (world_of T.tree L.log parts.new ≡ world_of T.tree L.log parts.old) }
    ensures disks { ResultDisks (world_of T.tree L.log parts.old) (event.Elect id now) (payloads_of T.payload_bytes L.payload_bytes) result (disks_in T.disk L.disk (world_of_parts parts.old)) (disks_in T.disk L.disk (world_of_parts parts.new)) }
    ensures stop { EventLeaves (world_of T.tree L.log parts.old) (event.Elect id now) result (disks_in T.disk L.disk (world_of_parts parts.old)) (T.left parts.new.tree.inner) (L.left parts.new.log.inner) }
{
    if let Some(refusal) = running_refusal(parts, id) {
        return Ok(refusal);
    }
    match read(parts) {
        Ok(()) => {}
        Err(fault) => return Err(fault),
    }
    let Ok(items) = election_records(alloc, &parts.view) else {
        return Err(EventFault::NoMemory);
    };
    elect_running(parts, id, now, &items)
}
