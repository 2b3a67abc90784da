//! A change.
ghost use Rattle.std.specs.Prelude.{◌≡◌, ◌<◌, length, IfOk, OnErr};
ghost use Rattle.kz_types.specs.declared.machine.Event.TheVariants as event;
ghost use Rattle.kz_world_parts.specs.Disks.{payloads_of};
ghost use Rattle.kz_world_parts.specs.Stores.{ReadsLog};
ghost use Rattle.kz_world_parts.specs.EventDisks.{disks_in, AppendsRecords, ResultDisks, UnlessRefused};
ghost use Rattle.kz_world_parts.specs.EventStops.{EventLeaves};
ghost use Rattle.kz_world_parts.specs.Worlds.{world_of, world_of_parts, IsDone, AreKept};

use kz_log::MetaLog;
use kz_tree::ZTree;
use kz_types::{Answer, MetaRecord, NoMemory};
use kz_world_parts::{EventFault, Parts, append_judged, leader_refusal, read, records_refusal};
use std::alloc::Global;

/// Asks a controller to append these records. Refused, and where memory runs out or the log's store fails, it changes
/// nothing.
#[tactic(auto, unfolding(kz_spec_machine::specs::Machine::next))]
pub fn change<T: ZTree, L: MetaLog>(
    alloc: Global,
    parts: &mut Parts<T, L>,
    id: i32,
    records: &[MetaRecord],
    now: i64,
) -> Result<Answer, EventFault>
    requires kept { AreKept L.log parts.old }
    requires some { 0 < length records.now }
    ensures ok { IfOk result (IsDone (world_of T.tree L.log parts.old) (event.Change id records.now now) (world_of T.tree L.log parts.new)) }
    ensures kept { AreKept L.log parts.new }
    ensures err { OnErr result (world_of T.tree L.log parts.new ≡ world_of T.tree L.log parts.old) }
    ensures disks { ResultDisks (world_of T.tree L.log parts.old) (event.Change id records.now now) (payloads_of T.payload_bytes L.payload_bytes) result (disks_in T.disk L.disk (world_of_parts parts.old)) (disks_in T.disk L.disk (world_of_parts parts.new)) }
    ensures stop { EventLeaves (world_of T.tree L.log parts.old) (event.Change id records.now now) result (disks_in T.disk L.disk (world_of_parts parts.old)) (T.left parts.new.tree.inner) (L.left parts.new.log.inner) }
{
    if let Some(refusal) = leader_refusal(parts, id) {
        return Ok(refusal);
    }
    match read(parts) {
        Ok(()) => {}
        Err(fault) => return Err(fault),
    }
    match records_refusal(alloc, parts.log.inner().epoch(), &mut parts.view, records) {
        Ok(Ok(made)) => append_judged(parts, records, now, made),
        Ok(Err(refusal)) => Ok(refusal),
        Err(NoMemory) => Err(EventFault::NoMemory),
    }
}
