//! The registration of a broker.
ghost use Rattle.std.specs.Prelude.{◌≡◌, ◌∷◌, [], IfOk, OnErr};
ghost use Rattle.kz_types.specs.declared.machine.Event.TheVariants as event;
ghost use Rattle.kz_spec_machine.specs.Machine.{registration};
ghost use Rattle.kz_world_parts.specs.Disks.{payloads_of};
ghost use Rattle.kz_world_parts.specs.EventDisks.{disks_in, ResultDisks};
ghost use Rattle.kz_world_parts.specs.EventStops.{EventLeaves};
ghost use Rattle.kz_world_parts.specs.Worlds.{world_of, world_of_parts, IsDone, AreKept};

use kz_log::MetaLog;
use kz_tree::ZTree;
use kz_types::{Answer, Id, MetaRecord, RegisterBrokerRecord, Sequence};
use kz_world_parts::{EventFault, Parts, append, leader_refusal, read};
use std::alloc::Global;

// The record that registers a broker.
fn registration(alloc: Global, broker: i32, migrating: bool) -> MetaRecord
    ensures { result ∷ [] ≡ registration broker migrating }
{
    MetaRecord::RegisterBroker(RegisterBrokerRecord {
        broker_id: broker,
        migrating,
        incarnation: Id { bytes: [0; 16] },
        broker_epoch: 0,
        endpoints: Sequence::new(alloc),
        features: Sequence::new(alloc),
        rack: None,
        fenced: true,
        in_shutdown: false,
    })
}

/// Asks a controller to register a broker. Refused, and where memory runs out or the log's store fails, it changes nothing.
#[tactic(auto, unfolding(kz_spec_machine::specs::Machine::next))]
pub fn register<T: ZTree, L: MetaLog>(
    alloc: Global,
    parts: &mut Parts<T, L>,
    id: i32,
    broker: i32,
    migrating: bool,
    now: i64,
) -> Result<Answer, EventFault>
    requires { AreKept L.log parts.old }
    ensures ok { IfOk result (IsDone (world_of T.tree L.log parts.old) (event.Register id broker migrating now) (world_of T.tree L.log parts.new)) }
    ensures kept { AreKept L.log parts.new }
    ensures err { OnErr result (world_of T.tree L.log parts.new ≡ world_of T.tree L.log parts.old) }
    ensures disks { ResultDisks (world_of T.tree L.log parts.old) (event.Register id broker migrating now) (payloads_of T.payload_bytes L.payload_bytes) result (disks_in T.disk L.disk (world_of_parts parts.old)) (disks_in T.disk L.disk (world_of_parts parts.new)) }
    ensures stop { EventLeaves (world_of T.tree L.log parts.old) (event.Register id broker migrating now) result (disks_in T.disk L.disk (world_of_parts parts.old)) (T.left parts.new.tree.inner) (L.left parts.new.log.inner) }
{
    if let Some(refusal) = leader_refusal(parts, id) {
        return Ok(refusal);
    }
    match read(parts) {
        Ok(()) => {}
        Err(fault) => return Err(fault),
    }
    match parts.view.begun() {
        Some(offset) => Ok(Answer::InTransaction { offset }),
        None => append(parts, &[registration(alloc, broker, migrating)], now),
    }
}
