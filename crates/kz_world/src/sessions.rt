//! Sessions of ZooKeeper clients.
ghost use Rattle.std.specs.Prelude.{◌≡◌, ◌≤ℤ◌, pos, IfOk, OnErr};
ghost use Rattle.kz_types.specs.declared.machine.Event.TheVariants as event;
ghost use Rattle.kz_world_parts.specs.Disks.{payloads_of};
ghost use Rattle.kz_world_parts.specs.EventDisks.{disks_in, ResultDisks};
ghost use Rattle.kz_world_parts.specs.EventStops.{EventLeaves};
ghost use Rattle.kz_world_parts.specs.Worlds.{world_of, world_of_parts, IsDone, AreKept};

use kz_log::MetaLog;
use kz_session::ZSessions;
use kz_types::Answer;
use kz_world_parts::{EventFault, Parts, after_session_fault};

/// A session begins. Refused, and where memory runs out or the store fails, the world is as it was.
#[tactic(auto, unfolding(kz_spec_machine::specs::Machine::next))]
pub fn open<T: ZSessions, L: MetaLog>(
    parts: &mut Parts<T, L>,
    session: i64,
) -> Result<Answer, EventFault>
    requires kept { AreKept L.log parts.old }
    requires session { pos 1 ≤ℤ session }
    ensures ok { IfOk result (IsDone (world_of T.tree L.log parts.old) (event.ZkOpen session) (world_of T.tree L.log parts.new)) }
    ensures kept { AreKept L.log parts.new }
    ensures err { OnErr result (world_of T.tree L.log parts.new ≡ world_of T.tree L.log parts.old) }
    ensures disks { ResultDisks (world_of T.tree L.log parts.old) (event.ZkOpen session) (payloads_of T.payload_bytes L.payload_bytes) result (disks_in T.disk L.disk (world_of_parts parts.old)) (disks_in T.disk L.disk (world_of_parts parts.new)) }
    ensures stop { EventLeaves (world_of T.tree L.log parts.old) (event.ZkOpen session) result (disks_in T.disk L.disk (world_of_parts parts.old)) (T.left parts.new.tree.inner) (L.left parts.new.log.inner) }
{
    match parts.tree.inner_mut().begin_session(session) {
        Ok(zxid) => Ok(Answer::DoneAt { zxid }),
        Err(fault) => after_session_fault(fault),
    }
}

/// A session ends, and its ephemeral znodes with it. Refused, and where memory runs out or the store fails, the world is
/// as it was.
#[tactic(auto, unfolding(kz_spec_machine::specs::Machine::next))]
pub fn expire<T: ZSessions, L: MetaLog>(
    parts: &mut Parts<T, L>,
    session: i64,
) -> Result<Answer, EventFault>
    requires { AreKept L.log parts.old }
    ensures ok { IfOk result (IsDone (world_of T.tree L.log parts.old) (event.ZkExpire session) (world_of T.tree L.log parts.new)) }
    ensures kept { AreKept L.log parts.new }
    ensures err { OnErr result (world_of T.tree L.log parts.new ≡ world_of T.tree L.log parts.old) }
    ensures disks { ResultDisks (world_of T.tree L.log parts.old) (event.ZkExpire session) (payloads_of T.payload_bytes L.payload_bytes) result (disks_in T.disk L.disk (world_of_parts parts.old)) (disks_in T.disk L.disk (world_of_parts parts.new)) }
    ensures stop { EventLeaves (world_of T.tree L.log parts.old) (event.ZkExpire session) result (disks_in T.disk L.disk (world_of_parts parts.old)) (T.left parts.new.tree.inner) (L.left parts.new.log.inner) }
{
    match parts.tree.inner_mut().end_session(session) {
        Ok(zxid) => Ok(Answer::DoneAt { zxid }),
        Err(fault) => after_session_fault(fault),
    }
}
