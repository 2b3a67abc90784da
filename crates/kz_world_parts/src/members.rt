//! Which controllers are declared, and which run.
ghost use Rattle.std.specs.Prelude.{◌≡◌, IfOk, OnErr};
ghost use Rattle.kz_types.specs.declared.machine.Event.TheVariants as event;
ghost use Rattle.kz_world_parts.specs.EventDisks.{disks_in};
ghost use Rattle.kz_world_parts.specs.Worlds.{world_of, world_of_parts, IsDone, AreKept};

use crate::drivers::stop_drivers;
use crate::parts::Parts;
use crate::refusals::{quorum_refusal, start_refusal, stop_refusal};
use kz_driver::Driver;
use kz_log::MetaLog;
use kz_tree::ZTree;
use kz_types::{Answer, Duplicate, NoMemory, Sequence};
use std::alloc::Global;

/// Declares the controllers. Refused, and where memory runs out, it changes nothing.
#[tactic(auto, unfolding(kz_spec_machine::specs::Machine::next))]
pub fn declare<T: ZTree, L: MetaLog>(
    alloc: Global,
    parts: &mut Parts<T, L>,
    ids: &Sequence<i32>,
) -> Result<Answer, NoMemory>
    requires { AreKept L.log parts.old }
    ensures ok { IfOk result (IsDone (world_of T.tree L.log parts.old) (event.Quorum ids.now) (world_of T.tree L.log parts.new)) }
    ensures kept { AreKept L.log parts.new }
    ensures err { OnErr result (world_of T.tree L.log parts.new ≡ world_of T.tree L.log parts.old) }
    ensures disks { disks_in T.disk L.disk (world_of_parts parts.new) ≡ disks_in T.disk L.disk (world_of_parts parts.old) }
{
    if let Some(refusal) = quorum_refusal(parts, ids.as_slice()) {
        return Ok(refusal);
    }
    parts.declared = ids.copy(alloc)?;
    Ok(Answer::Done)
}

/// Starts a controller. Refused, and where memory runs out, it changes nothing.
#[tactic(auto, unfolding(kz_spec_machine::specs::Machine::next))]
pub fn start<T: ZTree, L: MetaLog>(
    alloc: Global,
    parts: &mut Parts<T, L>,
    id: i32,
) -> Result<Answer, NoMemory>
    requires { AreKept L.log parts.old }
    ensures ok { IfOk result (IsDone (world_of T.tree L.log parts.old) (event.Start id) (world_of T.tree L.log parts.new)) }
    ensures kept { AreKept L.log parts.new }
    ensures err { OnErr result (world_of T.tree L.log parts.new ≡ world_of T.tree L.log parts.old) }
    ensures disks { disks_in T.disk L.disk (world_of_parts parts.new) ≡ disks_in T.disk L.disk (world_of_parts parts.old) }
{
    match start_refusal(parts, id) {
        Some(refusal) => Ok(refusal),
        None => {
            parts.drivers.push(Driver::new(alloc, id))?;
            Ok(Answer::Done)
        }
    }
}

/// Stops a controller, or all of them where none is named. Refused, it changes nothing. It takes no memory.
#[tactic(auto, unfolding(kz_spec_machine::specs::Machine::next))]
pub fn stop<T: ZTree, L: MetaLog>(parts: &mut Parts<T, L>, controller: Option<i32>) -> Answer
    requires { AreKept L.log parts.old }
    ensures done { IsDone (world_of T.tree L.log parts.old) (event.Stop controller) (world_of T.tree L.log parts.new) result }
    ensures kept { AreKept L.log parts.new }
    ensures disks { disks_in T.disk L.disk (world_of_parts parts.new) ≡ disks_in T.disk L.disk (world_of_parts parts.old) }
{
    match stop_refusal(parts, controller) {
        Some(refusal) => refusal,
        None => {
            stop_drivers(&mut parts.drivers, controller);
            Answer::Done
        }
    }
}
