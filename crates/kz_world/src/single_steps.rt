//! One step of a driver.
ghost use Rattle.std.specs.Prelude.{◌≡◌, ◌<◌, ◌∷◌, true, length, Some, IfOk, OnErr, slice_get};
ghost use Rattle.kz_types.specs.declared.machine.Event.TheVariants as event;
ghost use Rattle.kz_spec_machine.specs.Driver.{Driver as DriverValue};
ghost use Rattle.kz_spec_machine.specs.Machine.{pair_of, running_ids, step_pairs};
ghost use Rattle.kz_spec_machine.specs.Failures.{is_failed_step};
ghost use Rattle.kz_spec_machine.specs.Sound.{IsTime, Sound};
ghost use Rattle.kz_world_parts.specs.Disks.{payloads_of};
ghost use Rattle.kz_world_parts.specs.TurnDisks.{StepRequestDisks};
ghost use Rattle.kz_world_parts.specs.Pairs.{IsSoundPair};
ghost use Rattle.kz_world_parts.specs.TurnStops.{AreUp, LeavesOneOf};
ghost use Rattle.kz_world_parts.specs.EventDisks.{disks_in, ResultDisks};
ghost use Rattle.kz_world_parts.specs.EventStops.{EventLeaves};
ghost use Rattle.kz_world_parts.specs.Turns.{IsStepped};
ghost use Rattle.kz_world_parts.specs.Worlds.{world_of, world_of_parts, AreKept, IsOutcome};

use crate::turns::peers;
use kz_log::MetaLog;
use kz_tree::ZTree;
use kz_types::{Answer, Plan, Reply};
use kz_world_parts::{EventFault, Parts, Peers, place_of, running_refusal, step};
use std::alloc::Global;

// A step of the driver at this place, whose request fares by this plan.
fn step_at<T: ZTree, L: MetaLog>(
    parts: &mut Parts<T, L>,
    at: usize,
    peers: &Peers,
    now: i64,
    plan: Plan,
) -> Reply
    requires within { at < length parts.old.drivers.items }
    requires kept { AreKept L.log parts.old }
    requires declared { peers.now.declared ≡ parts.old.declared }
    requires running { peers.now.running ≡ running_ids parts.old.drivers.items }
    ensures ends { (d : DriverValue) → slice_get parts.old.drivers.items at ≡ Some d → IsSoundPair (world_of T.tree L.log parts.old).shared now d
        → IsStepped plan (world_of T.tree L.log parts.old) now d (world_of T.tree L.log parts.new) result }
    ensures kept { AreKept L.log parts.new }
    ensures disks { (d : DriverValue) → slice_get parts.old.drivers.items at ≡ Some d
        → StepRequestDisks plan (world_of T.tree L.log parts.old).shared now d (payloads_of T.payload_bytes L.payload_bytes) result (disks_in T.disk L.disk (world_of_parts parts.old)) (disks_in T.disk L.disk (world_of_parts parts.new)) }
    ensures stop { (d : DriverValue) → slice_get parts.old.drivers.items at ≡ Some d → IsSoundPair (world_of T.tree L.log parts.old).shared now d
        → AreUp (disks_in T.disk L.disk (world_of_parts parts.old)) → is_failed_step result ≡ true
        → LeavesOneOf (pair_of (world_of T.tree L.log parts.old).shared ∷ step_pairs plan (world_of T.tree L.log parts.old).shared (running_ids parts.old.drivers.items) now d) (T.left parts.new.tree.inner) (L.left parts.new.log.inner) }
{
    step(
        &mut parts.tree,
        &mut parts.log,
        &mut parts.drivers[at],
        peers,
        now,
        plan,
        parts.view.view(),
    )
}

/// Lets a controller's driver make one step, whose request fares by this plan. A refused step changes nothing.
pub fn step_of<T: ZTree, L: MetaLog>(
    alloc: Global,
    parts: &mut Parts<T, L>,
    id: i32,
    now: i64,
    plan: Plan,
) -> Result<Answer, EventFault>
    requires kept { AreKept L.log parts.old }
    requires time { IsTime now }
    ensures ok { Sound (world_of T.tree L.log parts.old) → IfOk result (IsOutcome (world_of T.tree L.log parts.old) (event.Step id now plan) (world_of T.tree L.log parts.new)) }
    ensures kept { AreKept L.log parts.new }
    ensures err { OnErr result (world_of T.tree L.log parts.new ≡ world_of T.tree L.log parts.old) }
    ensures disks { ResultDisks (world_of T.tree L.log parts.old) (event.Step id now plan) (payloads_of T.payload_bytes L.payload_bytes) result (disks_in T.disk L.disk (world_of_parts parts.old)) (disks_in T.disk L.disk (world_of_parts parts.new)) }
    ensures stop { Sound (world_of T.tree L.log parts.old) → EventLeaves (world_of T.tree L.log parts.old) (event.Step id now plan) result (disks_in T.disk L.disk (world_of_parts parts.old)) (T.left parts.new.tree.inner) (L.left parts.new.log.inner) }
{
    if let Some(refusal) = running_refusal(parts, id) {
        return Ok(refusal);
    }
    let Some(at) = place_of(&parts.drivers, id) else {
        return Ok(Answer::NotRunning);
    };
    let Ok(peers) = peers(alloc, parts) else {
        return Err(EventFault::NoMemory);
    };
    Ok(Answer::Step(step_at(parts, at, &peers, now, plan)))
}
