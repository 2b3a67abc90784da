//! A turn.
ghost use Rattle.std.specs.Prelude.{◌≡◌, ◌<◌, ◌∷◌, false, length, Some, IfOk, OnOk, OnErr, slice_get};
ghost use Rattle.kz_types.specs.declared.machine.Event.TheVariants as event;
ghost use Rattle.kz_spec_data.specs.Log.{image_of};
ghost use Rattle.kz_spec_machine.specs.Driver.{Driver as DriverValue};
ghost use Rattle.kz_spec_machine.specs.Machine.{running_ids};
ghost use Rattle.kz_spec_machine.specs.Sound.{IsTime, Sound};
ghost use Rattle.kz_world_parts.specs.Disks.{payloads_of};
ghost use Rattle.kz_world_parts.specs.Pairs.{IsSoundPair};
ghost use Rattle.kz_world_parts.specs.Starts.{start_of};
ghost use Rattle.kz_world_parts.specs.Stores.{ReadsLog};
ghost use Rattle.kz_world_parts.specs.EventDisks.{disks_in, DriverTurnDisks, ResultDisks};
ghost use Rattle.kz_world_parts.specs.EventStops.{TurnLeaves, EventLeaves};
ghost use Rattle.kz_world_parts.specs.Turns.{IsTurned};
ghost use Rattle.kz_world_parts.specs.Worlds.{world_of, world_of_parts, AreKept, IsOutcome};

use kz_log::MetaLog;
use kz_tree::ZTree;
use kz_types::{Answer, Duplicate, NoMemory, Sequence};
use kz_world_parts::{
    EventFault, Parts, Peers, TurnStart, place_of, read, running_ids, running_refusal, turn,
};
use std::alloc::Global;

/// The controllers that a driver is told of.
pub fn peers<T: ZTree, L: MetaLog>(alloc: Global, parts: &Parts<T, L>) -> Result<Peers, NoMemory>
    ensures declared { IfOk result (λ peers. peers.declared ≡ parts.now.declared) }
    ensures running { IfOk result (λ peers. peers.running ≡ running_ids parts.now.drivers.items) }
{
    Ok(Peers {
        declared: parts.declared.copy(alloc)?,
        running: running_ids(alloc, &parts.drivers)?,
    })
}

/// What a turn of the driver at this place starts from. The log is read.
pub fn turn_start<T: ZTree, L: MetaLog>(
    alloc: Global,
    parts: &mut Parts<T, L>,
    at: usize,
) -> Result<TurnStart, EventFault>
    requires within { at < length parts.old.drivers.items }
    requires kept { AreKept L.log parts.old }
    ensures start { (d : DriverValue) → slice_get parts.old.drivers.items at ≡ Some d → IfOk result (λ start. start ≡ start_of (world_of T.tree L.log parts.old).shared d) }
    ensures image { OnOk result (parts.new.view.image ≡ image_of (L.log parts.new.log.inner)) }
    ensures kept { AreKept L.log parts.new }
    ensures world { world_of T.tree L.log parts.new ≡ world_of T.tree L.log parts.old }
    ensures disks { ReadsLog result (disks_in T.disk L.disk (world_of_parts parts.old)) (disks_in T.disk L.disk (world_of_parts parts.new)) }
{
    match read(parts) {
        Ok(()) => {}
        Err(fault) => return Err(fault),
    }
    match TurnStart::new(
        alloc,
        parts.tree.inner().tree(),
        parts.log.inner_mut(),
        &parts.drivers[at],
    ) {
        Ok(start) => Ok(start),
        Err(NoMemory) => Err(EventFault::NoMemory),
    }
}

// A turn of the driver at this place, in a log that isn't down.
fn turn_at<T: ZTree, L: MetaLog>(
    alloc: Global,
    parts: &mut Parts<T, L>,
    at: usize,
    peers: &Peers,
    start: &TurnStart,
    now: i64,
) -> Result<Answer, EventFault>
    requires within { at < length parts.old.drivers.items }
    requires kept { AreKept L.log parts.old }
    requires declared { peers.now.declared ≡ parts.old.declared }
    requires running { peers.now.running ≡ running_ids parts.old.drivers.items }
    requires start { (d : DriverValue) → slice_get parts.old.drivers.items at ≡ Some d → start.now ≡ start_of (world_of T.tree L.log parts.old).shared d }
    requires image { parts.old.view.image ≡ image_of (L.log parts.old.log.inner) }
    requires up { (L.disk parts.old.log.inner).down ≡ false }
    ensures ok { (d : DriverValue) → slice_get parts.old.drivers.items at ≡ Some d → IsSoundPair (world_of T.tree L.log parts.old).shared now d → IfOk result (IsTurned (world_of T.tree L.log parts.old) now d (world_of T.tree L.log parts.new)) }
    ensures kept { AreKept L.log parts.new }
    ensures err { OnErr result (world_of T.tree L.log parts.new ≡ world_of T.tree L.log parts.old) }
    ensures disks { (d : DriverValue) → slice_get parts.old.drivers.items at ≡ Some d → IsSoundPair (world_of T.tree L.log parts.old).shared now d
        → DriverTurnDisks (world_of T.tree L.log parts.old) now d (payloads_of T.payload_bytes L.payload_bytes) result (disks_in T.disk L.disk (world_of_parts parts.old)) (disks_in T.disk L.disk (world_of_parts parts.new)) }
    ensures stop { (d : DriverValue) → slice_get parts.old.drivers.items at ≡ Some d → IsSoundPair (world_of T.tree L.log parts.old).shared now d
        → TurnLeaves (world_of T.tree L.log parts.old) now d result (disks_in T.disk L.disk (world_of_parts parts.old)) (T.left parts.new.tree.inner) (L.left parts.new.log.inner) }
{
    match turn(
        alloc,
        &mut parts.tree,
        &mut parts.log,
        &mut parts.drivers[at],
        peers,
        now,
        start,
        parts.view.view(),
    ) {
        Ok(replies) => Ok(Answer::Turn(Sequence::from_vec(replies))),
        Err(NoMemory) => Err(EventFault::NoMemory),
    }
}

// A turn of the driver at this place, of at most as many steps as it may have. At `Err` nothing has changed but the disks.
fn prepared_turn<T: ZTree, L: MetaLog>(
    alloc: Global,
    parts: &mut Parts<T, L>,
    at: usize,
    now: i64,
) -> Result<Answer, EventFault>
    requires within { at < length parts.old.drivers.items }
    requires kept { AreKept L.log parts.old }
    ensures ok { (d : DriverValue) → slice_get parts.old.drivers.items at ≡ Some d → IsSoundPair (world_of T.tree L.log parts.old).shared now d → IfOk result (IsTurned (world_of T.tree L.log parts.old) now d (world_of T.tree L.log parts.new)) }
    ensures kept { AreKept L.log parts.new }
    ensures err { OnErr result (world_of T.tree L.log parts.new ≡ world_of T.tree L.log parts.old) }
    ensures disks { (d : DriverValue) → slice_get parts.old.drivers.items at ≡ Some d → IsSoundPair (world_of T.tree L.log parts.old).shared now d
        → DriverTurnDisks (world_of T.tree L.log parts.old) now d (payloads_of T.payload_bytes L.payload_bytes) result (disks_in T.disk L.disk (world_of_parts parts.old)) (disks_in T.disk L.disk (world_of_parts parts.new)) }
    ensures stop { (d : DriverValue) → slice_get parts.old.drivers.items at ≡ Some d → IsSoundPair (world_of T.tree L.log parts.old).shared now d
        → TurnLeaves (world_of T.tree L.log parts.old) now d result (disks_in T.disk L.disk (world_of_parts parts.old)) (T.left parts.new.tree.inner) (L.left parts.new.log.inner) }
{
    let Ok(peers) = peers(alloc, parts) else {
        return Err(EventFault::NoMemory);
    };
    let start = match turn_start(alloc, parts, at) {
        Ok(start) => start,
        Err(fault) => return Err(fault),
    };
    turn_at(alloc, parts, at, &peers, &start, now)
}

/// Lets a controller's driver make steps until it waits or rests. A refused turn changes nothing. A step that fails, or is out
/// of memory, ends the turn, and its reply is the last. At `Err` no step was made.
pub fn turn_of<T: ZTree, L: MetaLog>(
    alloc: Global,
    parts: &mut Parts<T, L>,
    id: i32,
    now: i64,
) -> Result<Answer, EventFault>
    requires kept { AreKept L.log parts.old }
    requires time { IsTime now }
    ensures ok { Sound (world_of T.tree L.log parts.old) → IfOk result (IsOutcome (world_of T.tree L.log parts.old) (event.Turn id now) (world_of T.tree L.log parts.new)) }
    ensures kept { AreKept L.log parts.new }
    ensures err { OnErr result (world_of T.tree L.log parts.new ≡ world_of T.tree L.log parts.old) }
    ensures disks { Sound (world_of T.tree L.log parts.old) → ResultDisks (world_of T.tree L.log parts.old) (event.Turn id now) (payloads_of T.payload_bytes L.payload_bytes) result (disks_in T.disk L.disk (world_of_parts parts.old)) (disks_in T.disk L.disk (world_of_parts parts.new)) }
    ensures stop { Sound (world_of T.tree L.log parts.old) → EventLeaves (world_of T.tree L.log parts.old) (event.Turn id now) result (disks_in T.disk L.disk (world_of_parts parts.old)) (T.left parts.new.tree.inner) (L.left parts.new.log.inner) }
{
    if let Some(refusal) = running_refusal(parts, id) {
        return Ok(refusal);
    }
    match place_of(&parts.drivers, id) {
        Some(at) => prepared_turn(alloc, parts, at, now),
        None => Ok(Answer::NotRunning),
    }
}
