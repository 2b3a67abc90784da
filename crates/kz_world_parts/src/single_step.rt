//! One step.
ghost use Rattle.std.specs.Prelude.{◌≡◌, ◌∷◌, true};
ghost use Rattle.kz_spec_data.specs.Log.{IsViewOf};
ghost use Rattle.kz_spec_machine.specs.Machine.{pair_of, step_pairs};
ghost use Rattle.kz_spec_machine.specs.Failures.{is_failed_step};
ghost use Rattle.kz_driver.specs.Disks.{disks_of, payloads_of};
ghost use Rattle.kz_driver.specs.Steps.{shared_over, KeepsViews};
ghost use Rattle.kz_world_parts.specs.Pairs.{IsSoundPair};
ghost use Rattle.kz_world_parts.specs.TurnDisks.{StepRequestDisks};
ghost use Rattle.kz_world_parts.specs.TurnStops.{AreUp, LeavesOneOf};
ghost use Rattle.kz_world_parts.specs.Steps.{StepEnds};

use kz_driver::{Driver, Peers};
use kz_log::{LogWire, MetaLog, View};
use kz_tree::{Wire, ZTree};
use kz_types::{Plan, Reply};

/// One step of a driver, beside the latest view of the log, whose request fares by this plan. A step that fails, or is out of memory,
/// leaves the tree, the log and the driver; where a disk failed in it, a stop leaves the tree and the log from before, or those that
/// the step would have made. Afterwards both connections deliver.
pub fn step<T: ZTree, L: MetaLog>(
    tree: &mut Wire<T>,
    log: &mut LogWire<L>,
    driver: &mut Driver,
    peers: &Peers,
    now: i64,
    plan: Plan,
    latest: &View,
) -> Reply
    requires view { IsViewOf (L.log log.old.inner) driver.old.view }
    requires latest { IsViewOf (L.log log.old.inner) latest.now }
    ensures ends { IsSoundPair (shared_over T.tree L.log peers.now.declared tree.old log.old) now driver.old
        → StepEnds plan (shared_over T.tree L.log peers.now.declared tree.old log.old) peers.now.running now driver.old result (shared_over T.tree L.log peers.now.declared tree.new log.new) driver.new }
    ensures views { KeepsViews (L.log log.old.inner) (L.log log.new.inner) driver.old.id driver.new }
    ensures delivers { (tree.new.plan ≡ Plan.Deliver) × (log.new.plan ≡ Plan.Deliver) }
    ensures disks { StepRequestDisks plan (shared_over T.tree L.log peers.now.declared tree.old log.old) now driver.old (payloads_of T.payload_bytes L.payload_bytes) result
        (disks_of (T.disk tree.old.inner) (L.disk log.old.inner)) (disks_of (T.disk tree.new.inner) (L.disk log.new.inner)) }
    ensures stop { IsSoundPair (shared_over T.tree L.log peers.now.declared tree.old log.old) now driver.old → AreUp (disks_of (T.disk tree.old.inner) (L.disk log.old.inner)) → is_failed_step result ≡ true
        → LeavesOneOf (pair_of (shared_over T.tree L.log peers.now.declared tree.old log.old) ∷ step_pairs plan (shared_over T.tree L.log peers.now.declared tree.old log.old) peers.now.running now driver.old)
        (T.left tree.new.inner) (L.left log.new.inner) }
{
    tree.plan(plan);
    log.plan(plan);
    driver.step_beside(tree, log, peers, now, latest)
}
