ghost use Rattle.std.specs.Prelude.{◌≡◌};
ghost use Rattle.kz_types.specs.declared.plan.Plan.TheVariants as plan;
ghost use Rattle.kz_spec_data.specs.Log.{IsViewOf, new_view};

use kz_driver::{Driver, Peers};
use kz_log::{LogWire, MemoryLog, MetaLog, View};
use kz_session::MemoryTree;
use kz_tree::{Tree, Wire};
use kz_types::{DriverState, Plan, Reply, Sequence};
use kz_world_parts::{TurnStart, step, turn};
use std::alloc::Global;
use std::process::Abort;

// What a call gave, which must not have failed.
fn made<T: Drop, E: Drop>(rt: &impl Abort, outcome: Result<T, E>) -> T {
    match outcome {
        Ok(value) => value,
        Err(_) => panic!(rt; "a call failed"),
    }
}

// No controller is declared, and none runs.
fn no_peers(alloc: Global) -> Peers {
    Peers {
        declared: Sequence::new(alloc),
        running: Sequence::new(alloc),
    }
}

// An empty tree, an empty log, and a driver before its first step.
fn started(alloc: Global) -> (Wire<MemoryTree>, LogWire<MemoryLog>, Driver)
    ensures view { IsViewOf (⟦<MemoryLog as MetaLog>⟧.log result.1.inner) result.2.view }
    ensures first { IsViewOf (⟦<MemoryLog as MetaLog>⟧.log result.1.inner) new_view }
    ensures tree { result.0.plan ≡ plan.Deliver }
    ensures log { result.1.plan ≡ plan.Deliver }
{
    (
        Wire::new(MemoryTree::new(alloc)),
        LogWire::new(MemoryLog::new(alloc)),
        Driver::new(alloc, 1),
    )
}

// What a turn of this driver starts from, over an empty tree and an empty log.
fn start_of(rt: &impl Abort, alloc: Global, driver: &Driver) -> TurnStart {
    let tree = Tree::new(alloc);
    let mut log = MemoryLog::new(alloc);
    let start = made(rt, TurnStart::new(alloc, &tree, &mut log, driver));
    drop(log);
    drop(tree);
    start
}

#[test]
fn a_step_without_a_request_loses_none(rt: HostRuntime) {
    let alloc = rt.alloc();
    let (mut tree, mut log, mut driver) = started(alloc);
    let peers = no_peers(alloc);
    let latest = View::new(alloc);
    let told = step(
        &mut tree,
        &mut log,
        &mut driver,
        &peers,
        5,
        Plan::LostBefore,
        &latest,
    );
    assert!(rt; matches!(told, Reply::Moved(DriverState::Inactive)));
    drop(told);
    drop(latest);
    drop(peers);
    drop(driver);
    drop(log);
    drop(tree);
}

#[test]
fn a_turn_ends_where_there_is_nothing_to_do(rt: HostRuntime) {
    let alloc = rt.alloc();
    let (mut tree, mut log, mut driver) = started(alloc);
    let peers = no_peers(alloc);
    let start = start_of(&rt, alloc, &driver);
    let latest = View::new(alloc);
    let told = made(
        &rt,
        turn(
            alloc,
            &mut tree,
            &mut log,
            &mut driver,
            &peers,
            5,
            &start,
            &latest,
        ),
    );
    assert!(rt;
        matches!(
            told.as_slice(),
            [Reply::Moved(DriverState::Inactive), Reply::Idle]
        )
    );
    drop(told);
    drop(latest);
    drop(start);
    drop(peers);
    drop(driver);
    drop(log);
    drop(tree);
}
