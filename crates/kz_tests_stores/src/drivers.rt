//! The drivers of controllers.
//!
//! A test lets go of drivers and stores by `drop`, which makes its proof much shorter than their end of scope.
ghost use Rattle.std.specs.Prelude.{◌≡◌, ◌<◌, ◌≤ℤ◌, pos, length};
ghost use Rattle.kz_spec_data.specs.Log.{View, IsViewOf, new_view};

use crate::made::{body_of, broker_record, config_record, ids_of, made, path_of, put};
use kz_driver::{Driver, Peers};
use kz_log::{LogWire, MemoryLog, MetaLog, View as LogView, read_to_end, views_stay};
use kz_script::write_answer;
use kz_session::MemoryTree;
use kz_tree::{Wire, ZTree};
use kz_types::{Answer, DriverState, MetaRecord, Op, Reply, Sequence};
use std::alloc::Global;
use std::process::Abort;

/// The tree and the log, each with the connection by which drivers reach it, and the declared and running controllers.
#[derive(Drop)]
pub struct Stores {
    pub tree: Wire<MemoryTree>,
    pub log: LogWire<MemoryLog>,
    pub peers: Peers,
}

/// An empty tree, a log without a leader, and these controllers.
pub fn new_stores(rt: &impl Abort, alloc: Global, declared: &[i32], running: &[i32]) -> Stores {
    Stores {
        tree: Wire::new(MemoryTree::new(alloc)),
        log: LogWire::new(MemoryLog::new(alloc)),
        peers: Peers {
            declared: ids_of(rt, alloc, declared),
            running: ids_of(rt, alloc, running),
        },
    }
}

// One step. What the driver and others know of the log stays known.
fn step(rt: &impl Abort, driver: &mut Driver, stores: &mut Stores, replies: &mut Sequence<Reply>)
    requires { IsViewOf (⟦<MemoryLog as MetaLog>⟧.log stores.old.log.inner) driver.old.view }
    ensures view { IsViewOf (⟦<MemoryLog as MetaLog>⟧.log stores.new.log.inner) driver.new.view }
    ensures views { (v : View) → IsViewOf (⟦<MemoryLog as MetaLog>⟧.log stores.old.log.inner) v → IsViewOf (⟦<MemoryLog as MetaLog>⟧.log stores.new.log.inner) v }
{
    let reply = driver.step(&mut stores.tree, &mut stores.log, &stores.peers, 8);
    put(rt, replies, reply);
}

/// Makes as many steps as there are lines, and compares what they tell, as a turn's lines write it.
pub fn tells(rt: &impl Abort, alloc: Global, driver: &mut Driver, stores: &mut Stores, lines: &str)
    requires { IsViewOf (⟦<MemoryLog as MetaLog>⟧.log stores.old.log.inner) driver.old.view }
    ensures view { IsViewOf (⟦<MemoryLog as MetaLog>⟧.log stores.new.log.inner) driver.new.view }
    ensures views { (v : View) → IsViewOf (⟦<MemoryLog as MetaLog>⟧.log stores.old.log.inner) v → IsViewOf (⟦<MemoryLog as MetaLog>⟧.log stores.new.log.inner) v }
{
    let mut replies = Sequence::new(alloc);
    for _ in lines.lines() {
        step(rt, driver, stores, &mut replies);
    }
    let told = made(rt, write_answer(alloc, 1, &Answer::Turn(replies)));
    assert!(rt; told.as_slice() == lines.as_bytes());
}

/// The log elects a leader, which begins with these records.
pub fn elect(rt: &impl Abort, stores: &mut Stores, items: &[MetaRecord])
    requires { 0 < length items.now }
    ensures views { (v : View) → IsViewOf (⟦<MemoryLog as MetaLog>⟧.log stores.old.log.inner) v → IsViewOf (⟦<MemoryLog as MetaLog>⟧.log stores.new.log.inner) v }
    ensures first { IsViewOf (⟦<MemoryLog as MetaLog>⟧.log stores.new.log.inner) new_view }
{
    views_stay();
    let log = stores.log.inner_mut();
    let _kept = log.epoch();
    match log.elect(8, items) {
        Ok(_) => {}
        Err(_) => panic!(rt; "an election failed"),
    }
    let _kept = log.epoch();
}

/// A controller that is elected with this epoch.
pub fn elected(alloc: Global, id: i32, epoch: i32) -> Driver
    requires { pos 1 ≤ℤ epoch }
    ensures { result.view ≡ new_view }
{
    let mut driver = Driver::new(alloc, id);
    driver.elected(epoch);
    driver
}

// A controller that is elected with this epoch, and has read nothing of the log.
fn elected_later(alloc: Global, stores: &Stores, id: i32, epoch: i32) -> Driver
    requires { pos 1 ≤ℤ epoch }
    ensures { IsViewOf (⟦<MemoryLog as MetaLog>⟧.log stores.now.log.inner) result.view }
{
    views_stay();
    let _kept = stores.log.inner().epoch();
    elected(alloc, id, epoch)
}

/// The records of a first election.
pub const MIGRATING: [MetaRecord; 2] = [
    MetaRecord::NoOp,
    MetaRecord::ZkMigrationState { state: 1 },
];

const NEXT: [MetaRecord; 1] = [MetaRecord::NoOp];

// The replies of a first migration.
const MIGRATION: &str = "1 moved WAIT_FOR_BROKERS
1 looked
1 moved BECOME_CONTROLLER
1 looked
1 claimed 1
1 read 0
1 appended 2
1 appended 4
1 looked
1 read 0
1 recorded 4
1 moved DUAL_WRITE
";

/// Whether a znode has this body.
pub fn has_body(tree: &MemoryTree, path: &str, body: &str) -> bool {
    match tree.tree().row(path.as_bytes()) {
        Some(row) => row.body.as_slice() == body.as_bytes(),
        None => false,
    }
}

// A tree and a log that the controller 3000 has migrated, and that controller, which rests.
fn migrated(rt: &impl Abort, alloc: Global) -> (Stores, Driver)
    ensures { IsViewOf (⟦<MemoryLog as MetaLog>⟧.log result.0.log.inner) result.1.view }
{
    let mut stores = new_stores(rt, alloc, &[3000], &[3000]);
    elect(rt, &mut stores, &MIGRATING);
    let mut driver = elected(alloc, 3000, 1);
    tells(rt, alloc, &mut driver, &mut stores, MIGRATION);
    (stores, driver)
}

#[test]
fn a_driver_migrates_an_empty_tree(rt: HostRuntime) {
    let alloc = rt.alloc();
    let (mut stores, mut driver) = migrated(&rt, alloc);
    tells(&rt, alloc, &mut driver, &mut stores, "1 idle\n");
    assert!(rt; driver.state() == DriverState::DualWrite);
    assert!(rt; driver.id() == 3000);
    assert!(rt; driver.epoch() == Some(1));
    assert!(rt; stores.log.inner().end() == 4);
    assert!(rt; stores.tree.inner().tree().last_zxid() == 2);
    assert!(rt; has_body(stores.tree.inner(), "/controller_epoch", "1"));
    assert!(rt;
        has_body(
            stores.tree.inner(),
            "/migration",
            "{\"kraft_controller_epoch\":1,\"kraft_controller_id\":3000,\"kraft_metadata_epoch\":1,\"kraft_metadata_offset\":4,\"version\":0}"
        )
    );
    drop(driver);
    drop(stores);
}

// Appends records as the leader of the epoch 1.
fn append_all(rt: &impl Abort, stores: &mut Stores, items: &[MetaRecord])
    requires { 0 < length items.now }
    ensures { (v : View) → IsViewOf (⟦<MemoryLog as MetaLog>⟧.log stores.old.log.inner) v → IsViewOf (⟦<MemoryLog as MetaLog>⟧.log stores.new.log.inner) v }
{
    views_stay();
    let log = stores.log.inner_mut();
    let _kept = log.epoch();
    match log.append(1, 8, items) {
        Ok(_) => {}
        Err(_) => panic!(rt; "an append failed"),
    }
}

/// Appends a record as the leader of the epoch 1.
pub fn append(rt: &impl Abort, stores: &mut Stores, item: MetaRecord)
    ensures { (v : View) → IsViewOf (⟦<MemoryLog as MetaLog>⟧.log stores.old.log.inner) v → IsViewOf (⟦<MemoryLog as MetaLog>⟧.log stores.new.log.inner) v }
{
    append_all(rt, stores, &[item]);
}

#[test]
fn a_change_is_written_back_in_dual_write(rt: HostRuntime) {
    let alloc = rt.alloc();
    let (mut stores, mut driver) = migrated(&rt, alloc);
    append(&rt, &mut stores, config_record(&rt, alloc, "1", "a", "v"));
    let lines = "1 looked\n1 recorded 5\n1 idle\n";
    tells(&rt, alloc, &mut driver, &mut stores, lines);
    assert!(rt;
        has_body(
            stores.tree.inner(),
            "/config/brokers/1",
            "{\"config\":{\"a\":\"v\"},\"version\":1}"
        )
    );
    drop(driver);
    drop(stores);
}

#[test]
fn a_driver_waits_for_controllers(rt: HostRuntime) {
    let alloc = rt.alloc();
    let mut stores = new_stores(&rt, alloc, &[3002, 3000, 3001], &[3000]);
    elect(&rt, &mut stores, &MIGRATING);
    let mut driver = elected(alloc, 3000, 1);
    let lines = "1 wait-quorum 3001\n1 wait-quorum 3001\n";
    tells(&rt, alloc, &mut driver, &mut stores, lines);
    drop(driver);
    drop(stores);
}

/// Creates a znode.
pub fn create(rt: &impl Abort, alloc: Global, tree: &mut MemoryTree, path: &str, body: &str) {
    let mut ops = Sequence::new(alloc);
    let create = Op::Create {
        path: path_of(rt, alloc, path),
        body: body_of(rt, alloc, body),
        owner: None,
    };
    put(rt, &mut ops, create);
    made(rt, tree.multi(ops.as_slice()));
}

#[test]
fn a_driver_waits_for_brokers(rt: HostRuntime) {
    let alloc = rt.alloc();
    let mut stores = new_stores(&rt, alloc, &[3000], &[3000]);
    for path in ["/brokers", "/brokers/ids", "/brokers/ids/7"] {
        create(&rt, alloc, stores.tree.inner_mut(), path, "");
    }
    elect(&rt, &mut stores, &MIGRATING);
    let mut driver = elected(alloc, 3000, 1);
    let lines = "1 moved WAIT_FOR_BROKERS\n1 looked\n1 wait-broker 7\n";
    tells(&rt, alloc, &mut driver, &mut stores, lines);
    append(&rt, &mut stores, broker_record(alloc, 7, true));
    let lines = "1 looked\n1 moved BECOME_CONTROLLER\n1 looked\n1 claimed 1\n";
    tells(&rt, alloc, &mut driver, &mut stores, lines);
    drop(driver);
    drop(stores);
}

// The tree of a ZooKeeper-mode controller.
static HELD: [(&str, &str); 3] = [
    (
        "/controller",
        "{\"version\":1,\"brokerid\":1,\"timestamp\":\"0\"}",
    ),
    ("/controller_epoch", "5"),
    ("/brokers", ""),
];

#[test]
fn a_claim_takes_the_tree_of_another_controller(rt: HostRuntime) {
    let alloc = rt.alloc();
    let mut stores = new_stores(&rt, alloc, &[3000], &[3000]);
    for (path, body) in &HELD {
        create(&rt, alloc, stores.tree.inner_mut(), path, body);
    }
    elect(&rt, &mut stores, &MIGRATING);
    let mut driver = elected(alloc, 3000, 1);
    let lines =
        "1 moved WAIT_FOR_BROKERS\n1 looked\n1 moved BECOME_CONTROLLER\n1 looked\n1 claimed 6\n";
    tells(&rt, alloc, &mut driver, &mut stores, lines);
    assert!(rt; has_body(stores.tree.inner(), "/controller_epoch", "6"));
    assert!(rt;
        has_body(
            stores.tree.inner(),
            "/controller",
            "{\"brokerid\":3000,\"kraftControllerEpoch\":1,\"timestamp\":\"8\",\"version\":2}"
        )
    );
    drop(driver);
    drop(stores);
}

#[test]
fn a_write_is_fenced_by_a_later_claim(rt: HostRuntime) {
    let alloc = rt.alloc();
    let (mut stores, mut driver) = migrated(&rt, alloc);
    elect(&rt, &mut stores, &NEXT);
    let mut other = elected(alloc, 3001, 2);
    let lines = "1 moved BECOME_CONTROLLER\n1 looked\n1 claimed 2\n";
    tells(&rt, alloc, &mut other, &mut stores, lines);
    let lines = "1 looked\n1 fenced-write 0\n1 idle\n";
    tells(&rt, alloc, &mut driver, &mut stores, lines);
    assert!(rt; driver.epoch().is_none());
    drop(other);
    drop(driver);
    drop(stores);
}

#[test]
fn a_claim_is_fenced_by_a_higher_epoch(rt: HostRuntime) {
    let alloc = rt.alloc();
    let (mut stores, first) = migrated(&rt, alloc);
    drop(first);
    elect(&rt, &mut stores, &NEXT);
    elect(&rt, &mut stores, &NEXT);
    let mut later = elected(alloc, 3002, 3);
    let lines = "1 moved BECOME_CONTROLLER\n1 looked\n1 claimed 2\n";
    tells(&rt, alloc, &mut later, &mut stores, lines);
    let mut driver = elected_later(alloc, &stores, 3001, 2);
    let lines = "1 moved BECOME_CONTROLLER\n1 fenced-epoch 3\n1 idle\n";
    tells(&rt, alloc, &mut driver, &mut stores, lines);
    drop(driver);
    drop(later);
    drop(stores);
}

// The latest view of the log.
fn latest_view(rt: &impl Abort, alloc: Global, stores: &mut Stores) -> LogView
    ensures latest { IsViewOf (⟦<MemoryLog as MetaLog>⟧.log stores.new.log.inner) result }
    ensures views { (v : View) → IsViewOf (⟦<MemoryLog as MetaLog>⟧.log stores.old.log.inner) v → IsViewOf (⟦<MemoryLog as MetaLog>⟧.log stores.new.log.inner) v }
{
    views_stay();
    let mut latest = LogView::new(alloc);
    let log = stores.log.inner_mut();
    let _kept = log.epoch();
    made(rt, read_to_end(&mut latest, log));
    latest
}

// One step beside the latest view of the log. What the driver and others know of the log stays known.
fn step_beside(
    rt: &impl Abort,
    driver: &mut Driver,
    stores: &mut Stores,
    latest: &LogView,
    replies: &mut Sequence<Reply>,
)
    requires view { IsViewOf (⟦<MemoryLog as MetaLog>⟧.log stores.old.log.inner) driver.old.view }
    requires latest { IsViewOf (⟦<MemoryLog as MetaLog>⟧.log stores.old.log.inner) latest.now }
    ensures view { IsViewOf (⟦<MemoryLog as MetaLog>⟧.log stores.new.log.inner) driver.new.view }
    ensures views { (v : View) → IsViewOf (⟦<MemoryLog as MetaLog>⟧.log stores.old.log.inner) v → IsViewOf (⟦<MemoryLog as MetaLog>⟧.log stores.new.log.inner) v }
{
    let reply = driver.step_beside(&mut stores.tree, &mut stores.log, &stores.peers, 8, latest);
    put(rt, replies, reply);
}

// Makes as many steps as there are lines beside the latest view of the log, and compares what they tell.
fn tells_beside(
    rt: &impl Abort,
    alloc: Global,
    driver: &mut Driver,
    stores: &mut Stores,
    latest: &LogView,
    lines: &str,
)
    requires view { IsViewOf (⟦<MemoryLog as MetaLog>⟧.log stores.old.log.inner) driver.old.view }
    requires latest { IsViewOf (⟦<MemoryLog as MetaLog>⟧.log stores.old.log.inner) latest.now }
{
    let mut replies = Sequence::new(alloc);
    for _ in lines.lines() {
        step_beside(rt, driver, stores, latest, &mut replies);
    }
    let told = made(rt, write_answer(alloc, 1, &Answer::Turn(replies)));
    assert!(rt; told.as_slice() == lines.as_bytes());
}

// A migrated log with a configuration that isn't written back, and a controller that is elected then and has read nothing of it.
fn failed_over(rt: &impl Abort, alloc: Global) -> (Stores, Driver)
    ensures { IsViewOf (⟦<MemoryLog as MetaLog>⟧.log result.0.log.inner) result.1.view }
{
    let (mut stores, first) = migrated(rt, alloc);
    drop(first);
    append(rt, &mut stores, config_record(rt, alloc, "1", "a", "v"));
    elect(rt, &mut stores, &NEXT);
    let driver = elected(alloc, 3000, 2);
    (stores, driver)
}

// The replies after a failover.
const FAILOVER: &str = "1 moved BECOME_CONTROLLER
1 looked
1 claimed 2
1 looked
1 read 17
1 recorded 6
1 moved DUAL_WRITE
1 idle
";

// Whether the driver is in DUAL_WRITE, has all of the log, and has written the configuration.
fn has_taken_over(driver: &Driver, stores: &Stores) -> bool {
    driver.state() == DriverState::DualWrite
        && driver.view().position() == 6
        && driver.view().epoch() == 2
        && driver.view().image().state() == 2
        && has_body(
            stores.tree.inner(),
            "/config/brokers/1",
            "{\"config\":{\"a\":\"v\"},\"version\":1}",
        )
}

#[test]
fn a_driver_alone_takes_over(rt: HostRuntime) {
    let alloc = rt.alloc();
    let (mut stores, mut driver) = failed_over(&rt, alloc);
    tells(&rt, alloc, &mut driver, &mut stores, FAILOVER);
    assert!(rt; has_taken_over(&driver, &stores));
    drop(driver);
    drop(stores);
}

#[test]
fn a_driver_beside_a_view_takes_over_as_one_alone(rt: HostRuntime) {
    let alloc = rt.alloc();
    let (mut stores, mut driver) = failed_over(&rt, alloc);
    let latest = latest_view(&rt, alloc, &mut stores);
    tells_beside(&rt, alloc, &mut driver, &mut stores, &latest, FAILOVER);
    assert!(rt; has_taken_over(&driver, &stores));
    drop(latest);
    drop(driver);
    drop(stores);
}
