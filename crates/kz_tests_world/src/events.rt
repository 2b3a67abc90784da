ghost use Rattle.std.specs.Prelude.{◌≡◌, ◌≤◌, ◌∷◌, [], All, length};
ghost use Rattle.kz_spec_machine.specs.Sound.{IsLawful, IsLawfulOp};

use kz_log::{MemoryLog, MetaLog};
use kz_session::MemoryTree;
use kz_tree::ZTree;
use kz_types::{
    Answer, ConfigRecord, DriverState, Event, MetaRecord, Op, Plan, Reply, Sequence, Text, Verdict,
    ZPath,
};
use kz_world::World;
use std::alloc::Global;
use std::process::Abort;

// What a call gave, which must not have failed.
fn made<T: Drop, E: Drop>(rt: &impl Abort, outcome: Result<T, E>) -> T {
    match outcome {
        Ok(value) => value,
        Err(_) => panic!(rt; "a call failed"),
    }
}

fn text_of(rt: &impl Abort, alloc: Global, text: &str) -> Text {
    made(rt, Text::from_str(alloc, text))
}

fn config(rt: &impl Abort, alloc: Global) -> MetaRecord {
    MetaRecord::Config(ConfigRecord {
        resource_type: 4,
        resource_name: text_of(rt, alloc, "1"),
        name: text_of(rt, alloc, "a"),
        value: Some(text_of(rt, alloc, "v")),
    })
}

// A list of one item.
fn one<T: Drop>(rt: &impl Abort, alloc: Global, item: T) -> Sequence<T>
    ensures { result ≡ item ∷ [] }
{
    let mut items = Sequence::new(alloc);
    match items.push(item) {
        Ok(()) => items,
        Err(_) => panic!(rt; "no memory"),
    }
}

// The controller 1 is declared.
fn quorum(rt: &impl Abort, alloc: Global) -> Event
    ensures { IsLawful result }
{
    Event::Quorum {
        ids: one(rt, alloc, 1),
    }
}

// Declares the controller 1.
fn declare(rt: &impl Abort, alloc: Global, world: &mut World<MemoryTree, MemoryLog>) {
    let quorum = quorum(rt, alloc);
    drop(world.event(&quorum));
    drop(quorum);
}

// A world over this log in which the controller 1 is declared.
fn declared_over(rt: &impl Abort, alloc: Global, log: MemoryLog) -> World<MemoryTree, MemoryLog> {
    let mut world = World::new(alloc, MemoryTree::new(alloc), log);
    declare(rt, alloc, &mut world);
    world
}

// A world over an empty log in which the controller 1 is declared.
fn declared(rt: &impl Abort, alloc: Global) -> World<MemoryTree, MemoryLog> {
    declared_over(rt, alloc, MemoryLog::new(alloc))
}

const START: Event = Event::Start { controller: 1 };

// A world in which it runs.
fn started(rt: &impl Abort, alloc: Global) -> World<MemoryTree, MemoryLog> {
    let mut world = declared(rt, alloc);
    drop(world.event(&START));
    world
}

#[test]
fn a_controller_starts_once(rt: HostRuntime) {
    let mut world = declared(&rt, rt.alloc());
    let first = world.event(&START);
    assert!(rt; matches!(first, Answer::Done));
    let second = world.event(&START);
    assert!(rt; matches!(second, Answer::AlreadyRunning));
    drop([first, second]);
    drop(world);
}

#[test]
fn a_turn_over_an_empty_cluster_has_the_least_bound(rt: HostRuntime) {
    let mut world = started(&rt, rt.alloc());
    if world.runs(1) {
        assert!(rt; world.work(1) == Ok(20));
    } else {
        panic!(rt; "it runs");
    }
    assert!(rt; !world.runs(2));
    drop(world);
}

const ELECT: Event = Event::Elect {
    controller: 1,
    now: 6,
};

const STOP: Event = Event::Stop {
    controller: Some(1),
};

const STOP_ALL: Event = Event::Stop { controller: None };

#[test]
fn a_controller_stops_once(rt: HostRuntime) {
    let mut world = started(&rt, rt.alloc());
    let first = world.event(&STOP);
    assert!(rt; matches!(first, Answer::Done));
    let second = world.event(&STOP);
    assert!(rt; matches!(second, Answer::NotRunning));
    let all = world.event(&STOP_ALL);
    assert!(rt; matches!(all, Answer::Done));
    drop([first, second, all]);
    drop(world);
}

const STEP: Event = Event::Step {
    controller: 1,
    now: 6,
    plan: Plan::LostBefore,
};

#[test]
fn a_step_that_asks_nothing_is_not_lost(rt: HostRuntime) {
    let mut world = started(&rt, rt.alloc());
    let first = world.event(&STEP);
    assert!(rt; matches!(first, Answer::Step(Reply::Moved(DriverState::Inactive))));
    let second = world.event(&STEP);
    assert!(rt; matches!(second, Answer::Step(Reply::Idle)));
    drop([first, second]);
    drop(world);
}

const TURN: Event = Event::Turn {
    controller: 1,
    now: 6,
};

// How many replies a turn has.
fn reply_count(told: &Answer) -> usize {
    match told {
        Answer::Turn(replies) => replies.len(),
        _ => 0,
    }
}

#[test]
fn a_turn_goes_on_until_its_driver_rests(rt: HostRuntime) {
    let mut world = started(&rt, rt.alloc());
    let first = world.event(&TURN);
    assert!(rt; reply_count(&first) == 2);
    let second = world.event(&TURN);
    assert!(rt; reply_count(&second) == 1);
    drop([first, second]);
    drop(world);
}

#[test]
fn an_election_has_an_epoch(rt: HostRuntime) {
    let mut world = started(&rt, rt.alloc());
    let told = world.event(&ELECT);
    assert!(rt;
        matches!(
            told,
            Answer::Elected {
                epoch: 1,
                offset: 1
            }
        )
    );
    assert!(rt; world.end() == 1);
    drop(told);
    drop(world);
}

#[test]
fn a_change_needs_a_leader(rt: HostRuntime) {
    let alloc = rt.alloc();
    let mut world = started(&rt, alloc);
    let told = answer_to_change(&mut world, one(&rt, alloc, config(&rt, alloc)));
    assert!(rt; matches!(told, Answer::NotLeader));
    drop(told);
    drop(world);
}

// An operation that makes a znode.
fn create(rt: &impl Abort, alloc: Global, path: &str, body: Sequence<u8>) -> Op
    ensures { IsLawfulOp result }
{
    match ZPath::new(alloc, path.as_bytes()) {
        Ok(path) => Op::Create {
            path,
            body,
            owner: None,
        },
        Err(_) => panic!(rt; "no path"),
    }
}

// A log that ends at offset 1, with the migration in this state.
fn log_in(rt: &impl Abort, alloc: Global, state: i8) -> MemoryLog {
    let mut log = MemoryLog::new(alloc);
    let items = [MetaRecord::NoOp, MetaRecord::ZkMigrationState { state }];
    made(rt, log.elect(5, &items));
    drop(items);
    log
}

// A world over a log with the migration in this state, which ends at offset 2, and whose controller leads it.
fn leading_in(rt: &impl Abort, alloc: Global, state: i8) -> World<MemoryTree, MemoryLog> {
    let mut world = declared_over(rt, alloc, log_in(rt, alloc, state));
    drop(world.event(&START));
    drop(world.event(&ELECT));
    world
}

// Such a world whose migration is committed.
fn leading(rt: &impl Abort, alloc: Global) -> World<MemoryTree, MemoryLog> {
    leading_in(rt, alloc, 2)
}

#[test]
fn a_log_that_is_not_migrated_is_not_compared(rt: HostRuntime) {
    let mut world = started(&rt, rt.alloc());
    let told = world.event(&Event::Check);
    assert!(rt; matches!(told, Answer::Check(Verdict::Unmigrated)));
    drop(told);
    drop(world);
}

const REGISTER: Event = Event::Register {
    controller: 1,
    broker: 7,
    migrating: true,
    now: 8,
};

#[test]
fn a_broker_is_registered_by_the_leader(rt: HostRuntime) {
    let alloc = rt.alloc();
    let mut world = World::new(alloc, MemoryTree::new(alloc), MemoryLog::new(alloc));
    let unknown = world.event(&REGISTER);
    assert!(rt; matches!(unknown, Answer::UnknownController));
    declare(&rt, alloc, &mut world);
    let at_rest = world.event(&REGISTER);
    assert!(rt; matches!(at_rest, Answer::NotRunning));
    drop(world.event(&START));
    let follower = world.event(&REGISTER);
    assert!(rt; matches!(follower, Answer::NotLeader));
    assert!(rt; world.end() == -1);
    drop(world.event(&ELECT));
    let told = world.event(&REGISTER);
    assert!(rt; matches!(told, Answer::Appended { offset: 2 }));
    let again = world.event(&REGISTER);
    assert!(rt; matches!(again, Answer::Appended { offset: 3 }));
    drop([unknown, at_rest, follower, told, again]);
    drop(world);
}

// The answer of the controller to these records.
fn answer_to_change(
    world: &mut World<MemoryTree, MemoryLog>,
    records: Sequence<MetaRecord>,
) -> Answer
    requires { 1 ≤ length records }
{
    let change = Event::Change {
        controller: 1,
        records,
        now: 9,
    };
    let told = world.event(&change);
    drop(change);
    told
}

// The configuration's record, and a second one.
fn config_and(rt: &impl Abort, alloc: Global, second: MetaRecord) -> Sequence<MetaRecord>
    ensures { 1 ≤ length result }
{
    let mut records = one(rt, alloc, config(rt, alloc));
    match records.push(second) {
        Ok(()) => records,
        Err(_) => panic!(rt; "no memory"),
    }
}

#[test]
fn a_change_of_two_records_is_one_batch(rt: HostRuntime) {
    let alloc = rt.alloc();
    let mut world = leading(&rt, alloc);
    let records = config_and(&rt, alloc, config(&rt, alloc));
    let told = answer_to_change(&mut world, records);
    assert!(rt; matches!(told, Answer::Appended { offset: 4 }));
    assert!(rt; world.end() == 4);
    drop(told);
    drop(world);
}

#[test]
fn a_change_wants_a_migrated_log(rt: HostRuntime) {
    let alloc = rt.alloc();
    let mut world = started(&rt, alloc);
    drop(world.event(&ELECT));
    let told = answer_to_change(&mut world, one(&rt, alloc, config(&rt, alloc)));
    assert!(rt; matches!(told, Answer::NotMigrated));
    drop(told);
    drop(world);
}

#[test]
fn a_bad_record_is_told_with_its_index(rt: HostRuntime) {
    let alloc = rt.alloc();
    let mut world = leading(&rt, alloc);
    let records = config_and(&rt, alloc, MetaRecord::ZkMigrationState { state: 3 });
    let told = answer_to_change(&mut world, records);
    assert!(rt; matches!(told, Answer::BadRecord { index: 1, why: 1 }));
    assert!(rt; world.end() == 2);
    drop(told);
    drop(world);
}

// So many records of a configuration, and one more.
fn configs(rt: &impl Abort, alloc: Global, more: u32) -> Sequence<MetaRecord>
    ensures { 1 ≤ length result }
{
    let mut records = Vec::new(alloc);
    for _done in 0..more {
        made(rt, records.push(config(rt, alloc)));
    }
    match records.push(config(rt, alloc)) {
        Ok(()) => Sequence::from_vec(records),
        Err(_) => panic!(rt; "no memory"),
    }
}

#[test]
fn a_change_has_at_most_a_thousand_records(rt: HostRuntime) {
    let alloc = rt.alloc();
    let mut world = leading(&rt, alloc);
    let over = answer_to_change(&mut world, configs(&rt, alloc, 1000));
    assert!(rt; matches!(over, Answer::Over { number: 8 }));
    assert!(rt; world.end() == 2);
    let most = answer_to_change(&mut world, configs(&rt, alloc, 999));
    assert!(rt; matches!(most, Answer::Appended { offset: 1002 }));
    drop([over, most]);
    drop(world);
}

const FINALISE: Event = Event::Finalise {
    controller: 1,
    now: 9,
};

#[test]
fn a_driver_that_rests_is_not_finalised(rt: HostRuntime) {
    let mut world = leading(&rt, rt.alloc());
    let told = world.event(&FINALISE);
    assert!(rt; matches!(told, Answer::NotDualWrite { .. }));
    drop(told);
    drop(world);
}

#[test]
fn a_migration_that_is_not_committed_is_not_finalised(rt: HostRuntime) {
    let mut world = started(&rt, rt.alloc());
    let follower = world.event(&FINALISE);
    assert!(rt; matches!(follower, Answer::NotLeader));
    drop(world.event(&ELECT));
    let told = world.event(&FINALISE);
    assert!(rt; matches!(told, Answer::NotMigrated));
    drop([follower, told]);
    drop(world);
}

#[test]
fn a_migration_that_is_over_stays_so(rt: HostRuntime) {
    let mut world = leading_in(&rt, rt.alloc(), 3);
    let told = world.event(&FINALISE);
    assert!(rt; matches!(told, Answer::Finalised));
    drop(world.event(&STOP));
    let back = world.event(&Event::Rollback);
    assert!(rt; matches!(back, Answer::Finalised));
    assert!(rt; world.end() == 2);
    drop([told, back]);
    drop(world);
}

#[test]
fn a_migration_is_taken_back_once_no_controller_runs(rt: HostRuntime) {
    let mut world = started(&rt, rt.alloc());
    drop(world.event(&ELECT));
    let running = world.event(&Event::Rollback);
    assert!(rt; matches!(running, Answer::Running { id: 1 }));
    assert!(rt; world.end() == 1);
    drop(world.event(&STOP));
    let told = world.event(&Event::Rollback);
    assert!(rt; matches!(told, Answer::RolledBack));
    assert!(rt; world.end() == -1);
    drop([running, told]);
    drop(world);
}

#[test]
fn a_log_is_cut_where_an_offset_is_recorded(rt: HostRuntime) {
    let mut world = started(&rt, rt.alloc());
    let early = world.event(&Event::Snapshot);
    assert!(rt; matches!(early, Answer::TooEarly));
    drop(world.event(&ELECT));
    drop(world.event(&TURN));
    let told = world.event(&Event::Snapshot);
    assert!(rt; matches!(told, Answer::Done));
    assert!(rt; world.end() == 4);
    drop([early, told]);
    drop(world);
}

#[test]
fn a_session_begins_once_and_ends_once(rt: HostRuntime) {
    let alloc = rt.alloc();
    let mut world = World::new(alloc, MemoryTree::new(alloc), MemoryLog::new(alloc));
    let begun = world.event(&Event::ZkOpen { session: 5 });
    assert!(rt; matches!(begun, Answer::DoneAt { zxid: 1 }));
    let known = world.event(&Event::ZkOpen { session: 5 });
    assert!(rt; matches!(known, Answer::Known));
    let ended = world.event(&Event::ZkExpire { session: 5 });
    assert!(rt; matches!(ended, Answer::DoneAt { zxid: 2 }));
    let unknown = world.event(&Event::ZkExpire { session: 5 });
    assert!(rt; matches!(unknown, Answer::Unknown));
    assert!(rt; world.zxid() == 2);
    let recorded = made(&rt, world.recorded());
    assert!(rt; recorded.is_none());
    drop([begun, known, ended, unknown]);
    drop(world);
}

// A client makes a znode of this path.
fn client(rt: &impl Abort, alloc: Global, path: &str) -> Event
    ensures { IsLawful result }
{
    Event::Zk {
        ops: one(rt, alloc, create(rt, alloc, path, Sequence::new(alloc))),
    }
}

// The answer to a client that makes a znode of this path.
fn answer_to(
    rt: &impl Abort,
    alloc: Global,
    world: &mut World<MemoryTree, MemoryLog>,
    path: &str,
) -> Answer {
    let client = client(rt, alloc, path);
    let told = world.event(&client);
    drop(client);
    told
}

// A world whose `/controller` is of this body.
fn held(rt: &impl Abort, alloc: Global, body: &[u8]) -> World<MemoryTree, MemoryLog> {
    let body = Sequence::from_vec(made(rt, body.to_vec(alloc)));
    let ops = [create(rt, alloc, "/controller", body)];
    let mut tree = MemoryTree::new(alloc);
    made(rt, tree.multi(&ops));
    drop(ops);
    World::new(alloc, tree, MemoryLog::new(alloc))
}

static KRAFT: &[u8] = b"{\"kraftControllerEpoch\":1}";

static ZOOKEEPER: &[u8] = b"{\"version\":1}";

#[test]
fn a_held_tree_is_kept_from_clients(rt: HostRuntime) {
    let alloc = rt.alloc();
    let mut world = held(&rt, alloc, KRAFT);
    let reserved = answer_to(&rt, alloc, &mut world, "/migration");
    assert!(rt; matches!(reserved, Answer::Reserved { .. }));
    let base = answer_to(&rt, alloc, &mut world, "/config");
    assert!(rt; matches!(base, Answer::KraftHolds { .. }));
    let other = answer_to(&rt, alloc, &mut world, "/consumers");
    assert!(rt; matches!(other, Answer::DoneAt { zxid: 2 }));
    drop([reserved, base, other]);
    drop(world);
}

#[test]
fn a_tree_of_zookeeper_is_open_to_clients(rt: HostRuntime) {
    let alloc = rt.alloc();
    let mut world = held(&rt, alloc, ZOOKEEPER);
    let below = answer_to(&rt, alloc, &mut world, "/controller/a");
    assert!(rt; matches!(below, Answer::Reserved { .. }));
    let base = answer_to(&rt, alloc, &mut world, "/config");
    assert!(rt; matches!(base, Answer::DoneAt { zxid: 2 }));
    let again = answer_to(&rt, alloc, &mut world, "/config");
    assert!(rt;
        matches!(
            again,
            Answer::Refused {
                index: 0,
                code: -110
            }
        )
    );
    drop([below, base, again]);
    drop(world);
}

#[test]
fn a_world_gives_its_parts_back(rt: HostRuntime) {
    let world = started(&rt, rt.alloc());
    let (tree, log) = world.into_parts();
    assert!(rt; tree.tree().count() == 0);
    assert!(rt; log.end() == -1);
    drop(tree);
    drop(log);
}
