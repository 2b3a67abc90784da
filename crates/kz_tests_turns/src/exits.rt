//! Each public call with ample memory, and each refusal.
use kz_exit::{ExitFault, may_finalise, rollback};
use kz_log::{MemoryLog, MetaLog};
use kz_paths::{base_paths, root_paths};
use kz_session::MemoryTree;
use kz_tree::ZTree;
use kz_types::{MetaRecord, Op, Sequence, ZPath};
use std::alloc::Global;
use std::process::Abort;

// What a call gave, which must not have failed.
fn made<T: Drop, E: Drop>(rt: &impl Abort, outcome: Result<T, E>) -> T {
    match outcome {
        Ok(value) => value,
        Err(_) => panic!(rt; "a call failed"),
    }
}

fn create(rt: &impl Abort, alloc: Global, tree: &mut MemoryTree, path: &str, body: &[u8]) {
    let ops = [Op::Create {
        path: made(rt, ZPath::new(alloc, path.as_bytes())),
        body: Sequence::from_vec(made(rt, body.to_vec(alloc))),
        owner: None,
    }];
    made(rt, tree.multi(&ops));
    drop(ops);
}

fn create_all(rt: &impl Abort, alloc: Global, tree: &mut MemoryTree, paths: &[ZPath]) {
    for path in paths {
        create(rt, alloc, tree, path.as_str(), b"");
    }
}

// The base znodes, and the 17 roots of the migrated area.
fn rooted(rt: &impl Abort, alloc: Global) -> MemoryTree {
    let mut tree = MemoryTree::new(alloc);
    let bases = made(rt, base_paths(alloc));
    create_all(rt, alloc, &mut tree, &bases);
    drop(bases);
    let roots = made(rt, root_paths(alloc));
    create_all(rt, alloc, &mut tree, &roots);
    drop(roots);
    tree
}

static HELD: &[u8] = b"{\"kraftControllerEpoch\":1}";

static HELD_BY_BROKER: &[u8] = b"{\"version\":1,\"brokerid\":1,\"timestamp\":\"0\"}";

// The roots, with this body of `/controller`.
fn held(rt: &impl Abort, alloc: Global, body: &[u8]) -> MemoryTree {
    let mut tree = rooted(rt, alloc);
    create(rt, alloc, &mut tree, "/controller", body);
    tree
}

static RECORDED: &[u8] =
    b"{\"kraft_controller_epoch\":1,\"kraft_controller_id\":1,\"kraft_metadata_epoch\":1,\"kraft_metadata_offset\":1,\"version\":0}";

// A tree that a KRaft controller holds, and that is closed at the offset 1.
fn closed(rt: &impl Abort, alloc: Global) -> MemoryTree {
    let mut tree = held(rt, alloc, HELD);
    create(rt, alloc, &mut tree, "/migration", RECORDED);
    tree
}

// A log of epoch 1 that ends at the offset 1, with the migration in this state.
fn log_in(rt: &impl Abort, alloc: Global, state: i8) -> MemoryLog {
    let mut log = MemoryLog::new(alloc);
    let items = [MetaRecord::NoOp, MetaRecord::ZkMigrationState { state }];
    made(rt, log.elect(0, &items));
    drop(items);
    log
}

fn is_there(tree: &MemoryTree, path: &str) -> bool {
    tree.tree().row(path.as_bytes()).is_some()
}

// Whether ZooKeeper has the tree, with its 17 roots, and the log of epoch 1 is empty.
fn is_taken_back(tree: &MemoryTree, log: &MemoryLog) -> bool {
    !is_there(tree, "/controller")
        && !is_there(tree, "/migration")
        && tree.tree().area_len() == 17
        && log.epoch() == 1
        && log.base() == -1
        && log.end() == -1
}

#[test]
fn a_closed_migration_is_taken_back(rt: HostRuntime) {
    let alloc = rt.alloc();
    let mut tree = closed(&rt, alloc);
    let mut log = log_in(&rt, alloc, 2);
    made(&rt, may_finalise(tree.tree(), log.end()));
    made(&rt, rollback(alloc, &mut tree, &mut log));
    assert!(rt; is_taken_back(&tree, &log));
    let zxid = tree.tree().last_zxid();
    made(&rt, rollback(alloc, &mut tree, &mut log));
    assert!(rt; is_taken_back(&tree, &log) && tree.tree().last_zxid() == zxid);
    drop(tree);
    drop(log);
}

#[test]
fn a_claim_before_the_migration_is_taken_back(rt: HostRuntime) {
    let alloc = rt.alloc();
    let mut tree = held(&rt, alloc, HELD);
    let mut log = log_in(&rt, alloc, 1);
    made(&rt, rollback(alloc, &mut tree, &mut log));
    assert!(rt; is_taken_back(&tree, &log));
    drop(tree);
    drop(log);
}

#[test]
fn a_broker_keeps_the_tree(rt: HostRuntime) {
    let alloc = rt.alloc();
    let mut tree = held(&rt, alloc, HELD_BY_BROKER);
    let mut log = MemoryLog::new(alloc);
    made(&rt, rollback(alloc, &mut tree, &mut log));
    assert!(rt; is_there(&tree, "/controller"));
    drop(tree);
    drop(log);
}

// Why a rollback is refused, which must not have changed anything.
fn refused(
    rt: &impl Abort,
    alloc: Global,
    tree: &mut MemoryTree,
    log: &mut MemoryLog,
) -> ExitFault {
    let zxid = tree.tree().last_zxid();
    let end = log.end();
    match rollback(alloc, tree, log) {
        Ok(()) => panic!(rt; "the migration is taken back"),
        Err(fault) => {
            assert!(rt; tree.tree().last_zxid() == zxid && log.end() == end);
            fault
        }
    }
}

#[test]
fn a_finalised_migration_is_not_taken_back(rt: HostRuntime) {
    let alloc = rt.alloc();
    let mut tree = closed(&rt, alloc);
    let mut log = log_in(&rt, alloc, 3);
    let fault = refused(&rt, alloc, &mut tree, &mut log);
    assert!(rt; matches!(fault, ExitFault::Finalised));
    drop(fault);
    drop(tree);
    drop(log);
}

fn is_unclosed(fault: &ExitFault, wanted: &str) -> bool {
    match fault {
        ExitFault::Unclosed { path } => path.as_str() == wanted,
        _ => false,
    }
}

#[test]
fn a_tree_that_is_not_closed_is_not_given_back(rt: HostRuntime) {
    let alloc = rt.alloc();
    let mut log = log_in(&rt, alloc, 2);
    let mut tree = closed(&rt, alloc);
    create(&rt, alloc, &mut tree, "/config/brokers/1", b"");
    let fault = refused(&rt, alloc, &mut tree, &mut log);
    assert!(rt; is_unclosed(&fault, "/config/brokers"));
    drop(fault);
    drop(tree);
    let mut tree = held(&rt, alloc, HELD);
    let fault = refused(&rt, alloc, &mut tree, &mut log);
    assert!(rt; is_unclosed(&fault, "/migration"));
    drop(fault);
    drop(tree);
    drop(log);
}

// Whether the tree records the offset 1, and the log ends at this one.
fn is_behind(fault: &ExitFault, wanted: i64) -> bool {
    match fault {
        ExitFault::Behind { recorded, end } => *recorded == 1 && *end == wanted,
        _ => false,
    }
}

#[test]
fn a_tree_that_is_behind_is_not_given_back(rt: HostRuntime) {
    let alloc = rt.alloc();
    let mut tree = closed(&rt, alloc);
    let mut log = log_in(&rt, alloc, 2);
    let items = [MetaRecord::NoOp];
    made(&rt, log.append(1, 0, &items));
    drop(items);
    let fault = refused(&rt, alloc, &mut tree, &mut log);
    assert!(rt; is_behind(&fault, 2));
    drop(fault);
    match may_finalise(tree.tree(), 0) {
        Ok(()) => panic!(rt; "the migration may be finalised"),
        Err(fault) => assert!(rt; is_behind(&fault, 0)),
    }
    drop(tree);
    drop(log);
}
