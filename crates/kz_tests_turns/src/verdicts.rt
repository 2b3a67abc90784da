//! Each verdict, with ample memory.
use kz_log::{LogRows, MemoryLog, MetaLog, read_all};
use kz_render::bare_roots;
use kz_tree::Tree;
use kz_types::{ConfigRecord, MetaRecord, Op, Rendered, Sequence, Text, Verdict, ZPath};
use kz_verdict::verdict;
use std::alloc::Global;
use std::process::Abort;

// What a call gave, which must not have failed.
fn made<T: Drop, E: Drop>(rt: &impl Abort, outcome: Result<T, E>) -> T {
    match outcome {
        Ok(value) => value,
        Err(_) => panic!(rt; "a call failed"),
    }
}

fn put_create(
    rt: &impl Abort,
    alloc: Global,
    ops: &mut Sequence<Op>,
    path: &str,
    body: Sequence<u8>,
) {
    let create = Op::Create {
        path: made(rt, ZPath::new(alloc, path.as_bytes())),
        body,
        owner: None,
    };
    made(rt, ops.push(create));
}

static BASES: [&str; 5] = [
    "/brokers",
    "/config",
    "/kafka-acl",
    "/kafka-acl-extended",
    "/kafka-acl-extended/prefixed",
];

// The base znodes, and the roots of the migrated area.
fn rooted(rt: &impl Abort, alloc: Global) -> Tree {
    let mut ops = Sequence::new(alloc);
    for base in BASES {
        put_create(rt, alloc, &mut ops, base, Sequence::new(alloc));
    }
    let roots: Vec<Rendered> = made(rt, bare_roots(alloc));
    for root in &roots {
        put_create(
            rt,
            alloc,
            &mut ops,
            root.path.as_str(),
            Sequence::new(alloc),
        );
    }
    drop(roots);
    let mut tree = Tree::new(alloc);
    made(rt, tree.multi(ops.as_slice()));
    tree
}

// A log of epoch 1 whose migration is committed at its end, offset 1.
fn migrated(rt: &impl Abort, alloc: Global) -> MemoryLog {
    let mut log = MemoryLog::new(alloc);
    let items = [MetaRecord::NoOp, MetaRecord::ZkMigrationState { state: 2 }];
    made(rt, log.elect(0, &items));
    drop(items);
    log
}

// What `/migration` holds where the log was written up to offset 1.
static RECORDED: &[u8] =
    b"{\"kraft_controller_epoch\":1,\"kraft_controller_id\":1,\"kraft_metadata_epoch\":1,\"kraft_metadata_offset\":1,\"version\":0}";

fn add_recorded(rt: &impl Abort, alloc: Global, tree: &mut Tree) {
    let mut ops = Sequence::new(alloc);
    let body = Sequence::from_vec(made(rt, RECORDED.to_vec(alloc)));
    put_create(rt, alloc, &mut ops, "/migration", body);
    made(rt, tree.multi(ops.as_slice()));
}

#[test]
fn a_recorded_tree_is_closed(rt: HostRuntime) {
    let alloc = rt.alloc();
    let mut tree = rooted(&rt, alloc);
    add_recorded(&rt, alloc, &mut tree);
    let mut log = migrated(&rt, alloc);
    let rows = made(&rt, read_all(&mut log));
    let told = made(&rt, verdict(alloc, &tree, &rows));
    assert!(rt; matches!(told, Verdict::Closed { offset: 1 }));
    drop(told);
    drop(rows);
    drop(log);
    drop(tree);
}

fn disagrees_at(verdict: &Verdict, wanted: &str) -> bool {
    match verdict {
        Verdict::Disagrees { path } => path.as_str() == wanted,
        _ => false,
    }
}

#[test]
fn a_root_that_is_missing_disagrees(rt: HostRuntime) {
    let alloc = rt.alloc();
    let mut tree = Tree::new(alloc);
    add_recorded(&rt, alloc, &mut tree);
    let mut log = migrated(&rt, alloc);
    let rows = made(&rt, read_all(&mut log));
    let told = made(&rt, verdict(alloc, &tree, &rows));
    assert!(rt; disagrees_at(&told, "/brokers/topics"));
    drop(told);
    drop(rows);
    drop(log);
    drop(tree);
}

#[test]
fn a_log_that_is_not_migrated_is_not_compared(rt: HostRuntime) {
    let alloc = rt.alloc();
    let tree = rooted(&rt, alloc);
    let rows = LogRows::new(alloc);
    let told = made(&rt, verdict(alloc, &tree, &rows));
    assert!(rt; matches!(told, Verdict::Unmigrated));
}

#[test]
fn a_tree_without_a_record_is_not_compared(rt: HostRuntime) {
    let alloc = rt.alloc();
    let tree = rooted(&rt, alloc);
    let mut log = migrated(&rt, alloc);
    let rows = made(&rt, read_all(&mut log));
    let told = made(&rt, verdict(alloc, &tree, &rows));
    assert!(rt; matches!(told, Verdict::Unrecorded));
}

// The configuration of the broker 1.
fn config(rt: &impl Abort, alloc: Global) -> MetaRecord {
    MetaRecord::Config(ConfigRecord {
        resource_type: 4,
        resource_name: made(rt, Text::from_str(alloc, "1")),
        name: made(rt, Text::from_str(alloc, "a")),
        value: Some(made(rt, Text::from_str(alloc, "v"))),
    })
}

// Whether this path alone is ahead, and agrees at this batch end.
fn is_ahead(told: &Verdict, path: &str, end: i64) -> bool {
    match told {
        Verdict::Ahead { paths, .. } => match paths.as_slice() {
            [only] => only.path.as_str() == path && only.offset == end,
            _ => false,
        },
        _ => false,
    }
}

#[test]
fn a_tree_under_a_write_is_ahead(rt: HostRuntime) {
    let alloc = rt.alloc();
    let mut log = migrated(&rt, alloc);
    let items = [config(&rt, alloc)];
    made(&rt, log.append(1, 0, &items));
    let rows = made(&rt, read_all(&mut log));
    let mut tree = rooted(&rt, alloc);
    add_recorded(&rt, alloc, &mut tree);
    let mut ops = Sequence::new(alloc);
    let body = b"{\"config\":{\"a\":\"v\"},\"version\":1}";
    let body = Sequence::from_vec(made(&rt, body.to_vec(alloc)));
    put_create(&rt, alloc, &mut ops, "/config/brokers/1", body);
    made(&rt, tree.multi(ops.as_slice()));
    let told = made(&rt, verdict(alloc, &tree, &rows));
    assert!(rt; is_ahead(&told, "/config/brokers/1", 2));
    drop(told);
    drop(tree);
    drop(rows);
    drop(log);
    drop(items);
    drop(ops);
}
