//! Each public call with ample memory. The bounds are counted by hand.
ghost use Rattle.std.specs.Prelude.{◌≡◌};
ghost use Rattle.kz_spec_data.specs.Log.{image_of};

use kz_driver::Driver;
use kz_image::Image;
use kz_log::{MemoryLog, MetaLog};
use kz_render::bare_roots;
use kz_tree::Tree;
use kz_types::{MetaRecord, Op, Rendered, Sequence, ZPath};
use kz_world_parts::{read_whole, work};
use std::alloc::Global;
use std::process::Abort;

// What a call gave, which must not have failed.
fn made<T: Drop, E: Drop>(rt: &impl Abort, outcome: Result<T, E>) -> T {
    match outcome {
        Ok(value) => value,
        Err(_) => panic!(rt; "a call failed"),
    }
}

fn put_create(
    rt: &impl Abort,
    alloc: Global,
    ops: &mut Sequence<Op>,
    path: &str,
    body: Sequence<u8>,
) {
    let create = Op::Create {
        path: made(rt, ZPath::new(alloc, path.as_bytes())),
        body,
        owner: None,
    };
    made(rt, ops.push(create));
}

static BASES: [&str; 5] = [
    "/brokers",
    "/config",
    "/kafka-acl",
    "/kafka-acl-extended",
    "/kafka-acl-extended/prefixed",
];

// The base znodes, and the 17 roots of the migrated area.
fn rooted(rt: &impl Abort, alloc: Global) -> Tree {
    let mut ops = Sequence::new(alloc);
    for base in BASES {
        put_create(rt, alloc, &mut ops, base, Sequence::new(alloc));
    }
    let roots: Vec<Rendered> = made(rt, bare_roots(alloc));
    for root in &roots {
        put_create(
            rt,
            alloc,
            &mut ops,
            root.path.as_str(),
            Sequence::new(alloc),
        );
    }
    drop(roots);
    let mut tree = Tree::new(alloc);
    made(rt, tree.multi(ops.as_slice()));
    drop(ops);
    tree
}

// The roots, so many znodes below one of them, and one with so many bytes.
fn filled(rt: &impl Abort, alloc: Global, count: usize, bytes: usize) -> Tree {
    let mut ops = Sequence::new(alloc);
    for number in 0..count {
        let path = made(rt, format!(in alloc; "/brokers/topics/{number}"));
        put_create(rt, alloc, &mut ops, path.as_str(), Sequence::new(alloc));
        drop(path);
    }
    let mut body = Sequence::new(alloc);
    for _ in 0..bytes {
        made(rt, body.push(0));
    }
    put_create(rt, alloc, &mut ops, "/brokers/topics/a", body);
    let mut tree = rooted(rt, alloc);
    made(rt, tree.multi(ops.as_slice()));
    drop(ops);
    tree
}

// A log whose migration is committed at its end, offset 1. Its metadata are rendered as the roots.
fn migrated(rt: &impl Abort, alloc: Global) -> MemoryLog {
    let mut log = MemoryLog::new(alloc);
    let items = [MetaRecord::NoOp, MetaRecord::ZkMigrationState { state: 2 }];
    made(rt, log.elect(0, &items));
    drop(items);
    log
}

// The metadata at a log's end.
fn image_at_end(rt: &impl Abort, alloc: Global, log: &mut MemoryLog) -> Image
    ensures image { result ≡ image_of (⟦<MemoryLog as MetaLog>⟧.log log.old) }
    ensures same { ⟦<MemoryLog as MetaLog>⟧.log log.new ≡ ⟦<MemoryLog as MetaLog>⟧.log log.old }
{
    let Ok(rows) = read_whole(log) else {
        panic!(rt; "no memory")
    };
    match rows.image_at(alloc, rows.end()) {
        Ok(image) => image,
        Err(_) => panic!(rt; "no memory"),
    }
}

// The most steps of a turn of a driver that has just been started.
fn most(rt: &impl Abort, alloc: Global, tree: &Tree, log: &mut MemoryLog) -> u128 {
    let image = image_at_end(rt, alloc, log);
    let driver = Driver::new(alloc, 1);
    let most = made(rt, work(alloc, tree, &image, log, &driver));
    drop(driver);
    drop(image);
    most
}

#[test]
fn an_empty_cluster_has_the_least_bound(rt: HostRuntime) {
    let alloc = rt.alloc();
    let mut log = MemoryLog::new(alloc);
    let most = most(&rt, alloc, &Tree::new(alloc), &mut log);
    assert!(rt; most == 20);
    drop(log);
}

// So many znodes below the roots, the bytes of one more, and the bound. The log is migrated, and is rendered as the 17 roots.
static BOUNDS: [(usize, usize, u128); 4] = [
    // 18 znodes and 17, fewer than a page and than a write
    (0, 0, 20),
    // 255 znodes, fewer than a page; with the 17, four writes
    (237, 0, 24),
    // 256 znodes, a page that is read twice
    (238, 0, 26),
    // half of the bytes of a write, which the paths pass
    (0, 524_288, 21),
];

#[test]
fn a_bound_counts_znodes_and_bytes(rt: HostRuntime) {
    let alloc = rt.alloc();
    for (count, bytes, bound) in BOUNDS {
        let tree = filled(&rt, alloc, count, bytes);
        let mut log = migrated(&rt, alloc);
        let most = most(&rt, alloc, &tree, &mut log);
        assert!(rt; most == bound);
        drop(log);
        drop(tree);
    }
}
