//! The operations between two renderings.
use crate::made::{OpText, are_ops, image_of, made, path_of, put};
use crate::reader::tree_of;
use kz_image::Image;
use kz_render::render;
use kz_session::MemoryTree;
use kz_tree::ZTree;
use kz_types::{NoMemory, Op, Sequence};
use kz_writer::{chunk, diff_ops, diff_renderings};
use std::alloc::Global;
use std::process::Abort;

// The operations that make the znodes of some metadata those of other metadata.
fn difference(alloc: Global, before: &Image, after: &Image) -> Result<Vec<Op>, NoMemory> {
    let have = render(alloc, before)?;
    let want = render(alloc, after)?;
    diff_renderings(alloc, &have, &want)
}

static BEFORE: [(&str, &str, &str); 4] = [
    ("", "a", "1"),
    ("1", "a", "1"),
    ("10", "a", "1"),
    ("2", "a", "1"),
];

static AFTER: [(&str, &str, &str); 4] = [
    ("1", "a", "2"),
    ("11", "a", "1"),
    ("2", "a", "1"),
    ("3", "a", "1"),
];

static DIFFERENCE: [OpText; 5] = [
    ("delete", "/config/brokers/<default>", "", -1),
    ("delete", "/config/brokers/10", "", -1),
    (
        "set",
        "/config/brokers/1",
        "{\"config\":{\"a\":\"2\"},\"version\":1}",
        -1,
    ),
    (
        "create",
        "/config/brokers/11",
        "{\"config\":{\"a\":\"1\"},\"version\":1}",
        0,
    ),
    (
        "create",
        "/config/brokers/3",
        "{\"config\":{\"a\":\"1\"},\"version\":1}",
        0,
    ),
];

#[test]
fn deletes_fall_and_creates_and_sets_rise(rt: HostRuntime) {
    let alloc = rt.alloc();
    let before = image_of(&rt, alloc, &BEFORE);
    let after = image_of(&rt, alloc, &AFTER);
    let ops = made(&rt, difference(alloc, &before, &after));
    assert!(rt; are_ops(&ops, &DIFFERENCE));
    let none = made(&rt, difference(alloc, &after, &after));
    assert!(rt; none.is_empty());
}

// The operations that make a tree's area the znodes of some metadata.
fn written_back(alloc: Global, tree: &MemoryTree, image: &Image) -> Result<Vec<Op>, NoMemory> {
    let area = tree.tree().migrated_rows()?;
    let want = render(alloc, image)?;
    diff_ops(alloc, &area, &want)
}

// The znodes of an area that is left, but for its roots: the configuration of a topic that isn't there, that of a broker as
// another tool wrote it, and one that names nothing.
static AREA: [(&str, &str); 19] = [
    ("/brokers/topics", ""),
    (
        "/config/brokers/1",
        "{\"version\":1, \"config\":{\"a\":\"1\"}}",
    ),
    ("/config/brokers/01", ""),
    ("/config/clients", ""),
    ("/config/ips", ""),
    ("/config/topics/t", "x"),
    ("/config/users", "x"),
    ("/kafka-acl-extended/prefixed/Cluster", ""),
    ("/kafka-acl-extended/prefixed/DelegationToken", ""),
    ("/kafka-acl-extended/prefixed/Group", ""),
    ("/kafka-acl-extended/prefixed/Topic", ""),
    ("/kafka-acl-extended/prefixed/TransactionalId", ""),
    ("/kafka-acl/Cluster", ""),
    ("/kafka-acl/DelegationToken", ""),
    ("/kafka-acl/Group", ""),
    ("/kafka-acl/Topic", ""),
    ("/kafka-acl/Topic/a/b", ""),
    ("/kafka-acl/TransactionalId", ""),
    ("/brokers/ids", ""),
];

static KEPT: [(&str, &str, &str); 1] = [("1", "a", "1")];

static WRITTEN_BACK: [OpText; 7] = [
    ("delete", "/kafka-acl/Topic/a/b", "", -1),
    ("delete", "/kafka-acl/Topic/a", "", -1),
    ("delete", "/config/topics/t", "", -1),
    ("delete", "/config/brokers/01", "", -1),
    (
        "set",
        "/config/brokers/1",
        "{\"config\":{\"a\":\"1\"},\"version\":1}",
        -1,
    ),
    ("set", "/config/users", "", -1),
    ("create", "/latest_producer_id_block", "", 0),
];

#[test]
fn an_area_is_made_what_the_metadata_says(rt: HostRuntime) {
    let alloc = rt.alloc();
    let tree = tree_of(&rt, alloc, &AREA);
    let image = image_of(&rt, alloc, &KEPT);
    let ops = made(&rt, written_back(alloc, &tree, &image));
    assert!(rt; are_ops(&ops, &WRITTEN_BACK));
    drop(ops);
    drop(image);
    drop(tree);
}

// So many checks.
fn checks(rt: &impl Abort, alloc: Global, count: usize) -> Sequence<Op> {
    let mut ops = Sequence::new(alloc);
    for _ in 0..count {
        let path = path_of(rt, alloc, "/a");
        put(rt, &mut ops, Op::Check { path, version: 5 });
    }
    ops
}

#[test]
fn a_chunk_has_at_most_64_operations(rt: HostRuntime) {
    let alloc = rt.alloc();
    for (count, length) in [(0, 0), (64, 64), (65, 64)] {
        let ops = checks(&rt, alloc, count);
        assert!(rt; chunk(ops.as_slice()).len() == length);
    }
}
