//! Loads with ample memory: a tree that is loaded whole, and each rule broken once.
use kz_tree::{LoadCheck, LoadFault};
use kz_types::{Row, Sequence, ZPath};
use std::alloc::Global;
use std::process::Abort;

// What a call gave, which must not have failed.
fn made<T: Drop, E: Drop>(rt: &impl Abort, outcome: Result<T, E>) -> T {
    match outcome {
        Ok(value) => value,
        Err(_) => panic!(rt; "a call failed"),
    }
}

// A znode of a table: its path and body, its version, its owner or 0 for none, and its czxid, mzxid and pzxid.
type Znode = (&'static str, &'static [u8], i32, i64, [i64; 3]);

fn row_of(rt: &impl Abort, alloc: Global, znode: Znode) -> Row {
    let (path, body, version, owner, [czxid, mzxid, pzxid]) = znode;
    Row {
        path: made(rt, ZPath::new(alloc, path.as_bytes())),
        body: Sequence::from_vec(made(rt, body.to_vec(alloc))),
        version,
        owner: if owner == 0 { None } else { Some(owner) },
        czxid,
        mzxid,
        pzxid,
    }
}

fn take(
    rt: &impl Abort,
    alloc: Global,
    check: &mut LoadCheck,
    znode: Znode,
) -> Result<(), LoadFault> {
    let row = row_of(rt, alloc, znode);
    check.take(&row)
}

// The last zxid and the live sessions of the loads below.
const LAST_ZXID: i64 = 9;

static SESSIONS: [i64; 2] = [3, 5];

// The check of a load that took these znodes.
fn loaded(rt: &impl Abort, alloc: Global, znodes: &[Znode]) -> LoadCheck {
    let mut check = made(rt, LoadCheck::new(alloc, LAST_ZXID, &SESSIONS));
    for znode in znodes {
        assert!(rt; take(rt, alloc, &mut check, *znode) == Ok(()));
    }
    check
}

// Last zxids and live sessions, and whether a load may have them.
static HEADERS: [(i64, &[i64], bool); 9] = [
    (0, &[], true),
    (9, &[3, 5], true),
    (i64::MAX, &[1, i64::MAX], true),
    (-1, &[], false),
    (i64::MIN, &[], false),
    (9, &[0], false),
    (9, &[i64::MIN], false),
    (9, &[3, 3], false),
    (9, &[5, 3], false),
];

#[test]
fn headers_are_taken_or_broken(rt: HostRuntime) {
    let alloc = rt.alloc();
    for (zxid, sessions, keeps) in &HEADERS {
        match LoadCheck::new(alloc, *zxid, sessions) {
            Ok(check) => {
                assert!(rt; *keeps);
                let tree = check.into_tree();
                assert!(rt; tree.last_zxid() == *zxid);
                assert!(rt; tree.sessions() == *sessions);
                assert!(rt; tree.count() == 0);
                drop(tree);
            }
            Err(fault) => {
                assert!(rt; !*keeps);
                assert!(rt; fault == LoadFault::Broken);
            }
        }
    }
}

const KRAFT: &[u8] =
    b"{\"brokerid\":1,\"kraftControllerEpoch\":2,\"timestamp\":\"3\",\"version\":2}";

// A tree at the limits of its rules.
static WHOLE: [Znode; 9] = [
    ("/a", b"", i32::MAX, 0, [1, 9, 9]),
    ("/brokers", b"", 0, 0, [1, 1, 2]),
    ("/brokers/ids", b"", 0, 0, [2, 2, 3]),
    ("/brokers/ids/1", b"{}", 0, 3, [3, 3, 3]),
    ("/brokers/topics", b"", 0, 0, [9, 9, 9]),
    ("/brokers/topics/t", b"{}", 1, 0, [4, 5, 4]),
    ("/controller", b"{}", 0, 5, [6, 6, 6]),
    ("/controller_epoch", b"1", 0, 0, [6, 6, 6]),
    ("/zookeeper", b"", 0, 0, [1, 1, 1]),
];

#[test]
fn a_tree_is_loaded_whole(rt: HostRuntime) {
    let alloc = rt.alloc();
    let tree = loaded(&rt, alloc, &WHOLE).into_tree();
    assert!(rt; tree.count() == 9);
    assert!(rt; tree.area_len() == 2);
    assert!(rt; tree.last_zxid() == LAST_ZXID);
    assert!(rt; tree.sessions() == SESSIONS.as_slice());
    assert!(rt; tree.row(b"/brokers/ids/1").is_some());
    assert!(rt; tree.row(b"/brokers/ids/2").is_none());
    drop(tree);
}

#[test]
fn a_znode_that_is_moved_in_is_taken_as_one_that_is_copied(rt: HostRuntime) {
    let alloc = rt.alloc();
    let mut check = made(&rt, LoadCheck::new(alloc, LAST_ZXID, &SESSIONS));
    for znode in &WHOLE {
        assert!(rt; check.take_owned(row_of(&rt, alloc, *znode)) == Ok(()));
    }
    assert!(rt; check.take_owned(row_of(&rt, alloc, WHOLE[0])) == Err(LoadFault::Broken));
    assert!(rt; check.count() == 9);
    let tree = check.into_tree();
    assert!(rt; tree.area_len() == 2);
    drop(tree);
}

// Znodes that break a rule, after these.
static BROKEN: [(&[Znode], Znode); 19] = [
    // the path doesn't rise
    (
        &[("/a", b"", 0, 0, [1, 1, 1])],
        ("/a", b"", 0, 0, [1, 1, 1]),
    ),
    (
        &[("/b", b"", 0, 0, [1, 1, 1])],
        ("/a", b"", 0, 0, [1, 1, 1]),
    ),
    // there is no parent, or it ends with a session
    (&[], ("/a/b", b"", 0, 0, [1, 1, 1])),
    (
        &[("/a", b"", 0, 3, [1, 1, 1])],
        ("/a/b", b"", 0, 0, [1, 1, 1]),
    ),
    // the version or a zxid is out of range
    (&[], ("/a", b"", -1, 0, [1, 1, 1])),
    (&[], ("/a", b"", 0, 0, [0, 1, 1])),
    (&[], ("/a", b"", 0, 0, [2, 1, 2])),
    (&[], ("/a", b"", 0, 0, [2, 2, 1])),
    (&[], ("/a", b"", 0, 0, [1, 10, 1])),
    (&[], ("/a", b"", 0, 0, [1, 1, 10])),
    // the owner is no session, or the znode may have none
    (&[], ("/a", b"", 0, 4, [1, 1, 1])),
    (&[], ("/a", b"", 0, -1, [1, 1, 1])),
    (&[], ("/latest_producer_id_block", b"", 0, 3, [1, 1, 1])),
    (&[], ("/kafka-acl", b"", 0, 3, [1, 1, 1])),
    (&[], ("/controller_epoch", b"", 0, 3, [1, 1, 1])),
    (&[], ("/migration", b"", 0, 3, [1, 1, 1])),
    (&[], ("/controller", KRAFT, 0, 3, [1, 1, 1])),
    // the path is below a control znode
    (
        &[("/controller", KRAFT, 0, 0, [1, 1, 1])],
        ("/controller/a", b"", 0, 0, [1, 1, 1]),
    ),
    (
        &[("/migration", b"", 0, 0, [1, 1, 1])],
        ("/migration/a", b"", 0, 0, [1, 1, 1]),
    ),
];

#[test]
fn each_rule_is_broken_once(rt: HostRuntime) {
    let alloc = rt.alloc();
    for (before, znode) in &BROKEN {
        let mut check = loaded(&rt, alloc, before);
        assert!(rt; take(&rt, alloc, &mut check, *znode) == Err(LoadFault::Broken));
        let tree = check.into_tree();
        assert!(rt; tree.count() == before.len());
        drop(tree);
    }
}

// The limits on znodes would take hundreds of thousands of them.
#[test]
fn a_body_passes_its_limit(rt: HostRuntime) {
    let alloc = rt.alloc();
    let mut check = loaded(&rt, alloc, &[]);
    let mut row = row_of(&rt, alloc, ("/a", b"", 0, 0, [1, 1, 1]));
    row.body = Sequence::from_vec(made(&rt, vec![in alloc; b'x'; 1_048_576]));
    assert!(rt; check.take(&row) == Err(LoadFault::Limit { number: 2 }));
    row.body = Sequence::from_vec(made(&rt, vec![in alloc; b'x'; 1_048_575]));
    assert!(rt; check.take(&row) == Ok(()));
    drop(row);
    drop(check);
}
