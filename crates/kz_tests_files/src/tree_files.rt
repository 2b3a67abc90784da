use kz_disk::MemoryDisk;
use kz_journal::Journal;
use kz_session::{SessionFault, ZSessions};
use kz_tree::{Tree, TreeFault, ZTree};
use kz_tree_store::{LoadLast, TreeOpenFault, TreeStore};
use kz_types::{Op, Row, Sequence, ZPath};
use std::alloc::Global;
use std::process::Abort;

// What a call gave, which must not have failed.
fn made<T: Drop, E: Drop>(rt: &impl Abort, outcome: Result<T, E>) -> T {
    match outcome {
        Ok(value) => value,
        Err(_) => panic!(rt; "a call failed"),
    }
}

// A disk with these bytes, whose call of this number fails; none has the greatest number.
fn disk_of(rt: &impl Abort, alloc: Global, file: &[u8], fail: u64) -> MemoryDisk {
    let file = made(rt, file.to_vec(alloc));
    let fail = made(rt, [fail].to_vec(alloc));
    made(rt, MemoryDisk::new(alloc, file, fail))
}

fn open(rt: &impl Abort, alloc: Global, disk: MemoryDisk) -> TreeStore<MemoryDisk> {
    match TreeStore::attach(alloc, disk) {
        Ok(store) => store,
        Err(_) => panic!(rt; "the file isn't opened"),
    }
}

// A tree in a new file.
fn new_tree(rt: &impl Abort, alloc: Global) -> TreeStore<MemoryDisk> {
    match Journal::create(alloc, disk_of(rt, alloc, b"", u64::MAX), b'T') {
        Ok(journal) => open(rt, alloc, journal.into_disk()),
        Err(_) => panic!(rt; "the file isn't made"),
    }
}

fn path_of(rt: &impl Abort, alloc: Global, path: &[u8]) -> ZPath {
    made(rt, ZPath::new(alloc, path))
}

fn body_of(rt: &impl Abort, alloc: Global, body: &[u8]) -> Sequence<u8> {
    Sequence::from_vec(made(rt, body.to_vec(alloc)))
}

fn creation(rt: &impl Abort, alloc: Global, path: &[u8], body: &[u8], owner: Option<i64>) -> Op {
    Op::Create {
        path: path_of(rt, alloc, path),
        body: body_of(rt, alloc, body),
        owner,
    }
}

fn change(rt: &impl Abort, alloc: Global, path: &[u8], body: &[u8]) -> Op {
    Op::Set {
        path: path_of(rt, alloc, path),
        body: body_of(rt, alloc, body),
        version: 0,
    }
}

// Whether a tree has a znode with this body and version.
fn has_row(tree: &Tree, path: &[u8], body: &[u8], version: i32) -> bool {
    match tree.row(path) {
        Some(row) => row.body.as_slice() == body && row.version == version,
        None => false,
    }
}

// Session 5 begins and owns a znode, and ends after the other znode is changed.
static CHANGED: &[u8] =
    b"KZ-JOURNAL T 02\n\xA5\x00\x00\x00\x11\x8C\x13\x85\xD3\x04\x00\x00\x00\x00\x00\x00\x00\x01\x00\x00\x00\x00\x00\x00\x00\x05\xA5\x00\x00\x004Zq\xDC\xFA\x01\x00\x00\x00\x00\x00\x00\x00\x02\x00\x00\x00\x02\x01\x00\x00\x00\x02/a\x00\x00\x00\x01x\x00\x00\x00\x00\x00\x00\x00\x05\x01\x00\x00\x00\x02/b\x00\x00\x00\x00\x00\x00\x00\x00\x00\x00\x00\x00\xA5\x00\x00\x00\x1D@\x82\x9A\xC1\x01\x00\x00\x00\x00\x00\x00\x00\x03\x00\x00\x00\x01\x02\x00\x00\x00\x02/b\x00\x00\x00\x00\x00\x00\x00\x01y\xA5\x00\x00\x00\x11\xF9\x06M\xF7\x05\x00\x00\x00\x00\x00\x00\x00\x04\x00\x00\x00\x00\x00\x00\x00\x05\x00";

#[test]
fn changes_are_found_again(rt: HostRuntime) {
    let alloc = rt.alloc();
    let mut store = new_tree(&rt, alloc);
    assert!(rt; store.is_fresh());
    assert!(rt; store.tree().last_zxid() == 0);
    assert!(rt; store.begin_session(5) == Ok(1));
    assert!(rt; store.begin_session(5) == Err(SessionFault::Known));
    let first = creation(&rt, alloc, b"/a", b"x", Some(5));
    let second = creation(&rt, alloc, b"/b", b"", None);
    assert!(rt; store.multi(&[first, second]) == Ok(2));
    let again = creation(&rt, alloc, b"/b", b"", None);
    assert!(rt;
        store.multi(&[again])
            == Err(TreeFault::Refused {
                index: 0,
                code: -110
            })
    );
    let set = change(&rt, alloc, b"/b", b"y");
    assert!(rt; store.multi(&[set]) == Ok(3));
    assert!(rt; store.end_session(5) == Ok(4));
    assert!(rt; store.end_session(5) == Err(SessionFault::Unknown));
    assert!(rt; !store.is_fresh());
    let disk = store.into_disk();
    assert!(rt; disk.bytes() == CHANGED);
    let store = open(&rt, alloc, disk);
    assert!(rt; !store.is_fresh());
    assert!(rt; store.tree().last_zxid() == 4);
    assert!(rt; store.tree().sessions().is_empty());
    assert!(rt; store.tree().count() == 1);
    assert!(rt; has_row(store.tree(), b"/b", b"y", 1));
    drop(store);
}

// Files that are damaged, and where: none; another letter; a sum; a zxid; a kind; and an end of a load that hasn't begun.
static DAMAGED: [(&[u8], u64); 6] = [
    (b"", 0),
    (b"KZ-JOURNAL L 02\n\x00", 0),
    (
        b"KZ-JOURNAL T 02\n\xA5\x00\x00\x00\x11\x8C\x13\x85\xD3\x04\x00\x00\x00\x00\x00\x00\x00\x01\x00\x00\x00\x00\x00\x00\x00\x04\x00",
        16,
    ),
    (
        b"KZ-JOURNAL T 02\n\xA5\x00\x00\x00\x11\x8C\x13\x85\xD3\x04\x00\x00\x00\x00\x00\x00\x00\x01\x00\x00\x00\x00\x00\x00\x00\x05\xA5\x00\x00\x00\x11>f\x83\xED\x05\x00\x00\x00\x00\x00\x00\x00\x03\x00\x00\x00\x00\x00\x00\x00\x05\x00",
        42,
    ),
    (b"KZ-JOURNAL T 01\n\xA5\x00\x00\x00\x01\x06\x00", 16),
    (
        b"KZ-JOURNAL T 01\n\xA5\x00\x00\x00\x11\x04\x00\x00\x00\x00\x00\x00\x00\x01\x00\x00\x00\x00\x00\x00\x00\x05\xA5\x00\x00\x00\x1D\x03\x00\x00\x00\x00\x00\x00\x00\x04\x00\x00\x00\x02\x00\x00\x00\x00\x00\x00\x00\x07\x00\x00\x00\x00\x00\x00\x00\t\x00",
        38,
    ),
];

#[test]
fn a_damaged_place_is_told(rt: HostRuntime) {
    let alloc = rt.alloc();
    for (file, at) in DAMAGED {
        match TreeStore::attach(alloc, disk_of(&rt, alloc, file, u64::MAX)) {
            Ok(_) => panic!(rt; "the file is opened"),
            Err((disk, fault)) => {
                assert!(rt; fault == TreeOpenFault::Damaged { at });
                assert!(rt; disk.bytes() == file);
                drop(disk);
            }
        }
    }
}

// Session 5 begins, and part of the frame of its end.
static CUT: &[u8] =
    b"KZ-JOURNAL T 02\n\xA5\x00\x00\x00\x11\x8C\x13\x85\xD3\x04\x00\x00\x00\x00\x00\x00\x00\x01\x00\x00\x00\x00\x00\x00\x00\x05\xA5\x00\x00\x00\x11\xCAXU\xA5\x05\x00\x00\x00\x00";

#[test]
fn a_cut_frame_never_counts(rt: HostRuntime) {
    let alloc = rt.alloc();
    let mut store = open(&rt, alloc, disk_of(&rt, alloc, CUT, u64::MAX));
    assert!(rt; store.tree().sessions() == [5].as_slice());
    assert!(rt; store.begin_session(6) == Ok(2));
    let store = open(&rt, alloc, store.into_disk());
    assert!(rt; store.tree().sessions() == [5, 6].as_slice());
    drop(store);
}

// ---- a seal, and a disk that fails

// Session 5 begins, in a file without sums.
static PLAIN: &[u8] =
    b"KZ-JOURNAL T 01\n\xA5\x00\x00\x00\x11\x04\x00\x00\x00\x00\x00\x00\x00\x01\x00\x00\x00\x00\x00\x00\x00\x05\x00";

// The same with a seal, and then its end.
static SEALED: &[u8] =
    b"KZ-JOURNAL T 01\n\xA5\x00\x00\x00\x11\x04\x00\x00\x00\x00\x00\x00\x00\x01\x00\x00\x00\x00\x00\x00\x00\x05\xA5\xFF\xFF\xFF\xFF\xE3\xEBV\xB0\xA5\x00\x00\x00\x11\xCAXU\xA5\x05\x00\x00\x00\x00\x00\x00\x00\x02\x00\x00\x00\x00\x00\x00\x00\x05\x00";

#[test]
fn a_file_without_sums_is_sealed(rt: HostRuntime) {
    let alloc = rt.alloc();
    let mut store = open(&rt, alloc, disk_of(&rt, alloc, PLAIN, u64::MAX));
    assert!(rt; store.seal() == Ok(true));
    assert!(rt; store.seal() == Ok(false));
    assert!(rt; store.end_session(5) == Ok(2));
    let disk = store.into_disk();
    assert!(rt; disk.bytes() == SEALED);
    let store = open(&rt, alloc, disk);
    assert!(rt; store.tree().last_zxid() == 2);
    assert!(rt; store.tree().sessions().is_empty());
    drop(store);
}

// How many requests were done, of a seal, a session that begins, a multi and the session's end, before one wasn't; and whether that
// one, if any, told of a failed call of the disk.
fn done_before_fault(
    rt: &impl Abort,
    alloc: Global,
    store: &mut TreeStore<MemoryDisk>,
) -> (usize, bool) {
    match store.seal() {
        Ok(_) => {}
        Err(fault) => return (0, fault == TreeFault::Device),
    }
    match store.begin_session(10) {
        Ok(_) => {}
        Err(fault) => return (1, fault == SessionFault::Device),
    }
    let op = creation(rt, alloc, b"/c", b"", Some(10));
    match store.multi(&[op]) {
        Ok(_) => {}
        Err(fault) => return (2, fault == TreeFault::Device),
    }
    match store.end_session(10) {
        Ok(_) => (4, true),
        Err(fault) => (3, fault == SessionFault::Device),
    }
}

// An empty file of a tree without sums.
static EMPTY: &[u8] = b"KZ-JOURNAL T 01\n\x00";

// Whichever call of the disk fails, its request answers that it does, and the store is down from then on. Each request fails once
// at least.
#[test]
fn a_store_is_down_after_a_failed_call(rt: HostRuntime) {
    let alloc = rt.alloc();
    let mut failed = [false; 5];
    for call in 0..60u64 {
        let mut store = match TreeStore::attach(alloc, disk_of(&rt, alloc, EMPTY, call)) {
            Ok(store) => store,
            Err((_, fault)) => {
                assert!(rt; fault == TreeOpenFault::DiskFault);
                continue;
            }
        };
        let (count, is_told) = done_before_fault(&rt, alloc, &mut store);
        assert!(rt; is_told);
        if count < 4 {
            assert!(rt; store.seal() == Err(TreeFault::Down));
            assert!(rt; store.multi(&[]) == Err(TreeFault::Down));
            assert!(rt; store.begin_session(11) == Err(SessionFault::Down));
            assert!(rt; store.end_session(7) == Err(SessionFault::Down));
        }
        assert!(rt; count < 5);
        failed[count] = true;
        drop(store);
    }
    assert!(rt; failed == [true; 5]);
}
