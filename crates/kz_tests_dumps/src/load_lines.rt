use kz_io::MemorySource;
use kz_load::{LoadStop, read_tree, stop_status};
use kz_tree::LoadCheck;
use kz_types::Status;
use std::alloc::Global;
use std::process::Abort;

// What a call gave, which must not have failed.
fn made<T: Drop, E: Drop>(rt: &impl Abort, outcome: Result<T, E>) -> T {
    match outcome {
        Ok(value) => value,
        Err(_) => panic!(rt; "a call failed"),
    }
}

// Reads an input, of which the reads with these numbers fail.
fn read(rt: &impl Abort, alloc: Global, input: &str, fail: &[u64]) -> Result<LoadCheck, LoadStop> {
    let bytes = made(rt, input.as_bytes().to_vec(alloc));
    let fail = made(rt, fail.to_vec(alloc));
    let mut source = MemorySource::new(bytes, fail);
    read_tree(alloc, &mut source)
}

// An input, and the tree that it is: its last zxid, its sessions, and the paths of its znodes.
type Tree = (&'static str, i64, &'static [i64], &'static [&'static str]);

static TREES: [Tree; 3] = [
    ("{}", 1, &[], &[]),
    ("{\"zxid\":9,\"sessions\":[3,5]}\n", 9, &[3, 5], &[]),
    (
        "{\"zxid\":9,\"sessions\":[3]}\n{\"path\":\"/a\"}\n{\"path\":\"/a/b\",\"owner\":3,\"czxid\":9}\n{\"path\":\"/c\",\"text\":\"x\"}",
        9,
        &[3],
        &["/a", "/a/b", "/c"],
    ),
];

fn has_paths(check: &LoadCheck, paths: &[&str]) -> bool {
    if check.count() != paths.len() {
        return false;
    }
    for (row, path) in check.rows().zip(paths) {
        if row.path.bytes() != path.as_bytes() {
            return false;
        }
    }
    true
}

#[test]
fn trees_are_read(rt: HostRuntime) {
    let alloc = rt.alloc();
    for (input, zxid, sessions, paths) in &TREES {
        let check = made(&rt, read(&rt, alloc, input, &[]));
        assert!(rt; check.zxid() == *zxid);
        assert!(rt; check.sessions() == *sessions);
        assert!(rt; has_paths(&check, paths));
        drop(check);
    }
}

// An input, the numbers of its reads that fail, and why it stops.
type Stopped = (&'static str, &'static [u64], LoadStop);

static STOPPED: [Stopped; 7] = [
    ("", &[], LoadStop::BadLine { line: 1 }),
    ("{\"path\":\"/a\"}\n", &[], LoadStop::BadLine { line: 1 }),
    (
        "{}\n{\"path\":\"/a/b\"}\n{\"path\":\"/a\"}\n",
        &[],
        LoadStop::BadLine { line: 2 },
    ),
    (
        "{}\n{\"path\":\"/a\"}\n{}",
        &[],
        LoadStop::BadLine { line: 3 },
    ),
    (
        "{}\n{\"path\":\"/a\"}\n\n",
        &[],
        LoadStop::BadLine { line: 3 },
    ),
    ("{}\n", &[0], LoadStop::ReadFault),
    ("{}\n", &[1], LoadStop::ReadFault),
];

#[test]
fn others_stop(rt: HostRuntime) {
    let alloc = rt.alloc();
    for (input, fail, stop) in &STOPPED {
        match read(&rt, alloc, input, fail) {
            Ok(_) => panic!(rt; "a tree was read"),
            Err(why) => assert!(rt; why == *stop),
        }
    }
}

// The limits that a znode and an input may pass: why a load stops there, the number of the limit, and its greatest value.
static LIMITS: [(LoadStop, u8, u64); 5] = [
    (LoadStop::Limit { number: 2 }, 2, 1_048_575),
    (LoadStop::Limit { number: 3 }, 3, 200_000),
    (LoadStop::Limit { number: 4 }, 4, 200_000),
    (LoadStop::LongLine, 10, 2_097_152),
    (LoadStop::LongInput, 11, 4_294_967_296),
];

#[test]
fn stops_have_their_status(rt: HostRuntime) {
    assert!(rt; stop_status(LoadStop::BadLine { line: 3 }) == Status::Script { line: 3 });
    assert!(rt; stop_status(LoadStop::ReadFault) == Status::ReadFault);
    assert!(rt; stop_status(LoadStop::NoMemory) == Status::NoMemory);
    for (stop, which, number) in &LIMITS {
        let status = Status::Limit {
            which: *which,
            number: *number,
        };
        assert!(rt; stop_status(*stop) == status);
    }
}
