//! Each public call with ample memory.
use kz_resync::{Remaining, Rest, Scan};
use kz_types::{MAX_CHUNK, MAX_SCAN_ROWS, Op, Recorded, Row, Sequence, ZPath};
use std::alloc::Global;
use std::process::Abort;

// What a call gave, which must not have failed.
fn made<T: Drop, E: Drop>(rt: &impl Abort, outcome: Result<T, E>) -> T {
    match outcome {
        Ok(value) => value,
        Err(_) => panic!(rt; "a call failed"),
    }
}

fn path_of(rt: &impl Abort, alloc: Global, text: &str) -> ZPath {
    made(rt, ZPath::new(alloc, text.as_bytes()))
}

fn row_of(rt: &impl Abort, alloc: Global, text: &str) -> Row {
    Row {
        path: path_of(rt, alloc, text),
        body: Sequence::new(alloc),
        version: 0,
        czxid: 1,
        mzxid: 1,
        pzxid: 1,
        owner: None,
    }
}

// A page of so many znodes with this path.
fn page(rt: &impl Abort, alloc: Global, text: &str, count: usize) -> Vec<Row> {
    let mut rows = Vec::new(alloc);
    for _ in 0..count {
        made(rt, rows.push(row_of(rt, alloc, text)));
    }
    rows
}

#[test]
fn pages_are_held_in_order(rt: HostRuntime) {
    let alloc = rt.alloc();
    let mut scan = Scan::new(alloc);
    assert!(rt; scan.last_path().is_none());
    let whole = page(&rt, alloc, "/brokers/topics/a", MAX_SCAN_ROWS);
    assert!(rt; !made(&rt, scan.take(whole)));
    let short = page(&rt, alloc, "/brokers/topics/b", 1);
    assert!(rt; made(&rt, scan.take(short)));
    assert!(rt; scan.rows().len() == MAX_SCAN_ROWS + 1);
    assert!(rt; scan.rows()[0].path.as_str() == "/brokers/topics/a");
    match scan.last_path() {
        Some(path) => assert!(rt; path.as_str() == "/brokers/topics/b"),
        None => panic!(rt; "nothing was read"),
    }
    assert!(rt; made(&rt, scan.take(Vec::new(alloc))));
}

#[test]
fn first_items_are_done_with(rt: HostRuntime) {
    let alloc = rt.alloc();
    let mut rest = Rest::new(made(&rt, [1, 2, 3].to_vec(alloc)));
    rest.finish(2);
    assert!(rt; rest.as_slice() == [3].as_slice());
    rest.finish(0);
    assert!(rt; rest.as_slice() == [3].as_slice());
    rest.finish(2);
    assert!(rt; rest.as_slice().is_empty());
}

const TARGET: Recorded = Recorded {
    id: 3000,
    controller_epoch: 2,
    offset: 4,
    epoch: 1,
};

// Checks of `/x`, so many.
fn checks(rt: &impl Abort, alloc: Global, count: usize) -> Vec<Op> {
    let mut ops = Vec::new(alloc);
    for _ in 0..count {
        let check = Op::Check {
            path: path_of(rt, alloc, "/x"),
            version: 1,
        };
        made(rt, ops.push(check));
    }
    ops
}

#[test]
fn operations_are_written_chunk_by_chunk(rt: HostRuntime) {
    let alloc = rt.alloc();
    let mut remaining = Remaining::new(checks(&rt, alloc, MAX_CHUNK + 1), TARGET);
    assert!(rt; remaining.target() == TARGET);
    assert!(rt; remaining.ops().len() == MAX_CHUNK + 1);
    assert!(rt; remaining.next().len() == MAX_CHUNK && !remaining.is_last());
    remaining.done();
    assert!(rt; remaining.ops().len() == 1);
    assert!(rt; remaining.next().len() == 1 && remaining.is_last());
    remaining.done();
    assert!(rt; remaining.ops().is_empty() && remaining.is_last());
}
