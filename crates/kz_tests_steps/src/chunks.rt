//! The operations of a write, with memory for all of them.
use kz_types::{Op, Sequence, ZPath};
use kz_writer::chunk;
use std::alloc::Global;
use std::process::Abort;

// What a call gave, which must not have failed.
fn made<T: Drop, E: Drop>(rt: &impl Abort, outcome: Result<T, E>) -> T {
    match outcome {
        Ok(value) => value,
        Err(_) => panic!(rt; "a call failed"),
    }
}

// A path of two bytes.
fn short_path(rt: &impl Abort, alloc: Global) -> ZPath {
    made(rt, ZPath::new(alloc, b"/a"))
}

fn deletes(rt: &impl Abort, alloc: Global, count: usize) -> Vec<Op> {
    let mut ops = Vec::new(alloc);
    for _ in 0..count {
        let path = short_path(rt, alloc);
        made(rt, ops.push(Op::Delete { path, version: -1 }));
    }
    ops
}

#[test]
fn a_write_has_at_most_64_operations(rt: HostRuntime) {
    let alloc = rt.alloc();
    for (count, first) in [(0, 0), (1, 1), (64, 64), (65, 64)] {
        let ops = deletes(&rt, alloc, count);
        assert!(rt; chunk(&ops).len() == first);
        drop(ops);
    }
}

// Sets of bodies of so many bytes. Each has 34 bytes more.
fn sets(rt: &impl Abort, alloc: Global, bodies: &[usize]) -> Vec<Op> {
    let mut ops = Vec::new(alloc);
    for length in bodies {
        let path = short_path(rt, alloc);
        let body = Sequence::from_vec(made(rt, vec![in alloc; b'x'; *length]));
        let version = -1;
        made(
            rt,
            ops.push(Op::Set {
                path,
                body,
                version,
            }),
        );
    }
    ops
}

static BODIES: [([usize; 3], usize); 8] = [
    ([500_000, 500_000, 500_000], 2),
    ([524_254, 524_254, 0], 2),
    ([524_254, 524_255, 0], 1),
    ([349_491, 349_491, 349_492], 3),
    ([0, 1_048_508, 0], 2),
    ([0, 1_048_509, 0], 1),
    ([1_048_542, 0, 0], 1),
    ([1_048_543, 0, 0], 1),
];

#[test]
fn a_write_has_at_most_1048576_bytes(rt: HostRuntime) {
    for (bodies, first) in &BODIES {
        let ops = sets(&rt, rt.alloc(), bodies);
        assert!(rt; chunk(&ops).len() == *first);
        drop(ops);
    }
}
