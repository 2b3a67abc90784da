//! Files and scripts that no run of the program writes.
use crate::made::{Outcome, disk, ended, made};
use kz_disk::MemoryDisk;
use std::alloc::Global;
use std::process::Abort;

const MIGRATION: &[u8] = br#"{"event":"quorum","ids":[3000]}
{"event":"start","controller":3000}
{"event":"elect","controller":3000}
{"event":"turn","controller":3000}
"#;

const EMPTY_TREE: &[u8] = b"KZ-JOURNAL T 01\n\x00";

const EMPTY_LOG: &[u8] = b"KZ-JOURNAL L 01\n\x00";

/// A tree's file, a log's file, the exit code with which a replay of nothing ends, and what it tells.
type Case = (&'static [u8], &'static [u8], u8, &'static [u8]);

const CASES: [Case; 5] = [
    // A frame of a kind that logs don't have, which says that 4,294,967,295 batches follow.
    (
        EMPTY_TREE,
        b"KZ-JOURNAL L 01\n\xA5\x00\x00\x00\x11\x03\x00\x00\x00\x00\xFF\xFF\xFF\xFF\xFF\xFF\xFF\xFF\xFF\xFF\xFF\xFF\x00",
        8,
        b"log damaged at 16 malformed",
    ),
    // A transaction with an operation of a kind that there isn't.
    (
        b"KZ-JOURNAL T 01\n\xA5\x00\x00\x00\x0E\x01\x00\x00\x00\x00\x00\x00\x00\x01\x00\x00\x00\x01\x09\x00",
        EMPTY_LOG,
        7,
        b"tree damaged at 16",
    ),
    // A transaction that says that 4,294,967,295 operations follow.
    (
        b"KZ-JOURNAL T 01\n\xA5\x00\x00\x00\x0D\x01\x00\x00\x00\x00\x00\x00\x00\x01\xFF\xFF\xFF\xFF\x00",
        EMPTY_LOG,
        7,
        b"tree damaged at 16",
    ),
    (b"KZ-JO", EMPTY_LOG, 7, b"tree damaged at 0"),
    (EMPTY_TREE, b"", 8, b"log damaged at 0 header"),
];

fn disk_of(rt: &impl Abort, alloc: Global, bytes: &[u8]) -> MemoryDisk {
    made(
        rt,
        MemoryDisk::new(alloc, made(rt, bytes.to_vec(alloc)), Vec::new(alloc)),
    )
}

#[test]
fn damaged_files_are_told(rt: HostRuntime) {
    let alloc = rt.alloc();
    for (tree, log, code, told) in CASES {
        let end = ended(
            &rt,
            alloc,
            &["replay"],
            b"",
            disk_of(&rt, alloc, tree),
            disk_of(&rt, alloc, log),
        );
        assert!(rt; end.code == code);
        assert!(rt; end.told.as_slice() == told);
        assert!(rt; end.out.is_empty());
        assert!(rt; end.tree.bytes() == tree);
        assert!(rt; end.log.bytes() == log);
        drop(end);
    }
}

// A frame whose stated length passes the end of the file has not been written whole, so it doesn't count.
#[test]
fn a_length_past_the_end_is_no_frame(rt: HostRuntime) {
    let alloc = rt.alloc();
    let empty = ended(
        &rt,
        alloc,
        &["init"],
        b"",
        disk(&rt, alloc),
        disk(&rt, alloc),
    );
    let Outcome { tree, log, .. } = empty;
    let migrated = ended(&rt, alloc, &["replay"], MIGRATION, tree, log);
    let Outcome { tree, log, .. } = migrated;
    let mut bytes = made(&rt, log.bytes().to_vec(alloc));
    assert!(rt; bytes.len() > 21);
    bytes[17] = 0xFF;
    bytes[18] = 0xFF;
    bytes[19] = 0xFF;
    bytes[20] = 0xFE;
    let log = disk_of(&rt, alloc, &bytes);
    let checked = ended(&rt, alloc, &["check"], b"", tree, log);
    assert!(rt; checked.code == 0);
    assert!(rt; checked.out.as_slice() == b"unmigrated\n".as_slice());
    drop(bytes);
}

#[test]
fn a_line_of_200_nested_lists_is_no_event(rt: HostRuntime) {
    let alloc = rt.alloc();
    let mut line = made(&rt, vec![in alloc; b'['; 200]);
    let closing = made(&rt, vec![in alloc; b']'; 200]);
    made(&rt, line.extend_from_slice(&closing));
    made(&rt, line.push(b'\n'));
    let end = ended(
        &rt,
        alloc,
        &["replay"],
        &line,
        disk_of(&rt, alloc, EMPTY_TREE),
        disk_of(&rt, alloc, EMPTY_LOG),
    );
    assert!(rt; end.code == 2);
    assert!(rt; end.told.as_slice() == b"script line 1".as_slice());
    assert!(rt; end.out.is_empty());
    drop(line);
    drop(closing);
    drop(end);
}
