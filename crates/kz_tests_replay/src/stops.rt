//! A stop inside each call of a disk: what it leaves is replayed by another controller, which ends in step with the log.
use kz_disk::{Disk, MemoryDisk, StopDisk};
use kz_io::{MemorySink, MemorySource};
use kz_replay::{Status, run};
use std::alloc::Global;
use std::process::Abort;

/// A migration, a check, a change of 65 configurations that takes two writes, and a rollback.
const BEGINNING: &str = r#"{"event":"quorum","ids":[3000]}
{"event":"start","controller":3000}
{"event":"elect","controller":3000}
{"event":"turn","controller":3000}
{"event":"check"}
"#;

const LAST_LINES: &str = r#"{"event":"turn","controller":3000}
{"event":"stop"}
{"event":"rollback"}
"#;

/// Another controller takes over.
const TAKEOVER: &str = r#"{"event":"quorum","ids":[3000,3001]}
{"event":"start","controller":3000}
{"event":"start","controller":3001}
{"event":"elect","controller":3001}
{"event":"turn","controller":3001}
{"event":"check"}
"#;

const ROLLBACK: &str = "{\"event\":\"rollback\"}\n";

/// The log after a rollback.
const RESET_LOG: &[u8] = b"{\"base\":-1,\"end\":-1,\"epoch\":1}\n";

const NEW_TREE: &[u8] = b"KZ-JOURNAL T 02\n\x00";

const NEW_LOG: &[u8] = b"KZ-JOURNAL L 02\n\x00";

/// Bytes that were written and not synced are as written, or these.
const FILLS: [Option<u8>; 4] = [None, Some(0), Some(0xA5), Some(0xFF)];

// What a call gave, which must not have failed.
fn made<T: Drop, E: Drop>(rt: &impl Abort, outcome: Result<T, E>) -> T {
    match outcome {
        Ok(value) => value,
        Err(_) => panic!(rt; "a call failed"),
    }
}

fn add(rt: &impl Abort, text: &mut String, more: &str) {
    made(rt, text.push_str(more));
}

fn script(rt: &impl Abort, alloc: Global) -> String {
    let mut script = made(rt, String::from_str(alloc, BEGINNING));
    add(
        rt,
        &mut script,
        "{\"event\":\"change\",\"controller\":3000,\"records\":[",
    );
    for broker in 1..66u32 {
        if broker > 1 {
            add(rt, &mut script, ",");
        }
        let record = made(
            rt,
            format!(in alloc;
                "{{\"kind\":\"Config\",\"resourceType\":4,\"resourceName\":\"{broker}\",\"name\":\"a\",\"value\":\"1\"}}"
            ),
        );
        add(rt, &mut script, &record);
    }
    add(rt, &mut script, "]}\n");
    add(rt, &mut script, LAST_LINES);
    script
}

fn disk_of(rt: &impl Abort, alloc: Global, bytes: &[u8]) -> MemoryDisk {
    made(
        rt,
        MemoryDisk::new(alloc, made(rt, bytes.to_vec(alloc)), Vec::new(alloc)),
    )
}

// How a command ended, what it printed, and both disks.
#[derive(Drop)]
struct Ending<D, E> {
    status: Status,
    out: Vec<u8>,
    tree: D,
    log: E,
}

fn ended<D: Disk + Drop, E: Disk + Drop>(
    rt: &impl Abort,
    alloc: Global,
    word: &str,
    input: &str,
    tree: D,
    log: E,
) -> Ending<D, E> {
    let mut words = Vec::new(alloc);
    made(rt, words.push(made(rt, String::from_str(alloc, word))));
    let bytes = made(rt, input.as_bytes().to_vec(alloc));
    let mut source = MemorySource::new(bytes, Vec::new(alloc));
    let mut sink = MemorySink::new(alloc, Vec::new(alloc), Vec::new(alloc));
    let (status, tree, log) = run(alloc, &words, &mut source, &mut sink, tree, log);
    let out = made(rt, sink.taken().to_vec(alloc));
    drop(words);
    drop(source);
    drop(sink);
    Ending {
        status,
        out,
        tree,
        log,
    }
}

// What a command prints for these files, with which it ends well, and what it makes of them.
fn told(
    rt: &impl Abort,
    alloc: Global,
    word: &str,
    input: &str,
    tree: &[u8],
    log: &[u8],
) -> (Vec<u8>, MemoryDisk, MemoryDisk) {
    let end = ended(
        rt,
        alloc,
        word,
        input,
        disk_of(rt, alloc, tree),
        disk_of(rt, alloc, log),
    );
    let Ending {
        status,
        out,
        tree,
        log,
    } = end;
    assert!(rt; status == Status::Done);
    (out, tree, log)
}

// Whether the last reply is that all paths agree, at the offset with which the run ends.
fn ends_closed(rt: &impl Abort, alloc: Global, out: &[u8]) -> bool {
    let Ok(text) = str::from_utf8(out) else {
        return false;
    };
    let mut reply = "";
    let mut end = "";
    for line in text.lines() {
        reply = end;
        end = line;
    }
    let Some((_, told)) = reply.split_once(' ') else {
        return false;
    };
    let Some((verdict, offset)) = told.split_once(' ') else {
        return false;
    };
    let offsets = made(rt, format!(in alloc; " offset={offset} recorded={offset}"));
    verdict == "closed" && end.as_bytes().ends_with(offsets.as_bytes())
}

// The files that a stop leaves are gone on with. Whether they are those of a rollback that had reset the log, and not yet changed
// the tree.
fn goes_on(rt: &impl Abort, alloc: Global, tree: &[u8], log: &[u8]) -> bool {
    let (out, _, _) = told(rt, alloc, "replay", TAKEOVER, tree, log);
    assert!(rt; ends_closed(rt, alloc, &out));
    drop(out);
    let (out, _, _) = told(rt, alloc, "dump-log", "", tree, log);
    let is_reset = out.as_slice() == RESET_LOG;
    drop(out);
    if !is_reset {
        return false;
    }
    let (out, changed, _) = told(rt, alloc, "replay", ROLLBACK, tree, log);
    assert!(rt; out.as_slice().starts_with(b"1 rolled-back\n"));
    drop(out);
    changed.bytes() != tree
}

// The run of the script whose tree's machine, and whose log's, stop after so many calls. Whether it is done; else, how many of
// the pairs of files that are left are those of a half-done rollback.
fn stopped(
    rt: &impl Abort,
    alloc: Global,
    tree_calls: u64,
    log_calls: u64,
    status: Status,
) -> Option<u32> {
    let script = script(rt, alloc);
    let tree = StopDisk::new(disk_of(rt, alloc, NEW_TREE), tree_calls);
    let log = StopDisk::new(disk_of(rt, alloc, NEW_LOG), log_calls);
    let end = ended(rt, alloc, "replay", &script, tree, log);
    let Ending {
        status: ending,
        out,
        tree,
        log,
    } = end;
    drop(out);
    if ending == Status::Done {
        return None;
    }
    assert!(rt; ending == status);
    let mut half_done = 0u32;
    for fill in FILLS {
        let tree = made(rt, tree.disk().image(fill));
        let log = made(rt, log.disk().image(fill));
        if goes_on(rt, alloc, &tree, &log) {
            half_done = half_done.saturating_add(1);
        }
        drop(tree);
        drop(log);
    }
    Some(half_done)
}

#[test]
fn each_stop_of_the_tree_is_gone_on_from(rt: HostRuntime) {
    let alloc = rt.alloc();
    let mut half_done = 0u32;
    let mut done = false;
    for calls in 0..400u64 {
        if !done {
            match stopped(&rt, alloc, calls, u64::MAX, Status::TreeFault) {
                Some(more) => half_done = half_done.saturating_add(more),
                None => done = true,
            }
        }
    }
    assert!(rt; done);
    assert!(rt; half_done > 0);
}

#[test]
fn each_stop_of_the_log_is_gone_on_from(rt: HostRuntime) {
    let alloc = rt.alloc();
    let mut done = false;
    for calls in 0..400u64 {
        if !done {
            done = stopped(&rt, alloc, u64::MAX, calls, Status::LogFault).is_none();
        }
    }
    assert!(rt; done);
}
