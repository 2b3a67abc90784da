//! Runs of scripts for the tests.
use kz_disk::MemoryDisk;
use kz_io::{MemorySink, MemorySource};
use kz_replay::{Status, run};
use std::alloc::Global;
use std::process::Abort;

// What a call gave, which must not have failed.
fn made<T: Drop, E: Drop>(rt: &impl Abort, outcome: Result<T, E>) -> T {
    match outcome {
        Ok(value) => value,
        Err(_) => panic!(rt; "a call failed"),
    }
}

// The one word of a command.
fn words(rt: &impl Abort, alloc: Global, word: &str) -> Vec<String> {
    let mut words = Vec::new(alloc);
    made(rt, words.push(made(rt, String::from_str(alloc, word))));
    words
}

// A disk without bytes.
fn disk(rt: &impl Abort, alloc: Global) -> MemoryDisk {
    made(rt, MemoryDisk::new(alloc, Vec::new(alloc), Vec::new(alloc)))
}

/// Whether a replay of this script on an empty tree and an empty log ends with this status and prints these lines.
pub fn prints(rt: &impl Abort, alloc: Global, script: &str, status: &Status, lines: &str) -> bool {
    let script = made(rt, script.as_bytes().to_vec(alloc));
    let mut input = MemorySource::new(script, Vec::new(alloc));
    let mut out = MemorySink::new(alloc, Vec::new(alloc), Vec::new(alloc));
    let init = words(rt, alloc, "init");
    let (made, tree, log) = run(
        alloc,
        &init,
        &mut input,
        &mut out,
        disk(rt, alloc),
        disk(rt, alloc),
    );
    let replay = words(rt, alloc, "replay");
    let (ended, tree, log) = run(alloc, &replay, &mut input, &mut out, tree, log);
    let same = made == Status::Done && ended == *status && out.taken() == lines.as_bytes();
    drop(init);
    drop(replay);
    drop(tree);
    drop(log);
    drop(input);
    drop(out);
    same
}
