//! Runs of commands for the tests.
use kz_disk::MemoryDisk;
use kz_io::{MemorySink, MemorySource};
use kz_replay::{code, run, text};
use std::alloc::Global;
use std::process::Abort;

/// A command, its input, the exit code with which it ends, what it tells on standard error, and what it prints.
pub struct Run {
    pub words: &'static [&'static str],
    pub input: &'static str,
    pub code: u8,
    pub told: &'static str,
    pub out: &'static str,
}

/// What a command gave: its exit code, what it tells on standard error, what it printed, and both disks.
#[derive(Drop)]
pub struct Outcome {
    pub code: u8,
    pub told: Vec<u8>,
    pub out: Vec<u8>,
    pub tree: MemoryDisk,
    pub log: MemoryDisk,
}

/// What a call gave, which must not have failed.
pub fn made<T: Drop, E: Drop>(rt: &impl Abort, outcome: Result<T, E>) -> T {
    match outcome {
        Ok(value) => value,
        Err(_) => panic!(rt; "a call failed"),
    }
}

/// A disk without bytes.
pub fn disk(rt: &impl Abort, alloc: Global) -> MemoryDisk {
    made(rt, MemoryDisk::new(alloc, Vec::new(alloc), Vec::new(alloc)))
}

/// Runs a command on these disks.
pub fn ended(
    rt: &impl Abort,
    alloc: Global,
    words: &[&str],
    input: &[u8],
    tree: MemoryDisk,
    log: MemoryDisk,
) -> Outcome {
    let mut list = Vec::new(alloc);
    for word in words {
        made(rt, list.push(made(rt, String::from_str(alloc, word))));
    }
    let mut source = MemorySource::new(made(rt, input.to_vec(alloc)), Vec::new(alloc));
    let mut sink = MemorySink::new(alloc, Vec::new(alloc), Vec::new(alloc));
    let (status, tree, log) = run(alloc, &list, &mut source, &mut sink, tree, log);
    let told = made(rt, text(alloc, &status));
    let out = made(rt, sink.taken().to_vec(alloc));
    let code = code(&status);
    drop(list);
    drop(source);
    drop(sink);
    Outcome {
        code,
        told,
        out,
        tree,
        log,
    }
}

/// Whether each of these commands ends as it should, one after another on two disks without bytes.
pub fn all_end(rt: &impl Abort, alloc: Global, runs: &[Run]) -> bool {
    let mut tree = disk(rt, alloc);
    let mut log = disk(rt, alloc);
    let mut same = true;
    for run in runs {
        let end = ended(rt, alloc, run.words, run.input.as_bytes(), tree, log);
        let as_told = end.code == run.code
            && end.told.as_slice() == run.told.as_bytes()
            && end.out.as_slice() == run.out.as_bytes();
        same = same && as_told;
        let Outcome {
            tree: new_tree,
            log: new_log,
            ..
        } = end;
        tree = new_tree;
        log = new_log;
    }
    same
}
