//! The program: hands the words, the standard streams and the two files to the top call.
#![tactic(auto)]

use kz_disk::{FailDisk, FileDisk};
use kz_io::{Sink, Source, StdSink, StdSource};
use kz_replay::{Status, code, run, text};
use kz_types::NoMemory;
use std::alloc::Global;
use std::fs::OpenOptions;
use std::io::{ErrorKind, Print};
use std::path::Path;
use std::process::ExitCode;
use std::{env, io};

// The words after the program's name. Where one isn't Unicode there are none, which name no command.
fn words(rt: &HostRuntime) -> Result<Vec<String>, NoMemory> {
    let mut words = Vec::new(rt.alloc());
    let all = match env::args(rt) {
        Ok(all) => all,
        Err(error) => {
            return if error.kind() == ErrorKind::OutOfMemory {
                Err(NoMemory)
            } else {
                Ok(words)
            };
        }
    };
    for word in all.skip(1) {
        words.push(word)?;
    }
    Ok(words)
}

// Opens a file for reading and writing, and makes it where it is absent. `None` where it doesn't open.
fn open(rt: &HostRuntime, path: &str) -> Option<FileDisk> {
    let opened = OpenOptions::new()
        .read(true)
        .write(true)
        .create(true)
        .open(rt, Path::new(path));
    match opened {
        Ok(file) => Some(FileDisk::new(file)),
        Err(_) => None,
    }
}

// Runs the command that these words name on these streams and two files. A file that doesn't open is a disk that fails each call.
fn run_on<S: Source, K: Sink>(
    alloc: Global,
    words: &[String],
    input: &mut S,
    out: &mut K,
    tree: Option<FileDisk>,
    log: Option<FileDisk>,
) -> Status {
    match (tree, log) {
        (Some(tree), Some(log)) => run(alloc, words, input, out, tree, log).0,
        (Some(tree), None) => run(alloc, words, input, out, tree, FailDisk::new()).0,
        (None, Some(log)) => run(alloc, words, input, out, FailDisk::new(), log).0,
        (None, None) => run(alloc, words, input, out, FailDisk::new(), FailDisk::new()).0,
    }
}

// Runs what the words name: the tree's file, the log's file, and a command. Fewer words than three name no command, and no file is
// opened.
fn run_words(rt: &HostRuntime) -> Status {
    let words = match words(rt) {
        Ok(words) => words,
        Err(NoMemory) => return Status::NoMemory,
    };
    let mut input = StdSource::new(rt.reader());
    let mut out = StdSink::new(io::writer(rt));
    match words.as_slice() {
        [tree, log, first, ..] => {
            let _first = first;
            let (tree, log) = (open(rt, tree), open(rt, log));
            run_on(rt.alloc(), &words[2..], &mut input, &mut out, tree, log)
        }
        _ => run_on(rt.alloc(), &[], &mut input, &mut out, None, None),
    }
}

// Tells on standard error how the run ended, unless it is done: one line, or nothing where there is no memory for it.
fn tell(rt: &HostRuntime, status: &Status) {
    if *status == Status::Done {
        return;
    }
    if let Ok(text) = text(rt.alloc(), status) {
        let _ = rt.stderr().write_all(&text);
        let _ = rt.stderr().write_all(b"\n");
    }
}

fn main(rt: HostRuntime) -> ExitCode {
    let status = run_words(&rt);
    tell(&rt, &status);
    ExitCode::from(code(&status))
}

#[cfg(test)]
mod tests;
