use super::{open, run_on};
use kz_io::{MemorySink, MemorySource};
use kz_replay::Status;
use kz_types::NoMemory;
use std::test::Fail;
use std::{env, fs};

// Whether a command without input on two real files is done, and prints these lines.
fn is_done(
    rt: &HostRuntime,
    word: &str,
    tree: &str,
    log: &str,
    lines: &str,
) -> Result<bool, NoMemory> {
    let alloc = rt.alloc();
    let mut words = Vec::new(alloc);
    words.push(String::from_str(alloc, word)?)?;
    let mut input = MemorySource::new(Vec::new(alloc), Vec::new(alloc));
    let mut out = MemorySink::new(alloc, Vec::new(alloc), Vec::new(alloc));
    let (tree, log) = (open(rt, tree), open(rt, log));
    let opened = tree.is_some() && log.is_some();
    let status = run_on(alloc, &words, &mut input, &mut out, tree, log);
    let same = opened && status == Status::Done && out.taken() == lines.as_bytes();
    drop(words);
    drop(input);
    drop(out);
    Ok(same)
}

#[test]
fn real_files_are_made_and_read(rt: HostRuntime) -> Result<(), Fail> {
    let alloc = rt.alloc();
    let tree = env::temp_dir(&rt)?.join(alloc, "kz_main.real_files.tree")?;
    let log = env::temp_dir(&rt)?.join(alloc, "kz_main.real_files.log")?;
    let Some(tree_name) = tree.as_path().to_str() else {
        return Ok(());
    };
    let Some(log_name) = log.as_path().to_str() else {
        return Ok(());
    };
    let made = is_done(&rt, "init", tree_name, log_name, "");
    let end = "end events=0 steps=0 zxid=0 offset=-1 recorded=none\n";
    let read = is_done(&rt, "replay", tree_name, log_name, end);
    fs::remove_file(&rt, tree.as_path())?;
    fs::remove_file(&rt, log.as_path())?;
    assert!(rt; matches!(made, Ok(true)) && matches!(read, Ok(true)));
    Ok(())
}
