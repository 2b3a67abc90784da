//! What no clause says: that calls succeed, and which calls the sink gets.
use kz_io::MemorySink;
use kz_output::{HELD_BYTES, Output, OutputFault};
use std::alloc::Global;
use std::test::Fail;

fn sink(alloc: Global, fail: &[u64]) -> Result<MemorySink, Fail> {
    Ok(MemorySink::new(alloc, fail.to_vec(alloc)?, Vec::new(alloc)))
}

#[test]
fn texts_are_held_until_there_are_many(rt: HostRuntime) -> Result<(), Fail> {
    let alloc = rt.alloc();
    let mut out = sink(alloc, &[])?;
    let mut output = Output::new(alloc);
    let most = vec![in alloc; b'a'; HELD_BYTES - 1]?;
    assert_eq!(rt; output.put(&most, &mut out), Ok(()));
    assert_eq!(rt; out.taken().len(), 0);
    assert_eq!(rt; output.put(b"bc", &mut out), Ok(()));
    assert_eq!(rt; out.taken().len(), HELD_BYTES + 1);
    assert_eq!(rt; output.put(b"d", &mut out), Ok(()));
    assert_eq!(rt; out.taken().len(), HELD_BYTES + 1);
    assert_eq!(rt; output.flush(&mut out), Ok(()));
    assert!(rt; out.taken().ends_with(b"abcd"));
    assert_eq!(rt; out.taken().len(), HELD_BYTES + 2);
    Ok(())
}

#[test]
fn a_text_longer_than_the_buffer_is_written_whole(rt: HostRuntime) -> Result<(), Fail> {
    let alloc = rt.alloc();
    let mut out = sink(alloc, &[])?;
    let mut output = Output::new(alloc);
    let long = vec![in alloc; b'a'; 3 * HELD_BYTES]?;
    assert_eq!(rt; output.put(b"b", &mut out), Ok(()));
    assert_eq!(rt; output.put(&long, &mut out), Ok(()));
    assert_eq!(rt; out.taken().len(), 3 * HELD_BYTES + 1);
    assert!(rt; out.taken().starts_with(b"ba"));
    Ok(())
}

#[test]
fn a_sink_that_fails_at_its_second_write_has_the_first_text(rt: HostRuntime) -> Result<(), Fail> {
    let alloc = rt.alloc();
    let mut out = sink(alloc, &[1])?;
    let mut output = Output::new(alloc);
    let long = vec![in alloc; b'a'; HELD_BYTES]?;
    assert_eq!(rt; output.put(&long, &mut out), Ok(()));
    assert_eq!(rt; output.put(b"b", &mut out), Ok(()));
    assert_eq!(rt; output.put(&long, &mut out), Err(OutputFault::SinkFailed));
    assert_eq!(rt; out.taken(), long.as_slice());
    Ok(())
}
