use kz_io::{Failed, MemorySink, MemorySource, Sink, Source, StdSink, StdSource, send};
use std::test::Fail;

#[test]
fn a_source_in_memory_gives_its_bytes_and_fails_by_its_list(rt: HostRuntime) -> Result<(), Fail> {
    let alloc = rt.alloc();
    let bytes = b"abcde".to_vec(alloc)?;
    let mut source = MemorySource::new(bytes, [1].to_vec(alloc)?);
    let mut buffer = [0u8; 3];
    let reads: [(Result<usize, Failed>, &[u8]); 4] = [
        (Ok(3), b"abc"),
        (Err(Failed), b"abc"),
        (Ok(2), b"dec"),
        (Ok(0), b"dec"),
    ];
    for (answer, held) in reads {
        assert_eq!(rt; source.read(&mut buffer), answer);
        assert_eq!(rt; buffer.as_slice(), held);
    }
    Ok(())
}

#[test]
fn a_sink_in_memory_keeps_pieces_and_fails_by_its_lists(rt: HostRuntime) -> Result<(), Fail> {
    let alloc = rt.alloc();
    let mut sink = MemorySink::new(alloc, [1].to_vec(alloc)?, [2].to_vec(alloc)?);
    let writes: [(Result<usize, Failed>, &[u8]); 4] = [
        (Ok(2), b"ab"),
        (Err(Failed), b"ab"),
        (Ok(0), b"ab"),
        (Ok(2), b"abab"),
    ];
    for (answer, held) in writes {
        assert_eq!(rt; sink.write(b"ab"), answer);
        assert_eq!(rt; sink.taken(), held);
    }
    Ok(())
}

#[test]
fn a_text_is_sent_whole_or_the_failure_is_told(rt: HostRuntime) -> Result<(), Fail> {
    let alloc = rt.alloc();
    let mut sink = MemorySink::new(alloc, [1].to_vec(alloc)?, [2].to_vec(alloc)?);
    let sends = [Ok(()), Err(Failed), Err(Failed), Ok(())];
    for answer in sends {
        assert_eq!(rt; send(&mut sink, b"abc"), answer);
    }
    assert_eq!(rt; send(&mut sink, b""), Ok(()));
    assert_eq!(rt; sink.taken(), b"abcabc".as_slice());
    Ok(())
}

#[test]
fn the_readers_and_writers_of_std_are_passed_on(rt: HostRuntime) -> Result<(), Fail> {
    let mut source = StdSource::new(b"abcd".as_slice());
    let mut buffer = [0u8; 3];
    assert_eq!(rt; source.read(&mut buffer), Ok(3));
    assert_eq!(rt; buffer.as_slice(), b"abc".as_slice());
    assert_eq!(rt; source.read(&mut buffer), Ok(1));
    assert_eq!(rt; source.read(&mut buffer), Ok(0));
    let mut sink = StdSink::new(Vec::new(rt.alloc()));
    assert_eq!(rt; send(&mut sink, b"abc"), Ok(()));
    Ok(())
}
