use kz_disk::{Disk, FailDisk, Failed, FileDisk, MemoryDisk, StopDisk};
use std::env;
use std::fs::{self, OpenOptions};
use std::test::Fail;

// A read within what the disk holds. Of a read that isn't, no contract speaks.
fn read(disk: &mut MemoryDisk, at: usize, buf: &mut [u8]) -> Result<(), Failed> {
    if at > disk.bytes().len() || buf.len() > disk.bytes().len() - at {
        return Err(Failed);
    }
    disk.read_at(at as u64, buf)
}

// A write that begins within what the disk holds, or at its end.
fn write(disk: &mut MemoryDisk, at: usize, piece: &[u8]) -> Result<(), Failed> {
    if at > disk.bytes().len() || piece.len() > 4096 {
        return Err(Failed);
    }
    disk.write_at(at as u64, piece)
}

fn write_while_running(
    disk: &mut StopDisk<MemoryDisk>,
    at: usize,
    piece: &[u8],
) -> Result<(), Failed> {
    if at > disk.disk().bytes().len() || piece.len() > 4096 {
        return Err(Failed);
    }
    disk.write_at(at as u64, piece)
}

#[test]
fn a_disk_in_memory_keeps_what_is_written(rt: HostRuntime) -> Result<(), Fail> {
    let alloc = rt.alloc();
    let mut disk = MemoryDisk::new(alloc, b"abcde".to_vec(alloc)?, Vec::new(alloc))?;
    let mut buffer = [0u8; 3];
    assert_eq!(rt; disk.len(), Ok(5));
    assert_eq!(rt; read(&mut disk, 1, &mut buffer), Ok(()));
    assert_eq!(rt; buffer.as_slice(), b"bcd".as_slice());
    let writes: [(usize, &[u8], &[u8]); 4] = [
        (1, b"XY", b"aXYde"),
        (4, b"123", b"aXYd123"),
        (7, b"8", b"aXYd1238"),
        (8, b"", b"aXYd1238"),
    ];
    for (at, piece, held) in writes {
        assert_eq!(rt; write(&mut disk, at, piece), Ok(()));
        assert_eq!(rt; disk.bytes(), held);
    }
    assert_eq!(rt; disk.sync(), Ok(()));
    assert_eq!(rt; disk.len(), Ok(8));
    Ok(())
}

// What a stop leaves: what was synced stays, and what was written since then may be any bytes.
#[test]
fn an_image_fills_what_is_not_synced(rt: HostRuntime) -> Result<(), Fail> {
    let alloc = rt.alloc();
    let mut disk = MemoryDisk::new(alloc, b"abcde".to_vec(alloc)?, Vec::new(alloc))?;
    assert_eq!(rt; write(&mut disk, 1, b"XY"), Ok(()));
    assert!(rt; disk.image(None)?.as_slice() == b"aXYde".as_slice());
    assert!(rt; disk.image(Some(b'.'))?.as_slice() == b"a..de".as_slice());
    assert_eq!(rt; disk.sync(), Ok(()));
    assert!(rt; disk.image(Some(b'.'))?.as_slice() == b"aXYde".as_slice());
    assert_eq!(rt; write(&mut disk, 4, b"123"), Ok(()));
    assert!(rt; disk.image(None)?.as_slice() == b"aXYd123".as_slice());
    assert!(rt; disk.image(Some(0))?.as_slice() == b"aXYd\0\0\0".as_slice());
    Ok(())
}

#[test]
fn a_disk_in_memory_fails_by_its_list_and_changes_nothing(rt: HostRuntime) -> Result<(), Fail> {
    let alloc = rt.alloc();
    let fail = [0, 2, 4, 6].to_vec(alloc)?;
    let mut disk = MemoryDisk::new(alloc, b"abc".to_vec(alloc)?, fail)?;
    let mut buffer = [0u8; 2];
    assert_eq!(rt; disk.len(), Err(Failed));
    assert_eq!(rt; disk.len(), Ok(3));
    assert_eq!(rt; read(&mut disk, 0, &mut buffer), Err(Failed));
    assert_eq!(rt; read(&mut disk, 1, &mut buffer), Ok(()));
    assert_eq!(rt; write(&mut disk, 0, b"xyz"), Err(Failed));
    assert_eq!(rt; disk.bytes(), b"abc".as_slice());
    assert_eq!(rt; write(&mut disk, 0, b"xy"), Ok(()));
    assert_eq!(rt; disk.sync(), Err(Failed));
    assert_eq!(rt; disk.sync(), Ok(()));
    assert_eq!(rt; disk.bytes(), b"xyc".as_slice());
    Ok(())
}

#[test]
fn a_machine_that_stopped_does_nothing_more(rt: HostRuntime) -> Result<(), Fail> {
    let alloc = rt.alloc();
    let memory = MemoryDisk::new(alloc, b"abc".to_vec(alloc)?, Vec::new(alloc))?;
    let mut disk = StopDisk::new(memory, 2);
    assert_eq!(rt; write_while_running(&mut disk, 0, b"x"), Ok(()));
    assert_eq!(rt; disk.len(), Ok(3));
    assert_eq!(rt; disk.len(), Err(Failed));
    assert_eq!(rt; write_while_running(&mut disk, 1, b"y"), Err(Failed));
    assert_eq!(rt; disk.sync(), Err(Failed));
    let mut memory = disk.into_disk();
    assert_eq!(rt; memory.bytes(), b"xbc".as_slice());
    assert_eq!(rt; memory.sync(), Ok(()));
    Ok(())
}

#[test]
fn a_disk_that_fails_fails_each_call(rt: HostRuntime) -> Result<(), Fail> {
    let mut disk = FailDisk::new();
    let mut buffer = [0u8; 1];
    assert_eq!(rt; disk.len(), Err(Failed));
    assert_eq!(rt; disk.read_at(0, &mut buffer), Err(Failed));
    assert_eq!(rt; disk.write_at(0, b"a"), Err(Failed));
    assert_eq!(rt; disk.sync(), Err(Failed));
    Ok(())
}

#[test]
fn a_file_is_read_and_written_in_place(rt: HostRuntime) -> Result<(), Fail> {
    let alloc = rt.alloc();
    let path = env::temp_dir(&rt)?.join(alloc, "kz_disk.a_file_is_read_and_written_in_place")?;
    let file = OpenOptions::new()
        .read(true)
        .write(true)
        .create(true)
        .truncate(true)
        .open(&rt, path.as_path())?;
    fs::remove_file(&rt, path.as_path())?;
    let mut disk = FileDisk::new(file);
    let mut buffer = [0u8; 3];
    assert_eq!(rt; disk.len(), Ok(0));
    assert_eq!(rt; disk.read_at(0, &mut buffer), Err(Failed));
    assert_eq!(rt; disk.write_at(0, b"abcd"), Ok(()));
    assert_eq!(rt; disk.write_at(2, b"XYZ"), Ok(()));
    assert_eq!(rt; disk.sync(), Ok(()));
    assert_eq!(rt; disk.len(), Ok(5));
    assert_eq!(rt; disk.read_at(1, &mut buffer), Ok(()));
    assert_eq!(rt; buffer.as_slice(), b"bXY".as_slice());
    Ok(())
}
