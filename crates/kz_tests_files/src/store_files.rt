use kz_disk::MemoryDisk;
use kz_journal::{ChangeFault, Journal, write_frame, write_seal};
use std::alloc::Global;
use std::process::Abort;

// What a call gave, which must not have failed.
fn made<T: Drop, E: Drop>(rt: &impl Abort, outcome: Result<T, E>) -> T {
    match outcome {
        Ok(value) => value,
        Err(_) => panic!(rt; "a call failed"),
    }
}

fn disk_of(rt: &impl Abort, alloc: Global, file: &[u8]) -> MemoryDisk {
    made(
        rt,
        MemoryDisk::new(alloc, made(rt, file.to_vec(alloc)), Vec::new(alloc)),
    )
}

#[test]
fn a_frame_is_written(rt: HostRuntime) {
    let alloc = rt.alloc();
    let Ok(mut journal) = Journal::create(alloc, disk_of(&rt, alloc, b""), b'T') else {
        panic!(rt; "the file isn't made");
    };
    assert!(rt; write_frame(&mut journal, &[1, 2]) == Ok(()));
    let disk = journal.into_disk();
    let file = b"KZ-JOURNAL T 02\n\xA5\x00\x00\x00\x02\xEA\xDC\xC6\x07\x01\x02\x00";
    assert!(rt; disk.bytes() == file.as_slice());
}

#[test]
fn a_seal_is_written(rt: HostRuntime) {
    let alloc = rt.alloc();
    let disk = disk_of(&rt, alloc, b"KZ-JOURNAL T 01\n\x00");
    let Ok(mut journal) = Journal::attach(alloc, disk, b'T') else {
        panic!(rt; "the file isn't opened");
    };
    match journal.next() {
        Ok(None) => assert!(rt; write_seal(&mut journal) == Ok(true)),
        _ => panic!(rt; "a frame was read"),
    }
}

// Where the call of the disk fails that a frame makes, whichever number it has.
#[test]
fn a_failed_call_is_told(rt: HostRuntime) {
    let alloc = rt.alloc();
    let mut failed = false;
    for call in 0..20u64 {
        let fail = made(&rt, [call].to_vec(alloc));
        let disk = made(&rt, MemoryDisk::new(alloc, Vec::new(alloc), fail));
        let Ok(mut journal) = Journal::create(alloc, disk, b'T') else {
            continue;
        };
        if write_frame(&mut journal, &[7]) == Err(ChangeFault::Failed) {
            failed = true;
        }
    }
    assert!(rt; failed);
}
