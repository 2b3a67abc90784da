ghost use Rattle.std.specs.Prelude.{◌≡◌, IsTrue};

use kz_disk::{Disk, MemoryDisk, StopDisk};
use kz_journal::{Frame, Journal, JournalFault};
use std::alloc::Global;
use std::process::Abort;
use std::test::Fail;

// What a call gave, which must not have failed.
fn made<T: Drop, E: Drop>(rt: &impl Abort, outcome: Result<T, E>) -> T {
    match outcome {
        Ok(value) => value,
        Err(_) => panic!(rt; "a call failed"),
    }
}

fn disk_of(rt: &impl Abort, alloc: Global, file: &[u8]) -> MemoryDisk {
    made(
        rt,
        MemoryDisk::new(alloc, made(rt, file.to_vec(alloc)), Vec::new(alloc)),
    )
}

// A journal of a tree's file, from its beginning on.
fn open<D: Disk + Drop>(rt: &impl Abort, alloc: Global, disk: D) -> Journal<D> {
    match Journal::attach(alloc, disk, b'T') {
        Ok(journal) => journal,
        Err(_) => panic!(rt; "the file isn't opened"),
    }
}

// Where the next frame stands, and what it holds.
fn is_frame(frame: Result<Option<Frame>, JournalFault>, at: u64, payload: &[u8]) -> bool {
    match frame {
        Ok(Some(found)) => found.at == at && found.payload.as_slice() == payload,
        _ => false,
    }
}

fn has_ended(frame: &Result<Option<Frame>, JournalFault>) -> bool
    ensures { IsTrue result → frame.now ≡ Ok None }
{
    match frame {
        Ok(None) => true,
        _ => false,
    }
}

fn is_fault(frame: Result<Option<Frame>, JournalFault>, fault: JournalFault) -> bool {
    match frame {
        Ok(_) => false,
        Err(found) => found == fault,
    }
}

static TWO: &[u8] =
    b"KZ-JOURNAL T 02\n\xA5\x00\x00\x00\x02\xEA\xDC\xC6\x07\x01\x02\xA5\x00\x00\x00\x01\x82\x1A\x8A\xA9\x07\x00";

// The bytes of `docs/formats-files.md`.
#[test]
fn frames_are_appended_and_read_again(rt: HostRuntime) {
    let alloc = rt.alloc();
    let Ok(mut journal) = Journal::create(alloc, disk_of(&rt, alloc, b""), b'T') else {
        panic!(rt; "the file isn't made");
    };
    assert!(rt; has_ended(&journal.next()));
    assert!(rt; journal.append(&[1, 2]) == Ok(16));
    assert!(rt; journal.append(&[7]) == Ok(27));
    assert!(rt; journal.seal() == Ok(false));
    let disk = journal.into_disk();
    assert!(rt; disk.bytes() == TWO);
    let mut journal = open(&rt, alloc, disk);
    assert!(rt; is_frame(journal.next(), 16, &[1, 2]));
    assert!(rt; is_frame(journal.next(), 27, &[7]));
    assert!(rt; has_ended(&journal.next()));
    assert!(rt; has_ended(&journal.next()));
    assert!(rt; journal.append(&[]) == Ok(37));
}

// A file of format 01 with a frame, another gate at its end, and a whole frame after that gate.
static TORN: &[u8] = b"KZ-JOURNAL T 01\n\xA5\x00\x00\x00\x02\x01\x02\x7F\x00\x00\x00\x01\x07\xA5";

#[test]
fn what_stands_after_the_end_never_counts(rt: HostRuntime) {
    let alloc = rt.alloc();
    let mut journal = open(&rt, alloc, disk_of(&rt, alloc, TORN));
    assert!(rt; is_frame(journal.next(), 16, &[1, 2]));
    assert!(rt; has_ended(&journal.next()));
    let disk = journal.into_disk();
    let closed = b"KZ-JOURNAL T 01\n\xA5\x00\x00\x00\x02\x01\x02\x00\xFF\xFF\xFF\xFE\x07\xA5";
    assert!(rt; disk.bytes() == closed.as_slice());
}

#[test]
fn a_file_of_format_01_is_sealed(rt: HostRuntime) {
    let alloc = rt.alloc();
    let mut journal = open(&rt, alloc, disk_of(&rt, alloc, b"KZ-JOURNAL T 01\n\x00"));
    assert!(rt; has_ended(&journal.next()));
    assert!(rt; journal.seal() == Ok(true));
    assert!(rt; journal.seal() == Ok(false));
    assert!(rt; journal.append(&[7]) == Ok(25));
    let disk = journal.into_disk();
    let sealed =
        b"KZ-JOURNAL T 01\n\xA5\xFF\xFF\xFF\xFF\xE5\x86\xCE\xB3\xA5\x00\x00\x00\x01\x82\x1A\x8A\xA9\x07\x00";
    assert!(rt; disk.bytes() == sealed.as_slice());
    let mut journal = open(&rt, alloc, disk);
    assert!(rt; is_frame(journal.next(), 25, &[7]));
    assert!(rt; has_ended(&journal.next()));
}

// Files that are damaged, and where: no frame after that place is handed out.
static DAMAGED: [(&[u8], u64); 3] = [
    (
        b"KZ-JOURNAL T 02\n\xA5\x00\x00\x00\x02\xEA\xDC\xC6\x07\x01\x03\x00",
        16,
    ),
    (
        b"KZ-JOURNAL T 01\n\xA5\xFF\xFF\xFF\xFF\xE5\x86\xCE\xB2\x00",
        16,
    ),
    (
        b"KZ-JOURNAL T 02\n\xA5\x00\x00\x00\x01\x82\x1A\x8A\xA8\x07\x00",
        16,
    ),
];

#[test]
fn a_damaged_place_is_told(rt: HostRuntime) {
    let alloc = rt.alloc();
    for (file, at) in DAMAGED {
        let mut journal = open(&rt, alloc, disk_of(&rt, alloc, file));
        assert!(rt; is_fault(journal.next(), JournalFault::Damaged { at }));
    }
    let files: [&[u8]; 3] = [b"", b"KZ-JOURNAL T 02", b"KZ-JOURNAL L 02\n\x00"];
    for file in files {
        match Journal::attach(alloc, disk_of(&rt, alloc, file), b'T') {
            Ok(_) => panic!(rt; "the file is opened"),
            Err((disk, fault)) => {
                assert!(rt; fault == JournalFault::Damaged { at: 0 });
                assert!(rt; disk.bytes() == file);
            }
        }
    }
}

// Opens a file, reads one frame, and appends another, on a machine that stops after so many calls. Answers the file.
fn append_until_stopped(rt: &impl Abort, alloc: Global, calls: u64) -> MemoryDisk {
    let file = b"KZ-JOURNAL T 02\n\xA5\x00\x00\x00\x02\xEA\xDC\xC6\x07\x01\x02\x7F";
    let disk = StopDisk::new(disk_of(rt, alloc, file), calls);
    let mut journal = match Journal::attach(alloc, disk, b'T') {
        Ok(journal) => journal,
        Err((disk, _)) => return disk.into_disk(),
    };
    let _ = journal.next();
    if has_ended(&journal.next()) {
        let _ = journal.append(&[7]);
    }
    journal.into_disk().into_disk()
}

#[test]
fn a_stop_leaves_the_frames_before_or_the_new_one_too(rt: HostRuntime) {
    let alloc = rt.alloc();
    for calls in 0..20u64 {
        let mut journal = open(&rt, alloc, append_until_stopped(&rt, alloc, calls));
        assert!(rt; is_frame(journal.next(), 16, &[1, 2]));
        let next = journal.next();
        assert!(rt; has_ended(&next) || is_frame(next, 27, &[7]));
    }
}

// Where the call of the disk fails that an append makes, whichever number it has.
#[test]
fn a_journal_is_down_after_a_failed_call(rt: HostRuntime) {
    let alloc = rt.alloc();
    let mut failed = false;
    for call in 0..20u64 {
        let fail = made(&rt, [call].to_vec(alloc));
        let file = made(&rt, b"KZ-JOURNAL T 02\n\x00".to_vec(alloc));
        let disk = made(&rt, MemoryDisk::new(alloc, file, fail));
        let Ok(mut journal) = Journal::attach(alloc, disk, b'T') else {
            continue;
        };
        if has_ended(&journal.next()) {
            if journal.append(&[7]) == Err(JournalFault::DiskFault) {
                assert!(rt; journal.append(&[7]) == Err(JournalFault::Down));
                assert!(rt; is_fault(journal.next(), JournalFault::Down));
                failed = true;
            }
        }
    }
    assert!(rt; failed);
}
