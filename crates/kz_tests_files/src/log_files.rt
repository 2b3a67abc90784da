use kz_disk::MemoryDisk;
use kz_journal::Journal;
use kz_log::{Elected, LogFault, MetaLog};
use kz_log_store::{LogOpenFault, LogStore, LogWhy};
use kz_types::{BatchFault, MetaRecord};
use std::alloc::Global;
use std::process::Abort;

// What a call gave, which must not have failed.
fn made<T: Drop, E: Drop>(rt: &impl Abort, outcome: Result<T, E>) -> T {
    match outcome {
        Ok(value) => value,
        Err(_) => panic!(rt; "a call failed"),
    }
}

fn disk_of(rt: &impl Abort, alloc: Global, file: &[u8]) -> MemoryDisk {
    made(
        rt,
        MemoryDisk::new(alloc, made(rt, file.to_vec(alloc)), Vec::new(alloc)),
    )
}

fn open(rt: &impl Abort, alloc: Global, disk: MemoryDisk) -> LogStore<MemoryDisk> {
    match LogStore::attach(alloc, disk) {
        Ok(log) => log,
        Err(_) => panic!(rt; "the file isn't opened"),
    }
}

// A log in a new file.
fn new_log(rt: &impl Abort, alloc: Global) -> LogStore<MemoryDisk> {
    match Journal::create(alloc, disk_of(rt, alloc, b""), b'L') {
        Ok(journal) => open(rt, alloc, journal.into_disk()),
        Err(_) => panic!(rt; "the file isn't made"),
    }
}

// How many batches stand after an offset.
fn batches_after(rt: &impl Abort, log: &mut LogStore<MemoryDisk>, after: i64) -> usize {
    made(rt, log.read_from(after)).batches.len()
}

// Why a file isn't opened.
fn fault_of(rt: &impl Abort, alloc: Global, file: &[u8]) -> LogOpenFault {
    match LogStore::attach(alloc, disk_of(rt, alloc, file)) {
        Ok(_) => panic!(rt; "the file is opened"),
        Err((_, fault)) => fault,
    }
}

const STATE: MetaRecord = MetaRecord::ZkMigrationState { state: 1 };

// Two batches of epoch 1.
static TWO: &[u8] =
    b"KZ-JOURNAL L 02\n\xA5\x00\x00\x00U\xAC\xC6b$\x01\x00\x00\x00\x00\x00\x00\x00\x00\x00\x00\x00H\x00\x00\x00\x01\x022c'\x05\x00\x00\x00\x00\x00\x01\x00\x00\x00\x00\x00\x00\x03\xE8\x00\x00\x00\x00\x00\x00\x03\xE8\xFF\xFF\xFF\xFF\xFF\xFF\xFF\xFF\xFF\xFF\xFF\xFF\xFF\xFF\x00\x00\x00\x02\x14\x00\x00\x00\x01\x08\x01\x14\x00\x00\x00\x16\x00\x00\x02\x01\n\x01\x15\x00\x01\x00\x00\xA5\x00\x00\x00I\x13{\xD9\xD9\x01\x00\x00\x00\x00\x00\x00\x00\x02\x00\x00\x00<\x00\x00\x00\x01\x02\x9B\x0CO\xDD\x00\x00\x00\x00\x00\x00\x00\x00\x00\x00\x00\x00\x03\xE9\x00\x00\x00\x00\x00\x00\x03\xE9\xFF\xFF\xFF\xFF\xFF\xFF\xFF\xFF\xFF\xFF\xFF\xFF\xFF\xFF\x00\x00\x00\x01\x14\x00\x00\x00\x01\x08\x01\x14\x00\x00\x00\x00";

#[test]
fn changes_are_found_again(rt: HostRuntime) {
    let alloc = rt.alloc();
    let mut log = new_log(&rt, alloc);
    assert!(rt; log.is_fresh());
    assert!(rt; log.append(1, 5, &[STATE]) == Err(LogFault::Stale { epoch: 0 }));
    assert!(rt; log.elect(1000, &[MetaRecord::NoOp, STATE]) == Ok(Elected { epoch: 1, end: 1 }));
    assert!(rt; log.append(1, 1001, &[MetaRecord::NoOp]) == Ok(2));
    assert!(rt; !log.is_fresh());
    let disk = log.into_disk();
    assert!(rt; disk.bytes() == TWO);
    let mut log = open(&rt, alloc, disk);
    assert!(rt; !log.is_fresh());
    assert!(rt; log.epoch() == 1);
    assert!(rt; log.base() == -1);
    assert!(rt; log.end() == 2);
    assert!(rt; batches_after(&rt, &mut log, -1) == 2);
    assert!(rt; batches_after(&rt, &mut log, 1) == 1);
    assert!(rt; log.reset() == Ok(()));
    let log = open(&rt, alloc, log.into_disk());
    assert!(rt; log.epoch() == 1);
    assert!(rt; log.end() == -1);
    assert!(rt; !log.is_fresh());
}

// Files that are damaged, where, and why.
static DAMAGED: [(&[u8], u64, LogWhy); 4] = [
    (b"KZ-JOURNAL T 02\n\x00", 0, LogWhy::Header),
    (
        b"KZ-JOURNAL L 01\n\xA5\x00\x00\x00\x01\x03\x00",
        16,
        LogWhy::Malformed,
    ),
    (
        b"KZ-JOURNAL L 01\n\xA5\x00\x00\x00\x05\x02\x00\x00\x00\x01\x00",
        16,
        LogWhy::Sequence,
    ),
    (
        b"KZ-JOURNAL L 02\n\xA5\x00\x00\x00\x01\x00\x00\x00\x00\x03\x00",
        16,
        LogWhy::Sum,
    ),
];

// One batch of epoch 1, in a file without sums.
static PLAIN: &[u8] =
    b"KZ-JOURNAL L 01\n\xA5\x00\x00\x00U\x01\x00\x00\x00\x00\x00\x00\x00\x00\x00\x00\x00H\x00\x00\x00\x01\x022c'\x05\x00\x00\x00\x00\x00\x01\x00\x00\x00\x00\x00\x00\x03\xE8\x00\x00\x00\x00\x00\x00\x03\xE8\xFF\xFF\xFF\xFF\xFF\xFF\xFF\xFF\xFF\xFF\xFF\xFF\xFF\xFF\x00\x00\x00\x02\x14\x00\x00\x00\x01\x08\x01\x14\x00\x00\x00\x16\x00\x00\x02\x01\n\x01\x15\x00\x01\x00\x00\x00";

// The same, whose last byte has another bit.
static OTHER: &[u8] =
    b"KZ-JOURNAL L 01\n\xA5\x00\x00\x00U\x01\x00\x00\x00\x00\x00\x00\x00\x00\x00\x00\x00H\x00\x00\x00\x01\x022c'\x05\x00\x00\x00\x00\x00\x01\x00\x00\x00\x00\x00\x00\x03\xE8\x00\x00\x00\x00\x00\x00\x03\xE8\xFF\xFF\xFF\xFF\xFF\xFF\xFF\xFF\xFF\xFF\xFF\xFF\xFF\xFF\x00\x00\x00\x02\x14\x00\x00\x00\x01\x08\x01\x14\x00\x00\x00\x16\x00\x00\x02\x01\n\x01\x15\x00\x01\x00\x01\x00";

#[test]
fn a_damaged_place_is_told(rt: HostRuntime) {
    let alloc = rt.alloc();
    for (file, at, why) in DAMAGED {
        assert!(rt; fault_of(&rt, alloc, file) == LogOpenFault::Damaged { at, why });
    }
    match fault_of(&rt, alloc, OTHER) {
        LogOpenFault::Damaged {
            at,
            why: LogWhy::Batch(BatchFault::BadCrc { stored, .. }),
        } => {
            assert!(rt; at == 16);
            assert!(rt; stored == 0x3263_2705);
        }
        _ => panic!(rt; "another fault"),
    }
}

// The first batch of `TWO`, and part of the frame of the second.
static CUT: &[u8] =
    b"KZ-JOURNAL L 02\n\xA5\x00\x00\x00U\xAC\xC6b$\x01\x00\x00\x00\x00\x00\x00\x00\x00\x00\x00\x00H\x00\x00\x00\x01\x022c'\x05\x00\x00\x00\x00\x00\x01\x00\x00\x00\x00\x00\x00\x03\xE8\x00\x00\x00\x00\x00\x00\x03\xE8\xFF\xFF\xFF\xFF\xFF\xFF\xFF\xFF\xFF\xFF\xFF\xFF\xFF\xFF\x00\x00\x00\x02\x14\x00\x00\x00\x01\x08\x01\x14\x00\x00\x00\x16\x00\x00\x02\x01\n\x01\x15\x00\x01\x00\x00\xA5\x00\x00\x00I\x13{\xD9\xD9\x01\x00\x00";

// The same batch, whose last byte has another bit.
static FLIPPED: &[u8] =
    b"KZ-JOURNAL L 02\n\xA5\x00\x00\x00U\xAC\xC6b$\x01\x00\x00\x00\x00\x00\x00\x00\x00\x00\x00\x00H\x00\x00\x00\x01\x022c'\x05\x00\x00\x00\x00\x00\x01\x00\x00\x00\x00\x00\x00\x03\xE8\x00\x00\x00\x00\x00\x00\x03\xE8\xFF\xFF\xFF\xFF\xFF\xFF\xFF\xFF\xFF\xFF\xFF\xFF\xFF\xFF\x00\x00\x00\x02\x14\x00\x00\x00\x01\x08\x01\x14\x00\x00\x00\x16\x00\x00\x02\x01\n\x01\x15\x00\x01\x00\x01\x00";

#[test]
fn a_cut_frame_never_counts(rt: HostRuntime) {
    let alloc = rt.alloc();
    let mut log = open(&rt, alloc, disk_of(&rt, alloc, CUT));
    assert!(rt; log.end() == 1);
    assert!(rt; log.append(1, 1001, &[MetaRecord::NoOp]) == Ok(2));
    let log = open(&rt, alloc, log.into_disk());
    assert!(rt; log.end() == 2);
}

#[test]
fn a_batch_with_another_bit_has_another_sum(rt: HostRuntime) {
    let alloc = rt.alloc();
    let fault = fault_of(&rt, alloc, FLIPPED);
    assert!(rt;
        fault
            == LogOpenFault::Damaged {
                at: 16,
                why: LogWhy::Sum
            }
    );
}

#[test]
fn a_file_without_sums_is_sealed(rt: HostRuntime) {
    let alloc = rt.alloc();
    let mut log = open(&rt, alloc, disk_of(&rt, alloc, PLAIN));
    assert!(rt; log.seal() == Ok(true));
    assert!(rt; log.seal() == Ok(false));
    assert!(rt; log.append(1, 1001, &[MetaRecord::NoOp]) == Ok(2));
    let log = open(&rt, alloc, log.into_disk());
    assert!(rt; log.epoch() == 1);
    assert!(rt; log.end() == 2);
}

// Where the call of the disk fails that an append makes, whichever number it has.
#[test]
fn a_store_is_down_after_a_failed_call(rt: HostRuntime) {
    let alloc = rt.alloc();
    let mut failed = false;
    for call in 0..20u64 {
        let fail = made(&rt, [call].to_vec(alloc));
        let file = made(&rt, TWO.to_vec(alloc));
        let disk = made(&rt, MemoryDisk::new(alloc, file, fail));
        let Ok(mut log) = LogStore::attach(alloc, disk) else {
            continue;
        };
        if log.append(1, 1002, &[MetaRecord::NoOp]) == Err(LogFault::Failed) {
            assert!(rt; log.end() == 2);
            assert!(rt; log.append(1, 1002, &[MetaRecord::NoOp]) == Err(LogFault::Down));
            assert!(rt; log.seal() == Err(LogFault::Down));
            failed = true;
        }
    }
    assert!(rt; failed);
}
