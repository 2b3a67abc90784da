use kz_commands::{init, open, upgrade};
use kz_disk::{MemoryDisk, StopDisk};
use kz_types::{LogWhy, Status};
use std::alloc::Global;
use std::process::Abort;

static NEW_TREE: &[u8] = b"KZ-JOURNAL T 02\n\x00";

static NEW_LOG: &[u8] = b"KZ-JOURNAL L 02\n\x00";

static PLAIN_TREE: &[u8] = b"KZ-JOURNAL T 01\n\x00";

static PLAIN_LOG: &[u8] = b"KZ-JOURNAL L 01\n\x00";

static SEALED_TREE: &[u8] = b"KZ-JOURNAL T 01\n\xA5\xFF\xFF\xFF\xFF\xE5\x86\xCE\xB3\x00";

static SEALED_LOG: &[u8] = b"KZ-JOURNAL L 01\n\xA5\xFF\xFF\xFF\xFF\xAF\xC3\xA4\xF1\x00";
// A log that was reset.
static RESET_LOG: &[u8] = b"KZ-JOURNAL L 01\n\xA5\x00\x00\x00\x05\x02\x00\x00\x00\x00\x00";

static SEALED_RESET_LOG: &[u8] =
    b"KZ-JOURNAL L 01\n\xA5\x00\x00\x00\x05\x02\x00\x00\x00\x00\xA5\xFF\xFF\xFF\xFF\xA1\xE5\x9F\x9E\x00";

// What a call gave, which must not have failed.
fn made<T: Drop, E: Drop>(rt: &impl Abort, outcome: Result<T, E>) -> T {
    match outcome {
        Ok(value) => value,
        Err(_) => panic!(rt; "a call failed"),
    }
}

fn disk_of(rt: &impl Abort, alloc: Global, file: &[u8]) -> MemoryDisk {
    made(
        rt,
        MemoryDisk::new(alloc, made(rt, file.to_vec(alloc)), Vec::new(alloc)),
    )
}

// A disk whose call of this number fails.
fn failing(rt: &impl Abort, alloc: Global, file: &[u8], call: u64) -> MemoryDisk {
    made(
        rt,
        MemoryDisk::new(
            alloc,
            made(rt, file.to_vec(alloc)),
            made(rt, [call].to_vec(alloc)),
        ),
    )
}

// `init` of these files ends so, and leaves these.
fn inits(
    rt: &impl Abort,
    alloc: Global,
    files: (&[u8], &[u8]),
    status: Status,
    left: (&[u8], &[u8]),
) {
    let (ended, tree, log) = init(
        alloc,
        disk_of(rt, alloc, files.0),
        disk_of(rt, alloc, files.1),
    );
    assert!(rt; ended == status);
    assert!(rt; tree.bytes() == left.0);
    assert!(rt; log.bytes() == left.1);
}

// `upgrade` of these files ends so, and leaves these.
fn upgrades(
    rt: &impl Abort,
    alloc: Global,
    files: (&[u8], &[u8]),
    status: Status,
    left: (&[u8], &[u8]),
) {
    let (ended, tree, log) = upgrade(
        alloc,
        disk_of(rt, alloc, files.0),
        disk_of(rt, alloc, files.1),
    );
    assert!(rt; ended == status);
    assert!(rt; tree.bytes() == left.0);
    assert!(rt; log.bytes() == left.1);
}

#[test]
fn short_files_are_made(rt: HostRuntime) {
    let alloc = rt.alloc();
    let new = (NEW_TREE, NEW_LOG);
    inits(&rt, alloc, (b"", b""), Status::Done, new);
    inits(
        &rt,
        alloc,
        (b"KZ-JOURNAL T 02\n", b"KZ-J"),
        Status::Done,
        new,
    );
    inits(
        &rt,
        alloc,
        (b"KZ-JOURNAL T 02\n\xA5", b"12345678901234567"),
        Status::Done,
        new,
    );
    inits(&rt, alloc, (NEW_LOG, NEW_TREE), Status::Done, new);
}

#[test]
fn files_that_stand_for_nothing_are_left(rt: HostRuntime) {
    let alloc = rt.alloc();
    let new = (NEW_TREE, NEW_LOG);
    inits(&rt, alloc, new, Status::Done, new);
    let plain = (PLAIN_TREE, PLAIN_LOG);
    inits(&rt, alloc, plain, Status::Done, plain);
    let sealed = (SEALED_TREE, SEALED_LOG);
    inits(&rt, alloc, sealed, Status::Done, sealed);
}

#[test]
fn files_that_hold_something_or_are_damaged_are_not_made(rt: HostRuntime) {
    let alloc = rt.alloc();
    inits(
        &rt,
        alloc,
        (b"", RESET_LOG),
        Status::NotEmpty,
        (b"", RESET_LOG),
    );
    let swapped: &[u8] = b"KZ-JOURNAL L 02\n\x00\x00";
    inits(
        &rt,
        alloc,
        (swapped, b""),
        Status::TreeDamaged { at: 0 },
        (swapped, b""),
    );
    inits(
        &rt,
        alloc,
        (swapped, RESET_LOG),
        Status::TreeDamaged { at: 0 },
        (swapped, RESET_LOG),
    );
    let header = Status::LogDamaged {
        at: 0,
        why: LogWhy::Header,
    };
    inits(&rt, alloc, (b"", SEALED_TREE), header, (b"", SEALED_TREE));
}

#[test]
fn files_of_format_01_are_sealed(rt: HostRuntime) {
    let alloc = rt.alloc();
    let sealed = (SEALED_TREE, SEALED_LOG);
    upgrades(&rt, alloc, (PLAIN_TREE, PLAIN_LOG), Status::Done, sealed);
    upgrades(&rt, alloc, sealed, Status::Done, sealed);
    upgrades(
        &rt,
        alloc,
        (NEW_TREE, RESET_LOG),
        Status::Done,
        (NEW_TREE, SEALED_RESET_LOG),
    );
}

#[test]
fn damaged_files_are_not_sealed(rt: HostRuntime) {
    let alloc = rt.alloc();
    upgrades(
        &rt,
        alloc,
        (b"", b""),
        Status::TreeDamaged { at: 0 },
        (b"", b""),
    );
    upgrades(
        &rt,
        alloc,
        (PLAIN_LOG, PLAIN_LOG),
        Status::TreeDamaged { at: 0 },
        (PLAIN_LOG, PLAIN_LOG),
    );
    let header = Status::LogDamaged {
        at: 0,
        why: LogWhy::Header,
    };
    upgrades(
        &rt,
        alloc,
        (PLAIN_TREE, PLAIN_TREE),
        header,
        (PLAIN_TREE, PLAIN_TREE),
    );
    let torn: &[u8] = b"KZ-JOURNAL L 01\n\xA5\x00\x00\x00\x01\x03\x00";
    let malformed = Status::LogDamaged {
        at: 16,
        why: LogWhy::Malformed,
    };
    upgrades(
        &rt,
        alloc,
        (PLAIN_TREE, torn),
        malformed,
        (PLAIN_TREE, torn),
    );
}

// Whichever call of a disk fails, the run ends with that disk's status.
#[test]
fn a_failed_call_is_told(rt: HostRuntime) {
    let alloc = rt.alloc();
    let mut in_init = 0u64;
    let mut in_upgrade = 0u64;
    for call in 0..24u64 {
        let (status, _tree, _log) = init(
            alloc,
            failing(&rt, alloc, b"", call),
            disk_of(&rt, alloc, b""),
        );
        assert!(rt; status == Status::TreeFault || status == Status::Done);
        if status == Status::TreeFault {
            in_init = in_init.saturating_add(1);
        }
        let (status, _tree, _log) = init(
            alloc,
            disk_of(&rt, alloc, b""),
            failing(&rt, alloc, b"", call),
        );
        assert!(rt; status == Status::LogFault || status == Status::Done);
        let (status, _tree, _log) = upgrade(
            alloc,
            failing(&rt, alloc, PLAIN_TREE, call),
            disk_of(&rt, alloc, PLAIN_LOG),
        );
        assert!(rt; status == Status::TreeFault || status == Status::Done);
        let (status, _tree, _log) = upgrade(
            alloc,
            disk_of(&rt, alloc, PLAIN_TREE),
            failing(&rt, alloc, PLAIN_LOG, call),
        );
        assert!(rt; status == Status::LogFault || status == Status::Done);
        if status == Status::LogFault {
            in_upgrade = in_upgrade.saturating_add(1);
        }
    }
    assert!(rt; in_init == 5);
    assert!(rt; in_upgrade >= 8);
}

// Wherever the machine stops while both files are sealed, they stand for a tree and a log afterwards, and are sealed then.
#[test]
fn a_stop_leaves_both_files(rt: HostRuntime) {
    let alloc = rt.alloc();
    for calls in 0..24u64 {
        let tree = StopDisk::new(disk_of(&rt, alloc, PLAIN_TREE), calls);
        let log = StopDisk::new(disk_of(&rt, alloc, RESET_LOG), calls);
        let (_status, tree, log) = upgrade(alloc, tree, log);
        let (status, tree, log) = upgrade(alloc, tree.into_disk(), log.into_disk());
        assert!(rt; status == Status::Done);
        match open(alloc, tree, log) {
            Ok((tree, log)) => {
                assert!(rt; tree.into_disk().bytes() == SEALED_TREE);
                assert!(rt; log.into_disk().bytes() == SEALED_RESET_LOG);
            }
            Err(_) => panic!(rt; "the files aren't opened"),
        }
    }
}
