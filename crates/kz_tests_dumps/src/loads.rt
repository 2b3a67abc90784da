use kz_commands::init;
use kz_disk::MemoryDisk;
use kz_io::MemorySource;
use kz_load::load;
use kz_tree::ZTree;
use kz_tree_store::TreeStore;
use kz_types::Status;
use std::alloc::Global;
use std::process::Abort;

static NEW_TREE: &[u8] = b"KZ-JOURNAL T 02\n\x00";

static NEW_LOG: &[u8] = b"KZ-JOURNAL L 02\n\x00";

// Two znodes.
static SMALL: &[u8] = b"{\"zxid\":4,\"sessions\":[7,9]}
{\"path\":\"/a\",\"text\":\"x\",\"version\":3,\"mzxid\":2,\"pzxid\":4}
{\"path\":\"/a/b\",\"owner\":7,\"czxid\":4}
";

// The file of their tree.
static LOADED: &[u8] =
    b"KZ-JOURNAL T 02\n\xA5\x00\x00\x00e~\xE4\x01P\x02\x01\x00\x00\x00\x02\x00\x00\x00\x02/a\x00\x00\x00\x01x\x00\x00\x00\x03\x00\x00\x00\x00\x00\x00\x00\x00\x00\x00\x00\x00\x00\x00\x00\x01\x00\x00\x00\x00\x00\x00\x00\x02\x00\x00\x00\x00\x00\x00\x00\x04\x00\x00\x00\x04/a/b\x00\x00\x00\x00\x00\x00\x00\x00\x00\x00\x00\x00\x00\x00\x00\x07\x00\x00\x00\x00\x00\x00\x00\x04\x00\x00\x00\x00\x00\x00\x00\x04\x00\x00\x00\x00\x00\x00\x00\x04\xA5\x00\x00\x00\x1D\x028\x05\xBF\x03\x00\x00\x00\x00\x00\x00\x00\x04\x00\x00\x00\x02\x00\x00\x00\x00\x00\x00\x00\x07\x00\x00\x00\x00\x00\x00\x00\t\x00";

// What a call gave, which must not have failed.
fn made<T: Drop, E: Drop>(rt: &impl Abort, outcome: Result<T, E>) -> T {
    match outcome {
        Ok(value) => value,
        Err(_) => panic!(rt; "a call failed"),
    }
}

// A disk with these bytes, whose call of this number fails.
fn failing(rt: &impl Abort, alloc: Global, file: &[u8], call: u64) -> MemoryDisk {
    let file = made(rt, file.to_vec(alloc));
    let fail = made(rt, [call].to_vec(alloc));
    made(rt, MemoryDisk::new(alloc, file, fail))
}

fn disk_of(rt: &impl Abort, alloc: Global, file: &[u8]) -> MemoryDisk {
    failing(rt, alloc, file, u64::MAX)
}

// An input of these bytes, whose read of this number fails.
fn input_of(rt: &impl Abort, alloc: Global, bytes: &[u8], read: u64) -> MemorySource {
    let bytes = made(rt, bytes.to_vec(alloc));
    let fail = made(rt, [read].to_vec(alloc));
    MemorySource::new(bytes, fail)
}

// `load` of this input into these files ends so, and leaves these.
fn loads(
    rt: &impl Abort,
    alloc: Global,
    input: &[u8],
    files: (&[u8], &[u8]),
    status: Status,
    left: (&[u8], &[u8]),
) {
    let mut input = input_of(rt, alloc, input, u64::MAX);
    let (ended, tree, log) = load(
        alloc,
        &mut input,
        disk_of(rt, alloc, files.0),
        disk_of(rt, alloc, files.1),
    );
    assert!(rt; ended == status);
    assert!(rt; tree.bytes() == left.0);
    assert!(rt; log.bytes() == left.1);
}

#[test]
fn a_header_alone(rt: HostRuntime) {
    let alloc = rt.alloc();
    let mut input = input_of(&rt, alloc, b"{}\n", u64::MAX);
    let (status, tree, log) = load(
        alloc,
        &mut input,
        disk_of(&rt, alloc, b""),
        disk_of(&rt, alloc, b""),
    );
    assert!(rt; status == Status::Done);
    assert!(rt; log.bytes() == NEW_LOG);
    match TreeStore::attach(alloc, tree) {
        Ok(store) => {
            assert!(rt; !store.is_fresh());
            assert!(rt; store.tree().last_zxid() == 1);
            assert!(rt; store.tree().sessions().is_empty());
            assert!(rt; store.tree().count() == 0);
            drop(store);
        }
        Err(_) => panic!(rt; "the file isn't opened"),
    }
}

#[test]
fn a_tree_is_loaded_once(rt: HostRuntime) {
    let alloc = rt.alloc();
    let loaded = (LOADED, NEW_LOG);
    loads(&rt, alloc, SMALL, (b"", b""), Status::Done, loaded);
    loads(&rt, alloc, SMALL, (NEW_TREE, b""), Status::Done, loaded);
    loads(&rt, alloc, SMALL, loaded, Status::NotEmpty, loaded);
    loads(&rt, alloc, b"", loaded, Status::NotEmpty, loaded);
}

#[test]
fn an_input_that_is_no_tree(rt: HostRuntime) {
    let alloc = rt.alloc();
    let new = (NEW_TREE, NEW_LOG);
    let first = Status::Script { line: 1 };
    loads(&rt, alloc, b"", (b"", b""), first, new);
    let orphan: &[u8] = b"{}\n{\"path\":\"/a/b\"}\n{\"path\":\"/a\"}\n";
    let second = Status::Script { line: 2 };
    loads(&rt, alloc, orphan, (b"", b""), second, new);
    let (status, tree, log) = init(
        alloc,
        disk_of(&rt, alloc, new.0),
        disk_of(&rt, alloc, new.1),
    );
    assert!(rt; status == Status::Done);
    assert!(rt; tree.bytes() == NEW_TREE);
    assert!(rt; log.bytes() == NEW_LOG);
}

#[test]
fn a_failed_read_loads_nothing(rt: HostRuntime) {
    let alloc = rt.alloc();
    for read in 0..2u64 {
        let mut input = input_of(&rt, alloc, SMALL, read);
        let (status, tree, log) = load(
            alloc,
            &mut input,
            disk_of(&rt, alloc, b""),
            disk_of(&rt, alloc, b""),
        );
        assert!(rt; status == Status::ReadFault);
        assert!(rt; tree.bytes() == NEW_TREE);
        assert!(rt; log.bytes() == NEW_LOG);
    }
}

// Whichever call of a disk fails, the load ends with that disk's status.
#[test]
fn a_failed_call_is_told(rt: HostRuntime) {
    let alloc = rt.alloc();
    let mut in_tree = 0u64;
    let mut in_log = 0u64;
    for call in 0..32u64 {
        let mut input = input_of(&rt, alloc, SMALL, u64::MAX);
        let (status, tree, _log) = load(
            alloc,
            &mut input,
            failing(&rt, alloc, b"", call),
            disk_of(&rt, alloc, b""),
        );
        if status == Status::TreeFault {
            in_tree = in_tree.saturating_add(1);
        } else {
            assert!(rt; status == Status::Done);
            assert!(rt; tree.bytes() == LOADED);
        }
        let mut input = input_of(&rt, alloc, SMALL, u64::MAX);
        let (status, _tree, log) = load(
            alloc,
            &mut input,
            disk_of(&rt, alloc, b""),
            failing(&rt, alloc, b"", call),
        );
        if status == Status::LogFault {
            in_log = in_log.saturating_add(1);
        } else {
            assert!(rt; status == Status::Done);
            assert!(rt; log.bytes() == NEW_LOG);
        }
    }
    assert!(rt; in_tree > in_log);
    assert!(rt; in_log == 5);
}
