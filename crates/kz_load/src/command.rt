//! Loading a tree into two files.
ghost use Rattle.std.specs.Prelude.{◌≡◌, true, false, None, IfOk, IfErr};
ghost use Rattle.kz_disk.specs.Disks.{NothingPends};
ghost use Rattle.kz_commands.specs.Outside.{outside};
ghost use Rattle.kz_commands.specs.Stops.{contents};
ghost use Rattle.kz_tree_store.specs.Stores.{IsOpened, held_tree, is_fresh, loaded, store_disk, store_down, store_state};
ghost use Rattle.kz_load.specs.Leaves.{LeavesUnopened, LeavesEither, LeavesNewOrLoaded, LoadStops};
ghost use Rattle.kz_load.specs.LoadsFiles.{LoadsFiles};
ghost use Rattle.kz_load.specs.LoadsTrees.{IsUnopenedTree, FillsStore, LoadsTree, CanFailLoad, status_of_open_fault, status_of_load_fault};

use crate::{read_tree, stop_status};
use kz_commands::init;
use kz_disk::Disk;
use kz_io::Source;
use kz_tree_store::{TreeOpenFault, TreeStore};
use kz_types::{Limit, MAX_FILE_BYTES, Status, TreeFault};
use std::alloc::Global;

// The status of a load whose tree's file isn't opened.
fn open_status(fault: TreeOpenFault) -> Status
    ensures { result ≡ status_of_open_fault fault }
{
    match fault {
        TreeOpenFault::DiskFault => Status::TreeFault,
        TreeOpenFault::Damaged { at } => Status::TreeDamaged { at },
        TreeOpenFault::NoMemory => Status::NoMemory,
    }
}

// The status of a load whose frames aren't written.
fn load_status(fault: TreeFault) -> Status
    requires { CanFailLoad fault }
    ensures { result ≡ status_of_load_fault fault }
{
    match fault {
        TreeFault::Refused { .. } => unreachable!(),
        TreeFault::Limit { .. } => unreachable!(),
        TreeFault::NoMemory => Status::NoMemory,
        TreeFault::Device => Status::TreeFault,
        TreeFault::Down => unreachable!(),
        TreeFault::Full { .. } => Status::Limit {
            which: Limit::TreeFileBytes.number(),
            number: MAX_FILE_BYTES,
        },
    }
}

// Opens the file of a tree that was just made. `NotEmpty`: it holds a tree all the same, which isn't so where the disk tells the file.
fn open_new<D: Disk>(alloc: Global, tree: D) -> Result<TreeStore<D>, (Status, D)>
    ensures opened { IfOk result (λ s. IsOpened s (D.told tree) (D.told (store_disk s))) }
    ensures fresh { IfOk result (λ s. is_fresh s ≡ true) }
    ensures calm { IfOk result (λ s. D.faults (store_disk s) ≡ D.faults tree) }
    ensures refused { IfErr result (λ e. IsUnopenedTree (outside D.told D.faults D.last_failed tree) (outside D.told D.faults D.last_failed e.1) e.0) }
    ensures left { IfErr result (λ e. LeavesUnopened (D.told tree) (D.may_leave tree) (D.may_leave e.1)) }
{
    let store = match TreeStore::attach(alloc, tree) {
        Ok(store) => store,
        Err((tree, fault)) => return Err((open_status(fault), tree)),
    };
    if store.is_fresh() {
        Ok(store)
    } else {
        Err((Status::NotEmpty, store.into_disk()))
    }
}

// Reads the tree of an input, and moves it into a store.
fn fill<S: Source, D: Disk>(alloc: Global, input: &mut S, store: &mut TreeStore<D>) -> Status
    requires up { store_down store.old ≡ false }
    requires fresh { is_fresh store.old ≡ true }
    requires unloaded { loaded store.old ≡ None }
    ensures fills { FillsStore (held_tree store.old) (outside S.left S.faults S.last_failed input.old) (outside S.left S.faults S.last_failed input.new)
        (outside D.told D.faults D.last_failed (store_disk store.old)) (outside D.told D.faults D.last_failed (store_disk store.new)) result }
    ensures left { LeavesEither (S.left input.old) (held_tree store.old) (D.told (store_disk store.new)) (D.may_leave (store_disk store.new)) }
    ensures settled { result ≡ Status.Done → NothingPends (D.told (store_disk store.new)) (D.may_leave (store_disk store.new)) }
{
    let check = match read_tree(alloc, input) {
        Ok(check) => check,
        Err(stop) => return stop_status(stop),
    };
    match store.load_checked(check) {
        Ok(()) => Status::Done,
        Err(fault) => load_status(fault),
    }
}

// Loads the tree of an input into the file of a tree that was just made.
fn load_tree<S: Source, D: Disk>(alloc: Global, input: &mut S, tree: D) -> (Status, D)
    ensures loads { LoadsTree (outside S.left S.faults S.last_failed input.old) (outside S.left S.faults S.last_failed input.new)
        (outside D.told D.faults D.last_failed tree) (outside D.told D.faults D.last_failed result.1) result.0 }
    ensures left { LeavesNewOrLoaded (S.left input.old) (D.told tree) (D.may_leave tree) (D.told result.1) (D.may_leave result.1) }
    ensures settled { result.0 ≡ Status.Done → NothingPends (D.told result.1) (D.may_leave result.1) }
{
    let mut store = match open_new(alloc, tree) {
        Ok(store) => store,
        Err(refused) => return refused,
    };
    let status = fill(alloc, input, &mut store);
    (status, store.into_disk_at_exit())
}

/// Makes both files, as `init`, and loads the tree of an input into them: its lines are a header and znodes, by rising path. The tree
/// stands once the last line was read and written; until then the files stand for an empty tree and an empty log, and a stop leaves one
/// of the two, or what `init` leaves.
///
/// `TreeFault`, `LogFault`: a call of that disk failed. `TreeDamaged`, `LogDamaged`, `NotEmpty`: as of `init`; no frame is changed.
/// `Script`: this line is none of a tree, or breaks a rule of a load. `Limit`: number 2, a znode's body would have more than 1,048,575
/// bytes; 3 and 4, there would be more than 200,000 znodes in the migrated area, or outside it; 10 and 11, a line or the input has too
/// many bytes; 12, the tree's file would have more than 2,147,483,647 bytes. `ReadFault`: the last read failed. `NoMemory`.
pub fn load<S: Source, D: Disk, E: Disk>(
    alloc: Global,
    input: &mut S,
    tree: D,
    log: E,
) -> (Status, D, E)
    ensures loads { LoadsFiles (outside S.left S.faults S.last_failed input.old) (outside S.left S.faults S.last_failed input.new)
        (outside D.told D.faults D.last_failed tree) (outside D.told D.faults D.last_failed result.1)
        (outside E.told E.faults E.last_failed log) (outside E.told E.faults E.last_failed result.2) result.0 }
    ensures stop { LoadStops (S.left input.old) (contents D.told D.may_leave D.syncs tree) (contents D.told D.may_leave D.syncs result.1)
        (contents E.told E.may_leave E.syncs log) (contents E.told E.may_leave E.syncs result.2) result.0 }
{
    let (made, tree, log) = init(alloc, tree, log);
    match made {
        Status::Done => {
            let (status, tree) = load_tree(alloc, input, tree);
            (status, tree, log)
        }
        refused => (refused, tree, log),
    }
}
