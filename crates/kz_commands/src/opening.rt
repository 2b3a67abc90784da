//! Opening the two files.
ghost use Rattle.std.specs.Prelude.{◌≡◌, IfOk, IfErr, MatchResult};
ghost use Rattle.kz_spec_data.specs.TreeFile.{tree_of};
ghost use Rattle.kz_spec_data.specs.LogFile.{log_of};
ghost use Rattle.kz_tree_store.specs.Stores as trees;
ghost use Rattle.kz_log_store.specs.Stores as logs;
ghost use Rattle.kz_commands.specs.Outside.{outside};
ghost use Rattle.kz_commands.specs.Stops.{StandsAtStop};
ghost use Rattle.kz_commands.specs.Opening.{AreOpened, AreUnopened, status_of_tree_fault, status_of_log_fault};

use kz_disk::Disk;
use kz_log_store::{LogOpenFault, LogStore};
use kz_tree_store::{TreeOpenFault, TreeStore};
use kz_types::Status;
use std::alloc::Global;

/// The status of a run whose tree's file isn't opened.
pub(crate) fn tree_status(fault: TreeOpenFault) -> Status
    ensures { result ≡ status_of_tree_fault fault }
{
    match fault {
        TreeOpenFault::DiskFault => Status::TreeFault,
        TreeOpenFault::Damaged { at } => Status::TreeDamaged { at },
        TreeOpenFault::NoMemory => Status::NoMemory,
    }
}

/// The status of a run whose log's file isn't opened.
pub(crate) fn log_status(fault: LogOpenFault) -> Status
    ensures { result ≡ status_of_log_fault fault }
{
    match fault {
        LogOpenFault::DiskFault => Status::LogFault,
        LogOpenFault::Damaged { at, why } => Status::LogDamaged { at, why },
        LogOpenFault::NoMemory => Status::NoMemory,
    }
}

/// Opens both files, the tree's first. A stop at any moment leaves the tree and the log that they stand for.
///
/// `TreeFault`, `LogFault`: a call of that disk failed. `TreeDamaged`, `LogDamaged`: the file is damaged first at this place.
/// `NoMemory`. At each of them both disks are handed back.
pub fn open<D: Disk, E: Disk>(
    alloc: Global,
    tree: D,
    log: E,
) -> Result<(TreeStore<D>, LogStore<E>), (Status, D, E)>
    ensures opened { IfOk result (λ s. AreOpened s.0 s.1 (outside D.told D.faults D.last_failed tree) (outside D.told D.faults D.last_failed (trees.store_disk s.0))
        (outside E.told E.faults E.last_failed log) (outside E.told E.faults E.last_failed (logs.store_disk s.1))) }
    ensures refused { IfErr result (λ e. AreUnopened (outside D.told D.faults D.last_failed tree) (outside D.told D.faults D.last_failed e.1)
        (outside E.told E.faults E.last_failed log) (outside E.told E.faults E.last_failed e.2) e.0) }
    ensures tree_stop { MatchResult result (λ s. StandsAtStop tree_of (D.told tree) (D.may_leave tree) (D.syncs tree) (D.syncs (trees.store_disk s.0)) (D.may_leave (trees.store_disk s.0)))
        (λ e. StandsAtStop tree_of (D.told tree) (D.may_leave tree) (D.syncs tree) (D.syncs e.1) (D.may_leave e.1)) }
    ensures log_stop { MatchResult result (λ s. StandsAtStop log_of (E.told log) (E.may_leave log) (E.syncs log) (E.syncs (logs.store_disk s.1)) (E.may_leave (logs.store_disk s.1)))
        (λ e. StandsAtStop log_of (E.told log) (E.may_leave log) (E.syncs log) (E.syncs e.2) (E.may_leave e.2)) }
{
    let tree = match TreeStore::attach(alloc, tree) {
        Ok(tree) => tree,
        Err((tree, fault)) => return Err((tree_status(fault), tree, log)),
    };
    match LogStore::attach(alloc, log) {
        Ok(log) => Ok((tree, log)),
        Err((log, fault)) => Err((log_status(fault), tree.into_disk(), log)),
    }
}
