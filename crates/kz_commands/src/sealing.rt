//! The command that seals both files.
ghost use Rattle.std.specs.Prelude.{◌≡◌, ℕ, List, Some, false};
ghost use Rattle.kz_disk.specs.Disks.{StaysTold};
ghost use Rattle.kz_spec_data.specs.Requests.{Only};
ghost use Rattle.kz_spec_data.specs.Frames.{tree_letter, log_letter};
ghost use Rattle.kz_spec_data.specs.TreeFile.{tree_of};
ghost use Rattle.kz_spec_data.specs.LogFile.{log_of};
ghost use Rattle.kz_spec_machine.specs.Upgrade.{Upgrades};
ghost use Rattle.kz_tree_store.specs.Stores as trees;
ghost use Rattle.kz_log_store.specs.Stores as logs;
ghost use Rattle.kz_commands.specs.Outside.{outside};
ghost use Rattle.kz_commands.specs.Stops.{StandsAtStop};
ghost use Rattle.kz_commands.specs.Makes.{MakesFiles};
ghost use Rattle.kz_commands.specs.Sealing.{Seals, SealsCause, status_of_tree_seal, status_of_log_seal};

use crate::opening::open;
use kz_disk::Disk;
use kz_log_store::LogStore;
use kz_tree_store::TreeStore;
use kz_types::{Limit, LogFault, MAX_FILE_BYTES, Status, TreeFault};
use std::alloc::Global;

/// Why a file isn't sealed.
#[derive(Clone, Copy, Debug, PartialEq, Eq)]
pub(crate) enum SealFault {
    /// A call of the disk failed.
    DiskFault,
    /// The file would pass `MAX_FILE_BYTES`.
    Full,
}

// The status of a run whose tree's file isn't sealed.
fn tree_seal_status(fault: SealFault) -> Status
    ensures { result ≡ status_of_tree_seal fault }
{
    match fault {
        SealFault::DiskFault => Status::TreeFault,
        SealFault::Full => Status::Limit {
            which: Limit::TreeFileBytes.number(),
            number: MAX_FILE_BYTES,
        },
    }
}

// The status of a run whose log's file isn't sealed.
fn log_seal_status(fault: SealFault) -> Status
    ensures { result ≡ status_of_log_seal fault }
{
    match fault {
        SealFault::DiskFault => Status::LogFault,
        SealFault::Full => Status::Limit {
            which: Limit::LogFileBytes.number(),
            number: MAX_FILE_BYTES,
        },
    }
}

// Seals the tree's file. A stop leaves the tree as it stands.
fn seal_tree<D: Disk>(tree: &mut TreeStore<D>) -> Result<(), SealFault>
    requires up { trees.store_down tree.old ≡ false }
    ensures sealed { (file new : List ℕ) → D.told (trees.store_disk tree.old) ≡ Some file → D.told (trees.store_disk tree.new) ≡ Some new → Seals tree_letter result file new }
    ensures told { StaysTold (D.told (trees.store_disk tree.old)) (D.told (trees.store_disk tree.new)) }
    ensures cause { SealsCause result (D.faults (trees.store_disk tree.old)) (D.faults (trees.store_disk tree.new)) }
    ensures stop { Only (trees.held_tree tree.old) (trees.left_of D.told D.may_leave tree.new) }
{
    match tree.seal() {
        Ok(_) => Ok(()),
        Err(TreeFault::Refused { .. }) => unreachable!(),
        Err(TreeFault::Limit { .. }) => unreachable!(),
        Err(TreeFault::NoMemory) => unreachable!(),
        Err(TreeFault::Device) => Err(SealFault::DiskFault),
        Err(TreeFault::Down) => unreachable!(),
        Err(TreeFault::Full { .. }) => Err(SealFault::Full),
    }
}

// Seals the log's file. A stop leaves the log as it stands.
fn seal_log<E: Disk>(log: &mut LogStore<E>) -> Result<(), SealFault>
    requires up { logs.store_down log.old ≡ false }
    ensures sealed { (file new : List ℕ) → E.told (logs.store_disk log.old) ≡ Some file → E.told (logs.store_disk log.new) ≡ Some new → Seals log_letter result file new }
    ensures told { StaysTold (E.told (logs.store_disk log.old)) (E.told (logs.store_disk log.new)) }
    ensures cause { SealsCause result (E.faults (logs.store_disk log.old)) (E.faults (logs.store_disk log.new)) }
    ensures stop { Only (logs.held_log log.old) (logs.left_of E.told E.may_leave log.new) }
{
    match log.seal() {
        Ok(_) => Ok(()),
        Err(LogFault::Stale { .. }) => unreachable!(),
        Err(LogFault::Failed) => Err(SealFault::DiskFault),
        Err(LogFault::Limit { .. }) => unreachable!(),
        Err(LogFault::NoMemory) => unreachable!(),
        Err(LogFault::Down) => unreachable!(),
        Err(LogFault::Full { .. }) => Err(SealFault::Full),
    }
}

/// Seals the tree's file and then the log's, where their further frames have no sums. A stop at any moment leaves the tree and the
/// log that they stand for.
///
/// `Done`: both files are sealed. `TreeFault`, `LogFault`: a call of that disk failed. `TreeDamaged`, `LogDamaged`: the file is
/// damaged first at this place, and neither is sealed. `NoMemory`: neither is. `Limit`: the file would pass `MAX_FILE_BYTES`; where
/// that is the log's file, the tree's is sealed. Both disks are handed back.
pub fn upgrade<D: Disk, E: Disk>(alloc: Global, tree: D, log: E) -> (Status, D, E)
    ensures made { MakesFiles Upgrades (outside D.told D.faults D.last_failed tree) (outside D.told D.faults D.last_failed result.1)
        (outside E.told E.faults E.last_failed log) (outside E.told E.faults E.last_failed result.2) result.0 }
    ensures tree_stop { StandsAtStop tree_of (D.told tree) (D.may_leave tree) (D.syncs tree) (D.syncs result.1) (D.may_leave result.1) }
    ensures log_stop { StandsAtStop log_of (E.told log) (E.may_leave log) (E.syncs log) (E.syncs result.2) (E.may_leave result.2) }
{
    let (mut tree, mut log) = match open(alloc, tree, log) {
        Ok(stores) => stores,
        Err(refused) => return refused,
    };
    match seal_tree(&mut tree) {
        Ok(()) => {}
        Err(fault) => return (tree_seal_status(fault), tree.into_disk(), log.into_disk()),
    }
    match seal_log(&mut log) {
        Ok(()) => (Status::Done, tree.into_disk(), log.into_disk()),
        Err(fault) => (log_seal_status(fault), tree.into_disk(), log.into_disk()),
    }
}
