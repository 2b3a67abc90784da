//! Taking a migration back.
ghost use Rattle.std.specs.Prelude.{◌≡◌, None, OnOk, IfErr};
ghost use Rattle.kz_spec_data.specs.Requests.{Reset};
ghost use Rattle.kz_spec_machine.specs.Machine.{exit_ops, exit_refusal};
ghost use Rattle.kz_exit.specs.Disks.{LogDisk, TreeDisk};
ghost use Rattle.kz_exit.specs.Rollbacks.{IsLeft, IsTakenBack};
ghost use Rattle.kz_exit.specs.Stops.{RollbackLeaves};

use crate::faults::ExitFault;
use crate::operations::exit_ops;
use crate::requests::{check, reset, send};
use kz_log::MetaLog;
use kz_tree::ZTree;
use kz_types::{NoMemory, Op};
use std::alloc::Global;

// Resets the log, and then gives the tree back to ZooKeeper by these operations.
fn make<T: ZTree, L: MetaLog>(tree: &mut T, log: &mut L, ops: &[Op]) -> Result<(), ExitFault>
    requires taken { exit_refusal (T.tree tree.old) (L.log log.old) ≡ None }
    requires ops { ops.now ≡ exit_ops (T.tree tree.old) }
    ensures ok { OnOk result (IsTakenBack (T.tree tree.old) (L.log log.old) (T.tree tree.new) (L.log log.new)) }
    ensures err { IfErr result (IsLeft (T.tree tree.old) (L.log log.old) (T.tree tree.new) (L.log log.new)) }
    ensures log_disk { LogDisk (L.payload_bytes (L.log log.old) Reset) result (L.disk log.old) (L.disk log.new) }
    ensures tree_disk { TreeDisk (T.tree tree.old) T.payload_bytes (exit_ops (T.tree tree.old)) result (T.disk tree.old) (T.disk tree.new) }
    ensures stop { RollbackLeaves (T.tree tree.old) (L.log log.old) result (T.disk tree.old) (L.disk log.old) (T.left tree.new) (L.left log.new) }
{
    match reset(log) {
        Ok(()) => send(tree, ops),
        Err(fault) => Err(fault),
    }
}

// Resets the log and gives the tree back. The memory for the operations is taken first.
fn take_back<T: ZTree, L: MetaLog>(
    alloc: Global,
    tree: &mut T,
    log: &mut L,
) -> Result<(), ExitFault>
    requires { exit_refusal (T.tree tree.old) (L.log log.old) ≡ None }
    ensures ok { OnOk result (IsTakenBack (T.tree tree.old) (L.log log.old) (T.tree tree.new) (L.log log.new)) }
    ensures err { IfErr result (IsLeft (T.tree tree.old) (L.log log.old) (T.tree tree.new) (L.log log.new)) }
    ensures log_disk { LogDisk (L.payload_bytes (L.log log.old) Reset) result (L.disk log.old) (L.disk log.new) }
    ensures tree_disk { TreeDisk (T.tree tree.old) T.payload_bytes (exit_ops (T.tree tree.old)) result (T.disk tree.old) (T.disk tree.new) }
    ensures stop { RollbackLeaves (T.tree tree.old) (L.log log.old) result (T.disk tree.old) (L.disk log.old) (T.left tree.new) (L.left log.new) }
{
    match exit_ops(alloc, tree.tree()) {
        Ok(ops) => make(tree, log, &ops),
        Err(NoMemory) => Err(ExitFault::NoMemory),
    }
}

/// Takes a migration back, so that ZooKeeper has the cluster again. It is called while no controller runs.
///
/// All of the log is read. Refused, it changes nothing: `Finalised`, where the migration is finalised; and where it is
/// committed, `Unclosed` and `Behind` as of [`may_finalise`](crate::may_finalise). The first of these is told. Then the log is
/// reset: its batches and its base are dropped, and its epoch stays. At last one multi deletes `/controller`, where a KRaft
/// controller holds it, and `/migration`, where it is there; where neither is to be deleted none is sent.
///
/// At `Log` nothing has changed. At `Tree` the log is reset, and the tree is as it was. At `NoMemory` the tree is as it was,
/// and the log is as it was or, where nothing refuses the rollback, reset. A repeated call that answers `Ok` completes what an
/// earlier one left.
pub fn rollback<T: ZTree, L: MetaLog>(
    alloc: Global,
    tree: &mut T,
    log: &mut L,
) -> Result<(), ExitFault>
    ensures ok { OnOk result (IsTakenBack (T.tree tree.old) (L.log log.old) (T.tree tree.new) (L.log log.new)) }
    ensures err { IfErr result (IsLeft (T.tree tree.old) (L.log log.old) (T.tree tree.new) (L.log log.new)) }
    ensures log_disk { LogDisk (L.payload_bytes (L.log log.old) Reset) result (L.disk log.old) (L.disk log.new) }
    ensures tree_disk { TreeDisk (T.tree tree.old) T.payload_bytes (exit_ops (T.tree tree.old)) result (T.disk tree.old) (T.disk tree.new) }
    ensures stop { RollbackLeaves (T.tree tree.old) (L.log log.old) result (T.disk tree.old) (L.disk log.old) (T.left tree.new) (L.left log.new) }
{
    match check(alloc, tree.tree(), log) {
        Ok(()) => take_back(alloc, tree, log),
        Err(fault) => Err(fault),
    }
}
