//! The requests of a rollback.
ghost use Rattle.std.specs.Prelude.{◌≡◌, None, Ok, OnOk, OnErr, IfOk, IfErr, IsErrOf};
ghost use Rattle.kz_spec_data.specs.Log as logs;
ghost use Rattle.kz_spec_data.specs.Log.{new_view, read_view};
ghost use Rattle.kz_spec_data.specs.Requests.{Between, IsTaken, Multi, Reset};
ghost use Rattle.kz_spec_data.specs.Tree.{multi};
ghost use Rattle.kz_spec_machine.specs.Machine.{exit_refusal, tree_after_ops};
ghost use Rattle.kz_log.specs.Requests.{made_by_reset};
ghost use Rattle.kz_exit.specs.Disks.{TreeDisk};
ghost use Rattle.kz_exit.specs.Requests.{IsCheckFault, IsReadFault, IsResetFault, IsMultiFault, IsViewFault, CheckDisk, MultiDisk, ReadDisk, ResetDisk, refusal_of};

use crate::faults::ExitFault;
use crate::rest::may_finalise;
use kz_log::{MetaLog, View, read_to_end};
use kz_tree::{Tree, ZTree};
use kz_types::{LogFault, MIGRATION, Op, POST_MIGRATION, TreeFault};
use std::alloc::Global;

// All of the log is read.
fn read<L: MetaLog>(alloc: Global, log: &mut L) -> Result<View, ExitFault>
    ensures view { IfOk result (λ view. view ≡ read_view (L.log log.old) new_view) }
    ensures err { IfErr result IsReadFault }
    ensures same { L.log log.new ≡ L.log log.old }
    ensures disk { ReadDisk result (L.disk log.old) (L.disk log.new) }
{
    let mut view = View::new(alloc);
    match read_to_end(&mut view, log) {
        Ok(()) => Ok(view),
        Err(LogFault::NoMemory) => Err(ExitFault::NoMemory),
        Err(LogFault::Down) => Err(ExitFault::Log(LogFault::Down)),
        Err(_) => unreachable!(),
    }
}

// Nothing refuses the rollback of a log of which this is known at its end.
#[tactic(auto, using(crate::proofs::Refusals::rest_viewed))]
fn check_view(tree: &Tree, view: &View) -> Result<(), ExitFault>
    ensures ok { OnOk result (refusal_of tree.now view.now ≡ None) }
    ensures err { IfErr result (IsViewFault (refusal_of tree.now view.now)) }
{
    if view.image().state() == POST_MIGRATION {
        return Err(ExitFault::Finalised);
    }
    if view.image().state() < MIGRATION {
        return Ok(());
    }
    match may_finalise(tree, view.position()) {
        Ok(()) => Ok(()),
        Err(fault) => Err(fault),
    }
}

/// Nothing refuses the rollback: the migration isn't finalised, and where it is committed, ZooKeeper has all of the metadata.
/// The log is read, and nothing changes.
pub fn check<L: MetaLog>(alloc: Global, tree: &Tree, log: &mut L) -> Result<(), ExitFault>
    ensures ok { OnOk result (exit_refusal tree.now (L.log log.old) ≡ None) }
    ensures err { IfErr result (IsCheckFault (exit_refusal tree.now (L.log log.old))) }
    ensures same { L.log log.new ≡ L.log log.old }
    ensures disk { CheckDisk result (L.disk log.old) (L.disk log.new) }
{
    match read(alloc, log) {
        Ok(view) => check_view(tree, &view),
        Err(fault) => Err(fault),
    }
}

/// Drops all that the log holds but its epoch. At `Err` it is as it was.
pub fn reset<L: MetaLog>(log: &mut L) -> Result<(), ExitFault>
    ensures ok { OnOk result (L.log log.new ≡ logs.reset (L.log log.old)) }
    ensures err { IfErr result IsResetFault }
    ensures same { OnErr result (L.log log.new ≡ L.log log.old) }
    ensures disk { ResetDisk (L.payload_bytes (L.log log.old) Reset) result (L.disk log.old) (L.disk log.new) }
    ensures stop { IsErrOf result (ExitFault.Log LogFault.Failed) → Between (L.log log.old) (made_by_reset (L.log log.old)) (L.left log.new) }
{
    match log.reset() {
        Ok(()) => Ok(()),
        Err(LogFault::NoMemory) => Err(ExitFault::NoMemory),
        Err(LogFault::Failed) => Err(ExitFault::Log(LogFault::Failed)),
        Err(LogFault::Down) => Err(ExitFault::Log(LogFault::Down)),
        Err(LogFault::Full { length }) => Err(ExitFault::Log(LogFault::Full { length })),
        Err(LogFault::Stale { .. }) => unreachable!(),
        Err(LogFault::Limit { .. }) => unreachable!(),
    }
}

// Sends these operations in one multi.
fn ask<T: ZTree>(tree: &mut T, ops: &[Op]) -> Result<(), ExitFault>
    ensures ok { OnOk result (multi (T.tree tree.old) ops.now ≡ Ok (T.tree tree.new)) }
    ensures err { IfErr result (IsMultiFault (multi (T.tree tree.old) ops.now)) }
    ensures same { OnErr result (T.tree tree.new ≡ T.tree tree.old) }
    ensures disk { MultiDisk (IsTaken (multi (T.tree tree.old) ops.now)) (T.payload_bytes (T.tree tree.old) (Multi ops.now)) result (T.disk tree.old) (T.disk tree.new) }
    ensures stop { IsErrOf result (ExitFault.Tree TreeFault.Device) → Between (T.tree tree.old) (multi (T.tree tree.old) ops.now) (T.left tree.new) }
{
    match tree.multi(ops) {
        Ok(_) => Ok(()),
        Err(TreeFault::NoMemory) => Err(ExitFault::NoMemory),
        Err(TreeFault::Refused { index, code }) => {
            Err(ExitFault::Tree(TreeFault::Refused { index, code }))
        }
        Err(TreeFault::Limit { index, number }) => {
            Err(ExitFault::Tree(TreeFault::Limit { index, number }))
        }
        Err(TreeFault::Device) => Err(ExitFault::Tree(TreeFault::Device)),
        Err(TreeFault::Down) => Err(ExitFault::Tree(TreeFault::Down)),
        Err(TreeFault::Full { length }) => Err(ExitFault::Tree(TreeFault::Full { length })),
    }
}

/// Sends these operations in one multi, where there are some. At `Err` the tree is as it was.
pub fn send<T: ZTree>(tree: &mut T, ops: &[Op]) -> Result<(), ExitFault>
    ensures ok { OnOk result (tree_after_ops (T.tree tree.old) ops.now ≡ Ok (T.tree tree.new)) }
    ensures err { IfErr result (IsMultiFault (tree_after_ops (T.tree tree.old) ops.now)) }
    ensures same { OnErr result (T.tree tree.new ≡ T.tree tree.old) }
    ensures disk { TreeDisk (T.tree tree.old) T.payload_bytes ops.now result (T.disk tree.old) (T.disk tree.new) }
    ensures stop { IsErrOf result (ExitFault.Tree TreeFault.Device) → Between (T.tree tree.old) (tree_after_ops (T.tree tree.old) ops.now) (T.left tree.new) }
{
    if ops.is_empty() {
        Ok(())
    } else {
        ask(tree, ops)
    }
}
