//! The commands that tell what stands in the two files.
ghost use Rattle.std.specs.Prelude.{◌≡◌, IfOk, OnErr};
ghost use Rattle.kz_output.specs.Outputs.{WritesFront, EndsAtSink};
ghost use Rattle.kz_spec_data.specs.TreeFile.{tree_of};
ghost use Rattle.kz_spec_data.specs.LogFile.{log_of};
ghost use Rattle.kz_spec_machine.specs.Reports.{report_of};
ghost use Rattle.kz_tree_store.specs.Stores as trees;
ghost use Rattle.kz_log_store.specs.Stores as logs;
ghost use Rattle.kz_commands.specs.Outside.{outside};
ghost use Rattle.kz_commands.specs.Stops.{StandsAtStop};
ghost use Rattle.kz_reports.specs.Reports.{defined_report, PrintEnds, status_of};
ghost use Rattle.kz_reports.specs.Tells.{Tells};

use crate::report::{Report, print};
use kz_commands::open;
use kz_disk::Disk;
use kz_io::Sink;
use kz_log_store::LogStore;
use kz_output::OutputFault;
use kz_tree::ZTree;
use kz_tree_store::TreeStore;
use kz_types::Status;
use std::alloc::Global;

// The status of a command that printed, or why it stopped.
fn status_of(ended: Result<Status, OutputFault>) -> Status
    ensures { result ≡ status_of ended }
{
    match ended {
        Ok(status) => status,
        Err(OutputFault::SinkFailed) => Status::WriteFault,
        Err(OutputFault::NoMemory) => Status::NoMemory,
    }
}

// Prints what is told of an opened tree and log.
fn told<K: Sink, D: Disk, E: Disk>(
    alloc: Global,
    report: Report,
    tree: &TreeStore<D>,
    log: &LogStore<E>,
    out: &mut K,
) -> Result<Status, OutputFault>
    ensures printed { PrintEnds (report_of (defined_report report) (trees.held_tree tree.now) (logs.held_log log.now)) result (K.taken out.old) (K.taken out.new) }
    ensures sink { EndsAtSink result (K.faults out.old) (K.faults out.new) (K.last_failed out.old) (K.last_failed out.new) }
{
    print(alloc, report, tree.tree(), log.rows(), out)
}

/// Tells what stands in the files of a tree and of a log. It changes no frame of either.
///
/// `TreeFault`, `LogFault`: a call of that disk failed. `TreeDamaged`, `LogDamaged`: the file is damaged first at this place.
/// `Disagrees`: for a check, the first path that disagrees. `NoOffset`: for a rendering at an offset, that isn't one from the log's
/// base to its end. `WriteFault`: the sink failed. `NoMemory`. At the last two a front of the text is out, at the others nothing.
pub fn tell<K: Sink, D: Disk, E: Disk>(
    alloc: Global,
    report: Report,
    out: &mut K,
    tree: D,
    log: E,
) -> (Status, D, E)
    ensures tells { Tells (defined_report report) (outside K.taken K.faults K.last_failed out.old) (outside K.taken K.faults K.last_failed out.new)
        (outside D.told D.faults D.last_failed tree) (outside D.told D.faults D.last_failed result.1)
        (outside E.told E.faults E.last_failed log) (outside E.told E.faults E.last_failed result.2) result.0 }
    ensures tree_stop { StandsAtStop tree_of (D.told tree) (D.may_leave tree) (D.syncs tree) (D.syncs result.1) (D.may_leave result.1) }
    ensures log_stop { StandsAtStop log_of (E.told log) (E.may_leave log) (E.syncs log) (E.syncs result.2) (E.may_leave result.2) }
{
    let (tree, log) = match open(alloc, tree, log) {
        Ok(stores) => stores,
        Err(refused) => return refused,
    };
    let ended = told(alloc, report, &tree, &log, out);
    let status = status_of(ended);
    (status, tree.into_disk_at_exit(), log.into_disk_at_exit())
}
