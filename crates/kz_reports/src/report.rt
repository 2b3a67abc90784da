//! Which text is printed.
ghost use Rattle.std.specs.Prelude.{◌≡◌, IfOk, OnOk, OnErr};
ghost use Rattle.std.specs.Io.KnownBytes.{Appends};
ghost use Rattle.kz_output.specs.Outputs.{WritesFront, EndsAtSink};
ghost use Rattle.kz_spec_machine.specs.Dumps.{check_lines, figures_of, figure_lines};
ghost use Rattle.kz_spec_machine.specs.Reports.{printed, check_printed, rendering_printed, report_of};
ghost use Rattle.kz_reports.specs.Reports.{defined_report, PrintEnds};

use crate::figures::figures;
use crate::texts::{print_log, print_rendering, print_text, print_tree};
use kz_dump::{check_lines, status_lines, verdict};
use kz_io::Sink;
use kz_log::LogRows;
use kz_output::OutputFault;
use kz_tree::Tree;
use kz_types::{Status, Verdict};
use std::alloc::Global;

/// What is told of a tree and a log.
#[derive(Clone, Copy, Debug, PartialEq, Eq)]
pub enum Report {
    /// The lines of the tree.
    DumpTree,
    /// The lines of the log.
    DumpLog,
    /// The znodes that the metadata at the log's end is rendered as.
    Render,
    /// Those at an offset.
    RenderAt { offset: u32 },
    /// How the tree and the log agree.
    Check,
    /// The figures of both.
    Figures,
}

// The znodes at an offset, or the refusal of one that isn't from the base to the end.
fn print_rendering_at<K: Sink>(
    alloc: Global,
    log: &LogRows,
    offset: i64,
    out: &mut K,
) -> Result<Status, OutputFault>
    ensures printed { PrintEnds (rendering_printed log.now offset) result (K.taken out.old) (K.taken out.new) }
    ensures sink { EndsAtSink result (K.faults out.old) (K.faults out.new) (K.last_failed out.old) (K.last_failed out.new) }
{
    let (base, end) = (log.base(), log.end());
    if offset < base || end < offset {
        return Ok(Status::NoOffset { base, end });
    }
    match print_rendering(alloc, log, offset, out) {
        Ok(()) => Ok(Status::Done),
        Err(fault) => Err(fault),
    }
}

// The lines of a verdict.
fn print_lines<K: Sink>(
    alloc: Global,
    verdict: &Verdict,
    out: &mut K,
) -> Result<Status, OutputFault>
    ensures printed { PrintEnds (printed (check_lines verdict.now)) result (K.taken out.old) (K.taken out.new) }
    ensures sink { EndsAtSink result (K.faults out.old) (K.faults out.new) (K.last_failed out.old) (K.last_failed out.new) }
{
    let Ok(lines) = check_lines(alloc, verdict) else {
        return Err(OutputFault::NoMemory);
    };
    match print_text(&lines, out) {
        Ok(()) => Ok(Status::Done),
        Err(fault) => Err(fault),
    }
}

// The lines of a verdict, or the refusal of a path that disagrees.
fn print_verdict<K: Sink>(
    alloc: Global,
    verdict: Verdict,
    out: &mut K,
) -> Result<Status, OutputFault>
    ensures printed { PrintEnds (check_printed verdict) result (K.taken out.old) (K.taken out.new) }
    ensures sink { EndsAtSink result (K.faults out.old) (K.faults out.new) (K.last_failed out.old) (K.last_failed out.new) }
{
    match verdict {
        Verdict::Unmigrated => print_lines(alloc, &Verdict::Unmigrated, out),
        Verdict::Unrecorded => print_lines(alloc, &Verdict::Unrecorded, out),
        Verdict::Closed { offset } => print_lines(alloc, &Verdict::Closed { offset }, out),
        Verdict::Ahead { offset, paths } => {
            print_lines(alloc, &Verdict::Ahead { offset, paths }, out)
        }
        Verdict::Disagrees { path } => Ok(Status::Disagrees { path }),
    }
}

// The figures.
fn print_figures<K: Sink>(
    alloc: Global,
    tree: &Tree,
    log: &LogRows,
    out: &mut K,
) -> Result<(), OutputFault>
    ensures ok { OnOk result (Appends (K.taken out.old) (K.taken out.new) (figure_lines (figures_of tree.now log.now))) }
    ensures err { OnErr result (WritesFront (K.taken out.old) (K.taken out.new) (figure_lines (figures_of tree.now log.now))) }
    ensures sink { EndsAtSink result (K.faults out.old) (K.faults out.new) (K.last_failed out.old) (K.last_failed out.new) }
{
    let Ok(figures) = figures(alloc, tree, log) else {
        return Err(OutputFault::NoMemory);
    };
    let Ok(lines) = status_lines(alloc, &figures) else {
        return Err(OutputFault::NoMemory);
    };
    print_text(&lines, out)
}

/// Prints what is told of a tree and a log, and gives the status of the command.
pub(crate) fn print<K: Sink>(
    alloc: Global,
    report: Report,
    tree: &Tree,
    log: &LogRows,
    out: &mut K,
) -> Result<Status, OutputFault>
    ensures printed { PrintEnds (report_of (defined_report report) tree.now log.now) result (K.taken out.old) (K.taken out.new) }
    ensures sink { EndsAtSink result (K.faults out.old) (K.faults out.new) (K.last_failed out.old) (K.last_failed out.new) }
{
    let told = match report {
        Report::DumpTree => print_tree(alloc, tree, out),
        Report::DumpLog => print_log(alloc, log, out),
        Report::Render => print_rendering(alloc, log, log.end(), out),
        Report::RenderAt { offset } => return print_rendering_at(alloc, log, offset as i64, out),
        Report::Check => {
            let Ok(verdict) = verdict(alloc, tree, log) else {
                return Err(OutputFault::NoMemory);
            };
            return print_verdict(alloc, verdict, out);
        }
        Report::Figures => print_figures(alloc, tree, log, out),
    };
    match told {
        Ok(()) => Ok(Status::Done),
        Err(fault) => Err(fault),
    }
}
