//! What is printed of a tree, of a log and of the znodes at an offset.
ghost use Rattle.std.specs.Prelude.{◌≡◌, IfOk, OnOk, OnErr};
ghost use Rattle.std.specs.Io.KnownBytes.{Appends};
ghost use Rattle.kz_output.specs.Outputs.{WritesFront, EndsAtSink};
ghost use Rattle.kz_spec_data.specs.Log.{end_of, image_at};
ghost use Rattle.kz_spec_data.specs.Rendering.{render};
ghost use Rattle.kz_spec_machine.specs.Dumps.{log_head_line, tree_text, log_text, rendering_text};

use crate::lines::{put_all, put_rows};
use kz_dump::{log_head, tree_head};
use kz_io::{Sink, send};
use kz_log::LogRows;
use kz_output::{Output, OutputFault};
use kz_render::render;
use kz_tree::Tree;
use kz_types::{Failed, NoMemory, Rendered};
use std::alloc::Global;

/// Prints the lines of a tree.
pub(crate) fn print_tree<K: Sink>(
    alloc: Global,
    tree: &Tree,
    out: &mut K,
) -> Result<(), OutputFault>
    ensures ok { OnOk result (Appends (K.taken out.old) (K.taken out.new) (tree_text tree.now)) }
    ensures err { OnErr result (WritesFront (K.taken out.old) (K.taken out.new) (tree_text tree.now)) }
    ensures sink { EndsAtSink result (K.faults out.old) (K.faults out.new) (K.last_failed out.old) (K.last_failed out.new) }
{
    let Ok(head) = tree_head(alloc, tree) else {
        return Err(OutputFault::NoMemory);
    };
    let mut output = Output::new(alloc);
    match output.put(&head, out) {
        Ok(()) => {}
        Err(fault) => return Err(fault),
    }
    match put_rows(alloc, tree, &mut output, out) {
        Ok(()) => {}
        Err(fault) => return Err(fault),
    }
    match output.flush(out) {
        Ok(()) => Ok(()),
        Err(fault) => Err(fault),
    }
}

// The first line of a log.
fn head_of(alloc: Global, log: &LogRows) -> Result<Vec<u8>, NoMemory>
    ensures { IfOk result (λ line. line.items ≡ log_head_line log.now.base (end_of log.now) log.now.epoch) }
{
    log_head(alloc, log.base(), log.end(), log.epoch())
}

/// Prints the lines of a log.
pub(crate) fn print_log<K: Sink>(
    alloc: Global,
    log: &LogRows,
    out: &mut K,
) -> Result<(), OutputFault>
    ensures ok { OnOk result (Appends (K.taken out.old) (K.taken out.new) (log_text log.now)) }
    ensures err { OnErr result (WritesFront (K.taken out.old) (K.taken out.new) (log_text log.now)) }
    ensures sink { EndsAtSink result (K.faults out.old) (K.faults out.new) (K.last_failed out.old) (K.last_failed out.new) }
{
    let Ok(head) = head_of(alloc, log) else {
        return Err(OutputFault::NoMemory);
    };
    let mut output = Output::new(alloc);
    match output.put(&head, out) {
        Ok(()) => {}
        Err(fault) => return Err(fault),
    }
    match put_all(alloc, log.batches(), &mut output, out) {
        Ok(()) => {}
        Err(fault) => return Err(fault),
    }
    match output.flush(out) {
        Ok(()) => Ok(()),
        Err(fault) => Err(fault),
    }
}

// The znodes that the metadata at an offset is rendered as.
fn rendering(alloc: Global, log: &LogRows, offset: i64) -> Result<Vec<Rendered>, NoMemory>
    ensures { IfOk result (λ znodes. znodes.items ≡ render (image_at log.now offset)) }
{
    let image = log.image_at(alloc, offset)?;
    render(alloc, &image)
}

/// Prints the znodes that the metadata at an offset is rendered as.
pub(crate) fn print_rendering<K: Sink>(
    alloc: Global,
    log: &LogRows,
    offset: i64,
    out: &mut K,
) -> Result<(), OutputFault>
    ensures ok { OnOk result (Appends (K.taken out.old) (K.taken out.new) (rendering_text log.now offset)) }
    ensures err { OnErr result (WritesFront (K.taken out.old) (K.taken out.new) (rendering_text log.now offset)) }
    ensures sink { EndsAtSink result (K.faults out.old) (K.faults out.new) (K.last_failed out.old) (K.last_failed out.new) }
{
    let Ok(znodes) = rendering(alloc, log, offset) else {
        return Err(OutputFault::NoMemory);
    };
    let mut output = Output::new(alloc);
    match put_all(alloc, &znodes, &mut output, out) {
        Ok(()) => {}
        Err(fault) => return Err(fault),
    }
    match output.flush(out) {
        Ok(()) => Ok(()),
        Err(fault) => Err(fault),
    }
}

/// Prints a text.
pub(crate) fn print_text<K: Sink>(text: &[u8], out: &mut K) -> Result<(), OutputFault>
    ensures ok { OnOk result (Appends (K.taken out.old) (K.taken out.new) text.now) }
    ensures err { OnErr result (WritesFront (K.taken out.old) (K.taken out.new) text.now) }
    ensures sink { EndsAtSink result (K.faults out.old) (K.faults out.new) (K.last_failed out.old) (K.last_failed out.new) }
{
    match send(out, text) {
        Ok(()) => Ok(()),
        Err(Failed) => Err(OutputFault::SinkFailed),
    }
}
