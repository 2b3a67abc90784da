//! Lines of lists, one after another.
ghost use Rattle.std.specs.Prelude.{◌≡◌, ◌++◌, List, ℕ, IfOk, OnOk, OnErr};
ghost use Rattle.std.specs.List.{flat_map};
ghost use Rattle.kz_output.specs.Outputs.{Puts, WritesFront, EndsAtSink};
ghost use Rattle.kz_spec_machine.specs.Dumps.{row_line, batch_line, rendered_line};

use kz_dump::{batch_line, render_line, row_line};
use kz_io::Sink;
use kz_output::{Output, OutputFault};
use kz_tree::Tree;
use kz_types::{BatchRow, NoMemory, Rendered, Row};
use std::alloc::Global;

/// What is printed as a line.
pub(crate) trait Line {
    /// The line, with its end.
    ghost text: { Self → List ℕ };

    /// The bytes of the line.
    fn line(&self, alloc: Global) -> Result<Vec<u8>, NoMemory>
        ensures { IfOk result (λ line. line.items ≡ text self.now) };
}

impl Line for Row {
    ghost text = { row_line };

    fn line(&self, alloc: Global) -> Result<Vec<u8>, NoMemory> {
        row_line(alloc, self)
    }
}

impl Line for BatchRow {
    ghost text = { batch_line };

    fn line(&self, alloc: Global) -> Result<Vec<u8>, NoMemory> {
        batch_line(alloc, self)
    }
}

impl Line for Rendered {
    ghost text = { rendered_line };

    fn line(&self, alloc: Global) -> Result<Vec<u8>, NoMemory> {
        render_line(alloc, self)
    }
}

// One line more.
fn put_line<T: Line, K: Sink>(
    alloc: Global,
    item: &T,
    output: &mut Output,
    out: &mut K,
) -> Result<(), OutputFault>
    ensures ok { OnOk result (Puts (K.taken out.old) output.old (K.taken out.new) output.new (T.text item.now)) }
    ensures err { OnErr result (WritesFront (K.taken out.old) (K.taken out.new) (output.old ++ T.text item.now)) }
    ensures sink { EndsAtSink result (K.faults out.old) (K.faults out.new) (K.last_failed out.old) (K.last_failed out.new) }
{
    let Ok(line) = item.line(alloc) else {
        return Err(OutputFault::NoMemory);
    };
    output.put(&line, out)
}

/// The lines of these items.
pub(crate) fn put_all<T: Line, K: Sink>(
    alloc: Global,
    items: &[T],
    output: &mut Output,
    out: &mut K,
) -> Result<(), OutputFault>
    ensures ok { OnOk result (Puts (K.taken out.old) output.old (K.taken out.new) output.new (flat_map T.text items.now)) }
    ensures err { OnErr result (WritesFront (K.taken out.old) (K.taken out.new) (output.old ++ flat_map T.text items.now)) }
    ensures sink { EndsAtSink result (K.faults out.old) (K.faults out.new) (K.last_failed out.old) (K.last_failed out.new) }
{
    for item in items {
        match put_line(alloc, item, output, out) {
            Ok(()) => {}
            Err(fault) => return Err(fault),
        }
    }
    Ok(())
}

/// The lines of a tree's znodes.
pub(crate) fn put_rows<K: Sink>(
    alloc: Global,
    tree: &Tree,
    output: &mut Output,
    out: &mut K,
) -> Result<(), OutputFault>
    ensures ok { OnOk result (Puts (K.taken out.old) output.old (K.taken out.new) output.new (flat_map row_line tree.now.rows)) }
    ensures err { OnErr result (WritesFront (K.taken out.old) (K.taken out.new) (output.old ++ flat_map row_line tree.now.rows)) }
    ensures sink { EndsAtSink result (K.faults out.old) (K.faults out.new) (K.last_failed out.old) (K.last_failed out.new) }
{
    for row in tree.rows() {
        match put_line(alloc, row, output, out) {
            Ok(()) => {}
            Err(fault) => return Err(fault),
        }
    }
    Ok(())
}
