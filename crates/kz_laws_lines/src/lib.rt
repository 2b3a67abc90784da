//! Laws of the definitions of lines: what is written of an event is the line of that event.
//!
//! Each law is the contract of a function that does nothing.
#![tactic(auto)]

ghost use Rattle.std.specs.Prelude.{◌≡◌, Some};
ghost use Rattle.kz_types.specs.declared.machine.Event.{Event};
ghost use Rattle.kz_types.specs.declared.record.MetaRecord.{MetaRecord};
ghost use Rattle.kz_types.specs.declared.tree.Op.{Op};
ghost use Rattle.kz_spec_data.specs.Ops.{op_of};
ghost use Rattle.kz_spec_data.specs.RecordLines.{record_of};
ghost use Rattle.kz_spec_data.specs.Events.{line_event};
ghost use Rattle.kz_spec_data.specs.WrittenRecords.{record_data};
ghost use Rattle.kz_spec_data.specs.Written.{op_data, written_event};
ghost use Rattle.kz_laws_lines.specs.Writable.{IsRecord, IsOp, IsEvent};

mod held;

pub use held::{held_event_is_read, held_operation_is_read, held_record_is_read};

#[cfg(test)]
mod tests;

/// A record is read as it was written, of each of the 17 kinds.
pub fn record_is_read()
    ensures { (r : MetaRecord) → IsRecord r → record_of (record_data r) ≡ Some r }
{}

/// An operation is read as it was written.
pub fn operation_is_read()
    ensures { (o : Op) → IsOp o → op_of (op_data o) ≡ Some o }
{}

/// An event is read from its line, where it is one that a line can be.
pub fn event_is_read()
    ensures { (event : Event) → IsEvent event → line_event (written_event event) ≡ Some event }
{}
