//! Writes a script that is generated.
ghost use Rattle.std.specs.Prelude.{◌≡◌, ◌<◌, ◌≤◌, ◌^◌, ◌++◌, ℕ, List, IfOk, OnOk, OnErr};
ghost use Rattle.std.specs.Io.KnownBytes.{Appends};
ghost use Rattle.kz_types.specs.declared.limits.TheConstants.{MAX_GENERATED};
ghost use Rattle.kz_output.specs.Outputs.{Puts, WritesFront, EndsAtSink};
ghost use Rattle.kz_spec_machine.specs.Generator.{value_at, events_at, events_after, opening_events, closing_events, event_line, generated};
ghost use Rattle.kz_generator.specs.Texts.{lines_of};

use crate::events::{closing, events_at, next_value, opening};
use kz_io::Sink;
use kz_output::{Output, OutputFault};
use kz_script::write_event;
use kz_types::{Event, MAX_GENERATED, NoMemory};
use std::alloc::Global;

// An event as a line.
fn event_line(alloc: Global, event: &Event) -> Result<Vec<u8>, NoMemory>
    ensures { IfOk result (λ line. line.items ≡ event_line event.now) }
{
    let mut line = write_event(alloc, event)?;
    line.push(b'\n')?;
    Ok(line)
}

// Puts an event as a line.
fn put_event<K: Sink>(
    alloc: Global,
    event: &Event,
    output: &mut Output,
    out: &mut K,
) -> Result<(), OutputFault>
    ensures ok { OnOk result (Puts (K.taken out.old) output.old (K.taken out.new) output.new (event_line event.now)) }
    ensures err { OnErr result (WritesFront (K.taken out.old) (K.taken out.new) (output.old ++ event_line event.now)) }
    ensures sink { EndsAtSink result (K.faults out.old) (K.faults out.new) (K.last_failed out.old) (K.last_failed out.new) }
{
    match event_line(alloc, event) {
        Ok(line) => output.put(&line, out),
        Err(NoMemory) => Err(OutputFault::NoMemory),
    }
}

// Puts events, each as a line.
#[tactic(auto, unfolding(crate::specs::Texts::lines_of))]
fn put_events<K: Sink>(
    alloc: Global,
    events: &[Event],
    output: &mut Output,
    out: &mut K,
) -> Result<(), OutputFault>
    ensures ok { OnOk result (Puts (K.taken out.old) output.old (K.taken out.new) output.new (lines_of events.now)) }
    ensures err { OnErr result (WritesFront (K.taken out.old) (K.taken out.new) (output.old ++ lines_of events.now)) }
    ensures sink { EndsAtSink result (K.faults out.old) (K.faults out.new) (K.last_failed out.old) (K.last_failed out.new) }
{
    for event in events {
        match put_event(alloc, event, output, out) {
            Ok(()) => {}
            Err(fault) => return Err(fault),
        }
    }
    Ok(())
}

// Puts the opening events.
fn put_opening<K: Sink>(alloc: Global, output: &mut Output, out: &mut K) -> Result<(), OutputFault>
    ensures ok { OnOk result (Puts (K.taken out.old) output.old (K.taken out.new) output.new (lines_of opening_events)) }
    ensures err { OnErr result (WritesFront (K.taken out.old) (K.taken out.new) (output.old ++ lines_of opening_events)) }
    ensures sink { EndsAtSink result (K.faults out.old) (K.faults out.new) (K.last_failed out.old) (K.last_failed out.new) }
{
    match opening(alloc) {
        Ok(events) => put_events(alloc, &events, output, out),
        Err(NoMemory) => Err(OutputFault::NoMemory),
    }
}

// Puts the closing events.
fn put_closing<K: Sink>(
    alloc: Global,
    changes: u64,
    output: &mut Output,
    out: &mut K,
) -> Result<(), OutputFault>
    requires { changes ≤ MAX_GENERATED }
    ensures ok { OnOk result (Puts (K.taken out.old) output.old (K.taken out.new) output.new (lines_of (closing_events changes))) }
    ensures err { OnErr result (WritesFront (K.taken out.old) (K.taken out.new) (output.old ++ lines_of (closing_events changes))) }
    ensures sink { EndsAtSink result (K.faults out.old) (K.faults out.new) (K.last_failed out.old) (K.last_failed out.new) }
{
    match closing(alloc, changes) {
        Ok(events) => put_events(alloc, &events, output, out),
        Err(NoMemory) => Err(OutputFault::NoMemory),
    }
}

// Puts the change with this number, which sets this value, and what comes after it.
fn put_change<K: Sink>(
    alloc: Global,
    number: u64,
    value: u64,
    output: &mut Output,
    out: &mut K,
) -> Result<(), OutputFault>
    requires above { 0 < number }
    requires below { number < 2 ^ 63 }
    ensures ok { OnOk result ((n : ℕ) → value_at n number ≡ value → Puts (K.taken out.old) output.old (K.taken out.new) output.new (lines_of (events_at n number))) }
    ensures err { OnErr result ((n : ℕ) → value_at n number ≡ value → WritesFront (K.taken out.old) (K.taken out.new) (output.old ++ lines_of (events_at n number))) }
    ensures sink { EndsAtSink result (K.faults out.old) (K.faults out.new) (K.last_failed out.old) (K.last_failed out.new) }
{
    match events_at(alloc, number, value) {
        Ok(events) => put_events(alloc, &events, output, out),
        Err(NoMemory) => Err(OutputFault::NoMemory),
    }
}

// Puts the changes, and the turns and elections among them.
fn put_changes<K: Sink>(
    alloc: Global,
    changes: u64,
    output: &mut Output,
    out: &mut K,
) -> Result<(), OutputFault>
    requires { changes ≤ MAX_GENERATED }
    ensures ok { OnOk result (Puts (K.taken out.old) output.old (K.taken out.new) output.new (lines_of (events_after changes 0 changes))) }
    ensures err { OnErr result (WritesFront (K.taken out.old) (K.taken out.new) (output.old ++ lines_of (events_after changes 0 changes))) }
    ensures sink { EndsAtSink result (K.faults out.old) (K.faults out.new) (K.last_failed out.old) (K.last_failed out.new) }
{
    let mut value = changes;
    for done in 0..changes {
        let number = done + 1;
        value = next_value(value);
        match put_change(alloc, number, value, output, out) {
            Ok(()) => {}
            Err(fault) => return Err(fault),
        }
    }
    Ok(())
}

// Puts the whole script.
fn put_script<K: Sink>(
    alloc: Global,
    changes: u64,
    output: &mut Output,
    out: &mut K,
) -> Result<(), OutputFault>
    requires { changes ≤ MAX_GENERATED }
    ensures ok { OnOk result (Puts (K.taken out.old) output.old (K.taken out.new) output.new (lines_of opening_events ++ (lines_of (events_after changes 0 changes) ++ lines_of (closing_events changes)))) }
    ensures err { OnErr result (WritesFront (K.taken out.old) (K.taken out.new) (output.old ++ (lines_of opening_events ++ (lines_of (events_after changes 0 changes) ++ lines_of (closing_events changes))))) }
    ensures sink { EndsAtSink result (K.faults out.old) (K.faults out.new) (K.last_failed out.old) (K.last_failed out.new) }
{
    match put_opening(alloc, output, out) {
        Ok(()) => {}
        Err(fault) => return Err(fault),
    }
    match put_changes(alloc, changes, output, out) {
        Ok(()) => {}
        Err(fault) => return Err(fault),
    }
    put_closing(alloc, changes, output, out)
}

/// Writes the script with so many changes.
///
/// `SinkFailed`: exactly where a write of the sink failed or took nothing, and that was its last call.
/// `NoMemory`: memory ran out. In both cases a front of the script is out.
pub fn generate<K: Sink>(alloc: Global, changes: u64, out: &mut K) -> Result<(), OutputFault>
    requires { changes ≤ MAX_GENERATED }
    ensures ok { OnOk result (Appends (K.taken out.old) (K.taken out.new) (generated changes)) }
    ensures err { OnErr result (WritesFront (K.taken out.old) (K.taken out.new) (generated changes)) }
    ensures sink { EndsAtSink result (K.faults out.old) (K.faults out.new) (K.last_failed out.old) (K.last_failed out.new) }
{
    let mut output = Output::new(alloc);
    match put_script(alloc, changes, &mut output, out) {
        Ok(()) => {}
        Err(fault) => return Err(fault),
    }
    output.flush(out)
}
