//! Where a run stands between two lines.
ghost use Rattle.std.specs.Prelude.{◌≡◌, ◌+◌, ◌<◌, ◌≤◌, ◌^◌, IfOk};
ghost use Rattle.kz_spec_data.specs.Lines.{is_passed_over};
ghost use Rattle.kz_spec_machine.specs.Sound.{Sound, IsLawful};
ghost use Rattle.kz_spec_machine.specs.Output.{summary};
ghost use Rattle.kz_stream.specs.Machines.{PlaceOver, plain_place, printed_lines, IsPrinted};
ghost use Rattle.kz_stream.specs.Kept.{IsPlace};
ghost use Rattle.kz_stream.specs.Lines.{effect_of_event, effect_of_line, Prints};
ghost use Rattle.kz_stream.specs.Disks.{NextDisks, PrintedDisks, OverSound};
ghost use Rattle.kz_stream.specs.Moments.{EventKeepsUp, LineKeepsUp, text_of};

use crate::answer::{next_after, out_of_memory, steps_of};
use crate::ending::{Ending, Next, Printed};
use crate::failure_of;
use crate::machine::Machine;
use kz_script::{LineFault, read_event, summary, write_answer};
use kz_types::{Answer, Event, NoMemory};
use std::alloc::Global;
use std::marker::Model;

/// A run between two lines: its machine, and how many lines, events and steps it has gone over.
#[derive(Drop)]
pub struct Place<M: Machine> {
    machine: M,
    lines: u64,
    events: u64,
    steps: u128,
}

impl<M: Machine> Model for Place<M> {
    ghost Value = { PlaceOver M };

    ghost view = { λ p. record { lines = p.lines; events = p.events; steps = p.steps; machine = p.machine } };

    ghost invariant = { λ p. IsPlace p.lines p.events p.steps };
}

fn is_passed_over(line: &[u8]) -> bool
    ensures { result ≡ is_passed_over line.now }
{
    match line {
        [] => true,
        [first, ..] => *first == b'#',
    }
}

// The lines that are printed for the answer to the event of this line. An event that failed prints none, but for a turn: the
// lines of its steps before the failure.
fn answer_lines(
    alloc: Global,
    line: u64,
    event: &Event,
    answer: &Answer,
) -> Result<Vec<u8>, NoMemory>
    ensures { IfOk result (λ text. text.items ≡ printed_lines line event.now answer.now) }
{
    match event {
        Event::Turn { .. } => write_answer(alloc, line, answer),
        _ => {
            if failure_of(answer).is_some() {
                return Ok(Vec::new(alloc));
            }
            write_answer(alloc, line, answer)
        }
    }
}

// What is printed for the answer to an event, and what the run does then. Out of memory for the lines, it ends.
fn printed(alloc: Global, line: u64, event: &Event, answer: &Answer) -> Printed
    ensures { IsPrinted line event.now answer.now result.text.items result.next }
{
    let next = next_after(answer);
    match answer_lines(alloc, line, event, answer) {
        Ok(text) => Printed { text, next },
        Err(NoMemory) => Printed::nothing(alloc, out_of_memory(next)),
    }
}

impl<M: Machine> Place<M> {
    /// The place before the first line.
    pub fn new(machine: M) -> Self
        ensures { result ≡ record { lines = 0; events = 0; steps = 0; machine = machine } }
    {
        Place {
            machine,
            lines: 0,
            events: 0,
            steps: 0,
        }
    }

    // Lets the event of a line happen.
    fn serve(&mut self, alloc: Global, event: &Event) -> Printed
        requires lines { self.old.lines < 2 ^ 33 }
        requires lawful { IsLawful event.now }
        ensures prints { Sound (M.world self.old.machine) → Prints (effect_of_event (plain_place M.world self.old) event.now) result.text.items result.next (plain_place M.world self.new) }
        ensures sound { Sound (M.world self.old.machine) → Sound (M.world self.new.machine) }
        ensures disks { OverSound (M.world self.old.machine) (M.disks self.old.machine) (NextDisks result.next (M.disks self.old.machine) (M.disks self.new.machine)) }
        ensures stop { OverSound (M.world self.old.machine) (M.disks self.old.machine) (EventKeepsUp (plain_place M.world self.old) event.now result.text.items (M.tree_left self.new.machine) (M.log_left self.new.machine)) }
        ensures lines { self.new.lines ≤ self.old.lines + 1 }
    {
        let line = self.lines + 1;
        let answer = self.machine.event(event);
        self.steps += steps_of(&answer) as u128;
        self.lines += 1;
        self.events += 1;
        printed(alloc, line, event, &answer)
    }

    /// Goes over a line.
    #[tactic(auto, using(kz_laws_scripts::proofs::Lawful::lawful_line))]
    pub fn advance(&mut self, alloc: Global, line: &[u8]) -> Result<Printed, NoMemory>
        requires { self.old.lines < 2 ^ 33 }
        ensures prints { Sound (M.world self.old.machine) → IfOk result (λ p. Prints (effect_of_line (plain_place M.world self.old) line.now) p.text.items p.next (plain_place M.world self.new)) }
        ensures sound { Sound (M.world self.old.machine) → Sound (M.world self.new.machine) }
        ensures disks { OverSound (M.world self.old.machine) (M.disks self.old.machine) (PrintedDisks result (M.disks self.old.machine) (M.disks self.new.machine)) }
        ensures stop { OverSound (M.world self.old.machine) (M.disks self.old.machine) (LineKeepsUp (plain_place M.world self.old) line.now (text_of result) (M.tree_left self.new.machine) (M.log_left self.new.machine)) }
        ensures lines { self.new.lines ≤ self.old.lines + 1 }
    {
        if is_passed_over(line) {
            self.lines += 1;
            return Ok(Printed::nothing(alloc, Next::GoesOn));
        }
        match read_event(alloc, line) {
            Ok(event) => Ok(self.serve(alloc, &event)),
            Err(LineFault::BadLine) => {
                let line = self.lines + 1;
                Ok(Printed::nothing(alloc, Next::Ends(Ending::BadLine { line })))
            }
            Err(LineFault::NoMemory) => Err(NoMemory),
        }
    }

    /// The last line of a run that ends here.
    pub fn summary(&self, alloc: Global) -> Result<Vec<u8>, NoMemory>
        ensures { IfOk result (λ text. text.items ≡ summary (plain_place M.world self.now)) }
    {
        let zxid = self.machine.zxid();
        let offset = self.machine.end();
        let recorded = self.machine.recorded()?;
        summary(alloc, self.events, self.steps, zxid, offset, recorded)
    }

    /// Gives the machine back.
    pub fn into_machine(self) -> M
        ensures { result ≡ self.machine }
    {
        let Place { machine, .. } = self;
        machine
    }
}
