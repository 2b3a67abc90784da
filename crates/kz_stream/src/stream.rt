//! A script that comes in pieces.
ghost use Rattle.std.specs.Prelude.{◌≡◌, ◌≢◌, ◌+◌, ◌<◌, ◌≤◌, ◌^◌, [], ◌∷◌, List, ℕ, IfOk, IfErr, OnOk, OnErr, length, Contains};
ghost use Rattle.std.specs.Io.KnownBytes.{Appends};
ghost use Rattle.kz_types.specs.declared.limits.TheConstants.{MAX_INPUT_BYTES, MAX_LINE_BYTES};
ghost use Rattle.kz_types.specs.declared.outside.Status.TheVariants as status;
ghost use Rattle.kz_spec_data.specs.Lines.{with_front};
ghost use Rattle.kz_spec_machine.specs.Machine.{World};
ghost use Rattle.kz_spec_machine.specs.Sound.{Sound};
ghost use Rattle.kz_spec_machine.specs.Output.{Outcome, end_of_run, outcome};
ghost use Rattle.kz_spec_machine.specs.Endings.{IsFront};
ghost use Rattle.kz_spec_machine.specs.Moments.{Moment, moment_after, moments, LeavesMoment};
ghost use Rattle.kz_stream.specs.Machines.{StreamOver, plain_place};
ghost use Rattle.kz_stream.specs.Endings.{Begins, Stops, StopsAtSink};
ghost use Rattle.kz_stream.specs.Kept.{IsKept};
ghost use Rattle.kz_stream.specs.Pending.{state_of, outcome_to_come, TakesSoundly, GoesSoundly, StopsSoundly, StopsAtEnd, IsDone, moments_to_come};
ghost use Rattle.kz_stream.specs.Disks.{PrintedDisks, PartDisks, OverSound, IsEndOf};
ghost use Rattle.kz_stream.specs.Moments.{KeepsUp, BytesKeepUp, LeavesPart, text_of, summarised};

use crate::Failure;
use crate::ending::{Ending, Next, Printed, Stop};
use crate::machine::Machine;
use crate::place::Place;
use kz_io::{Sink, send};
use kz_types::{Failed, MAX_INPUT_BYTES, MAX_LINE_BYTES, NoMemory};
use std::alloc::Global;
use std::marker::Model;

/// A run in the middle of its input: its place, the bytes of the line so far, and how many bytes it has taken.
#[derive(Drop)]
pub struct Stream<M: Machine> {
    alloc: Global,
    place: Place<M>,
    line: Vec<u8>,
    taken: u64,
}

impl<M: Machine> Model for Stream<M> {
    ghost Value = { StreamOver M };

    ghost view = { λ s. record { place = s.place; line = s.line.items; taken = s.taken } };

    ghost invariant = { λ s. IsKept (length s.line.items) s.taken s.place.lines };
}

// Writes what is printed.
fn print<K: Sink>(printed: &Printed, out: &mut K) -> Result<(), Stop>
    ensures ok { OnOk result (Appends (K.taken out.old) (K.taken out.new) printed.now.text.items × (printed.now.next ≡ Next.GoesOn)) }
    ensures stop { IfErr result (λ stop. (sent : List ℕ) × Appends (K.taken out.old) (K.taken out.new) sent
        × ((w : World) (o rest : Outcome) → Begins printed.now.text.items printed.now.next w o rest → Stops o sent w stop) × IsFront sent printed.now.text.items) }
    ensures why { IsEndOf printed.now.next result }
    ensures sink { StopsAtSink result (K.faults out.old) (K.faults out.new) (K.last_failed out.old) (K.last_failed out.new) }
{
    match send(out, &printed.text) {
        Ok(()) => {}
        Err(Failed) => return Err(Stop::SinkFailed),
    }
    match printed.next {
        Next::GoesOn => Ok(()),
        Next::Ends(ending) => Err(Stop::Ends(ending)),
        Next::Fails(failure) => Err(Stop::Fails(failure)),
    }
}

// What is printed for a last line without an end, if there is one.
fn last_line<M: Machine>(
    alloc: Global,
    place: &mut Place<M>,
    line: &[u8],
) -> Result<Printed, NoMemory>
    requires { place.old.lines < 2 ^ 33 }
    ensures begins { Sound (M.world place.old.machine) → IfOk result (λ p. Begins p.text.items p.next (M.world place.new.machine) (outcome (plain_place M.world place.old) (with_front line.now [])) (outcome (plain_place M.world place.new) [])) }
    ensures disks { OverSound (M.world place.old.machine) (M.disks place.old.machine) (PrintedDisks result (M.disks place.old.machine) (M.disks place.new.machine)) }
    ensures stop { OverSound (M.world place.old.machine) (M.disks place.old.machine) (KeepsUp (moments (plain_place M.world place.old) (with_front line.now [])) (text_of result) (M.tree_left place.new.machine) (M.log_left place.new.machine)) }
    ensures moments { Sound (M.world place.old.machine) → IfOk result (λ p. p.next ≡ Next.GoesOn → (m : Moment) → Contains (moments (plain_place M.world place.new) []) m → Contains (moments (plain_place M.world place.old) (with_front line.now [])) (moment_after p.text.items m)) }
{
    if line.is_empty() {
        Ok(Printed::nothing(alloc, Next::GoesOn))
    } else {
        place.advance(alloc, line)
    }
}

// What is printed, and after it the summary, unless the run ends without.
fn with_summary<M: Machine>(
    alloc: Global,
    place: &Place<M>,
    printed: Printed,
) -> Result<Printed, NoMemory>
    ensures next { IfOk result (λ p. p.next ≡ printed.next) }
    ensures memory { OnErr result (printed.next ≡ Next.GoesOn) }
    ensures text { IfOk result (λ p. p.text.items ≡ summarised printed.next printed.text.items (plain_place M.world place.now)) }
    ensures begins { IfOk result (λ p. (o : Outcome) → Begins printed.text.items printed.next (M.world place.now.machine) o (outcome (plain_place M.world place.now) []) → Begins p.text.items p.next (M.world place.now.machine) o (end_of_run (M.world place.now.machine) status.Done)) }
{
    let Next::GoesOn = printed.next else {
        return Ok(printed);
    };
    let Printed { mut text, next: _ } = printed;
    let summary = place.summary(alloc)?;
    let Ok(()) = text.extend_from_slice(&summary) else {
        return Err(NoMemory);
    };
    Ok(Printed {
        text,
        next: Next::GoesOn,
    })
}

// What is printed for the rest of the last line, and the summary.
fn closing<M: Machine>(
    alloc: Global,
    place: &mut Place<M>,
    line: &[u8],
) -> Result<Printed, NoMemory>
    requires { place.old.lines < 2 ^ 33 }
    ensures begins { Sound (M.world place.old.machine) → IfOk result (λ p. Begins p.text.items p.next (M.world place.new.machine) (outcome (plain_place M.world place.old) (with_front line.now [])) (end_of_run (M.world place.new.machine) status.Done)) }
    ensures disks { OverSound (M.world place.old.machine) (M.disks place.old.machine) (PrintedDisks result (M.disks place.old.machine) (M.disks place.new.machine)) }
    ensures stop { OverSound (M.world place.old.machine) (M.disks place.old.machine) (KeepsUp (moments (plain_place M.world place.old) (with_front line.now [])) (text_of result) (M.tree_left place.new.machine) (M.log_left place.new.machine)) }
{
    let printed = last_line(alloc, place, line)?;
    with_summary(alloc, place, printed)
}

// The end of the input, in the middle of this line: writes what there is to write for it.
fn close<M: Machine, K: Sink>(
    alloc: Global,
    place: &mut Place<M>,
    line: &[u8],
    out: &mut K,
) -> Result<(), Stop>
    requires { place.old.lines < 2 ^ 33 }
    ensures ok { OnOk result ((sent : List ℕ) × Appends (K.taken out.old) (K.taken out.new) sent
        × (Sound (M.world place.old.machine) → outcome (plain_place M.world place.old) (with_front line.now []) ≡ record { text = sent; status = status.Done; world = M.world place.new.machine })
        × OverSound (M.world place.old.machine) (M.disks place.old.machine) (LeavesMoment (moments (plain_place M.world place.old) (with_front line.now [])) sent (M.tree_left place.new.machine) (M.log_left place.new.machine))) }
    ensures stop { IfErr result (λ stop. (sent : List ℕ) × Appends (K.taken out.old) (K.taken out.new) sent
        × (Sound (M.world place.old.machine) → Stops (outcome (plain_place M.world place.old) (with_front line.now [])) sent (M.world place.new.machine) stop)
        × OverSound (M.world place.old.machine) (M.disks place.old.machine) (LeavesMoment (moments (plain_place M.world place.old) (with_front line.now [])) sent (M.tree_left place.new.machine) (M.log_left place.new.machine))) }
    ensures disks { OverSound (M.world place.old.machine) (M.disks place.old.machine) (PartDisks result (M.disks place.old.machine) (M.disks place.new.machine)) }
    ensures sink { StopsAtSink result (K.faults out.old) (K.faults out.new) (K.last_failed out.old) (K.last_failed out.new) }
{
    let printed = match closing(alloc, place, line) {
        Ok(printed) => printed,
        Err(NoMemory) => return Err(Stop::Fails(Failure::NoMemory)),
    };
    print(&printed, out)
}

impl<M: Machine> Stream<M> {
    /// The stream before the first byte.
    pub fn new(alloc: Global, machine: M) -> Self
        ensures { result ≡ record { place = record { lines = 0; events = 0; steps = 0; machine = machine }; line = []; taken = 0 } }
    {
        Stream {
            alloc,
            place: Place::new(machine),
            line: Vec::new(alloc),
            taken: 0,
        }
    }

    // A byte of a line.
    fn push(&mut self, byte: u8) -> Result<Printed, NoMemory>
        requires { byte ≢ 10 }
        ensures count { IfOk result (λ p. p.next ≡ Next.GoesOn → self.new.taken ≡ self.old.taken + 1) }
        ensures takes { IfOk result (λ p. TakesSoundly (state_of M.world self.old) (state_of M.world self.new) (byte ∷ []) p.text.items p.next) }
        ensures disks { OverSound (M.world self.old.place.machine) (M.disks self.old.place.machine) (PrintedDisks result (M.disks self.old.place.machine) (M.disks self.new.place.machine)) }
        ensures stop { OverSound (M.world self.old.place.machine) (M.disks self.old.place.machine) (BytesKeepUp (state_of M.world self.old) (byte ∷ []) (text_of result) (M.tree_left self.new.place.machine) (M.log_left self.new.place.machine)) }
    {
        if self.line.len() >= MAX_LINE_BYTES {
            return Ok(Printed::nothing(self.alloc, Next::Ends(Ending::LongLine)));
        }
        if self.taken >= MAX_INPUT_BYTES {
            return Ok(Printed::nothing(self.alloc, Next::Ends(Ending::LongInput)));
        }
        let Ok(()) = self.line.push(byte) else {
            return Err(NoMemory);
        };
        self.taken += 1;
        Ok(Printed::nothing(self.alloc, Next::GoesOn))
    }

    // The end of a line.
    fn end_line(&mut self) -> Result<Printed, NoMemory>
        ensures count { IfOk result (λ p. p.next ≡ Next.GoesOn → self.new.taken ≡ self.old.taken + 1) }
        ensures takes { IfOk result (λ p. TakesSoundly (state_of M.world self.old) (state_of M.world self.new) (10 ∷ []) p.text.items p.next) }
        ensures disks { OverSound (M.world self.old.place.machine) (M.disks self.old.place.machine) (PrintedDisks result (M.disks self.old.place.machine) (M.disks self.new.place.machine)) }
        ensures stop { OverSound (M.world self.old.place.machine) (M.disks self.old.place.machine) (BytesKeepUp (state_of M.world self.old) (10 ∷ []) (text_of result) (M.tree_left self.new.place.machine) (M.log_left self.new.place.machine)) }
    {
        if self.taken >= MAX_INPUT_BYTES {
            return Ok(Printed::nothing(self.alloc, Next::Ends(Ending::LongInput)));
        }
        self.taken += 1;
        let printed = match self.place.advance(self.alloc, &self.line) {
            Ok(printed) => printed,
            Err(NoMemory) => return Err(NoMemory),
        };
        self.line.clear();
        Ok(printed)
    }

    // A byte of the input.
    fn step(&mut self, byte: u8) -> Result<Printed, NoMemory>
        ensures count { IfOk result (λ p. p.next ≡ Next.GoesOn → self.new.taken ≡ self.old.taken + 1) }
        ensures takes { IfOk result (λ p. TakesSoundly (state_of M.world self.old) (state_of M.world self.new) (byte ∷ []) p.text.items p.next) }
        ensures disks { OverSound (M.world self.old.place.machine) (M.disks self.old.place.machine) (PrintedDisks result (M.disks self.old.place.machine) (M.disks self.new.place.machine)) }
        ensures stop { OverSound (M.world self.old.place.machine) (M.disks self.old.place.machine) (BytesKeepUp (state_of M.world self.old) (byte ∷ []) (text_of result) (M.tree_left self.new.place.machine) (M.log_left self.new.place.machine)) }
    {
        if byte == b'\n' {
            self.end_line()
        } else {
            self.push(byte)
        }
    }

    // Takes a byte, and writes what there is to write.
    fn take<K: Sink>(&mut self, byte: u8, out: &mut K) -> Result<(), Stop>
        ensures count { OnOk result (self.new.taken ≡ self.old.taken + 1) }
        ensures ok { OnOk result ((sent : List ℕ) × Appends (K.taken out.old) (K.taken out.new) sent
            × GoesSoundly (state_of M.world self.old) (state_of M.world self.new) (byte ∷ []) sent) }
        ensures stop { IfErr result (λ stop. (sent : List ℕ) × Appends (K.taken out.old) (K.taken out.new) sent
            × StopsSoundly (state_of M.world self.old) (byte ∷ []) sent (M.world self.new.place.machine) stop
            × OverSound (M.world self.old.place.machine) (M.disks self.old.place.machine) (LeavesPart (state_of M.world self.old) (byte ∷ []) sent (M.tree_left self.new.place.machine) (M.log_left self.new.place.machine))) }
        ensures disks { OverSound (M.world self.old.place.machine) (M.disks self.old.place.machine) (PartDisks result (M.disks self.old.place.machine) (M.disks self.new.place.machine)) }
        ensures sink { StopsAtSink result (K.faults out.old) (K.faults out.new) (K.last_failed out.old) (K.last_failed out.new) }
    {
        let printed = match self.step(byte) {
            Ok(printed) => printed,
            Err(NoMemory) => return Err(Stop::Fails(Failure::NoMemory)),
        };
        print(&printed, out)
    }

    /// Takes a piece of the input, and writes what there is to write. Where it stops, what is written stands in front
    /// of what the run would write.
    pub fn feed<K: Sink>(&mut self, piece: &[u8], out: &mut K) -> Result<(), Stop>
        ensures ok { OnOk result ((sent : List ℕ) × Appends (K.taken out.old) (K.taken out.new) sent
            × GoesSoundly (state_of M.world self.old) (state_of M.world self.new) piece.now sent) }
        ensures count { OnOk result (self.new.taken ≡ self.old.taken + length piece.now) }
        ensures bound { OnOk result (self.new.taken ≤ MAX_INPUT_BYTES) }
        ensures stop { IfErr result (λ stop. (sent : List ℕ) × Appends (K.taken out.old) (K.taken out.new) sent
            × StopsSoundly (state_of M.world self.old) piece.now sent (M.world self.new.place.machine) stop
            × OverSound (M.world self.old.place.machine) (M.disks self.old.place.machine) (LeavesPart (state_of M.world self.old) piece.now sent (M.tree_left self.new.place.machine) (M.log_left self.new.place.machine))) }
        ensures disks { OverSound (M.world self.old.place.machine) (M.disks self.old.place.machine) (PartDisks result (M.disks self.old.place.machine) (M.disks self.new.place.machine)) }
        ensures sink { StopsAtSink result (K.faults out.old) (K.faults out.new) (K.last_failed out.old) (K.last_failed out.new) }
    {
        for byte in piece {
            match self.take(*byte, out) {
                Ok(()) => {}
                Err(stop) => return Err(stop),
            }
        }
        let _taken = self.taken;
        Ok(())
    }

    /// The end of the input: writes what there is to write for it, and gives the machine back.
    pub fn finish<K: Sink>(self, out: &mut K) -> (Result<(), Stop>, M)
        ensures ok { OnOk result.0 ((sent : List ℕ) × Appends (K.taken out.old) (K.taken out.new) sent
            × IsDone (state_of M.world self) sent (M.world result.1)
            × OverSound (M.world self.place.machine) (M.disks self.place.machine) (LeavesMoment (moments_to_come (state_of M.world self) []) sent (M.tree_left result.1) (M.log_left result.1))) }
        ensures stop { IfErr result.0 (λ stop. (sent : List ℕ) × Appends (K.taken out.old) (K.taken out.new) sent
            × StopsAtEnd (state_of M.world self) sent (M.world result.1) stop
            × OverSound (M.world self.place.machine) (M.disks self.place.machine) (LeavesMoment (moments_to_come (state_of M.world self) []) sent (M.tree_left result.1) (M.log_left result.1))) }
        ensures disks { OverSound (M.world self.place.machine) (M.disks self.place.machine) (PartDisks result.0 (M.disks self.place.machine) (M.disks result.1)) }
        ensures sink { StopsAtSink result.0 (K.faults out.old) (K.faults out.new) (K.last_failed out.old) (K.last_failed out.new) }
    {
        let Stream {
            alloc,
            mut place,
            line,
            taken: _,
        } = self;
        let ended = close(alloc, &mut place, &line, out);
        (ended, place.into_machine())
    }

    /// Gives the machine back.
    pub fn into_machine(self) -> M
        ensures { result ≡ self.place.machine }
    {
        let Stream { place, .. } = self;
        place.into_machine()
    }
}
