//! An input of a load that comes in pieces.
ghost use Rattle.std.specs.Prelude.{◌≡◌, ◌≢◌, ◌+◌, ◌<◌, ◌≤◌, [], ◌∷◌, ◌++◌, true, List, IfOk, IfErr, OnOk, Ok, ℕ, length};
ghost use Rattle.kz_types.specs.declared.limits.TheConstants.{MAX_INPUT_BYTES};
ghost use Rattle.kz_spec_data.specs.Forms.{AllFit};
ghost use Rattle.kz_spec_data.specs.Lines.{with_front};
ghost use Rattle.kz_spec_data.specs.Loads.{is_load};
ghost use Rattle.kz_spec_machine.specs.Loading.{loaded};
ghost use Rattle.kz_load.specs.Kept.{IsKept, number_of};
ghost use Rattle.kz_load.specs.Stops.{IsLineStop};
ghost use Rattle.kz_load.specs.Pending.{load_of_lines, load_to_come, GoesOn, Stops};

use crate::place::Place;
use crate::stop::LoadStop;
use kz_tree::LoadCheck;
use kz_types::{MAX_INPUT_BYTES, MAX_LINE_BYTES};
use std::alloc::Global;

/// A load in the middle of its input: its place, the bytes of the line so far, and how many bytes it has taken. One that has
/// stopped takes no more.
#[derive(Drop)]
pub struct Reader {
    pub alloc: Global,
    pub place: Place,
    pub line: Vec<u8>,
    pub taken: u64,
}

impl Reader {
    /// The load before the first byte.
    pub fn new(alloc: Global) -> Reader
        ensures coming { (input : List ℕ) → load_to_come result input ≡ loaded input }
        ensures taken { result.taken ≡ 0 }
        ensures kept { IsKept result }
    {
        Reader {
            alloc,
            place: Place::Start,
            line: Vec::new(alloc),
            taken: 0,
        }
    }

    // Takes bytes of a line.
    fn push(&mut self, bytes: &[u8]) -> Result<(), LoadStop>
        requires no_ends { AllFit (λ b. b ≢ 10) bytes.now }
        requires kept { IsKept self.old }
        ensures ok { OnOk result (GoesOn self.old self.new bytes.now) }
        ensures count { OnOk result (self.new.taken ≡ self.old.taken + length bytes.now) }
        ensures kept { OnOk result (IsKept self.new) }
        ensures stop { IfErr result (Stops self.old bytes.now) }
    {
        let room = MAX_LINE_BYTES.saturating_sub(self.line.len());
        let more = MAX_INPUT_BYTES - self.taken;
        if bytes.len() > room && room as u64 <= more {
            return Err(LoadStop::LongLine);
        }
        if bytes.len() as u64 > more {
            return Err(LoadStop::LongInput);
        }
        let Ok(()) = self.line.extend_from_slice(bytes) else {
            return Err(LoadStop::NoMemory);
        };
        self.taken += bytes.len() as u64;
        Ok(())
    }

    // The end of a line.
    fn end_line(&mut self) -> Result<(), LoadStop>
        requires kept { IsKept self.old }
        ensures ok { OnOk result (GoesOn self.old self.new (10 ∷ [])) }
        ensures count { OnOk result (self.new.taken ≡ self.old.taken + 1) }
        ensures kept { OnOk result (IsKept self.new) }
        ensures stop { IfErr result (Stops self.old (10 ∷ [])) }
    {
        if self.taken >= MAX_INPUT_BYTES {
            return Err(LoadStop::LongInput);
        }
        self.taken += 1;
        match self.place.advance(self.alloc, &self.line) {
            Ok(()) => {}
            Err(stop) => return Err(stop),
        }
        self.line.clear();
        Ok(())
    }

    // Takes the rest of a line, and its end.
    fn take_line(&mut self, rest: &[u8]) -> Result<(), LoadStop>
        requires no_ends { AllFit (λ b. b ≢ 10) rest.now }
        requires kept { IsKept self.old }
        ensures ok { OnOk result (GoesOn self.old self.new (rest.now ++ 10 ∷ [])) }
        ensures count { OnOk result (self.new.taken ≡ self.old.taken + length rest.now + 1) }
        ensures kept { OnOk result (IsKept self.new) }
        ensures stop { IfErr result (Stops self.old (rest.now ++ 10 ∷ [])) }
    {
        match self.push(rest) {
            Ok(()) => self.end_line(),
            Err(stop) => Err(stop),
        }
    }

    /// Takes a piece of the input.
    pub fn feed(&mut self, piece: &[u8]) -> Result<(), LoadStop>
        requires kept { IsKept self.old }
        ensures ok { OnOk result (GoesOn self.old self.new piece.now) }
        ensures count { OnOk result (self.new.taken ≡ self.old.taken + length piece.now) }
        ensures kept { OnOk result (IsKept self.new) }
        ensures stop { IfErr result (Stops self.old piece.now) }
    {
        let mut from = 0;
        for at in 0..piece.len() {
            if piece[at] == b'\n' {
                match self.take_line(&piece[from..at]) {
                    Ok(()) => {}
                    Err(stop) => return Err(stop),
                }
                from = at + 1;
            }
        }
        self.push(&piece[from..])
    }

    /// The end of the input.
    pub fn finish(self) -> Result<LoadCheck, LoadStop>
        requires kept { IsKept self }
        ensures ok { IfOk result (λ check. load_to_come self [] ≡ Ok check) }
        ensures load { IfOk result (λ t. is_load t.zxid t.sessions t.rows ≡ true) }
        ensures stop { IfErr result (IsLineStop (load_to_come self [])) }
    {
        let Reader {
            alloc,
            mut place,
            line,
            taken: _,
        } = self;
        match last_line(alloc, &mut place, &line) {
            Ok(()) => place.finish(),
            Err(stop) => Err(stop),
        }
    }
}

// Goes over a last line without an end, if there is one.
fn last_line(alloc: Global, place: &mut Place, line: &[u8]) -> Result<(), LoadStop>
    requires room { number_of place.old ≤ MAX_INPUT_BYTES + 1 }
    ensures ok { OnOk result (load_of_lines place.old (with_front line.now []) ≡ load_of_lines place.new []) }
    ensures stop { IfErr result (IsLineStop (load_of_lines place.old (with_front line.now []))) }
{
    if line.is_empty() {
        Ok(())
    } else {
        place.advance(alloc, line)
    }
}
