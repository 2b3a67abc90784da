//! The end of the frames is closed, so that a frame can be appended there.
ghost use Rattle.std.specs.Prelude.{◌≡◌, ◌+◌, ◌^◌, ◌<◌, ◌≤◌, ◌==◌, ◌∷◌, [], ℕ, Bool, List, Some, true, false, length, take, drop, option_map, IfOk, OnOk, OnErr};
ghost use Rattle.kz_types.specs.Causes.{HasCause};
ghost use Rattle.kz_disk.specs.Disks.{StaysTold, IsWithin, with_piece, NothingPends, LeavesOnly};
ghost use Rattle.kz_spec_data.specs.Frames.{End, found_at, is_open, closed_gate};
ghost use Rattle.kz_journal.specs.Pieces.{IsMeasured};
ghost use Rattle.kz_journal.specs.Reads.{OnlyReads};
ghost use Rattle.kz_journal.specs.Closings.{StillEnds, IsIdle, IsClosed, unending};

use crate::device::{CLOSED_GATE, OPEN_GATE, read_piece, write_durably};
use crate::place::Place;
use kz_disk::Disk;
use kz_types::Failed;

// The byte at a gate.
fn read_gate<D: Disk>(disk: &mut D, gate: u64) -> Result<u8, Failed>
    requires within { IsWithin (D.told disk.old) (gate + 1) }
    requires fits { gate + 1 < 2 ^ 64 }
    ensures byte { IfOk result (λ byte. (file : List ℕ) → D.told disk.old ≡ Some file → take 1 (drop gate file) ≡ byte ∷ []) }
    ensures reads { OnlyReads D.told D.may_leave D.moment D.left_since disk.old disk.new }
    ensures cause { HasCause (D.faults disk.old) (D.faults disk.new) result }
    ensures failed { OnErr result (D.last_failed disk.new ≡ true) }
{
    let mut byte = [0u8; 1];
    match read_piece(disk, gate, &mut byte) {
        Ok(()) => Ok(byte[0]),
        Err(_) => Err(Failed),
    }
}

// Writes a closed gate where no frame is found, whatever the gate is.
fn shut<D: Disk>(disk: &mut D, gate: u64) -> Result<(), Failed>
    requires within { IsWithin (D.told disk.old) gate }
    requires fits { gate + 1 < 2 ^ 64 }
    requires settled { NothingPends (D.told disk.old) (D.may_leave disk.old) }
    ensures written { OnOk result (D.told disk.new ≡ option_map (with_piece gate (closed_gate ∷ [])) (D.told disk.old)) }
    ensures told { StaysTold (D.told disk.old) (D.told disk.new) }
    ensures durable { OnOk result (NothingPends (D.told disk.new) (D.may_leave disk.new)) }
    ensures any_moment { (summed : Bool) (file : List ℕ) → D.told disk.old ≡ Some file → IsIdle summed gate file
        → LeavesOnly D.moment D.left_since disk.old disk.new (StillEnds summed gate file) }
    ensures cause { HasCause (D.faults disk.old) (D.faults disk.new) result }
    ensures failed { OnErr result (D.last_failed disk.new ≡ true) }
{
    write_durably(disk, gate, &[CLOSED_GATE])
}

// Writes a length that no frame has after a gate that isn't open.
fn spoil<D: Disk>(disk: &mut D, gate: u64) -> Result<(), Failed>
    requires within { IsWithin (D.told disk.old) (gate + 5) }
    requires fits { gate + 5 < 2 ^ 64 }
    requires settled { NothingPends (D.told disk.old) (D.may_leave disk.old) }
    ensures written { OnOk result (D.told disk.new ≡ option_map (with_piece (gate + 1) unending) (D.told disk.old)) }
    ensures told { StaysTold (D.told disk.old) (D.told disk.new) }
    ensures durable { OnOk result (NothingPends (D.told disk.new) (D.may_leave disk.new)) }
    ensures any_moment { (summed : Bool) (file : List ℕ) → D.told disk.old ≡ Some file → is_open (drop gate file) ≡ false
        → LeavesOnly D.moment D.left_since disk.old disk.new (StillEnds summed gate file) }
    ensures cause { HasCause (D.faults disk.old) (D.faults disk.new) result }
    ensures failed { OnErr result (D.last_failed disk.new ≡ true) }
{
    write_durably(disk, gate + 1, &[0xFF, 0xFF, 0xFF, 0xFE])
}

// The same for a gate that isn't open and after which a frame could stand.
fn spoil_and_shut<D: Disk>(disk: &mut D, gate: u64) -> Result<(), Failed>
    requires within { IsWithin (D.told disk.old) (gate + 5) }
    requires fits { gate + 5 < 2 ^ 64 }
    requires settled { NothingPends (D.told disk.old) (D.may_leave disk.old) }
    ensures closed { OnOk result ((file : List ℕ) → D.told disk.old ≡ Some file → IsClosed gate file (D.told disk.new)) }
    ensures told { StaysTold (D.told disk.old) (D.told disk.new) }
    ensures durable { OnOk result (NothingPends (D.told disk.new) (D.may_leave disk.new)) }
    ensures any_moment { (summed : Bool) (file : List ℕ) → D.told disk.old ≡ Some file → is_open (drop gate file) ≡ false → length file < 2 ^ 32
        → LeavesOnly D.moment D.left_since disk.old disk.new (StillEnds summed gate file) }
    ensures cause { HasCause (D.faults disk.old) (D.faults disk.new) result }
    ensures failed { OnErr result (D.last_failed disk.new ≡ true) }
{
    let Ok(()) = spoil(disk, gate) else {
        return Err(Failed);
    };
    shut(disk, gate)
}

/// Closes the gate at which the frames end.
///
/// `Failed`: the disk's count of failures rose in this call.
pub(crate) fn close<D: Disk>(disk: &mut D, place: Place) -> Result<(), Failed>
    requires room { place.gate ≤ place.length }
    requires within { IsWithin (D.told disk.old) place.length }
    requires fits { place.gate + 1 < 2 ^ 64 }
    requires settled { NothingPends (D.told disk.old) (D.may_leave disk.old) }
    ensures closed { OnOk result ((file : List ℕ) → D.told disk.old ≡ Some file → IsMeasured place file → IsClosed place.gate file (D.told disk.new)) }
    ensures told { StaysTold (D.told disk.old) (D.told disk.new) }
    ensures durable { OnOk result (NothingPends (D.told disk.new) (D.may_leave disk.new)) }
    ensures any_moment { (file : List ℕ) → D.told disk.old ≡ Some file → IsMeasured place file
        → found_at place.summed (take place.gate file) (drop place.gate file) ≡ End → length file < 2 ^ 32
        → LeavesOnly D.moment D.left_since disk.old disk.new (StillEnds place.summed place.gate file) }
    ensures cause { HasCause (D.faults disk.old) (D.faults disk.new) result }
    ensures failed { OnErr result (D.last_failed disk.new ≡ true) }
{
    if place.gate == place.length {
        return shut(disk, place.gate);
    }
    let Ok(gate) = read_gate(disk, place.gate) else {
        return Err(Failed);
    };
    if gate == CLOSED_GATE {
        return Ok(());
    }
    if gate == OPEN_GATE {
        return shut(disk, place.gate);
    }
    if place.length - place.gate < 5 {
        return shut(disk, place.gate);
    }
    spoil_and_shut(disk, place.gate)
}
