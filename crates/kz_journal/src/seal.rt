//! A seal at a place of a file of format 01.
ghost use Rattle.std.specs.Prelude.{◌≡◌, ◌+◌, ◌-◌, ◌^◌, ◌<◌, ◌≤◌, ◌++◌, ◌∷◌, [], ℕ, List, Some, true, false, max, length, take, IfOk, OnOk};
ghost use Rattle.kz_disk.specs.Disks.{StaysTold, IsWithin, NothingPends, LeavesOnly};
ghost use Rattle.kz_spec_data.specs.Checksum.{crc32c};
ghost use Rattle.kz_spec_data.specs.Frames.{journal_of, seal_written, closed_gate, LeftBySeal};
ghost use Rattle.kz_journal.specs.Journals.{IsReadTo, HasClosedGate, HasNewSeal, EndsSeal, IfNotSealed, file_at, with_seal};

use crate::device::{CLOSED_GATE, write_after};
use crate::place::Place;
use kz_disk::Disk;
use kz_types::MAX_FILE_BYTES;

/// Why a seal isn't appended.
#[derive(Clone, Copy, Debug, PartialEq, Eq)]
pub(crate) enum SealFault {
    /// A call of the disk failed.
    Failed,
    /// The file would have this length.
    Full { length: u64 },
}

// What is written after the gate of a seal: the seal, and a closed gate.
fn seal_bytes(sum: u32) -> [u8; 9]
    ensures bytes { (front : List ℕ) → sum ≡ crc32c front → result ≡ seal_written front ++ closed_gate ∷ [] }
    ensures fits { sum < 2 ^ 32 }
{
    let sum = sum.to_be_bytes();
    [
        0xFF,
        0xFF,
        0xFF,
        0xFF,
        sum[0],
        sum[1],
        sum[2],
        sum[3],
        CLOSED_GATE,
    ]
}

/// Appends a seal after the closed gate at a place, and answers the next place.
pub(crate) fn seal_at<D: Disk>(disk: &mut D, place: Place) -> Result<Place, SealFault>
    requires plain { place.summed ≡ false }
    requires stands { place.gate < place.length }
    requires small { place.length ≤ 2 ^ 63 }
    requires within { IsWithin (D.told disk.old) place.length }
    requires settled { NothingPends (D.told disk.old) (D.may_leave disk.old) }
    ensures sealed { IfOk result (λ next. (letter : ℕ) (file : List ℕ) → D.told disk.old ≡ Some file → IsReadTo letter place file → HasClosedGate place file
        → HasNewSeal letter next file (D.told disk.new)) }
    ensures next { IfOk result (λ next. file_at next ≡ with_seal (file_at place)) }
    ensures place { IfOk result (λ next. (next.gate ≡ place.gate + 9) × (next.length ≡ max place.length (place.gate + 10))) }
    ensures told { StaysTold (D.told disk.old) (D.told disk.new) }
    ensures durable { OnOk result (NothingPends (D.told disk.new) (D.may_leave disk.new)) }
    ensures any_moment { (letter : ℕ) (file : List ℕ) → D.told disk.old ≡ Some file → IsReadTo letter place file → HasClosedGate place file
        → LeavesOnly D.moment D.left_since disk.old disk.new (LeftBySeal letter (journal_of letter file)) }
    ensures answer { EndsSeal (Some (with_seal (file_at place))) result (D.faults disk.old) (D.faults disk.new) (D.last_failed disk.new) }
    ensures untouched { IfNotSealed result (disk.new ≡ disk.old) }
{
    let new_length = place.length.max(place.gate + 10);
    if new_length > MAX_FILE_BYTES {
        return Err(SealFault::Full { length: new_length });
    }
    let bytes = seal_bytes(place.sum);
    match write_after(disk, place.gate, &bytes) {
        Ok(()) => Ok(Place {
            gate: place.gate + 9,
            summed: true,
            length: new_length,
            ..place
        }),
        Err(_) => Err(SealFault::Failed),
    }
}
