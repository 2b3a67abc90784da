//! An append at a place of a file.
ghost use Rattle.std.specs.Prelude.{◌≡◌, ◌+◌, ◌-◌, ◌^◌, ◌<◌, ◌≤◌, ◌++◌, ◌∷◌, ℕ, List, Some, true, false, min, max, length, IfOk, OnOk};
ghost use Rattle.kz_disk.specs.Disks.{StaysTold, IsWithin, NothingPends, LeavesOnly};
ghost use Rattle.kz_spec_data.specs.Checksum.{crc32c};
ghost use Rattle.kz_spec_data.specs.Requests.{file_with};
ghost use Rattle.kz_spec_data.specs.Frames.{journal_of, frame_written, open_gate, size_before, LeftByAppend};
ghost use Rattle.kz_journal.specs.Journals.{IsReadTo, HasClosedGate, HasNewFrame, IsNext, EndsAppend, IfNotCalled, disk_at};

use crate::find::sum_after;
use crate::frame::{FrameFault, append_frame};
use crate::place::Place;
use kz_disk::Disk;
use kz_types::MAX_FILE_BYTES;
use std::alloc::Global;

/// Why a frame isn't appended.
#[derive(Clone, Copy, Debug, PartialEq, Eq)]
pub(crate) enum AppendFault {
    /// A call of the disk failed.
    Failed,
    /// The file would have this length, or the greatest number of 64 bits where that is less.
    Full { length: u64 },
    /// Memory ran out.
    NoMemory,
}

// Where the next gate would end after a frame of so many bytes of payload, or the greatest number of 64 bits.
fn next_end(place: Place, len: usize) -> u64
    ensures { result ≡ min (place.gate + 1 + (len + size_before place.summed)) (2 ^ 64 - 1) }
{
    let end = place.gate.saturating_add(len as u64);
    if place.summed {
        end.saturating_add(10)
    } else {
        end.saturating_add(6)
    }
}

// The place after a frame, in a file that is so long then.
fn place_after(place: Place, payload: &[u8], new_length: u64) -> Place
    requires fits { place.gate + length payload.now < 2 ^ 32 }
    requires long { new_length ≡ max place.length (place.gate + 1 + (length payload.now + size_before place.summed)) }
    ensures next { IsNext place payload.now result }
    ensures sum { (front : List ℕ) → place.summed ≡ false → place.sum ≡ crc32c front → result.sum ≡ crc32c (front ++ open_gate ∷ frame_written false payload.now) }
{
    let len = payload.len() as u64;
    if place.summed {
        return Place {
            gate: place.gate + 9 + len,
            length: new_length,
            ..place
        };
    }
    let size = (payload.len() as u32).to_be_bytes();
    Place {
        gate: place.gate + 5 + len,
        length: new_length,
        sum: sum_after(place.sum, size, payload),
        ..place
    }
}

/// Appends a frame after the closed gate at a place, and answers the next place.
pub(crate) fn append_at<D: Disk>(
    alloc: Global,
    disk: &mut D,
    place: Place,
    payload: &[u8],
) -> Result<Place, AppendFault>
    requires stands { place.gate < place.length }
    requires within { IsWithin (D.told disk.old) place.length }
    requires settled { NothingPends (D.told disk.old) (D.may_leave disk.old) }
    ensures appended { IfOk result (λ next. (letter : ℕ) (file : List ℕ) → D.told disk.old ≡ Some file → IsReadTo letter place file → HasClosedGate place file
        → HasNewFrame letter next payload.now file (D.told disk.new)) }
    ensures next { IfOk result (λ next. IsNext place payload.now next) }
    ensures told { StaysTold (D.told disk.old) (D.told disk.new) }
    ensures durable { OnOk result (NothingPends (D.told disk.new) (D.may_leave disk.new)) }
    ensures any_moment { (letter : ℕ) (file : List ℕ) → D.told disk.old ≡ Some file → IsReadTo letter place file → HasClosedGate place file
        → LeavesOnly D.moment D.left_since disk.old disk.new (LeftByAppend letter payload.now (journal_of letter file)) }
    ensures answer { EndsAppend (file_with (length payload.now) (disk_at 0 false place)) result (D.faults disk.old) (D.faults disk.new) (D.last_failed disk.new) }
    ensures untouched { IfNotCalled result (disk.new ≡ disk.old) }
{
    let new_length = place.length.max(next_end(place, payload.len()));
    if new_length > MAX_FILE_BYTES {
        return Err(AppendFault::Full { length: new_length });
    }
    match append_frame(alloc, disk, place.gate, place.summed, payload) {
        Ok(()) => Ok(place_after(place, payload, new_length)),
        Err(FrameFault::NoMemory) => Err(AppendFault::NoMemory),
        Err(FrameFault::Failed) => Err(AppendFault::Failed),
    }
}
