//! The next frame of a file.
ghost use Rattle.std.specs.Prelude.{◌≡◌, ◌+◌, ◌^◌, ◌<◌, ◌≤◌, ℕ, List, Some, true, false, length, IfOk};
ghost use Rattle.kz_disk.specs.Disks.{StaysTold, IsWithin, NothingPends, LeavesOnly};
ghost use Rattle.kz_spec_data.specs.Frames.{journal_of};
ghost use Rattle.kz_journal.specs.Reads.{OnlyReads, ReadCause};
ghost use Rattle.kz_journal.specs.Pieces.{StandsAt, IsSumAfter, IsMeasured, IsRoomFor, IsNoSeal};
ghost use Rattle.kz_journal.specs.Journals.{IsReadTo, journal_at};
ghost use Rattle.kz_journal.specs.declared.place.Place.{Place};
ghost use Rattle.kz_journal.specs.Nexts.{ComesNext, IsInRange, IsOnward, UnlessFailed, IfNoMemory};

use crate::close::close;
use crate::find::find;
use crate::place::{Place, past_frame, with_gate};
use crate::read::{Piece, ReadFault};
use bytes::Bytes;
use kz_disk::Disk;
use std::alloc::Global;

/// What comes next in a file.
#[derive(Drop)]
pub(crate) enum Next {
    /// A frame: the place of its gate, its payload, and the place after it.
    Frame {
        at: u64,
        payload: Bytes,
        further: Place,
    },
    /// The end of the frames. The gate there is closed.
    End {
        further: Place,
    },
    /// A frame or a seal with another sum, at this gate.
    Damaged {
        at: u64,
    },
}

// What stands at the gate after a seal.
fn find_after_seal<D: Disk>(
    alloc: Global,
    disk: &mut D,
    place: Place,
) -> Result<(Place, Piece), ReadFault>
    requires summed { place.summed ≡ true }
    requires room { place.gate ≤ place.length }
    requires within { IsWithin (D.told disk.old) place.length }
    ensures place { IfOk result (λ found. found.0 ≡ place) }
    ensures piece { IfOk result (λ found. (file : List ℕ) → D.told disk.old ≡ Some file → IsMeasured place file → StandsAt place.summed place.gate file found.1) }
    ensures fits { IfOk result (λ found. IsRoomFor place found.1 × IsNoSeal found.1) }
    ensures reads { OnlyReads D.told D.may_leave D.moment D.left_since disk.old disk.new }
    ensures cause { ReadCause (D.faults disk.old) (D.faults disk.new) (D.last_failed disk.new) result }
{
    match find(alloc, disk, place) {
        Ok(Piece::Frame { payload, sum }) => Ok((place, Piece::Frame { payload, sum })),
        Ok(Piece::Seal) => unreachable!(),
        Ok(Piece::Damaged) => Ok((place, Piece::Damaged)),
        Ok(Piece::End) => Ok((place, Piece::End)),
        Err(fault) => Err(fault),
    }
}

// What stands at a gate, or at the next one where a seal stands there, and that gate.
fn find_past_seal<D: Disk>(
    alloc: Global,
    disk: &mut D,
    place: Place,
) -> Result<(Place, Piece), ReadFault>
    requires room { place.gate ≤ place.length }
    requires within { IsWithin (D.told disk.old) place.length }
    ensures read { IfOk result (λ found. (letter : ℕ) (file : List ℕ) → D.told disk.old ≡ Some file → IsReadTo letter place file
        → IsReadTo letter found.0 file × (journal_at place file ≡ journal_at found.0 file)) }
    ensures piece { IfOk result (λ found. (letter : ℕ) (file : List ℕ) → D.told disk.old ≡ Some file → IsReadTo letter place file
        → StandsAt found.0.summed found.0.gate file found.1) }
    ensures sum { IfOk result (λ found. (letter : ℕ) (file : List ℕ) → D.told disk.old ≡ Some file → IsReadTo letter place file → found.0.summed ≡ false
        → IsSumAfter found.0.gate file found.1) }
    ensures onward { IfOk result (λ found. place.gate ≤ found.0.gate) }
    ensures fits { IfOk result (λ found. (found.0.length ≡ place.length) × (found.0.gate ≤ place.length) × IsRoomFor found.0 found.1 × IsNoSeal found.1) }
    ensures reads { OnlyReads D.told D.may_leave D.moment D.left_since disk.old disk.new }
    ensures cause { ReadCause (D.faults disk.old) (D.faults disk.new) (D.last_failed disk.new) result }
{
    match find(alloc, disk, place) {
        Ok(Piece::Frame { payload, sum }) => Ok((place, Piece::Frame { payload, sum })),
        Ok(Piece::Seal) => {
            let after = Place {
                gate: place.gate + 9,
                summed: true,
                ..place
            };
            find_after_seal(alloc, disk, after)
        }
        Ok(Piece::Damaged) => Ok((place, Piece::Damaged)),
        Ok(Piece::End) => Ok((place, Piece::End)),
        Err(fault) => Err(fault),
    }
}

// The end of a file's frames, at this gate.
fn end_at<D: Disk>(disk: &mut D, place: Place) -> Result<Next, ReadFault>
    requires room { place.gate ≤ place.length }
    requires small { place.length < 2 ^ 63 }
    requires within { IsWithin (D.told disk.old) place.length }
    requires settled { NothingPends (D.told disk.old) (D.may_leave disk.old) }
    ensures found { IfOk result (λ next. (letter : ℕ) (file : List ℕ) → D.told disk.old ≡ Some file → IsReadTo letter place file
        → StandsAt place.summed place.gate file Piece.End → ComesNext letter file place next (D.told disk.new)) }
    ensures range { IfOk result IsInRange }
    ensures onward { IfOk result (λ next. (before : Place) → IsOnward before next) }
    ensures told { StaysTold (D.told disk.old) (D.told disk.new) }
    ensures settled { UnlessFailed result (NothingPends (D.told disk.new) (D.may_leave disk.new)) }
    ensures memory { IfNoMemory result ⊥ }
    ensures any_moment { (letter : ℕ) (file : List ℕ) → D.told disk.old ≡ Some file → IsReadTo letter place file
        → StandsAt place.summed place.gate file Piece.End → length file < 2 ^ 32
        → LeavesOnly D.moment D.left_since disk.old disk.new (λ left. journal_of letter left ≡ journal_of letter file) }
    ensures cause { ReadCause (D.faults disk.old) (D.faults disk.new) (D.last_failed disk.new) result }
{
    match close(disk, place) {
        Ok(()) => Ok(Next::End {
            further: with_gate(place),
        }),
        Err(_) => Err(ReadFault::Failed),
    }
}

/// What comes next in a file that has been read up to a gate: seals are passed over, and at the end of the frames the gate is
/// closed.
pub(crate) fn next_at<D: Disk>(alloc: Global, disk: &mut D, place: Place) -> Result<Next, ReadFault>
    requires room { place.gate ≤ place.length }
    requires small { place.length < 2 ^ 63 }
    requires within { IsWithin (D.told disk.old) place.length }
    requires settled { NothingPends (D.told disk.old) (D.may_leave disk.old) }
    ensures found { IfOk result (λ next. (letter : ℕ) (file : List ℕ) → D.told disk.old ≡ Some file → IsReadTo letter place file
        → ComesNext letter file place next (D.told disk.new)) }
    ensures range { IfOk result IsInRange }
    ensures onward { IfOk result (IsOnward place) }
    ensures told { StaysTold (D.told disk.old) (D.told disk.new) }
    ensures settled { UnlessFailed result (NothingPends (D.told disk.new) (D.may_leave disk.new)) }
    ensures same { IfNoMemory result (D.told disk.new ≡ D.told disk.old) }
    ensures any_moment { (letter : ℕ) (file : List ℕ) → D.told disk.old ≡ Some file → IsReadTo letter place file → length file < 2 ^ 32
        → LeavesOnly D.moment D.left_since disk.old disk.new (λ left. journal_of letter left ≡ journal_of letter file) }
    ensures cause { ReadCause (D.faults disk.old) (D.faults disk.new) (D.last_failed disk.new) result }
{
    let (here, piece) = match find_past_seal(alloc, disk, place) {
        Ok(found) => found,
        Err(fault) => return Err(fault),
    };
    match piece {
        Piece::Frame { payload, sum } => {
            let further = past_frame(here, &payload, sum);
            match Bytes::from_vec(payload) {
                Ok(payload) => Ok(Next::Frame {
                    at: here.gate,
                    payload,
                    further,
                }),
                Err(_) => Err(ReadFault::NoMemory),
            }
        }
        Piece::Seal => unreachable!(),
        Piece::Damaged => Ok(Next::Damaged { at: here.gate }),
        Piece::End => end_at(disk, here),
    }
}
