//! What stands at a gate, found by its bytes.
ghost use Rattle.std.specs.Prelude.{◌≡◌, ◌+◌, ◌^◌, ◌<◌, ◌≤◌, ◌++◌, ◌∷◌, ℕ, List, Some, true, false, length, take, drop, IfOk, OnErr};
ghost use Rattle.std.specs.Int.{w32, from_be_bytes};
ghost use Rattle.kz_types.specs.Causes.{HasCause};
ghost use Rattle.kz_disk.specs.Disks.{IsWithin};
ghost use Rattle.kz_spec_data.specs.Checksum.{crc32c};
ghost use Rattle.kz_spec_data.specs.Frames.{open_gate, seal_mark};
ghost use Rattle.kz_journal.specs.Reads.{OnlyReads, ReadCause};
ghost use Rattle.kz_journal.specs.Pieces.{StandsAt, IsOpenHead, IsSumAfter, IsMeasured, IsRoomFor};

use crate::device::OPEN_GATE;
use crate::place::Place;
use crate::read::{Piece, ReadFault, read_head, read_payload, read_sum};
use kz_crc::{crc32c, crc32c_add};
use kz_disk::Disk;
use kz_types::Failed;
use std::alloc::Global;

// In place of a length, it stands for a seal.
const SEAL_MARK: u32 = 0xFFFFFFFF;

// The sum of some bytes followed by a frame that has no sum of its own.
pub(crate) fn sum_after(sum: u32, size: [u8; 4], payload: &[u8]) -> u32
    ensures { (front : List ℕ) → sum ≡ crc32c front → result ≡ crc32c (front ++ open_gate ∷ (size ++ payload.now)) }
{
    crc32c_add(crc32c_add(crc32c_add(sum, &[OPEN_GATE]), &size), payload)
}

// A seal, where a frame would have no sum.
fn find_seal<D: Disk>(disk: &mut D, place: Place, size: [u8; 4]) -> Result<Piece, Failed>
    requires plain { place.summed ≡ false }
    requires room { place.gate ≤ place.length }
    requires within { IsWithin (D.told disk.old) place.length }
    ensures found { IfOk result (λ piece. (file : List ℕ) → D.told disk.old ≡ Some file → IsMeasured place file → IsOpenHead size (drop place.gate file)
        → from_be_bytes w32 size ≡ seal_mark → StandsAt false place.gate file piece) }
    ensures no_frame { IfOk result (λ piece. (file : List ℕ) → IsSumAfter place.gate file piece) }
    ensures fits { IfOk result (IsRoomFor place) }
    ensures reads { OnlyReads D.told D.may_leave D.moment D.left_since disk.old disk.new }
    ensures cause { HasCause (D.faults disk.old) (D.faults disk.new) result }
    ensures failed { OnErr result (D.last_failed disk.new ≡ true) }
{
    if place.length - place.gate < 9 {
        return Ok(Piece::End);
    }
    match read_sum(disk, place.gate) {
        Ok(sum) => {
            if sum == place.sum {
                Ok(Piece::Seal)
            } else {
                Ok(Piece::Damaged)
            }
        }
        Err(_) => Err(Failed),
    }
}

// The rest of an open frame without a sum, or a seal.
fn find_plain<D: Disk>(
    alloc: Global,
    disk: &mut D,
    place: Place,
    size: [u8; 4],
) -> Result<Piece, ReadFault>
    requires plain { place.summed ≡ false }
    requires room { place.gate + 5 ≤ place.length }
    requires within { IsWithin (D.told disk.old) place.length }
    ensures found { IfOk result (λ piece. (file : List ℕ) → D.told disk.old ≡ Some file → IsMeasured place file → IsOpenHead size (drop place.gate file)
        → StandsAt false place.gate file piece) }
    ensures sum { IfOk result (λ piece. (file : List ℕ) → D.told disk.old ≡ Some file → IsMeasured place file → IsOpenHead size (drop place.gate file)
        → IsSumAfter place.gate file piece) }
    ensures fits { IfOk result (IsRoomFor place) }
    ensures reads { OnlyReads D.told D.may_leave D.moment D.left_since disk.old disk.new }
    ensures cause { ReadCause (D.faults disk.old) (D.faults disk.new) (D.last_failed disk.new) result }
{
    let len = u32::from_be_bytes(size);
    if len == SEAL_MARK {
        return match find_seal(disk, place, size) {
            Ok(piece) => Ok(piece),
            Err(_) => Err(ReadFault::Failed),
        };
    }
    if place.length - place.gate < 5 + u64::from(len) {
        return Ok(Piece::End);
    }
    match read_payload(alloc, disk, place.gate, 5, len) {
        Ok(payload) => {
            let sum = sum_after(place.sum, size, &payload);
            Ok(Piece::Frame { payload, sum })
        }
        Err(fault) => Err(fault),
    }
}

// The rest of an open frame with a sum.
fn find_summed<D: Disk>(
    alloc: Global,
    disk: &mut D,
    place: Place,
    size: [u8; 4],
) -> Result<Piece, ReadFault>
    requires summed { place.summed ≡ true }
    requires room { place.gate + 5 ≤ place.length }
    requires within { IsWithin (D.told disk.old) place.length }
    ensures found { IfOk result (λ piece. (file : List ℕ) → D.told disk.old ≡ Some file → IsMeasured place file → IsOpenHead size (drop place.gate file)
        → StandsAt true place.gate file piece) }
    ensures fits { IfOk result (IsRoomFor place) }
    ensures reads { OnlyReads D.told D.may_leave D.moment D.left_since disk.old disk.new }
    ensures cause { ReadCause (D.faults disk.old) (D.faults disk.new) (D.last_failed disk.new) result }
{
    let len = u32::from_be_bytes(size);
    if place.length - place.gate < 9 + u64::from(len) {
        return Ok(Piece::End);
    }
    let Ok(sum) = read_sum(disk, place.gate) else {
        return Err(ReadFault::Failed);
    };
    match read_payload(alloc, disk, place.gate, 9, len) {
        Ok(payload) => {
            if crc32c_add(crc32c(&size), &payload) == sum {
                Ok(Piece::Frame { payload, sum: 0 })
            } else {
                Ok(Piece::Damaged)
            }
        }
        Err(fault) => Err(fault),
    }
}

/// What stands at the gate at which a file was read so far.
pub(crate) fn find<D: Disk>(alloc: Global, disk: &mut D, place: Place) -> Result<Piece, ReadFault>
    requires room { place.gate ≤ place.length }
    requires within { IsWithin (D.told disk.old) place.length }
    ensures found { IfOk result (λ piece. (file : List ℕ) → D.told disk.old ≡ Some file → IsMeasured place file → StandsAt place.summed place.gate file piece) }
    ensures sum { IfOk result (λ piece. (file : List ℕ) → D.told disk.old ≡ Some file → IsMeasured place file → place.summed ≡ false
        → IsSumAfter place.gate file piece) }
    ensures fits { IfOk result (IsRoomFor place) }
    ensures reads { OnlyReads D.told D.may_leave D.moment D.left_since disk.old disk.new }
    ensures cause { ReadCause (D.faults disk.old) (D.faults disk.new) (D.last_failed disk.new) result }
{
    if place.length - place.gate < 5 {
        return Ok(Piece::End);
    }
    let Ok(head) = read_head(disk, place.gate) else {
        return Err(ReadFault::Failed);
    };
    if head[0] != OPEN_GATE {
        return Ok(Piece::End);
    }
    let size = [head[1], head[2], head[3], head[4]];
    if place.summed {
        find_summed(alloc, disk, place, size)
    } else {
        find_plain(alloc, disk, place, size)
    }
}
