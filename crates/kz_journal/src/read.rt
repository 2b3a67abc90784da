//! What stands at a gate of a file.
ghost use Rattle.std.specs.Prelude.{◌≡◌, ◌+◌, ◌^◌, ◌<◌, ◌≤◌, ◌==◌, ◌++◌, ◌∷◌, ℕ, List, Some, true, false, length, take, drop, IfOk, OnErr};
ghost use Rattle.std.specs.Int.{w32, from_be_bytes};
ghost use Rattle.kz_types.specs.Causes.{HasCause};
ghost use Rattle.kz_disk.specs.Disks.{IsWithin};
ghost use Rattle.kz_spec_data.specs.Checksum.{crc32c};
ghost use Rattle.kz_spec_data.specs.Frames.{stated_sum};
ghost use Rattle.kz_journal.specs.Reads.{OnlyReads, ReadCause};

use crate::device::read_piece;
use kz_disk::Disk;
use kz_types::Failed;
use std::alloc::Global;

/// What stands at a gate.
#[derive(Drop)]
pub(crate) enum Piece {
    /// An open frame: its payload, and the sum of all bytes up to the next gate, where the frame has none.
    Frame { payload: Vec<u8>, sum: u32 },
    /// An open seal.
    Seal,
    /// An open frame or seal with another sum.
    Damaged,
    /// The frames end here.
    End,
}

/// Why a piece isn't read.
#[derive(Clone, Copy, Debug, PartialEq, Eq)]
pub(crate) enum ReadFault {
    Failed,
    NoMemory,
}

// A gate, and the four bytes of length after it.
pub(crate) fn read_head<D: Disk>(disk: &mut D, gate: u64) -> Result<[u8; 5], Failed>
    requires within { IsWithin (D.told disk.old) (gate + 5) }
    requires fits { gate + 5 < 2 ^ 64 }
    ensures head { IfOk result (λ head. (file : List ℕ) → D.told disk.old ≡ Some file → head ≡ take 5 (drop gate file)) }
    ensures reads { OnlyReads D.told D.may_leave D.moment D.left_since disk.old disk.new }
    ensures cause { HasCause (D.faults disk.old) (D.faults disk.new) result }
    ensures failed { OnErr result (D.last_failed disk.new ≡ true) }
{
    let mut head = [0u8; 5];
    match read_piece(disk, gate, &mut head) {
        Ok(()) => Ok(head),
        Err(_) => Err(Failed),
    }
}

// The four bytes of a sum, as a number.
pub(crate) fn read_sum<D: Disk>(disk: &mut D, gate: u64) -> Result<u32, Failed>
    requires within { IsWithin (D.told disk.old) (gate + 9) }
    requires fits { gate + 9 < 2 ^ 64 }
    ensures sum { IfOk result (λ sum. (file : List ℕ) → D.told disk.old ≡ Some file → stated_sum (drop gate file) ≡ sum) }
    ensures reads { OnlyReads D.told D.may_leave D.moment D.left_since disk.old disk.new }
    ensures cause { HasCause (D.faults disk.old) (D.faults disk.new) result }
    ensures failed { OnErr result (D.last_failed disk.new ≡ true) }
{
    let mut bytes = [0u8; 4];
    match read_piece(disk, gate + 5, &mut bytes) {
        Ok(()) => Ok(u32::from_be_bytes(bytes)),
        Err(_) => Err(Failed),
    }
}

// So many bytes, so far after a gate.
pub(crate) fn read_payload<D: Disk>(
    alloc: Global,
    disk: &mut D,
    gate: u64,
    skip: u64,
    len: u32,
) -> Result<Vec<u8>, ReadFault>
    requires within { IsWithin (D.told disk.old) (gate + skip + len) }
    requires fits { gate + skip + len < 2 ^ 64 }
    ensures bytes { IfOk result (λ bytes. (file : List ℕ) → D.told disk.old ≡ Some file → bytes.items ≡ take len (drop skip (drop gate file))) }
    ensures long { IfOk result (λ bytes. length bytes.items ≡ len) }
    ensures reads { OnlyReads D.told D.may_leave D.moment D.left_since disk.old disk.new }
    ensures cause { ReadCause (D.faults disk.old) (D.faults disk.new) (D.last_failed disk.new) result }
{
    let Ok(mut bytes) = vec![in alloc; 0u8; len as usize] else {
        return Err(ReadFault::NoMemory);
    };
    match read_piece(disk, gate + skip, &mut bytes) {
        Ok(()) => Ok(bytes),
        Err(_) => Err(ReadFault::Failed),
    }
}
