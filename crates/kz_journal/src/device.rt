//! Calls of a disk whose effect outlives a stop.
ghost use Rattle.std.specs.Prelude.{◌≡◌, ◌+◌, ◌^◌, ◌<◌, ℕ, List, Some, true, length, option_map, OnOk, OnErr, ◌∷◌, []};
ghost use Rattle.kz_types.specs.Causes.{HasCause};
ghost use Rattle.kz_disk.specs.Disks.{StaysTold, IsWithin, StandAt, with_piece, LeavesTorn, NothingPends, LeavesOnly};
ghost use Rattle.kz_journal.specs.Appends.{IsTornOr, with_open_gate, IsCutAppend};
ghost use Rattle.kz_journal.specs.Reads.{OnlyReads};

use kz_disk::Disk;
use kz_types::Failed;

// The byte of an open gate.
pub(crate) const OPEN_GATE: u8 = 0xA5;

// The byte of a closed gate.
pub(crate) const CLOSED_GATE: u8 = 0;

/// Writes a piece, and makes it outlive a stop.
pub(crate) fn write_durably<D: Disk>(disk: &mut D, at: u64, piece: &[u8]) -> Result<(), Failed>
    requires within { IsWithin (D.told disk.old) at }
    requires fits { at + length piece.now < 2 ^ 64 }
    ensures written { OnOk result (D.told disk.new ≡ option_map (with_piece at piece.now) (D.told disk.old)) }
    ensures told { StaysTold (D.told disk.old) (D.told disk.new) }
    ensures durable { OnOk result (NothingPends (D.told disk.new) (D.may_leave disk.new)) }
    ensures stop { LeavesTorn at (length piece.now) (D.may_leave disk.old) (D.may_leave disk.new) }
    ensures any_moment { LeavesOnly D.moment D.left_since disk.old disk.new (IsTornOr (D.may_leave disk.old) at (length piece.now)) }
    ensures cause { HasCause (D.faults disk.old) (D.faults disk.new) result }
    ensures failed { OnErr result (D.last_failed disk.new ≡ true) }
{
    let Ok(()) = disk.write_at(at, piece) else {
        return Err(Failed);
    };
    let Ok(()) = disk.sync() else {
        return Err(Failed);
    };
    Ok(())
}

/// Writes bytes after a closed gate, and then opens the gate: the bytes outlive a stop before the gate is touched.
pub(crate) fn write_after<D: Disk>(disk: &mut D, gate: u64, piece: &[u8]) -> Result<(), Failed>
    requires within { IsWithin (D.told disk.old) (gate + 1) }
    requires fits { gate + 1 + length piece.now < 2 ^ 64 }
    requires settled { NothingPends (D.told disk.old) (D.may_leave disk.old) }
    ensures written { OnOk result (D.told disk.new ≡ option_map (with_open_gate gate piece.now) (D.told disk.old)) }
    ensures told { StaysTold (D.told disk.old) (D.told disk.new) }
    ensures durable { OnOk result (NothingPends (D.told disk.new) (D.may_leave disk.new)) }
    ensures any_moment { (file : List ℕ) → D.told disk.old ≡ Some file
        → LeavesOnly D.moment D.left_since disk.old disk.new (IsCutAppend gate piece.now file) }
    ensures cause { HasCause (D.faults disk.old) (D.faults disk.new) result }
    ensures failed { OnErr result (D.last_failed disk.new ≡ true) }
{
    let Ok(()) = write_durably(disk, gate + 1, piece) else {
        return Err(Failed);
    };
    let Ok(()) = write_durably(disk, gate, &[OPEN_GATE]) else {
        return Err(Failed);
    };
    Ok(())
}

/// Fills a buffer with the bytes from a place on.
pub(crate) fn read_piece<D: Disk>(disk: &mut D, at: u64, buf: &mut [u8]) -> Result<(), Failed>
    requires within { IsWithin (D.told disk.old) (at + length buf.old) }
    requires fits { at + length buf.old < 2 ^ 64 }
    ensures bytes { OnOk result (StandAt (D.told disk.old) at buf.new) }
    ensures reads { OnlyReads D.told D.may_leave D.moment D.left_since disk.old disk.new }
    ensures synced { D.syncs disk.new ≡ D.syncs disk.old }
    ensures cause { HasCause (D.faults disk.old) (D.faults disk.new) result }
    ensures failed { OnErr result (D.last_failed disk.new ≡ true) }
{
    match disk.read_at(at, buf) {
        Ok(()) => Ok(()),
        Err(_) => Err(Failed),
    }
}
