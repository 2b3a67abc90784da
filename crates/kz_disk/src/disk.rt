//! What a store's file stands on.
ghost use Rattle.std.specs.Prelude.{◌≡◌, ◌+◌, ◌^◌, ◌<◌, ◌≤◌, List, ℕ, Bool, Option, Some, length, option_map, IfOk, OnOk};
ghost use Rattle.std.specs.Result.{is_err};
ghost use Rattle.kz_types.specs.Causes.{HasCause};
ghost use Rattle.kz_disk.specs.Disks.{StaysTold, IsWithin, IsLength, StandAt, with_piece, LeavesNoMore, LeavesTorn, NothingPends, Elapses, CountsSync};

use kz_types::Failed;

/// The most bytes of a disk.
pub(crate) const MAX_LENGTH: u64 = 9_223_372_036_854_775_807;

/// A place for bytes that outlives a stop, for the most part.
///
/// Where contents are told, contracts say what a read gives and what a stop leaves. Of a disk that tells nothing, as a real
/// file, they say only when a call fails.
pub trait Disk {
    /// What a read gives, where it is told.
    ghost told: { Self → Option (List ℕ) };

    /// What a stop now may leave.
    ghost may_leave: { Self → List ℕ → Type 0 };

    /// The moment, as a number that never falls.
    ghost moment: { Self → ℕ };

    /// What a stop might have left at some moment from this one on, within a call or between two.
    ghost left_since: { Self → ℕ → List ℕ → Type 0 };

    /// How often a sync has succeeded.
    ghost syncs: { Self → ℕ };

    /// How often a call has failed.
    ghost faults: { Self → ℕ };

    /// Whether the last call failed; false before the first.
    ghost last_failed: { Self → Bool };

    /// How many bytes there are. A disk has fewer than 2^63, as the offsets of a file are signed numbers of 64 bits.
    ///
    /// `Failed`: the count of faults rose in this call.
    fn len(&mut self) -> Result<u64, Failed>
        ensures value { IfOk result (λ n. IsLength (told self.old) n) }
        ensures small { IfOk result (λ n. n < 2 ^ 63) }
        ensures same { told self.new ≡ told self.old }
        ensures stop { LeavesNoMore (may_leave self.old) (may_leave self.new) }
        ensures time { Elapses (moment self.old) (moment self.new) (left_since self.old) (left_since self.new) (may_leave self.new) }
        ensures synced { syncs self.new ≡ syncs self.old }
        ensures cause { HasCause (faults self.old) (faults self.new) result }
        ensures failed { last_failed self.new ≡ is_err result };

    /// Fills `buf` with the bytes from a place on.
    ///
    /// `Failed`: the count of faults rose in this call. What stands in `buf` then isn't said.
    fn read_at(&mut self, at: u64, buf: &mut [u8]) -> Result<(), Failed>
        requires within { IsWithin (told self.old) (at + length buf.old) }
        requires fits { at + length buf.old < 2 ^ 64 }
        ensures bytes { OnOk result (StandAt (told self.old) at buf.new) }
        ensures same { told self.new ≡ told self.old }
        ensures stop { LeavesNoMore (may_leave self.old) (may_leave self.new) }
        ensures time { Elapses (moment self.old) (moment self.new) (left_since self.old) (left_since self.new) (may_leave self.new) }
        ensures synced { syncs self.new ≡ syncs self.old }
        ensures cause { HasCause (faults self.old) (faults self.new) result }
        ensures failed { last_failed self.new ≡ is_err result };

    /// Writes a piece from a place on, over what stands there and past the end. Until a sync succeeds, a stop may leave any
    /// bytes in this range.
    ///
    /// `Failed`: the count of faults rose in this call. What stands in the range then isn't said.
    fn write_at(&mut self, at: u64, piece: &[u8]) -> Result<(), Failed>
        requires within { IsWithin (told self.old) at }
        requires fits { at + length piece.now < 2 ^ 64 }
        ensures written { OnOk result (told self.new ≡ option_map (with_piece at piece.now) (told self.old)) }
        ensures told { StaysTold (told self.old) (told self.new) }
        ensures stop { LeavesTorn at (length piece.now) (may_leave self.old) (may_leave self.new) }
        ensures time { Elapses (moment self.old) (moment self.new) (left_since self.old) (left_since self.new) (may_leave self.new) }
        ensures synced { syncs self.new ≡ syncs self.old }
        ensures cause { HasCause (faults self.old) (faults self.new) result }
        ensures failed { last_failed self.new ≡ is_err result };

    /// Makes all that was written outlive a stop.
    ///
    /// `Failed`: the count of faults rose in this call. What a read gives then isn't said.
    fn sync(&mut self) -> Result<(), Failed>
        ensures durable { OnOk result (NothingPends (told self.new) (may_leave self.new)) }
        ensures same { OnOk result (told self.new ≡ told self.old) }
        ensures told { StaysTold (told self.old) (told self.new) }
        ensures stop { LeavesNoMore (may_leave self.old) (may_leave self.new) }
        ensures time { Elapses (moment self.old) (moment self.new) (left_since self.old) (left_since self.new) (may_leave self.new) }
        ensures synced { CountsSync (syncs self.old) (syncs self.new) result }
        ensures cause { HasCause (faults self.old) (faults self.new) result }
        ensures failed { last_failed self.new ≡ is_err result };

    /// This moment is one of those since an earlier one.
    ghost counts_now: { (disk : Self) (t : ℕ) (left : List ℕ) → t ≤ moment disk → may_leave disk left → left_since disk t left };

    /// Since this moment there is no other.
    ghost only_now: { (disk : Self) (left : List ℕ) → left_since disk (moment disk) left → may_leave disk left };

    /// A stop may leave what a read gives: no disk tells its contents and leaves nothing.
    ghost may_stay: { (disk : Self) (bytes : List ℕ) → told disk ≡ Some bytes → may_leave disk bytes };
}
