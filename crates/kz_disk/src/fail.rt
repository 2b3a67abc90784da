//! A disk that fails every call.
ghost use Rattle.std.specs.Prelude.{◌≡◌, true, false};
ghost use Rattle.kz_types.specs.Causes.{Rose};
ghost use Rattle.kz_disk.specs.Files.{fail_faults, fail_failed};

use crate::Disk;
use kz_types::Failed;

/// A disk that fails every call: it stands for a file that doesn't open. It tells no contents.
#[derive(Drop)]
pub struct FailDisk {
    faults: u64,
    failed: bool,
}

impl FailDisk {
    /// A disk of which no call has been made so far.
    pub fn new() -> Self
        ensures faults { fail_faults result ≡ 0 }
        ensures failed { fail_failed result ≡ false }
    {
        FailDisk {
            faults: 0,
            failed: false,
        }
    }

    // Makes a call fail.
    fn refuse(&mut self) -> Failed
        ensures faults { Rose (fail_faults self.old) (fail_faults self.new) }
        ensures failed { fail_failed self.new ≡ true }
    {
        self.faults = self.faults.saturating_add(1);
        self.failed = true;
        Failed
    }
}

impl Disk for FailDisk {
    ghost use Rattle.std.specs.Prelude.{◌≡◌, ◌+◌, ◌^◌, ◌<◌, ℕ, None, length, option_map, IfOk, OnOk, IsErr};
    ghost use Rattle.std.specs.Result.{is_err};
    ghost use Rattle.kz_types.specs.Causes.{HasCause};
    ghost use Rattle.kz_disk.specs.Disks.{StaysTold, IsWithin, IsLength, StandAt, with_piece, LeavesNothing, LeavesNoMore, LeavesTorn, NothingPends, Elapses, CountsSync};
    ghost use Rattle.kz_disk.specs.Files.{fail_faults, fail_failed, none_told};

    ghost told = { λ _. None };

    ghost may_leave = { λ _ left. LeavesNothing left };

    ghost moment = { λ _. 0 };

    ghost left_since = { λ _ _ left. LeavesNothing left };

    ghost syncs = { λ _. 0 };

    ghost faults = { λ d. fail_faults d };

    ghost last_failed = { λ d. fail_failed d };

    ghost counts_now = { λ _ _ _ _ now. now };

    ghost only_now = { λ _ _ since. since };

    ghost may_stay = { λ _ bytes is. none_told bytes is };

    fn len(&mut self) -> Result<u64, Failed> {
        Err(self.refuse())
    }

    fn read_at(&mut self, _at: u64, _buf: &mut [u8]) -> Result<(), Failed> {
        Err(self.refuse())
    }

    fn write_at(&mut self, _at: u64, _piece: &[u8]) -> Result<(), Failed> {
        Err(self.refuse())
    }

    fn sync(&mut self) -> Result<(), Failed> {
        Err(self.refuse())
    }
}
