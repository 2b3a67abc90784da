//! A file of std as a disk.
ghost use Rattle.std.specs.Prelude.{◌≡◌, true, false};
ghost use Rattle.kz_types.specs.Causes.{Rose};
ghost use Rattle.kz_disk.specs.Files.{file_faults, file_failed, file_syncs};

use crate::Disk;
use crate::disk::MAX_LENGTH;
use kz_types::Failed;
use std::fs::File;
use std::os::unix::fs::FileExt;

/// A file as a disk. It tells no contents: no contract says what a real file keeps.
#[derive(Drop)]
pub struct FileDisk {
    file: File,
    syncs: u64,
    faults: u64,
    failed: bool,
}

impl FileDisk {
    /// A disk over a file that is open for reading and writing. No call of it has been made so far.
    pub fn new(file: File) -> Self
        ensures faults { file_faults result ≡ 0 }
        ensures failed { file_failed result ≡ false }
        ensures syncs { file_syncs result ≡ 0 }
    {
        FileDisk {
            file,
            syncs: 0,
            faults: 0,
            failed: false,
        }
    }

    // Counts a failure.
    fn refuse(&mut self) -> Failed
        ensures faults { Rose (file_faults self.old) (file_faults self.new) }
        ensures failed { file_failed self.new ≡ true }
        ensures syncs { file_syncs self.new ≡ file_syncs self.old }
    {
        self.faults = self.faults.saturating_add(1);
        self.failed = true;
        Failed
    }
}

impl Disk for FileDisk {
    ghost use Rattle.std.specs.Prelude.{◌≡◌, ◌+◌, ◌^◌, ◌<◌, ℕ, None, length, option_map, IfOk, OnOk};
    ghost use Rattle.std.specs.Result.{is_err};
    ghost use Rattle.kz_types.specs.Causes.{HasCause};
    ghost use Rattle.kz_disk.specs.Disks.{StaysTold, IsWithin, IsLength, StandAt, with_piece, LeavesNothing, LeavesNoMore, LeavesTorn, NothingPends, Elapses, CountsSync};
    ghost use Rattle.kz_disk.specs.Files.{file_faults, file_failed, file_syncs, none_told};

    ghost told = { λ _. None };

    ghost may_leave = { λ _ left. LeavesNothing left };

    ghost moment = { λ _. 0 };

    ghost left_since = { λ _ _ left. LeavesNothing left };

    ghost syncs = { λ d. file_syncs d };

    ghost faults = { λ d. file_faults d };

    ghost last_failed = { λ d. file_failed d };

    ghost counts_now = { λ _ _ _ _ now. now };

    ghost only_now = { λ _ _ since. since };

    ghost may_stay = { λ _ bytes is. none_told bytes is };

    fn len(&mut self) -> Result<u64, Failed> {
        match self.file.metadata() {
            Ok(metadata) => {
                let len = metadata.len();
                if len > MAX_LENGTH {
                    return Err(self.refuse());
                }
                self.failed = false;
                Ok(len)
            }
            Err(_) => Err(self.refuse()),
        }
    }

    fn read_at(&mut self, at: u64, buf: &mut [u8]) -> Result<(), Failed> {
        match self.file.read_exact_at(buf, at) {
            Ok(()) => {
                self.failed = false;
                Ok(())
            }
            Err(_) => Err(self.refuse()),
        }
    }

    fn write_at(&mut self, at: u64, piece: &[u8]) -> Result<(), Failed> {
        match self.file.write_all_at(piece, at) {
            Ok(()) => {
                self.failed = false;
                Ok(())
            }
            Err(_) => Err(self.refuse()),
        }
    }

    fn sync(&mut self) -> Result<(), Failed> {
        match self.file.sync_all() {
            Ok(()) => {
                self.failed = false;
                self.syncs = self.syncs.saturating_add(1);
                Ok(())
            }
            Err(_) => Err(self.refuse()),
        }
    }
}
