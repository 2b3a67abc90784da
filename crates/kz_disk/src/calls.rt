//! Calls that fail by a list.
ghost use Rattle.std.specs.Prelude.{◌≡◌, ◌+◌, ◌-◌, ◌^◌, ◌↔◌, min, true, IsErr, IsTrue};
ghost use Rattle.std.specs.Result.{is_err};
ghost use Rattle.kz_types.specs.Causes.{HasCause, Rose};
ghost use Rattle.kz_disk.specs.Listed.{is_listed};

use kz_types::Failed;

/// The calls of a disk, numbered from 0. Those that are listed fail.
#[derive(Drop)]
pub(crate) struct Calls {
    pub(crate) fail: Vec<u64>,
    pub(crate) count: u64,
    pub(crate) faults: u64,
    pub(crate) failed: bool,
}

impl Calls {
    /// Counts a call.
    ///
    /// `Failed`: exactly where its number is listed.
    pub(crate) fn begin(&mut self) -> Result<(), Failed>
        ensures cause { HasCause self.old.faults self.new.faults result }
        ensures failed { self.new.failed ≡ is_err result }
        ensures fails { IsErr result ↔ IsTrue (is_listed self.old.count self.old.fail.items) }
        ensures count { self.new.count ≡ min (self.old.count + 1) (2 ^ 64 - 1) }
        ensures plan { self.new.fail.items ≡ self.old.fail.items }
    {
        let call = self.count;
        self.count = call.saturating_add(1);
        self.failed = self.fail.contains(&call);
        if self.failed {
            self.faults = self.faults.saturating_add(1);
            return Err(Failed);
        }
        Ok(())
    }

    /// Makes the call that was begun fail.
    pub(crate) fn refuse(&mut self) -> Failed
        ensures faults { Rose self.old.faults self.new.faults }
        ensures failed { self.new.failed ≡ true }
        ensures count { self.new.count ≡ self.old.count }
        ensures plan { self.new.fail.items ≡ self.old.fail.items }
    {
        self.faults = self.faults.saturating_add(1);
        self.failed = true;
        Failed
    }
}
