//! A disk whose machine stops.
ghost use Rattle.std.specs.Prelude.{◌≡◌, ◌-◌, ◌↔◌, true, IsErr, OnOk, OnErr};
ghost use Rattle.kz_types.specs.Causes.{HasCause};

use crate::Disk;
use kz_types::Failed;

/// A disk whose machine stops: so many calls are passed on, and each one after them fails and changes nothing.
#[derive(Drop)]
pub struct StopDisk<D> {
    disk: D,
    left: u64,
    refusals: u64,
    stopped: bool,
    ghost none_left: { stopped ≡ true → left ≡ 0 },
}

impl<D: Disk> StopDisk<D> {
    ghost use Rattle.std.specs.Prelude.{◌≡◌, false};
    ghost use Rattle.kz_disk.specs.Stop.{inner_disk, calls_left, refusals, is_stopped};

    /// Passes so many calls on to the disk.
    pub fn new(disk: D, calls: u64) -> Self
        ensures disk { inner_disk result ≡ disk }
        ensures calls { calls_left result ≡ calls }
        ensures refusals { refusals result ≡ 0 }
        ensures running { is_stopped result ≡ false }
    {
        StopDisk {
            disk,
            left: calls,
            refusals: 0,
            stopped: false,
        }
    }

    /// The disk that calls are passed to.
    pub fn disk(&self) -> &D
        ensures { result.now ≡ inner_disk self.now }
    {
        &self.disk
    }

    /// Gives that disk back: the machine runs again.
    pub fn into_disk(self) -> D
        ensures { result ≡ inner_disk self }
    {
        let StopDisk { disk, .. } = self;
        disk
    }
}

// Counts a call. Where none is left to pass on, the machine has stopped.
fn pass(left: &mut u64, refusals: &mut u64, stopped: &mut bool) -> Result<(), Failed>
    ensures fails { IsErr result ↔ (left.old ≡ 0) }
    ensures left { left.new ≡ left.old - 1 }
    ensures cause { HasCause refusals.old refusals.new result }
    ensures ok { OnOk result (stopped.new ≡ stopped.old) }
    ensures err { OnErr result (stopped.new ≡ true) }
{
    if *left == 0 {
        *refusals = refusals.saturating_add(1);
        *stopped = true;
        return Err(Failed);
    }
    *left -= 1;
    Ok(())
}

impl<D: Disk> Disk for StopDisk<D> {
    ghost use Rattle.std.specs.Prelude.{◌+◌, ◌||◌};

    ghost told = { λ s. D.told s.disk };

    ghost may_leave = { λ s left. D.may_leave s.disk left };

    ghost moment = { λ s. D.moment s.disk };

    ghost left_since = { λ s t left. D.left_since s.disk t left };

    ghost syncs = { λ s. D.syncs s.disk };

    ghost faults = { λ s. D.faults s.disk + s.refusals };

    ghost last_failed = { λ s. s.stopped || D.last_failed s.disk };

    ghost counts_now = { λ s t left before now. D.counts_now s.disk t left before now };

    ghost only_now = { λ s left since. D.only_now s.disk left since };

    ghost may_stay = { λ s bytes is. D.may_stay s.disk bytes is };

    fn len(&mut self) -> Result<u64, Failed> {
        pass(&mut self.left, &mut self.refusals, &mut self.stopped)?;
        self.disk.len()
    }

    fn read_at(&mut self, at: u64, buf: &mut [u8]) -> Result<(), Failed> {
        pass(&mut self.left, &mut self.refusals, &mut self.stopped)?;
        self.disk.read_at(at, buf)
    }

    fn write_at(&mut self, at: u64, piece: &[u8]) -> Result<(), Failed> {
        pass(&mut self.left, &mut self.refusals, &mut self.stopped)?;
        self.disk.write_at(at, piece)
    }

    fn sync(&mut self) -> Result<(), Failed> {
        pass(&mut self.left, &mut self.refusals, &mut self.stopped)?;
        self.disk.sync()
    }
}
