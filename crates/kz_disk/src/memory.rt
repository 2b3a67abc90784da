//! A disk in memory, with calls that fail by a list.
ghost use Rattle.std.specs.Prelude.{◌≡◌, true, reverse};
ghost use Rattle.kz_disk.specs.Changes.{contents_after, are_within};

use crate::Disk;
use crate::calls::Calls;
use crate::changes::{Change, put_piece};
use crate::disk::MAX_LENGTH;
use crate::image::crash_image;
use kz_types::{Failed, NoMemory};
use std::alloc::Global;

/// A disk in memory, which tells its contents, and leaves at a stop whatever the model of a disk allows. Calls are numbered
/// from 0, and those that are listed fail; a call that fails changes nothing. A write that finds no memory fails too.
#[derive(Drop)]
pub struct MemoryDisk {
    alloc: Global,
    start: Vec<u8>,
    bytes: Vec<u8>,
    changes: Vec<Change>,
    syncs: u64,
    calls: Calls,
    ghost same: { bytes.items ≡ contents_after start.items (reverse changes.items) },
    ghost in_range: { are_within start.items (reverse changes.items) ≡ true },
}

impl MemoryDisk {
    ghost use Rattle.std.specs.Prelude.{◌≡◌, [], length, IfOk, false};
    ghost use Rattle.kz_disk.specs.Changes.{MayLeave, crash_image};
    ghost use Rattle.kz_disk.specs.Memory.{memory_bytes, memory_start, memory_changes, memory_call, memory_plan, memory_faults, memory_failed, memory_syncs};

    /// A disk that holds these bytes, all of them synced. The calls whose numbers are in `fail` fail.
    pub fn new(alloc: Global, bytes: Vec<u8>, fail: Vec<u64>) -> Result<Self, NoMemory>
        ensures bytes { IfOk result (λ disk. memory_bytes disk ≡ bytes.items) }
        ensures changes { IfOk result (λ disk. memory_changes disk ≡ []) }
        ensures call { IfOk result (λ disk. memory_call disk ≡ 0) }
        ensures plan { IfOk result (λ disk. memory_plan disk ≡ fail.items) }
        ensures faults { IfOk result (λ disk. memory_faults disk ≡ 0) }
        ensures failed { IfOk result (λ disk. memory_failed disk ≡ false) }
        ensures syncs { IfOk result (λ disk. memory_syncs disk ≡ 0) }
    {
        let start = bytes.to_vec(alloc)?;
        Ok(MemoryDisk {
            alloc,
            start,
            bytes,
            changes: Vec::new(alloc),
            syncs: 0,
            calls: Calls {
                fail,
                count: 0,
                faults: 0,
                failed: false,
            },
        })
    }

    /// What a stop leaves of it, in one of the ways that it may: as many bytes as it holds, of which each that was written
    /// since the last sync is as it was written for `None`, and else this byte. `NoMemory` is the only error.
    pub fn image(&self, fill: Option<u8>) -> Result<Vec<u8>, NoMemory>
        ensures image { IfOk result (λ image. image.items ≡ crash_image fill (memory_start self.now) (memory_changes self.now)) }
        ensures left { IfOk result (λ image. MayLeave (memory_start self.now) (memory_changes self.now) image.items) }
        ensures length { IfOk result (λ image. length image.items ≡ length (memory_bytes self.now)) }
    {
        crash_image(self.alloc, fill, &self.start, &self.changes)
    }

    /// What it holds.
    pub fn bytes(&self) -> &[u8]
        ensures { result.now ≡ memory_bytes self.now }
    {
        &self.bytes
    }
}

impl Disk for MemoryDisk {
    ghost use Rattle.std.specs.Prelude.{◌≡◌, ◌+◌, ◌-◌, ◌^◌, ◌<◌, ◌≤◌, ◌↔◌, ◌∷◌, Some, min, length, option_map, IfOk, OnOk, OnErr, IsErr, IsTrue};
    ghost use Rattle.std.specs.Result.{is_err};
    ghost use Rattle.kz_types.specs.Causes.{HasCause};
    ghost use Rattle.kz_disk.specs.Disks.{StaysTold, IsWithin, IsLength, StandAt, with_piece, LeavesNoMore, LeavesTorn, NothingPends, Elapses, CountsSync};
    ghost use Rattle.kz_disk.specs.Listed.{is_listed};
    ghost use Rattle.kz_disk.specs.Changes.{MayLeave, MightHaveLeft};
    ghost use Rattle.kz_disk.specs.Past.{left_now, left_only_now, contents_may_stay};
    ghost use Rattle.kz_disk.specs.Memory.{memory_bytes, memory_start, memory_changes, memory_call, memory_plan, memory_faults, memory_failed, memory_syncs};

    ghost told = { λ d. Some (memory_bytes d) };

    ghost may_leave = { λ d left. MayLeave (memory_start d) (memory_changes d) left };

    ghost moment = { λ d. length (memory_changes d) };

    ghost left_since = { λ d t left. MightHaveLeft (memory_start d) (memory_changes d) t left };

    ghost syncs = { λ d. memory_syncs d };

    ghost faults = { λ d. memory_faults d };

    ghost last_failed = { λ d. memory_failed d };

    ghost counts_now = { λ d t left before now. left_now (memory_start d) (memory_changes d) t left before now };

    ghost only_now = { λ d left since. left_only_now (memory_start d) (memory_changes d) left since };

    ghost may_stay = { λ d bytes is. contents_may_stay (memory_start d) (memory_changes d) (memory_bytes d) bytes d.same d.in_range is };

    fn len(&mut self) -> Result<u64, Failed> {
        self.calls.begin()?;
        let len = self.bytes.len() as u64;
        if len > MAX_LENGTH {
            return Err(self.calls.refuse());
        }
        Ok(len)
    }

    fn read_at(&mut self, at: u64, buf: &mut [u8]) -> Result<(), Failed> {
        self.calls.begin()?;
        let at = at as usize;
        buf.copy_from_slice(&self.bytes[at..at + buf.len()]);
        Ok(())
    }

    fn write_at(&mut self, at: u64, piece: &[u8]) -> Result<(), Failed> {
        self.calls.begin()?;
        let at = at as usize;
        let Ok(copy) = piece.to_vec(self.alloc) else {
            return Err(self.calls.refuse());
        };
        let Ok(()) = self.changes.reserve(1) else {
            return Err(self.calls.refuse());
        };
        let Ok(()) = put_piece(&mut self.bytes, at, piece) else {
            return Err(self.calls.refuse());
        };
        let Ok(()) = self.changes.push(Change::Wrote { at, piece: copy }) else {
            unreachable!()
        };
        Ok(())
    }

    fn sync(&mut self) -> Result<(), Failed> {
        self.calls.begin()?;
        let Ok(()) = self.changes.push(Change::Synced) else {
            return Err(self.calls.refuse());
        };
        self.syncs = self.syncs.saturating_add(1);
        Ok(())
    }
}
