//! Sources and sinks in memory, with calls that fail by a list.
ghost use Rattle.std.specs.Prelude.{◌≡◌, ◌≤◌, ◌++◌, take, drop, length, min, vec_len};

use crate::{Sink, Source};
use kz_types::Failed;
use std::alloc::Global;

/// A source of bytes in memory, which it tells. Reads are numbered from 0, and those that are listed fail.
#[derive(Drop)]
pub struct MemorySource {
    bytes: Vec<u8>,
    fail: Vec<u64>,
    at: usize,
    calls: u64,
    faults: u64,
    failed: bool,
    ghost in_range: { at ≤ vec_len bytes },
}

impl MemorySource {
    ghost use Rattle.std.specs.Prelude.{◌≡◌, false};
    ghost use Rattle.kz_io.specs.Memory.{source_left, source_call, source_plan, source_faults, source_failed};

    /// A source that has these bytes left. The reads whose numbers are in `fail` fail.
    pub fn new(bytes: Vec<u8>, fail: Vec<u64>) -> Self
        ensures left { source_left result ≡ bytes.items }
        ensures call { source_call result ≡ 0 }
        ensures plan { source_plan result ≡ fail.items }
        ensures faults { source_faults result ≡ 0 }
        ensures failed { source_failed result ≡ false }
    {
        MemorySource {
            bytes,
            fail,
            at: 0,
            calls: 0,
            faults: 0,
            failed: false,
        }
    }
}

fn copy_front(from: &[u8], to: &mut [u8]) -> usize
    ensures count { result ≤ length from.now }
    ensures room { result ≤ length to.old }
    ensures copied { to.new ≡ take result from.now ++ drop result to.old }
    ensures all { result ≡ min (length from.now) (length to.old) }
{
    let count = from.len().min(to.len());
    to[..count].copy_from_slice(&from[..count]);
    count
}

impl Source for MemorySource {
    ghost use Rattle.std.specs.Prelude.{◌≡◌, Some, length};
    ghost use Rattle.std.specs.Io.{ReadsAtMost};
    ghost use Rattle.std.specs.Result.{is_err};
    ghost use Rattle.std.specs.Io.KnownBytes.{ReadConsumes};
    ghost use Rattle.kz_types.specs.Causes.{HasCause};
    ghost use Rattle.kz_io.specs.Told.{StaysTold};
    ghost use Rattle.kz_io.specs.Memory.{source_left, source_faults, source_failed, ReadsByList};

    ghost left = { λ s. Some (source_left s) };

    ghost faults = { λ s. source_faults s };

    ghost last_failed = { λ s. source_failed s };

    /// A read that isn't listed gives as many of the bytes that are left as there is room for.
    ///
    /// `Failed`: exactly where the number of the read is listed.
    fn read(&mut self, buf: &mut [u8]) -> Result<usize, Failed>
        ensures bound { ReadsAtMost result buf.new }
        ensures bytes { ReadConsumes (Some (source_left self.old)) (Some (source_left self.new)) result buf.new }
        ensures told { StaysTold (Some (source_left self.old)) (Some (source_left self.new)) }
        ensures cause { HasCause (source_faults self.old) (source_faults self.new) result }
        ensures failed { source_failed self.new ≡ is_err result }
        ensures by_list { ReadsByList self.old self.new (length buf.old) result }
    {
        let call = self.calls;
        self.calls = call.saturating_add(1);
        self.failed = self.fail.contains(&call);
        if self.failed {
            self.faults = self.faults.saturating_add(1);
            return Err(Failed);
        }
        let count = copy_front(&self.bytes[self.at..], buf);
        self.at += count;
        Ok(count)
    }
}

/// A sink that keeps what it is given, and tells it. Writes are numbered from 0. Those that are listed fail, or take
/// nothing. A write that finds no memory fails.
#[derive(Drop)]
pub struct MemorySink {
    bytes: Vec<u8>,
    fail: Vec<u64>,
    none: Vec<u64>,
    calls: u64,
    faults: u64,
    failed: bool,
}

impl MemorySink {
    ghost use Rattle.std.specs.Prelude.{◌≡◌, [], false};
    ghost use Rattle.kz_io.specs.Memory.{sink_taken, sink_call, sink_plan, sink_none, sink_faults, sink_failed};

    /// A sink that has taken nothing. The writes whose numbers are in `fail` fail; of the others, those in `none` take
    /// nothing.
    pub fn new(alloc: Global, fail: Vec<u64>, none: Vec<u64>) -> Self
        ensures taken { sink_taken result ≡ [] }
        ensures call { sink_call result ≡ 0 }
        ensures plan { sink_plan result ≡ fail.items }
        ensures none { sink_none result ≡ none.items }
        ensures faults { sink_faults result ≡ 0 }
        ensures failed { sink_failed result ≡ false }
    {
        MemorySink {
            bytes: Vec::new(alloc),
            fail,
            none,
            calls: 0,
            faults: 0,
            failed: false,
        }
    }

    /// What it has taken so far.
    pub fn taken(&self) -> &[u8]
        ensures { result.now ≡ sink_taken self.now }
    {
        &self.bytes
    }
}

impl Sink for MemorySink {
    ghost use Rattle.std.specs.Prelude.{◌≡◌, ◌≤◌, Some, length, MatchResult};
    ghost use Rattle.std.specs.Io.KnownBytes.{WriteAppends};
    ghost use Rattle.kz_types.specs.Causes.{WriteHasCause};
    ghost use Rattle.kz_io.specs.Told.{StaysTold, is_failed_write};
    ghost use Rattle.kz_io.specs.Memory.{sink_taken, sink_faults, sink_failed, WritesByLists};

    ghost taken = { λ s. Some (sink_taken s) };

    ghost faults = { λ s. sink_faults s };

    ghost last_failed = { λ s. sink_failed s };

    /// A write that isn't listed takes the whole piece, where there is memory.
    ///
    /// `Failed`: where the number of the write is listed in `fail`, or memory ran out.
    fn write(&mut self, piece: &[u8]) -> Result<usize, Failed>
        ensures bound { MatchResult result (λ n. n ≤ length piece.now) (λ _. Unit {0}) }
        ensures bytes { WriteAppends (Some (sink_taken self.old)) (Some (sink_taken self.new)) result piece.now }
        ensures told { StaysTold (Some (sink_taken self.old)) (Some (sink_taken self.new)) }
        ensures cause { WriteHasCause (sink_faults self.old) (sink_faults self.new) result piece.now }
        ensures failed { sink_failed self.new ≡ is_failed_write result piece.now }
        ensures by_lists { WritesByLists self.old self.new piece.now result }
    {
        let call = self.calls;
        self.calls = call.saturating_add(1);
        self.failed = true;
        if self.fail.contains(&call) {
            self.faults = self.faults.saturating_add(1);
            return Err(Failed);
        }
        if self.none.contains(&call) {
            self.failed = !piece.is_empty();
            if self.failed {
                self.faults = self.faults.saturating_add(1);
            }
            return Ok(0);
        }
        if self.bytes.extend_from_slice(piece).is_err() {
            self.faults = self.faults.saturating_add(1);
            return Err(Failed);
        }
        self.failed = false;
        Ok(piece.len())
    }
}
