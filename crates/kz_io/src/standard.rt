//! The readers and writers of std as sources and sinks.
ghost use Rattle.std.specs.Prelude.{◌≡◌, ◌≤◌, None, length, MatchResult, false};
ghost use Rattle.std.specs.Result.{is_err};
ghost use Rattle.std.specs.Io.{ReadsAtMost};
ghost use Rattle.std.specs.Io.KnownBytes.{ReadConsumes, WriteAppends};
ghost use Rattle.kz_types.specs.Causes.{HasCause, WriteHasCause};
ghost use Rattle.kz_io.specs.Told.{StaysTold, is_failed_write};
ghost use Rattle.kz_io.specs.Standard.{reader, read_faults, read_failed, writer, write_faults, write_failed};

use crate::{Sink, Source};
use kz_types::Failed;
use std::io::{Read, Write};

/// A reader of std. As a source it tells no contents.
#[derive(Drop)]
pub struct StdSource<R> {
    inner: R,
    faults: u64,
    failed: bool,
}

impl<R: Read> StdSource<R> {
    /// A source that reads from this reader. No read has failed so far.
    pub fn new(inner: R) -> Self
        ensures reader { reader result ≡ inner }
        ensures faults { read_faults result ≡ 0 }
        ensures failed { read_failed result ≡ false }
    {
        StdSource {
            inner,
            faults: 0,
            failed: false,
        }
    }
}

impl<R: Read> Source for StdSource<R> {
    ghost left = { λ _. None };

    ghost faults = { λ s. read_faults s };

    ghost last_failed = { λ s. read_failed s };

    /// What the reader gives.
    ///
    /// `Failed`: the reader failed.
    fn read(&mut self, buf: &mut [u8]) -> Result<usize, Failed>
        ensures bound { ReadsAtMost result buf.new }
        ensures bytes { ReadConsumes None None result buf.new }
        ensures told { StaysTold None None }
        ensures cause { HasCause (read_faults self.old) (read_faults self.new) result }
        ensures failed { read_failed self.new ≡ is_err result }
        ensures passed { ReadConsumes (R.remaining (reader self.old)) (R.remaining (reader self.new)) result buf.new }
    {
        match self.inner.read(buf) {
            Ok(count) => {
                self.failed = false;
                Ok(count)
            }
            Err(_) => {
                self.failed = true;
                self.faults = self.faults.saturating_add(1);
                Err(Failed)
            }
        }
    }
}

/// A writer of std. As a sink it tells no contents.
#[derive(Drop)]
pub struct StdSink<W> {
    inner: W,
    faults: u64,
    failed: bool,
}

impl<W: Write> StdSink<W> {
    /// A sink that writes to this writer. No write has failed so far.
    pub fn new(inner: W) -> Self
        ensures writer { writer result ≡ inner }
        ensures faults { write_faults result ≡ 0 }
        ensures failed { write_failed result ≡ false }
    {
        StdSink {
            inner,
            faults: 0,
            failed: false,
        }
    }
}

impl<W: Write> Sink for StdSink<W> {
    ghost taken = { λ _. None };

    ghost faults = { λ s. write_faults s };

    ghost last_failed = { λ s. write_failed s };

    /// What the writer takes.
    ///
    /// `Failed`: the writer failed.
    fn write(&mut self, piece: &[u8]) -> Result<usize, Failed>
        ensures bound { MatchResult result (λ n. n ≤ length piece.now) (λ _. Unit {0}) }
        ensures bytes { WriteAppends None None result piece.now }
        ensures told { StaysTold None None }
        ensures cause { WriteHasCause (write_faults self.old) (write_faults self.new) result piece.now }
        ensures failed { write_failed self.new ≡ is_failed_write result piece.now }
        ensures passed { WriteAppends (W.contents (writer self.old)) (W.contents (writer self.new)) result piece.now }
    {
        match self.inner.write(piece) {
            Ok(count) => {
                self.failed = count == 0 && !piece.is_empty();
                if self.failed {
                    self.faults = self.faults.saturating_add(1);
                }
                Ok(count)
            }
            Err(_) => {
                self.failed = true;
                self.faults = self.faults.saturating_add(1);
                Err(Failed)
            }
        }
    }
}
