//! A log in memory.
ghost use Rattle.std.specs.Prelude.{◌≡◌, None, Option};
ghost use Rattle.kz_spec_data.specs.Log.{Log, IsLog, empty_log};
ghost use Rattle.kz_spec_data.specs.Requests.{no_disk};
ghost use Rattle.kz_log.specs.OneProof.{IsLog-prop};

use crate::{Elected, LogRows, MetaLog};
use kz_image::Feed;
use kz_types::{Limit, LogFault, MAX_EPOCH, MetaRecord, NoMemory};
use std::alloc::Global;

/// A log in memory. It has no disk: no request of it answers `Failed`, `Down` or `Full`, and a stop leaves nothing of it.
#[derive(Drop)]
pub struct MemoryLog {
    alloc: Global,
    rows: LogRows,
    ghost is_log: { IsLog rows } by { IsLog-prop rows-code rows },
}

impl MemoryLog {
    /// The empty log, of epoch 0, whose last offset is -1.
    pub fn new(alloc: Global) -> MemoryLog
        ensures { ⟦<MemoryLog as MetaLog>⟧.log result ≡ empty_log }
    {
        MemoryLog {
            alloc,
            rows: LogRows::new(alloc),
        }
    }
}

impl MetaLog for MemoryLog {
    ghost log = { λ l. l.rows };

    ghost disk = { λ l. no_disk };

    ghost payload_bytes = { λ log change. 0 };

    ghost left = { λ l found. ⊥ };

    ghost is_log = { λ l. l.is_log };

    ghost settled = { λ l up found none. absurd none };

    fn epoch(&self) -> i32 {
        self.rows.epoch()
    }

    fn base(&self) -> i64 {
        self.rows.base()
    }

    fn end(&self) -> i64 {
        self.rows.end()
    }

    fn append(&mut self, epoch: i32, now: i64, items: &[MetaRecord]) -> Result<i64, LogFault> {
        if epoch != self.rows.epoch() {
            return Err(LogFault::Stale {
                epoch: self.rows.epoch(),
            });
        }
        if let Some(number) = self.rows.full(items.len()) {
            return Err(LogFault::Limit { number });
        }
        match self.rows.add(self.alloc, epoch, now, items) {
            Ok(()) => Ok(self.rows.end()),
            Err(NoMemory) => Err(LogFault::NoMemory),
        }
    }

    fn elect(&mut self, now: i64, items: &[MetaRecord]) -> Result<Elected, LogFault> {
        if self.rows.epoch() == MAX_EPOCH {
            return Err(LogFault::Limit {
                number: Limit::Epoch.number(),
            });
        }
        if let Some(number) = self.rows.full(items.len()) {
            return Err(LogFault::Limit { number });
        }
        let epoch = self.rows.epoch() + 1;
        match self.rows.add(self.alloc, epoch, now, items) {
            Ok(()) => Ok(Elected {
                epoch,
                end: self.rows.end(),
            }),
            Err(NoMemory) => Err(LogFault::NoMemory),
        }
    }

    fn read_from(&mut self, after: i64) -> Result<Feed, LogFault> {
        match self.rows.read_from(self.alloc, after) {
            Ok(feed) => Ok(feed),
            Err(NoMemory) => Err(LogFault::NoMemory),
        }
    }

    fn reset(&mut self) -> Result<(), LogFault> {
        self.rows = self.rows.emptied(self.alloc);
        Ok(())
    }

    fn snapshot(&mut self, offset: i64) -> Result<(), LogFault> {
        match self.rows.cut(self.alloc, offset) {
            Ok(rows) => {
                self.rows = rows;
                Ok(())
            }
            Err(NoMemory) => Err(LogFault::NoMemory),
        }
    }
}
