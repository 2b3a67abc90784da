//! Batches of a metadata log.
use crate::{Duplicate, MetaRecord, NoMemory, Sequence};
use std::alloc::Global;

/// A batch: its records have the offsets from `first` on.
#[derive(Drop)]
pub struct BatchRow {
    pub first: i64,
    /// The epoch of the controller that wrote it.
    pub epoch: i32,
    /// The time that its writer gave it.
    pub time: i64,
    pub items: Sequence<MetaRecord>,
}

impl Duplicate for BatchRow {
    fn copy(&self, alloc: Global) -> Result<Self, NoMemory> {
        Ok(BatchRow {
            first: self.first,
            epoch: self.epoch,
            time: self.time,
            items: self.items.copy(alloc)?,
        })
    }
}

/// A record of the log with its offset and the epoch of its batch.
#[derive(Drop)]
pub struct Entry {
    pub offset: i64,
    pub epoch: i32,
    pub item: MetaRecord,
}

/// A record of a snapshot, and the epoch of its batch.
#[derive(Drop)]
pub struct EpochRecord {
    pub epoch: i32,
    pub item: MetaRecord,
}
