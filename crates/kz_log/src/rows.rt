//! A log that is held whole.
ghost use Rattle.std.specs.Prelude.{◌≡◌, ◌≤◌, ◌<◌, ◌+ℤ◌, ◌≤ℤ◌, true, pos, negsuc, None, List, [], ◌∷◌, ◌++◌, length, drop, IfOk, OnOk, OnErr};
ghost use Rattle.std.specs.List.{filter};
ghost use Rattle.kz_types.specs.declared.limits.TheConstants.{MAX_LONG};
ghost use Rattle.kz_types.specs.declared.log.BatchRow.{BatchRow as BatchRowValue};
ghost use Rattle.kz_types.specs.declared.record.MetaRecord.{MetaRecord as MetaRecordValue};
ghost use Rattle.kz_spec_data.specs.Image.{empty_image};
ghost use Rattle.kz_spec_data.specs.Log.{Log, IsLog, empty_log, end_of, batch_ends, image_at, full_log, new_batch, with_batch, begins_after, feed_from, may_be_base, reset, snapshot, with_row};
ghost use Rattle.kz_log.specs.Requests.{IsFeed};
ghost use Rattle.kz_log.specs.Rows.{log_of, GoesOn, IsPushed};

use crate::base::is_open_at;
use crate::ends::{all_ends, count_of, offset_after};
use crate::pass::later_image;
use kz_image::{Feed, Image};
use kz_types::{
    BatchRow, Duplicate, Limit, MAX_LONG, MAX_RECORDS, MetaRecord, NoMemory, Sequence, copy_all,
};
use std::alloc::Global;
use std::marker::Model;

/// A log that is held whole: its epoch, its base with the metadata there, and the batches after it.
#[derive(Drop)]
pub struct LogRows {
    epoch: i32,
    base: i64,
    base_image: Image,
    count: usize,
    batches: Vec<BatchRow>,
}

impl Model for LogRows {
    ghost use Rattle.std.specs.Prelude.{◌≡◌};
    ghost use Rattle.kz_spec_data.specs.Log.{Log, IsLog, record_count};

    ghost Value = { Log };

    ghost view = { λ l. record { epoch = l.epoch; base = l.base; base_image = l.base_image; batches = l.batches.items } };

    ghost invariant = { λ l. IsLog (record { epoch = l.epoch; base = l.base; base_image = l.base_image; batches = l.batches.items }) × (l.count ≡ record_count l.batches.items) };
}

impl LogRows {
    /// The empty log, of epoch 0, whose last offset is -1.
    pub fn new(alloc: Global) -> Self
        ensures empty { result ≡ empty_log }
        ensures is_log { IsLog result }
    {
        LogRows {
            epoch: 0,
            base: -1,
            base_image: Image::new(alloc),
            count: 0,
            batches: Vec::new(alloc),
        }
    }

    /// The log of this epoch that was read whole: from its base on.
    pub fn from_feed(epoch: i32, feed: Feed) -> Self
        requires { IsLog (log_of epoch feed) }
        ensures { result ≡ log_of epoch feed }
    {
        let batches = feed.batches.into_vec();
        let count = count_of(&batches);
        let (base, base_image) = match feed.base {
            Some(base) => base,
            None => (-1, Image::new(*batches.allocator())),
        };
        LogRows {
            epoch,
            base,
            base_image,
            count,
            batches,
        }
    }

    /// What is held is a log.
    pub fn is_log(&self)
        ensures { IsLog self.now }
    {
        let _count = self.count;
    }

    /// The epoch of the controller that was elected last, or 0.
    pub fn epoch(&self) -> i32
        ensures { result ≡ self.now.epoch }
    {
        self.epoch
    }

    /// The offset up to which the log is metadata alone, or -1 where it begins with its first record.
    pub fn base(&self) -> i64
        ensures { result ≡ self.now.base }
    {
        self.base
    }

    /// The metadata at the base.
    pub fn base_image(&self) -> &Image
        ensures { result.now ≡ self.now.base_image }
    {
        &self.base_image
    }

    /// The last offset, or the base where there is no record after it.
    pub fn end(&self) -> i64
        ensures { result ≡ end_of self.now }
    {
        offset_after(self.base, self.count)
    }

    /// The batches after the base, in the order of their offsets.
    pub fn batches(&self) -> &[BatchRow]
        ensures { result.now ≡ self.now.batches }
    {
        &self.batches
    }

    /// The base and the last offset of each batch, which rise.
    pub fn batch_ends(&self, alloc: Global) -> Result<Vec<i64>, NoMemory>
        ensures { IfOk result (λ ends. ends.items ≡ batch_ends self.now) }
    {
        all_ends(alloc, self.base, &self.batches)
    }

    /// The metadata at an offset: what the records that count there make of the base image.
    pub fn image_at(&self, alloc: Global, offset: i64) -> Result<Image, NoMemory>
        ensures { IfOk result (λ image. image ≡ image_at self.now offset) }
    {
        later_image(alloc, self.base, &self.base_image, &self.batches, offset)
    }

    /// Whether the log may be cut at an offset: it is the base or the last offset of a batch, and no transaction is open there.
    pub fn may_be_base(&self, alloc: Global, offset: i64) -> Result<bool, NoMemory>
        ensures { IfOk result (λ may. may ≡ may_be_base self.now offset) }
    {
        let ends = self.batch_ends(alloc)?;
        if !ends.contains(&offset) {
            return Ok(false);
        }
        Ok(!is_open_at(self.base, &self.batches, offset))
    }

    /// The number of the limit that so many further records would pass, if any: that of `Limit::Records` where the log would
    /// have more than `MAX_RECORDS` records after its base, else that of `Limit::Long` where its last offset would be above
    /// `MAX_LONG`.
    pub fn full(&self, count: usize) -> Option<u8>
        ensures { (items : List MetaRecordValue) → length items ≡ count → result ≡ full_log self.now items }
    {
        if MAX_RECORDS < self.count.saturating_add(count) {
            Some(Limit::Records.number())
        } else if MAX_LONG - (count as i64) < self.end() {
            Some(Limit::Long.number())
        } else {
            None
        }
    }

    /// The batch of these records after the log's end.
    pub fn batch(
        &self,
        alloc: Global,
        epoch: i32,
        now: i64,
        items: &[MetaRecord],
    ) -> Result<BatchRow, NoMemory>
        requires some { 0 < length items.now }
        requires room { (end_of self.now +ℤ pos (length items.now)) ≤ℤ MAX_LONG }
        ensures { IfOk result (λ row. row ≡ new_batch self.now epoch now items.now) }
    {
        let copies = copy_all(alloc, items)?;
        Ok(BatchRow {
            first: self.end() + 1,
            epoch,
            time: now,
            items: Sequence::from_vec(copies),
        })
    }

    /// Adds a batch that follows on the log, whose epoch is the log's from then on. At `Err` the log is as it was.
    pub fn push(&mut self, row: BatchRow) -> Result<(), NoMemory>
        requires { GoesOn self.old row }
        ensures ok { OnOk result (self.new ≡ with_row self.old row) }
        ensures is_log { OnOk result (IsLog self.new) }
        ensures err { OnErr result (self.new ≡ self.old) }
    {
        let epoch = row.epoch;
        let count = row.items.len();
        let Ok(()) = self.batches.push(row) else {
            return Err(NoMemory);
        };
        self.count += count;
        self.epoch = epoch;
        Ok(())
    }

    /// Takes the last batch off again, which was added to a log of this epoch.
    pub fn pop(&mut self, epoch: i32)
        requires { IsPushed epoch self.old }
        ensures { (l : Log) (b : BatchRowValue) → l.epoch ≡ epoch → self.old ≡ with_row l b → self.new ≡ l }
    {
        if let Some(row) = self.batches.pop() {
            self.count -= row.items.len();
            self.epoch = epoch;
        }
    }

    /// Adds a batch of this epoch, which is the log's from then on. At `Err` the log is as it was.
    pub fn add(
        &mut self,
        alloc: Global,
        epoch: i32,
        now: i64,
        items: &[MetaRecord],
    ) -> Result<(), NoMemory>
        requires some { 0 < length items.now }
        requires room { full_log self.old items.now ≡ None }
        requires elected { pos 1 ≤ℤ epoch }
        requires climbs { self.old.epoch ≤ℤ epoch }
        ensures ok { OnOk result (self.new ≡ with_batch self.old epoch now items.now) }
        ensures is_log { OnOk result (IsLog self.new) }
        ensures err { OnErr result (self.new ≡ self.old) }
    {
        let row = self.batch(alloc, epoch, now, items)?;
        self.push(row)
    }

    // The place of the first batch after an offset.
    fn place_after(&self, after: i64) -> usize
        ensures low { result ≤ length self.now.batches }
        ensures place { drop result self.now.batches ≡ filter (begins_after after) self.now.batches }
    {
        let mut place = self.batches.len();
        while 0 < place {
            if self.batches[place - 1].first <= after {
                return place;
            }
            place -= 1;
        }
        0
    }

    // The base with its metadata, where an offset is below it.
    fn base_after(&self, alloc: Global, after: i64) -> Result<Option<(i64, Image)>, NoMemory>
        ensures { IfOk result (λ base. base ≡ (feed_from self.now after).base) }
    {
        if after < self.base {
            Ok(Some((self.base, self.base_image.copy(alloc)?)))
        } else {
            Ok(None)
        }
    }

    /// The batches after an offset, and, where the offset is below the base, the base with its metadata.
    pub fn read_from(&self, alloc: Global, after: i64) -> Result<Feed, NoMemory>
        ensures { IfOk result (λ feed. IsFeed (feed_from self.now after) feed) }
    {
        let base = self.base_after(alloc, after)?;
        let batches = copy_all(alloc, &self.batches[self.place_after(after)..])?;
        Ok(Feed {
            base,
            batches: Sequence::from_vec(batches),
            end: self.end(),
        })
    }

    /// The log without its batches and without a base, whose epoch stays.
    pub fn emptied(&self, alloc: Global) -> Self
        ensures reset { result ≡ reset self.now }
        ensures is_log { IsLog result }
    {
        LogRows {
            epoch: self.epoch,
            base: -1,
            base_image: Image::new(alloc),
            count: 0,
            batches: Vec::new(alloc),
        }
    }

    /// The log with this base and this metadata there, and the batches after it. The base is a batch end at which no transaction is
    /// open.
    pub fn with_base(&self, alloc: Global, base: i64, image: Image) -> Result<Self, NoMemory>
        requires may { may_be_base self.now base ≡ true }
        requires empty { base ≡ negsuc 0 → image ≡ empty_image }
        ensures base { IfOk result (λ rows. rows ≡ record self.now { base = base; base_image = image; batches = filter (begins_after base) self.now.batches }) }
        ensures is_log { IfOk result (λ rows. IsLog rows) }
    {
        let batches = copy_all(alloc, &self.batches[self.place_after(base)..])?;
        let count = count_of(&batches);
        Ok(LogRows {
            epoch: self.epoch,
            base,
            base_image: image,
            count,
            batches,
        })
    }

    /// The log that is its metadata alone up to an offset, a batch end at which no transaction is open.
    pub fn cut(&self, alloc: Global, offset: i64) -> Result<Self, NoMemory>
        requires { may_be_base self.now offset ≡ true }
        ensures cut { IfOk result (λ rows. rows ≡ snapshot self.now offset) }
        ensures is_log { IfOk result (λ rows. IsLog rows) }
    {
        self.is_log();
        let image = self.image_at(alloc, offset)?;
        self.with_base(alloc, offset, image)
    }
}
