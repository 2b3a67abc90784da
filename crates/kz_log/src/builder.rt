//! Building the view that a feed leads to.
ghost use Rattle.std.specs.Prelude.{◌≡◌, ◌≤ℤ◌, ◌+ℤ◌, pos, [], ◌∷◌, ◌++◌, OnOk};
ghost use Rattle.kz_types.specs.declared.limits.TheConstants.{MAX_LONG};
ghost use Rattle.kz_spec_data.specs.Image.{image_with};
ghost use Rattle.kz_spec_data.specs.Log.{Follow, all_entries_applied, entries, entries_of_batch, last_of, last_end, last_epoch};
ghost use Rattle.kz_settle.specs.Stands.{LeavesNone, entries_of_answer};
ghost use Rattle.kz_log.specs.Building.{Building, IsBuiltFrom};

use kz_image::Image;
use kz_settle::{Settled, Settler};
use kz_types::{BatchRow, Entry, MetaRecord, NoMemory};
use std::marker::Model;

/// A view that is being built: the last offset that was taken and the epoch of its batch, the metadata, and the settler.
#[derive(Drop)]
pub struct Builder {
    pub position: i64,
    pub epoch: i32,
    pub image: Image,
    pub settler: Settler,
}

impl Model for Builder {
    ghost Value = { Building };

    ghost view = { λ b. record { position = b.position; epoch = b.epoch; image = b.image; settling = b.settler } };
}

// The offset after this one.
fn next(offset: i64) -> i64
    requires { (offset +ℤ pos 1) ≤ℤ MAX_LONG }
    ensures { result ≡ offset +ℤ pos 1 }
{
    offset + 1
}

// Lets an entry go.
fn forget(_e: Entry) {}

impl Builder {
    fn apply(&mut self, e: &Entry) -> Result<(), NoMemory>
        ensures { OnOk result (self.new ≡ record self.old { image = image_with e.now.epoch e.now.item self.old.image }) }
    {
        self.image.apply(e.epoch, &e.item)
    }

    // Applies what was released.
    fn apply_released(&mut self) -> Result<(), NoMemory>
        ensures { OnOk result (self.new ≡ record self.old { image = all_entries_applied self.old.settling.released self.old.image; settling = record self.old.settling { released = [] } }) }
    {
        while let Some(e) = self.settler.pop() {
            self.image.apply(e.epoch, &e.item)?;
        }
        Ok(())
    }

    // Applies what an answer of the settler makes count.
    fn apply_settled(&mut self, settled: Settled) -> Result<(), NoMemory>
        requires { LeavesNone settled self.old.settling }
        ensures { OnOk result (self.new ≡ record self.old { image = all_entries_applied (entries_of_answer settled ++ self.old.settling.released) self.old.image; settling = record self.old.settling { released = [] } }) }
    {
        match settled {
            Settled::Now(e) => {
                let made = self.apply(&e);
                forget(e);
                made
            }
            Settled::Released => self.apply_released(),
            Settled::Kept => Ok(()),
            Settled::Dropped => Ok(()),
        }
    }

    // Pushes the next entry, and applies what it makes count.
    fn push(&mut self, e: Entry) -> Result<(), NoMemory>
        requires { self.old.settling.released ≡ [] }
        ensures { OnOk result (IsBuiltFrom (e ∷ []) self.old.position self.old.epoch self.old self.new) }
    {
        let settled = self.settler.push(e)?;
        self.apply_settled(settled)
    }

    fn set_position(&mut self, position: i64)
        ensures { self.new ≡ record self.old { position = position } }
    {
        self.position = position;
    }

    fn set_epoch(&mut self, epoch: i32)
        ensures { self.new ≡ record self.old { epoch = epoch } }
    {
        self.epoch = epoch;
    }

    // Takes the next record of a batch of this epoch.
    fn take(&mut self, epoch: i32, item: MetaRecord) -> Result<(), NoMemory>
        requires popped { self.old.settling.released ≡ [] }
        requires fits { (self.old.position +ℤ pos 1) ≤ℤ MAX_LONG }
        ensures { OnOk result (IsBuiltFrom (record { offset = self.old.position +ℤ pos 1; epoch = epoch; item = item } ∷ []) (self.old.position +ℤ pos 1) self.old.epoch self.old self.new) }
    {
        let offset = next(self.position);
        self.push(Entry {
            offset,
            epoch,
            item,
        })?;
        self.set_position(offset);
        Ok(())
    }

    // Takes a batch that begins after the position.
    fn take_batch(&mut self, batch: BatchRow) -> Result<(), NoMemory>
        requires popped { self.old.settling.released ≡ [] }
        requires first { batch.first ≡ self.old.position +ℤ pos 1 }
        requires fits { last_of batch ≤ℤ MAX_LONG }
        ensures { OnOk result (IsBuiltFrom (entries_of_batch batch) (last_of batch) batch.epoch self.old self.new) }
    {
        let epoch = batch.epoch;
        self.set_epoch(epoch);
        for item in batch.items.into_vec() {
            self.take(epoch, item)?;
        }
        Ok(())
    }

    /// Takes batches that follow each other from the position on.
    pub fn take_all(&mut self, batches: Vec<BatchRow>) -> Result<(), NoMemory>
        requires popped { self.old.settling.released ≡ [] }
        requires follow { Follow self.old.position batches.items }
        requires fits { last_end self.old.position batches.items ≤ℤ MAX_LONG }
        ensures { OnOk result (IsBuiltFrom (entries batches.items) (last_end self.old.position batches.items) (last_epoch self.old.epoch batches.items) self.old self.new) }
    {
        for batch in batches {
            self.take_batch(batch)?;
        }
        Ok(())
    }
}
