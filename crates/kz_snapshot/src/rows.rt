//! The batches of a snapshot.
ghost use Rattle.std.specs.Prelude.{◌≡◌, ◌≤◌, ◌<◌, ◌+◌, ◌^◌, ◌++◌, ◌∷◌, [], pos, length, List, IfOk};
ghost use Rattle.kz_types.specs.declared.log.EpochRecord.{EpochRecord as EpochRecordValue};
ghost use Rattle.kz_spec_data.specs.SnapshotBatches.{batches_from, snapshot_batches};
ghost use Rattle.kz_snapshot.specs.Filling.{batch_at, joins, filled_or_none};

use crate::metadata::records;
use kz_image::Image;
use kz_types::{BatchRow, EpochRecord, MetaRecord, NoMemory, Sequence};
use std::alloc::Global;

/// Batches that are whole, and the one that takes the next records: its first offset, its epoch and its records.
#[derive(Drop)]
pub struct Filling {
    rows: Vec<BatchRow>,
    first: usize,
    epoch: i32,
    items: Vec<MetaRecord>,
}

// A batch of these records, of the time 0.
fn row_at(first: usize, epoch: i32, items: Vec<MetaRecord>) -> BatchRow
    requires { first < 2 ^ 63 }
    ensures { result ≡ batch_at (pos first) epoch items.items }
{
    BatchRow {
        first: first as i64,
        epoch,
        time: 0,
        items: Sequence::from_vec(items),
    }
}

// Whether a record of the next epoch goes into the batch of this epoch and these records.
fn joins(items: &[MetaRecord], epoch: i32, next: i32) -> bool
    ensures { result ≡ joins items.now epoch next }
{
    items.is_empty() || next == epoch
}

// Takes the next record: into the batch that takes records, where it is in that batch's epoch, and else into one of its own.
fn with_next(alloc: Global, filling: Filling, next: EpochRecord) -> Result<Filling, NoMemory>
    requires { filling.first + length filling.items.items < 2 ^ 63 }
    ensures rows { IfOk result (λ made. (left : List EpochRecordValue)
        → made.rows.items ++ filled_or_none (pos made.first) made.epoch made.items.items left
        ≡ filling.rows.items ++ filled_or_none (pos filling.first) filling.epoch filling.items.items (next ∷ left)) }
    ensures count { IfOk result (λ made. made.first + length made.items.items ≡ filling.first + length filling.items.items + 1) }
{
    let Filling {
        mut rows,
        first,
        epoch,
        mut items,
    } = filling;
    let EpochRecord {
        epoch: next_epoch,
        item,
    } = next;
    if joins(&items, epoch, next_epoch) {
        items.push(item)?;
        return Ok(Filling {
            rows,
            first,
            epoch: next_epoch,
            items,
        });
    }
    let next_first = first + items.len();
    rows.push(row_at(first, epoch, items))?;
    let mut next_items = Vec::new(alloc);
    next_items.push(item)?;
    Ok(Filling {
        rows,
        first: next_first,
        epoch: next_epoch,
        items: next_items,
    })
}

// The batches, with the one that took records where it has one.
fn whole(filling: Filling) -> Result<Vec<BatchRow>, NoMemory>
    requires { filling.first < 2 ^ 63 }
    ensures { IfOk result (λ rows. rows.items ≡ filling.rows.items ++ filled_or_none (pos filling.first) filling.epoch filling.items.items []) }
{
    let Filling {
        mut rows,
        first,
        epoch,
        items,
    } = filling;
    if !items.is_empty() {
        rows.push(row_at(first, epoch, items))?;
    }
    Ok(rows)
}

// Records as batches from offset 0 on.
fn batches_of(alloc: Global, records: Vec<EpochRecord>) -> Result<Vec<BatchRow>, NoMemory>
    ensures { IfOk result (λ rows. rows.items ≡ batches_from (pos 0) records.items) }
{
    let mut filling = Filling {
        rows: Vec::new(alloc),
        first: 0,
        epoch: 0,
        items: Vec::new(alloc),
    };
    for next in records {
        filling = with_next(alloc, filling, next)?;
    }
    whole(filling)
}

/// The batches of a snapshot of the metadata in this epoch. They have the time 0, the first begins at offset 0, and one ends
/// exactly where the next record has another epoch.
pub fn to_rows(alloc: Global, image: &Image, epoch: i32) -> Result<Vec<BatchRow>, NoMemory>
    ensures { IfOk result (λ rows. rows.items ≡ snapshot_batches epoch image.now) }
{
    let left = records(alloc, image, epoch)?;
    batches_of(alloc, left)
}
