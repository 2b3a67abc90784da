//! Reading the records of a log one after another.
ghost use Rattle.std.specs.Prelude.{◌≡◌, ◌+◌, ◌+ℤ◌, ◌≤ℤ◌, ◌∷◌, [], pos, MatchOption, IfSome};
ghost use Rattle.kz_types.specs.declared.limits.TheConstants.{MAX_LONG};
ghost use Rattle.kz_spec_data.specs.Log.{record_count};
ghost use Rattle.kz_log.specs.Reading.{entries_after, unread_entries, unread_count};

use kz_types::{BatchRow, MetaRecord};

/// A place in a log, with the records from there on.
#[derive(Clone, Copy)]
pub struct Cursor<'a> {
    /// The offset before the next record.
    pub position: i64,
    /// The epoch of the batch that is being read.
    pub epoch: i32,
    /// What is left of that batch.
    pub items: &'a [MetaRecord],
    /// The batches after it.
    pub rest: &'a [BatchRow],
}

/// A record that was read, and the place after it.
#[derive(Clone, Copy)]
pub struct Found<'a> {
    pub epoch: i32,
    pub item: &'a MetaRecord,
    pub next: Cursor<'a>,
}

/// The place before the first record after a base.
pub fn start<'a>(base: i64, batches: &'a [BatchRow]) -> Cursor<'a>
    ensures place { result.position ≡ base }
    ensures records { unread_entries result.position result.epoch result.items.now result.rest.now ≡ entries_after base batches.entry.now }
    ensures room { unread_count result.items.now result.rest.now ≡ record_count batches.entry.now }
{
    Cursor {
        position: base,
        epoch: 0,
        items: &[],
        rest: batches,
    }
}

/// Reads a record.
pub fn read<'a>(cursor: Cursor<'a>) -> Option<Found<'a>>
    requires { (cursor.position +ℤ pos (unread_count cursor.items.now cursor.rest.now)) ≤ℤ MAX_LONG }
    ensures record { MatchOption result
        (unread_entries cursor.entry.position cursor.entry.epoch cursor.entry.items.now cursor.entry.rest.now ≡ [])
        (λ r. unread_entries cursor.entry.position cursor.entry.epoch cursor.entry.items.now cursor.entry.rest.now
        ≡ record { offset = cursor.entry.position +ℤ pos 1; epoch = r.epoch; item = r.item.now } ∷ unread_entries r.next.position r.next.epoch r.next.items.now r.next.rest.now) }
    ensures place { IfSome result (λ r. r.next.position ≡ cursor.entry.position +ℤ pos 1) }
    ensures room { IfSome result (λ r. unread_count cursor.entry.items.now cursor.entry.rest.now ≡ unread_count r.next.items.now r.next.rest.now + 1) }
{
    let mut epoch = cursor.epoch;
    let mut items = cursor.items;
    let mut rest = cursor.rest;
    while items.is_empty() {
        if rest.is_empty() {
            return None;
        }
        let batch = &rest[0];
        epoch = batch.epoch;
        items = batch.items.as_slice();
        rest = &rest[1..];
    }
    Some(Found {
        epoch,
        item: &items[0],
        next: Cursor {
            position: cursor.position + 1,
            epoch,
            items: &items[1..],
            rest,
        },
    })
}
