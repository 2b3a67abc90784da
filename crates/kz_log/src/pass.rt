//! The metadata at an offset, in one pass over the records.
ghost use Rattle.std.specs.Prelude.{◌≡◌, ◌+ℤ◌, ◌≤ℤ◌, ◌∷◌, false, true, int_le, pos, is_some, IfOk, List};
ghost use Rattle.kz_types.specs.declared.limits.TheConstants.{MAX_LONG};
ghost use Rattle.kz_types.specs.declared.log.Entry.{Entry};
ghost use Rattle.kz_spec_data.specs.Log.{record_count};
ghost use Rattle.kz_settle.specs.Settling.{is_open_after, ends_by};
ghost use Rattle.kz_log.specs.Reading.{entries_after, unread_entries, unread_count, Knows, image_after};

use crate::cursor::{Cursor, read, start};
use kz_image::Image;
use kz_settle::{closes, is_begin, is_end};
use kz_types::{BatchRow, Duplicate, MetaRecord, NoMemory};
use std::alloc::Global;

// Whether the open transaction ends at or before an offset.
fn ends(cursor: Cursor<'_>, at: i64) -> bool
    requires { (cursor.position +ℤ pos (unread_count cursor.items.now cursor.rest.now)) ≤ℤ MAX_LONG }
    ensures { result ≡ ends_by at (unread_entries cursor.entry.position cursor.entry.epoch cursor.entry.items.now cursor.entry.rest.now) }
{
    let mut here = cursor;
    while here.position < at {
        match read(here) {
            None => return false,
            Some(r) => {
                if closes(r.item) {
                    return is_end(r.item);
                }
                here = r.next;
            }
        }
    }
    false
}

// Takes in a record where it counts. What is known of the open transaction, before the record and then after it: that
// there is none, or whether it ends at or before the offset.
fn take(
    image: &mut Image,
    known: Option<bool>,
    epoch: i32,
    item: &MetaRecord,
    next: Cursor<'_>,
    at: i64,
) -> Result<Option<bool>, NoMemory>
    requires { (next.position +ℤ pos (unread_count next.items.now next.rest.now)) ≤ℤ MAX_LONG }
    ensures { IfOk result (λ then. (es : List Entry) (e : Entry) → es ≡ unread_entries next.entry.position next.entry.epoch next.entry.items.now next.entry.rest.now
        → e.epoch ≡ epoch → e.item ≡ item.now → int_le e.offset at ≡ true → Knows at known (e ∷ es)
        → Knows at then es × (is_some then ≡ is_open_after (is_some known) e.item) × (image_after at (is_some known) (e ∷ es) image.old ≡ image_after at (is_some then) es image.new)) }
{
    if is_begin(item) {
        match known {
            None => Ok(Some(ends(next, at))),
            Some(ends) => Ok(Some(ends)),
        }
    } else if closes(item) {
        Ok(None)
    } else {
        match known {
            Some(false) => {}
            _ => image.apply(epoch, item)?,
        }
        Ok(known)
    }
}

/// What the records after a base make of the metadata there, of those that count at an offset.
pub fn later_image(
    alloc: Global,
    base: i64,
    image: &Image,
    batches: &[BatchRow],
    at: i64,
) -> Result<Image, NoMemory>
    requires { (base +ℤ pos (record_count batches.now)) ≤ℤ MAX_LONG }
    ensures { IfOk result (λ made. made ≡ image_after at false (entries_after base batches.now) image.now) }
{
    let mut made = image.copy(alloc)?;
    let mut known = None;
    let mut here = start(base, batches);
    while here.position < at {
        match read(here) {
            None => return Ok(made),
            Some(r) => {
                here = r.next;
                known = take(&mut made, known, r.epoch, r.item, r.next, at)?;
            }
        }
    }
    Ok(made)
}
