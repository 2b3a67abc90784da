//! Where a log may be cut.
ghost use Rattle.std.specs.Prelude.{◌≡◌, ◌+ℤ◌, ◌≤ℤ◌, false, pos};
ghost use Rattle.kz_types.specs.declared.limits.TheConstants.{MAX_LONG};
ghost use Rattle.kz_spec_data.specs.Log.{record_count};
ghost use Rattle.kz_settle.specs.Settling.{is_open_after};
ghost use Rattle.kz_log.specs.Reading.{entries_after, is_open_by};

use crate::cursor::{read, start};
use kz_settle::{closes, is_begin};
use kz_types::{BatchRow, MetaRecord};

// Whether a transaction is open after a record, where one is open before it or not.
fn is_open_after(inside: bool, item: &MetaRecord) -> bool
    ensures { result ≡ is_open_after inside item.now }
{
    if is_begin(item) {
        true
    } else if closes(item) {
        false
    } else {
        inside
    }
}

/// Whether a transaction is open at an offset, in one pass over the records after a base.
pub fn is_open_at(base: i64, batches: &[BatchRow], at: i64) -> bool
    requires { (base +ℤ pos (record_count batches.now)) ≤ℤ MAX_LONG }
    ensures { result ≡ is_open_by at false (entries_after base batches.now) }
{
    let mut inside = false;
    let mut here = start(base, batches);
    while here.position < at {
        match read(here) {
            None => return inside,
            Some(r) => {
                here = r.next;
                inside = is_open_after(inside, r.item);
            }
        }
    }
    inside
}
