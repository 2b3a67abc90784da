//! How many records batches have, and their last offsets.
ghost use Rattle.std.specs.Prelude.{◌≡◌, ◌^◌, ◌<◌, ◌≤ℤ◌, ◌+ℤ◌, ◌∷◌, pos, negsuc, map, IfOk};
ghost use Rattle.kz_types.specs.declared.limits.TheConstants.{MAX_LONG};
ghost use Rattle.kz_spec_data.specs.Log.{Follow, last_of, record_count};

use kz_types::{BatchRow, NoMemory};
use std::alloc::Global;

/// How many records there are.
pub fn count_of(batches: &[BatchRow]) -> usize
    requires { record_count batches.now < 2 ^ 64 }
    ensures { result ≡ record_count batches.now }
{
    let mut count = 0;
    for batch in batches {
        count += batch.items.len();
    }
    count
}

/// The last of so many offsets after a base. Where the base is -1, their count may be one more than an `i64` holds.
pub fn offset_after(base: i64, count: usize) -> i64
    requires base { negsuc 0 ≤ℤ base }
    requires end { (base +ℤ pos count) ≤ℤ MAX_LONG }
    ensures { result ≡ base +ℤ pos count }
{
    if count == 0 {
        base
    } else {
        (base + 1) + (count - 1) as i64
    }
}

/// A base, and the last offset of each batch after it.
pub fn all_ends(alloc: Global, base: i64, batches: &[BatchRow]) -> Result<Vec<i64>, NoMemory>
    requires base { negsuc 0 ≤ℤ base }
    requires follow { Follow base batches.now }
    requires end { (base +ℤ pos (record_count batches.now)) ≤ℤ MAX_LONG }
    ensures { IfOk result (λ ends. ends.items ≡ base ∷ map last_of batches.now) }
{
    let mut ends = Vec::new(alloc);
    ends.push(base)?;
    let mut count = 0;
    for batch in batches {
        count += batch.items.len();
        ends.push(offset_after(base, count))?;
    }
    Ok(ends)
}
