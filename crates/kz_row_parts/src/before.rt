//! The order of two paths.
ghost use Rattle.std.specs.Prelude.{◌≡◌, true, false};
ghost use Rattle.std.specs.Ordering.{match_ordering};
ghost use Rattle.kz_types.specs.Order.{bytes_cmp};

use kz_order::compare;
use std::cmp::Ordering;

/// Whether a path comes before another.
pub fn is_before(path: &[u8], other: &[u8]) -> bool
    ensures { result ≡ match_ordering (bytes_cmp path.now other.now) true false false }
{
    match compare(path, other) {
        Ordering::Less => true,
        Ordering::Equal => false,
        Ordering::Greater => false,
    }
}
