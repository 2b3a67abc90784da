//! Counts of znodes.
ghost use Rattle.std.specs.Prelude.{◌≡◌, ◌∷◌, [], IfSome};
ghost use Rattle.kz_counted_view.specs.Counting.{counts_of, sum_of};

use kz_types::{MAX_BODY_BYTES, Rendered};

/// The counts of znodes on which the limits of a rendering depend.
#[derive(Clone, Copy, Debug, PartialEq, Eq)]
pub struct Counts {
    /// How many of them have more bytes of data than one may have.
    pub long: usize,
    /// How many there are.
    pub znodes: usize,
    /// How many bytes of data all of them have.
    pub bytes: usize,
}

// The counts of one znode.
fn counts_of_one(znode: &Rendered) -> Counts
    ensures { result ≡ counts_of (znode.now ∷ []) }
{
    let bytes = znode.body.len();
    Counts {
        long: if bytes > MAX_BODY_BYTES { 1 } else { 0 },
        znodes: 1,
        bytes,
    }
}

/// The counts of two lists of znodes together, or none where a `usize` can't hold one of them.
pub(crate) fn sum_of(some: Counts, others: Counts) -> Option<Counts>
    ensures { IfSome result (λ counts. counts ≡ sum_of some others) }
{
    Some(Counts {
        long: some.long.checked_add(others.long)?,
        znodes: some.znodes.checked_add(others.znodes)?,
        bytes: some.bytes.checked_add(others.bytes)?,
    })
}

/// The counts of these znodes, or none where a `usize` can't hold one of them.
pub fn counts_of(znodes: &[Rendered]) -> Option<Counts>
    ensures { IfSome result (λ counts. counts ≡ counts_of znodes.now) }
{
    let mut counts = Counts {
        long: 0,
        znodes: 0,
        bytes: 0,
    };
    for znode in znodes {
        counts = sum_of(counts, counts_of_one(znode))?;
    }
    Some(counts)
}
