//! What the counts become where only some znodes change.
ghost use Rattle.std.specs.Prelude.{◌≡◌, IfOk, IfSome};
ghost use Rattle.kz_spec_data.specs.Rendering.{render};
ghost use Rattle.kz_spec_data.specs.Spans.{CoverDifference};
ghost use Rattle.kz_counted_view.specs.Counting.{counts_of, sum_of};

use crate::counts::{Counts, counts_of, sum_of};
use kz_delta::Touched;
use kz_image::Image;
use kz_types::{NoMemory, Rendered};
use kz_writer::{ImageBodies, renderings_differ_at_paths, spanned_in_order, znodes_at};
use std::alloc::Global;

// What is left of counts without those of a part.
fn rest_of(counts: Counts, part: Counts) -> Option<Counts>
    ensures { IfSome result (λ rest. sum_of rest part ≡ counts) }
{
    Some(Counts {
        long: counts.long.checked_sub(part.long)?,
        znodes: counts.znodes.checked_sub(part.znodes)?,
        bytes: counts.bytes.checked_sub(part.bytes)?,
    })
}

// The counts with those of some znodes instead of those of others.
fn counts_with(counts: Counts, others: &[Rendered], some: &[Rendered]) -> Option<Counts>
    ensures { IfSome result (λ made. sum_of made (counts_of others.now) ≡ sum_of counts (counts_of some.now)) }
{
    let all = sum_of(counts, counts_of(some)?)?;
    rest_of(all, counts_of(others)?)
}

/// The counts of the znodes that stand for metadata, from those of earlier metadata and the keys that cover their difference: only the
/// znodes are rendered whose paths the keys span. None where a `usize` can't hold one of the counts. `NoMemory` is the only error.
pub fn counts_after(
    alloc: Global,
    counts: Counts,
    old: &Image,
    new: &Image,
    keys: &Touched,
) -> Result<Option<Counts>, NoMemory>
    requires counts { counts ≡ counts_of (render old.now) }
    requires covers { CoverDifference keys.now (render old.now) (render new.now) }
    ensures { IfOk result (λ made. IfSome made (λ counts. counts ≡ counts_of (render new.now))) }
{
    renderings_differ_at_paths(old, new);
    let paths = spanned_in_order(alloc, keys.keys())?;
    let mut before = ImageBodies::new(alloc, old);
    let had = znodes_at(alloc, &mut before, &paths)?;
    let mut after = ImageBodies::new(alloc, new);
    let has = znodes_at(alloc, &mut after, &paths)?;
    Ok(counts_with(counts, &had, &has))
}
