//! The keys that are touched between two metadata.
ghost use Rattle.std.specs.Prelude.{◌≡◌, not, is_some, IfOk, IfSome};
ghost use Rattle.kz_spec_data.specs.Rendering.{render};
ghost use Rattle.kz_spec_data.specs.Spans.{CoverDifference};
ghost use Rattle.kz_spec_data.specs.Touched.{Lead, Leads};
ghost use Rattle.kz_delta.specs.Feeds.{feed_of};
ghost use Rattle.kz_view_delta.specs.Reads.{WasRead};

use kz_delta::{Touched, touched, touched_by};
use kz_image::{Feed, Image};
use kz_log::View;
use kz_types::{MetaRecord, NoMemory};
use std::alloc::Global;

// The keys that a feed touches which leads from one metadata to another.
fn keys_of_feed(
    alloc: Global,
    before: &Image,
    feed: &Feed,
    after: &Image,
) -> Result<Touched, NoMemory>
    requires { Leads before.now (feed_of feed.now) after.now }
    ensures { IfOk result (λ keys. CoverDifference keys (render before.now) (render after.now)) }
{
    before.is_held();
    after.is_held();
    touched(alloc, before, feed, after)
}

/// The keys that what was read after a view touches: they span each path at which the znodes of the metadata of the two views differ.
/// Where it has a base, they are all keys of either metadata. None exactly where the view knows of an open transaction, since the records of
/// that may begin to count. `NoMemory` is the only error.
pub fn keys_between(
    alloc: Global,
    before: &View,
    feed: &Feed,
    after: &View,
) -> Result<Option<Touched>, NoMemory>
    requires { WasRead before.now feed.now after.now }
    ensures cover { IfOk result (λ keys. IfSome keys (λ ks. CoverDifference ks (render before.now.image) (render after.now.image))) }
    ensures some { IfOk result (λ keys. is_some keys ≡ not (is_some before.now.begun)) }
{
    if before.begun().is_some() {
        return Ok(None);
    }
    let keys = keys_of_feed(alloc, before.image(), feed, after.image())?;
    Ok(Some(keys))
}

/// The keys that records touch which are taken in or passed over: they span each path at which the znodes of the metadata before and after
/// them differ. `NoMemory` is the only error.
pub fn keys_of_applied(
    alloc: Global,
    before: &Image,
    records: &[MetaRecord],
    after: &Image,
) -> Result<Touched, NoMemory>
    requires { Lead before.now records.now after.now }
    ensures { IfOk result (λ keys. CoverDifference keys (render before.now) (render after.now)) }
{
    before.is_held();
    after.is_held();
    touched_by(alloc, before, records, after)
}
