//! The keys that a feed touches.
ghost use Rattle.std.specs.Prelude.{◌≡◌, IfOk};
ghost use Rattle.kz_spec_data.specs.Touched.{keys_of_feed, touched_keys, AreTouched};
ghost use Rattle.kz_delta.specs.Feeds.{feed_of};
ghost use Rattle.kz_delta.specs.Placed.{AreLegalOnes};

use crate::placed::legal_keys_in_order;
use crate::records::{push_keys_of_batches, push_touched_keys};
use crate::touched_keys::Touched;
use crate::whole::push_keys_of_image;
use kz_image::{Feed, Image};
use kz_types::{EntityKey, MetaRecord, NoMemory};
use std::alloc::Global;

// The keys of which a feed speaks.
fn keys_of_feed(
    alloc: Global,
    old: &Image,
    feed: &Feed,
    new: &Image,
) -> Result<Vec<EntityKey>, NoMemory>
    ensures { IfOk result (λ keys. keys.items ≡ keys_of_feed old.now (feed_of feed.now) new.now) }
{
    let mut keys = Vec::new(alloc);
    if feed.base.is_some() {
        push_keys_of_image(alloc, &mut keys, old)?;
        push_keys_of_image(alloc, &mut keys, new)?;
    } else {
        push_keys_of_batches(alloc, &mut keys, old, new, feed.batches.as_slice())?;
    }
    Ok(keys)
}

/// The keys that a feed touches which leads from one metadata to another: those that its records speak of, and those that go with a topic
/// that is made or removed. Where the feed has a base, they are all keys of either metadata. `NoMemory` is the only error.
pub fn touched(alloc: Global, old: &Image, feed: &Feed, new: &Image) -> Result<Touched, NoMemory>
    ensures { IfOk result (λ touched. AreTouched old.now (feed_of feed.now) new.now touched) }
{
    let spoken_of = keys_of_feed(alloc, old, feed, new)?;
    let keys = legal_keys_in_order(alloc, spoken_of)?;
    Ok(Touched { keys })
}

/// The keys that records touch which lead from one metadata to another, as [`touched`] has them for a feed of these records. `NoMemory` is
/// the only error.
pub fn touched_by(
    alloc: Global,
    old: &Image,
    records: &[MetaRecord],
    new: &Image,
) -> Result<Touched, NoMemory>
    ensures { IfOk result (λ touched. AreLegalOnes (touched_keys old.now new.now records.now) touched) }
{
    let mut spoken_of = Vec::new(alloc);
    push_touched_keys(alloc, &mut spoken_of, old, new, records)?;
    let keys = legal_keys_in_order(alloc, spoken_of)?;
    Ok(Touched { keys })
}
