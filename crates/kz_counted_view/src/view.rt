//! A view of a log with the counts of its rendering.
ghost use Rattle.std.specs.Prelude.{◌≡◌, IfOk, OnOk, OnErr};
ghost use Rattle.kz_spec_data.specs.Image.{all_applied};
ghost use Rattle.kz_spec_data.specs.Log.{new_view};
ghost use Rattle.kz_view_delta.specs.Reads.{IsReadAfter, WasRead, Makes};
ghost use Rattle.kz_counted_view.specs.Known.{AreCountsOf};

use crate::counted_image::CountedImage;
use crate::{Counts, counts_after, counts_of};
use kz_image::{Feed, Image};
use kz_log::View;
use kz_render::render;
use kz_types::{Duplicate, MetaRecord, NoMemory};
use kz_view_delta::{keys_between, keys_of_applied, view_after};
use std::alloc::Global;
use std::marker::Model;

/// A view of a log. It keeps with it, once they were asked for, the counts of its rendering on which the limits depend, so that a change
/// is judged by the znodes that it touches. Contracts see the view.
#[derive(Drop)]
pub struct CountedView {
    alloc: Global,
    view: View,
    counts: Option<Counts>,
}

impl Model for CountedView {
    ghost use Rattle.kz_spec_data.specs.Log.{View as ViewValue};
    ghost use Rattle.kz_counted_view.specs.Known.{AreCountsOf};

    ghost Value = { ViewValue };

    ghost view = { λ v. v.view };

    ghost invariant = { λ v. AreCountsOf v.view.image v.counts };
}

// The counts of the rendering of metadata, of which all znodes are rendered.
fn whole_counts(alloc: Global, image: &Image) -> Result<Option<Counts>, NoMemory>
    ensures { IfOk result (AreCountsOf image.now) }
{
    let znodes = render(alloc, image)?;
    Ok(counts_of(&znodes))
}

// The counts after what was read, where they are known before it and the keys that it touches are.
fn counts_of_read(
    alloc: Global,
    counts: Option<Counts>,
    before: &View,
    feed: &Feed,
    after: &View,
) -> Result<Option<Counts>, NoMemory>
    requires read { WasRead before.now feed.now after.now }
    requires counts { AreCountsOf before.now.image counts }
    ensures { IfOk result (AreCountsOf after.now.image) }
{
    let Some(counts) = counts else {
        return Ok(None);
    };
    match keys_between(alloc, before, feed, after)? {
        Some(keys) => counts_after(alloc, counts, before.image(), after.image(), &keys),
        None => Ok(None),
    }
}

// The counts after records that are applied, where they are known before them.
fn counts_of_change(
    alloc: Global,
    counts: Option<Counts>,
    epoch: i32,
    before: &Image,
    records: &[MetaRecord],
    after: &Image,
) -> Result<Option<Counts>, NoMemory>
    requires counts { AreCountsOf before.now counts }
    requires applied { after.now ≡ all_applied epoch records.now before.now }
    ensures { IfOk result (AreCountsOf after.now) }
{
    let Some(counts) = counts else {
        return Ok(None);
    };
    let keys = keys_of_applied(alloc, before, records, after)?;
    counts_after(alloc, counts, before, after, &keys)
}

impl CountedView {
    /// The view that knows nothing of a log. The view keeps this allocator.
    pub fn new(alloc: Global) -> CountedView
        ensures { result ≡ new_view }
    {
        CountedView {
            alloc,
            view: View::new(alloc),
            counts: None,
        }
    }

    /// Lends the view.
    pub fn view(&self) -> &View
        ensures { result.now ≡ self.now }
    {
        &self.view
    }

    /// Lends the metadata at the position.
    pub fn image(&self) -> &Image
        ensures { result.now ≡ self.now.image }
    {
        self.view.image()
    }

    /// The offset of the Begin of the transaction that is open at the position, if one is.
    pub fn begun(&self) -> Option<i64>
        ensures { result ≡ self.now.begun }
    {
        self.view.begun()
    }

    // Takes what was read where the counts before it are known, so that they are known after it, too, if the keys that it touches are.
    fn take_counted(&mut self, feed: &Feed) -> Result<(), NoMemory>
        requires { IsReadAfter self.old feed.now }
        ensures made { OnOk result (Makes self.old feed.now self.new) }
        ensures err { OnErr result (self.new ≡ self.old) }
    {
        let made = view_after(self.alloc, &self.view, feed)?;
        self.counts = counts_of_read(self.alloc, self.counts, &self.view, feed, &made)?;
        self.view = made;
        Ok(())
    }

    /// Takes what was read of a log after the view. At `Err` memory ran out, and the view is as it was.
    pub fn take(&mut self, feed: Feed) -> Result<(), NoMemory>
        requires { IsReadAfter self.old feed }
        ensures made { OnOk result (Makes self.old feed self.new) }
        ensures err { OnErr result (self.new ≡ self.old) }
    {
        if self.view.is_at_end_of(&feed) {
            return Ok(());
        }
        if self.counts.is_some() {
            return self.take_counted(&feed);
        }
        self.view.advance(feed)
    }

    // Counts the znodes of the rendering, where that wasn't done.
    fn count(&mut self) -> Result<(), NoMemory>
        ensures { self.new ≡ self.old }
    {
        if self.counts.is_none() {
            self.counts = whole_counts(self.alloc, self.view.image())?;
        }
        Ok(())
    }

    /// The metadata after records that are applied in a log of this epoch, with the counts of its rendering. Only the znodes are
    /// rendered that the records touch; all are at the first call, and after a read whose touched keys aren't known. `NoMemory`
    /// is the only error.
    pub fn after(&mut self, epoch: i32, records: &[MetaRecord]) -> Result<CountedImage, NoMemory>
        ensures after { IfOk result (λ made. made ≡ all_applied epoch records.now self.old.image) }
        ensures same { self.new ≡ self.old }
    {
        self.count()?;
        let mut after = self.view.image().copy(self.alloc)?;
        after.apply_all(epoch, records)?;
        let counts = counts_of_change(
            self.alloc,
            self.counts,
            epoch,
            self.view.image(),
            records,
            &after,
        )?;
        Ok(CountedImage::new(self.alloc, after, counts))
    }

    /// Puts in place what a batch leads to that was appended after the position, all of whose records count: its last offset,
    /// its epoch, and the metadata there.
    pub fn put_appended(&mut self, position: i64, epoch: i32, made: CountedImage)
        ensures { self.new ≡ record self.old { position = position; epoch = epoch; image = made } }
    {
        let (image, counts) = made.into_parts();
        self.view.put_appended(position, epoch, image);
        self.counts = counts;
    }
}
