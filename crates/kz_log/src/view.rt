//! What a controller knows of a log.
ghost use Rattle.std.specs.Prelude.{◌≡◌, true, [], OnOk, OnErr, IfOk};
ghost use Rattle.kz_spec_data.specs.Log.{Log, new_view, IsLog, IsAt, IsViewOf, entries, log_with_feed, feed_from, last_epoch, read_view};
ghost use Rattle.kz_log.specs.Building.{building_from, view_of, IsBuiltFrom};
ghost use Rattle.kz_log.specs.Requests.{IsFeed};
ghost use Rattle.kz_log.specs.Views.{Fits, GoesOn, known_epoch};

use crate::builder::Builder;
use kz_image::{Feed, Image};
use kz_settle::Settler;
use kz_types::{Duplicate, NoMemory};
use std::alloc::Global;
use std::marker::Model;

// The epoch that is known before the batches of a feed.
fn epoch_before(feed: &Feed, epoch: i32) -> i32
    ensures { result ≡ known_epoch feed.now.base epoch }
{
    match &feed.base {
        Some(_) => 0,
        None => epoch,
    }
}

// The epoch of the last batch of a feed, or, where it has none, what is known before them.
fn epoch_after(feed: &Feed, epoch: i32) -> i32
    ensures { result ≡ last_epoch (known_epoch feed.now.base epoch) feed.now.batches }
{
    match feed.batches.as_slice() {
        [] => epoch_before(feed, epoch),
        [.., batch] => batch.epoch,
    }
}

/// What a controller knows of a log: up to which offset, the epoch of the last batch that it took, the metadata there, and,
/// where a transaction is open there, the offset of its Begin and its records.
pub struct View {
    alloc: Global,
    position: i64,
    epoch: i32,
    image: Image,
    settler: Settler,
}

// Written out, so that it is proved here once: a derived one is proved in each crate that holds a view.
impl Drop for View {
    fn drop(self) {
        let View {
            alloc: _,
            position: _,
            epoch: _,
            image: _image,
            settler: _settler,
        } = self;
    }
}

impl Model for View {
    ghost use Rattle.std.specs.Prelude.{◌≡◌, []};
    ghost use Rattle.kz_spec_data.specs.Log.{View as ViewValue};

    ghost Value = { ViewValue };

    ghost view = { λ v. record { position = v.position; epoch = v.epoch; image = v.image; begun = v.settler.begun; kept = v.settler.kept } };

    ghost invariant = { λ v. v.settler.released ≡ [] };
}

impl View {
    /// Nothing is known: position -1, epoch 0, and the empty metadata.
    pub fn new(alloc: Global) -> Self
        ensures { result ≡ new_view }
    {
        View {
            alloc,
            position: -1,
            epoch: 0,
            image: Image::new(alloc),
            settler: Settler::new(alloc),
        }
    }

    /// The last offset that was read, or -1.
    pub fn position(&self) -> i64
        ensures { result ≡ self.now.position }
    {
        self.position
    }

    /// The epoch of the last batch that was read, or 0.
    pub fn epoch(&self) -> i32
        ensures { result ≡ self.now.epoch }
    {
        self.epoch
    }

    /// Lends the metadata at the position.
    pub fn image(&self) -> &Image
        ensures { result.now ≡ self.now.image }
    {
        &self.image
    }

    /// The offset of the Begin of the transaction that is open at the position, if one is.
    pub fn begun(&self) -> Option<i64>
        ensures { result ≡ self.now.begun }
    {
        self.settler.begun()
    }

    /// Whether what was read of a log after the view is nothing: then the view is at the log's end.
    pub fn is_at_end_of(&self, feed: &Feed) -> bool
        ensures { result ≡ true → (l : Log) → IsLog l → IsViewOf l self.now → IsFeed (feed_from l self.now.position) feed.now → self.now ≡ read_view l self.now }
    {
        feed.base.is_none() && feed.batches.len() == 0
    }

    /// Puts in place what a batch leads to that was appended after the position, all of whose records count: its last offset,
    /// its epoch, and the metadata there.
    pub fn put_appended(&mut self, position: i64, epoch: i32, image: Image)
        ensures { self.new ≡ record self.old { position = position; epoch = epoch; image = image } }
    {
        self.position = position;
        self.epoch = epoch;
        self.image = image;
    }

    /// Takes what was read of a log: all of a log from its base on, or the batches after the position. At `Err` the view is
    /// as it was.
    pub fn advance(&mut self, feed: Feed) -> Result<(), NoMemory>
        requires { Fits self.old feed }
        ensures position { OnOk result (self.new.position ≡ feed.end) }
        ensures epoch { OnOk result (self.new.epoch ≡ last_epoch (known_epoch feed.base self.old.epoch) feed.batches) }

        // A view of a log's end becomes one of the log with these batches after it, and with a base it becomes one of the
        // log from that base on.
        ensures is_at { OnOk result ((l : Log) → GoesOn l self.old feed.base → IsAt (log_with_feed l feed.base feed.batches) self.new) }

        // What is read after a view of a log makes it the view of the log's end.
        ensures reads { OnOk result ((l : Log) → IsLog l → IsViewOf l self.old → IsFeed (feed_from l self.old.position) feed → self.new ≡ read_view l self.old) }
        ensures err { OnErr result (self.new ≡ self.old) }
    {
        if feed.base.is_none() && feed.batches.len() == 0 {
            return Ok(());
        }
        let builder = self.build(feed)?;
        self.put(builder);
        Ok(())
    }

    /// The view of the log's end beside another view of the log, which stands at the end of what was read after this one: its
    /// metadata are shared, and no record is applied. This view stays. `NoMemory` is the only error.
    pub fn beside(&self, feed: &Feed, other: &View) -> Result<View, NoMemory>
        requires { other.now.position ≡ feed.now.end }
        ensures { IfOk result (λ made. (l : Log) → IsLog l → IsViewOf l self.now → IsViewOf l other.now → IsFeed (feed_from l self.now.position) feed.now → made ≡ read_view l self.now) }
    {
        let epoch = epoch_after(feed, self.epoch());
        let made = other.with_epoch(self.alloc, epoch)?;
        Ok(made)
    }

    // A copy of the view, but for the epoch.
    fn with_epoch(&self, alloc: Global, epoch: i32) -> Result<View, NoMemory>
        ensures { IfOk result (λ made. made ≡ record self.now { epoch = epoch }) }
    {
        Ok(View {
            alloc,
            position: self.position,
            epoch,
            image: self.image.copy(alloc)?,
            settler: self.settler.copy(alloc)?,
        })
    }

    /// Takes what was read of a log. Where another view of the log stands at the end of what was read, its metadata are shared, and no
    /// record is applied. At `Err` the view is as it was.
    pub fn advance_beside(&mut self, feed: Feed, other: &View) -> Result<(), NoMemory>
        requires { Fits self.old feed }
        ensures reads { OnOk result ((l : Log) → IsLog l → IsViewOf l self.old → IsViewOf l other.now → IsFeed (feed_from l self.old.position) feed → self.new ≡ read_view l self.old) }
        ensures err { OnErr result (self.new ≡ self.old) }
    {
        if other.position() != feed.end {
            return self.advance(feed);
        }
        *self = self.beside(&feed, other)?;
        Ok(())
    }

    // What a view is built on: the base of a feed, or a copy of the view.
    fn start(&self, base: Option<(i64, Image)>) -> Result<Builder, NoMemory>
        ensures { IfOk result (λ builder. builder ≡ building_from base self.now) }
    {
        match base {
            Some((position, image)) => Ok(Builder {
                position,
                epoch: 0,
                image,
                settler: Settler::new(self.alloc),
            }),
            None => Ok(Builder {
                position: self.position,
                epoch: self.epoch,
                image: self.image.copy(self.alloc)?,
                settler: self.settler.copy(self.alloc)?,
            }),
        }
    }

    // What the view and a feed lead to.
    fn build(&self, feed: Feed) -> Result<Builder, NoMemory>
        requires { Fits self.now feed }
        ensures { IfOk result (λ builder. IsBuiltFrom (entries feed.batches) feed.end (last_epoch (known_epoch feed.base self.now.epoch) feed.batches) (building_from feed.base self.now) builder) }
    {
        let Feed {
            base,
            batches,
            end: _,
        } = feed;
        let mut builder = self.start(base)?;
        builder.take_all(batches.into_vec())?;
        Ok(builder)
    }

    // Puts in place what was built.
    fn put(&mut self, builder: Builder)
        requires { builder.settling.released ≡ [] }
        ensures { self.new ≡ view_of builder }
    {
        let Builder {
            position,
            epoch,
            image,
            settler,
        } = builder;
        self.position = position;
        self.epoch = epoch;
        self.image = image;
        self.settler = settler;
    }
}

impl Duplicate for View {
    fn copy(&self, alloc: Global) -> Result<Self, NoMemory> {
        Ok(View {
            alloc,
            position: self.position,
            epoch: self.epoch,
            image: self.image.copy(alloc)?,
            settler: self.settler.copy(alloc)?,
        })
    }
}
