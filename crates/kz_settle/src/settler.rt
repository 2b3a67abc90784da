//! The settler.
ghost use Rattle.std.specs.Prelude.{◌≡◌, ◌∷◌, ◌++◌, [], List, None, is_some, option_to_list, IfOk, IfNone, OnOk, OnErr};
ghost use Rattle.std.specs.Ordering.{int_cmp};
ghost use Rattle.kz_types.specs.Ordered.{Rises};
ghost use Rattle.kz_types.specs.declared.log.Entry.{Entry as EntryValue};
ghost use Rattle.kz_settle.specs.Settling.{offset_of};
ghost use Rattle.kz_settle.specs.Stands.{SettlerState, IsStateAfter, answer_to, entries_of_answer, LeavesNone};
ghost use Rattle.kz_settle.specs.Steps.{after_close, answer_to_close, after_begin, after_plain, answer_to_plain, after_marker, answer_to_marker};

use crate::Settled;
use crate::marker_of::marker_of;
use crate::marks::Marker;
use kz_types::{Duplicate, Entry, NoMemory};
use std::alloc::Global;
use std::collections::VecDeque;
use std::marker::Model;
use std::mem;

/// Finds the records of a log that count (KIP-868), as its entries are pushed one after another.
#[derive(Drop)]
pub struct Settler {
    begun: Option<i64>,
    kept: VecDeque<Entry>,
    released: VecDeque<Entry>,
}

impl Model for Settler {
    ghost Value = { SettlerState };

    ghost view = { λ s. record { begun = s.begun; kept = s.kept.items; released = s.released.items } };
}

// Lets an entry go.
fn forget(_e: Entry) {}

fn copy_entry(e: &Entry, alloc: Global) -> Result<Entry, NoMemory>
    ensures { IfOk result (λ made. made ≡ e.now) }
{
    Ok(Entry {
        offset: e.offset,
        epoch: e.epoch,
        item: e.item.copy(alloc)?,
    })
}

fn copy_entries(entries: &VecDeque<Entry>, alloc: Global) -> Result<VecDeque<Entry>, NoMemory>
    ensures { IfOk result (λ made. made.items ≡ entries.now.items) }
{
    let mut copies = VecDeque::new(alloc);
    for e in entries {
        copies.push_back(copy_entry(e, alloc)?)?;
    }
    Ok(copies)
}

impl Settler {
    /// A settler to which nothing was pushed.
    pub fn new(alloc: Global) -> Self
        ensures value { result ≡ record { begun = None; kept = []; released = [] } }
        ensures stands { IsStateAfter [] [] result }
    {
        Settler {
            begun: None,
            kept: VecDeque::new(alloc),
            released: VecDeque::new(alloc),
        }
    }

    /// The offset of the Begin of the transaction that is open, if one is.
    pub fn begun(&self) -> Option<i64>
        ensures { result ≡ self.now.begun }
    {
        self.begun
    }

    fn begin(&mut self, offset: i64)
        ensures { self.new ≡ after_begin offset self.old }
    {
        if self.begun.is_none() {
            self.begun = Some(offset);
        }
    }

    fn finish(&mut self, ends: bool) -> Settled
        requires { self.old.released ≡ [] }
        ensures answer { result ≡ answer_to_close (is_some self.old.begun) ends }
        ensures value { self.new ≡ after_close ends self.old }
        ensures none { LeavesNone result self.new }
    {
        if self.begun.is_none() {
            return Settled::Dropped;
        }
        self.begun = None;
        if ends {
            mem::swap(&mut self.kept, &mut self.released);
            return Settled::Released;
        }
        self.kept.clear();
        Settled::Dropped
    }

    fn keep(&mut self, e: Entry) -> Result<Settled, NoMemory>
        requires { self.old.released ≡ [] }
        ensures answer { IfOk result (λ answer. answer ≡ answer_to_plain (is_some self.old.begun) e) }
        ensures value { OnOk result (self.new ≡ after_plain e self.old) }
        ensures none { IfOk result (λ answer. LeavesNone answer self.new) }
        ensures err { OnErr result (self.new ≡ self.old) }
    {
        if self.begun.is_none() {
            return Ok(Settled::Now(e));
        }
        self.kept.push_back(e)?;
        Ok(Settled::Kept)
    }

    fn turn(&mut self, marker: Marker, offset: i64) -> Settled
        requires { self.old.released ≡ [] }
        ensures answer { result ≡ answer_to_marker marker (is_some self.old.begun) }
        ensures value { self.new ≡ after_marker marker offset self.old }
        ensures none { LeavesNone result self.new }
    {
        match marker {
            Marker::Begin => {
                self.begin(offset);
                Settled::Kept
            }
            Marker::End => self.finish(true),
            Marker::Abort => self.finish(false),
        }
    }

    /// Pushes the next entry of a log, whose offset is above those of all entries before. What was released has to be
    /// popped first. At `Err` the settler is as it was, and the entry is gone.
    pub fn push(&mut self, e: Entry) -> Result<Settled, NoMemory>
        requires { self.old.released ≡ [] }
        ensures answer { IfOk result (λ answer. answer ≡ answer_to (is_some self.old.begun) e) }

        // What was handed out and what is still to be popped are together the records that count.
        ensures stands { IfOk result (λ answer. (pushed given : List EntryValue) → Rises int_cmp offset_of (pushed ++ e ∷ []) → IsStateAfter pushed given self.old
            → IsStateAfter (pushed ++ e ∷ []) (given ++ entries_of_answer answer) self.new) }
        ensures none { IfOk result (λ answer. LeavesNone answer self.new) }
        ensures err { OnErr result (self.new ≡ self.old) }
    {
        match marker_of(&e.item) {
            None => self.keep(e),
            Some(marker) => {
                let offset = e.offset;
                forget(e);
                Ok(self.turn(marker, offset))
            }
        }
    }

    /// The next of the released entries.
    pub fn pop(&mut self) -> Option<Entry>
        ensures next { self.old ≡ record self.new { released = option_to_list result ++ self.new.released } }
        ensures none { IfNone result (self.old.released ≡ []) }
        ensures stands { (pushed given : List EntryValue) → IsStateAfter pushed given self.old → IsStateAfter pushed (given ++ option_to_list result) self.new }
    {
        self.released.pop_front()
    }
}

impl Duplicate for Settler {
    fn copy(&self, alloc: Global) -> Result<Self, NoMemory> {
        Ok(Settler {
            begun: self.begun,
            kept: copy_entries(&self.kept, alloc)?,
            released: copy_entries(&self.released, alloc)?,
        })
    }
}
