//! A list whose first items are done with.
ghost use Rattle.std.specs.Prelude.{◌≡◌, ◌≤◌, List, length, drop};

use std::marker::Model;

/// The items of a list that remain after the first ones are done with. Contracts see these. No item is moved, so to be
/// done with many one after another costs no more than there are.
#[derive(Drop)]
pub struct Rest<T> {
    items: Vec<T>,
    done: usize,
}

impl<T> Model for Rest<T> {
    ghost Value = { List T };

    ghost view = { λ r. drop r.done r.items.items };

    ghost invariant = { λ r. r.done ≤ length r.items.items };
}

impl<T> Rest<T> {
    /// All items remain.
    pub fn new(items: Vec<T>) -> Self
        ensures { result ≡ items.items }
    {
        Rest { items, done: 0 }
    }

    /// Lends the items that remain.
    pub fn as_slice(&self) -> &[T]
        ensures { result.now ≡ self.now }
    {
        &self.items[self.done..]
    }

    /// Is done with the first of those that remain, so many, or with all where there are fewer.
    #[tactic(auto, using(crate::proofs::Rests::dropped_twice))]
    pub fn finish(&mut self, count: usize)
        ensures { self.new ≡ drop count self.old }
    {
        let left = self.items.len() - self.done;
        self.done += left.min(count);
    }
}
