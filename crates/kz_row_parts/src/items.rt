//! The znodes of a tree in their order.
ghost use Rattle.std.specs.Prelude.{◌≡◌, ◌++◌};
ghost use Rattle.std.specs.Iterator.{YieldsFirstRef, item_count};
ghost use Rattle.kz_sorted.specs.BlockLists.{items_of};

use crate::part::Part;
use kz_types::Row;
use std::marker::Model;

/// The znodes of a tree that are still to come, by rising path, each as a reference. Contracts see the list of them. It takes
/// no memory.
#[derive(Drop)]
pub struct Items<'a> {
    front: kz_sorted::Items<'a, Row>,
    parts: &'a [Part],
}

impl<'a> Model for Items<'a> {
    ghost use Rattle.std.specs.Prelude.{◌++◌, List};
    ghost use Rattle.kz_types.specs.declared.tree.Row.{Row};
    ghost use Rattle.kz_sorted.specs.BlockLists.{items_of};

    ghost Value = { List Row };

    ghost view = { λ s. s.front ++ items_of s.parts.now };
}

impl<'a> Items<'a> {
    /// These znodes, and after them those of the parts.
    pub fn new(front: kz_sorted::Items<'a, Row>, parts: &'a [Part]) -> Self
        ensures { result ≡ front.entry ++ items_of parts.entry.now }
    {
        Items { front, parts }
    }
}

impl<'a> Iterator for Items<'a> {
    type Item = &'a Row;

    ghost next_gives = { YieldsFirstRef (λ s. s) };

    ghost remaining = { item_count (λ s. s) };

    fn next(&mut self) -> Option<&'a Row> {
        loop {
            if let Some(row) = self.front.next() {
                return Some(row);
            }
            let (part, parts) = self.parts.split_first()?;
            self.front = part.rows().items();
            self.parts = parts;
        }
    }
}
