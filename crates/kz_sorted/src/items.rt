//! The items of a list in their order.
ghost use Rattle.std.specs.Prelude.{◌≡◌, ◌++◌};
ghost use Rattle.std.specs.Iterator.{YieldsFirstRef, item_count};
ghost use Rattle.kz_sorted.specs.BlockLists.{items_of};

use crate::Keyed;
use crate::block::Block;
use crate::block_items::BlockItems;
use crate::part::Part;
use kz_types::Shared;
use std::marker::Model;

/// The items of a list that are still to come, in their order, each as a reference. Contracts see the list of them. It takes
/// no memory.
#[derive(Drop)]
pub struct Items<'a, T: Keyed> {
    front: BlockItems<'a, T>,
    parts: &'a [Part<T>],
}

impl<'a, T: Keyed> Model for Items<'a, T> {
    ghost use Rattle.std.specs.Prelude.{◌++◌, List};
    ghost use Rattle.kz_sorted.specs.BlockLists.{items_of};

    ghost Value = { List T };

    ghost view = { λ s. s.front ++ items_of s.parts.now };
}

impl<'a, T: Keyed> Items<'a, T> {
    /// These items, and after them those of the blocks.
    pub fn new(items: &'a [Shared<T>], blocks: &'a [Block<T>]) -> Self
        ensures { result ≡ items.entry.now ++ items_of blocks.entry.now }
    {
        Items::with_parts(BlockItems::new(items, blocks), &[])
    }

    /// These items, and after them those of the parts.
    pub(crate) fn with_parts(front: BlockItems<'a, T>, parts: &'a [Part<T>]) -> Self
        ensures { result ≡ front.entry ++ items_of parts.entry.now }
    {
        Items { front, parts }
    }
}

impl<'a, T: Keyed> Iterator for Items<'a, T> {
    type Item = &'a T;

    ghost next_gives = { YieldsFirstRef (λ s. s) };

    ghost remaining = { item_count (λ s. s) };

    fn next(&mut self) -> Option<&'a T> {
        loop {
            if let Some(item) = self.front.next() {
                return Some(item);
            }
            let (part, parts) = self.parts.split_first()?;
            self.front = part.items();
            self.parts = parts;
        }
    }
}
