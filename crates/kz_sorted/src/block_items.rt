//! The items of blocks in their order.
ghost use Rattle.std.specs.Prelude.{◌≡◌, ◌++◌, Some};
ghost use Rattle.std.specs.Iterator.{YieldsFirstRef, item_count};
ghost use Rattle.kz_types.specs.Order.{bytes_cmp};
ghost use Rattle.kz_types.specs.Ordered.{Rises};
ghost use Rattle.kz_sorted.specs.After.{items_after};
ghost use Rattle.kz_sorted.specs.BlockLists.{items_of};

use crate::block::Block;
use crate::{Keyed, spot};
use kz_types::Shared;
use std::marker::Model;

/// The items of blocks that are still to come, in their order, each as a reference. Contracts see the list of them. It takes no
/// memory.
#[derive(Drop)]
pub struct BlockItems<'a, T> {
    items: &'a [Shared<T>],
    blocks: &'a [Block<T>],
}

impl<'a, T> Model for BlockItems<'a, T> {
    ghost use Rattle.std.specs.Prelude.{◌++◌, List};
    ghost use Rattle.kz_sorted.specs.BlockLists.{items_of};

    ghost Value = { List T };

    ghost view = { λ s. s.items.now ++ items_of s.blocks.now };
}

impl<'a, T> BlockItems<'a, T> {
    /// These items, and after them those of the blocks.
    pub fn new(items: &'a [Shared<T>], blocks: &'a [Block<T>]) -> Self
        ensures { result ≡ items.entry.now ++ items_of blocks.entry.now }
    {
        BlockItems { items, blocks }
    }
}

impl<'a, T> Iterator for BlockItems<'a, T> {
    type Item = &'a T;

    ghost next_gives = { YieldsFirstRef (λ s. s) };

    ghost remaining = { item_count (λ s. s) };

    fn next(&mut self) -> Option<&'a T> {
        while self.items.is_empty() {
            let (block, blocks) = self.blocks.split_first()?;
            self.items = block.items();
            self.blocks = blocks;
        }
        let (item, items) = self.items.split_first()?;
        self.items = items;
        Some(item.get())
    }
}

/// The items of one block that come after a key.
pub fn items_after<'a, T: Keyed>(items: &'a [Shared<T>], key: &[u8]) -> &'a [Shared<T>]
    requires { Rises bytes_cmp T.key items.now }
    ensures { result.now ≡ items_after bytes_cmp T.key (Some key.now) items.entry.now }
{
    match spot(items, key) {
        Ok(place) => &items[place + 1..],
        Err(place) => &items[place..],
    }
}
