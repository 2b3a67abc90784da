//! A part of a list.
ghost use Rattle.std.specs.Prelude.{◌≡◌, ◌++◌, ◌-◌, ◌<◌, [], ◌∷◌, length, min, Some, slice_get, IfOk, IfSome, option_map, OnOk, OnErr, IsTrue, ◌↔◌};
ghost use Rattle.kz_types.specs.Order.{bytes_cmp};
ghost use Rattle.kz_types.specs.Ordered.{find as find_in, put as put_in, without as without_in, Rises, AllBelow};
ghost use Rattle.kz_sorted.specs.After.{items_after as after_in};
ghost use Rattle.kz_sorted.specs.BlockLists.{first_key, items_of};

use crate::block::{count_of_items, ends_before};
use crate::block_items::{BlockItems, items_after};
use crate::limits::{MAX_BLOCK_ITEMS, MAX_PART_BLOCKS};
use crate::search::block_for;
use crate::shared_blocks::SharedBlocks;
use crate::{Keyed, Near};
use kz_types::{Duplicate, NoMemory, Shared};
use std::alloc::Global;
use std::marker::Model;

/// A list of items by rising keys, which is kept as shared blocks. A copy costs a pointer, and the first change after a copy a
/// pointer for each block. Contracts see the list of the items.
#[derive(Drop)]
pub struct Part<T: Keyed> {
    blocks: SharedBlocks<T>,
}

impl<T: Keyed> Model for Part<T> {
    ghost use Rattle.std.specs.Prelude.{List};
    ghost use Rattle.kz_types.specs.Order.{bytes_cmp};
    ghost use Rattle.kz_sorted.specs.BlockLists.{items_of, AreBlocks};

    ghost Value = { List T };

    ghost view = { λ p. items_of p.blocks };

    ghost invariant = { λ p. AreBlocks bytes_cmp T.key p.blocks };
}

impl<T: Keyed> Part<T> {
    /// The part without items. It takes no memory.
    pub fn new() -> Self
        ensures { result ≡ [] }
    {
        Part {
            blocks: SharedBlocks::new(),
        }
    }

    /// Whether there is no item.
    pub fn is_empty(&self) -> bool
        ensures { IsTrue result ↔ (self.now ≡ []) }
    {
        self.blocks.as_slice().is_empty()
    }

    /// Whether an item with this key can be put: there is room for a further block, or none is needed.
    pub fn has_room(&self, near: &Near, key: &[u8]) -> bool {
        let blocks = self.blocks.as_slice();
        if blocks.len() < MAX_PART_BLOCKS {
            return true;
        }
        let place = block_for(blocks, key, near.block());
        let block = &blocks[place];
        block.items().len() < MAX_BLOCK_ITEMS || block.has_key(key, near.item())
    }

    /// How many items there are, or the greatest `usize` where there are more. It looks at each block once.
    pub fn len(&self) -> usize
        ensures { result ≡ min (length self.now) usize.MAX }
    {
        count_of_items(self.blocks.as_slice())
    }

    /// The item with this key, if there is one. Where the last look-up ended is tried first.
    pub fn find(&self, near: &Near, key: &[u8]) -> Option<&T>
        ensures { option_map (λ item. item.now) result ≡ find_in bytes_cmp T.key key.now self.now }
    {
        let blocks = self.blocks.as_slice();
        if blocks.is_empty() {
            return None;
        }
        let place = block_for(blocks, key, near.block());
        let (found, at) = blocks[place].find(key, near.item());
        near.set(place, at);
        found
    }

    /// The item with the greatest key, if there is an item. It looks at one block.
    pub fn last(&self) -> Option<&T>
        ensures { option_map (λ item. item.now) result ≡ slice_get self.now (length self.now - 1) }
    {
        let blocks = self.blocks.as_slice();
        if blocks.is_empty() {
            return None;
        }
        let place = blocks.len() - 1;
        blocks[place].last()
    }

    /// All items, in the order of their keys.
    pub fn items(&self) -> BlockItems<'_, T>
        ensures items { result ≡ self.now }
        ensures rises { Rises bytes_cmp T.key self.now }
    {
        BlockItems::new(&[], self.blocks.as_slice())
    }

    /// The items whose keys are above this one, in the order of their keys.
    pub fn items_after_key(&self, near: &Near, key: &[u8]) -> BlockItems<'_, T>
        ensures { result ≡ after_in bytes_cmp T.key (Some key.now) self.now }
    {
        let blocks = self.blocks.as_slice();
        if blocks.is_empty() {
            return self.items();
        }
        let place = block_for(blocks, key, near.block());
        let items = items_after(blocks[place].items(), key);
        BlockItems::new(items, &blocks[place + 1..])
    }

    /// Whether all items come before this key. It compares the key of the last one alone.
    pub fn is_before(&self, key: &[u8]) -> bool
        ensures { IsTrue result ↔ AllBelow bytes_cmp T.key self.now key.now }
    {
        let _blocks = &self.blocks;
        ends_before(self.last(), key)
    }
}

impl<T: Keyed + Drop> Part<T> {
    /// Two parts in place of this one, each with half of its blocks, and none where it has one block or none.
    pub fn in_two(&self, alloc: Global) -> Result<Option<(Part<T>, Part<T>)>, NoMemory>
        ensures joined { IfOk result (λ two. IfSome two (λ parts. parts.0 ++ parts.1 ≡ self.now)) }
        ensures first { IfOk result (λ two. IfSome two (λ parts. 0 < length parts.0)) }
        ensures second { IfOk result (λ two. IfSome two (λ parts. 0 < length parts.1)) }
    {
        let blocks = self.blocks.as_slice();
        if blocks.len() < 2 {
            return Ok(None);
        }
        let half = blocks.len() / 2;
        let first = SharedBlocks::of(alloc, &blocks[..half])?;
        let second = SharedBlocks::of(alloc, &blocks[half..])?;
        Ok(Some((Part { blocks: first }, Part { blocks: second })))
    }

    /// Puts an item at its place, instead of the one with its key. At `Err`, memory ran out, and the part is as it was.
    pub fn put(&mut self, alloc: Global, near: &Near, item: Shared<T>) -> Result<(), NoMemory>
        ensures ok { OnOk result (self.new ≡ put_in bytes_cmp T.key item self.old) }
        ensures err { OnErr result (self.new ≡ self.old) }
    {
        self.blocks.put(alloc, near, item)
    }

    /// Takes the item of this key out. Where there is none, the part stays as it is. At `Err`, memory ran out, and the part is as
    /// it was.
    pub fn without(&mut self, alloc: Global, near: &Near, key: &[u8]) -> Result<(), NoMemory>
        ensures ok { OnOk result (self.new ≡ without_in bytes_cmp T.key key.now self.old) }
        ensures err { OnErr result (self.new ≡ self.old) }
    {
        self.blocks.remove(alloc, near, key)
    }
}

impl<T: Keyed + Drop> Duplicate for Part<T> {
    // A further owner of the same blocks. It takes no memory: `NoMemory` comes only where a `usize` can't count the owners.
    fn copy(&self, alloc: Global) -> Result<Self, NoMemory> {
        Ok(Part {
            blocks: self.blocks.copy(alloc)?,
        })
    }
}

impl<T: Keyed> Keyed for Part<T> {
    ghost key = { λ p. first_key T.key [] p };

    fn key(&self) -> &[u8] {
        match self.blocks.as_slice() {
            [first, ..] => first.key(),
            [] => &[],
        }
    }
}

/// How many items the parts have, or the greatest `usize` where they have more.
pub fn count_in_parts<T: Keyed>(parts: &[Part<T>]) -> usize
    ensures { result ≡ min (length (items_of parts.now)) usize.MAX }
{
    let mut count = 0usize;
    for part in parts {
        count = count.saturating_add(part.len());
    }
    count
}
