//! A list by rising keys.
ghost use Rattle.std.specs.Prelude.{◌≡◌, ◌-◌, [], length, min, Some, slice_get, take, map, IfOk, option_map, OnOk, OnErr, IsTrue, ◌↔◌};
ghost use Rattle.kz_types.specs.Order.{bytes_cmp};
ghost use Rattle.kz_types.specs.Ordered.{find as find_in, put as put_in, without as without_in, Rises};
ghost use Rattle.kz_sorted.specs.After.{items_after as after_in};

use crate::block_items::BlockItems;
use crate::items::Items;
use crate::part::count_in_parts;
use crate::search::part_for;
use crate::shared_parts::SharedParts;
use crate::{Keyed, Near};
use kz_types::{Duplicate, NoMemory, Shared};
use std::alloc::Global;
use std::marker::Model;

/// A list of items by rising keys of bytes, no two with one key. Contracts see the list.
///
/// It is kept as parts of at most [`MAX_PART_BLOCKS`](crate::MAX_PART_BLOCKS) blocks, each of 1 to
/// [`MAX_BLOCK_ITEMS`](crate::MAX_BLOCK_ITEMS) items. A copy of the list costs a pointer. A change copies what another list has too:
/// the pointers to all parts, those to the blocks of one part, and those to the items of one block. So the first change after a
/// copy costs a pointer for each part, and not one for each block. Neither parts nor blocks are merged when they shrink, and only
/// one without items goes. So after many items were taken out there may be more blocks than the items need, at worst one for each,
/// and more parts than the blocks need.
///
/// The comments say what each call costs. No clause does, nor what lists share, nor when memory runs out.
#[derive(Drop)]
pub struct Blocks<T: Keyed> {
    alloc: Global,
    parts: SharedParts<T>,
    near: Near,
}

impl<T: Keyed> Model for Blocks<T> {
    ghost use Rattle.std.specs.Prelude.{List};
    ghost use Rattle.kz_types.specs.Order.{bytes_cmp};
    ghost use Rattle.kz_sorted.specs.BlockLists.{items_of, AreParts};

    ghost Value = { List T };

    ghost view = { λ b. items_of b.parts };

    ghost invariant = { λ b. AreParts bytes_cmp T.key b.parts };
}

impl<T: Keyed> Blocks<T> {
    /// The empty list. It keeps this allocator for its changes, and takes no memory.
    pub fn new(alloc: Global) -> Self
        ensures { result ≡ [] }
    {
        Blocks {
            alloc,
            parts: SharedParts::new(),
            near: Near::new(),
        }
    }

    // ---- reading, which takes no memory but for `page`

    /// Whether there is no item.
    pub fn is_empty(&self) -> bool
        ensures { IsTrue result ↔ (self.now ≡ []) }
    {
        self.parts.as_slice().is_empty()
    }

    /// How many items there are, or the greatest `usize` where there are more. It looks at each block once.
    pub fn len(&self) -> usize
        ensures { result ≡ min (length self.now) usize.MAX }
    {
        count_in_parts(self.parts.as_slice())
    }

    /// The item with this key, if there is one. Where the last look-up ended is tried first, and what comes after it. Else the
    /// part is found by halves, the block in it, and the item in that, too.
    pub fn find(&self, key: &[u8]) -> Option<&T>
        ensures { option_map (λ item. item.now) result ≡ find_in bytes_cmp T.key key.now self.now }
    {
        let parts = self.parts.as_slice();
        if parts.is_empty() {
            return None;
        }
        let place = part_for(parts, key, self.near.part());
        self.near.set_part(place);
        parts[place].find(&self.near, key)
    }

    /// The item with the least key, if there is an item. It looks at one block.
    pub fn first(&self) -> Option<&T>
        ensures { option_map (λ item. item.now) result ≡ slice_get self.now 0 }
    {
        let mut items = self.items();
        items.next()
    }

    /// The item with the greatest key, if there is an item. It looks at one block.
    pub fn last(&self) -> Option<&T>
        ensures { option_map (λ item. item.now) result ≡ slice_get self.now (length self.now - 1) }
    {
        let parts = self.parts.as_slice();
        if parts.is_empty() {
            return None;
        }
        let place = parts.len() - 1;
        parts[place].last()
    }

    /// All items, in the order of their keys. Each step takes the same time, however many items there are.
    pub fn items(&self) -> Items<'_, T>
        ensures items { result ≡ self.now }
        ensures rises { Rises bytes_cmp T.key self.now }
    {
        Items::with_parts(BlockItems::new(&[], &[]), self.parts.as_slice())
    }

    // The items whose keys are above this one, in the order of their keys.
    fn items_after_key(&self, key: &[u8]) -> Items<'_, T>
        ensures { result ≡ after_in bytes_cmp T.key (Some key.now) self.now }
    {
        let parts = self.parts.as_slice();
        if parts.is_empty() {
            return self.items();
        }
        let place = part_for(parts, key, self.near.part());
        let items = parts[place].items_after_key(&self.near, key);
        Items::with_parts(items, &parts[place + 1..])
    }

    /// The items whose keys are above this one, or all items where no key is given, in the order of their keys. No item
    /// needs to have the key. Their begin is found as an item is by `find`.
    pub fn items_after(&self, after: Option<&[u8]>) -> Items<'_, T>
        ensures { result ≡ after_in bytes_cmp T.key (option_map (λ key. key.now) after.entry) self.now }
    {
        match after {
            None => self.items(),
            Some(key) => self.items_after_key(key),
        }
    }

    /// The first item of `items_after`, if there is one.
    pub fn next_after(&self, after: Option<&[u8]>) -> Option<&T>
        ensures { option_map (λ item. item.now) result ≡ slice_get (after_in bytes_cmp T.key (option_map (λ key. key.now) after.entry) self.now) 0 }
    {
        let mut items = self.items_after(after);
        items.next()
    }

    /// The items of `items_after`, but no more than the limit, as references. Memory for the references is taken from this
    /// allocator; at `Err` it ran out.
    pub fn page(
        &self,
        alloc: Global,
        after: Option<&[u8]>,
        limit: usize,
    ) -> Result<Vec<&T>, NoMemory>
        ensures { IfOk result (λ made. map (λ item. item.now) made.items ≡ take limit (after_in bytes_cmp T.key (option_map (λ key. key.now) after.entry) self.now)) }
    {
        Ok(self.items_after(after).take(limit).collect(alloc)?)
    }
}

impl<T: Keyed + Drop> Blocks<T> {
    // ---- changes

    /// Puts an item at its place, instead of the one with its key. The part, the block in it and the place in that are found by
    /// halves. What another list has too is copied first: the pointers to the parts, to the blocks of the part, and to the items of
    /// the block. For a further item the pointers after its place in the block are moved.
    ///
    /// A further item cuts a full block in two, and the pointers to the blocks after it in the part are moved. Where the part is
    /// full too, it is cut in two before, and the pointers to the parts after it are moved. An item after all others cuts nothing:
    /// where the last block is full, it begins one, and where the last part is full too, it begins a part.
    ///
    /// At `Err`, memory ran out, and the list is as it was. The item is gone then.
    pub fn put(&mut self, item: T) -> Result<(), NoMemory>
        ensures ok { OnOk result (self.new ≡ put_in bytes_cmp T.key item self.old) }
        ensures err { OnErr result (self.new ≡ self.old) }
    {
        let item = Shared::new(self.alloc, item)?;
        self.parts.put(self.alloc, &self.near, item)
    }

    /// Takes the item of this key out. Where there is none, the list stays as it is. It costs what `put` does, but no block
    /// and no part becomes two.
    ///
    /// At `Err`, memory ran out, and the list is as it was. It takes memory only where another list has the parts, the part or
    /// the block. That a list whose blocks no other list has never answers `Err` isn't promised, since contracts don't see what
    /// lists share.
    pub fn without(&mut self, key: &[u8]) -> Result<(), NoMemory>
        ensures ok { OnOk result (self.new ≡ without_in bytes_cmp T.key key.now self.old) }
        ensures err { OnErr result (self.new ≡ self.old) }
    {
        self.parts.remove(self.alloc, &self.near, key)
    }
}

impl<T: Keyed + Duplicate + Drop> Blocks<T> {
    /// A copy of each item, in the order of their keys. It costs the copies of all items, where `copy` costs a pointer. At
    /// `Err`, memory ran out.
    pub fn copies(&self, alloc: Global) -> Result<Vec<T>, NoMemory>
        ensures { IfOk result (λ made. made.items ≡ self.now) }
    {
        let mut copies = Vec::new(alloc);
        for item in self.items() {
            copies.push(item.copy(alloc)?)?;
        }
        Ok(copies)
    }
}

impl<T: Keyed + Drop> Duplicate for Blocks<T> {
    /// A list with the same parts: it costs a pointer. It keeps this allocator for its changes. A change of either list
    /// leaves the other.
    fn copy(&self, alloc: Global) -> Result<Self, NoMemory> {
        Ok(Blocks {
            alloc,
            parts: self.parts.copy(alloc)?,
            near: Near::new(),
        })
    }
}
