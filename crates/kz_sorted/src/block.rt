//! A block of items.
ghost use Rattle.std.specs.Prelude.{◌≡◌, ◌≢◌, ◌-◌, List, [], None, length, min, IfOk, IfSome, OnOk, OnErr, IsTrue, ◌↔◌, option_map, slice_get};
ghost use Rattle.std.specs.declared.cmp.Ordering.TheVariants.{Less};
ghost use Rattle.kz_types.specs.Order.{bytes_cmp};
ghost use Rattle.kz_types.specs.Ordered.{put as put_in, without as without_in, find as find_in, Rises, AllBelow};
ghost use Rattle.kz_sorted.specs.BlockLists.{first_key, items_of};

use crate::{Keyed, find_near, put_near, without};
use kz_order::compare;
use kz_types::{Duplicate, NoMemory, Shared, copy_all};
use std::alloc::Global;
use std::marker::Model;
use std::rc::Rc;

/// Items by rising keys, in memory that several lists may hold. Contracts see the list of the items.
#[derive(Drop)]
pub struct Block<T> {
    items: Rc<Vec<Shared<T>>>,
}

impl<T> Model for Block<T> {
    ghost Value = { List T };

    ghost view = { λ b. b.items.value.items };
}

impl<T: Drop> Block<T> {
    /// The block of these items, with its first owner.
    pub fn new(alloc: Global, items: Vec<Shared<T>>) -> Result<Self, NoMemory>
        ensures { IfOk result (λ made. made ≡ items.items) }
    {
        Ok(Block {
            items: Rc::new(alloc, items)?,
        })
    }
}

impl<T> Block<T> {
    /// Lends the items.
    pub fn items(&self) -> &[Shared<T>]
        ensures { result.now ≡ self.now }
    {
        self.items.as_ref().as_slice()
    }

    /// The last item, if there is one.
    pub fn last(&self) -> Option<&T>
        ensures { option_map (λ item. item.now) result ≡ slice_get self.now (length self.now - 1) }
    {
        match self.items().last() {
            Some(item) => Some(item.get()),
            None => None,
        }
    }
}

impl<T: Keyed + Drop> Block<T> {
    /// The items with this one at its place, instead of the one with its key: further owners of each, for another block.
    pub fn items_with(
        &self,
        alloc: Global,
        item: Shared<T>,
        guess: usize,
    ) -> Result<Vec<Shared<T>>, NoMemory>
        requires { Rises bytes_cmp T.key self.now }
        ensures { IfOk result (λ made. made.items ≡ put_in bytes_cmp T.key item self.now) }
    {
        let mut items = copy_all(alloc, self.items())?;
        put_near(&mut items, item, guess)?;
        Ok(items)
    }

    /// Puts an item at its place, instead of the one with its key. A block that no other list holds is changed in place, and
    /// another one is copied first. A guess of the place is tried first. At `Err`, memory ran out, and the block is as it was.
    pub fn put(&mut self, alloc: Global, item: Shared<T>, guess: usize) -> Result<(), NoMemory>
        requires { Rises bytes_cmp T.key self.old }
        ensures ok { OnOk result (self.new ≡ put_in bytes_cmp T.key item self.old) }
        ensures err { OnErr result (self.new ≡ self.old) }
    {
        if let Some(items) = Rc::get_mut(&mut self.items) {
            return put_near(items, item, guess);
        }
        let items = self.items_with(alloc, item, guess)?;
        self.items = Rc::new(alloc, items)?;
        Ok(())
    }

    /// Takes the item of this key out. A block that no other list holds is changed in place, and another one is copied
    /// first. At `Err`, memory ran out, and the block is as it was.
    pub fn remove(&mut self, alloc: Global, key: &[u8]) -> Result<(), NoMemory>
        requires { Rises bytes_cmp T.key self.old }
        ensures ok { OnOk result (self.new ≡ without_in bytes_cmp T.key key.now self.old) }
        ensures err { OnErr result (self.new ≡ self.old) }
    {
        if let Some(items) = Rc::get_mut(&mut self.items) {
            without(items, key);
            return Ok(());
        }
        let mut items = copy_all(alloc, self.items())?;
        without(&mut items, key);
        self.items = Rc::new(alloc, items)?;
        Ok(())
    }
}

impl<T: Keyed> Block<T> {
    /// Whether all items come before this key. It compares the key of the last one alone.
    pub fn is_before(&self, key: &[u8]) -> bool
        requires { Rises bytes_cmp T.key self.now }
        ensures { IsTrue result ↔ AllBelow bytes_cmp T.key self.now key.now }
    {
        ends_before(self.last(), key)
    }

    /// Whether an item has this key. A guess of its place is tried first.
    pub fn has_key(&self, key: &[u8], guess: usize) -> bool
        requires { Rises bytes_cmp T.key self.now }
        ensures { IsTrue result ↔ (find_in bytes_cmp T.key key.now self.now ≢ None) }
    {
        let (found, _) = self.find(key, guess);
        found.is_some()
    }

    /// The item with this key, if there is one, and the place where the search ended. A guess of the place is tried first.
    pub fn find(&self, key: &[u8], guess: usize) -> (Option<&T>, usize)
        requires { Rises bytes_cmp T.key self.now }
        ensures { option_map (λ item. item.now) result.0 ≡ find_in bytes_cmp T.key key.now self.now }
    {
        match find_near(self.items(), key, guess) {
            (Some(item), at) => (Some(item.get()), at),
            (None, at) => (None, at),
        }
    }
}

impl<T: Drop> Duplicate for Block<T> {
    // A further owner of the same items. It takes no memory: `NoMemory` comes only where a `usize` can't count the owners.
    fn copy(&self, _alloc: Global) -> Result<Self, NoMemory> {
        Ok(Block {
            items: self.items.clone()?,
        })
    }
}

impl<T: Keyed> Keyed for Block<T> {
    ghost key = { λ b. first_key T.key [] b };

    fn key(&self) -> &[u8] {
        match self.items() {
            [first, ..] => first.key(),
            [] => &[],
        }
    }
}

/// Whether the last item of a list, if there is one, comes before a key.
pub fn ends_before<T: Keyed>(last: Option<&T>, key: &[u8]) -> bool
    ensures { IsTrue result ↔ IfSome last.entry (λ item. bytes_cmp (T.key item.now) key.now ≡ Less) }
{
    match last {
        Some(item) => compare(item.key(), key).is_lt(),
        None => true,
    }
}

/// How many items the blocks have, or the greatest `usize` where they have more.
pub fn count_of_items<T>(blocks: &[Block<T>]) -> usize
    ensures { result ≡ min (length (items_of blocks.now)) usize.MAX }
{
    let mut count = 0usize;
    for block in blocks {
        count = count.saturating_add(block.items().len());
    }
    count
}
