//! Blocks that several lists may have.
ghost use Rattle.std.specs.Prelude.{◌≡◌, [], OnOk, OnErr, IfOk};
ghost use Rattle.kz_types.specs.Order.{bytes_cmp};
ghost use Rattle.kz_types.specs.Ordered.{put as put_in, without as without_in};
ghost use Rattle.kz_sorted.specs.BlockLists.{items_of, AreBlocks};

use crate::block::Block;
use crate::change::{put_item, remove_item};
use crate::{Keyed, Near};
use kz_types::{Duplicate, NoMemory, Shared, copy_all};
use std::alloc::Global;
use std::marker::Model;
use std::rc::Rc;

/// Blocks in memory that several lists may have: a copy costs a pointer. The first change of one that another list has copies the
/// pointers to its blocks. Contracts see the list of the blocks.
#[derive(Drop)]
pub struct SharedBlocks<T> {
    blocks: Option<Rc<Vec<Block<T>>>>,
}

impl<T> Model for SharedBlocks<T> {
    ghost use Rattle.std.specs.Prelude.{List, option_map};
    ghost use Rattle.kz_sorted.specs.BlockLists.{blocks_held};

    ghost Value = { List (List T) };

    ghost view = { λ s. blocks_held (option_map (λ blocks. blocks.value.items) s.blocks) };
}

impl<T> SharedBlocks<T> {
    /// No block. It takes no memory.
    pub fn new() -> Self
        ensures { result ≡ [] }
    {
        SharedBlocks { blocks: None }
    }

    /// Lends the blocks.
    pub fn as_slice(&self) -> &[Block<T>]
        ensures { result.now ≡ self.now }
    {
        match &self.blocks {
            Some(blocks) => blocks.as_ref().as_slice(),
            None => &[],
        }
    }
}

impl<T: Keyed + Drop> SharedBlocks<T> {
    /// Further owners of these blocks, in memory of their own: it costs a pointer for each.
    pub fn of(alloc: Global, blocks: &[Block<T>]) -> Result<Self, NoMemory>
        ensures { IfOk result (λ made. made ≡ blocks.now) }
    {
        let blocks = copy_all(alloc, blocks)?;
        Ok(SharedBlocks {
            blocks: Some(Rc::new(alloc, blocks)?),
        })
    }

    // The blocks in memory of their own: a pointer for each is copied.
    fn own(&self, alloc: Global) -> Result<Vec<Block<T>>, NoMemory>
        ensures { IfOk result (λ made. made.items ≡ self.now) }
    {
        copy_all(alloc, self.as_slice())
    }

    /// Puts an item at its place, instead of the one with its key. At `Err`, memory ran out, and the items are as they were.
    pub fn put(&mut self, alloc: Global, near: &Near, item: Shared<T>) -> Result<(), NoMemory>
        requires { AreBlocks bytes_cmp T.key self.old }
        ensures ok { OnOk result (items_of self.new ≡ put_in bytes_cmp T.key item (items_of self.old)) }
        ensures err { OnErr result (items_of self.new ≡ items_of self.old) }
        ensures kept { AreBlocks bytes_cmp T.key self.new }
    {
        if let Some(shared) = &mut self.blocks {
            if let Some(blocks) = Rc::get_mut(shared) {
                return put_item(alloc, blocks, near, item);
            }
        }
        let mut blocks = self.own(alloc)?;
        put_item(alloc, &mut blocks, near, item)?;
        self.blocks = Some(Rc::new(alloc, blocks)?);
        Ok(())
    }

    /// Takes the item of this key out. At `Err`, memory ran out, and the items are as they were.
    pub fn remove(&mut self, alloc: Global, near: &Near, key: &[u8]) -> Result<(), NoMemory>
        requires { AreBlocks bytes_cmp T.key self.old }
        ensures ok { OnOk result (items_of self.new ≡ without_in bytes_cmp T.key key.now (items_of self.old)) }
        ensures err { OnErr result (items_of self.new ≡ items_of self.old) }
        ensures kept { AreBlocks bytes_cmp T.key self.new }
    {
        if let Some(shared) = &mut self.blocks {
            if let Some(blocks) = Rc::get_mut(shared) {
                return remove_item(alloc, blocks, near, key);
            }
        }
        let mut blocks = self.own(alloc)?;
        remove_item(alloc, &mut blocks, near, key)?;
        self.blocks = Some(Rc::new(alloc, blocks)?);
        Ok(())
    }
}

impl<T: Drop> Duplicate for SharedBlocks<T> {
    // A further owner of the same blocks. It takes no memory: `NoMemory` comes only where a `usize` can't count the owners.
    fn copy(&self, _alloc: Global) -> Result<Self, NoMemory> {
        match &self.blocks {
            Some(blocks) => Ok(SharedBlocks {
                blocks: Some(blocks.clone()?),
            }),
            None => Ok(SharedBlocks { blocks: None }),
        }
    }
}
