//! Parts that several lists may have.
ghost use Rattle.std.specs.Prelude.{◌≡◌, [], OnOk, OnErr, IfOk};
ghost use Rattle.kz_types.specs.Order.{bytes_cmp};
ghost use Rattle.kz_types.specs.Ordered.{put as put_in, without as without_in};
ghost use Rattle.kz_sorted.specs.BlockLists.{items_of, AreParts};

use crate::change_parts::{put_in_parts, remove_in_parts};
use crate::part::Part;
use crate::{Keyed, Near};
use kz_types::{Duplicate, NoMemory, Shared, copy_all};
use std::alloc::Global;
use std::marker::Model;
use std::rc::Rc;

/// Parts in memory that several lists may have: a copy costs a pointer. The first change of one that another list has copies the
/// pointers to its parts. Contracts see the list of the parts.
#[derive(Drop)]
pub struct SharedParts<T: Keyed> {
    parts: Option<Rc<Vec<Part<T>>>>,
}

impl<T: Keyed> Model for SharedParts<T> {
    ghost use Rattle.std.specs.Prelude.{List, option_map};
    ghost use Rattle.kz_sorted.specs.BlockLists.{blocks_held};

    ghost Value = { List (List T) };

    ghost view = { λ s. blocks_held (option_map (λ parts. parts.value.items) s.parts) };
}

impl<T: Keyed> SharedParts<T> {
    /// No part. It takes no memory.
    pub fn new() -> Self
        ensures { result ≡ [] }
    {
        SharedParts { parts: None }
    }

    /// Lends the parts.
    pub fn as_slice(&self) -> &[Part<T>]
        ensures { result.now ≡ self.now }
    {
        match &self.parts {
            Some(parts) => parts.as_ref().as_slice(),
            None => &[],
        }
    }
}

impl<T: Keyed + Drop> SharedParts<T> {
    // The parts in memory of their own: a pointer for each is copied.
    fn own(&self, alloc: Global) -> Result<Vec<Part<T>>, NoMemory>
        ensures { IfOk result (λ made. made.items ≡ self.now) }
    {
        copy_all(alloc, self.as_slice())
    }

    /// Puts an item at its place, instead of the one with its key. At `Err`, memory ran out, and the items are as they were.
    pub fn put(&mut self, alloc: Global, near: &Near, item: Shared<T>) -> Result<(), NoMemory>
        requires { AreParts bytes_cmp T.key self.old }
        ensures ok { OnOk result (items_of self.new ≡ put_in bytes_cmp T.key item (items_of self.old)) }
        ensures err { OnErr result (items_of self.new ≡ items_of self.old) }
        ensures kept { AreParts bytes_cmp T.key self.new }
    {
        if let Some(shared) = &mut self.parts {
            if let Some(parts) = Rc::get_mut(shared) {
                return put_in_parts(alloc, parts, near, item);
            }
        }
        let mut parts = self.own(alloc)?;
        put_in_parts(alloc, &mut parts, near, item)?;
        self.parts = Some(Rc::new(alloc, parts)?);
        Ok(())
    }

    /// Takes the item of this key out. At `Err`, memory ran out, and the items are as they were.
    pub fn remove(&mut self, alloc: Global, near: &Near, key: &[u8]) -> Result<(), NoMemory>
        requires { AreParts bytes_cmp T.key self.old }
        ensures ok { OnOk result (items_of self.new ≡ without_in bytes_cmp T.key key.now (items_of self.old)) }
        ensures err { OnErr result (items_of self.new ≡ items_of self.old) }
        ensures kept { AreParts bytes_cmp T.key self.new }
    {
        if let Some(shared) = &mut self.parts {
            if let Some(parts) = Rc::get_mut(shared) {
                return remove_in_parts(alloc, parts, near, key);
            }
        }
        let mut parts = self.own(alloc)?;
        remove_in_parts(alloc, &mut parts, near, key)?;
        self.parts = Some(Rc::new(alloc, parts)?);
        Ok(())
    }
}

impl<T: Keyed + Drop> Duplicate for SharedParts<T> {
    // A further owner of the same parts. It takes no memory: `NoMemory` comes only where a `usize` can't count the owners.
    fn copy(&self, _alloc: Global) -> Result<Self, NoMemory> {
        match &self.parts {
            Some(parts) => Ok(SharedParts {
                parts: Some(parts.clone()?),
            }),
            None => Ok(SharedParts { parts: None }),
        }
    }
}
