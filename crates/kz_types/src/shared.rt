//! An item that has several owners.
ghost use Rattle.std.specs.Prelude.{◌≡◌, IfOk};

use crate::{Duplicate, NoMemory};
use std::alloc::Global;
use std::marker::Model;
use std::rc::Rc;

/// An item that several lists may hold. Contracts see the item.
#[derive(Drop)]
pub struct Shared<T> {
    item: Rc<T>,
}

impl<T> Model for Shared<T> {
    ghost Value = { T };

    ghost view = { λ s. s.item.value };
}

impl<T: Drop> Shared<T> {
    /// The item with its first owner.
    pub fn new(alloc: Global, item: T) -> Result<Self, NoMemory>
        ensures { IfOk result (λ made. made ≡ item) }
    {
        Ok(Shared {
            item: Rc::new(alloc, item)?,
        })
    }
}

impl<T> Shared<T> {
    /// Lends the item.
    pub fn get(&self) -> &T
        ensures { result.now ≡ self.now }
    {
        self.item.as_ref()
    }
}

impl<T: Drop> Duplicate for Shared<T> {
    // A further owner of the same item. It takes no memory: `NoMemory` comes only where a `usize` can't count the owners.
    fn copy(&self, _alloc: Global) -> Result<Self, NoMemory> {
        Ok(Shared {
            item: self.item.clone()?,
        })
    }
}
