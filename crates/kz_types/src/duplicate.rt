//! Copies that may run out of memory.
ghost use Rattle.std.specs.Prelude.{◌≡◌, IfOk};

use crate::NoMemory;
use std::alloc::Global;

/// What can be copied where there is memory.
pub trait Duplicate: Sized + Drop {
    /// An equal value, or out of memory.
    fn copy(&self, alloc: Global) -> Result<Self, NoMemory>
        ensures { IfOk result (λ made. made ≡ self.now) };

    /// A copy of each item, in order. Memory for the list is taken once.
    fn copy_each(alloc: Global, items: &[Self]) -> Result<Vec<Self>, NoMemory>
        ensures { IfOk result (λ made. made.items ≡ items.now) }
    {
        let mut copies = Vec::with_capacity(alloc, items.len())?;
        for item in items {
            copies.push(item.copy(alloc)?)?;
        }
        Ok(copies)
    }
}

impl Duplicate for u8 {
    fn copy(&self, _alloc: Global) -> Result<Self, NoMemory> {
        Ok(*self)
    }

    // Bytes are copied as a whole.
    fn copy_each(alloc: Global, items: &[u8]) -> Result<Vec<u8>, NoMemory> {
        Ok(items.to_vec(alloc)?)
    }
}

impl Duplicate for i32 {
    fn copy(&self, _alloc: Global) -> Result<Self, NoMemory> {
        Ok(*self)
    }
}

impl Duplicate for i64 {
    fn copy(&self, _alloc: Global) -> Result<Self, NoMemory> {
        Ok(*self)
    }
}

impl<T: Duplicate + Drop> Duplicate for Option<T> {
    fn copy(&self, alloc: Global) -> Result<Self, NoMemory> {
        match self {
            Some(item) => Ok(Some(item.copy(alloc)?)),
            None => Ok(None),
        }
    }
}

/// A copy of each item, in order.
pub fn copy_all<T: Duplicate>(alloc: Global, items: &[T]) -> Result<Vec<T>, NoMemory>
    ensures { IfOk result (λ made. made.items ≡ items.now) }
{
    T::copy_each(alloc, items)
}
