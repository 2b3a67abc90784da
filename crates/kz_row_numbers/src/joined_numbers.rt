//! The numbers of some znodes.
ghost use Rattle.std.specs.Prelude.{◌≡◌};
ghost use Rattle.kz_row_numbers.specs.Joins.{no_numbers, joined, greater, is_later};

use kz_types::{Duplicate, NoMemory};
use std::alloc::Global;

/// The numbers of some znodes, as those of a block.
#[derive(Clone, Copy)]
pub struct Numbers {
    /// How many znodes there are, or the greatest `usize` where there are more.
    pub rows: usize,
    /// The last transaction that wrote a migrated one of them, or its children. One number stands for both. There is none
    /// where no znode is migrated.
    pub latest: Option<i64>,
}

// The greater of two numbers, each of which may be missing.
fn greater(one: Option<i64>, other: Option<i64>) -> Option<i64>
    ensures { result ≡ greater one other }
{
    let Some(first) = one else {
        return other;
    };
    let Some(second) = other else {
        return one;
    };
    Some(first.max(second))
}

/// The numbers of two parts together.
pub fn join(one: Numbers, other: Numbers) -> Numbers
    ensures { result ≡ joined one other }
{
    Numbers {
        rows: one.rows.saturating_add(other.rows),
        latest: greater(one.latest, other.latest),
    }
}

impl Numbers {
    /// The numbers of no znode.
    pub fn none() -> Numbers
        ensures { result ≡ no_numbers }
    {
        Numbers {
            rows: 0,
            latest: None,
        }
    }

    /// Whether a migrated znode was written, or its children, after this transaction.
    pub fn is_later(&self, zxid: i64) -> bool
        ensures { result ≡ is_later zxid self.now }
    {
        match self.latest {
            Some(latest) => latest > zxid,
            None => false,
        }
    }
}

impl Duplicate for Numbers {
    fn copy(&self, _alloc: Global) -> Result<Self, NoMemory> {
        Ok(*self)
    }
}
