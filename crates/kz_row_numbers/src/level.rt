//! A level of numbers.
ghost use Rattle.std.specs.Prelude.{◌≡◌, ◌≤◌, ◌<◌, ◌+◌, ◌*◌, if◌then◌else◌, length, set, slice_index_or, IfOk};
ghost use Rattle.kz_row_numbers.specs.Joins.{no_numbers, all_joined, is_later};
ghost use Rattle.kz_row_numbers.specs.Levels.{pairs};

use crate::joined_numbers::{Numbers, join};
use kz_types::{Duplicate, NoMemory, copy_all};
use std::alloc::Global;
use std::marker::Model;

/// A list of numbers. Contracts see the list.
#[derive(Drop)]
pub struct Level {
    numbers: Vec<Numbers>,
}

impl Model for Level {
    ghost use Rattle.std.specs.Prelude.{List};
    ghost use Rattle.kz_row_numbers.specs.declared.joined_numbers.Numbers.{Numbers};

    ghost Value = { List Numbers };

    ghost view = { λ l. l.numbers.items };
}

impl Level {
    /// The level of these numbers.
    pub fn new(numbers: Vec<Numbers>) -> Level
        ensures { result ≡ numbers.items }
    {
        Level { numbers }
    }

    /// How many numbers there are.
    pub fn len(&self) -> usize
        ensures { result ≡ length self.now }
    {
        self.numbers.len()
    }

    /// A copy of the numbers.
    pub fn numbers(&self, alloc: Global) -> Result<Vec<Numbers>, NoMemory>
        ensures { IfOk result (λ made. made.items ≡ self.now) }
    {
        copy_all(alloc, &self.numbers)
    }

    /// The numbers at a place.
    pub fn at(&self, place: usize) -> Numbers
        requires { place < length self.now }
        ensures { result ≡ slice_index_or self.now place no_numbers }
    {
        self.numbers[place]
    }

    /// The numbers of the two at twice a place and behind it together. The last may be alone.
    pub fn pair(&self, place: usize) -> Numbers
        requires { 2 * place < length self.now }
        ensures { result ≡ slice_index_or (pairs self.now) place no_numbers }
    {
        let count = self.numbers.len();
        let first = self.numbers[2 * place];
        if 2 * place + 1 == count {
            return first;
        }
        join(first, self.numbers[2 * place + 1])
    }

    /// The place of the first of these two that is later than a transaction, where one of them is.
    pub fn later_of_pair(&self, place: usize, zxid: i64) -> usize
        requires { 2 * place < length self.now }
        ensures { result ≡ (if is_later zxid (slice_index_or self.now (2 * place) no_numbers) then 2 * place else 2 * place + 1) }
    {
        let _count = self.numbers.len();
        if self.numbers[2 * place].is_later(zxid) {
            return 2 * place;
        }
        2 * place + 1
    }

    /// Where there is at most one, these numbers, or those of no znode.
    pub fn top(&self) -> Numbers
        requires { length self.now ≤ 1 }
        ensures { result ≡ all_joined self.now }
    {
        match self.numbers.first() {
            Some(numbers) => join(*numbers, Numbers::none()),
            None => Numbers::none(),
        }
    }

    /// Puts numbers in the place of others.
    pub fn set(&mut self, place: usize, numbers: Numbers)
        requires { place < length self.old }
        ensures { self.new ≡ set self.old place numbers }
    {
        self.numbers[place] = numbers;
    }

    /// The level above this one.
    pub fn above(&self, alloc: Global) -> Result<Level, NoMemory>
        ensures { IfOk result (λ made. made ≡ pairs self.now) }
    {
        let mut numbers = Vec::new(alloc);
        let count = self.len().div_ceil(2);
        for place in 0..count {
            numbers.push(self.pair(place))?;
        }
        Ok(Level { numbers })
    }
}

impl Duplicate for Level {
    fn copy(&self, alloc: Global) -> Result<Self, NoMemory> {
        Ok(Level {
            numbers: copy_all(alloc, &self.numbers)?,
        })
    }
}
