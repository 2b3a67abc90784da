//! A list of numbers, with levels of numbers above it.
ghost use Rattle.std.specs.Prelude.{◌≡◌, ◌<◌, [], true, length, set, slice_index_or, position, IfOk};
ghost use Rattle.std.specs.List.{list_any, position_or_len};
ghost use Rattle.kz_row_numbers.specs.Joins.{no_numbers, all_joined, is_later};
ghost use Rattle.kz_row_numbers.specs.Levels.{lowest, AreLevels};

use crate::joined_numbers::Numbers;
use crate::level::Level;
use kz_types::{Duplicate, NoMemory, copy_all};
use std::alloc::Global;
use std::marker::Model;

/// A list of numbers. Contracts see the list.
///
/// It is kept as levels. The lowest is the list, and each other has the numbers of the level below it, two and two
/// together. So a change and a search look at one or two numbers of each level, and there are as many levels as the length
/// has binary digits, or one more. A copy costs all numbers.
#[derive(Drop)]
pub struct Segments {
    levels: Vec<Level>,
}

impl Model for Segments {
    ghost use Rattle.std.specs.Prelude.{List};
    ghost use Rattle.kz_row_numbers.specs.declared.joined_numbers.Numbers.{Numbers};
    ghost use Rattle.kz_row_numbers.specs.Levels.{lowest, AreLevels};

    ghost Value = { List Numbers };

    ghost view = { λ s. lowest s.levels.items };

    ghost invariant = { λ s. AreLevels s.levels.items };
}

// This level and those above it.
fn levels_from(alloc: Global, level: Level) -> Result<Vec<Level>, NoMemory>
    ensures levels { IfOk result (λ made. AreLevels made.items) }
    ensures lowest { IfOk result (λ made. lowest made.items ≡ level) }
{
    if level.len() <= 1 {
        let mut levels = Vec::new(alloc);
        levels.push(level)?;
        return Ok(levels);
    }
    let above = level.above(alloc)?;
    let mut levels = levels_from(alloc, above)?;
    levels.insert(0, level)?;
    Ok(levels)
}

// Puts numbers in the place of others at the lowest level, and what follows from them into the levels above.
fn set_from(levels: &mut [Level], place: usize, numbers: Numbers)
    requires levels { AreLevels levels.old }
    requires within { place < length (lowest levels.old) }
    ensures lowest { lowest levels.new ≡ set (lowest levels.old) place numbers }
    ensures levels { AreLevels levels.new }
{
    let Some((level, above)) = levels.split_first_mut() else {
        return;
    };
    level.set(place, numbers);
    if above.is_empty() {
        return;
    }
    let pair = level.pair(place / 2);
    set_from(above, place / 2, pair);
}

// The first place at the lowest level whose numbers are later. There is one.
fn place_of_later(levels: &[Level], zxid: i64) -> usize
    requires levels { AreLevels levels.now }
    requires some { list_any (is_later zxid) (lowest levels.now) ≡ true }
    ensures { result ≡ position_or_len (is_later zxid) (lowest levels.now) }
{
    let Some((level, above)) = levels.split_first() else {
        return 0;
    };
    if above.is_empty() {
        return 0;
    }
    level.later_of_pair(place_of_later(above, zxid), zxid)
}

impl Segments {
    /// The empty list, which takes no memory.
    pub fn new(alloc: Global) -> Segments
        ensures { result ≡ [] }
    {
        Segments {
            levels: Vec::new(alloc),
        }
    }

    /// The list of these numbers. At `Err`, memory ran out.
    pub fn of(alloc: Global, numbers: Vec<Numbers>) -> Result<Segments, NoMemory>
        ensures { IfOk result (λ made. made ≡ numbers.items) }
    {
        Ok(Segments {
            levels: levels_from(alloc, Level::new(numbers))?,
        })
    }

    /// A copy of the numbers.
    pub fn numbers(&self, alloc: Global) -> Result<Vec<Numbers>, NoMemory>
        ensures { IfOk result (λ made. made.items ≡ self.now) }
    {
        match self.levels.first() {
            Some(level) => level.numbers(alloc),
            None => Ok(Vec::new(alloc)),
        }
    }

    /// Puts numbers in the place of others. It takes no memory.
    pub fn set(&mut self, place: usize, numbers: Numbers)
        requires { place < length self.old }
        ensures { self.new ≡ set self.old place numbers }
    {
        set_from(&mut self.levels, place, numbers);
    }

    /// The numbers at a place.
    pub fn at(&self, place: usize) -> Numbers
        requires { place < length self.now }
        ensures { result ≡ slice_index_or self.now place no_numbers }
    {
        match self.levels.first() {
            Some(level) => level.at(place),
            None => Numbers::none(),
        }
    }

    /// The numbers of the whole list together.
    pub fn whole(&self) -> Numbers
        ensures { result ≡ all_joined self.now }
    {
        match self.levels.last() {
            Some(level) => level.top(),
            None => Numbers::none(),
        }
    }

    /// The first place whose numbers are later than a transaction, if there is one.
    pub fn first_later(&self, zxid: i64) -> Option<usize>
        ensures { result ≡ position (is_later zxid) self.now }
    {
        if self.whole().is_later(zxid) {
            Some(place_of_later(&self.levels, zxid))
        } else {
            None
        }
    }
}

impl Duplicate for Segments {
    fn copy(&self, alloc: Global) -> Result<Self, NoMemory> {
        Ok(Segments {
            levels: copy_all(alloc, &self.levels)?,
        })
    }
}
