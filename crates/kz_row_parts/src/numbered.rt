//! Znodes by rising path, with the numbers of each block.
ghost use Rattle.std.specs.Prelude.{◌≡◌, ◌-◌, [], true, Some, length, slice_get, option_map, IfOk, IfSome, OnOk, OnErr};
ghost use Rattle.std.specs.List.{filter, list_all};
ghost use Rattle.kz_types.specs.Paths.{is_migrated};
ghost use Rattle.kz_spec_data.specs.Loads.{is_before};
ghost use Rattle.kz_sorted.specs.BlockLists.{items_of, first_key};
ghost use Rattle.kz_spec_data.specs.Tree.{path_of_row, row_at, put_row, without_row, is_after, is_later, first_row};
ghost use Rattle.kz_row_parts.specs.Kept.{AreRows};
ghost use Rattle.kz_row_parts.specs.Numbered.{numbers_of, AreNumbered, AreHalves};

use crate::changes;
use crate::later::first_later;
use kz_order::are_equal;
use kz_row_numbers::{Numbers, Segments};
use kz_sorted::{
    Block, Items, Keyed, MAX_BLOCK_ITEMS, MAX_PART_BLOCKS, Near, Shared, block_for, items_after,
};
use kz_types::{Duplicate, NoMemory, Row, copy_all};
use std::alloc::Global;
use std::marker::Model;

/// Znodes by rising path, no two with one path. Contracts see the list of the znodes.
///
/// They are kept as shared blocks, and the numbers of the blocks as segments. A copy costs a pointer and the numbers of each
/// block. A change of a block puts new numbers in place of its old ones. Where a block comes or goes, the segments are made
/// anew from its numbers and those of the other blocks. A tree keeps its znodes as several of these lists, its parts.
#[derive(Drop)]
pub struct NumberedRows {
    alloc: Global,
    blocks: Vec<Block<Row>>,
    segments: Segments,
    near: Near,
}

impl Model for NumberedRows {
    ghost use Rattle.std.specs.Prelude.{List};
    ghost use Rattle.kz_types.specs.declared.tree.Row.{Row};
    ghost use Rattle.kz_sorted.specs.BlockLists.{items_of};
    ghost use Rattle.kz_row_parts.specs.Numbered.{AreNumbered};

    ghost Value = { List Row };

    ghost view = { λ n. items_of n.blocks.items };

    ghost invariant = { λ n. AreNumbered n.blocks.items n.segments };
}

// So many of the last znodes are looked at before a search.
const LAST_ROWS: usize = 8;

// The znode at a path, if it is one of the last of these.
fn find_among_last<'a>(rows: &'a [Shared<Row>], path: &[u8]) -> Option<&'a Row>
    requires { AreRows rows.now }
    ensures { IfSome result (λ row. row_at path.now rows.entry.now ≡ Some row.now) }
{
    let from = rows.len().saturating_sub(LAST_ROWS);
    for row in &rows[from..] {
        let row = row.get();
        if are_equal(row.path.bytes(), path) {
            return Some(row);
        }
    }
    None
}

// These blocks with their numbers, as a list that shares the blocks.
fn of_blocks(
    alloc: Global,
    blocks: &[Block<Row>],
    numbers: Vec<Numbers>,
) -> Result<NumberedRows, NoMemory>
    requires { AreNumbered blocks.now numbers.items }
    ensures { IfOk result (λ made. made ≡ items_of blocks.now) }
{
    Ok(NumberedRows {
        alloc,
        blocks: copy_all(alloc, blocks)?,
        segments: Segments::of(alloc, numbers)?,
        near: Near::new(),
    })
}

impl NumberedRows {
    /// No znode. It takes no memory.
    pub fn new(alloc: Global) -> NumberedRows
        ensures { result ≡ [] }
    {
        NumberedRows {
            alloc,
            blocks: Vec::new(alloc),
            segments: Segments::new(alloc),
            near: Near::new(),
        }
    }

    /// The numbers of all znodes together.
    pub fn numbers(&self) -> Numbers
        ensures { result ≡ numbers_of self.now }
    {
        self.segments.whole()
    }

    /// Whether a znode of this path can be put, and there are no more blocks then than a part may have. Contracts don't see
    /// the blocks.
    pub fn has_room(&self, path: &[u8]) -> bool {
        if self.blocks.len() < MAX_PART_BLOCKS {
            return true;
        }
        let place = block_for(&self.blocks, path, self.near.block());
        changes::fits_in(&self.blocks[place], path, self.near.item())
    }

    /// The same of a znode after all others. It searches for no place.
    pub fn has_room_at_end(&self) -> bool {
        match self.blocks.last() {
            Some(block) => {
                self.blocks.len() < MAX_PART_BLOCKS || block.items().len() < MAX_BLOCK_ITEMS
            }
            None => true,
        }
    }

    /// The path of the first znode. It is empty where there is none.
    pub fn first_path(&self) -> &[u8]
        ensures { result.now ≡ first_key path_of_row [] self.now }
    {
        match self.blocks.first() {
            Some(block) => block.key(),
            None => &[],
        }
    }

    /// The znode at a path. Where the last look-up ended is tried first, and what comes after it. Else the block is found by halves,
    /// and the znode in it, too.
    pub fn find(&self, path: &[u8]) -> Option<&Row>
        ensures { option_map (λ row. row.now) result ≡ row_at path.now self.now }
    {
        if self.blocks.is_empty() {
            return None;
        }
        let place = block_for(&self.blocks, path, self.near.block());
        let (found, at) = self.blocks[place].find(path, self.near.item());
        self.near.set(place, at);
        found
    }

    /// The znode at a path, if it is one of the last of all. It looks at few of them.
    pub fn find_at_end(&self, path: &[u8]) -> Option<&Row>
        ensures { IfSome result (λ row. row_at path.now self.now ≡ Some row.now) }
    {
        if self.blocks.is_empty() {
            return None;
        }
        let place = self.blocks.len() - 1;
        find_among_last(self.blocks[place].items(), path)
    }

    /// The last znode, if there is one. It looks at one block.
    pub fn last(&self) -> Option<&Row>
        ensures last { option_map (λ row. row.now) result ≡ slice_get self.now (length self.now - 1) }
        ensures rise { AreRows self.now }
    {
        if self.blocks.is_empty() {
            return None;
        }
        let place = self.blocks.len() - 1;
        self.blocks[place].last()
    }

    /// All znodes, by rising path.
    pub fn items(&self) -> Items<'_, Row>
        ensures items { result ≡ self.now }
        ensures rise { AreRows self.now }
    {
        Items::new(&[], &self.blocks)
    }

    /// The znodes after these bytes, by rising path. Their begin is found as a znode is by `find`.
    pub fn items_after(&self, path: &[u8]) -> Items<'_, Row>
        ensures items { result ≡ filter (is_after (Some path.now)) self.now }
        ensures rise { AreRows self.now }
    {
        if self.blocks.is_empty() {
            return self.items();
        }
        let place = block_for(&self.blocks, path, self.near.block());
        let items = items_after(self.blocks[place].items(), path);
        Items::new(items, &self.blocks[place + 1..])
    }

    /// The first migrated znode that was written after a transaction, or whose children were. Its block is found by numbers
    /// of few blocks, and then each znode of that block may be looked at.
    pub fn first_later(&self, zxid: i64) -> Option<&Row>
        ensures { option_map (λ row. row.now) result ≡ first_row (filter (is_later zxid) (filter (λ row. is_migrated row.path) self.now)) }
    {
        let Some(place) = self.segments.first_later(zxid) else {
            return None;
        };
        first_later(self.blocks[place].items(), zxid)
    }

    /// A list of the first half of the blocks, and one of the others, where there are two blocks or more. They share the
    /// blocks with this one.
    pub fn in_two(&self) -> Result<Option<(NumberedRows, NumberedRows)>, NoMemory>
        ensures { IfOk result (λ made. IfSome made (λ halves. AreHalves halves.0 halves.1 self.now)) }
    {
        let middle = self.blocks.len() / 2;
        if middle == 0 {
            return Ok(None);
        }
        let mut numbers = self.segments.numbers(self.alloc)?;
        let others = numbers.split_off(middle)?;
        let second = of_blocks(self.alloc, &self.blocks[middle..], others)?;
        let first = of_blocks(self.alloc, &self.blocks[..middle], numbers)?;
        Ok(Some((first, second)))
    }

    /// Puts a znode at its place, instead of the one with its path. At `Err`, memory ran out, and the znodes are as they
    /// were.
    pub fn put(&mut self, row: Row) -> Result<(), NoMemory>
        ensures ok { OnOk result (self.new ≡ put_row row self.old) }
        ensures err { OnErr result (self.new ≡ self.old) }
    {
        let row = Shared::new(self.alloc, row)?;
        changes::put(
            self.alloc,
            &mut self.blocks,
            &mut self.segments,
            &self.near,
            row,
        )
    }

    /// Puts a znode after all others. It searches for no place. At `Err`, memory ran out, and the znodes are as they were.
    pub fn append(&mut self, row: Row) -> Result<(), NoMemory>
        requires { list_all (is_before row.path) self.old ≡ true }
        ensures ok { OnOk result (self.new ≡ put_row row self.old) }
        ensures err { OnErr result (self.new ≡ self.old) }
    {
        let row = Shared::new(self.alloc, row)?;
        changes::append(self.alloc, &mut self.blocks, &mut self.segments, row)
    }

    /// Takes the znode of a path out, where there is one. At `Err`, memory ran out, and the znodes are as they were.
    pub fn take_out(&mut self, path: &[u8]) -> Result<(), NoMemory>
        ensures ok { OnOk result (self.new ≡ without_row path.now self.old) }
        ensures err { OnErr result (self.new ≡ self.old) }
    {
        changes::take_out(
            self.alloc,
            &mut self.blocks,
            &mut self.segments,
            &self.near,
            path,
        )
    }
}

impl Duplicate for NumberedRows {
    // The same znodes in the same blocks. A look-up in the copy begins where the last one here ended.
    fn copy(&self, alloc: Global) -> Result<Self, NoMemory> {
        let near = Near::new();
        near.set(self.near.block(), self.near.item());
        Ok(NumberedRows {
            alloc,
            blocks: copy_all(alloc, &self.blocks)?,
            segments: self.segments.copy(alloc)?,
            near,
        })
    }
}
