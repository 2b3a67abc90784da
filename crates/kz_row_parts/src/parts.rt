//! Znodes by rising path, as parts with the numbers of each.
ghost use Rattle.std.specs.Prelude.{◌≡◌, ◌-◌, [], true, Some, length, min, slice_get, option_map, IfOk, IfSome, OnOk, OnErr};
ghost use Rattle.std.specs.List.{filter, list_all};
ghost use Rattle.kz_types.specs.Paths.{is_migrated};
ghost use Rattle.kz_spec_data.specs.Loads.{is_before};
ghost use Rattle.kz_spec_data.specs.Tree.{row_at, put_row, without_row, is_after, is_later, first_row};
ghost use Rattle.kz_row_parts.specs.Kept.{AreRows};

use crate::before::is_before;
use crate::items::Items;
use crate::part::{Part, part_for};
use crate::part_changes;
use kz_row_numbers::Segments;
use kz_types::{Duplicate, NoMemory, Row, copy_all};
use std::alloc::Global;
use std::cell::Cell;
use std::marker::Model;

/// Znodes by rising path, no two with one path. Contracts see the list of the znodes.
///
/// They are kept as shared parts, and the numbers of the parts as segments. A copy costs a pointer and the numbers of each
/// part. A change copies the pointers to the blocks of one part, their numbers, and the pointers to the znodes of one block, and
/// only where another tree has that part or block. It puts new numbers in place of the part's old ones. Where a part comes or
/// goes, the segments are made anew from its numbers and those of the other parts.
#[derive(Drop)]
pub struct PartedRows {
    alloc: Global,
    parts: Vec<Part>,
    segments: Segments,
    near: Cell<usize>,
}

impl Model for PartedRows {
    ghost use Rattle.std.specs.Prelude.{List};
    ghost use Rattle.kz_types.specs.declared.tree.Row.{Row};
    ghost use Rattle.kz_sorted.specs.BlockLists.{items_of};
    ghost use Rattle.kz_row_parts.specs.Numbered.{AreNumberedParts};

    ghost Value = { List Row };

    ghost view = { λ p. items_of p.parts.items };

    ghost invariant = { λ p. AreNumberedParts p.parts.items p.segments };
}

impl PartedRows {
    /// No znode. It takes no memory.
    pub fn new(alloc: Global) -> PartedRows
        ensures { result ≡ [] }
    {
        PartedRows {
            alloc,
            parts: Vec::new(alloc),
            segments: Segments::new(alloc),
            near: Cell::new(0),
        }
    }

    /// How many znodes there are, or the greatest `usize` where there are more.
    pub fn count(&self) -> usize
        ensures { result ≡ min (length self.now) usize.MAX }
    {
        self.segments.whole().rows
    }

    /// The znode at a path. Where the last look-up ended is tried first, and what comes after it. Else the part is found by
    /// halves, the block in it, and the znode in that, too.
    pub fn find(&self, path: &[u8]) -> Option<&Row>
        ensures { option_map (λ row. row.now) result ≡ row_at path.now self.now }
    {
        if self.parts.is_empty() {
            return None;
        }
        let place = part_for(&self.parts, path, self.near.get());
        self.near.set(place);
        self.parts[place].rows().find(path)
    }

    // The znode at a path, if it is one of the last of all.
    fn find_at_end(&self, path: &[u8]) -> Option<&Row>
        ensures { IfSome result (λ row. row_at path.now self.now ≡ Some row.now) }
    {
        if self.parts.is_empty() {
            return None;
        }
        let place = self.parts.len() - 1;
        self.parts[place].rows().find_at_end(path)
    }

    /// The znode at a path, as `find` tells it. A few of the last znodes are looked at first.
    pub fn find_near_end(&self, path: &[u8]) -> Option<&Row>
        ensures { option_map (λ row. row.now) result ≡ row_at path.now self.now }
    {
        if let Some(row) = self.find_at_end(path) {
            return Some(row);
        }
        self.find(path)
    }

    /// The last znode, if there is one. It looks at one block.
    pub fn last(&self) -> Option<&Row>
        ensures last { option_map (λ row. row.now) result ≡ slice_get self.now (length self.now - 1) }
        ensures rise { AreRows self.now }
    {
        if self.parts.is_empty() {
            return None;
        }
        let place = self.parts.len() - 1;
        self.parts[place].rows().last()
    }

    /// Whether the path of each znode comes before this one. It compares that of the last znode alone.
    pub fn are_before(&self, path: &[u8]) -> bool
        ensures { result ≡ list_all (is_before path.now) self.now }
    {
        match self.last() {
            Some(row) => is_before(row.path.bytes(), path),
            None => true,
        }
    }

    /// All znodes, by rising path.
    pub fn items(&self) -> Items<'_>
        ensures items { result ≡ self.now }
        ensures rise { AreRows self.now }
    {
        Items::new(kz_sorted::Items::new(&[], &[]), &self.parts)
    }

    /// The znodes after these bytes, by rising path. Their begin is found as a znode is by `find`.
    pub fn items_after(&self, path: &[u8]) -> Items<'_>
        ensures items { result ≡ filter (is_after (Some path.now)) self.now }
        ensures rise { AreRows self.now }
    {
        if self.parts.is_empty() {
            return self.items();
        }
        let place = part_for(&self.parts, path, self.near.get());
        let items = self.parts[place].rows().items_after(path);
        Items::new(items, &self.parts[place + 1..])
    }

    /// The first migrated znode that was written after a transaction, or whose children were. Its part is found by numbers
    /// of few parts, and its block by numbers of few blocks. Then each znode of that block may be looked at.
    pub fn first_later(&self, zxid: i64) -> Option<&Row>
        ensures { option_map (λ row. row.now) result ≡ first_row (filter (is_later zxid) (filter (λ row. is_migrated row.path) self.now)) }
    {
        let Some(place) = self.segments.first_later(zxid) else {
            return None;
        };
        self.parts[place].rows().first_later(zxid)
    }

    /// Puts a znode at its place, instead of the one with its path. A part that has as many blocks as it may have, and
    /// needs another one, becomes two first. At `Err`, memory ran out, and the znodes are as they were.
    pub fn put(&mut self, row: Row) -> Result<(), NoMemory>
        ensures ok { OnOk result (self.new ≡ put_row row self.old) }
        ensures err { OnErr result (self.new ≡ self.old) }
    {
        part_changes::put(
            self.alloc,
            &mut self.parts,
            &mut self.segments,
            self.near.get(),
            row,
        )
    }

    /// Puts a znode after all others. It searches for no place. It begins a part where the last one is full. At `Err`, memory ran out, and the znodes are as they were.
    pub fn append(&mut self, row: Row) -> Result<(), NoMemory>
        requires { list_all (is_before row.path) self.old ≡ true }
        ensures ok { OnOk result (self.new ≡ put_row row self.old) }
        ensures err { OnErr result (self.new ≡ self.old) }
    {
        part_changes::append(self.alloc, &mut self.parts, &mut self.segments, row)
    }

    /// Takes the znode of a path out, where there is one. At `Err`, memory ran out, and the znodes are as they were.
    pub fn take_out(&mut self, path: &[u8]) -> Result<(), NoMemory>
        ensures ok { OnOk result (self.new ≡ without_row path.now self.old) }
        ensures err { OnErr result (self.new ≡ self.old) }
    {
        part_changes::take_out(
            self.alloc,
            &mut self.parts,
            &mut self.segments,
            self.near.get(),
            path,
        )
    }
}

impl Duplicate for PartedRows {
    // The same znodes in the same parts.
    fn copy(&self, alloc: Global) -> Result<Self, NoMemory> {
        Ok(PartedRows {
            alloc,
            parts: copy_all(alloc, &self.parts)?,
            segments: self.segments.copy(alloc)?,
            near: Cell::new(self.near.get()),
        })
    }
}
