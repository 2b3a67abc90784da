//! A part of the znodes of a tree.
ghost use Rattle.std.specs.Prelude.{◌≡◌, ◌<◌, [], true, length, IfOk, OnOk, OnErr};
ghost use Rattle.std.specs.List.{list_all};
ghost use Rattle.kz_types.specs.Order.{bytes_cmp};
ghost use Rattle.kz_sorted.specs.BlockLists.{first_key, AreParts, IsBlockFor};
ghost use Rattle.kz_spec_data.specs.Loads.{is_before};
ghost use Rattle.kz_spec_data.specs.Tree.{path_of_row, put_row, without_row};

use crate::numbered::NumberedRows;
use kz_sorted::{Keyed, spot_near};
use kz_types::{Duplicate, NoMemory, Row};
use std::alloc::Global;
use std::marker::Model;
use std::rc::Rc;

/// Znodes by rising path, in memory that several trees may hold: a copy costs a pointer. A part that no other tree holds is
/// changed in place. Of another one the pointers to its blocks and their numbers are copied first. Contracts see the list of
/// the znodes.
#[derive(Drop)]
pub struct Part {
    rows: Rc<NumberedRows>,
}

impl Model for Part {
    ghost use Rattle.std.specs.Prelude.{List};
    ghost use Rattle.kz_types.specs.declared.tree.Row.{Row};

    ghost Value = { List Row };

    ghost view = { λ p. p.rows.value };
}

impl Part {
    /// The part of these znodes, with its first owner.
    pub fn new(alloc: Global, rows: NumberedRows) -> Result<Part, NoMemory>
        ensures { IfOk result (λ made. made ≡ rows) }
    {
        Ok(Part {
            rows: Rc::new(alloc, rows)?,
        })
    }

    /// Lends the znodes.
    pub fn rows(&self) -> &NumberedRows
        ensures { result.now ≡ self.now }
    {
        self.rows.as_ref()
    }

    /// Puts a znode at its place, instead of the one with its path. At `Err`, memory ran out, and the znodes are as they
    /// were.
    pub fn put(&mut self, alloc: Global, row: Row) -> Result<(), NoMemory>
        ensures ok { OnOk result (self.new ≡ put_row row self.old) }
        ensures err { OnErr result (self.new ≡ self.old) }
    {
        if let Some(rows) = Rc::get_mut(&mut self.rows) {
            return rows.put(row);
        }
        let mut rows = self.rows().copy(alloc)?;
        rows.put(row)?;
        self.rows = Rc::new(alloc, rows)?;
        Ok(())
    }

    /// Puts a znode after all others. It searches for no place. At `Err`, memory ran out, and the znodes are as they were.
    pub fn append(&mut self, alloc: Global, row: Row) -> Result<(), NoMemory>
        requires { list_all (is_before row.path) self.old ≡ true }
        ensures ok { OnOk result (self.new ≡ put_row row self.old) }
        ensures err { OnErr result (self.new ≡ self.old) }
    {
        if let Some(rows) = Rc::get_mut(&mut self.rows) {
            return rows.append(row);
        }
        let mut rows = self.rows().copy(alloc)?;
        rows.append(row)?;
        self.rows = Rc::new(alloc, rows)?;
        Ok(())
    }

    /// Takes the znode of a path out, where there is one. At `Err`, memory ran out, and the znodes are as they were.
    pub fn take_out(&mut self, alloc: Global, path: &[u8]) -> Result<(), NoMemory>
        ensures ok { OnOk result (self.new ≡ without_row path.now self.old) }
        ensures err { OnErr result (self.new ≡ self.old) }
    {
        if let Some(rows) = Rc::get_mut(&mut self.rows) {
            return rows.take_out(path);
        }
        let mut rows = self.rows().copy(alloc)?;
        rows.take_out(path)?;
        self.rows = Rc::new(alloc, rows)?;
        Ok(())
    }
}

impl Duplicate for Part {
    // A further owner of the same znodes. It takes no memory: `NoMemory` comes only where a `usize` can't count the owners.
    fn copy(&self, _alloc: Global) -> Result<Self, NoMemory> {
        Ok(Part {
            rows: self.rows.clone()?,
        })
    }
}

impl Keyed for Part {
    ghost key = { λ p. first_key path_of_row [] p };

    fn key(&self) -> &[u8] {
        self.rows().first_path()
    }
}

/// The place of the part in which the znode of this path stands or would stand. A guess of it is tried first. Then the first
/// paths of parts are compared by halves.
pub fn part_for(parts: &[Part], path: &[u8], guess: usize) -> usize
    requires { AreParts bytes_cmp path_of_row parts.now }
    ensures part { IsBlockFor bytes_cmp path_of_row path.now parts.now result }
    ensures within { 0 < length parts.now → result < length parts.now }
{
    match spot_near(parts, path, guess) {
        Ok(place) => place,
        Err(place) => place.saturating_sub(1),
    }
}
