//! Znodes by rising path.
ghost use Rattle.std.specs.Prelude.{◌≡◌, ◌≢◌, [], true, None, length, option_map, Some, IfOk, OnOk, OnErr, if◌then◌else◌};
ghost use Rattle.std.specs.List.{filter, count_by, list_all};
ghost use Rattle.kz_types.specs.Paths.{is_migrated};
ghost use Rattle.kz_spec_data.specs.Loads.{is_before};
ghost use Rattle.kz_spec_data.specs.Tree.{row_at, put_row, without_row, with_child_change, is_after, is_later, first_row, count_beside};
ghost use Rattle.kz_tree_rows.specs.Kept.{AreRows, ephemeral_rows};

use crate::ephemeral;
use kz_row_parts::{Items, PartedRows, is_migrated};
use kz_types::{Duplicate, NoMemory, Row, ZPath};
use std::alloc::Global;
use std::marker::Model;

/// Znodes by rising path, no two with one path, and no more than a `usize` can count. A copy has the same parts of
/// znodes: it costs a pointer and some numbers for each. Contracts see the list of the znodes.
///
/// A list of its own has the ephemeral ones, so that the end of a session doesn't look at the others. ZooKeeper keeps their
/// paths by session, too.
#[derive(Drop)]
pub struct Rows {
    alloc: Global,
    list: PartedRows,
    migrated: usize,
    ephemeral: PartedRows,
}

impl Model for Rows {
    ghost use Rattle.std.specs.Prelude.{List};
    ghost use Rattle.kz_types.specs.declared.tree.Row.{Row};
    ghost use Rattle.kz_tree_rows.specs.Kept.{AreKept};

    ghost Value = { List Row };

    ghost view = { λ r. r.list };

    ghost invariant = { λ r. AreKept r.list r.migrated r.ephemeral };
}

// 1 for a path of the migrated area, and 0 for another.
fn migrated_part(path: &[u8]) -> usize
    ensures { result ≡ (if is_migrated path.now then 1 else 0) }
{
    if is_migrated(path) { 1 } else { 0 }
}

// A copy of a znode that got or lost a child.
fn touched_row(alloc: Global, row: &Row, zxid: i64) -> Result<Row, NoMemory>
    ensures { IfOk result (λ made. made ≡ record row.now { pzxid = zxid }) }
{
    let mut made = row.copy(alloc)?;
    made.pzxid = zxid;
    Ok(made)
}

impl Rows {
    /// No znode.
    pub fn new(alloc: Global) -> Rows
        ensures { result ≡ [] }
    {
        Rows {
            alloc,
            list: PartedRows::new(alloc),
            migrated: 0,
            ephemeral: PartedRows::new(alloc),
        }
    }

    /// How many znodes there are.
    pub fn count(&self) -> usize
        ensures { result ≡ length self.now }
    {
        self.list.count()
    }

    /// How many of them are in the migrated area.
    pub fn migrated_count(&self) -> usize
        ensures { result ≡ count_by (λ row. is_migrated row.path) self.now }
    {
        self.migrated
    }

    /// How many znodes there are on the side of a path, of the border of the migrated area.
    pub fn count_beside(&self, path: &[u8]) -> usize
        ensures { result ≡ count_beside path.now self.now }
    {
        if is_migrated(path) {
            self.migrated
        } else {
            self.list.count() - self.migrated
        }
    }

    /// The znode at a path.
    pub fn find(&self, path: &[u8]) -> Option<&Row>
        ensures { option_map (λ row. row.now) result ≡ row_at path.now self.now }
    {
        self.list.find(path)
    }

    /// The znode at a path, as `find` tells it. A few of the last znodes are looked at first.
    pub fn find_near_end(&self, path: &[u8]) -> Option<&Row>
        ensures { option_map (λ row. row.now) result ≡ row_at path.now self.now }
    {
        self.list.find_near_end(path)
    }

    /// Whether the path of each znode comes before this one. It compares that of the last znode alone.
    pub fn are_before(&self, path: &[u8]) -> bool
        ensures { result ≡ list_all (is_before path.now) self.now }
    {
        self.list.are_before(path)
    }

    /// All znodes, by rising path.
    pub fn items(&self) -> Items<'_>
        ensures items { result ≡ self.now }
        ensures rise { AreRows self.now }
    {
        self.list.items()
    }

    /// The ephemeral znodes, by rising path. It looks at no others.
    pub fn ephemeral(&self) -> Items<'_>
        ensures items { result ≡ ephemeral_rows self.now }
        ensures rise { AreRows self.now }
    {
        self.ephemeral.items()
    }

    /// The znodes after a path, or all, by rising path.
    pub fn items_after(&self, after: Option<&ZPath>) -> Items<'_>
        ensures items { result ≡ filter (is_after (option_map (λ path. path.now) after.entry)) self.now }
        ensures rise { AreRows self.now }
    {
        match after {
            None => self.list.items(),
            Some(path) => self.list.items_after(path.bytes()),
        }
    }

    /// The znodes after these bytes, by rising path.
    pub fn items_after_bytes(&self, bytes: &[u8]) -> Items<'_>
        ensures items { result ≡ filter (is_after (Some bytes.now)) self.now }
        ensures rise { AreRows self.now }
    {
        self.list.items_after(bytes)
    }

    /// The first znode after a path, or the first of all.
    pub fn next_after(&self, after: Option<&ZPath>) -> Option<&Row>
        ensures { option_map (λ row. row.now) result ≡ first_row (filter (is_after (option_map (λ path. path.now) after.entry)) self.now) }
    {
        let mut items = self.items_after(after);
        items.next()
    }

    /// The first migrated znode that was written after a transaction, or whose children were. It looks at few numbers and at
    /// the znodes of one block.
    pub fn first_later(&self, zxid: i64) -> Option<&Row>
        ensures { option_map (λ row. row.now) result ≡ first_row (filter (is_later zxid) (filter (λ row. is_migrated row.path) self.now)) }
    {
        self.list.first_later(zxid)
    }

    // Puts a znode whose path no other has. Where a `usize` can't count one more, it answers out of memory.
    fn add(&mut self, row: Row) -> Result<(), NoMemory>
        requires { row_at row.path self.old ≡ None }
        ensures ok { OnOk result (self.new ≡ put_row row self.old) }
        ensures err { OnErr result (self.new ≡ self.old) }
    {
        if self.list.count() == usize::MAX {
            return Err(NoMemory);
        }
        let migrated = self.migrated + migrated_part(row.path.bytes());
        let ephemeral = ephemeral::with_added(self.alloc, &self.ephemeral, &row)?;
        self.list.put(row)?;
        ephemeral::set(&mut self.ephemeral, ephemeral);
        self.migrated = migrated;
        Ok(())
    }

    /// Puts a znode at its place, instead of the one with its path. At `Err` the znodes are as they were.
    pub fn put(&mut self, row: Row) -> Result<(), NoMemory>
        ensures ok { OnOk result (self.new ≡ put_row row self.old) }
        ensures err { OnErr result (self.new ≡ self.old) }
    {
        if self.find(row.path.bytes()).is_some() {
            return self.replace(row);
        }
        self.add(row)
    }

    /// Puts a znode in the place of the one with its path, which is there. At `Err` the znodes are as they were.
    pub fn replace(&mut self, row: Row) -> Result<(), NoMemory>
        requires { row_at row.path self.old ≢ None }
        ensures ok { OnOk result (self.new ≡ put_row row self.old) }
        ensures err { OnErr result (self.new ≡ self.old) }
    {
        let ephemeral = ephemeral::with_put(self.alloc, &self.ephemeral, &row)?;
        self.list.put(row)?;
        ephemeral::set(&mut self.ephemeral, ephemeral);
        Ok(())
    }

    /// Puts a znode after all others. It searches for no place. At `Err` the znodes are as they were.
    pub fn append(&mut self, row: Row) -> Result<(), NoMemory>
        requires { list_all (is_before row.path) self.old ≡ true }
        ensures ok { OnOk result (self.new ≡ put_row row self.old) }
        ensures err { OnErr result (self.new ≡ self.old) }
    {
        if self.list.count() == usize::MAX {
            return Err(NoMemory);
        }
        let migrated = self.migrated + migrated_part(row.path.bytes());
        let ephemeral = ephemeral::with_added(self.alloc, &self.ephemeral, &row)?;
        self.list.append(row)?;
        ephemeral::set(&mut self.ephemeral, ephemeral);
        self.migrated = migrated;
        Ok(())
    }

    /// The znode at a path, where there is one, got or lost a child. At `Err` the znodes are as they were.
    pub fn touch(&mut self, alloc: Global, path: &[u8], zxid: i64) -> Result<(), NoMemory>
        ensures ok { OnOk result (self.new ≡ with_child_change zxid (row_at path.now self.old) self.old) }
        ensures err { OnErr result (self.new ≡ self.old) }
    {
        let Some(row) = self.find(path) else {
            return Ok(());
        };
        let row = touched_row(alloc, row, zxid)?;
        self.replace(row)
    }

    // Takes the znode of a path out, which is there.
    fn remove(&mut self, path: &[u8]) -> Result<(), NoMemory>
        requires { row_at path.now self.old ≢ None }
        ensures ok { OnOk result (self.new ≡ without_row path.now self.old) }
        ensures err { OnErr result (self.new ≡ self.old) }
    {
        let ephemeral = ephemeral::without_removed(self.alloc, &self.ephemeral, path)?;
        self.list.take_out(path)?;
        ephemeral::set(&mut self.ephemeral, ephemeral);
        self.migrated -= migrated_part(path);
        Ok(())
    }

    /// Takes the znode of a path out. At `Err` the znodes are as they were.
    pub fn take_out(&mut self, path: &[u8]) -> Result<(), NoMemory>
        ensures ok { OnOk result (self.new ≡ without_row path.now self.old) }
        ensures err { OnErr result (self.new ≡ self.old) }
    {
        if self.find(path).is_none() {
            return Ok(());
        }
        self.remove(path)
    }
}

impl Duplicate for Rows {
    // The same znodes in the same blocks.
    fn copy(&self, alloc: Global) -> Result<Self, NoMemory> {
        Ok(Rows {
            alloc,
            list: self.list.copy(alloc)?,
            migrated: self.migrated,
            ephemeral: self.ephemeral.copy(alloc)?,
        })
    }
}
