//! The check of a tree that is loaded.
ghost use Rattle.std.specs.Prelude.{◌≡◌, [], None, true, length, IfOk, IfErr, OnOk, OnErr};
ghost use Rattle.kz_spec_data.specs.Loads.{is_header, row_refusal, is_load};
ghost use Rattle.kz_tree.specs.Loads.{IsHeaderFaultOf, IsRowFaultOf, with_row};

use crate::load_rules::{admit, is_header};
use crate::tree::Tree;
use kz_tree_rows::{Items, Rows};
use kz_types::{Duplicate, Row, copy_all};
use std::alloc::Global;
use std::marker::Model;

/// Why a tree isn't loaded.
#[derive(Clone, Copy, Debug, PartialEq, Eq)]
pub enum LoadFault {
    /// A rule of a load is broken.
    Broken,
    /// The limit of this number would be passed.
    Limit { number: u8 },
    /// Memory ran out.
    NoMemory,
}

/// The header of a load and its znodes so far, which keep the rules and limits of a load. Contracts see the tree of this
/// header and these znodes.
#[derive(Drop)]
pub struct LoadCheck {
    alloc: Global,
    zxid: i64,
    sessions: Vec<i64>,
    rows: Rows,
}

impl Model for LoadCheck {
    ghost use Rattle.kz_spec_data.specs.Tree.{Tree};
    ghost use Rattle.kz_tree.specs.Loads.{IsChecked};

    ghost Value = { Tree };

    ghost view = { λ c. record { zxid = c.zxid; sessions = c.sessions.items; rows = c.rows } };

    ghost invariant = { λ c. IsChecked c.zxid c.sessions.items c.rows };
}

impl LoadCheck {
    /// The check of a load with this header: the tree's last zxid, and its live sessions. `Broken` where the zxid is below 0,
    /// or the sessions aren't at least 1 and rising. It keeps this allocator. `Limit` never comes.
    pub fn new(alloc: Global, zxid: i64, sessions: &[i64]) -> Result<LoadCheck, LoadFault>
        ensures ok { OnOk result (is_header zxid sessions.now ≡ true) }
        ensures made { IfOk result (λ made. made ≡ record { zxid = zxid; sessions = sessions.now; rows = [] }) }
        ensures err { IfErr result (IsHeaderFaultOf (is_header zxid sessions.now)) }
    {
        if !is_header(zxid, sessions) {
            return Err(LoadFault::Broken);
        }
        let Ok(sessions) = copy_all(alloc, sessions) else {
            return Err(LoadFault::NoMemory);
        };
        Ok(LoadCheck {
            alloc,
            zxid,
            sessions,
            rows: Rows::new(alloc),
        })
    }

    // Puts a znode after all others, which keeps the rules and limits there.
    fn put(&mut self, row: Row) -> Result<(), LoadFault>
        requires { row_refusal self.old.zxid self.old.sessions self.old.rows row ≡ None }
        ensures ok { OnOk result (self.new ≡ with_row row self.old) }
        ensures same { OnErr result (self.new ≡ self.old) }
        ensures err { IfErr result (λ fault. fault ≡ LoadFault.NoMemory) }
    {
        let Ok(()) = self.rows.append(row) else {
            return Err(LoadFault::NoMemory);
        };
        Ok(())
    }

    /// Takes the next znode of the load, by rising path. `Broken` and `Limit` say what it breaks after those before it. At
    /// every `Err` the znodes are as they were. What it costs doesn't grow with the znodes before it, but for look-ups among
    /// them.
    pub fn take(&mut self, row: &Row) -> Result<(), LoadFault>
        ensures ok { OnOk result (row_refusal self.old.zxid self.old.sessions self.old.rows row.now ≡ None) }
        ensures taken { OnOk result (self.new ≡ with_row row.now self.old) }
        ensures err { IfErr result (IsRowFaultOf (row_refusal self.old.zxid self.old.sessions self.old.rows row.now)) }
        ensures same { OnErr result (self.new ≡ self.old) }
    {
        admit(self.alloc, self.zxid, &self.sessions, &self.rows, row)?;
        let Ok(row) = row.copy(self.alloc) else {
            return Err(LoadFault::NoMemory);
        };
        self.put(row)
    }

    /// The same of a znode that is moved in, and so isn't copied. At `Err` it is gone.
    pub fn take_owned(&mut self, row: Row) -> Result<(), LoadFault>
        ensures ok { OnOk result (row_refusal self.old.zxid self.old.sessions self.old.rows row ≡ None) }
        ensures taken { OnOk result (self.new ≡ with_row row self.old) }
        ensures err { IfErr result (IsRowFaultOf (row_refusal self.old.zxid self.old.sessions self.old.rows row)) }
        ensures same { OnErr result (self.new ≡ self.old) }
    {
        admit(self.alloc, self.zxid, &self.sessions, &self.rows, &row)?;
        self.put(row)
    }

    /// The last zxid of the header.
    pub fn zxid(&self) -> i64
        ensures { result ≡ self.now.zxid }
    {
        self.zxid
    }

    /// The live sessions of the header, rising.
    pub fn sessions(&self) -> &[i64]
        ensures { result.now ≡ self.now.sessions }
    {
        self.sessions.as_slice()
    }

    /// The znodes so far, by rising path.
    pub fn rows(&self) -> Items<'_>
        ensures rows { result ≡ self.now.rows }
        ensures load { is_load self.now.zxid self.now.sessions self.now.rows ≡ true }
    {
        self.rows.items()
    }

    /// How many znodes there are so far.
    pub fn count(&self) -> usize
        ensures { result ≡ length self.now.rows }
    {
        self.rows.count()
    }

    /// The tree of this header and these znodes. It takes no memory.
    pub fn into_tree(self) -> Tree
        ensures tree { result ≡ self }
        ensures load { is_load self.zxid self.sessions self.rows ≡ true }
    {
        let LoadCheck {
            alloc,
            zxid,
            sessions,
            rows,
        } = self;
        Tree::from_parts(alloc, zxid, sessions, rows)
    }
}
