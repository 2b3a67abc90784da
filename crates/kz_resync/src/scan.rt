//! The znodes that a driver has read.
ghost use Rattle.std.specs.Prelude.{◌≡◌, [], ◌++◌, List, IfOk, OnOk, OnErr, nat_lt, length, option_map};
ghost use Rattle.kz_types.specs.declared.limits.TheConstants.{MAX_SCAN_ROWS};
ghost use Rattle.kz_spec_machine.specs.Driver.{last_path};

use kz_types::{MAX_SCAN_ROWS, NoMemory, Row, ZPath};
use std::alloc::Global;
use std::marker::Model;

/// The znodes of the migrated area that a driver has read, page by page. Contracts see them as a list.
#[derive(Drop)]
pub struct Scan {
    rows: Vec<Row>,
}

impl Model for Scan {
    ghost use Rattle.std.specs.Prelude.{List};
    ghost use Rattle.kz_types.specs.declared.tree.Row.{Row};

    ghost Value = { List Row };

    ghost view = { λ s. s.rows.items };
}

impl Scan {
    /// Nothing is read yet.
    pub fn new(alloc: Global) -> Scan
        ensures { result ≡ [] }
    {
        Scan {
            rows: Vec::new(alloc),
        }
    }

    /// Puts a page after the znodes that are read, and answers whether it is the last one: it has fewer znodes than a scan
    /// asks for. At `Err` they are as they were.
    pub fn take(&mut self, page: Vec<Row>) -> Result<bool, NoMemory>
        ensures rows { OnOk result (self.new ≡ self.old ++ page.items) }
        ensures last { IfOk result (λ is_last. is_last ≡ nat_lt (length page.items) MAX_SCAN_ROWS) }
        ensures err { OnErr result (self.new ≡ self.old) }
    {
        let is_last = page.len() < MAX_SCAN_ROWS;
        let mut page = page;
        self.rows.append(&mut page)?;
        Ok(is_last)
    }

    /// Lends the znodes.
    pub fn rows(&self) -> &[Row]
        ensures { result.now ≡ self.now }
    {
        self.rows.as_slice()
    }

    /// The path of the last znode, after which the next page begins.
    #[tactic(auto, using(crate::proofs::Lasts::last_path_is))]
    pub fn last_path(&self) -> Option<&ZPath>
        ensures { option_map (λ path. path.now) result ≡ last_path self.entry.now }
    {
        let len = self.rows.len();
        if len == 0 {
            return None;
        }
        Some(&self.rows[len - 1].path)
    }
}
