//! The tree of the lines so far.
ghost use Rattle.std.specs.Prelude.{◌≡◌, ◌+◌, ◌<◌, ◌^◌, [], true, Some, None, List, IfOk, IfErr, OnOk};
ghost use Rattle.kz_types.specs.declared.tree.Row.{Row};
ghost use Rattle.kz_spec_data.specs.Lines.{Item};
ghost use Rattle.kz_spec_data.specs.Loads.{is_header, is_load, row_refusal};
ghost use Rattle.kz_spec_machine.specs.Loading.{tree_with, tree_after, at_head, at_line};
ghost use Rattle.kz_tree.specs.Loads.{IsHeaderFaultOf, IsRowFaultOf, with_row};
ghost use Rattle.kz_load.specs.Stops.{IsLineStop};
ghost use Rattle.kz_load.specs.Pending.{load_after};

use crate::stop::{LoadStop, stop_of};
use kz_spec_machine::LoadLine;
use kz_tree::{LoadCheck, LoadFault};
use kz_types::{Row, Sequence};
use std::alloc::Global;

/// The number of the next line, counted from 1, and the check that holds the header and the znodes of the lines so far.
#[derive(Drop)]
pub struct Part {
    pub number: u64,
    pub check: LoadCheck,
}

// A tree with this header and no znodes.
fn with_header(alloc: Global, zxid: i64, sessions: Sequence<i64>) -> Result<Part, LoadFault>
    ensures header { OnOk result (is_header zxid sessions ≡ true) }
    ensures number { IfOk result (λ made. made.number ≡ 2) }
    ensures check { IfOk result (λ made. made.check ≡ tree_with zxid sessions []) }
    ensures err { IfErr result (IsHeaderFaultOf (is_header zxid sessions)) }
{
    match LoadCheck::new(alloc, zxid, sessions.as_slice()) {
        Ok(check) => Ok(Part { number: 2, check }),
        Err(fault) => Err(fault),
    }
}

impl Part {
    /// The tree after the first line, which says this.
    pub fn begin(alloc: Global, said: LoadLine) -> Result<Part, LoadStop>
        ensures ok { IfOk result (λ part. (is : List Item) → at_head (Some said) (λ zxid sessions. tree_after 2 zxid sessions [] is) ≡ load_after part is) }
        ensures number { IfOk result (λ part. part.number ≡ 2) }
        ensures stop { IfErr result (λ stop. (is : List Item) → IsLineStop (at_head (Some said) (λ zxid sessions. tree_after 2 zxid sessions [] is)) stop) }
    {
        match said {
            LoadLine::Head { zxid, sessions } => match with_header(alloc, zxid, sessions) {
                Ok(part) => Ok(part),
                Err(fault) => Err(stop_of(1, fault)),
            },
            LoadLine::Znode(_) => Err(LoadStop::BadLine { line: 1 }),
        }
    }

    // Takes the next znode. A tree that has refused one takes no more.
    fn take(&mut self, row: Row) -> Result<(), LoadFault>
        requires room { self.old.number + 1 < 2 ^ 64 }
        ensures ok { OnOk result (row_refusal self.old.check.zxid self.old.check.sessions self.old.check.rows row ≡ None) }
        ensures number { OnOk result (self.new.number ≡ self.old.number + 1) }
        ensures taken { OnOk result (self.new.check ≡ with_row row self.old.check) }
        ensures err { IfErr result (IsRowFaultOf (row_refusal self.old.check.zxid self.old.check.sessions self.old.check.rows row)) }
    {
        match self.check.take_owned(row) {
            Ok(()) => {
                self.number += 1;
                Ok(())
            }
            Err(fault) => Err(fault),
        }
    }

    /// Goes over a line after the first, which says this. A tree that has stopped takes no more.
    pub fn next(&mut self, said: LoadLine) -> Result<(), LoadStop>
        requires room { self.old.number + 1 < 2 ^ 64 }
        ensures ok { OnOk result ((is : List Item) → at_line self.old.number self.old.check.zxid self.old.check.sessions self.old.check.rows (Some said) (λ rows. tree_after (self.old.number + 1) self.old.check.zxid self.old.check.sessions rows is) ≡ load_after self.new is) }
        ensures number { OnOk result (self.new.number ≡ self.old.number + 1) }
        ensures stop { IfErr result (λ stop. (is : List Item) → IsLineStop (at_line self.old.number self.old.check.zxid self.old.check.sessions self.old.check.rows (Some said) (λ rows. tree_after (self.old.number + 1) self.old.check.zxid self.old.check.sessions rows is)) stop) }
    {
        let line = self.number;
        match said {
            LoadLine::Head { .. } => Err(LoadStop::BadLine { line }),
            LoadLine::Znode(row) => match self.take(row) {
                Ok(()) => Ok(()),
                Err(fault) => Err(stop_of(line, fault)),
            },
        }
    }

    /// The tree of all lines. It takes no memory.
    pub fn finish(self) -> LoadCheck
        ensures check { result ≡ self.check }
        ensures load { is_load result.zxid result.sessions result.rows ≡ true }
    {
        let Part { number: _, check } = self;
        let _ = check.rows();
        check
    }
}
