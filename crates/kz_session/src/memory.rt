//! A tree in memory.
ghost use Rattle.std.specs.Prelude.{◌≡◌, None};
ghost use Rattle.kz_spec_data.specs.Tree as znodes;
ghost use Rattle.kz_spec_data.specs.Requests.{no_disk};
ghost use Rattle.kz_session.specs.Memory.{session_fault};

use crate::{SessionFault, ZSessions};
use kz_tree::{MoveFault, Op, Row, Tree, TreeFault, ZTree};
use kz_types::{NoMemory, ZPath};
use std::alloc::Global;

/// A tree in memory. It has no disk: no call of it answers `Device`, `Down` or `Full`, and a stop leaves nothing of it.
#[derive(Drop)]
pub struct MemoryTree {
    tree: Tree,
}

impl MemoryTree {
    /// The tree without a znode and without a session.
    pub fn new(alloc: Global) -> MemoryTree
        ensures { result.tree ≡ znodes.empty_tree }
    {
        MemoryTree {
            tree: Tree::new(alloc),
        }
    }
}

fn session_fault(fault: MoveFault) -> SessionFault
    ensures { result ≡ session_fault fault }
{
    match fault {
        MoveFault::Known => SessionFault::Known,
        MoveFault::Unknown => SessionFault::Unknown,
        MoveFault::Limit { number } => SessionFault::Limit { number },
        MoveFault::NoMemory => SessionFault::NoMemory,
    }
}

impl ZTree for MemoryTree {
    ghost tree = { λ s. s.tree };

    ghost disk = { λ s. no_disk };

    ghost payload_bytes = { λ tree change. 0 };

    ghost left = { λ s found. ⊥ };

    ghost settled = { λ s up found none. absurd none };

    fn tree(&self) -> &Tree {
        &self.tree
    }

    fn multi(&mut self, ops: &[Op]) -> Result<i64, TreeFault> {
        self.tree.multi(ops)
    }

    fn scan(&mut self, after: Option<&ZPath>, limit: usize) -> Result<Vec<Row>, TreeFault> {
        match self.tree.scan(after, limit) {
            Ok(rows) => Ok(rows),
            Err(NoMemory) => Err(TreeFault::NoMemory),
        }
    }

    fn look(&mut self, paths: &[ZPath]) -> Result<Vec<Option<Row>>, TreeFault> {
        match self.tree.look_up(paths) {
            Ok(rows) => Ok(rows),
            Err(NoMemory) => Err(TreeFault::NoMemory),
        }
    }

    fn broker_ids(&mut self) -> Result<Vec<i32>, TreeFault> {
        match self.tree.broker_ids() {
            Ok(ids) => Ok(ids),
            Err(NoMemory) => Err(TreeFault::NoMemory),
        }
    }
}

impl ZSessions for MemoryTree {
    fn begin_session(&mut self, session: i64) -> Result<i64, SessionFault> {
        match self.tree.prepare_begin(session) {
            Ok(prepared) => Ok(self.tree.commit(prepared)),
            Err(fault) => Err(session_fault(fault)),
        }
    }

    fn end_session(&mut self, session: i64) -> Result<i64, SessionFault> {
        match self.tree.prepare_end(session) {
            Ok(prepared) => Ok(self.tree.commit(prepared)),
            Err(fault) => Err(session_fault(fault)),
        }
    }
}
