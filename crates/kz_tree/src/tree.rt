//! The tree.
ghost use Rattle.std.specs.Prelude.{◌≡◌, ◌+ℤ◌, ◌<ℤ◌, ◌≤ℤ◌, pos, length, option_map, map, None, Ok, IfOk, IfErr, OnOk, OnErr};
ghost use Rattle.kz_types.specs.declared.limits.TheConstants.{MAX_LONG};
ghost use Rattle.kz_spec_data.specs.Tree as tree;
ghost use Rattle.kz_spec_data.specs.Tree.{path_of_row, path_of_rendered};
ghost use Rattle.kz_types.specs.Order.{bytes_cmp};
ghost use Rattle.kz_types.specs.Ordered.{Rises};
ghost use Rattle.kz_tree.specs.Changes.{IsMadeFrom};
ghost use Rattle.kz_tree.specs.Kept.{IsKept};
ghost use Rattle.kz_tree.specs.Refusals.{IsFaultOf, IsMultiFaultOf, IsMoveFaultOf, IsClosedFaultOf};

use crate::effects::after_ops;
use crate::faults::{ClosedFault, MultiFault, tree_fault};
use crate::prepared::Prepared;
use crate::sessions::{is_live, with_session, without_owned, without_session};
use kz_tree_rows::{Items, Rows, reads};
use kz_types::{
    Duplicate, Limit, MAX_LONG, MoveFault, NoMemory, Op, Recorded, Rendered, Row, TreeFault, ZPath,
    copy_all,
};
use std::alloc::Global;
use std::marker::Model;

/// A tree of znodes: the last zxid, the live sessions, and the znodes but the root, by rising path. The root has no znode
/// of its own here.
pub struct Tree {
    alloc: Global,
    zxid: i64,
    sessions: Vec<i64>,
    rows: Rows,
}

// Written out, so that it is proved here once: a derived one is proved in each crate that holds a tree.
impl Drop for Tree {
    fn drop(self) {
        let Tree {
            alloc: _,
            zxid: _,
            sessions: _sessions,
            rows: _rows,
        } = self;
    }
}

impl Model for Tree {
    ghost use Rattle.std.specs.Prelude.{◌≡◌};
    ghost use Rattle.kz_spec_data.specs.Tree.{Tree};
    ghost use Rattle.kz_tree.specs.Kept.{IsKept};

    ghost Value = { Tree };

    ghost view = { λ t. record { zxid = t.zxid; sessions = t.sessions.items; rows = t.rows } };

    ghost invariant = { λ t. IsKept t.zxid t.sessions.items t.rows };
}

impl Duplicate for Tree {
    // The znodes are shared, not copied.
    fn copy(&self, alloc: Global) -> Result<Self, NoMemory> {
        Ok(Tree {
            alloc,
            zxid: self.zxid,
            sessions: copy_all(alloc, &self.sessions)?,
            rows: self.rows.copy(alloc)?,
        })
    }
}

impl Tree {
    /// The tree without a znode and without a session. It keeps this allocator.
    pub fn new(alloc: Global) -> Tree
        ensures { result ≡ tree.empty_tree }
    {
        Tree {
            alloc,
            zxid: 0,
            sessions: Vec::new(alloc),
            rows: Rows::new(alloc),
        }
    }

    /// The tree of these parts. It keeps this allocator.
    pub(crate) fn from_parts(alloc: Global, zxid: i64, sessions: Vec<i64>, rows: Rows) -> Tree
        requires { IsKept zxid sessions.items rows }
        ensures { result ≡ record { zxid = zxid; sessions = sessions.items; rows = rows } }
    {
        Tree {
            alloc,
            zxid,
            sessions,
            rows,
        }
    }

    // The next zxid, where there is one.
    fn next_zxid(&self) -> i64
        ensures { self.now.zxid <ℤ MAX_LONG → result ≡ self.now.zxid +ℤ pos 1 }
    {
        if self.zxid < MAX_LONG {
            self.zxid + 1
        } else {
            self.zxid
        }
    }

    /// Prepares all operations, with one new zxid. Nothing changes until `commit`.
    ///
    /// `Refused` and `Limit` name the first operation that is refused, each judged after those before it. The limit
    /// [`MAX_LONG`] is refused at index 0.
    pub fn prepare(&mut self, ops: &[Op]) -> Result<Prepared, MultiFault>
        ensures ok { IfOk result (λ prepared. tree.multi self.old ops.now ≡ Ok prepared) }
        ensures made { IfOk result (IsMadeFrom self.old) }
        ensures err { IfErr result (IsMultiFaultOf (tree.multi self.old ops.now)) }
        ensures same { self.new ≡ self.old }
    {
        let Ok(rows) = self.rows.copy(self.alloc) else {
            return Err(MultiFault::NoMemory);
        };
        let Ok(sessions) = copy_all(self.alloc, &self.sessions) else {
            return Err(MultiFault::NoMemory);
        };
        let zxid = self.next_zxid();
        let rows = match after_ops(self.alloc, &self.sessions, zxid, ops, rows) {
            Ok(rows) => rows,
            Err(fault) => return Err(fault),
        };
        if self.zxid == MAX_LONG {
            return Err(MultiFault::Limit {
                index: 0,
                number: Limit::Long.number(),
            });
        }
        Ok(Prepared::new(zxid, sessions, rows))
    }

    /// Prepares the begin of a session, which is at least 1: `Known` where it is live already. Nothing changes until
    /// `commit`.
    pub fn prepare_begin(&mut self, session: i64) -> Result<Prepared, MoveFault>
        requires { pos 1 ≤ℤ session }
        ensures ok { IfOk result (λ prepared. tree.begin_session self.old session ≡ Ok prepared) }
        ensures made { IfOk result (IsMadeFrom self.old) }
        ensures err { IfErr result (IsMoveFaultOf (tree.begin_session self.old session)) }
        ensures same { self.new ≡ self.old }
    {
        if is_live(&self.sessions, session) {
            return Err(MoveFault::Known);
        }
        if self.zxid == MAX_LONG {
            return Err(MoveFault::Limit {
                number: Limit::Long.number(),
            });
        }
        let Ok(sessions) = with_session(self.alloc, &self.sessions, session) else {
            return Err(MoveFault::NoMemory);
        };
        let Ok(rows) = self.rows.copy(self.alloc) else {
            return Err(MoveFault::NoMemory);
        };
        Ok(Prepared::new(self.next_zxid(), sessions, rows))
    }

    /// Prepares the end of a session, and of its ephemeral znodes with it: `Unknown` where it isn't live. Nothing changes
    /// until `commit`.
    pub fn prepare_end(&mut self, session: i64) -> Result<Prepared, MoveFault>
        ensures ok { IfOk result (λ prepared. tree.end_session self.old session ≡ Ok prepared) }
        ensures made { IfOk result (IsMadeFrom self.old) }
        ensures err { IfErr result (IsMoveFaultOf (tree.end_session self.old session)) }
        ensures same { self.new ≡ self.old }
    {
        if !is_live(&self.sessions, session) {
            return Err(MoveFault::Unknown);
        }
        if self.zxid == MAX_LONG {
            return Err(MoveFault::Limit {
                number: Limit::Long.number(),
            });
        }
        let Ok(sessions) = without_session(self.alloc, &self.sessions, session) else {
            return Err(MoveFault::NoMemory);
        };
        let zxid = self.next_zxid();
        let Ok(rows) = without_owned(self.alloc, &self.rows, session, zxid) else {
            return Err(MoveFault::NoMemory);
        };
        Ok(Prepared::new(zxid, sessions, rows))
    }

    /// Makes a prepared change, and answers its zxid. The tree is to stand as it stood when the change was prepared.
    pub fn commit(&mut self, prepared: Prepared) -> i64
        requires made { IsMadeFrom self.old prepared }
        ensures tree { self.new ≡ prepared }
        ensures zxid { result ≡ self.new.zxid }
    {
        let (zxid, sessions, rows) = prepared.into_parts();
        self.zxid = zxid;
        self.sessions = sessions;
        self.rows = rows;
        zxid
    }

    /// Makes all operations, with one new zxid, which it answers, or none of them: `prepare` and `commit`. At every `Err`
    /// the tree is as it was.
    pub fn multi(&mut self, ops: &[Op]) -> Result<i64, TreeFault>
        ensures ok { IfOk result (λ zxid. (tree.multi self.old ops.now ≡ Ok self.new) × (zxid ≡ self.new.zxid)) }
        ensures err { IfErr result (IsFaultOf (tree.multi self.old ops.now)) }
        ensures same { OnErr result (self.new ≡ self.old) }
    {
        match self.prepare(ops) {
            Ok(prepared) => Ok(self.commit(prepared)),
            Err(fault) => Err(tree_fault(fault)),
        }
    }

    /// The znode at a path.
    pub fn row(&self, path: &[u8]) -> Option<&Row>
        ensures { option_map (λ row. row.now) result ≡ tree.row_at path.now self.now.rows }
    {
        self.rows.find(path)
    }

    /// The first znode with a greater path than this one, or the first of all.
    pub fn next_row(&self, after: Option<&ZPath>) -> Option<&Row>
        ensures { option_map (λ row. row.now) result ≡ tree.next_row self.now (option_map (λ path. path.now) after.entry) }
    {
        self.rows.next_after(after)
    }

    /// The znodes but the root, by rising path.
    pub fn rows(&self) -> Items<'_>
        ensures { result ≡ self.now.rows }
    {
        self.rows.items()
    }

    /// The zxid of the last transaction, 0 before the first.
    pub fn last_zxid(&self) -> i64
        ensures { result ≡ self.now.zxid }
    {
        self.zxid
    }

    /// How many znodes there are but the root.
    pub fn count(&self) -> usize
        ensures { result ≡ length self.now.rows }
    {
        self.rows.count()
    }

    /// The live sessions, rising.
    pub fn sessions(&self) -> &[i64]
        ensures { result.now ≡ self.now.sessions }
    {
        self.sessions.as_slice()
    }

    /// Copies of the first `limit` znodes of the migrated area after a path, or of its first ones.
    pub fn scan(&self, after: Option<&ZPath>, limit: usize) -> Result<Vec<Row>, NoMemory>
        ensures znodes { IfOk result (λ made. made.items ≡ tree.scan self.now (option_map (λ path. path.now) after.entry) limit) }
        ensures rising { IfOk result (λ made. Rises bytes_cmp path_of_row made.items) }
    {
        reads::scan(self.alloc, &self.rows, after, limit)
    }

    /// Copies of the znodes at these paths, in their order.
    pub fn look_up(&self, paths: &[ZPath]) -> Result<Vec<Option<Row>>, NoMemory>
        ensures { IfOk result (λ made. made.items ≡ tree.look self.now paths.now) }
    {
        reads::look(self.alloc, &self.rows, paths)
    }

    /// The ids of the brokers that are there, rising: the children of `/brokers/ids` whose names are canonical decimals of
    /// 0 to [`kz_types::MAX_NUMBER`].
    pub fn broker_ids(&self) -> Result<Vec<i32>, NoMemory>
        ensures { IfOk result (λ ids. ids.items ≡ tree.broker_ids self.now) }
    {
        reads::broker_ids(self.alloc, &self.rows)
    }

    /// Copies of the znodes of the migrated area, by rising path.
    #[tactic(auto, using(crate::proofs::Areas::migrated_rise))]
    pub fn migrated_rows(&self) -> Result<Vec<Row>, NoMemory>
        ensures rows { IfOk result (λ made. made.items ≡ tree.migrated_rows self.now) }
        ensures rising { IfOk result (λ made. Rises bytes_cmp path_of_row made.items) }
    {
        reads::migrated_rows(self.alloc, &self.rows)
    }

    /// The paths and bodies of the migrated area, by rising path.
    #[tactic(auto, using(crate::proofs::Areas::area_rises))]
    pub fn area(&self) -> Result<Vec<Rendered>, NoMemory>
        ensures znodes { IfOk result (λ made. made.items ≡ tree.area self.now) }
        ensures rising { IfOk result (λ made. Rises bytes_cmp path_of_rendered made.items) }
    {
        reads::area(self.alloc, &self.rows)
    }

    /// How many znodes the migrated area has.
    pub fn area_len(&self) -> usize
        ensures { result ≡ length (tree.area self.now) }
    {
        self.rows.migrated_count()
    }

    /// What `/migration` records, where it is there and can be read.
    pub fn recorded(&self) -> Result<Option<Recorded>, NoMemory>
        ensures { IfOk result (λ recorded. recorded ≡ tree.migration_record self.now) }
    {
        reads::recorded(self.alloc, &self.rows)
    }

    /// Whether the tree is closed: an offset is recorded, and no znode of the migrated area was written, nor were its
    /// children, after `/migration`.
    pub fn closed(&self) -> Result<(), ClosedFault>
        ensures ok { OnOk result (tree.unclosed_path self.now ≡ None) }
        ensures err { IfErr result (IsClosedFaultOf (tree.unclosed_path self.now)) }
    {
        match self.unclosed() {
            Ok(None) => Ok(()),
            Ok(Some(path)) => Err(ClosedFault::Unclosed { path }),
            Err(NoMemory) => Err(ClosedFault::NoMemory),
        }
    }

    /// Where the tree isn't closed: `/migration` where no offset is recorded, else the first znode of the migrated area
    /// that was written, or whose children were, after `/migration`.
    pub fn unclosed(&self) -> Result<Option<ZPath>, NoMemory>
        ensures { IfOk result (λ path. path ≡ tree.unclosed_path self.now) }
    {
        reads::unclosed(self.alloc, &self.rows)
    }
}
