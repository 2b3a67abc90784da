//! Requests of a tree on a disk.
ghost use Rattle.std.specs.Prelude.{◌≡◌, false};

use crate::change::write_change;
use crate::store::TreeStore;
use crate::txns::{begin_txn, end_txn, multi_txn};
use kz_disk::Disk;
use kz_journal::{ChangeFault, write_seal};
use kz_session::{SessionFault, ZSessions};
use kz_spec_data::Txn;
use kz_tree::{MultiFault, Prepared, Tree, TreeFault, ZTree};
use kz_types::{MoveFault, NoMemory, Op, Row, ZPath};

impl<D: Disk> TreeStore<D> {
    ghost use Rattle.std.specs.Prelude.{List, ℕ, Some, IfOk, OnOk, OnErr, IsErrOf, length, ⊤};
    ghost use Rattle.kz_disk.specs.Disks.{StaysTold};
    ghost use Rattle.kz_spec_data.specs.Requests.{answer_by, ChangesDisk, Only, Either};
    ghost use Rattle.kz_spec_data.specs.Frames.{tree_letter};
    ghost use Rattle.kz_spec_data.specs.Transactions.{txn_written};
    ghost use Rattle.kz_tree.specs.Changes.{IsMadeFrom};
    ghost use Rattle.kz_journal.specs.Changes.{answer_of_change_fault};
    ghost use Rattle.kz_tree_store.specs.Held.{ArePositive};
    ghost use Rattle.kz_tree_store.specs.Changes.{MakesTree, FitsIfFew};
    ghost use Rattle.kz_tree_store.specs.Stores.{held_tree, known, store_disk, store_down, store_state, left_of};
    ghost use Rattle.kz_tree_store.specs.Seals.{SealsTold, SealsDisk};

    /// Appends a seal where frames have no sum, and answers true: from it on frames have one. Where they have, it makes no call,
    /// and answers false. A stop at any moment of the call leaves the tree as it stands.
    ///
    /// `Device`: a call of the disk failed. `Full`: the file would have this length, in bytes, which passes `MAX_FILE_BYTES`.
    /// `Down`: a call failed in an earlier request. There is no other fault.
    pub fn seal(&mut self) -> Result<bool, TreeFault>
        ensures sealed { (file : List ℕ) → D.told (store_disk self.old) ≡ Some file → SealsTold tree_letter file result (D.told (store_disk self.new)) }
        ensures same { known self.new ≡ known self.old }
        ensures told { StaysTold (D.told (store_disk self.old)) (D.told (store_disk self.new)) }
        ensures disk { SealsDisk result (store_state D.faults self.old) (store_state D.faults self.new) }
        ensures stop { store_down self.old ≡ false → Only (held_tree self.old) (left_of D.told D.may_leave self.new) }
    {
        if self.down {
            return Err(TreeFault::Down);
        }
        match write_seal(&mut self.journal) {
            Ok(done) => Ok(done),
            Err(ChangeFault::Failed) => {
                self.down = true;
                Err(TreeFault::Device)
            }
            Err(ChangeFault::Full { length }) => Err(TreeFault::Full { length }),
            Err(ChangeFault::NoMemory) => unreachable!(),
        }
    }

    // Makes a prepared change, once the frame of its transaction is whole, and answers its zxid.
    fn make(&mut self, txn: &Txn, prepared: Prepared) -> Result<i64, ChangeFault>
        requires up { store_down self.old ≡ false }
        requires made { IsMadeFrom (held_tree self.old) prepared }
        requires makes { MakesTree txn.now (held_tree self.old) prepared }
        requires positive { ArePositive prepared.sessions }
        requires fits { FitsIfFew txn.now }
        ensures ok { IfOk result (λ zxid. (held_tree self.new ≡ prepared) × (zxid ≡ prepared.zxid)) }
        ensures same { OnErr result (held_tree self.new ≡ held_tree self.old) }
        ensures disk { ChangesDisk ⊤ (length (txn_written txn.now)) (answer_by answer_of_change_fault result) (store_state D.faults self.old) (store_state D.faults self.new) }
        ensures stop { IsErrOf result ChangeFault.Failed → Either (held_tree self.old) prepared (left_of D.told D.may_leave self.new) }
    {
        match write_change(self.alloc, &mut self.journal, txn) {
            Ok(()) => {
                self.fresh = false;
                self.loaded = None;
                Ok(self.tree.commit(prepared))
            }
            Err(ChangeFault::Failed) => {
                self.down = true;
                Err(ChangeFault::Failed)
            }
            Err(ChangeFault::Full { length }) => Err(ChangeFault::Full { length }),
            Err(ChangeFault::NoMemory) => Err(ChangeFault::NoMemory),
        }
    }
}

impl<D: Disk> ZTree for TreeStore<D> {
    ghost use Rattle.kz_journal.specs.Held.{disk_of, disk_state};
    ghost use Rattle.kz_tree_store.specs.Opened.{LeavesTree, settled_tree};
    ghost use Rattle.kz_tree_store.specs.Payloads.{change_bytes};

    ghost tree = { λ s. s.tree };

    ghost disk = { λ s. disk_state D.faults s.journal };

    ghost payload_bytes = { λ tree change. change_bytes tree change };

    ghost left = { λ s found. LeavesTree (D.told (disk_of s.journal)) (D.may_leave (disk_of s.journal)) found };

    ghost settled = { λ s up found left. settled_tree (record { tree = s.tree; fresh = s.fresh; loaded = s.loaded }) (D.told (disk_of s.journal)) (D.may_leave (disk_of s.journal)) (s.journal.settled up) (s.same up) found left };

    fn tree(&self) -> &Tree {
        &self.tree
    }

    fn multi(&mut self, ops: &[Op]) -> Result<i64, TreeFault> {
        if self.down {
            return Err(TreeFault::Down);
        }
        let prepared = match self.tree.prepare(ops) {
            Ok(prepared) => prepared,
            Err(MultiFault::Refused { index, code }) => return Err(TreeFault::Refused {
                index,
                code,
            }),
            Err(MultiFault::Limit { index, number }) => return Err(TreeFault::Limit {
                index,
                number,
            }),
            Err(MultiFault::NoMemory) => return Err(TreeFault::NoMemory),
        };
        let Ok(txn) = multi_txn(self.alloc, &self.tree, ops) else {
            return Err(TreeFault::NoMemory);
        };
        match self.make(&txn, prepared) {
            Ok(zxid) => Ok(zxid),
            Err(ChangeFault::Failed) => Err(TreeFault::Device),
            Err(ChangeFault::Full { length }) => Err(TreeFault::Full { length }),
            Err(ChangeFault::NoMemory) => Err(TreeFault::NoMemory),
        }
    }

    fn scan(&mut self, after: Option<&ZPath>, limit: usize) -> Result<Vec<Row>, TreeFault> {
        if self.down {
            return Err(TreeFault::Down);
        }
        match self.tree.scan(after, limit) {
            Ok(rows) => Ok(rows),
            Err(NoMemory) => Err(TreeFault::NoMemory),
        }
    }

    fn look(&mut self, paths: &[ZPath]) -> Result<Vec<Option<Row>>, TreeFault> {
        if self.down {
            return Err(TreeFault::Down);
        }
        match self.tree.look_up(paths) {
            Ok(rows) => Ok(rows),
            Err(NoMemory) => Err(TreeFault::NoMemory),
        }
    }

    fn broker_ids(&mut self) -> Result<Vec<i32>, TreeFault> {
        if self.down {
            return Err(TreeFault::Down);
        }
        match self.tree.broker_ids() {
            Ok(ids) => Ok(ids),
            Err(NoMemory) => Err(TreeFault::NoMemory),
        }
    }
}

impl<D: Disk> ZSessions for TreeStore<D> {
    fn begin_session(&mut self, session: i64) -> Result<i64, SessionFault> {
        if self.down {
            return Err(SessionFault::Down);
        }
        let prepared = match self.tree.prepare_begin(session) {
            Ok(prepared) => prepared,
            Err(MoveFault::Known) => return Err(SessionFault::Known),
            Err(MoveFault::Unknown) => return Err(SessionFault::Unknown),
            Err(MoveFault::Limit { number }) => return Err(SessionFault::Limit { number }),
            Err(MoveFault::NoMemory) => return Err(SessionFault::NoMemory),
        };
        let txn = begin_txn(&self.tree, session);
        match self.make(&txn, prepared) {
            Ok(zxid) => Ok(zxid),
            Err(ChangeFault::Failed) => Err(SessionFault::Device),
            Err(ChangeFault::Full { length }) => Err(SessionFault::Full { length }),
            Err(ChangeFault::NoMemory) => Err(SessionFault::NoMemory),
        }
    }

    fn end_session(&mut self, session: i64) -> Result<i64, SessionFault> {
        if self.down {
            return Err(SessionFault::Down);
        }
        let prepared = match self.tree.prepare_end(session) {
            Ok(prepared) => prepared,
            Err(MoveFault::Known) => return Err(SessionFault::Known),
            Err(MoveFault::Unknown) => return Err(SessionFault::Unknown),
            Err(MoveFault::Limit { number }) => return Err(SessionFault::Limit { number }),
            Err(MoveFault::NoMemory) => return Err(SessionFault::NoMemory),
        };
        let txn = end_txn(&self.tree, session);
        match self.make(&txn, prepared) {
            Ok(zxid) => Ok(zxid),
            Err(ChangeFault::Failed) => Err(SessionFault::Device),
            Err(ChangeFault::Full { length }) => Err(SessionFault::Full { length }),
            Err(ChangeFault::NoMemory) => Err(SessionFault::NoMemory),
        }
    }
}
