//! Loading a tree onto a disk.
use crate::change::write_change;
use crate::fault::FrameFault;
use crate::joined::{joined, load_fault, with_room};
use crate::last::LoadLast;
use crate::loads::loaded_tree;
use crate::store::TreeStore;
use crate::txns::{load_end_txn, load_rows_txn};
use kz_disk::Disk;
use kz_journal::ChangeFault;
use kz_tree::{Tree, TreeFault};
use kz_types::Row;

impl<D: Disk> TreeStore<D> {
    ghost use Rattle.std.specs.Prelude.{◌≡◌, ◌++◌, true, false, is_none, None, Some, List, OnOk, OnErr, IsErrOf, length, ⊤};
    ghost use Rattle.kz_types.specs.declared.tree.Row.{Row as RowValue};
    ghost use Rattle.kz_spec_data.specs.Requests.{answer_by, answer_of_tree_fault, ChangesDisk, Only};
    ghost use Rattle.kz_spec_data.specs.declared.files.Txn.TheVariants.{LoadRows, LoadEnd};
    ghost use Rattle.kz_spec_data.specs.Transactions.{txn_written};
    ghost use Rattle.kz_spec_data.specs.Loads.{is_load};
    ghost use Rattle.kz_journal.specs.Changes.{answer_of_change_fault};
    ghost use Rattle.kz_tree_store.specs.Stores.{held_tree, is_fresh, loaded, known, store_down, store_disk, store_state, left_of};
    ghost use Rattle.kz_tree_store.specs.LoadCalls.{rows_so_far, KeepRules, last_of, after_load, without_load, load_payloads, IsUnderWay, WritesFrames, LeftByLoad};

    // Writes znodes of a load. At an error no load of this store is under way.
    fn load_rows(&mut self, rows: &[Row]) -> Result<(), ChangeFault>
        requires up { store_down self.old ≡ false }
        requires fresh { is_fresh self.old ≡ true }
        requires rules { KeepRules None (rows_so_far (loaded self.old) ++ rows.now) }
        ensures ok { OnOk result (known self.new ≡ after_load None (rows_so_far (loaded self.old) ++ rows.now) (known self.old)) }
        ensures same { OnErr result (known self.new ≡ without_load (known self.old)) }
        ensures up { OnOk result (store_down self.new ≡ false) }
        ensures disk { ChangesDisk ⊤ (length (txn_written (LoadRows (is_none (loaded self.old)) rows.now))) (answer_by answer_of_change_fault result) (store_state D.faults self.old) (store_state D.faults self.new) }
        ensures stop { IsErrOf result ChangeFault.Failed → Only (held_tree self.old) (left_of D.told D.may_leave self.new) }
    {
        let first = self.loaded.is_none();
        let before = self.loaded.take();
        let Ok(txn) = load_rows_txn(self.alloc, first, rows) else {
            return Err(ChangeFault::NoMemory);
        };
        let Ok(before) = with_room(self.alloc, before, rows.len()) else {
            return Err(ChangeFault::NoMemory);
        };
        match write_change(self.alloc, &mut self.journal, &txn) {
            Ok(()) => {
                self.loaded = Some(joined(before, txn));
                Ok(())
            }
            Err(ChangeFault::Failed) => {
                self.down = true;
                Err(ChangeFault::Failed)
            }
            Err(ChangeFault::Full { length }) => Err(ChangeFault::Full { length }),
            Err(ChangeFault::NoMemory) => Err(ChangeFault::NoMemory),
        }
    }

    // Writes the end of the load that is under way in the file, whose tree this is, and takes the tree.
    pub(crate) fn write_end(&mut self, tree: Tree) -> Result<(), ChangeFault>
        requires up { store_down self.old ≡ false }
        requires unloaded { loaded self.old ≡ None }
        requires rules { is_load tree.zxid tree.sessions tree.rows ≡ true }
        requires under_way { IsUnderWay (D.told (store_disk self.old)) tree.rows (known self.old) }
        ensures ok { OnOk result (known self.new ≡ after_load (Some (last_of tree)) tree.rows (known self.old)) }
        ensures same { OnErr result (known self.new ≡ known self.old) }
        ensures disk { ChangesDisk ⊤ (length (txn_written (LoadEnd tree.zxid tree.sessions))) (answer_by answer_of_change_fault result) (store_state D.faults self.old) (store_state D.faults self.new) }
        ensures stop { IsErrOf result ChangeFault.Failed → LeftByLoad (Some (last_of tree)) tree.rows (held_tree self.old) (left_of D.told D.may_leave self.new) }
    {
        let Ok(txn) = load_end_txn(self.alloc, tree.last_zxid(), tree.sessions()) else {
            return Err(ChangeFault::NoMemory);
        };
        match write_change(self.alloc, &mut self.journal, &txn) {
            Ok(()) => {
                self.tree = tree;
                self.fresh = false;
                Ok(())
            }
            Err(ChangeFault::Failed) => {
                self.down = true;
                Err(ChangeFault::Failed)
            }
            Err(ChangeFault::Full { length }) => Err(ChangeFault::Full { length }),
            Err(ChangeFault::NoMemory) => Err(ChangeFault::NoMemory),
        }
    }

    // Writes the end of the load that is under way. At an error none is.
    fn end_load(&mut self, last: &LoadLast) -> Result<(), ChangeFault>
        requires up { store_down self.old ≡ false }
        requires under_way { (rows : List RowValue) × (loaded self.old ≡ Some rows) × KeepRules (Some last.now) rows }
        ensures ok { OnOk result (known self.new ≡ after_load (Some last.now) (rows_so_far (loaded self.old)) (known self.old)) }
        ensures same { OnErr result (known self.new ≡ without_load (known self.old)) }
        ensures disk { ChangesDisk ⊤ (length (txn_written (LoadEnd last.now.zxid last.now.sessions))) (answer_by answer_of_change_fault result) (store_state D.faults self.old) (store_state D.faults self.new) }
        ensures stop { IsErrOf result ChangeFault.Failed → LeftByLoad (Some last.now) (rows_so_far (loaded self.old)) (held_tree self.old) (left_of D.told D.may_leave self.new) }
    {
        let rows = match self.loaded.take() {
            Some(rows) => rows,
            None => unreachable!(),
        };
        let tree = match loaded_tree(
            self.alloc,
            last.zxid,
            last.sessions.as_slice(),
            rows.into_vec(),
        ) {
            Ok(tree) => tree,
            Err(FrameFault::Damaged) => unreachable!(),
            Err(FrameFault::NoMemory) => return Err(ChangeFault::NoMemory),
        };
        self.write_end(tree)
    }

    /// Writes further znodes of a tree that is loaded, by rising path, and, with `last`, the end of the load. The tree is that of
    /// the load once it has ended; before, the znodes count for nothing. The first call on a store begins the load anew, whatever
    /// an earlier store left of one.
    ///
    /// The file has to be fresh, and the znodes of the calls so far and of this one have to keep the rules and limits of a load.
    /// At an error the tree is as it was, and the next call begins the load anew. `Device`: a call of the disk failed, and the
    /// store is down. `Down`: one failed in an earlier request. `Full`: the file would have so many bytes. `NoMemory`. There is no
    /// other fault.
    pub fn load(&mut self, rows: &[Row], last: Option<LoadLast>) -> Result<(), TreeFault>
        requires fresh { is_fresh self.old ≡ true }
        requires rules { KeepRules last (rows_so_far (loaded self.old) ++ rows.now) }
        ensures ok { OnOk result (known self.new ≡ after_load last (rows_so_far (loaded self.old) ++ rows.now) (known self.old)) }
        ensures same { OnErr result (known self.new ≡ without_load (known self.old)) }
        ensures disk { WritesFrames (load_payloads (is_none (loaded self.old)) rows.now last) (answer_by answer_of_tree_fault result) (store_state D.faults self.old) (store_state D.faults self.new) }
        ensures stop { IsErrOf result TreeFault.Device → LeftByLoad last (rows_so_far (loaded self.old) ++ rows.now) (held_tree self.old) (left_of D.told D.may_leave self.new) }
    {
        if self.down {
            self.loaded = None;
            return Err(TreeFault::Down);
        }
        match self.load_rows(rows) {
            Ok(()) => {}
            Err(fault) => return Err(load_fault(fault)),
        }
        match last {
            None => Ok(()),
            Some(last) => match self.end_load(&last) {
                Ok(()) => Ok(()),
                Err(fault) => Err(load_fault(fault)),
            },
        }
    }
}
