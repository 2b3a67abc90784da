//! Loading a tree that was checked.
ghost use Rattle.std.specs.Prelude.{◌≡◌, true, false, length, List, ℕ, Some, ⊤, OnOk, IsErrOf};
ghost use Rattle.kz_disk.specs.Disks.{StaysTold};
ghost use Rattle.kz_spec_data.specs.Requests.{answer_by, ChangesDisk};
ghost use Rattle.kz_spec_data.specs.Frames.{tree_letter, journal_of};
ghost use Rattle.kz_spec_data.specs.declared.files.Txn.TheVariants.{LoadRows};
ghost use Rattle.kz_spec_data.specs.Transactions.{txn_written};
ghost use Rattle.kz_journal.specs.Held.{disk_of, letter_of, has_ended, is_down, disk_state};
ghost use Rattle.kz_journal.specs.Changes.{answer_of_change_fault, IfUnwritten};
ghost use Rattle.kz_tree_store.specs.Changes.{HasTxn, LeftByTxn};

use crate::all_rows::all_rows_bytes;
use crate::joined::load_fault;
use crate::store::TreeStore;
use kz_disk::Disk;
use kz_journal::{ChangeFault, Journal, write_frame};
use kz_tree::{LoadCheck, TreeFault};
use std::alloc::Global;

// Appends a frame with all znodes of a load.
fn write_all_rows<D: Disk>(
    alloc: Global,
    journal: &mut Journal<D>,
    check: &LoadCheck,
) -> Result<(), ChangeFault>
    requires up { is_down journal.old ≡ false }
    requires ended { has_ended journal.old ≡ true }
    requires letter { letter_of journal.old ≡ tree_letter }
    ensures written { OnOk result ((file : List ℕ) → D.told (disk_of journal.old) ≡ Some file → HasTxn (LoadRows true check.now.rows) file (D.told (disk_of journal.new))) }
    ensures kept { (letter_of journal.new ≡ tree_letter) × (has_ended journal.new ≡ true) }
    ensures disk { ChangesDisk ⊤ (length (txn_written (LoadRows true check.now.rows))) (answer_by answer_of_change_fault result) (disk_state D.faults journal.old) (disk_state D.faults journal.new) }
    ensures untouched { IfUnwritten result (disk_of journal.new ≡ disk_of journal.old) }
    ensures told { StaysTold (D.told (disk_of journal.old)) (D.told (disk_of journal.new)) }
    ensures stop { IsErrOf result ChangeFault.Failed → (file : List ℕ) → D.told (disk_of journal.old) ≡ Some file
        → (left : List ℕ) → D.may_leave (disk_of journal.new) left → LeftByTxn (LoadRows true check.now.rows) (journal_of tree_letter file) left }
{
    let Ok(payload) = all_rows_bytes(alloc, check) else {
        return Err(ChangeFault::NoMemory);
    };
    write_frame(journal, &payload)
}

impl<D: Disk> TreeStore<D> {
    ghost use Rattle.std.specs.Prelude.{◌≡◌, true, false, None, Some, OnOk, OnErr, IsErrOf, length, ⊤};
    ghost use Rattle.kz_spec_data.specs.Requests.{answer_by, answer_of_tree_fault, ChangesDisk, Only};
    ghost use Rattle.kz_spec_data.specs.declared.files.Txn.TheVariants.{LoadRows};
    ghost use Rattle.kz_spec_data.specs.Transactions.{txn_written};
    ghost use Rattle.kz_journal.specs.Changes.{answer_of_change_fault, IfUnwritten};
    ghost use Rattle.kz_tree_store.specs.Stores.{held_tree, is_fresh, loaded, known, store_down, store_disk, store_state, left_of};
    ghost use Rattle.kz_tree_store.specs.LoadCalls.{last_of, after_load, load_payloads, IsUnderWay, WritesFrames, LeftByLoad};

    // Writes all znodes of a load. The next frame is to end it.
    fn write_rows(&mut self, check: &LoadCheck) -> Result<(), ChangeFault>
        requires up { store_down self.old ≡ false }
        requires fresh { is_fresh self.old ≡ true }
        requires unloaded { loaded self.old ≡ None }
        ensures under_way { OnOk result (IsUnderWay (D.told (store_disk self.new)) check.now.rows (known self.new)) }
        ensures same { known self.new ≡ known self.old }
        ensures up { OnOk result (store_down self.new ≡ false) }
        ensures disk { ChangesDisk ⊤ (length (txn_written (LoadRows true check.now.rows))) (answer_by answer_of_change_fault result) (store_state D.faults self.old) (store_state D.faults self.new) }
        ensures stop { IsErrOf result ChangeFault.Failed → Only (held_tree self.old) (left_of D.told D.may_leave self.new) }
    {
        match write_all_rows(self.alloc, &mut self.journal, check) {
            Ok(()) => Ok(()),
            Err(ChangeFault::Failed) => {
                self.down = true;
                Err(ChangeFault::Failed)
            }
            Err(ChangeFault::Full { length }) => Err(ChangeFault::Full { length }),
            Err(ChangeFault::NoMemory) => Err(ChangeFault::NoMemory),
        }
    }

    /// Writes all znodes of a load that was checked, and its end. The tree of the load is then the store's; no znode of it is copied.
    ///
    /// The file has to be fresh, and no load of this store under way. At an error the tree is as it was. `Device`: a call of the
    /// disk failed, and the store is down. `Down`: one failed in an earlier request. `Full`: the file would have so many bytes.
    /// `NoMemory`. There is no other fault.
    pub fn load_checked(&mut self, check: LoadCheck) -> Result<(), TreeFault>
        requires fresh { is_fresh self.old ≡ true }
        requires unloaded { loaded self.old ≡ None }
        ensures ok { OnOk result (known self.new ≡ after_load (Some (last_of check)) check.rows (known self.old)) }
        ensures same { OnErr result (known self.new ≡ known self.old) }
        ensures disk { WritesFrames (load_payloads true check.rows (Some (last_of check))) (answer_by answer_of_tree_fault result) (store_state D.faults self.old) (store_state D.faults self.new) }
        ensures stop { IsErrOf result TreeFault.Device → LeftByLoad (Some (last_of check)) check.rows (held_tree self.old) (left_of D.told D.may_leave self.new) }
    {
        if self.down {
            return Err(TreeFault::Down);
        }
        match self.write_rows(&check) {
            Ok(()) => {}
            Err(fault) => return Err(load_fault(fault)),
        }
        match self.write_end(check.into_tree()) {
            Ok(()) => Ok(()),
            Err(fault) => Err(load_fault(fault)),
        }
    }
}
