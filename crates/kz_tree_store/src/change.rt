//! Writing a frame for a transaction.
ghost use Rattle.std.specs.Prelude.{◌≡◌, true, false, length, List, ℕ, Some, ⊤, OnOk, IsErrOf};
ghost use Rattle.kz_disk.specs.Disks.{StaysTold};
ghost use Rattle.kz_spec_data.specs.Requests.{answer_by, ChangesDisk};
ghost use Rattle.kz_spec_data.specs.Frames.{tree_letter, journal_of};
ghost use Rattle.kz_spec_data.specs.Transactions.{txn_written};
ghost use Rattle.kz_journal.specs.Held.{disk_of, letter_of, has_ended, is_down, disk_state};
ghost use Rattle.kz_journal.specs.Changes.{answer_of_change_fault, IfUnwritten};
ghost use Rattle.kz_tree_store.specs.Changes.{FitsIfFew, HasTxn, LeftByTxn};

use crate::payload::txn_bytes;
use kz_disk::Disk;
use kz_journal::{ChangeFault, Journal, write_frame};
use kz_spec_data::Txn;
use std::alloc::Global;

/// Appends a frame with this transaction.
pub(crate) fn write_change<D: Disk>(
    alloc: Global,
    journal: &mut Journal<D>,
    txn: &Txn,
) -> Result<(), ChangeFault>
    requires up { is_down journal.old ≡ false }
    requires ended { has_ended journal.old ≡ true }
    requires letter { letter_of journal.old ≡ tree_letter }
    requires fits { FitsIfFew txn.now }
    ensures written { OnOk result ((file : List ℕ) → D.told (disk_of journal.old) ≡ Some file → HasTxn txn.now file (D.told (disk_of journal.new))) }
    ensures kept { (letter_of journal.new ≡ tree_letter) × (has_ended journal.new ≡ true) }
    ensures disk { ChangesDisk ⊤ (length (txn_written txn.now)) (answer_by answer_of_change_fault result) (disk_state D.faults journal.old) (disk_state D.faults journal.new) }
    ensures untouched { IfUnwritten result (disk_of journal.new ≡ disk_of journal.old) }
    ensures told { StaysTold (D.told (disk_of journal.old)) (D.told (disk_of journal.new)) }
    ensures stop { IsErrOf result ChangeFault.Failed → (file : List ℕ) → D.told (disk_of journal.old) ≡ Some file
        → (left : List ℕ) → D.may_leave (disk_of journal.new) left → LeftByTxn txn.now (journal_of tree_letter file) left }
{
    let Ok(payload) = txn_bytes(alloc, txn) else {
        return Err(ChangeFault::NoMemory);
    };
    write_frame(journal, &payload)
}
