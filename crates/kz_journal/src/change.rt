//! Writing a frame for a change of a store.
ghost use Rattle.std.specs.Prelude.{◌≡◌, true, false, length, List, ℕ, Some, ⊤, OnOk};
ghost use Rattle.kz_disk.specs.Disks.{StaysTold, NothingPends};
ghost use Rattle.kz_spec_data.specs.Requests.{answer_by, ChangesDisk};
ghost use Rattle.kz_spec_data.specs.Frames.{journal_of, LeftByAppend};
ghost use Rattle.kz_journal.specs.Held.{disk_of, letter_of, has_ended, is_down, disk_state};
ghost use Rattle.kz_journal.specs.Changes.{answer_of_change_fault, IfUnwritten, HasFrame};

use crate::change_fault::ChangeFault;
use crate::{Journal, JournalFault};
use kz_disk::Disk;

/// Appends a frame with this payload. A stop at any moment of the call leaves the frames from before it, or these and the new
/// one whole.
///
/// `Failed`: a call of the disk failed. `Full`: the file would pass `MAX_FILE_BYTES`. `NoMemory`: memory ran out. After each
/// of the last two no call of the disk was made.
pub fn write_frame<D: Disk>(journal: &mut Journal<D>, payload: &[u8]) -> Result<(), ChangeFault>
    requires up { is_down journal.old ≡ false }
    requires ended { has_ended journal.old ≡ true }
    ensures appended { OnOk result ((file : List ℕ) → D.told (disk_of journal.old) ≡ Some file → HasFrame (letter_of journal.old) payload.now file (D.told (disk_of journal.new))) }
    ensures kept { (letter_of journal.new ≡ letter_of journal.old) × (has_ended journal.new ≡ true) }
    ensures disk { ChangesDisk ⊤ (length payload.now) (answer_by answer_of_change_fault result) (disk_state D.faults journal.old) (disk_state D.faults journal.new) }
    ensures untouched { IfUnwritten result (disk_of journal.new ≡ disk_of journal.old) }
    ensures told { StaysTold (D.told (disk_of journal.old)) (D.told (disk_of journal.new)) }
    ensures stop { (file : List ℕ) → D.told (disk_of journal.old) ≡ Some file
        → (left : List ℕ) → D.may_leave (disk_of journal.new) left → LeftByAppend (letter_of journal.old) payload.now (journal_of (letter_of journal.old) file) left }
{
    match journal.append(payload) {
        Ok(_) => Ok(()),
        Err(JournalFault::DiskFault) => Err(ChangeFault::Failed),
        Err(JournalFault::Damaged { .. }) => unreachable!(),
        Err(JournalFault::Full { length }) => Err(ChangeFault::Full { length }),
        Err(JournalFault::NoMemory) => Err(ChangeFault::NoMemory),
        Err(JournalFault::Down) => unreachable!(),
    }
}
