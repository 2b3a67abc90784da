//! Writing a seal into a store's file.
ghost use Rattle.std.specs.Prelude.{◌≡◌, true, false, length, List, ℕ, Some};
ghost use Rattle.kz_disk.specs.Disks.{StaysTold};
ghost use Rattle.kz_spec_data.specs.Frames.{journal_of, LeftBySeal};
ghost use Rattle.kz_journal.specs.Held.{disk_of, letter_of, has_ended, is_down, disk_state};
ghost use Rattle.kz_journal.specs.Changes.{AnswersSeal, SealsFile, IfUnsealed};

use crate::change_fault::ChangeFault;
use crate::{Journal, JournalFault};
use kz_disk::Disk;

/// Appends a seal where frames have no sum, and answers true: from it on frames have one. Where they have, it makes no call of
/// the disk, and answers false. A stop at any moment of the call leaves the file without the seal, or with it whole.
///
/// `Failed`: a call of the disk failed. `Full`: the file would pass `MAX_FILE_BYTES`, and no call of the disk was made. There is
/// no other fault.
pub fn write_seal<D: Disk>(journal: &mut Journal<D>) -> Result<bool, ChangeFault>
    requires up { is_down journal.old ≡ false }
    requires ended { has_ended journal.old ≡ true }
    ensures sealed { (file : List ℕ) → D.told (disk_of journal.old) ≡ Some file → AnswersSeal (letter_of journal.old) file result (D.told (disk_of journal.new)) }
    ensures kept { (letter_of journal.new ≡ letter_of journal.old) × (has_ended journal.new ≡ true) }
    ensures disk { SealsFile result (disk_state D.faults journal.old) (disk_state D.faults journal.new) }
    ensures untouched { IfUnsealed result (disk_of journal.new ≡ disk_of journal.old) }
    ensures told { StaysTold (D.told (disk_of journal.old)) (D.told (disk_of journal.new)) }
    ensures stop { (file : List ℕ) → D.told (disk_of journal.old) ≡ Some file
        → (left : List ℕ) → D.may_leave (disk_of journal.new) left → LeftBySeal (letter_of journal.old) (journal_of (letter_of journal.old) file) left }
{
    match journal.seal() {
        Ok(done) => Ok(done),
        Err(JournalFault::DiskFault) => Err(ChangeFault::Failed),
        Err(JournalFault::Damaged { .. }) => unreachable!(),
        Err(JournalFault::Full { length }) => Err(ChangeFault::Full { length }),
        Err(JournalFault::NoMemory) => unreachable!(),
        Err(JournalFault::Down) => unreachable!(),
    }
}
