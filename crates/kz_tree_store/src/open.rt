//! Opening a tree's file.
ghost use Rattle.std.specs.Prelude.{◌≡◌, ◌^◌, ◌<◌, ℕ, List, Some, Ok, true, false, length, IfOk, OnOk};
ghost use Rattle.kz_disk.specs.Disks.{StaysTold};
ghost use Rattle.kz_spec_data.specs.Frames.{tree_letter, journal_of};
ghost use Rattle.kz_spec_data.specs.Transactions.{txn_of};
ghost use Rattle.kz_spec_data.specs.TreeFile.{after_reading};
ghost use Rattle.kz_journal.specs.Held.{disk_of, letter_of, has_ended, is_down, disk_state, bytes_left, unread};
ghost use Rattle.kz_tree_store.specs.Held.{stored, ArePositive};
ghost use Rattle.kz_tree_store.specs.Opened.{open_fault_of, GrowsByOne, TakesFrame, Steps, EndsFrames, Reads, EndsReading};

use crate::fault::{FrameFault, TreeOpenFault};
use crate::held::Held;
use crate::take::take_payload;
use kz_disk::Disk;
use kz_journal::{Frame, Journal, JournalFault};
use kz_tree::Tree;
use std::alloc::Global;

/// Why a file isn't opened that isn't opened as a journal.
pub(crate) fn open_fault(fault: JournalFault) -> TreeOpenFault
    ensures { result ≡ open_fault_of fault }
{
    match fault {
        JournalFault::DiskFault => TreeOpenFault::DiskFault,
        JournalFault::Damaged { at } => TreeOpenFault::Damaged { at },
        JournalFault::Full { .. } => TreeOpenFault::NoMemory,
        JournalFault::NoMemory => TreeOpenFault::NoMemory,
        JournalFault::Down => TreeOpenFault::DiskFault,
    }
}

// Takes a frame.
fn take_frame(alloc: Global, frame: &Frame, held: &mut Held) -> Result<(), TreeOpenFault>
    requires { ArePositive held.old.tree.sessions }
    ensures frame { TakesFrame result frame.now.at (after_reading (stored held.old) (txn_of frame.now.payload)) (stored held.new) }
    ensures positive { OnOk result (ArePositive held.new.tree.sessions) }
{
    match take_payload(alloc, held, frame.payload.as_slice()) {
        Ok(()) => Ok(()),
        Err(FrameFault::Damaged) => Err(TreeOpenFault::Damaged { at: frame.at }),
        Err(FrameFault::NoMemory) => Err(TreeOpenFault::NoMemory),
    }
}

// Reads the next frame and takes it. False: there is none.
fn read_frame<D: Disk>(
    alloc: Global,
    journal: &mut Journal<D>,
    held: &mut Held,
) -> Result<bool, TreeOpenFault>
    requires up { is_down journal.old ≡ false }
    requires letter { letter_of journal.old ≡ tree_letter }
    requires positive { ArePositive held.old.tree.sessions }
    ensures answer { (file : List ℕ) → D.told (disk_of journal.old) ≡ Some file
        → Steps file result (stored held.old) (stored held.new) (unread journal.old file) (unread journal.new file) (D.told (disk_of journal.new)) }
    ensures letter { letter_of journal.new ≡ tree_letter }
    ensures positive { OnOk result (ArePositive held.new.tree.sessions) }
    ensures ended { EndsFrames result (has_ended journal.new) (bytes_left journal.old) (bytes_left journal.new) }
    ensures cause { EndsReading result (disk_state D.faults journal.old) (disk_state D.faults journal.new) (D.last_failed (disk_of journal.new)) }
    ensures told { StaysTold (D.told (disk_of journal.old)) (D.told (disk_of journal.new)) }
    ensures grown { OnOk result (GrowsByOne (D.told (disk_of journal.old)) (D.told (disk_of journal.new))) }
    ensures stop { (file : List ℕ) → D.told (disk_of journal.old) ≡ Some file → length file < 2 ^ 32
        → (left : List ℕ) → D.may_leave (disk_of journal.new) left → journal_of tree_letter left ≡ journal_of tree_letter file }
{
    match journal.next() {
        Ok(Some(frame)) => match take_frame(alloc, &frame, held) {
            Ok(()) => Ok(true),
            Err(fault) => Err(fault),
        },
        Ok(None) => Ok(false),
        Err(JournalFault::DiskFault) => Err(TreeOpenFault::DiskFault),
        Err(JournalFault::Damaged { at }) => Err(TreeOpenFault::Damaged { at }),
        Err(JournalFault::Full { .. }) => unreachable!(),
        Err(JournalFault::NoMemory) => Err(TreeOpenFault::NoMemory),
        Err(JournalFault::Down) => unreachable!(),
    }
}

/// Reads all frames of a journal that was opened. The tree that they stand for, and whether there is none but those of znodes
/// that are loaded.
pub(crate) fn read_frames<D: Disk>(
    alloc: Global,
    journal: &mut Journal<D>,
) -> Result<(Tree, bool), TreeOpenFault>
    requires up { is_down journal.old ≡ false }
    requires letter { letter_of journal.old ≡ tree_letter }
    ensures answer { (file : List ℕ) → D.told (disk_of journal.old) ≡ Some file → unread journal.old file ≡ journal_of tree_letter file
        → Reads file result (D.told (disk_of journal.new)) }
    ensures positive { IfOk result (λ found. ArePositive found.0.sessions) }
    ensures letter { letter_of journal.new ≡ tree_letter }
    ensures ended { OnOk result (has_ended journal.new ≡ true) }
    ensures cause { EndsReading result (disk_state D.faults journal.old) (disk_state D.faults journal.new) (D.last_failed (disk_of journal.new)) }
    ensures told { StaysTold (D.told (disk_of journal.old)) (D.told (disk_of journal.new)) }
    ensures grown { OnOk result (GrowsByOne (D.told (disk_of journal.old)) (D.told (disk_of journal.new))) }
    ensures stop { (file : List ℕ) → D.told (disk_of journal.old) ≡ Some file → length file < 2 ^ 32
        → (left : List ℕ) → D.may_leave (disk_of journal.new) left → journal_of tree_letter left ≡ journal_of tree_letter file }
{
    let mut held = Held::new(alloc);
    'frames: loop {
        match read_frame(alloc, journal, &mut held) {
            Ok(true) => {}
            Ok(false) => return Ok(held.into_parts()),
            Err(fault) => return Err(fault),
        }
    }
}
