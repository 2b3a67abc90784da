//! Opening a log's file.
ghost use Rattle.std.specs.Prelude.{◌≡◌, ◌^◌, ◌<◌, ℕ, List, Some, Ok, true, false, length, IfOk, IfErr, OnOk};
ghost use Rattle.kz_disk.specs.Disks.{StaysTold};
ghost use Rattle.kz_spec_data.specs.Log.{IsLog};
ghost use Rattle.kz_spec_data.specs.Frames.{log_letter, journal_of};
ghost use Rattle.kz_spec_data.specs.LogFile.{why_at, after_payload};
ghost use Rattle.kz_journal.specs.Held.{disk_of, letter_of, has_ended, is_down, disk_state, bytes_left, unread};
ghost use Rattle.kz_log_store.specs.Opened.{open_fault_of, next_fault_of, TakesFrame, TakesNext, Steps, EndsFrames, Reads, EndsReading};

use crate::fault::LogOpenFault;
use kz_disk::Disk;
use kz_journal::{Frame, Journal, JournalFault};
use kz_log::LogRows;
use kz_log_frames::{FrameFault, take_payload};
use kz_types::LogWhy;
use std::alloc::Global;

/// Why a file isn't opened that isn't opened as a journal.
pub(crate) fn open_fault(fault: JournalFault) -> LogOpenFault
    ensures { result ≡ open_fault_of fault }
{
    match fault {
        JournalFault::DiskFault => LogOpenFault::DiskFault,
        JournalFault::Damaged { at } => LogOpenFault::Damaged {
            at,
            why: LogWhy::Header,
        },
        JournalFault::Full { .. } => LogOpenFault::NoMemory,
        JournalFault::NoMemory => LogOpenFault::NoMemory,
        JournalFault::Down => LogOpenFault::DiskFault,
    }
}

// Why a journal is damaged at a place at which no frame can be read.
fn why_at(at: u64) -> LogWhy
    ensures { result ≡ why_at at }
{
    if at == 0 { LogWhy::Header } else { LogWhy::Sum }
}

// Takes a frame.
fn take_frame(alloc: Global, frame: &Frame, log: &mut LogRows) -> Result<(), LogOpenFault>
    ensures { TakesFrame result frame.now.at (after_payload log.old frame.now.payload) log.new }
{
    match take_payload(alloc, log, frame.payload.as_slice()) {
        Ok(()) => Ok(()),
        Err(FrameFault::Why(why)) => Err(LogOpenFault::Damaged { at: frame.at, why }),
        Err(FrameFault::NoMemory) => Err(LogOpenFault::NoMemory),
    }
}

// Why a frame isn't read that the journal doesn't answer.
fn next_fault(fault: JournalFault) -> LogOpenFault
    ensures { result ≡ next_fault_of fault }
{
    match fault {
        JournalFault::DiskFault => LogOpenFault::DiskFault,
        JournalFault::Damaged { at } => LogOpenFault::Damaged {
            at,
            why: why_at(at),
        },
        JournalFault::Full { .. } => LogOpenFault::NoMemory,
        JournalFault::NoMemory => LogOpenFault::NoMemory,
        JournalFault::Down => LogOpenFault::DiskFault,
    }
}

// Takes the frame that a journal answers, if any. False: there is none.
fn take_next(
    alloc: Global,
    next: Result<Option<Frame>, JournalFault>,
    log: &mut LogRows,
) -> Result<bool, LogOpenFault>
    ensures { TakesNext next result log.old log.new }
{
    match next {
        Ok(Some(frame)) => match take_frame(alloc, &frame, log) {
            Ok(()) => Ok(true),
            Err(fault) => Err(fault),
        },
        Ok(None) => Ok(false),
        Err(fault) => Err(next_fault(fault)),
    }
}

// Reads the next frame and takes it. False: there is none.
fn read_frame<D: Disk>(
    alloc: Global,
    journal: &mut Journal<D>,
    log: &mut LogRows,
) -> Result<bool, LogOpenFault>
    requires up { is_down journal.old ≡ false }
    requires letter { letter_of journal.old ≡ log_letter }
    ensures answer { (file : List ℕ) → D.told (disk_of journal.old) ≡ Some file
        → Steps file result log.old log.new (unread journal.old file) (unread journal.new file) (D.told (disk_of journal.new)) }
    ensures letter { letter_of journal.new ≡ log_letter }
    ensures ended { EndsFrames result (has_ended journal.new) (bytes_left journal.old) (bytes_left journal.new) }
    ensures cause { EndsReading result (disk_state D.faults journal.old) (disk_state D.faults journal.new) (D.last_failed (disk_of journal.new)) }
    ensures told { StaysTold (D.told (disk_of journal.old)) (D.told (disk_of journal.new)) }
    ensures stop { (file : List ℕ) → D.told (disk_of journal.old) ≡ Some file → length file < 2 ^ 32
        → (left : List ℕ) → D.may_leave (disk_of journal.new) left → journal_of log_letter left ≡ journal_of log_letter file }
{
    let found = journal.next();
    take_next(alloc, found, log)
}

/// Reads all frames of a journal that was opened. The log that they make, and whether there is none.
pub(crate) fn read_frames<D: Disk>(
    alloc: Global,
    journal: &mut Journal<D>,
) -> Result<(LogRows, bool), LogOpenFault>
    requires up { is_down journal.old ≡ false }
    requires letter { letter_of journal.old ≡ log_letter }
    ensures answer { (file : List ℕ) → D.told (disk_of journal.old) ≡ Some file → unread journal.old file ≡ journal_of log_letter file
        → Reads file result (D.told (disk_of journal.new)) }
    ensures is_log { IfOk result (λ found. IsLog found.0) }
    ensures letter { letter_of journal.new ≡ log_letter }
    ensures ended { OnOk result (has_ended journal.new ≡ true) }
    ensures cause { EndsReading result (disk_state D.faults journal.old) (disk_state D.faults journal.new) (D.last_failed (disk_of journal.new)) }
    ensures told { StaysTold (D.told (disk_of journal.old)) (D.told (disk_of journal.new)) }
    ensures stop { (file : List ℕ) → D.told (disk_of journal.old) ≡ Some file → length file < 2 ^ 32
        → (left : List ℕ) → D.may_leave (disk_of journal.new) left → journal_of log_letter left ≡ journal_of log_letter file }
{
    let mut log = LogRows::new(alloc);
    let mut fresh = true;
    'frames: loop {
        match read_frame(alloc, journal, &mut log) {
            Ok(true) => fresh = false,
            Ok(false) => {
                log.is_log();
                return Ok((log, fresh));
            }
            Err(fault) => return Err(fault),
        }
    }
}
