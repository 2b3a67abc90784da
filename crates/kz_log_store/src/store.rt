//! A log on a disk.
ghost use Rattle.std.specs.Prelude.{◌≡◌, ◌<◌, ◌^◌, ◌≤ℤ◌, ◌+ℤ◌, pos, ℕ, List, Some, true, false, length, IfOk, IfErr, OnOk};
ghost use Rattle.kz_types.specs.declared.limits.TheConstants.{MAX_LONG};
ghost use Rattle.kz_spec_data.specs.Log.{IsLog, end_of, new_batch, with_row};
ghost use Rattle.kz_log_frames.specs.Payloads.{IsPayloadOf};
ghost use Rattle.kz_spec_data.specs.Frames.{log_letter, journal_of};
ghost use Rattle.kz_log.specs.OneProof.{IsLog-prop};
ghost use Rattle.kz_journal.specs.Held.{disk_of, letter_of, has_ended, is_down, unread};
ghost use Rattle.kz_log_store.specs.Opened.{IsLogFile, open_fault_of};

use crate::fault::LogOpenFault;
use crate::open::{open_fault, read_frames};
use kz_disk::Disk;
use kz_journal::{ChangeFault, Journal, JournalFault, write_frame, write_seal};
use kz_log::{Elected, Feed, LogFault, LogRows, MetaLog};
use kz_log_frames::{batch_bytes, cut_and_bytes, reset_bytes};
use kz_types::{BatchRow, Limit, MAX_EPOCH, MetaRecord, NoMemory};
use std::alloc::Global;
use std::mem;

// The batch of these records after a log's end, and the payload of its frame.
fn prepare(
    alloc: Global,
    rows: &LogRows,
    epoch: i32,
    now: i64,
    items: &[MetaRecord],
) -> Result<(BatchRow, Vec<u8>), NoMemory>
    requires some { 0 < length items.now }
    requires room { (end_of rows.now +ℤ pos (length items.now)) ≤ℤ MAX_LONG }
    ensures row { IfOk result (λ made. made.0 ≡ new_batch rows.now epoch now items.now) }
    ensures payload { IfOk result (λ made. IsPayloadOf made.0 made.1.items) }
{
    let row = rows.batch(alloc, epoch, now, items)?;
    let payload = batch_bytes(alloc, &row)?;
    Ok((row, payload))
}

/// A metadata log on a disk. Its file is a journal of the letter `L`, which has a frame for each batch, each reset and each
/// snapshot; the log is also held in memory. A change counts once its frame is whole on the disk.
///
/// From a request on that answers `Failed` the store is down, and makes no call of the disk.
#[derive(Drop)]
pub struct LogStore<D: Disk> {
    alloc: Global,
    journal: Journal<D>,
    rows: LogRows,
    // The file has no frame.
    fresh: bool,
    // A call of the disk has failed.
    down: bool,
    ghost is_log: { IsLog rows } by { IsLog-prop rows-code rows },
    ghost letter: { letter_of journal ≡ log_letter },
    ghost down_is: { down ≡ is_down journal },
    ghost ended: { is_down journal ≡ false → has_ended journal ≡ true },
    // While the store isn't down, the log is that of the file.
    ghost same: { is_down journal ≡ false → (file : List ℕ) → D.told (disk_of journal) ≡ Some file → IsLogFile file rows fresh },
}

// Why a disk isn't opened that isn't opened as a journal.
fn not_opened<D>(refused: (D, JournalFault)) -> (D, LogOpenFault)
    ensures { result ≡ (refused.0, open_fault_of refused.1) }
{
    let (disk, fault) = refused;
    (disk, open_fault(fault))
}

impl<D: Disk> LogStore<D> {
    ghost use Rattle.std.specs.Prelude.{◌<◌, ◌≤◌, ◌≤ℤ◌, ◌+ℤ◌, pos, None, Ok, IfOk, IfErr, OnOk, OnErr, IsErrOf, length, ⊤};
    ghost use Rattle.kz_disk.specs.Disks.{StaysTold};
    ghost use Rattle.kz_spec_data.specs.Log.{IsLog, full_log, with_batch, new_batch};
    ghost use Rattle.kz_spec_data.specs.Requests.{answer_by, ChangesDisk, Only, Either};
    ghost use Rattle.kz_types.specs.declared.limits.TheConstants.{MAX_FILE_BYTES};
    ghost use Rattle.kz_spec_data.specs.LogFile.{after_payload, batch_payload};
    ghost use Rattle.kz_log.specs.Rows.{GoesOn};
    ghost use Rattle.kz_log_frames.specs.Payloads.{IsPayloadOf};
    ghost use Rattle.kz_journal.specs.Changes.{answer_of_change_fault};
    ghost use Rattle.kz_log_store.specs.Stores.{held_log, is_fresh, store_disk, store_down, store_state, left_of, IsOpened, IsUnopened, HasOpenCause, LeftByOpening, SealsTold, SealsDisk};

    /// Opens the disk's file as a log's journal, and reads all of it into memory. The file is only written to close the gate after
    /// its last frame, so a stop at any moment leaves the log that it stands for.
    ///
    /// `DiskFault`: a call of the disk failed. `Damaged`: the first place of the file, in bytes, at which it stands for no log, and
    /// why; it has the header of no log's journal, a frame or a seal has another sum, or a frame doesn't follow on the log before
    /// it. `NoMemory`. At each of them the disk is handed back.
    pub fn attach(alloc: Global, disk: D) -> Result<LogStore<D>, (D, LogOpenFault)>
        ensures opened { IfOk result (λ s. IsOpened s (D.told disk) (D.told (store_disk s))) }
        ensures calm { IfOk result (λ s. (store_state D.faults s).faults ≡ D.faults disk) }
        ensures refused { IfErr result (λ e. IsUnopened e.1 (D.told disk) (D.told e.0)) }
        ensures cause { IfErr result (λ e. HasOpenCause e.1 (D.faults disk) (D.faults e.0) (D.last_failed e.0)) }
        ensures stop { IfErr result (λ e. LeftByOpening (D.told disk) (D.may_leave disk) (D.syncs disk) (D.syncs e.0) (D.may_leave e.0)) }
    {
        match Journal::attach(alloc, disk, b'L') {
            Ok(journal) => LogStore::read_log(alloc, journal),
            Err(refused) => Err(not_opened(refused)),
        }
    }

    // Reads a journal that was opened into a store.
    fn read_log(alloc: Global, journal: Journal<D>) -> Result<LogStore<D>, (D, LogOpenFault)>
        requires up { is_down journal ≡ false }
        requires letter { letter_of journal ≡ log_letter }
        requires all { (file : List ℕ) → D.told (disk_of journal) ≡ Some file → unread journal file ≡ journal_of log_letter file }
        ensures opened { IfOk result (λ s. IsOpened s (D.told (disk_of journal)) (D.told (store_disk s))) }
        ensures calm { IfOk result (λ s. (store_state D.faults s).faults ≡ D.faults (disk_of journal)) }
        ensures refused { IfErr result (λ e. IsUnopened e.1 (D.told (disk_of journal)) (D.told e.0)) }
        ensures cause { IfErr result (λ e. HasOpenCause e.1 (D.faults (disk_of journal)) (D.faults e.0) (D.last_failed e.0)) }
        ensures left { IfErr result (λ e. (file : List ℕ) → D.told (disk_of journal) ≡ Some file → length file < 2 ^ 32
            → (left : List ℕ) → D.may_leave e.0 left → journal_of log_letter left ≡ journal_of log_letter file) }
    {
        let mut journal = journal;
        match read_frames(alloc, &mut journal) {
            Ok(found) => {
                let (rows, fresh) = found;
                let store = LogStore {
                    alloc,
                    journal,
                    rows,
                    fresh,
                    down: false,
                };
                Ok(store)
            }
            Err(fault) => Err((journal.into_disk(), fault)),
        }
    }

    /// Whether the file holds no frame.
    pub fn is_fresh(&self) -> bool
        ensures { result ≡ is_fresh self.now }
    {
        self.fresh
    }

    /// Lends the log. It makes no call of the disk.
    pub fn rows(&self) -> &LogRows
        ensures { result.now ≡ held_log self.now }
    {
        &self.rows
    }

    /// Appends a seal where frames have no sum, and answers true: from it on frames have one. Where they have, it makes no call,
    /// and answers false. A stop at any moment of the call leaves the log as it stands.
    ///
    /// `Failed`: a call of the disk failed. `Full`: the file would have this length, in bytes, which passes `MAX_FILE_BYTES`.
    /// `Down`: a call failed in an earlier request. There is no other fault.
    pub fn seal(&mut self) -> Result<bool, LogFault>
        ensures sealed { (file : List ℕ) → D.told (store_disk self.old) ≡ Some file → SealsTold log_letter file result (D.told (store_disk self.new)) }
        ensures same { held_log self.new ≡ held_log self.old }
        ensures told { StaysTold (D.told (store_disk self.old)) (D.told (store_disk self.new)) }
        ensures disk { SealsDisk result (store_state D.faults self.old) (store_state D.faults self.new) }
        ensures stop { store_down self.old ≡ false → Only (held_log self.old) (left_of D.told D.may_leave self.new) }
    {
        if self.down {
            return Err(LogFault::Down);
        }
        match write_seal(&mut self.journal) {
            Ok(done) => Ok(done),
            Err(ChangeFault::Failed) => {
                self.down = true;
                Err(LogFault::Failed)
            }
            Err(ChangeFault::Full { length }) => Err(LogFault::Full { length }),
            Err(ChangeFault::NoMemory) => unreachable!(),
        }
    }

    /// Gives the disk back.
    pub fn into_disk(self) -> D
        ensures { result ≡ store_disk self }
    {
        let LogStore { journal, .. } = self;
        journal.into_disk()
    }

    /// Gives the disk back at the end of a process. The memory of the log isn't given back piece by piece, which would take a tenth
    /// of the time of a short command.
    pub fn into_disk_at_exit(self) -> D
        ensures { result ≡ store_disk self }
    {
        let LogStore { journal, rows, .. } = self;
        mem::forget(rows);
        journal.into_disk()
    }

    // Appends a batch that follows on the log, in memory and to the file. Where the file doesn't take it, it is taken off again, so
    // that no memory is wanted once it is written.
    fn write(&mut self, row: BatchRow, payload: &[u8]) -> Result<(), ChangeFault>
        requires up { store_down self.old ≡ false }
        requires follows { GoesOn (held_log self.old) row }
        requires spelled { IsPayloadOf row payload.now }
        ensures ok { OnOk result (held_log self.new ≡ with_row (held_log self.old) row) }
        ensures same { OnErr result (held_log self.new ≡ held_log self.old) }
        ensures disk { ChangesDisk ⊤ (length (batch_payload row)) (answer_by answer_of_change_fault result) (store_state D.faults self.old) (store_state D.faults self.new) }
        ensures stop { IsErrOf result ChangeFault.Failed → Either (held_log self.old) (with_row (held_log self.old) row) (left_of D.told D.may_leave self.new) }
    {
        let epoch = self.rows.epoch();
        let Ok(()) = self.rows.push(row) else {
            return Err(ChangeFault::NoMemory);
        };
        match write_frame(&mut self.journal, payload) {
            Ok(()) => {
                self.fresh = false;
                Ok(())
            }
            Err(ChangeFault::Failed) => {
                self.rows.pop(epoch);
                self.down = true;
                Err(ChangeFault::Failed)
            }
            Err(ChangeFault::Full { length }) => {
                self.rows.pop(epoch);
                Err(ChangeFault::Full { length })
            }
            Err(ChangeFault::NoMemory) => {
                self.rows.pop(epoch);
                Err(ChangeFault::NoMemory)
            }
        }
    }

    // Appends a frame to the file, and then puts the log in place that it makes.
    fn put(&mut self, rows: LogRows, payload: &[u8]) -> Result<(), ChangeFault>
        requires up { store_down self.old ≡ false }
        requires is_log { IsLog rows }
        requires makes { length payload.now ≤ MAX_FILE_BYTES → after_payload (held_log self.old) payload.now ≡ Ok rows }
        ensures ok { OnOk result (held_log self.new ≡ rows) }
        ensures same { OnErr result (held_log self.new ≡ held_log self.old) }
        ensures disk { ChangesDisk ⊤ (length payload.now) (answer_by answer_of_change_fault result) (store_state D.faults self.old) (store_state D.faults self.new) }
        ensures stop { IsErrOf result ChangeFault.Failed → Either (held_log self.old) rows (left_of D.told D.may_leave self.new) }
    {
        match write_frame(&mut self.journal, payload) {
            Ok(()) => {
                self.rows = rows;
                self.fresh = false;
                Ok(())
            }
            Err(ChangeFault::Failed) => {
                self.down = true;
                Err(ChangeFault::Failed)
            }
            Err(ChangeFault::Full { length }) => Err(ChangeFault::Full { length }),
            Err(ChangeFault::NoMemory) => Err(ChangeFault::NoMemory),
        }
    }

    // Appends a batch of this epoch to the file, and then to the log.
    fn add(&mut self, epoch: i32, now: i64, items: &[MetaRecord]) -> Result<(), ChangeFault>
        requires up { store_down self.old ≡ false }
        requires some { 0 < length items.now }
        requires room { full_log (held_log self.old) items.now ≡ None }
        requires elected { (pos 1 ≤ℤ epoch) × ((held_log self.old).epoch ≤ℤ epoch) }
        ensures ok { OnOk result (held_log self.new ≡ with_batch (held_log self.old) epoch now items.now) }
        ensures same { OnErr result (held_log self.new ≡ held_log self.old) }
        ensures disk { ChangesDisk ⊤ (length (batch_payload (new_batch (held_log self.old) epoch now items.now))) (answer_by answer_of_change_fault result) (store_state D.faults self.old) (store_state D.faults self.new) }
        ensures stop { IsErrOf result ChangeFault.Failed → Either (held_log self.old) (with_batch (held_log self.old) epoch now items.now) (left_of D.told D.may_leave self.new) }
    {
        match prepare(self.alloc, &self.rows, epoch, now, items) {
            Ok(made) => {
                let (row, payload) = made;
                self.write(row, &payload)
            }
            Err(_) => Err(ChangeFault::NoMemory),
        }
    }
}

impl<D: Disk> MetaLog for LogStore<D> {
    ghost use Rattle.kz_journal.specs.Held.{disk_state};
    ghost use Rattle.kz_log_store.specs.Opened.{LeavesLog, settled_log};
    ghost use Rattle.kz_log_frames.specs.Payloads.{change_bytes};

    ghost log = { λ s. s.rows };

    ghost disk = { λ s. disk_state D.faults s.journal };

    ghost payload_bytes = { λ log change. change_bytes log change };

    ghost left = { λ s found. LeavesLog (D.told (disk_of s.journal)) (D.may_leave (disk_of s.journal)) found };

    ghost is_log = { λ s. s.is_log };

    ghost settled = { λ s up found left. settled_log s.rows s.fresh (D.told (disk_of s.journal)) (D.may_leave (disk_of s.journal)) (s.journal.settled up) (s.same up) found left };

    fn epoch(&self) -> i32 {
        self.rows.epoch()
    }

    fn base(&self) -> i64 {
        self.rows.base()
    }

    fn end(&self) -> i64 {
        self.rows.end()
    }

    fn append(&mut self, epoch: i32, now: i64, items: &[MetaRecord]) -> Result<i64, LogFault> {
        if self.down {
            return Err(LogFault::Down);
        }
        if epoch != self.rows.epoch() {
            return Err(LogFault::Stale {
                epoch: self.rows.epoch(),
            });
        }
        if let Some(number) = self.rows.full(items.len()) {
            return Err(LogFault::Limit { number });
        }
        match self.add(epoch, now, items) {
            Ok(()) => Ok(self.rows.end()),
            Err(ChangeFault::Failed) => Err(LogFault::Failed),
            Err(ChangeFault::Full { length }) => Err(LogFault::Full { length }),
            Err(ChangeFault::NoMemory) => Err(LogFault::NoMemory),
        }
    }

    fn elect(&mut self, now: i64, items: &[MetaRecord]) -> Result<Elected, LogFault> {
        if self.down {
            return Err(LogFault::Down);
        }
        if self.rows.epoch() == MAX_EPOCH {
            return Err(LogFault::Limit {
                number: Limit::Epoch.number(),
            });
        }
        if let Some(number) = self.rows.full(items.len()) {
            return Err(LogFault::Limit { number });
        }
        let epoch = self.rows.epoch() + 1;
        match self.add(epoch, now, items) {
            Ok(()) => Ok(Elected {
                epoch,
                end: self.rows.end(),
            }),
            Err(ChangeFault::Failed) => Err(LogFault::Failed),
            Err(ChangeFault::Full { length }) => Err(LogFault::Full { length }),
            Err(ChangeFault::NoMemory) => Err(LogFault::NoMemory),
        }
    }

    fn read_from(&mut self, after: i64) -> Result<Feed, LogFault> {
        if self.down {
            return Err(LogFault::Down);
        }
        match self.rows.read_from(self.alloc, after) {
            Ok(feed) => Ok(feed),
            Err(NoMemory) => Err(LogFault::NoMemory),
        }
    }

    fn reset(&mut self) -> Result<(), LogFault> {
        if self.down {
            return Err(LogFault::Down);
        }
        let Ok(payload) = reset_bytes(self.alloc, self.rows.epoch()) else {
            return Err(LogFault::NoMemory);
        };
        let rows = self.rows.emptied(self.alloc);
        match self.put(rows, &payload) {
            Ok(()) => Ok(()),
            Err(ChangeFault::Failed) => Err(LogFault::Failed),
            Err(ChangeFault::Full { length }) => Err(LogFault::Full { length }),
            Err(ChangeFault::NoMemory) => Err(LogFault::NoMemory),
        }
    }

    fn snapshot(&mut self, offset: i64) -> Result<(), LogFault> {
        if self.down {
            return Err(LogFault::Down);
        }
        match cut_and_bytes(self.alloc, &self.rows, offset) {
            Ok(made) => {
                let (rows, payload) = made;
                match self.put(rows, &payload) {
                    Ok(()) => Ok(()),
                    Err(ChangeFault::Failed) => Err(LogFault::Failed),
                    Err(ChangeFault::Full { length }) => Err(LogFault::Full { length }),
                    Err(ChangeFault::NoMemory) => Err(LogFault::NoMemory),
                }
            }
            Err(NoMemory) => Err(LogFault::NoMemory),
        }
    }
}
