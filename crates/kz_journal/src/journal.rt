//! A journal on a disk.
ghost use Rattle.std.specs.Prelude.{◌≡◌, ◌+◌, ◌^◌, ◌<◌, ◌≤◌, ℕ, List, Some, true, false, length};
ghost use Rattle.kz_disk.specs.Disks.{NothingPends};
ghost use Rattle.kz_journal.specs.Journals.{IsReadTo, HasClosedGate};

use crate::append::{AppendFault, append_at};
use crate::create::create_at;
use crate::fault::JournalFault;
use crate::next::{Next, next_at};
use crate::open::open_at;
use crate::place::Place;
use crate::read::ReadFault;
use crate::seal::{SealFault, seal_at};
use bytes::Bytes;
use kz_disk::Disk;
use std::alloc::Global;

/// A frame of a journal.
#[derive(Drop)]
pub struct Frame {
    /// Where its gate stands.
    pub at: u64,
    /// What it holds.
    pub payload: Bytes,
}

/// A journal on a disk. Its frames are read one after another, and then further ones are appended.
///
/// From a call of the disk that fails on, the journal is down and makes no call.
#[derive(Drop)]
pub struct Journal<D: Disk> {
    alloc: Global,
    disk: D,
    letter: u8,
    place: Place,
    ended: bool,
    down: bool,
    // The gate stands in the file, or at its end while there are frames to read. The file has at most 2^63 bytes.
    ghost room: { place.gate ≤ place.length },
    ghost small: { ended ≡ false → place.length < 2 ^ 63 },
    ghost large: { place.length ≤ 2 ^ 63 },
    ghost stands: { ended ≡ true → place.gate < place.length },
    // While it isn't down, no write is pending, and the file has been read up to the gate, which is closed once all frames
    // have been read.
    pub ghost settled: { down ≡ false → NothingPends (D.told disk) (D.may_leave disk) },
    ghost read: { down ≡ false → (file : List ℕ) → D.told disk ≡ Some file → IsReadTo letter place file },
    ghost closed: { down ≡ false → ended ≡ true → (file : List ℕ) → D.told disk ≡ Some file → HasClosedGate place file },
}

impl<D: Disk> Journal<D> {
    ghost use Rattle.std.specs.Prelude.{[], option_map, IfOk, IfErr, OnOk, IsErrOf, MatchResult};
    ghost use Rattle.kz_disk.specs.Disks.{StaysTold, with_piece, LeavesTorn, LeavesOnly};
    ghost use Rattle.kz_spec_data.specs.Requests.{file_with};
    ghost use Rattle.kz_spec_data.specs.Frames.{new_file, journal_of, LeftByAppend, LeftBySeal};
    ghost use Rattle.kz_journal.specs.Appends.{IsTornOr};
    ghost use Rattle.kz_journal.specs.Journals.{HasFrameMore};
    ghost use Rattle.kz_journal.specs.Openings.{IsRefused, HasFaultCause, Settles};
    ghost use Rattle.kz_journal.specs.Held.{disk_of, letter_of, has_ended, is_down, has_sums, disk_state, bytes_left, IsOpened, IsMade, AnswersNext, EndsAt, LeavesFewer, EndsCall, Appends, IfUncalled, AnswersSeal, Seals, IfSealUncalled};

    /// Makes the disk's file a journal of this letter without frames, whatever it holds. The letter of a tree's file is `T`,
    /// that of a log's file `L`.
    ///
    /// `DiskFault`: a call of the disk failed. A stop then leaves any bytes in the file's first 17.
    pub fn create(alloc: Global, mut disk: D, letter: u8) -> Result<Self, (D, JournalFault)>
        ensures made { IfOk result (λ j. IsMade letter j (D.told (disk_of j))) }
        ensures written { IfOk result (λ j. D.told (disk_of j) ≡ option_map (with_piece 0 (new_file letter)) (D.told disk)) }
        ensures calm { IfOk result (λ j. D.faults (disk_of j) ≡ D.faults disk) }
        ensures cause { IfErr result (λ e. (e.1 ≡ JournalFault.DiskFault) × HasFaultCause e.1 (D.faults disk) (D.faults e.0) (D.last_failed e.0)) }
        ensures stop { MatchResult result (λ j. LeavesTorn 0 17 (D.may_leave disk) (D.may_leave (disk_of j))) (λ e. LeavesTorn 0 17 (D.may_leave disk) (D.may_leave e.0)) }
        ensures any_moment { MatchResult result (λ j. LeavesOnly D.moment D.left_since disk (disk_of j) (IsTornOr (D.may_leave disk) 0 17))
            (λ e. LeavesOnly D.moment D.left_since disk e.0 (IsTornOr (D.may_leave disk) 0 17)) }
    {
        match create_at(&mut disk, letter) {
            Ok(place) => Ok(Journal {
                alloc,
                disk,
                letter,
                place,
                ended: true,
                down: false,
            }),
            Err(_) => Err((disk, JournalFault::DiskFault)),
        }
    }

    /// Opens the disk's file as a journal of this letter. The letter of a tree's file is `T`, that of a log's file `L`.
    ///
    /// `DiskFault`: a call of the disk failed. `Damaged` at 0: the file doesn't begin with a header of this letter.
    pub fn attach(alloc: Global, mut disk: D, letter: u8) -> Result<Self, (D, JournalFault)>
        ensures opened { IfOk result (λ j. IsOpened letter j (D.told disk) (D.told (disk_of j))) }
        ensures calm { IfOk result (λ j. D.faults (disk_of j) ≡ D.faults disk) }
        ensures refused { IfErr result (λ e. IsRefused letter e.1 (D.told disk) (D.told e.0)) }
        ensures cause { IfErr result (λ e. HasFaultCause e.1 (D.faults disk) (D.faults e.0) (D.last_failed e.0)) }
        ensures stop { MatchResult result (λ j. Settles (D.told disk) (D.may_leave disk) (D.syncs disk) (D.syncs (disk_of j)) (D.may_leave (disk_of j)))
            (λ e. Settles (D.told disk) (D.may_leave disk) (D.syncs disk) (D.syncs e.0) (D.may_leave e.0)) }
        ensures any_moment { MatchResult result (λ j. LeavesOnly D.moment D.left_since disk (disk_of j) (D.may_leave disk))
            (λ e. LeavesOnly D.moment D.left_since disk e.0 (D.may_leave disk)) }
    {
        match open_at(&mut disk, letter) {
            Ok(place) => Ok(Journal {
                alloc,
                disk,
                letter,
                place,
                ended: false,
                down: false,
            }),
            Err(fault) => Err((disk, fault)),
        }
    }

    /// The next frame, or none where they have ended. At their end the gate is closed, so that a frame can be appended: a stop
    /// at any moment of the call leaves the frames as they are.
    ///
    /// `DiskFault`: a call of the disk failed. `Damaged`: a frame or a seal at this gate has another sum. `NoMemory` and `Down`:
    /// the journal is as it was.
    pub fn next(&mut self) -> Result<Option<Frame>, JournalFault>
        ensures answer { (file : List ℕ) → D.told (disk_of self.old) ≡ Some file → AnswersNext file self.old result self.new (D.told (disk_of self.new)) }
        ensures letter { letter_of self.new ≡ letter_of self.old }
        ensures ended { EndsAt result (has_ended self.old) (has_ended self.new) }
        ensures fewer { LeavesFewer result (bytes_left self.old) (bytes_left self.new) }
        ensures cause { EndsCall result (disk_state D.faults self.old) (disk_state D.faults self.new) (D.last_failed (disk_of self.new)) }
        ensures told { StaysTold (D.told (disk_of self.old)) (D.told (disk_of self.new)) }
        ensures stop { is_down self.old ≡ false → (file : List ℕ) → D.told (disk_of self.old) ≡ Some file → length file < 2 ^ 32
            → (left : List ℕ) → D.may_leave (disk_of self.new) left → journal_of (letter_of self.old) left ≡ journal_of (letter_of self.old) file }
        ensures any_moment { is_down self.old ≡ false → (file : List ℕ) → D.told (disk_of self.old) ≡ Some file → length file < 2 ^ 32
            → LeavesOnly D.moment D.left_since (disk_of self.old) (disk_of self.new) (λ left. journal_of (letter_of self.old) left ≡ journal_of (letter_of self.old) file) }
    {
        if self.down {
            return Err(JournalFault::Down);
        }
        if self.ended {
            return Ok(None);
        }
        match next_at(self.alloc, &mut self.disk, self.place) {
            Ok(
                Next::Frame {
                    at,
                    payload,
                    further,
                },
            ) => {
                self.place = further;
                Ok(Some(Frame { at, payload }))
            }
            Ok(Next::End { further }) => {
                self.place = further;
                self.ended = true;
                Ok(None)
            }
            Ok(Next::Damaged { at }) => Err(JournalFault::Damaged { at }),
            Err(ReadFault::NoMemory) => Err(JournalFault::NoMemory),
            Err(ReadFault::Failed) => {
                self.down = true;
                Err(JournalFault::DiskFault)
            }
        }
    }

    /// Appends a frame, and answers where its gate stands. A stop at any moment of the call leaves the frames from before it, or
    /// these and the new one whole; once it has answered `Ok`, a stop leaves the new one.
    ///
    /// `DiskFault`: a call of the disk failed. `Full`: the file would pass `MAX_FILE_BYTES`. `NoMemory` and `Down`. After each of
    /// the last three the journal is as it was, and no call of the disk was made.
    pub fn append(&mut self, payload: &[u8]) -> Result<u64, JournalFault>
        requires ended { is_down self.old ≡ false → has_ended self.old ≡ true }
        ensures appended { IfOk result (λ at. (file : List ℕ) → D.told (disk_of self.old) ≡ Some file → HasFrameMore (letter_of self.old) at payload.now file (D.told (disk_of self.new))) }
        ensures kept { (letter_of self.new ≡ letter_of self.old) × (has_ended self.new ≡ has_ended self.old) }
        ensures disk { Appends (file_with (length payload.now) (disk_state D.faults self.old)) result (disk_state D.faults self.old) (disk_state D.faults self.new) (D.last_failed (disk_of self.new)) }
        ensures untouched { IfUncalled result (disk_of self.new ≡ disk_of self.old) }
        ensures told { StaysTold (D.told (disk_of self.old)) (D.told (disk_of self.new)) }
        ensures stop { is_down self.old ≡ false → (file : List ℕ) → D.told (disk_of self.old) ≡ Some file
            → (left : List ℕ) → D.may_leave (disk_of self.new) left → LeftByAppend (letter_of self.old) payload.now (journal_of (letter_of self.old) file) left }
        ensures any_moment { is_down self.old ≡ false → (file : List ℕ) → D.told (disk_of self.old) ≡ Some file
            → LeavesOnly D.moment D.left_since (disk_of self.old) (disk_of self.new) (LeftByAppend (letter_of self.old) payload.now (journal_of (letter_of self.old) file)) }
    {
        if self.down {
            return Err(JournalFault::Down);
        }
        match append_at(self.alloc, &mut self.disk, self.place, payload) {
            Ok(next) => {
                let at = self.place.gate;
                self.place = next;
                Ok(at)
            }
            Err(AppendFault::Failed) => {
                self.down = true;
                Err(JournalFault::DiskFault)
            }
            Err(AppendFault::Full { length }) => Err(JournalFault::Full { length }),
            Err(AppendFault::NoMemory) => Err(JournalFault::NoMemory),
        }
    }

    /// Appends a seal where frames have no sum, and answers true: from it on frames have one. Where they have, it makes no call,
    /// and answers false. A stop at any moment of the call leaves the file without the seal, or with it whole.
    ///
    /// `DiskFault`: a call of the disk failed. `Full`: the file would pass `MAX_FILE_BYTES`. `Down`. After each of the last two
    /// the journal is as it was, and no call of the disk was made.
    pub fn seal(&mut self) -> Result<bool, JournalFault>
        requires ended { is_down self.old ≡ false → has_ended self.old ≡ true }
        ensures sealed { (file : List ℕ) → D.told (disk_of self.old) ≡ Some file → AnswersSeal (letter_of self.old) file result (D.told (disk_of self.new)) }
        ensures kept { (letter_of self.new ≡ letter_of self.old) × (has_ended self.new ≡ has_ended self.old) }
        ensures disk { Seals (has_sums self.old) result (disk_state D.faults self.old) (disk_state D.faults self.new) (D.last_failed (disk_of self.new)) }
        ensures untouched { IfSealUncalled result (disk_of self.new ≡ disk_of self.old) }
        ensures told { StaysTold (D.told (disk_of self.old)) (D.told (disk_of self.new)) }
        ensures stop { is_down self.old ≡ false → (file : List ℕ) → D.told (disk_of self.old) ≡ Some file
            → (left : List ℕ) → D.may_leave (disk_of self.new) left → LeftBySeal (letter_of self.old) (journal_of (letter_of self.old) file) left }
        ensures any_moment { is_down self.old ≡ false → (file : List ℕ) → D.told (disk_of self.old) ≡ Some file
            → LeavesOnly D.moment D.left_since (disk_of self.old) (disk_of self.new) (LeftBySeal (letter_of self.old) (journal_of (letter_of self.old) file)) }
    {
        if self.down {
            return Err(JournalFault::Down);
        }
        if self.place.summed {
            return Ok(false);
        }
        match seal_at(&mut self.disk, self.place) {
            Ok(next) => {
                self.place = next;
                Ok(true)
            }
            Err(SealFault::Failed) => {
                self.down = true;
                Err(JournalFault::DiskFault)
            }
            Err(SealFault::Full { length }) => Err(JournalFault::Full { length }),
        }
    }

    /// Gives the disk back.
    pub fn into_disk(self) -> D
        ensures { result ≡ disk_of self }
    {
        let Journal { disk, .. } = self;
        disk
    }
}
