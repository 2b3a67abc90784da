//! Why a call of a journal isn't done.

/// Why a call of a journal isn't done.
#[derive(Clone, Copy, Debug, PartialEq, Eq)]
pub enum JournalFault {
    /// A call of the disk failed. The journal is down from then on.
    DiskFault,
    /// At 0: the file doesn't begin with the header of its letter. Else a frame or a seal at this gate has another sum.
    Damaged { at: u64 },
    /// The file would have this length, which passes `MAX_FILE_BYTES`. Where it is above the greatest number of 64 bits,
    /// that number stands in its place.
    Full { length: u64 },
    /// Memory ran out.
    NoMemory,
    /// A call of the disk failed in an earlier call of this journal.
    Down,
}
