//! Why a change of a store's file isn't written.

/// Why a change of a store's file isn't written.
#[derive(Clone, Copy, Debug, PartialEq, Eq)]
pub enum ChangeFault {
    /// A call of the disk failed. The journal is down from then on.
    Failed,
    /// The file would have this length, in bytes, which passes `MAX_FILE_BYTES`. It is as it was.
    Full { length: u64 },
    /// Memory ran out. The file is as it was.
    NoMemory,
}
