//! Why a log isn't opened.
use kz_types::LogWhy;

/// Why a file isn't opened as a log.
#[derive(Clone, Copy, Debug, PartialEq, Eq)]
pub enum LogOpenFault {
    /// A call of the disk failed.
    DiskFault,
    /// The file is damaged at this place, in bytes from its beginning, and why. What stands before it is whole.
    Damaged { at: u64, why: LogWhy },
    /// Memory ran out.
    NoMemory,
}
