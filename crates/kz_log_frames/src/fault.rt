//! Why a frame isn't taken.
use kz_types::LogWhy;

/// Why a frame isn't taken.
#[derive(Clone, Copy, Debug, PartialEq, Eq)]
pub enum FrameFault {
    /// The frame is damaged.
    Why(LogWhy),
    /// Memory ran out.
    NoMemory,
}
