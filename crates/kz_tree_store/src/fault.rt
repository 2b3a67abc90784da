//! Why a tree isn't opened, or a frame isn't read.

/// Why a file isn't opened as a tree.
#[derive(Clone, Copy, Debug, PartialEq, Eq)]
pub enum TreeOpenFault {
    /// A call of the disk failed.
    DiskFault,
    /// The file is damaged at this place, in bytes from its beginning. What stands before it is whole.
    Damaged { at: u64 },
    /// Memory ran out.
    NoMemory,
}

/// Why a frame isn't taken.
#[derive(Clone, Copy, Debug, PartialEq, Eq)]
pub(crate) enum FrameFault {
    /// The frame is damaged.
    Damaged,
    /// Memory ran out.
    NoMemory,
}
