//! Why a line can't be read.
use kz_types::NoMemory;

/// Why a line can't be read.
#[derive(Clone, Copy, Debug, PartialEq, Eq)]
pub enum LineFault {
    /// The line is no event, or the value no record.
    BadLine,
    /// Memory ran out.
    NoMemory,
}
