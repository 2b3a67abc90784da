//! Why a transaction isn't read.

/// Why a transaction isn't read.
#[derive(Clone, Copy, Debug, PartialEq, Eq)]
pub enum TxnFault {
    /// The bytes are no transaction. The place counts bytes from 0: the first byte with which none goes on, or the number of
    /// bytes where they end too early.
    Malformed { at: usize },
    /// Memory ran out.
    NoMemory,
}
