//! Why bytes are no path or no quota.

/// Why bytes are no path.
#[derive(Clone, Copy, Debug, PartialEq, Eq)]
pub enum PathFault {
    /// No path goes on at this byte. At the length, they end too early or too late.
    BadName { at: usize },
    /// Memory ran out.
    NoMemory,
}

/// Why a text is no quota.
#[derive(Clone, Copy, Debug, PartialEq, Eq)]
pub enum QuotaFault {
    /// No decimal goes on at this byte. At the length, it ends too early.
    NotNumber { at: usize },
    /// It has more than six decimals.
    TooFine,
    /// Its whole part is above [`MAX_LONG`](crate::MAX_LONG).
    TooLarge,
}
