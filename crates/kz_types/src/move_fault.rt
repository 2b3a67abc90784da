//! Why a session doesn't begin or end.

/// Why a session doesn't begin or end.
#[derive(Clone, Copy, Debug, PartialEq, Eq)]
pub enum MoveFault {
    /// The session is live already.
    Known,
    /// The session isn't live.
    Unknown,
    /// The limit of this number would be passed.
    Limit { number: u8 },
    /// Memory ran out.
    NoMemory,
}
