//! What becomes of a driver's next request.

/// What becomes of the next request that a driver makes of a store.
#[derive(Clone, Copy, Debug, PartialEq, Eq)]
pub enum Plan {
    /// The store takes it and its answer arrives.
    Deliver,
    /// It is lost before the store takes it.
    LostBefore,
    /// The store takes it, and its answer is lost.
    LostAfter,
    /// The session had expired, so the store doesn't take it.
    Expired,
}
