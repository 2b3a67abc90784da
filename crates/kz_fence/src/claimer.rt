//! Who claims the tree.

/// What a controller says of itself in a claim.
#[derive(Clone, Copy, Debug, PartialEq, Eq)]
pub struct Claimer {
    /// Its id.
    pub id: i32,
    /// Its epoch.
    pub epoch: i32,
    /// The time of the claim.
    pub now: i64,
    /// Whether it knows that the log is migrated.
    pub migrated: bool,
}
