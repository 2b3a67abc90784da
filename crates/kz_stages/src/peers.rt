//! The controllers that a driver waits for.
use kz_types::Sequence;

/// The controllers that are declared, and those that run.
#[derive(Drop)]
pub struct Peers {
    /// The ids of the declared controllers.
    pub declared: Sequence<i32>,
    /// The ids of those that run.
    pub running: Sequence<i32>,
}
