//! What a driver holds between two steps: the znodes that it has read, page by page, and what it has still to write or to
//! append.
#![tactic(auto)]

mod remaining;
mod rest;
mod scan;

pub use remaining::Remaining;
pub use rest::Rest;
pub use scan::Scan;
