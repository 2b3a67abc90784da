//! Which records of a log count, found in one pass.
#![tactic(auto)]

mod laws;
mod marker_of;
mod marks;
mod settled;
mod settler;

pub use kz_types::Entry;
pub use marks::{closes, is_abort, is_begin, is_end};
pub use settled::Settled;
pub use settler::Settler;
