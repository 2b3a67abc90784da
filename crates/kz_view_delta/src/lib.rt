//! What is read after a view of the log, the keys that it touches, and the operations between the metadata of the view and those at the
//! log's end.
#![tactic(auto)]

mod keys;
mod operations;
mod read;

pub use keys::{keys_between, keys_of_applied};
pub use operations::delta;
pub use read::{read_to_end, view_after};
