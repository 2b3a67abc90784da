//! Records of the metadata log, written to bytes, and how many bytes they have.
#![tactic(auto)]

mod size;
mod write;

pub use size::value_size;
pub use write::write_value;
