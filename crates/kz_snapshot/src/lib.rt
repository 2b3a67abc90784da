//! Metadata as the batches of a snapshot, and back (KIP-630).
#![tactic(auto)]

mod laws;
mod metadata;
mod read;
mod rows;

pub use laws::rows_return;
pub use metadata::records;
pub use read::from_rows;
pub use rows::to_rows;
