//! Record batches (Kafka's format, magic 2), read in place and written.
#![tactic(auto)]

mod batch;
mod records;
mod write;

pub use batch::{Batch, Values};
pub use kz_types::BatchFault;
pub use write::{batch_size, write_batch};
