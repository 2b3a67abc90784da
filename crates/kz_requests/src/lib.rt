//! The requests of a driver, over connections that may lose them.
//!
//! A refusal is an answer. What keeps a driver from an answer is a [`StepFault`].
#![tactic(auto)]

mod fault;
mod log_requests;
mod tree_requests;

pub use fault::StepFault;
pub use log_requests::{append, read, read_feed};
pub use tree_requests::{broker_ids, multi, page, path_at, path_of_op, rows_at};
