//! Records of the metadata log as JSON values, as lines of scripts have them: read and written.
#![tactic(auto)]

mod brokers;
mod entries;
mod fault;
mod records;
mod topics;
mod transactions;
mod users;

pub use fault::LineFault;
pub use records::{read_item, record_of, write_item};
