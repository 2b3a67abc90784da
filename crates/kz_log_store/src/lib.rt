//! A metadata log on a disk: each change of the log is a frame of a journal.
#![tactic(auto)]

mod fault;
mod open;
mod store;

pub use fault::LogOpenFault;
pub use kz_types::LogWhy;
pub use store::LogStore;
