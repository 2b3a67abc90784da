//! The end of a migration: the test before it is finalised, and how it is taken back, so that ZooKeeper has the cluster again.
#![tactic(auto)]

mod faults;
mod operations;
mod requests;
mod rest;
mod taking_back;

pub use faults::ExitFault;
pub use rest::may_finalise;
pub use taking_back::rollback;
