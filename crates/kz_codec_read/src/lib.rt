//! Records of the metadata log, read from bytes.
#![tactic(auto)]

mod fields;
mod read;
mod records;
mod tags;

pub use read::read_value;
