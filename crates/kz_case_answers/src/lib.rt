//! What the code answers to cases of tables.
//!
//! `specs/Answers.antt` says what it answers to names, parts of paths, ids and quotas. Of its answers to records, batches,
//! paths and bodies nothing is stated here: the calls that give them have contracts of their own.
#![tactic(auto)]

mod batches;
mod bodies;
mod case;
mod names;
mod paths;
mod values;

pub use case::answered;
