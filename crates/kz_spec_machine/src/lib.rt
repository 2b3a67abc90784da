//! Definitions of the machine: its events and what they do, the promises of a run and its replies, dumps and loads, and the commands
//! of the program over files.
//!
//! The definitions stand in specs/. A law is the contract of a function that does nothing.
#![tactic(auto)]

mod command_examples;
mod dump_laws;
mod dumps;
mod load_laws;
mod machine_examples;
mod run_examples;
mod script_laws;

pub use dumps::{Figures, LoadLine};
