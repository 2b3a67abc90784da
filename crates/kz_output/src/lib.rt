//! One buffer before a sink: many short texts are written by few calls.
//!
//! The definitions in specs/ say what a call writes, and how it ends where the sink fails. They compose, so that a
//! caller with a loop of puts says the same of all its texts together.
#![tactic(auto)]

mod output;

pub use output::{HELD_BYTES, Output, OutputFault};
