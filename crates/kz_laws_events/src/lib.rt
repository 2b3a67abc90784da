//! Laws of steps, of appends and of whole events of the machine.
//!
//! A law is the contract of a function that does nothing.
#![tactic(auto)]

pub mod appends;
pub mod events;
pub mod steps;
