//! Laws of the machine: what each write, claim, append and snapshot leaves, what a fenced controller can't change, and which limits
//! hold.
//!
//! A law is the contract of a function that does nothing.
#![tactic(auto)]

pub mod drivers;
pub mod feeds;
pub mod fence;
pub mod limits;
pub mod logs;
pub mod snapshots;
pub mod trees;
pub mod writes;
