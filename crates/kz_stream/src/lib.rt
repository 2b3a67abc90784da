//! A script that comes in pieces: each line is an event of a machine, and the replies are written in their order. How an event fails,
//! and what that says of the disks.
#![tactic(auto)]

mod answer;
mod ending;
mod failure;
mod machine;
mod place;
mod stream;

pub use ending::{Stop, stop_status};
pub use failure::{Failure, failure_of};
pub use machine::Machine;
pub use stream::Stream;
