//! The command `load`, and its input, which is read line by line.
#![tactic(auto)]

mod command;
mod input;
mod part;
mod place;
mod reader;
mod stop;

pub use command::load;
pub use input::read_tree;
pub use stop::{LoadStop, stop_status};
