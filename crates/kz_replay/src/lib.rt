//! The top call: what the program does with its words, its streams and its two files.
#![tactic(auto)]

mod command;
mod exit;
mod machine;
mod program;
mod pump;
mod script;
mod words;

pub use command::run;
pub use exit::{code, text};
pub use kz_types::Status;
