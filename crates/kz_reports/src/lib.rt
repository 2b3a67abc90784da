//! What the commands print that change no file: the lines of a tree and of a log, renderings, checks and figures.
//!
//! `tell` opens both files, prints, and hands the disks back. Each text goes through one buffer, a line at a time, so no text is held
//! whole.
#![tactic(auto)]

mod command;
mod figures;
mod lines;
mod report;
mod texts;

pub use command::tell;
pub use report::Report;
