//! What the program's commands do with its two files: a tree's journal and a log's.
//!
//! `open` opens both for a replay, `init` makes both, and `upgrade` seals both, so that each further frame has a sum. The file of
//! the tree is always the first of the two.
#![tactic(auto)]

mod making;
mod opening;
mod sealing;

pub use making::init;
pub use opening::open;
pub use sealing::upgrade;
