//! Sessions of a tree, and the tree in memory.
#![tactic(auto)]

mod memory;
mod sessions;

pub use memory::MemoryTree;
pub use sessions::{SessionFault, ZSessions};
