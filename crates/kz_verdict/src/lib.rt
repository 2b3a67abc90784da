//! What an operator is told of a tree and a log: how they agree.
#![tactic(auto)]

mod comparison;

pub use comparison::verdict;
