//! The machine that a script drives: the store of the tree, the log, and the controllers with their drivers.
#![tactic(auto)]

mod bound;
mod change;
mod checks;
mod client;
mod election;
mod finalisation;
mod machine;
mod registration;
mod rollback;
mod sessions;
mod single_steps;
mod snapshot;
mod turns;

pub use bound::WorkFault;
pub use machine::World;
