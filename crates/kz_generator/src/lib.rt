//! Writes scripts that are generated: a migration of an empty tree by two controllers, and then changes of broker
//! configurations.
#![tactic(auto)]

mod events;
mod script;

pub use script::generate;
