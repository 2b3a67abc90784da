//! The records that stand for the znodes of the migrated area.
#![tactic(auto)]

mod acls;
mod assignments;
mod bodies;
mod configs;
mod fault;
mod found;
mod ids;
mod known;
mod numbers;
mod producer;
mod quotas;
mod reading;
mod rows;
mod seen;
mod states;
mod topics;
mod whole;

pub use fault::ReadFault;
pub use whole::translate;
