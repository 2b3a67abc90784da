//! Access control entries by rising id, with the ids of those of each name, so that a change of a resource doesn't look at the
//! entries of the others.
#![tactic(auto)]

mod list;
mod names;

pub use list::AclList;
