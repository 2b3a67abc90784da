//! The keys of entities that what is read of a log touches.
#![tactic(auto)]

mod entries;
mod feed;
mod made;
mod names;
mod placed;
mod quotas;
mod records;
mod topics;
mod touched_keys;
mod whole;

pub use feed::{touched, touched_by};
pub use touched_keys::Touched;
