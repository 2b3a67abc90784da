//! A tree of znodes, after ZooKeeper.
#![tactic(auto)]

mod effects;
mod faults;
mod load;
mod load_rules;
mod prepared;
mod refusals;
mod sessions;
mod store;
mod tree;
mod wire;

pub use faults::{ClosedFault, MultiFault};
pub use kz_tree_rows::{Items, is_migrated};
pub use kz_types::{MoveFault, Op, Plan, Recorded, Rendered, Row, TreeFault};
pub use load::{LoadCheck, LoadFault};
pub use prepared::Prepared;
pub use store::ZTree;
pub use tree::Tree;
pub use wire::{Wire, WireFault};
