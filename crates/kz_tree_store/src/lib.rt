//! A tree of znodes on a disk: each change of the tree is a frame of a journal.
#![tactic(auto)]

mod all_rows;
mod change;
mod checked;
mod fault;
mod held;
mod joined;
mod last;
mod load;
mod loads;
mod open;
mod payload;
mod requests;
mod store;
mod take;
mod txns;

pub use fault::TreeOpenFault;
pub use last::LoadLast;
pub use store::TreeStore;
