//! Znodes by rising path, as shared parts of shared blocks, with the numbers of each. So a copy costs a pointer and the numbers of each
//! part, and a change the pointers of one part and of one block. The numbers stand as a list with levels of what two and two of them
//! are together, so that a change and a search look at few of them.
#![tactic(auto)]

mod before;
mod changes;
mod items;
mod later;
mod migrated;
mod numbered;
mod numbers;
mod part;
mod part_changes;
mod parts;

pub use before::is_before;
pub use items::Items;
pub use migrated::is_migrated;
pub use parts::PartedRows;
