//! The znodes of a tree by rising path, with what is kept of them beside their list, and what is read of them.
#![tactic(auto)]

mod children;
mod ephemeral;
mod names;
pub mod reads;
mod rows;

pub use children::has_children;
pub use kz_row_parts::{Items, is_migrated};
pub use names::{name_of, parent_of};
pub use rows::Rows;
