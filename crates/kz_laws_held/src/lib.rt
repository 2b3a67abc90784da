//! Laws of metadata that a program holds: that its lists are in order, its entries legal, its texts UTF-8 and its numbers in
//! their ranges is what its type says, and no premise.
#![tactic(auto)]

mod held;
mod worked;

pub use held::{one_rendering, round_trip};
pub use worked::worked_is_made;

#[cfg(test)]
mod tests;
