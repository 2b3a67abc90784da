//! The numbers of parts of a list of znodes. They stand as a list with levels of what two and two of them are together, so that a
//! change and a search look at few of them.
#![tactic(auto)]

mod joined_numbers;
mod level;
mod segments;

pub use joined_numbers::{Numbers, join};
pub use segments::Segments;
