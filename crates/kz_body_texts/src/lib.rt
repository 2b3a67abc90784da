//! The texts of the bodies of migrated znodes.
#![tactic(auto)]

mod number;
mod pairs;
mod partitions;
mod texts;
mod written;

pub use number::number_text;
pub use written::{PartitionState, acls_text, config_text, producer_text, state_text, topic_text};
