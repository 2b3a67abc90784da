//! The parts of which bodies are made: JSON values and members that must be there, lists of ids and of brokers, and texts of quotas.
#![tactic(auto)]

mod fields;
mod quota_texts;
mod replicas;
mod values;

pub use fields::{bad_field, missing, number_field, whole_field};
pub use quota_texts::QuotaText;
pub use replicas::{are_distinct, are_replicas, are_some_of, is_in};
pub use values::{number, read_json, whole};
