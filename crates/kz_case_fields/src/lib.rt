//! Parts of cases and of the answers to them, as JSON values: texts, bytes in hexadecimal, keys of entities, and the fields of
//! bodies; and whether lengths fit their fields.
#![tactic(auto)]

mod fields;
mod hexadecimal;
mod keys;
mod lengths;
mod texts;

pub use fields::body_value;
pub use hexadecimal::{hex_text, unhex};
pub use keys::{key_at, key_value};
pub use lengths::{batch_fits, lengths_fit};
pub use texts::{fault_case, given, hex_value};
