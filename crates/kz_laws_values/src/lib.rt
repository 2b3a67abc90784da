//! Laws of the definitions of values: paths, quotas, records and their lengths, bodies, files, and lines that are cut.
//!
//! Each law is the contract of a function that does nothing, or that only goes over a value which a program holds.
#![tactic(auto)]

pub mod bodies;
pub mod cut;
pub mod files;
mod fits;
mod held_paths;
pub mod lengths;
#[cfg(test)]
mod path_tests;
pub mod paths;
pub mod quotas;
pub mod records;
pub mod values;

pub use fits::held_record_is_spelled;
pub use held_paths::{held_key_has_its_path, held_keys_have_one_path, held_path_has_its_key};
