//! Laws of the definitions of the metadata and of the znodes that stand for it: look-ups, renderings, differences, translations,
//! and the records and the file of a snapshot.
//!
//! Each law is the contract of a function that does nothing, or that only goes over a value which a program holds.
#![tactic(auto)]

mod delta;
mod held_writable;
mod image_examples;
pub mod images;
mod lookups;
mod round_trip_examples;
pub mod snapshot_files;
pub mod snapshot_records;
pub mod writable;
pub mod znodes;

pub use delta::{delta_is_difference, keys_cover_renderings, touched_cover, touched_suffices};
pub use held_writable::{
    held_config_is_writable, held_credential_is_writable, held_entry_is_writable,
    held_name_is_text, held_partition_change_is_writable, held_partition_is_writable,
    held_quota_is_writable, held_topic_is_writable,
};
pub use lookups::{rendered_at, rendered_where_read};
pub use round_trip_examples::worked_metadata;
