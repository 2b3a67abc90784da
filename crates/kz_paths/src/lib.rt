//! The table of the paths that stand fixed, and paths that are built without memory.
#![tactic(auto)]

mod path_buffer;
mod paths;
mod places;
mod texts;

pub use path_buffer::{PathBuffer, has_path};
pub use paths::{
    base_paths, control_and_base_paths, control_path, control_paths, epoch_path, migration_path,
    root_paths, topics_path,
};
pub use places::{
    is_base, is_below_control, is_broker_ids_path, is_control, is_controller_path, is_epoch_path,
    is_migrated, is_migration_path, is_root,
};
pub use texts::{
    BROKER_IDS_TEXT, CONTROL_TEXT, EPOCH_TEXT, MIGRATION_TEXT, PRODUCER_TEXT, TOPICS_TEXT,
    base_texts, control_texts, root_texts,
};
