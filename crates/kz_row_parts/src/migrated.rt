//! The migrated area of a tree.
pub use kz_paths::is_migrated;
