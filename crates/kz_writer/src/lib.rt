//! The operations that make the migrated area of the tree the rendering of the metadata.
#![tactic(auto)]

mod chunks;
mod delta;
mod diff;
mod image_bodies;
mod rendered;
mod spanned;
mod znode;

pub use chunks::chunk;
pub use delta::{delta_ops, znodes_at};
pub use diff::{diff_ops, diff_renderings};
pub use image_bodies::ImageBodies;
pub use kz_types::Bodies;
pub use rendered::renderings_differ_at_paths;
pub use spanned::{SpannedPath, spanned_in_order};
