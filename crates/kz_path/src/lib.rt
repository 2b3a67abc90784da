//! Which entity a path of ZooKeeper's tree holds, and the path of an entity.
#![tactic(auto)]

mod cut;
mod names;

pub use keys::key_of;
pub use kinds::kind;
pub use names::{restore, sanitise};
pub use paths::{path_of, path_text};

mod entities;
mod keys;
mod kinds;
mod paths;
