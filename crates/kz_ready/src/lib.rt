//! Whether a migration can begin: the controller and the broker that it waits for first.
#![tactic(auto)]

mod missing;

pub use missing::{missing_broker, missing_controller};
