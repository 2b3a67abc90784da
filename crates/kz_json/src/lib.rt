//! What the bodies of migrated znodes say, and the bodies that are written.
#![tactic(auto)]

mod acls;
mod body;
mod brokers;
mod configs;
mod credentials;
mod entries;
mod others;
mod quotas;
mod reading;
mod topics;

pub use acls::Resource;
pub use body::{read_body, write_body};
pub use reading::{read_acls, read_config, read_producer, read_state, read_topic};
