//! Records that set a part of an entity: a member of a configuration, a quota, a credential.
#![tactic(auto)]

mod configs;
mod quotas;

pub use configs::config_record;
pub use quotas::{quota_record, scram_record};
