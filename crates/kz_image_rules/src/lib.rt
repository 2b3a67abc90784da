//! The rules by which a record of the metadata log is judged on its own: names, values, and what a partition may be.
#![tactic(auto)]

mod names;
mod partitions;
mod paths;
mod quota_keys;
mod values;

pub use names::is_misnamed;
pub use partitions::{changed_row, leaves_row, new_row};
pub use quota_keys::{QuotaKey, path_of, quota_key};
pub use values::{
    is_block_misvalued, is_broker_misvalued, is_config_misvalued, is_credential_misvalued,
    is_entry_misvalued, is_partition_misvalued, is_quota,
};
