//! The metadata of the cluster as the records that count make it, the rules by which records are accepted, and the lists of which it is
//! made: topics with their partitions and configurations, configurations of brokers, quotas, credentials, and registered brokers. Each
//! list rises by a key.
#![tactic(auto)]

mod brokers;
mod configurations;
mod credentials;
mod feed;
mod image;
mod names;
mod presence;
mod quotas;
mod rules;
mod topic;
mod topics;
mod values;

pub use brokers::{is_migrating, register};
pub use configurations::configure;
pub use credentials::{remove_scram, scram_at, set_scram};
pub use feed::Feed;
pub use image::{Brokers, Image, Pairs, Quotas, valid};
pub use kz_types::{BatchRow, Configuration, ImageFault, ImageRule};
pub use quotas::QuotaList;
pub use topic::partition_at;
pub use topics::Topics;
