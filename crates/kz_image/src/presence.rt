//! What records speak of.
ghost use Rattle.std.specs.Prelude.{◌≡◌};
ghost use Rattle.kz_types.specs.declared.record.MetaRecord.TheVariants as meta;
ghost use Rattle.kz_spec_data.specs.ImageRules.{lacks, repeats};

use crate::Image;
use kz_types::{ConfigRecord, MetaRecord};

// Whether a configuration is that of a topic that isn't there.
fn lacks_topic(image: &Image, change: &ConfigRecord) -> bool
    ensures { result ≡ lacks image.now (meta.Config change.now) }
{
    change.resource_type == 2 && image.topic(&change.resource_name).is_none()
}

/// Whether a record speaks of something that isn't there.
pub fn lacks(image: &Image, item: &MetaRecord) -> bool
    ensures { result ≡ lacks image.now item.now }
{
    match item {
        MetaRecord::Partition(change) => image.topic_name(change.topic_id).is_none(),
        MetaRecord::PartitionChange(change) => {
            image
                .partition(change.topic_id, change.partition_id)
                .is_none()
        }
        MetaRecord::RemoveTopic { topic_id } => image.topic_name(*topic_id).is_none(),
        MetaRecord::Config(change) => lacks_topic(image, change),
        MetaRecord::RemoveUserScramCredential { name, mechanism } => {
            image.scram(name, *mechanism).is_none()
        }
        MetaRecord::RemoveAccessControlEntry { id } => image.acl(*id).is_none(),
        MetaRecord::RegisterBroker(_)
        | MetaRecord::Topic(_)
        | MetaRecord::UserScramCredential(_)
        | MetaRecord::ClientQuota(_)
        | MetaRecord::ProducerIds(_)
        | MetaRecord::AccessControlEntry(_)
        | MetaRecord::NoOp
        | MetaRecord::ZkMigrationState { state: _ }
        | MetaRecord::BeginTransaction { name: _ }
        | MetaRecord::EndTransaction
        | MetaRecord::AbortTransaction { reason: _ } => false,
    }
}

/// Whether a record makes something that is there already.
pub fn repeats(image: &Image, item: &MetaRecord) -> bool
    ensures { result ≡ repeats image.now item.now }
{
    match item {
        MetaRecord::Topic(change) => {
            image.topic(&change.name).is_some() || image.topic_name(change.topic_id).is_some()
        }
        MetaRecord::Partition(change) => {
            image
                .partition(change.topic_id, change.partition_id)
                .is_some()
        }
        MetaRecord::AccessControlEntry(change) => image.acl(change.id).is_some(),
        MetaRecord::RegisterBroker(_)
        | MetaRecord::Config(_)
        | MetaRecord::PartitionChange(_)
        | MetaRecord::RemoveTopic { topic_id: _ }
        | MetaRecord::UserScramCredential(_)
        | MetaRecord::ClientQuota(_)
        | MetaRecord::ProducerIds(_)
        | MetaRecord::RemoveAccessControlEntry { id: _ }
        | MetaRecord::NoOp
        | MetaRecord::ZkMigrationState { state: _ }
        | MetaRecord::RemoveUserScramCredential {
            name: _,
            mechanism: _,
        }
        | MetaRecord::BeginTransaction { name: _ }
        | MetaRecord::EndTransaction
        | MetaRecord::AbortTransaction { reason: _ } => false,
    }
}
