//! Values in records.
ghost use Rattle.std.specs.Prelude.{◌≡◌};
ghost use Rattle.kz_types.specs.declared.record.MetaRecord.TheVariants as meta;
ghost use Rattle.kz_spec_data.specs.ImageRules.{is_misvalued};

use crate::Image;
use kz_image_rules::{
    is_block_misvalued, is_broker_misvalued, is_config_misvalued, is_credential_misvalued,
    is_entry_misvalued, is_partition_misvalued, is_quota, leaves_row,
};
use kz_types::{MetaRecord, PartitionChangeRecord};

// Whether a change of a partition leaves a value that it can't have.
fn is_change_misvalued(image: &Image, change: &PartitionChangeRecord) -> bool
    ensures { result ≡ is_misvalued image.now (meta.PartitionChange change.now) }
{
    !leaves_row(
        change,
        image.partition(change.topic_id, change.partition_id),
    )
}

/// Whether a record has a value that it can't have.
pub fn is_misvalued(image: &Image, item: &MetaRecord) -> bool
    ensures { result ≡ is_misvalued image.now item.now }
{
    match item {
        MetaRecord::RegisterBroker(change) => is_broker_misvalued(change),
        MetaRecord::Partition(change) => is_partition_misvalued(change),
        MetaRecord::PartitionChange(change) => is_change_misvalued(image, change),
        MetaRecord::Config(change) => is_config_misvalued(change),
        MetaRecord::UserScramCredential(change) => is_credential_misvalued(change),
        MetaRecord::ClientQuota(change) => !is_quota(&change.value),
        MetaRecord::ProducerIds(change) => is_block_misvalued(change, image.next_producer()),
        MetaRecord::AccessControlEntry(change) => is_entry_misvalued(change),
        MetaRecord::Topic(_)
        | MetaRecord::RemoveTopic { topic_id: _ }
        | MetaRecord::RemoveAccessControlEntry { id: _ }
        | MetaRecord::NoOp
        | MetaRecord::ZkMigrationState { state: _ }
        | MetaRecord::RemoveUserScramCredential {
            name: _,
            mechanism: _,
        }
        | MetaRecord::BeginTransaction { name: _ }
        | MetaRecord::EndTransaction
        | MetaRecord::AbortTransaction { reason: _ } => false,
    }
}
