//! The keys that records touch.
ghost use Rattle.std.specs.Prelude.{◌≡◌, ◌++◌, OnOk};
ghost use Rattle.std.specs.List.{flat_map};
ghost use Rattle.kz_spec_data.specs.Touched.{keys_spoken_of, keys_touched_by, touched_keys};

use crate::entries::push_keys_of_entry;
use crate::made::push_keys_of_topics;
use crate::names::{push_key_of_config, push_key_of_user};
use crate::quotas::push_key_of_quota;
use crate::topics::push_keys_of_partition;
use kz_image::Image;
use kz_types::{BatchRow, EntityKey, MetaRecord, NoMemory};
use std::alloc::Global;

// Adds the other keys that a record speaks of.
fn push_keys_spoken_of(
    alloc: Global,
    keys: &mut Vec<EntityKey>,
    old: &Image,
    new: &Image,
    change: &MetaRecord,
) -> Result<(), NoMemory>
    ensures { OnOk result (keys.new.items ≡ keys.old.items ++ keys_spoken_of old.now new.now change.now) }
{
    match change {
        MetaRecord::Partition(change) => {
            push_keys_of_partition(alloc, keys, old, change.topic_id, change.partition_id)
        }
        MetaRecord::PartitionChange(change) => {
            push_keys_of_partition(alloc, keys, old, change.topic_id, change.partition_id)
        }
        MetaRecord::Config(change) => push_key_of_config(alloc, keys, change),
        MetaRecord::ClientQuota(change) => {
            push_key_of_quota(alloc, keys, change.entity.as_slice())
        }
        MetaRecord::UserScramCredential(change) => push_key_of_user(alloc, keys, &change.name),
        MetaRecord::RemoveUserScramCredential { name, .. } => push_key_of_user(alloc, keys, name),
        MetaRecord::AccessControlEntry(change) => {
            push_keys_of_entry(alloc, keys, old, new, change.id)
        }
        MetaRecord::RemoveAccessControlEntry { id } => {
            push_keys_of_entry(alloc, keys, old, new, *id)
        }
        MetaRecord::ProducerIds(_) => Ok(keys.push(EntityKey::Producer)?),
        _ => Ok(()),
    }
}

// Adds the keys that a record touches.
fn push_keys_touched_by(
    alloc: Global,
    keys: &mut Vec<EntityKey>,
    old: &Image,
    new: &Image,
    change: &MetaRecord,
) -> Result<(), NoMemory>
    ensures { OnOk result (keys.new.items ≡ keys.old.items ++ keys_touched_by old.now new.now change.now) }
{
    push_keys_of_topics(alloc, keys, old, new, change)?;
    push_keys_spoken_of(alloc, keys, old, new, change)
}

/// Adds the keys that records touch.
pub(crate) fn push_touched_keys(
    alloc: Global,
    keys: &mut Vec<EntityKey>,
    old: &Image,
    new: &Image,
    changes: &[MetaRecord],
) -> Result<(), NoMemory>
    ensures { OnOk result (keys.new.items ≡ keys.old.items ++ touched_keys old.now new.now changes.now) }
{
    for change in changes {
        push_keys_touched_by(alloc, keys, old, new, change)?;
    }
    Ok(())
}

/// Adds the keys that the records of batches touch.
pub(crate) fn push_keys_of_batches(
    alloc: Global,
    keys: &mut Vec<EntityKey>,
    old: &Image,
    new: &Image,
    batches: &[BatchRow],
) -> Result<(), NoMemory>
    ensures { OnOk result (keys.new.items ≡ keys.old.items ++ touched_keys old.now new.now (flat_map (λ b. b.items) batches.now)) }
{
    for batch in batches {
        push_touched_keys(alloc, keys, old, new, batch.items.as_slice())?;
    }
    Ok(())
}
