//! The keys of topics, of their configurations and of their partitions.
ghost use Rattle.std.specs.Prelude.{◌≡◌, ◌++◌, ◌∷◌, [], map, option_map, OnOk};
ghost use Rattle.kz_types.specs.declared.key.EntityKey.TheVariants as key;
ghost use Rattle.kz_spec_data.specs.Metadata.{topic_named};
ghost use Rattle.kz_spec_data.specs.Touched.{partition_keys, keys_of_topic, keys_of_partition};

use kz_image::Image;
use kz_types::{Duplicate, EntityKey, Id, NoMemory, PartitionEntry, Shared, Text, TopicEntry};
use std::alloc::Global;

// The topic of a name.
fn topic_named<'a>(image: &'a Image, name: &Text) -> Option<&'a TopicEntry>
    ensures { option_map (λ t. t.now) result ≡ topic_named name.now image.entry.now }
{
    image.topics().find(name.bytes())
}

// Adds the key of a partition.
fn push_partition(
    alloc: Global,
    keys: &mut Vec<EntityKey>,
    name: &Text,
    number: i32,
) -> Result<(), NoMemory>
    ensures { OnOk result (keys.new.items ≡ keys.old.items ++ key.Partition name.now number ∷ []) }
{
    keys.push(EntityKey::Partition {
        topic: name.copy(alloc)?,
        number,
    })?;
    Ok(())
}

/// Adds the keys of these partitions.
pub(crate) fn push_partitions(
    alloc: Global,
    keys: &mut Vec<EntityKey>,
    name: &Text,
    partitions: &[Shared<PartitionEntry>],
) -> Result<(), NoMemory>
    ensures { OnOk result (keys.new.items ≡ keys.old.items ++ map (λ p. key.Partition name.now p.number) partitions.now) }
{
    for partition in partitions {
        push_partition(alloc, keys, name, partition.get().number)?;
    }
    Ok(())
}

// Adds the keys of the partitions of the topic of a name, where there is one.
fn push_partitions_of(
    alloc: Global,
    keys: &mut Vec<EntityKey>,
    name: &Text,
    image: &Image,
) -> Result<(), NoMemory>
    ensures { OnOk result (keys.new.items ≡ keys.old.items ++ partition_keys name.now (topic_named name.now image.now)) }
{
    match topic_named(image, name) {
        Some(topic) => push_partitions(alloc, keys, name, topic.partitions.as_slice()),
        None => Ok(()),
    }
}

/// Adds the keys of a topic and of its configuration.
pub(crate) fn push_topic(
    alloc: Global,
    keys: &mut Vec<EntityKey>,
    name: &Text,
) -> Result<(), NoMemory>
    ensures { OnOk result (keys.new.items ≡ keys.old.items ++ (key.Topic name.now ∷ key.TopicConfig name.now ∷ [])) }
{
    keys.push(EntityKey::Topic {
        name: name.copy(alloc)?,
    })?;
    keys.push(EntityKey::TopicConfig {
        name: name.copy(alloc)?,
    })?;
    Ok(())
}

/// Adds the keys of the topic of a name, of its configuration, and of the partitions that it has before and after.
pub(crate) fn push_keys_of_topic(
    alloc: Global,
    keys: &mut Vec<EntityKey>,
    old: &Image,
    new: &Image,
    name: &Text,
) -> Result<(), NoMemory>
    ensures { OnOk result (keys.new.items ≡ keys.old.items ++ keys_of_topic old.now new.now name.now) }
{
    push_topic(alloc, keys, name)?;
    push_partitions_of(alloc, keys, name, old)?;
    push_partitions_of(alloc, keys, name, new)
}

/// Adds the key of a partition of the topic of an id, where a topic has the id.
pub(crate) fn push_keys_of_partition(
    alloc: Global,
    keys: &mut Vec<EntityKey>,
    old: &Image,
    id: Id,
    number: i32,
) -> Result<(), NoMemory>
    ensures { OnOk result (keys.new.items ≡ keys.old.items ++ keys_of_partition old.now id number) }
{
    match old.topic_name(id) {
        Some(name) => push_partition(alloc, keys, name, number),
        None => Ok(()),
    }
}
