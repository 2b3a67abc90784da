//! All keys of metadata.
ghost use Rattle.std.specs.Prelude.{◌≡◌, ◌++◌, map, Some, option_to_list, OnOk};
ghost use Rattle.std.specs.List.{flat_map};
ghost use Rattle.kz_types.specs.declared.key.EntityKey.TheVariants as key;
ghost use Rattle.kz_types.specs.Paths.{key_of};
ghost use Rattle.kz_spec_data.specs.Rendering.{broker_key, acl_key};
ghost use Rattle.kz_spec_data.specs.Touched.{keys_of_topic_entry, keys_of_image};

use crate::entries::push_key_of_resource;
use crate::names::{broker_key, push_key_of_user};
use crate::topics::{push_partitions, push_topic};
use kz_image::Image;
use kz_path::key_of;
use kz_sorted::Blocks;
use kz_types::{
    AclEntry, Configuration, EntityKey, NoMemory, QuotaEntry, ScramEntry, TopicEntry, ZPath,
};
use std::alloc::Global;

// Adds the keys of a topic that is there.
fn push_keys_of_topic_entry(
    alloc: Global,
    keys: &mut Vec<EntityKey>,
    topic: &TopicEntry,
) -> Result<(), NoMemory>
    ensures { OnOk result (keys.new.items ≡ keys.old.items ++ keys_of_topic_entry topic.now) }
{
    push_topic(alloc, keys, &topic.name)?;
    push_partitions(alloc, keys, &topic.name, topic.partitions.as_slice())
}

fn push_topics(
    alloc: Global,
    keys: &mut Vec<EntityKey>,
    topics: &Blocks<TopicEntry>,
) -> Result<(), NoMemory>
    ensures { OnOk result (keys.new.items ≡ keys.old.items ++ flat_map keys_of_topic_entry topics.now) }
{
    for topic in topics.items() {
        push_keys_of_topic_entry(alloc, keys, topic)?;
    }
    Ok(())
}

fn push_brokers(keys: &mut Vec<EntityKey>, configs: &Blocks<Configuration>) -> Result<(), NoMemory>
    ensures { OnOk result (keys.new.items ≡ keys.old.items ++ map (λ c. broker_key c.name) configs.now) }
{
    for config in configs.items() {
        keys.push(broker_key(&config.name))?;
    }
    Ok(())
}

// Adds the key that a path holds, if any.
fn push_key_at(alloc: Global, keys: &mut Vec<EntityKey>, path: &ZPath) -> Result<(), NoMemory>
    ensures { OnOk result (keys.new.items ≡ keys.old.items ++ option_to_list (key_of path.now)) }
{
    match key_of(alloc, path)? {
        Some(key) => Ok(keys.push(key)?),
        None => Ok(()),
    }
}

fn push_quotas(
    alloc: Global,
    keys: &mut Vec<EntityKey>,
    entries: &Blocks<QuotaEntry>,
) -> Result<(), NoMemory>
    ensures { OnOk result (keys.new.items ≡ keys.old.items ++ flat_map (λ q. option_to_list (key_of q.path)) entries.now) }
{
    for entry in entries.items() {
        push_key_at(alloc, keys, &entry.path)?;
    }
    Ok(())
}

fn push_users(
    alloc: Global,
    keys: &mut Vec<EntityKey>,
    users: &Blocks<ScramEntry>,
) -> Result<(), NoMemory>
    ensures { OnOk result (keys.new.items ≡ keys.old.items ++ map (λ u. key.User (Some u.name)) users.now) }
{
    for user in users.items() {
        push_key_of_user(alloc, keys, &user.name)?;
    }
    Ok(())
}

fn push_acls(
    alloc: Global,
    keys: &mut Vec<EntityKey>,
    entries: &Blocks<AclEntry>,
) -> Result<(), NoMemory>
    ensures { OnOk result (keys.new.items ≡ keys.old.items ++ map (λ a. acl_key a.row) entries.now) }
{
    for entry in entries.items() {
        push_key_of_resource(alloc, keys, &entry.row)?;
    }
    Ok(())
}

/// Adds all keys of metadata.
pub(crate) fn push_keys_of_image(
    alloc: Global,
    keys: &mut Vec<EntityKey>,
    image: &Image,
) -> Result<(), NoMemory>
    ensures { OnOk result (keys.new.items ≡ keys.old.items ++ keys_of_image image.now) }
{
    push_topics(alloc, keys, image.topics())?;
    push_brokers(keys, image.broker_configs())?;
    push_quotas(alloc, keys, image.quota_entries())?;
    push_users(alloc, keys, image.users())?;
    push_acls(alloc, keys, image.acls())?;
    keys.push(EntityKey::Producer)?;
    Ok(())
}
