//! Paths of topics and of their partitions.
ghost use Rattle.std.specs.Prelude.{◌≡◌, ◌++◌, IfOk, true, codes, string_bytes};
ghost use Rattle.std.specs.Fmt.{signed_decimal};
ghost use Rattle.kz_types.specs.Paths.{path_of, has_path, is_topic_name, is_not_negative};
ghost use Rattle.kz_types.specs.declared.key.EntityKey.TheVariants as key;
ghost use Rattle.kz_spec_data.specs.Rendering.{partitions_path, number_path};

use crate::paths::{entity_path, path_after};
use kz_types::{Duplicate, EntityKey, NoMemory, Text, ZPath};
use std::alloc::Global;

/// The path of a topic.
#[tactic(auto, using(crate::proofs::TopicPaths::topic_rule), unfolding(kz_types::specs::Paths::is_legal))]
pub fn topic_path(alloc: Global, name: &Text) -> Result<ZPath, NoMemory>
    requires { is_topic_name name.now ≡ true }
    ensures { IfOk result (λ path. path ≡ path_of (key.Topic name.now)) }
{
    let key = EntityKey::Topic {
        name: name.copy(alloc)?,
    };
    entity_path(alloc, &key)
}

/// The path of the parent of a topic's partitions, from the path of the topic.
pub fn partitions_path(alloc: Global, topic: &ZPath, name: &Text) -> Result<ZPath, NoMemory>
    requires named { is_topic_name name.now ≡ true }
    requires topic { topic.now ≡ path_of (key.Topic name.now) }
    ensures { IfOk result (λ path. path ≡ partitions_path name.now) }
{
    path_after(alloc, topic, "/partitions")
}

// A number as a part of a path, with the slash before it.
fn number_part(alloc: Global, number: i32) -> Result<String, NoMemory>
    ensures { IfOk result (λ part. string_bytes part ≡ codes "/" ++ signed_decimal number) }
{
    Ok(format!(in alloc; "/{number}")?)
}

/// The path of the parent of a partition's state, from that of the parent of the topic's partitions.
pub fn number_path(
    alloc: Global,
    partitions: &ZPath,
    name: &Text,
    number: i32,
) -> Result<ZPath, NoMemory>
    requires partitions { partitions.now ≡ partitions_path name.now }
    requires named { is_topic_name name.now ≡ true }
    requires numbered { is_not_negative number ≡ true }
    ensures { IfOk result (λ path. path ≡ number_path name.now number) }
{
    let part = number_part(alloc, number)?;
    path_after(alloc, partitions, &part)
}

/// The path of the state of a partition, from that of its parent.
pub fn state_path(
    alloc: Global,
    parent: &ZPath,
    name: &Text,
    number: i32,
) -> Result<ZPath, NoMemory>
    requires parent { parent.now ≡ number_path name.now number }
    requires named { is_topic_name name.now ≡ true }
    requires numbered { is_not_negative number ≡ true }
    ensures { IfOk result (λ path. path ≡ path_of (key.Partition name.now number)) }
{
    let path = path_after(alloc, parent, "/state")?;
    Ok(path)
}

/// The path of a topic's configuration.
#[tactic(auto, using(crate::proofs::TopicPaths::config_rule), unfolding(kz_types::specs::Paths::is_legal))]
pub fn topic_config_path(alloc: Global, name: &Text) -> Result<ZPath, NoMemory>
    requires { is_topic_name name.now ≡ true }
    ensures { IfOk result (λ path. path ≡ path_of (key.TopicConfig name.now)) }
{
    let key = EntityKey::TopicConfig {
        name: name.copy(alloc)?,
    };
    entity_path(alloc, &key)
}
