//! The znodes of topics.
ghost use Rattle.std.specs.Prelude.{◌≡◌, ◌∷◌, ◌++◌, [], All, IfOk, OnOk, map, true, string_bytes};
ghost use Rattle.std.specs.List.{flat_map};
ghost use Rattle.kz_types.specs.Paths.{path_of, is_topic_name, is_not_negative};
ghost use Rattle.kz_types.specs.declared.key.EntityKey.TheVariants as key;
ghost use Rattle.kz_types.specs.declared.bodies.Body.TheVariants as body;
ghost use Rattle.kz_spec_data.specs.Bodies.{text_of_body};
ghost use Rattle.kz_spec_data.specs.Legal.{IsPartition, IsTopic};
ghost use Rattle.kz_spec_data.specs.Rendering.{bare, assignment_of, topic_znode, partitions_path, state_body, partition_znodes, topic_config_znodes};
ghost use Rattle.kz_render.specs.Apart.{own_znodes, configs_of, topics_apart};

use crate::push::{push_bare, push_znode};
use crate::topic_paths::{number_path, partitions_path, state_path, topic_config_path, topic_path};
use kz_body_texts::{PartitionState, config_text, state_text, topic_text};
use kz_sorted::Blocks;
use kz_types::{
    AssignmentRow, Duplicate, NoMemory, Pair, PartitionEntry, PartitionRow, Rendered, Shared, Text,
    TopicEntry, ZPath,
};
use std::alloc::Global;

// What a topic's body says of a partition.
fn assignment_of(alloc: Global, partition: &PartitionEntry) -> Result<AssignmentRow, NoMemory>
    ensures { IfOk result (λ row. row ≡ assignment_of partition.now) }
{
    Ok(AssignmentRow {
        number: partition.number,
        replicas: partition.row.replicas.copy(alloc)?,
        adding: partition.row.adding.copy(alloc)?,
        removing: partition.row.removing.copy(alloc)?,
    })
}

// What a topic's body says of its partitions.
fn assignments_of(
    alloc: Global,
    partitions: &[Shared<PartitionEntry>],
) -> Result<Vec<AssignmentRow>, NoMemory>
    ensures { IfOk result (λ rows. rows.items ≡ map assignment_of partitions.now) }
{
    let mut rows = Vec::new(alloc);
    for partition in partitions {
        rows.push(assignment_of(alloc, partition.get())?)?;
    }
    Ok(rows)
}

/// The text of a topic's body.
#[tactic(auto, unfolding(kz_spec_data::specs::Bodies::text_of_body))]
pub fn topic_body(alloc: Global, topic: &TopicEntry) -> Result<String, NoMemory>
    ensures { IfOk result (λ text. string_bytes text ≡ text_of_body (body.Topic topic.now.id (map assignment_of topic.now.partitions))) }
{
    let rows = assignments_of(alloc, topic.partitions.as_slice())?;
    topic_text(alloc, &topic.id, &rows)
}

/// The text of the body of a partition's state.
#[tactic(auto, unfolding(kz_spec_data::specs::Bodies::text_of_body))]
pub fn state_body(alloc: Global, row: &PartitionRow) -> Result<String, NoMemory>
    ensures { IfOk result (λ text. string_bytes text ≡ text_of_body (state_body row.now)) }
{
    state_text(
        alloc,
        &PartitionState {
            leader: row.leader,
            leader_epoch: row.leader_epoch,
            controller_epoch: row.controller_epoch,
            isr: row.isr.as_slice(),
            recovery: row.recovery,
        },
    )
}

// Adds the znode of a topic and the parent of its partitions, whose paths are these.
fn push_topic_znode(
    alloc: Global,
    znodes: &mut Vec<Rendered>,
    topic: &TopicEntry,
    path: ZPath,
    partitions: &ZPath,
) -> Result<(), NoMemory>
    requires path { path ≡ path_of (key.Topic topic.now.name) }
    requires partitions { partitions.now ≡ partitions_path topic.now.name }
    ensures { OnOk result (znodes.new.items ≡ znodes.old.items ++ (topic_znode topic.now ∷ bare (partitions_path topic.now.name) ∷ [])) }
{
    let text = topic_body(alloc, topic)?;
    push_znode(znodes, path, text.into_bytes())?;
    push_bare(alloc, znodes, partitions.copy(alloc)?)
}

// Adds the znode of a partition's number, and its state below it.
fn push_partition(
    alloc: Global,
    znodes: &mut Vec<Rendered>,
    name: &Text,
    partitions: &ZPath,
    partition: &PartitionEntry,
) -> Result<(), NoMemory>
    requires named { is_topic_name name.now ≡ true }
    requires numbered { is_not_negative partition.now.number ≡ true }
    requires partitions { partitions.now ≡ partitions_path name.now }
    ensures { OnOk result (znodes.new.items ≡ znodes.old.items ++ partition_znodes name.now partition.now) }
{
    let number = number_path(alloc, partitions, name, partition.number)?;
    let state = state_path(alloc, &number, name, partition.number)?;
    let text = state_body(alloc, &partition.row)?;
    push_bare(alloc, znodes, number)?;
    push_znode(znodes, state, text.into_bytes())
}

// Adds the znodes of a topic's partitions.
fn push_partitions(
    alloc: Global,
    znodes: &mut Vec<Rendered>,
    name: &Text,
    path: &ZPath,
    partitions: &[Shared<PartitionEntry>],
) -> Result<(), NoMemory>
    requires named { is_topic_name name.now ≡ true }
    requires legal { All IsPartition partitions.now }
    requires path { path.now ≡ partitions_path name.now }
    ensures { OnOk result (znodes.new.items ≡ znodes.old.items ++ flat_map (partition_znodes name.now) partitions.now) }
{
    for partition in partitions {
        push_partition(alloc, znodes, name, path, partition.get())?;
    }
    Ok(())
}

// Adds the znode of a configuration of a topic, where it isn't empty.
#[tactic(auto, unfolding(kz_spec_data::specs::Bodies::text_of_body))]
fn push_topic_config(
    alloc: Global,
    znodes: &mut Vec<Rendered>,
    name: &Text,
    pairs: &[Pair],
) -> Result<(), NoMemory>
    requires { is_topic_name name.now ≡ true }
    ensures { OnOk result (znodes.new.items ≡ znodes.old.items ++ topic_config_znodes name.now pairs.now) }
{
    if pairs.is_empty() {
        return Ok(());
    }
    let path = topic_config_path(alloc, name)?;
    let text = config_text(alloc, pairs)?;
    push_znode(znodes, path, text.into_bytes())
}

// Adds the znodes of a topic and of its partitions.
fn push_topic(alloc: Global, znodes: &mut Vec<Rendered>, topic: &TopicEntry) -> Result<(), NoMemory>
    requires named { is_topic_name topic.now.name ≡ true }
    requires partitions { All IsPartition topic.now.partitions }
    ensures { OnOk result (znodes.new.items ≡ znodes.old.items ++ own_znodes topic.now) }
{
    let name = &topic.name;
    let path = topic_path(alloc, name)?;
    let parent = partitions_path(alloc, &path, name)?;
    push_topic_znode(alloc, znodes, topic, path, &parent)?;
    push_partitions(alloc, znodes, name, &parent, topic.partitions.as_slice())
}

// Adds the znodes of all topics and of their partitions.
fn push_all_topics(
    alloc: Global,
    znodes: &mut Vec<Rendered>,
    topics: &Blocks<TopicEntry>,
) -> Result<(), NoMemory>
    requires { All IsTopic topics.now }
    ensures { OnOk result (znodes.new.items ≡ znodes.old.items ++ flat_map own_znodes topics.now) }
{
    for topic in topics.items() {
        push_topic(alloc, znodes, topic)?;
    }
    Ok(())
}

// Adds the znode of a topic's configuration, where it isn't empty.
fn push_config_of(
    alloc: Global,
    znodes: &mut Vec<Rendered>,
    topic: &TopicEntry,
) -> Result<(), NoMemory>
    requires { is_topic_name topic.now.name ≡ true }
    ensures { OnOk result (znodes.new.items ≡ znodes.old.items ++ configs_of topic.now) }
{
    push_topic_config(alloc, znodes, &topic.name, topic.pairs.as_slice())
}

// Adds the znodes of the configurations of all topics.
fn push_topic_configs(
    alloc: Global,
    znodes: &mut Vec<Rendered>,
    topics: &Blocks<TopicEntry>,
) -> Result<(), NoMemory>
    requires { All IsTopic topics.now }
    ensures { OnOk result (znodes.new.items ≡ znodes.old.items ++ flat_map configs_of topics.now) }
{
    for topic in topics.items() {
        push_config_of(alloc, znodes, topic)?;
    }
    Ok(())
}

/// Adds the znodes of all topics, and after them those of their configurations, so that few znodes stand out of path order.
pub fn push_topics(
    alloc: Global,
    znodes: &mut Vec<Rendered>,
    topics: &Blocks<TopicEntry>,
) -> Result<(), NoMemory>
    requires { All IsTopic topics.now }
    ensures { OnOk result (znodes.new.items ≡ znodes.old.items ++ topics_apart topics.now) }
{
    push_all_topics(alloc, znodes, topics)?;
    push_topic_configs(alloc, znodes, topics)
}
