//! Records of topics and their partitions, as a script writes them.
ghost use Rattle.std.specs.Prelude.{◌≡◌, IfOk, OnOk, codes};
ghost use Rattle.serde_json.specs.View.{view, members_view};
ghost use Rattle.kz_spec_data.specs.LineFields.{tagged_count};
ghost use Rattle.kz_spec_data.specs.Members.{with_whole, with_id, with_ints};
ghost use Rattle.kz_spec_data.specs.TopicRecords.{topic_of, partition_with, partition_of, partition_change_of, remove_topic_of};
ghost use Rattle.kz_spec_data.specs.WrittenRecords.{kind_member, topic_members, partition_members, partition_change_members};

use kz_record_fields::{
    int32_at, ints_at, kind_member, member_count, put_id, put_ints, put_tagged_ints,
    put_tagged_whole, put_text, put_whole, tagged_count, tagged_int8, tagged_int32, tagged_ints,
    text_member, uuid_at,
};
use kz_types::{
    Id, MetaRecord, NoMemory, PartitionChangeRecord, PartitionRecord, Sequence, Text, TopicRecord,
};
use serde_json::{Map, Value};
use std::alloc::Global;

/// The `Topic` that a value is, or `None` where it is none.
pub fn topic_of(alloc: Global, value: &Value) -> Result<Option<MetaRecord>, NoMemory>
    ensures { IfOk result (λ made. made ≡ topic_of (view value.now)) }
{
    if member_count(value) != 3 {
        return Ok(None);
    }
    let Some(name) = text_member(value, "name") else {
        return Ok(None);
    };
    let Some(topic_id) = uuid_at(value, "topicId") else {
        return Ok(None);
    };
    Ok(Some(MetaRecord::Topic(TopicRecord {
        name: Text::from_str(alloc, name)?,
        topic_id,
    })))
}

// A partition with these lists of brokers.
#[tactic(auto, unfolding(kz_spec_data::specs::TopicRecords::partition_with))]
fn partition_with(
    value: &Value,
    partition_id: i32,
    topic_id: Id,
    replicas: Sequence<i32>,
    isr: Sequence<i32>,
    removing: Sequence<i32>,
    adding: Sequence<i32>,
) -> Option<MetaRecord>
    ensures { result ≡ partition_with partition_id topic_id replicas isr removing adding (view value.now) }
{
    let leader = int32_at(value, "leader")?;
    let recovery = tagged_int8(value, "recovery", 0)?;
    let leader_epoch = int32_at(value, "leaderEpoch")?;
    let partition_epoch = int32_at(value, "partitionEpoch")?;
    Some(MetaRecord::Partition(PartitionRecord {
        partition_id,
        topic_id,
        replicas,
        isr,
        removing,
        adding,
        leader,
        recovery,
        leader_epoch,
        partition_epoch,
    }))
}

/// The `Partition` that a value is, or `None` where it is none.
pub fn partition_of(alloc: Global, value: &Value) -> Result<Option<MetaRecord>, NoMemory>
    ensures { IfOk result (λ made. made ≡ partition_of (view value.now)) }
{
    if member_count(value) != tagged_count(value, "recovery", 10) {
        return Ok(None);
    }
    let Some(partition_id) = int32_at(value, "partitionId") else {
        return Ok(None);
    };
    let Some(topic_id) = uuid_at(value, "topicId") else {
        return Ok(None);
    };
    let Some(replicas) = ints_at(alloc, value, "replicas")? else {
        return Ok(None);
    };
    let Some(isr) = ints_at(alloc, value, "isr")? else {
        return Ok(None);
    };
    let Some(removing) = ints_at(alloc, value, "removing")? else {
        return Ok(None);
    };
    let Some(adding) = ints_at(alloc, value, "adding")? else {
        return Ok(None);
    };
    Ok(partition_with(
        value,
        partition_id,
        topic_id,
        replicas,
        isr,
        removing,
        adding,
    ))
}

// How many members a change of a partition has, with those that may be absent.
fn change_count(value: &Value) -> usize
    ensures { result ≡ tagged_count (codes "recovery") (view value.now) (tagged_count (codes "adding") (view value.now) (tagged_count (codes "removing") (view value.now) (tagged_count (codes "replicas") (view value.now) (tagged_count (codes "leader") (view value.now) (tagged_count (codes "isr") (view value.now) 3))))) }
{
    let count = tagged_count(value, "isr", 3);
    let count = tagged_count(value, "leader", count);
    let count = tagged_count(value, "replicas", count);
    let count = tagged_count(value, "removing", count);
    let count = tagged_count(value, "adding", count);
    tagged_count(value, "recovery", count)
}

/// The `PartitionChange` that a value is, or `None` where it is none.
pub fn partition_change_of(alloc: Global, value: &Value) -> Result<Option<MetaRecord>, NoMemory>
    ensures { IfOk result (λ made. made ≡ partition_change_of (view value.now)) }
{
    if member_count(value) != change_count(value) {
        return Ok(None);
    }
    let Some(partition_id) = int32_at(value, "partitionId") else {
        return Ok(None);
    };
    let Some(topic_id) = uuid_at(value, "topicId") else {
        return Ok(None);
    };
    let Some(isr) = tagged_ints(alloc, value, "isr")? else {
        return Ok(None);
    };
    let Some(leader) = tagged_int32(value, "leader", -2) else {
        return Ok(None);
    };
    let Some(replicas) = tagged_ints(alloc, value, "replicas")? else {
        return Ok(None);
    };
    let Some(removing) = tagged_ints(alloc, value, "removing")? else {
        return Ok(None);
    };
    let Some(adding) = tagged_ints(alloc, value, "adding")? else {
        return Ok(None);
    };
    let Some(recovery) = tagged_int8(value, "recovery", -1) else {
        return Ok(None);
    };
    Ok(Some(MetaRecord::PartitionChange(PartitionChangeRecord {
        partition_id,
        topic_id,
        isr,
        leader,
        replicas,
        removing,
        adding,
        recovery,
    })))
}

/// The `RemoveTopic` that a value is, or `None` where it is none.
pub fn remove_topic_of(value: &Value) -> Option<MetaRecord>
    ensures { result ≡ remove_topic_of (view value.now) }
{
    if member_count(value) != 2 {
        return None;
    }
    let topic_id = uuid_at(value, "topicId")?;
    Some(MetaRecord::RemoveTopic { topic_id })
}

/// The members of a `Topic`.
pub fn topic_members(alloc: Global, topic: &TopicRecord) -> Result<Map<String, Value>, NoMemory>
    ensures { IfOk result (λ members. members_view members.entries ≡ topic_members topic.now) }
{
    let mut members = kind_member(alloc, "Topic")?;
    put_text(&mut members, alloc, "name", topic.name.as_str())?;
    put_id(&mut members, alloc, "topicId", &topic.topic_id)?;
    Ok(members)
}

// Puts the lists of brokers of a partition.
fn put_brokers(
    members: &mut Map<String, Value>,
    alloc: Global,
    partition: &PartitionRecord,
) -> Result<(), NoMemory>
    ensures { OnOk result (members_view members.new.entries ≡ with_ints (codes "adding") partition.now.adding (with_ints (codes "removing") partition.now.removing (with_ints (codes "isr") partition.now.isr (with_ints (codes "replicas") partition.now.replicas (members_view members.old.entries))))) }
{
    put_ints(members, alloc, "replicas", partition.replicas.as_slice())?;
    put_ints(members, alloc, "isr", partition.isr.as_slice())?;
    put_ints(members, alloc, "removing", partition.removing.as_slice())?;
    put_ints(members, alloc, "adding", partition.adding.as_slice())
}

// Puts the epochs of a partition.
fn put_epochs(
    members: &mut Map<String, Value>,
    alloc: Global,
    partition: &PartitionRecord,
) -> Result<(), NoMemory>
    ensures { OnOk result (members_view members.new.entries ≡ with_whole (codes "partitionEpoch") partition.now.partition_epoch (with_whole (codes "leaderEpoch") partition.now.leader_epoch (members_view members.old.entries))) }
{
    put_whole(members, alloc, "leaderEpoch", partition.leader_epoch as i64)?;
    put_whole(
        members,
        alloc,
        "partitionEpoch",
        partition.partition_epoch as i64,
    )
}

/// The members of a `Partition`.
pub fn partition_members(
    alloc: Global,
    partition: &PartitionRecord,
) -> Result<Map<String, Value>, NoMemory>
    ensures { IfOk result (λ members. members_view members.entries ≡ partition_members partition.now) }
{
    let mut members = kind_member(alloc, "Partition")?;
    put_whole(
        &mut members,
        alloc,
        "partitionId",
        partition.partition_id as i64,
    )?;
    put_id(&mut members, alloc, "topicId", &partition.topic_id)?;
    put_brokers(&mut members, alloc, partition)?;
    put_whole(&mut members, alloc, "leader", partition.leader as i64)?;
    put_tagged_whole(
        &mut members,
        alloc,
        "recovery",
        0,
        partition.recovery as i64,
    )?;
    put_epochs(&mut members, alloc, partition)?;
    Ok(members)
}

/// The members of a `PartitionChange`.
pub fn partition_change_members(
    alloc: Global,
    change: &PartitionChangeRecord,
) -> Result<Map<String, Value>, NoMemory>
    ensures { IfOk result (λ members. members_view members.entries ≡ partition_change_members change.now) }
{
    let mut members = kind_member(alloc, "PartitionChange")?;
    put_whole(
        &mut members,
        alloc,
        "partitionId",
        change.partition_id as i64,
    )?;
    put_id(&mut members, alloc, "topicId", &change.topic_id)?;
    put_tagged_ints(&mut members, alloc, "isr", &change.isr)?;
    put_tagged_whole(&mut members, alloc, "leader", -2, change.leader as i64)?;
    put_tagged_ints(&mut members, alloc, "replicas", &change.replicas)?;
    put_tagged_ints(&mut members, alloc, "removing", &change.removing)?;
    put_tagged_ints(&mut members, alloc, "adding", &change.adding)?;
    put_tagged_whole(&mut members, alloc, "recovery", -1, change.recovery as i64)?;
    Ok(members)
}

/// The members of a `RemoveTopic`.
pub fn remove_topic_members(alloc: Global, topic: &Id) -> Result<Map<String, Value>, NoMemory>
    ensures { IfOk result (λ members. members_view members.entries ≡ with_id (codes "topicId") topic.now (kind_member (codes "RemoveTopic"))) }
{
    let mut members = kind_member(alloc, "RemoveTopic")?;
    put_id(&mut members, alloc, "topicId", topic)?;
    Ok(members)
}
