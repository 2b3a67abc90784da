//! What a record makes of one topic.
ghost use Rattle.std.specs.Prelude.{◌≡◌, true, option_map, IfOk, OnOk, OnErr};
ghost use Rattle.std.specs.Ordering.{int_cmp};
ghost use Rattle.kz_types.specs.Order.{bytes_cmp};
ghost use Rattle.kz_types.specs.Ordered.{put as put_in, Rises};
ghost use Rattle.kz_types.specs.Spot.{IsSpot};
ghost use Rattle.kz_spec_data.specs.Metadata.{number_of_partition, name_of_pair, partition_at};
ghost use Rattle.kz_spec_data.specs.ImageRules.{leaves_row};
ghost use Rattle.kz_spec_data.specs.Image.{put_partition, partition_changed, topic_configured};

use crate::configurations::change_pairs;
use kz_image_rules::changed_row;
use kz_types::{
    ConfigRecord, Duplicate, NoMemory, PartitionChangeRecord, PartitionEntry, PartitionRow,
    Sequence, Shared, TopicEntry,
};
use std::alloc::Global;

// ---- look-ups

// Where the partition of this number stands, or would stand.
fn partition_place(partitions: &[Shared<PartitionEntry>], number: i32) -> Result<usize, usize>
    requires { Rises int_cmp number_of_partition partitions.now }
    ensures { IsSpot int_cmp number_of_partition number partitions.now result }
{
    partitions.binary_search_by_key(
        &number,
        |partition: &Shared<PartitionEntry>| partition.get().number,
    )
}

/// The partition of a number.
pub fn partition_at<'a>(
    partitions: &'a [Shared<PartitionEntry>],
    number: i32,
) -> Option<&'a PartitionRow>
    requires { Rises int_cmp number_of_partition partitions.now }
    ensures { option_map (λ row. row.now) result ≡ partition_at number partitions.entry.now }
{
    match partition_place(partitions, number) {
        Ok(place) => Some(&partitions[place].get().row),
        Err(_) => None,
    }
}

// ---- partitions

// Puts a partition of a number, instead of the one that has it. At `Err`, memory ran out, and the partitions are as they were.
fn place_partition(
    partitions: &mut Vec<Shared<PartitionEntry>>,
    number: i32,
    partition: Shared<PartitionEntry>,
) -> Result<(), NoMemory>
    requires rises { Rises int_cmp number_of_partition partitions.old.items }
    requires number { partition.number ≡ number }
    ensures ok { OnOk result (partitions.new.items ≡ put_in int_cmp number_of_partition partition partitions.old.items) }
    ensures err { OnErr result (partitions.new.items ≡ partitions.old.items) }
{
    match partition_place(partitions, number) {
        Ok(place) => {
            partitions[place] = partition;
            Ok(())
        }
        Err(place) => {
            partitions.insert(place, partition)?;
            Ok(())
        }
    }
}

/// The topic with a partition.
pub fn with_partition(
    alloc: Global,
    topic: &TopicEntry,
    number: i32,
    row: PartitionRow,
) -> Result<TopicEntry, NoMemory>
    requires { Rises int_cmp number_of_partition topic.now.partitions }
    ensures { IfOk result (λ made. made ≡ put_partition number row topic.now) }
{
    let mut partitions = topic.partitions.copy(alloc)?.into_vec();
    let partition = Shared::new(alloc, PartitionEntry { number, row })?;
    place_partition(&mut partitions, number, partition)?;
    Ok(TopicEntry {
        name: topic.name.copy(alloc)?,
        id: topic.id,
        partitions: Sequence::from_vec(partitions),
        pairs: topic.pairs.copy(alloc)?,
    })
}

/// The topic with a changed partition, or as it is where that partition isn't there.
pub fn with_partition_changed(
    alloc: Global,
    epoch: i32,
    topic: &TopicEntry,
    change: &PartitionChangeRecord,
) -> Result<TopicEntry, NoMemory>
    requires rising { Rises int_cmp number_of_partition topic.now.partitions }
    requires fits { leaves_row change.now (partition_at change.now.partition_id topic.now.partitions) ≡ true }
    ensures { IfOk result (λ made. made ≡ partition_changed epoch change.now topic.now) }
{
    match partition_at(topic.partitions.as_slice(), change.partition_id) {
        Some(row) => {
            let row = changed_row(alloc, epoch, change, row)?;
            with_partition(alloc, topic, change.partition_id, row)
        }
        None => topic.copy(alloc),
    }
}

// ---- configurations

/// The topic with a member of its configuration set or removed.
pub fn with_member(
    alloc: Global,
    topic: &TopicEntry,
    change: &ConfigRecord,
) -> Result<TopicEntry, NoMemory>
    requires { Rises bytes_cmp name_of_pair topic.now.pairs }
    ensures { IfOk result (λ made. made ≡ topic_configured change.now topic.now) }
{
    let mut pairs = topic.pairs.copy(alloc)?.into_vec();
    change_pairs(alloc, &mut pairs, change)?;
    Ok(TopicEntry {
        name: topic.name.copy(alloc)?,
        id: topic.id,
        partitions: topic.partitions.copy(alloc)?,
        pairs: Sequence::from_vec(pairs),
    })
}
