//! The records of a topic and its partitions.
ghost use Rattle.std.specs.Prelude.{◌≡◌, ◌<◌, Some, IfOk, OnOk, length, map, take, slice_index_or, option_and_then};
ghost use Rattle.std.specs.Result.{result_ok};
ghost use Rattle.kz_types.specs.declared.key.EntityKey.TheVariants.{Topic, Partition};
ghost use Rattle.kz_types.specs.Paths.{path_of};
ghost use Rattle.kz_types.specs.Order.{bytes_cmp};
ghost use Rattle.kz_types.specs.Ordered.{Rises};
ghost use Rattle.kz_types.specs.Spot.{IsSpot};
ghost use Rattle.kz_spec_data.specs.Tree.{path_of_row};
ghost use Rattle.kz_spec_data.specs.Translation.{row_of, body_of_row, assignments_in, first_replica, new_partition, partition_with, partition_by, partition_record, topic_records, records_of_topic};
ghost use Rattle.kz_reader.specs.Seen.{HasSeen, AreReadAt, body_in};
ghost use Rattle.kz_reader.specs.Known.{IsKnown};

use crate::assignments::assignments_from;
use crate::bodies::{EntityRead, read_of_row};
use crate::found::state_spot;
use crate::known::{Known, keep_state};
use crate::seen::Seen;
use crate::states::leader_of;
use kz_types::{
    AssignmentRow, Body, BodyFault, Duplicate, Id, MetaRecord, NoMemory, PartitionRecord, ReadWhy,
    Row, Sequence, Text, TopicRecord,
};
use std::alloc::Global;
use std::collections::BTreeMap;

/// How far the state of a topic's first partition mostly stands after the topic: the two parents of the state come between.
const FIRST_STATE: usize = 3;

// The first replica.
fn first_replica(replicas: &[i32]) -> i32
    ensures { result ≡ first_replica replicas.now }
{
    match replicas {
        [first, ..] => *first,
        [] => -1,
    }
}

// A partition without a state: all replicas are in sync, the first one leads.
fn new_partition(
    alloc: Global,
    id: Id,
    assigned: &AssignmentRow,
) -> Result<PartitionRecord, NoMemory>
    ensures { IfOk result (λ made. made ≡ new_partition id assigned.now) }
{
    Ok(PartitionRecord {
        partition_id: assigned.number,
        topic_id: id,
        replicas: assigned.replicas.copy(alloc)?,
        isr: assigned.replicas.copy(alloc)?,
        removing: assigned.removing.copy(alloc)?,
        adding: assigned.adding.copy(alloc)?,
        leader: first_replica(assigned.replicas.as_slice()),
        recovery: 0,
        leader_epoch: 0,
        partition_epoch: 0,
    })
}

// A partition with a state, whose znode has this data version.
fn partition_with(
    alloc: Global,
    id: Id,
    assigned: &AssignmentRow,
    version: i32,
    state: &Option<EntityRead>,
) -> Result<PartitionRecord, NoMemory>
    ensures { IfOk result (λ made. made ≡ partition_with id assigned.now version (body_in state.now)) }
{
    match state {
        Some(
            EntityRead {
                read: Ok(
                    Body::State {
                        leader,
                        leader_epoch,
                        isr,
                        recovery,
                        ..
                    },
                ),
                ..
            },
        ) => Ok(PartitionRecord {
            partition_id: assigned.number,
            topic_id: id,
            replicas: assigned.replicas.copy(alloc)?,
            isr: isr.copy(alloc)?,
            removing: assigned.removing.copy(alloc)?,
            adding: assigned.adding.copy(alloc)?,
            leader: leader_of(*leader),
            recovery: *recovery,
            leader_epoch: *leader_epoch,
            partition_epoch: version,
        }),
        _ => new_partition(alloc, id, assigned),
    }
}

// A partition by the znode of its state, which stands at this place. What is read of the znode is kept.
fn partition_of_state(
    alloc: Global,
    rows: &[Row],
    states: &mut BTreeMap<usize, EntityRead>,
    place: usize,
    row: &Row,
    id: Id,
    assigned: &AssignmentRow,
) -> Result<PartitionRecord, NoMemory>
    requires within { place < length rows.now }
    requires row { row.now ≡ slice_index_or rows.now place row.now }
    requires states { AreReadAt rows.now states.old }
    ensures made { IfOk result (λ made. made ≡ partition_by id assigned.now (Some row.now)) }
    ensures states { OnOk result (AreReadAt rows.now states.new) }
{
    let read = read_of_row(alloc, row)?;
    let made = partition_with(alloc, id, assigned, row.version, &read)?;
    keep_state(rows, states, place, row, read)?;
    Ok(made)
}

// A partition by the place of the znode of its state, or that where it would stand.
fn partition_by(
    alloc: Global,
    rows: &[Row],
    states: &mut BTreeMap<usize, EntityRead>,
    name: &Text,
    id: Id,
    assigned: &AssignmentRow,
    spot: Result<usize, usize>,
) -> Result<PartitionRecord, NoMemory>
    requires rising { Rises bytes_cmp path_of_row rows.now }
    requires spot { IsSpot bytes_cmp path_of_row (path_of (Partition name.now assigned.now.number)) rows.now spot }
    requires states { AreReadAt rows.now states.old }
    ensures made { IfOk result (λ made. made ≡ partition_by id assigned.now (row_of (Partition name.now assigned.now.number) rows.now)) }
    ensures states { OnOk result (AreReadAt rows.now states.new) }
{
    match spot {
        Ok(place) => {
            let row = &rows[place];
            partition_of_state(alloc, rows, states, place, row, id, assigned)
        }
        Err(_) => new_partition(alloc, id, assigned),
    }
}

// Where the state of the next partition is sought first: that partition comes between the two states.
fn next_place(spot: &Result<usize, usize>) -> usize {
    match spot {
        Ok(place) => place.saturating_add(2),
        Err(place) => place.saturating_add(1),
    }
}

// The record of a partition. Its state is sought at this guess first, which becomes that of the next state.
fn partition_record(
    alloc: Global,
    rows: &[Row],
    states: &mut BTreeMap<usize, EntityRead>,
    guess: &mut usize,
    name: &Text,
    id: Id,
    assigned: &AssignmentRow,
) -> Result<MetaRecord, NoMemory>
    requires rising { Rises bytes_cmp path_of_row rows.now }
    requires states { AreReadAt rows.now states.old }
    ensures made { IfOk result (λ made. made ≡ partition_record rows.now name.now id assigned.now) }
    ensures states { OnOk result (AreReadAt rows.now states.new) }
{
    let spot = state_spot(alloc, rows, name.as_str(), assigned.number, *guess)?;
    *guess = next_place(&spot);
    let made = partition_by(alloc, rows, states, name, id, assigned, spot)?;
    Ok(MetaRecord::Partition(made))
}

// A topic, whose znode stands at this place, and then its partitions by rising number. What is read of their states is
// kept.
fn topic_records(
    alloc: Global,
    rows: &[Row],
    states: &mut BTreeMap<usize, EntityRead>,
    place: usize,
    name: &Text,
    id: Id,
    partitions: &[AssignmentRow],
) -> Result<Sequence<MetaRecord>, NoMemory>
    requires rising { Rises bytes_cmp path_of_row rows.now }
    requires states { AreReadAt rows.now states.old }
    ensures records { IfOk result (λ records. records ≡ topic_records rows.now name.now id partitions.now) }
    ensures states { OnOk result (AreReadAt rows.now states.new) }
{
    let mut records = Sequence::new(alloc);
    records.push(MetaRecord::Topic(TopicRecord {
        name: name.copy(alloc)?,
        topic_id: id,
    }))?;
    let mut guess = place.saturating_add(FIRST_STATE);
    for assigned in partitions {
        records.push(partition_record(alloc, rows, states, &mut guess, name, id, assigned)?)?;
    }
    Ok(records)
}

// The records of a topic, whose assignments and states are kept.
fn kept_topic(
    alloc: Global,
    rows: &[Row],
    known: &mut Known,
    place: usize,
    name: &Text,
    id: Id,
    partitions: Sequence<AssignmentRow>,
) -> Result<Sequence<MetaRecord>, NoMemory>
    requires rising { Rises bytes_cmp path_of_row rows.now }
    requires known { IsKnown rows.now known.old }
    requires own { assignments_in (option_and_then body_of_row (row_of (Topic name.now) rows.now)) ≡ partitions }
    ensures records { IfOk result (λ records. records ≡ topic_records rows.now name.now id partitions) }
    ensures known { OnOk result (IsKnown rows.now known.new) }
{
    let items = partitions.as_slice();
    let records = topic_records(alloc, rows, &mut known.states, place, name, id, items)?;
    known.last = Some(assignments_from(alloc, rows, name, partitions.into_vec())?);
    Ok(records)
}

/// The records of a topic of this body, or why there are none: its id is that of a topic that was read.
/// Its assignments and the states of its partitions are kept.
pub fn records_of_topic(
    alloc: Global,
    rows: &[Row],
    seen: &Seen,
    known: &mut Known,
    name: &Text,
    read: Result<Body, BodyFault>,
) -> Result<Result<Sequence<MetaRecord>, ReadWhy>, NoMemory>
    requires rising { Rises bytes_cmp path_of_row rows.now }
    requires seen { HasSeen rows.now seen.now }
    requires known { IsKnown rows.now known.old }
    requires own { option_and_then body_of_row (row_of (Topic name.now) rows.now) ≡ result_ok read }
    ensures records { IfOk result (λ records. records ≡ records_of_topic rows.now (take seen.now.done rows.now) name.now read) }
    ensures known { OnOk result (IsKnown rows.now known.new) }
{
    match read {
        Ok(Body::Topic { id, partitions }) => {
            if seen.is_taken(rows, id) {
                return Ok(Err(ReadWhy::SameId));
            }
            Ok(Ok(kept_topic(alloc, rows, known, seen.done, name, id, partitions)?))
        }
        Ok(_) => Ok(Ok(Sequence::new(alloc))),
        Err(fault) => Ok(Err(ReadWhy::Body(fault))),
    }
}
