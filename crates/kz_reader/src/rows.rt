//! The records of one znode.
ghost use Rattle.std.specs.Prelude.{◌≡◌, ◌<◌, ◌^◌, None, IfOk, OnOk, length, take, slice_index_or, option_and_then};
ghost use Rattle.std.specs.Result.{result_ok};
ghost use Rattle.kz_types.specs.Order.{bytes_cmp};
ghost use Rattle.kz_types.specs.Ordered.{Rises};
ghost use Rattle.kz_spec_data.specs.Tree.{path_of_row};
ghost use Rattle.kz_spec_data.specs.Translation.{row_of, body_of_row, records_of, row_records};
ghost use Rattle.kz_reader.specs.Seen.{note_of, HasSeen, records_without_key};
ghost use Rattle.kz_reader.specs.Known.{IsKnown};

use crate::acls::records_of_acls;
use crate::assignments::records_of_partition;
use crate::bodies::EntityRead;
use crate::configs::{records_if_there, records_of_broker};
use crate::known::{Known, read_at};
use crate::producer::records_of_producer;
use crate::quotas::records_of_quotas;
use crate::seen::{Note, Seen, note_of};
use crate::topics::records_of_topic;
use kz_path::kind;
use kz_types::{Body, BodyFault, EntityKey, Kind, MetaRecord, NoMemory, ReadWhy, Row, Sequence};
use std::alloc::Global;

/// What a znode gives.
#[derive(Drop)]
pub struct RowRead {
    /// What it adds to what is known.
    pub note: Note,
    /// Its records, or why there are none.
    pub records: Result<Sequence<MetaRecord>, ReadWhy>,
}

// The records of an entity of this body, or why there are none.
fn records_of(
    alloc: Global,
    rows: &[Row],
    seen: &Seen,
    known: &mut Known,
    key: &EntityKey,
    read: Result<Body, BodyFault>,
) -> Result<Result<Sequence<MetaRecord>, ReadWhy>, NoMemory>
    requires rising { Rises bytes_cmp path_of_row rows.now }
    requires seen { HasSeen rows.now seen.now }
    requires few { seen.now.entries < 2 ^ 63 }
    requires known { IsKnown rows.now known.old }
    requires own { option_and_then body_of_row (row_of key.now rows.now) ≡ result_ok read }
    ensures records { IfOk result (λ records. records ≡ records_of rows.now (take seen.now.done rows.now) key.now read) }
    ensures known { OnOk result (IsKnown rows.now known.new) }
{
    match key {
        EntityKey::Topic { name } => records_of_topic(alloc, rows, seen, known, name, read),
        EntityKey::Partition { topic, number } => {
            records_of_partition(alloc, rows, &mut known.last, topic, *number, read)
        }
        EntityKey::TopicConfig { name } => records_if_there(alloc, rows, name, read),
        EntityKey::BrokerConfig { broker } => records_of_broker(alloc, *broker, read),
        EntityKey::Acl { .. } => records_of_acls(alloc, rows, seen, read),
        EntityKey::Producer => records_of_producer(alloc, read),
        _ => records_of_quotas(alloc, key, read),
    }
}

// What the znode of an entity gives, whose body says this.
fn give_entity(
    alloc: Global,
    rows: &[Row],
    seen: &Seen,
    known: &mut Known,
    key: &EntityKey,
    read: Result<Body, BodyFault>,
) -> Result<RowRead, NoMemory>
    requires rising { Rises bytes_cmp path_of_row rows.now }
    requires seen { HasSeen rows.now seen.now }
    requires few { seen.now.entries < 2 ^ 63 }
    requires known { IsKnown rows.now known.old }
    requires own { option_and_then body_of_row (row_of key.now rows.now) ≡ result_ok read }
    ensures records { IfOk result (λ made. made.records ≡ records_of rows.now (take seen.now.done rows.now) key.now read) }
    ensures note { IfOk result (λ made. made.note ≡ note_of (result_ok read)) }
    ensures known { OnOk result (IsKnown rows.now known.new) }
{
    let note = note_of(&read);
    let records = records_of(alloc, rows, seen, known, key, read)?;
    Ok(RowRead { note, records })
}

// What a znode gives that is no entity's.
fn read_other(alloc: Global, kind: Kind) -> RowRead
    ensures records { result.records ≡ records_without_key kind }
    ensures note { result.note ≡ note_of None }
{
    let records = match kind {
        Kind::Stray => Err(ReadWhy::Stray),
        _ => Ok(Sequence::new(alloc)),
    };
    RowRead {
        note: Note {
            id: None,
            entries: 0,
        },
        records,
    }
}

/// What the next znode gives, after those that were read.
#[tactic(auto, unfolding(kz_types::specs::Paths::kind_of))]
pub fn read_row(
    alloc: Global,
    rows: &[Row],
    seen: &Seen,
    known: &mut Known,
    row: &Row,
) -> Result<RowRead, NoMemory>
    requires within { seen.now.done < length rows.now }
    requires row { row.now ≡ slice_index_or rows.now seen.now.done row.now }
    requires rising { Rises bytes_cmp path_of_row rows.now }
    requires seen { HasSeen rows.now seen.now }
    requires few { seen.now.entries < 2 ^ 63 }
    requires known { IsKnown rows.now known.old }
    ensures records { IfOk result (λ made. made.records ≡ row_records rows.now (take seen.now.done rows.now) row.now) }
    ensures note { IfOk result (λ made. made.note ≡ note_of (body_of_row row.now)) }
    ensures known { OnOk result (IsKnown rows.now known.new) }
{
    match read_at(alloc, rows, &mut known.states, seen.done, row)? {
        Some(EntityRead { key, read }) => give_entity(alloc, rows, seen, known, &key, read),
        None => Ok(read_other(alloc, kind(&row.path))),
    }
}
