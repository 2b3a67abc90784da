//! The law of held metadata, called on metadata that a program makes, and used.
ghost use Rattle.std.specs.Prelude.{◌≡◌, ◌∷◌, [], pos, IfOk};
ghost use Rattle.kz_spec_data.specs.Metadata.{empty_image};
ghost use Rattle.kz_spec_data.specs.Image.{all_applied};
ghost use Rattle.kz_laws_znodes.specs.RoundTrip.{MayReturn};
ghost use Rattle.kz_laws_held.specs.Worked.{topic_id, topic, partition, topic_member, broker_member, quota, credential, entry, producer_ids, worked_records};

use crate::worked::worked_is_made;
use crate::{one_rendering, round_trip};
use kz_image::Image;
use kz_laws_znodes::worked_metadata;
use kz_types::{
    AccessControlEntryRecord, ClientQuotaRecord, ConfigRecord, Id, MetaRecord, NoMemory,
    PartitionRecord, ProducerIdsRecord, QuotaEntities, QuotaEntity, QuotaValue, Sequence, Text,
    TopicRecord, UserScramCredentialRecord,
};
use std::alloc::Global;

// ---- metadata of a program

fn text(alloc: Global, name: &str) -> Result<Text, NoMemory>
    ensures { IfOk result (λ made. made ≡ name.now) }
{
    Text::from_str(alloc, name)
}

const TOPIC_ID: Id = Id {
    bytes: [0, 0, 0, 0, 0, 0, 0, 0, 0, 0, 0, 0, 0, 0, 0, 7],
};

fn topic(alloc: Global) -> Result<MetaRecord, NoMemory>
    ensures { IfOk result (λ made. made ≡ topic) }
{
    Ok(MetaRecord::Topic(TopicRecord {
        name: text(alloc, "t")?,
        topic_id: TOPIC_ID,
    }))
}

fn one_id(alloc: Global, id: i32) -> Result<Sequence<i32>, NoMemory>
    ensures { IfOk result (λ made. made ≡ id ∷ []) }
{
    let mut ids = Sequence::new(alloc);
    ids.push(id)?;
    Ok(ids)
}

fn partition(alloc: Global) -> Result<MetaRecord, NoMemory>
    ensures { IfOk result (λ made. made ≡ partition) }
{
    let mut replicas = one_id(alloc, 1)?;
    replicas.push(2)?;
    Ok(MetaRecord::Partition(PartitionRecord {
        partition_id: 0,
        topic_id: TOPIC_ID,
        replicas,
        isr: one_id(alloc, 1)?,
        removing: Sequence::new(alloc),
        adding: one_id(alloc, 2)?,
        leader: 1,
        recovery: 0,
        leader_epoch: 3,
        partition_epoch: 4,
    }))
}

fn topic_member(alloc: Global) -> Result<MetaRecord, NoMemory>
    ensures { IfOk result (λ made. made ≡ topic_member) }
{
    Ok(MetaRecord::Config(ConfigRecord {
        resource_type: 2,
        resource_name: text(alloc, "t")?,
        name: text(alloc, "retention.ms")?,
        value: Some(text(alloc, "1")?),
    }))
}

fn broker_member(alloc: Global) -> Result<MetaRecord, NoMemory>
    ensures { IfOk result (λ made. made ≡ broker_member) }
{
    Ok(MetaRecord::Config(ConfigRecord {
        resource_type: 4,
        resource_name: text(alloc, "1")?,
        name: text(alloc, "a")?,
        value: Some(text(alloc, "b")?),
    }))
}

fn quota(alloc: Global) -> Result<MetaRecord, NoMemory>
    ensures { IfOk result (λ made. made ≡ quota) }
{
    let mut parts = Vec::new(alloc);
    parts.push(QuotaEntity {
        kind: text(alloc, "user")?,
        name: Some(text(alloc, "u")?),
    })?;
    parts.push(QuotaEntity {
        kind: text(alloc, "client-id")?,
        name: Some(text(alloc, "c")?),
    })?;
    Ok(MetaRecord::ClientQuota(ClientQuotaRecord {
        entity: QuotaEntities::from_vec(parts),
        key: text(alloc, "producer_byte_rate")?,
        value: QuotaValue {
            whole: 1,
            micros: 500_000,
        },
        remove: false,
    }))
}

fn one_byte(alloc: Global, byte: u8) -> Result<Sequence<u8>, NoMemory>
    ensures { IfOk result (λ made. made ≡ byte ∷ []) }
{
    let mut bytes = Sequence::new(alloc);
    bytes.push(byte)?;
    Ok(bytes)
}

fn credential(alloc: Global) -> Result<MetaRecord, NoMemory>
    ensures { IfOk result (λ made. made ≡ credential) }
{
    Ok(MetaRecord::UserScramCredential(UserScramCredentialRecord {
        name: text(alloc, "u")?,
        mechanism: 1,
        salt: one_byte(alloc, b's')?,
        stored_key: one_byte(alloc, b'k')?,
        server_key: one_byte(alloc, b'v')?,
        iterations: 4096,
    }))
}

fn entry(alloc: Global) -> Result<MetaRecord, NoMemory>
    ensures { IfOk result (λ made. made ≡ entry) }
{
    Ok(MetaRecord::AccessControlEntry(AccessControlEntryRecord {
        id: Id {
            bytes: [0, 0, 0, 0, 0, 0, 0, 0, 0, 0, 0, 0, 0, 0, 0, 9],
        },
        resource_type: 2,
        resource_name: text(alloc, "t")?,
        pattern_type: 3,
        principal: text(alloc, "User:u")?,
        host: text(alloc, "*")?,
        operation: 3,
        permission: 3,
    }))
}

fn producer_ids() -> MetaRecord
    ensures { result ≡ producer_ids }
{
    MetaRecord::ProducerIds(ProducerIdsRecord {
        broker_id: 1,
        broker_epoch: 0,
        next: 1000,
    })
}

// The worked records.
#[tactic(auto, unfolding(crate::specs::Worked::worked_records))]
fn records(alloc: Global) -> Result<Vec<MetaRecord>, NoMemory>
    ensures { IfOk result (λ made. made.items ≡ worked_records) }
{
    let mut records = Vec::new(alloc);
    records.push(topic(alloc)?)?;
    records.push(partition(alloc)?)?;
    records.push(topic_member(alloc)?)?;
    records.push(broker_member(alloc)?)?;
    records.push(quota(alloc)?)?;
    records.push(credential(alloc)?)?;
    records.push(entry(alloc)?)?;
    records.push(producer_ids())?;
    Ok(records)
}

// The metadata that records make of nothing.
fn made(alloc: Global, records: &[MetaRecord]) -> Result<Image, NoMemory>
    ensures { IfOk result (λ i. i ≡ all_applied (pos 5) records.now empty_image) }
{
    let mut image = Image::new(alloc);
    image.apply_all(5, records)?;
    Ok(image)
}

// The worked metadata.
fn image(alloc: Global) -> Result<Image, NoMemory>
    ensures { IfOk result (λ i. i ≡ all_applied (pos 5) worked_records empty_image) }
{
    let records = records(alloc)?;
    made(alloc, records.as_slice())
}

// The worked metadata may return.
fn may_return(image: &Image)
    requires { image.now ≡ all_applied (pos 5) worked_records empty_image }
    ensures { MayReturn image.now }
{
    worked_is_made();
    worked_metadata();
}

#[test]
fn held_metadata_returns(rt: HostRuntime) -> Result<(), &'static str> {
    let image = image(rt.alloc()).ok().ok_or("memory")?;
    may_return(&image);
    round_trip(&image);
    one_rendering(&image, &image);
    Ok(())
}
