//! The records of metadata, as a snapshot has them.
ghost use Rattle.std.specs.Prelude.{◌≡◌, ◌∷◌, ◌++◌, pos, map, option_map, option_to_list, IfOk, OnOk};
ghost use Rattle.std.specs.List.{flat_map};
ghost use Rattle.kz_types.specs.declared.record.MetaRecord.TheVariants as meta;
ghost use Rattle.kz_types.specs.Paths.{key_of};
ghost use Rattle.kz_spec_data.specs.Translation.{config_record, quota_record, scram_record};
ghost use Rattle.kz_spec_data.specs.SnapshotRecords.{in_epoch, partition_of_topic, records_of_topic, members_of_topic, members_of_brokers, quotas_of_key, quotas_of_entry, scrams_of_entry, record_of_acl, producer_record, state_records, records_after_topics, snapshot_records};

use kz_entity_records::{config_record, quota_record, scram_record};
use kz_image::Image;
use kz_path::key_of;
use kz_sorted::Blocks;
use kz_types::{
    AccessControlEntryRecord, AclEntry, Configuration, Duplicate, EntityKey, EpochRecord, Id,
    MetaRecord, NO_MIGRATION, NoMemory, Pair, PartitionEntry, PartitionRecord, ProducerIdsRecord,
    QuotaEntry, QuotaRow, RegisterBrokerRecord, ScramEntry, ScramPair, Sequence, Shared, Text,
    TopicEntry, TopicRecord,
};
use std::alloc::Global;

/// The code of a topic as a resource.
const TOPIC: i8 = 2;

/// The code of a broker as a resource.
const BROKER: i8 = 4;

// ---- topics

fn partition_record(
    alloc: Global,
    id: Id,
    partition: &PartitionEntry,
) -> Result<EpochRecord, NoMemory>
    ensures { IfOk result (λ made. made ≡ partition_of_topic id partition.now) }
{
    let row = &partition.row;
    Ok(EpochRecord {
        epoch: row.controller_epoch,
        item: MetaRecord::Partition(PartitionRecord {
            partition_id: partition.number,
            topic_id: id,
            replicas: row.replicas.copy(alloc)?,
            isr: row.isr.copy(alloc)?,
            removing: row.removing.copy(alloc)?,
            adding: row.adding.copy(alloc)?,
            leader: row.leader,
            recovery: row.recovery,
            leader_epoch: row.leader_epoch,
            partition_epoch: row.partition_epoch,
        }),
    })
}

fn push_partitions(
    alloc: Global,
    records: &mut Vec<EpochRecord>,
    id: Id,
    partitions: &[Shared<PartitionEntry>],
) -> Result<(), NoMemory>
    ensures { OnOk result (records.new.items ≡ records.old.items ++ map (partition_of_topic id) partitions.now) }
{
    for partition in partitions {
        records.push(partition_record(alloc, id, partition.get())?)?;
    }
    Ok(())
}

fn push_topic(
    alloc: Global,
    records: &mut Vec<EpochRecord>,
    epoch: i32,
    topic: &TopicEntry,
) -> Result<(), NoMemory>
    ensures { OnOk result (records.new.items ≡ records.old.items ++ records_of_topic epoch topic.now) }
{
    records.push(EpochRecord {
        epoch,
        item: MetaRecord::Topic(TopicRecord {
            name: topic.name.copy(alloc)?,
            topic_id: topic.id,
        }),
    })?;
    push_partitions(alloc, records, topic.id, topic.partitions.as_slice())
}

fn push_topics(
    alloc: Global,
    records: &mut Vec<EpochRecord>,
    epoch: i32,
    topics: &Blocks<TopicEntry>,
) -> Result<(), NoMemory>
    ensures { OnOk result (records.new.items ≡ records.old.items ++ flat_map (records_of_topic epoch) topics.now) }
{
    for topic in topics.items() {
        push_topic(alloc, records, epoch, topic)?;
    }
    Ok(())
}

// ---- brokers

fn push_brokers(
    alloc: Global,
    records: &mut Vec<EpochRecord>,
    epoch: i32,
    brokers: &[RegisterBrokerRecord],
) -> Result<(), NoMemory>
    ensures { OnOk result (records.new.items ≡ records.old.items ++ map (λ b. in_epoch epoch (meta.RegisterBroker b)) brokers.now) }
{
    for broker in brokers {
        records.push(EpochRecord {
            epoch,
            item: MetaRecord::RegisterBroker(broker.copy(alloc)?),
        })?;
    }
    Ok(())
}

// ---- the records after the topics

fn push_members(
    alloc: Global,
    records: &mut Vec<EpochRecord>,
    epoch: i32,
    resource: i8,
    name: &Text,
    pairs: &[Pair],
) -> Result<(), NoMemory>
    ensures { OnOk result (records.new.items ≡ records.old.items ++ map (in_epoch epoch) (map (config_record resource name.now) pairs.now)) }
{
    for pair in pairs {
        let item = config_record(alloc, resource, name, pair)?;
        records.push(EpochRecord { epoch, item })?;
    }
    Ok(())
}

fn push_topic_configs(
    alloc: Global,
    records: &mut Vec<EpochRecord>,
    epoch: i32,
    topics: &Blocks<TopicEntry>,
) -> Result<(), NoMemory>
    ensures { OnOk result (records.new.items ≡ records.old.items ++ map (in_epoch epoch) (flat_map members_of_topic topics.now)) }
{
    for topic in topics.items() {
        push_members(
            alloc,
            records,
            epoch,
            TOPIC,
            &topic.name,
            topic.pairs.as_slice(),
        )?;
    }
    Ok(())
}

fn push_broker_configs(
    alloc: Global,
    records: &mut Vec<EpochRecord>,
    epoch: i32,
    configs: &Blocks<Configuration>,
) -> Result<(), NoMemory>
    ensures { OnOk result (records.new.items ≡ records.old.items ++ map (in_epoch epoch) (flat_map members_of_brokers configs.now)) }
{
    for config in configs.items() {
        push_members(
            alloc,
            records,
            epoch,
            BROKER,
            &config.name,
            config.pairs.as_slice(),
        )?;
    }
    Ok(())
}

fn push_quotas_of(
    alloc: Global,
    records: &mut Vec<EpochRecord>,
    epoch: i32,
    key: &EntityKey,
    quotas: &[QuotaRow],
) -> Result<(), NoMemory>
    ensures { OnOk result (records.new.items ≡ records.old.items ++ map (in_epoch epoch) (map (quota_record key.now) quotas.now)) }
{
    for quota in quotas {
        let item = quota_record(alloc, key, quota)?;
        records.push(EpochRecord { epoch, item })?;
    }
    Ok(())
}

fn push_quota_entry(
    alloc: Global,
    records: &mut Vec<EpochRecord>,
    epoch: i32,
    entry: &QuotaEntry,
) -> Result<(), NoMemory>
    ensures { OnOk result (records.new.items ≡ records.old.items ++ map (in_epoch epoch) (quotas_of_entry entry.now)) }
{
    match key_of(alloc, &entry.path)? {
        Some(key) => push_quotas_of(alloc, records, epoch, &key, entry.quotas.as_slice()),
        None => Ok(()),
    }
}

fn push_quotas(
    alloc: Global,
    records: &mut Vec<EpochRecord>,
    epoch: i32,
    entries: &Blocks<QuotaEntry>,
) -> Result<(), NoMemory>
    ensures { OnOk result (records.new.items ≡ records.old.items ++ map (in_epoch epoch) (flat_map quotas_of_entry entries.now)) }
{
    for entry in entries.items() {
        push_quota_entry(alloc, records, epoch, entry)?;
    }
    Ok(())
}

fn push_scrams_of(
    alloc: Global,
    records: &mut Vec<EpochRecord>,
    epoch: i32,
    name: &Text,
    scrams: &[ScramPair],
) -> Result<(), NoMemory>
    ensures { OnOk result (records.new.items ≡ records.old.items ++ map (in_epoch epoch) (map (scram_record name.now) scrams.now)) }
{
    for scram in scrams {
        let item = scram_record(alloc, name, scram)?;
        records.push(EpochRecord { epoch, item })?;
    }
    Ok(())
}

fn push_scrams(
    alloc: Global,
    records: &mut Vec<EpochRecord>,
    epoch: i32,
    users: &Blocks<ScramEntry>,
) -> Result<(), NoMemory>
    ensures { OnOk result (records.new.items ≡ records.old.items ++ map (in_epoch epoch) (flat_map scrams_of_entry users.now)) }
{
    for user in users.items() {
        push_scrams_of(alloc, records, epoch, &user.name, user.scrams.as_slice())?;
    }
    Ok(())
}

fn acl_record(alloc: Global, entry: &AclEntry) -> Result<MetaRecord, NoMemory>
    ensures { IfOk result (λ made. made ≡ record_of_acl entry.now) }
{
    Ok(MetaRecord::AccessControlEntry(AccessControlEntryRecord {
        id: entry.id,
        resource_type: entry.row.kind,
        resource_name: entry.row.name.copy(alloc)?,
        pattern_type: entry.row.pattern,
        principal: entry.row.principal.copy(alloc)?,
        host: entry.row.host.copy(alloc)?,
        operation: entry.row.operation,
        permission: entry.row.permission,
    }))
}

fn push_acls(
    alloc: Global,
    records: &mut Vec<EpochRecord>,
    epoch: i32,
    entries: &Blocks<AclEntry>,
) -> Result<(), NoMemory>
    ensures { OnOk result (records.new.items ≡ records.old.items ++ map (in_epoch epoch) (map record_of_acl entries.now)) }
{
    for entry in entries.items() {
        let item = acl_record(alloc, entry)?;
        records.push(EpochRecord { epoch, item })?;
    }
    Ok(())
}

fn push_producer(
    records: &mut Vec<EpochRecord>,
    epoch: i32,
    next: Option<i64>,
) -> Result<(), NoMemory>
    ensures { OnOk result (records.new.items ≡ records.old.items ++ map (in_epoch epoch) (option_to_list (option_map producer_record next))) }
{
    if let Some(next) = next {
        records.push(EpochRecord {
            epoch,
            item: MetaRecord::ProducerIds(ProducerIdsRecord {
                broker_id: -1,
                broker_epoch: -1,
                next,
            }),
        })?;
    }
    Ok(())
}

fn push_state(records: &mut Vec<EpochRecord>, epoch: i32, state: i8) -> Result<(), NoMemory>
    ensures { OnOk result (records.new.items ≡ records.old.items ++ map (in_epoch epoch) (state_records state)) }
{
    if state != NO_MIGRATION {
        records.push(EpochRecord {
            epoch,
            item: MetaRecord::ZkMigrationState { state },
        })?;
    }
    Ok(())
}

fn push_after_topics(
    alloc: Global,
    records: &mut Vec<EpochRecord>,
    epoch: i32,
    image: &Image,
) -> Result<(), NoMemory>
    ensures { OnOk result (records.new.items ≡ records.old.items ++ map (in_epoch epoch) (records_after_topics image.now)) }
{
    push_topic_configs(alloc, records, epoch, image.topics())?;
    push_broker_configs(alloc, records, epoch, image.broker_configs())?;
    push_quotas(alloc, records, epoch, image.quota_entries())?;
    push_scrams(alloc, records, epoch, image.users())?;
    push_acls(alloc, records, epoch, image.acls())?;
    push_producer(records, epoch, image.next_producer())?;
    push_state(records, epoch, image.state())?;
    Ok(())
}

/// The records of metadata, for a snapshot in this epoch, each with the epoch of its batch: brokers by rising id; topics by rising
/// name, each with its partitions; members of configurations, of topics before brokers; quotas; credentials; access control
/// entries; the next producer id; and the state of the migration.
pub fn records(alloc: Global, image: &Image, epoch: i32) -> Result<Vec<EpochRecord>, NoMemory>
    ensures { IfOk result (λ made. made.items ≡ snapshot_records epoch image.now) }
{
    let mut records = Vec::new(alloc);
    push_brokers(alloc, &mut records, epoch, image.brokers().as_slice())?;
    push_topics(alloc, &mut records, epoch, image.topics())?;
    push_after_topics(alloc, &mut records, epoch, image)?;
    Ok(records)
}
