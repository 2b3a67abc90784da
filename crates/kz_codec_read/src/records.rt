//! The records: their fields in order.
ghost use Rattle.std.specs.Prelude.{◌≡◌, ◌-◌, ◌<◌, ◌^◌};
ghost use Rattle.kz_spec_data.specs.Forms.{items_at, list_of};
ghost use Rattle.kz_spec_data.specs.Records.{Gives, endpoint, feature, register_broker, topic, partition, config, partition_change, user_scram_credential, quota_entity, quota_entities, client_quota, producer_ids, access_control_entry, id_alone, state_alone, name_and_mechanism, no_fields};

use crate::fields::{
    bytes, flag, int8, int16, int32, int64, ints, nullable_string, string, uint16, uuid, uvarint,
};
use crate::tags::{change_parts, no_tags, recovery_tag};
use kz_bytes::Reader;
use kz_types::{
    AccessControlEntryRecord, ClientQuotaRecord, CodecFault, ConfigRecord, Endpoint, Feature, Id,
    PartitionChangeRecord, PartitionRecord, ProducerIdsRecord, QuotaEntities, QuotaEntity,
    QuotaValue, RegisterBrokerRecord, Sequence, Text, TopicRecord, UserScramCredentialRecord,
};
use std::alloc::Global;

/// An endpoint of a broker, with its tagged section.
pub fn read_endpoint(alloc: Global, reader: &mut Reader) -> Result<Endpoint, CodecFault>
    ensures { Gives (λ x. (x, reader.new)) result (endpoint.read reader.old) }
{
    let name = string(alloc, reader)?;
    let host = string(alloc, reader)?;
    let port = uint16(reader)?;
    let protocol = int16(reader)?;
    no_tags(reader)?;
    Ok(Endpoint {
        name,
        host,
        port,
        protocol,
    })
}

// So many items.
fn read_endpoints(
    alloc: Global,
    reader: &mut Reader,
    count: u32,
) -> Result<Sequence<Endpoint>, CodecFault>
    ensures { Gives (λ x. (x, reader.new)) result (items_at endpoint.read count reader.old) }
{
    let mut items = Vec::new(alloc);
    for _ in 0..count {
        let item = read_endpoint(alloc, reader)?;
        let Ok(()) = items.push(item) else {
            return Err(CodecFault::NoMemory);
        };
    }
    Ok(Sequence::from_vec(items))
}

fn endpoints(alloc: Global, reader: &mut Reader) -> Result<Sequence<Endpoint>, CodecFault>
    ensures { Gives (λ x. (x, reader.new)) result ((list_of endpoint).read reader.old) }
{
    let at = reader.at();
    let count = uvarint(reader)?;
    if count == 0 {
        return Err(CodecFault::BadField { at });
    }
    read_endpoints(alloc, reader, count - 1)
}

/// A feature of a broker, with its tagged section.
pub fn read_feature(alloc: Global, reader: &mut Reader) -> Result<Feature, CodecFault>
    ensures { Gives (λ x. (x, reader.new)) result (feature.read reader.old) }
{
    let name = string(alloc, reader)?;
    let min = int16(reader)?;
    let max = int16(reader)?;
    no_tags(reader)?;
    Ok(Feature { name, min, max })
}

// So many items.
fn read_features(
    alloc: Global,
    reader: &mut Reader,
    count: u32,
) -> Result<Sequence<Feature>, CodecFault>
    ensures { Gives (λ x. (x, reader.new)) result (items_at feature.read count reader.old) }
{
    let mut items = Vec::new(alloc);
    for _ in 0..count {
        let item = read_feature(alloc, reader)?;
        let Ok(()) = items.push(item) else {
            return Err(CodecFault::NoMemory);
        };
    }
    Ok(Sequence::from_vec(items))
}

fn features(alloc: Global, reader: &mut Reader) -> Result<Sequence<Feature>, CodecFault>
    ensures { Gives (λ x. (x, reader.new)) result ((list_of feature).read reader.old) }
{
    let at = reader.at();
    let count = uvarint(reader)?;
    if count == 0 {
        return Err(CodecFault::BadField { at });
    }
    read_features(alloc, reader, count - 1)
}

/// The fields of RegisterBrokerRecord.
pub fn read_register_broker(
    alloc: Global,
    reader: &mut Reader,
) -> Result<RegisterBrokerRecord, CodecFault>
    ensures { Gives (λ x. (x, reader.new)) result (register_broker.read reader.old) }
{
    let broker_id = int32(reader)?;
    let migrating = flag(reader)?;
    let incarnation = uuid(reader)?;
    let broker_epoch = int64(reader)?;
    let endpoints = endpoints(alloc, reader)?;
    let features = features(alloc, reader)?;
    let rack = nullable_string(alloc, reader)?;
    let fenced = flag(reader)?;
    let in_shutdown = flag(reader)?;
    no_tags(reader)?;
    Ok(RegisterBrokerRecord {
        broker_id,
        migrating,
        incarnation,
        broker_epoch,
        endpoints,
        features,
        rack,
        fenced,
        in_shutdown,
    })
}

/// The fields of TopicRecord.
pub fn read_topic(alloc: Global, reader: &mut Reader) -> Result<TopicRecord, CodecFault>
    ensures { Gives (λ x. (x, reader.new)) result (topic.read reader.old) }
{
    let name = string(alloc, reader)?;
    let topic_id = uuid(reader)?;
    no_tags(reader)?;
    Ok(TopicRecord { name, topic_id })
}

/// The fields of PartitionRecord.
pub fn read_partition(alloc: Global, reader: &mut Reader) -> Result<PartitionRecord, CodecFault>
    ensures { Gives (λ x. (x, reader.new)) result (partition.read reader.old) }
{
    let partition_id = int32(reader)?;
    let topic_id = uuid(reader)?;
    let replicas = ints(alloc, reader)?;
    let isr = ints(alloc, reader)?;
    let removing = ints(alloc, reader)?;
    let adding = ints(alloc, reader)?;
    let leader = int32(reader)?;
    let leader_epoch = int32(reader)?;
    let partition_epoch = int32(reader)?;
    let recovery = recovery_tag(reader)?;
    Ok(PartitionRecord {
        partition_id,
        topic_id,
        replicas,
        isr,
        removing,
        adding,
        leader,
        leader_epoch,
        partition_epoch,
        recovery,
    })
}

/// The fields of ConfigRecord.
pub fn read_config(alloc: Global, reader: &mut Reader) -> Result<ConfigRecord, CodecFault>
    ensures { Gives (λ x. (x, reader.new)) result (config.read reader.old) }
{
    let resource_type = int8(reader)?;
    let resource_name = string(alloc, reader)?;
    let name = string(alloc, reader)?;
    let value = nullable_string(alloc, reader)?;
    no_tags(reader)?;
    Ok(ConfigRecord {
        resource_type,
        resource_name,
        name,
        value,
    })
}

/// The fields of PartitionChangeRecord.
pub fn read_partition_change(
    alloc: Global,
    reader: &mut Reader,
) -> Result<PartitionChangeRecord, CodecFault>
    ensures { Gives (λ x. (x, reader.new)) result (partition_change.read reader.old) }
{
    let partition_id = int32(reader)?;
    let topic_id = uuid(reader)?;
    let parts = change_parts(alloc, reader)?;
    Ok(PartitionChangeRecord {
        partition_id,
        topic_id,
        isr: parts.isr,
        leader: parts.leader,
        replicas: parts.replicas,
        removing: parts.removing,
        adding: parts.adding,
        recovery: parts.recovery,
    })
}

/// The fields of UserScramCredentialRecord.
pub fn read_user_scram_credential(
    alloc: Global,
    reader: &mut Reader,
) -> Result<UserScramCredentialRecord, CodecFault>
    ensures { Gives (λ x. (x, reader.new)) result (user_scram_credential.read reader.old) }
{
    let name = string(alloc, reader)?;
    let mechanism = int8(reader)?;
    let salt = bytes(alloc, reader)?;
    let stored_key = bytes(alloc, reader)?;
    let server_key = bytes(alloc, reader)?;
    let iterations = int32(reader)?;
    no_tags(reader)?;
    Ok(UserScramCredentialRecord {
        name,
        mechanism,
        salt,
        stored_key,
        server_key,
        iterations,
    })
}

/// An entity of a quota, with its tagged section.
pub fn read_quota_entity(alloc: Global, reader: &mut Reader) -> Result<QuotaEntity, CodecFault>
    ensures { Gives (λ x. (x, reader.new)) result (quota_entity.read reader.old) }
{
    let kind = string(alloc, reader)?;
    let name = nullable_string(alloc, reader)?;
    no_tags(reader)?;
    Ok(QuotaEntity { kind, name })
}

// So many items.
fn read_entities(
    alloc: Global,
    reader: &mut Reader,
    count: u32,
) -> Result<Sequence<QuotaEntity>, CodecFault>
    ensures { Gives (λ x. (x, reader.new)) result (items_at quota_entity.read count reader.old) }
{
    let mut items = Vec::new(alloc);
    for _ in 0..count {
        let item = read_quota_entity(alloc, reader)?;
        let Ok(()) = items.push(item) else {
            return Err(CodecFault::NoMemory);
        };
    }
    Ok(Sequence::from_vec(items))
}

fn entities_in_order(
    alloc: Global,
    reader: &mut Reader,
) -> Result<Sequence<QuotaEntity>, CodecFault>
    ensures { Gives (λ x. (x, reader.new)) result ((list_of quota_entity).read reader.old) }
{
    let at = reader.at();
    let count = uvarint(reader)?;
    if count == 0 {
        return Err(CodecFault::BadField { at });
    }
    read_entities(alloc, reader, count - 1)
}

fn entities(alloc: Global, reader: &mut Reader) -> Result<QuotaEntities, CodecFault>
    ensures { Gives (λ x. (x, reader.new)) result (quota_entities.read reader.old) }
{
    let parts = entities_in_order(alloc, reader)?;
    Ok(QuotaEntities::from_vec(parts.into_vec()))
}

/// The fields of ClientQuotaRecord.
pub fn read_client_quota(
    alloc: Global,
    reader: &mut Reader,
) -> Result<ClientQuotaRecord, CodecFault>
    ensures { Gives (λ x. (x, reader.new)) result (client_quota.read reader.old) }
{
    let entity = entities(alloc, reader)?;
    let key = string(alloc, reader)?;
    let whole = int64(reader)?;
    let micros = int32(reader)?;
    let remove = flag(reader)?;
    no_tags(reader)?;
    Ok(ClientQuotaRecord {
        entity,
        key,
        value: QuotaValue { whole, micros },
        remove,
    })
}

/// The fields of ProducerIdsRecord.
pub fn read_producer_ids(reader: &mut Reader) -> Result<ProducerIdsRecord, CodecFault>
    ensures { Gives (λ x. (x, reader.new)) result (producer_ids.read reader.old) }
{
    let broker_id = int32(reader)?;
    let broker_epoch = int64(reader)?;
    let next = int64(reader)?;
    no_tags(reader)?;
    Ok(ProducerIdsRecord {
        broker_id,
        broker_epoch,
        next,
    })
}

/// The fields of AccessControlEntryRecord.
pub fn read_access_control_entry(
    alloc: Global,
    reader: &mut Reader,
) -> Result<AccessControlEntryRecord, CodecFault>
    ensures { Gives (λ x. (x, reader.new)) result (access_control_entry.read reader.old) }
{
    let id = uuid(reader)?;
    let resource_type = int8(reader)?;
    let resource_name = string(alloc, reader)?;
    let pattern_type = int8(reader)?;
    let principal = string(alloc, reader)?;
    let host = string(alloc, reader)?;
    let operation = int8(reader)?;
    let permission = int8(reader)?;
    no_tags(reader)?;
    Ok(AccessControlEntryRecord {
        id,
        resource_type,
        resource_name,
        pattern_type,
        principal,
        host,
        operation,
        permission,
    })
}

/// The one id of a record that has no other field.
pub fn read_id_alone(reader: &mut Reader) -> Result<Id, CodecFault>
    ensures { Gives (λ x. (x, reader.new)) result (id_alone.read reader.old) }
{
    let id = uuid(reader)?;
    no_tags(reader)?;
    Ok(id)
}

/// The one state of ZkMigrationStateRecord.
pub fn read_state_alone(reader: &mut Reader) -> Result<i8, CodecFault>
    ensures { Gives (λ x. (x, reader.new)) result (state_alone.read reader.old) }
{
    let state = int8(reader)?;
    no_tags(reader)?;
    Ok(state)
}

/// The fields of RemoveUserScramCredentialRecord.
pub fn read_name_and_mechanism(alloc: Global, reader: &mut Reader) -> Result<(Text, i8), CodecFault>
    ensures { Gives (λ x. (x, reader.new)) result (name_and_mechanism.read reader.old) }
{
    let name = string(alloc, reader)?;
    let mechanism = int8(reader)?;
    no_tags(reader)?;
    Ok((name, mechanism))
}
