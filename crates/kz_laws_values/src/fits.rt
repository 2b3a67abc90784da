//! Each record that a program holds fits, where its lengths do: its texts are UTF-8, and its numbers are in their ranges. The
//! functions here are never run: what they go over is what their contracts say.
ghost use Rattle.std.specs.Prelude.{◌≡◌, ◌<◌, ◌^◌, length, option_map, Ok, Some};
ghost use Rattle.std.specs.Int.{w8, w32};
ghost use Rattle.kz_spec_data.specs.Fields.{AreInts, items_with_count};
ghost use Rattle.kz_spec_data.specs.Forms.{AllFit, nullable_ints, plain, text_content, list_of};
ghost use Rattle.kz_spec_data.specs.Records.{Spells, Fits, LengthsFit, bytes_of_record, record_of, int8, int16, uint16, int32, int64, uuid, string, nullable_string, bytes, ints, endpoint, feature, register_broker, topic, partition, config, partition_change, user_scram_credential, quota_entity, quota_entities, client_quota, producer_ids, access_control_entry, id_alone, state_alone, name_and_mechanism, tagged_text, IsShort, IsShortOrNull, IsFew, FieldFits, ShortEndpoint, ShortFeature, ShortEntity, ShortRegistration, ShortPartition, ShortConfig, ShortChange, ShortCredential, ShortQuota, ShortEntry};

use kz_types::{
    AccessControlEntryRecord, ClientQuotaRecord, ConfigRecord, Endpoint, Feature, Id, MetaRecord,
    PartitionChangeRecord, PartitionRecord, ProducerIdsRecord, QuotaEntities, QuotaEntity,
    RegisterBrokerRecord, Sequence, Text, TopicRecord, UserScramCredentialRecord,
};

// ---- fields

fn int8(_number: i8)
    ensures { int8.fits _number }
{}

fn int16(_number: i16)
    ensures { int16.fits _number }
{}

fn uint16(_number: u16)
    ensures { uint16.fits _number }
{}

fn int32(_number: i32)
    ensures { int32.fits _number }
{}

fn int64(_number: i64)
    ensures { int64.fits _number }
{}

fn sixteen(_bytes: &[u8; 16])
    ensures { length _bytes.now ≡ 16 }
{}

fn uuid(id: &Id)
    ensures { uuid.fits id.now }
{
    sixteen(&id.bytes);
}

fn string(text: &Text)
    requires { IsShort text.now }
    ensures { string.fits text.now }
{
    let _ = text.as_str().as_bytes();
}

fn nullable_string(text: &Option<Text>)
    requires { IsShortOrNull text.now }
    ensures { nullable_string.fits text.now }
{
    if let Some(text) = text {
        string(text);
    }
}

fn in_ranges(numbers: &[i32])
    ensures { AreInts numbers.now }
{
    if let [first, rest @ ..] = numbers {
        int32(*first);
        in_ranges(rest);
    }
}

fn ints(list: &Sequence<i32>)
    requires { IsFew list.now }
    ensures { ints.fits list.now }
{
    in_ranges(list.as_slice());
}

// ---- records

fn endpoint(r: &Endpoint)
    requires { ShortEndpoint r.now }
    ensures { endpoint.fits r.now }
{
    string(&r.name);
    string(&r.host);
    uint16(r.port);
    int16(r.protocol);
}

fn endpoints(items: &[Endpoint])
    requires { AllFit ShortEndpoint items.now }
    ensures { AllFit endpoint.fits items.now }
{
    if let [first, rest @ ..] = items {
        endpoint(first);
        endpoints(rest);
    }
}

fn feature(r: &Feature)
    requires { ShortFeature r.now }
    ensures { feature.fits r.now }
{
    string(&r.name);
    int16(r.min);
    int16(r.max);
}

fn features(items: &[Feature])
    requires { AllFit ShortFeature items.now }
    ensures { AllFit feature.fits items.now }
{
    if let [first, rest @ ..] = items {
        feature(first);
        features(rest);
    }
}

fn register_broker(r: &RegisterBrokerRecord)
    requires { ShortRegistration r.now }
    ensures { register_broker.fits r.now }
{
    int32(r.broker_id);
    uuid(&r.incarnation);
    int64(r.broker_epoch);
    endpoints(r.endpoints.as_slice());
    features(r.features.as_slice());
    nullable_string(&r.rack);
}

fn topic(r: &TopicRecord)
    requires { IsShort r.now.name }
    ensures { topic.fits r.now }
{
    string(&r.name);
    uuid(&r.topic_id);
}

fn partition(r: &PartitionRecord)
    requires { ShortPartition r.now }
    ensures { partition.fits r.now }
{
    int32(r.partition_id);
    uuid(&r.topic_id);
    ints(&r.replicas);
    ints(&r.isr);
    ints(&r.removing);
    ints(&r.adding);
    int32(r.leader);
    int32(r.leader_epoch);
    int32(r.partition_epoch);
    int8(r.recovery);
}

fn config(r: &ConfigRecord)
    requires { ShortConfig r.now }
    ensures { config.fits r.now }
{
    int8(r.resource_type);
    string(&r.resource_name);
    string(&r.name);
    nullable_string(&r.value);
}

fn ints_field(list: &Option<Sequence<i32>>)
    requires { FieldFits (plain nullable_ints) list.now }
    ensures { nullable_ints.fits list.now }
{
    if let Some(list) = list {
        ints(list);
    }
}

fn partition_change(r: &PartitionChangeRecord)
    requires { ShortChange r.now }
    ensures { partition_change.fits r.now }
{
    int32(r.partition_id);
    uuid(&r.topic_id);
    ints_field(&r.isr);
    int32(r.leader);
    ints_field(&r.replicas);
    ints_field(&r.removing);
    ints_field(&r.adding);
    int8(r.recovery);
}

fn user_scram_credential(r: &UserScramCredentialRecord)
    requires { ShortCredential r.now }
    ensures { user_scram_credential.fits r.now }
{
    string(&r.name);
    int8(r.mechanism);
    int32(r.iterations);
}

fn quota_entity(r: &QuotaEntity)
    requires { ShortEntity r.now }
    ensures { quota_entity.fits r.now }
{
    string(&r.kind);
    nullable_string(&r.name);
}

fn entities(items: &[QuotaEntity])
    requires { AllFit ShortEntity items.now }
    ensures { AllFit quota_entity.fits items.now }
{
    if let [first, rest @ ..] = items {
        quota_entity(first);
        entities(rest);
    }
}

fn quota_entities(r: &QuotaEntities)
    requires few { IsFew r.now }
    requires each { AllFit ShortEntity r.now }
    ensures { quota_entities.fits r.now }
{
    entities(r.as_slice());
}

fn client_quota(r: &ClientQuotaRecord)
    requires { ShortQuota r.now }
    ensures { client_quota.fits r.now }
{
    quota_entities(&r.entity);
    string(&r.key);
    int64(r.value.whole);
    int32(r.value.micros);
}

fn producer_ids(r: &ProducerIdsRecord)
    ensures { producer_ids.fits r.now }
{
    int32(r.broker_id);
    int64(r.broker_epoch);
    int64(r.next);
}

fn access_control_entry(r: &AccessControlEntryRecord)
    requires { ShortEntry r.now }
    ensures { access_control_entry.fits r.now }
{
    uuid(&r.id);
    int8(r.resource_type);
    string(&r.resource_name);
    int8(r.pattern_type);
    string(&r.principal);
    string(&r.host);
    int8(r.operation);
    int8(r.permission);
}

fn text_field(text: &Option<Text>)
    requires { FieldFits text_content text.now }
    ensures { tagged_text.fits text.now }
{
    if let Some(text) = text {
        string(text);
    }
}

// Every record fits, where its lengths do.
fn record(r: &MetaRecord)
    requires { LengthsFit r.now }
    ensures { Fits r.now }
{
    match r {
        MetaRecord::RegisterBroker(fields) => register_broker(fields),
        MetaRecord::Topic(fields) => topic(fields),
        MetaRecord::Partition(fields) => partition(fields),
        MetaRecord::Config(fields) => config(fields),
        MetaRecord::PartitionChange(fields) => partition_change(fields),
        MetaRecord::RemoveTopic { topic_id } => uuid(topic_id),
        MetaRecord::UserScramCredential(fields) => user_scram_credential(fields),
        MetaRecord::ClientQuota(fields) => client_quota(fields),
        MetaRecord::ProducerIds(fields) => producer_ids(fields),
        MetaRecord::AccessControlEntry(fields) => access_control_entry(fields),
        MetaRecord::RemoveAccessControlEntry { id } => uuid(id),
        MetaRecord::NoOp => {}
        MetaRecord::ZkMigrationState { state } => int8(*state),
        MetaRecord::RemoveUserScramCredential { name, mechanism } => {
            string(name);
            int8(*mechanism);
        }
        MetaRecord::BeginTransaction { name } => text_field(name),
        MetaRecord::EndTransaction => {}
        MetaRecord::AbortTransaction { reason } => text_field(reason),
    }
}

/// What is written for a record that a program holds, whose lengths fit, spells it and is read as it: such a record always fits.
pub fn held_record_is_spelled(r: &MetaRecord)
    requires { LengthsFit r.now }
    ensures fits { Fits r.now }
    ensures spelled { Spells r.now (bytes_of_record r.now) }
    ensures accepted { record_of (bytes_of_record r.now) ≡ Ok r.now }
{
    record(r);
}
