//! Records at the end of bytes.
ghost use Rattle.std.specs.Prelude.{◌≡◌, ◌+◌, ◌<◌, ◌≤◌, ◌^◌, ◌*◌, ◌++◌, length, Some, OnOk, IfOk};
ghost use Rattle.std.specs.Int.{w8, w32};
ghost use Rattle.kz_spec_data.specs.Fields.{uvarint};
ghost use Rattle.kz_spec_data.specs.Forms.{section, nothing, items_written, list_of, AllFit, flag, plain, nullable_ints, text_content, tags_written};
ghost use Rattle.kz_spec_data.specs.Records.{bytes_of_record, head_written, string, nullable_string, bytes, ints, endpoint, feature, register_broker, topic, partition, config, partition_change, partition_tags, change_tags, leader_tag, stated_recovery_tag, ints_tag, user_scram_credential, quota_entity, quota_entities, client_quota, producer_ids, access_control_entry, id_alone, state_alone, name_and_mechanism, no_fields, tagged_text, IsShort, IsShortOrNull, IsFew, FieldFits, ShortEndpoint, ShortFeature, ShortEntity, ShortRegistration, ShortPartition, ShortConfig, ShortChange, ShortCredential, ShortQuota, ShortEntry, LengthsFit};

use kz_bytes::{
    put_byte_field, put_i8, put_i16, put_i32, put_i64, put_id, put_ints, put_nullable_text,
    put_text, put_u16, put_uvarint, uvarint_size,
};
use kz_types::{
    AccessControlEntryRecord, ClientQuotaRecord, ConfigRecord, Endpoint, Feature, Id, MetaRecord,
    NoMemory, PartitionChangeRecord, PartitionRecord, ProducerIdsRecord, QuotaEntity,
    RegisterBrokerRecord, Sequence, Text, TopicRecord, UserScramCredentialRecord,
};
use std::alloc::Global;

fn put_flag(out: &mut Vec<u8>, v: bool) -> Result<(), NoMemory>
    ensures { OnOk result (out.new.items ≡ out.old.items ++ flag.written v) }
{
    out.push(if v { 1 } else { 0 })?;
    Ok(())
}

fn put_string(out: &mut Vec<u8>, v: &Text) -> Result<(), NoMemory>
    requires { IsShort v.now }
    ensures { OnOk result (out.new.items ≡ out.old.items ++ string.written v.now) }
{
    put_text(out, v.bytes())
}

fn put_nullable_string(out: &mut Vec<u8>, v: &Option<Text>) -> Result<(), NoMemory>
    requires { IsShortOrNull v.now }
    ensures { OnOk result (out.new.items ≡ out.old.items ++ nullable_string.written v.now) }
{
    match v {
        Some(text) => put_text(out, text.bytes()),
        None => put_nullable_text(out, None),
    }
}

fn put_list(out: &mut Vec<u8>, v: &Sequence<i32>) -> Result<(), NoMemory>
    requires { IsFew v.now }
    ensures { OnOk result (out.new.items ≡ out.old.items ++ ints.written v.now) }
{
    put_ints(out, Some(v.as_slice()))
}

// A tagged section without a tag.
fn put_no_tags(out: &mut Vec<u8>) -> Result<(), NoMemory>
    ensures { OnOk result (out.new.items ≡ out.old.items ++ (section nothing).written tt) }
{
    put_uvarint(out, 0)
}

fn put_endpoint(out: &mut Vec<u8>, r: &Endpoint) -> Result<(), NoMemory>
    requires { ShortEndpoint r.now }
    ensures { OnOk result (out.new.items ≡ out.old.items ++ endpoint.written r.now) }
{
    put_string(out, &r.name)?;
    put_string(out, &r.host)?;
    put_u16(out, r.port)?;
    put_i16(out, r.protocol)?;
    put_no_tags(out)?;
    Ok(())
}

fn push_endpoints(out: &mut Vec<u8>, items: &[Endpoint]) -> Result<(), NoMemory>
    requires { AllFit ShortEndpoint items.now }
    ensures { OnOk result (out.new.items ≡ out.old.items ++ items_written endpoint.written items.now) }
{
    for item in items {
        put_endpoint(out, item)?;
    }
    Ok(())
}

fn put_endpoints(out: &mut Vec<u8>, items: &[Endpoint]) -> Result<(), NoMemory>
    requires few { IsFew items.now }
    requires each { AllFit ShortEndpoint items.now }
    ensures { OnOk result (out.new.items ≡ out.old.items ++ (list_of endpoint).written items.now) }
{
    put_uvarint(out, items.len() as u32 + 1)?;
    push_endpoints(out, items)
}

fn put_feature(out: &mut Vec<u8>, r: &Feature) -> Result<(), NoMemory>
    requires { ShortFeature r.now }
    ensures { OnOk result (out.new.items ≡ out.old.items ++ feature.written r.now) }
{
    put_string(out, &r.name)?;
    put_i16(out, r.min)?;
    put_i16(out, r.max)?;
    put_no_tags(out)?;
    Ok(())
}

fn push_features(out: &mut Vec<u8>, items: &[Feature]) -> Result<(), NoMemory>
    requires { AllFit ShortFeature items.now }
    ensures { OnOk result (out.new.items ≡ out.old.items ++ items_written feature.written items.now) }
{
    for item in items {
        put_feature(out, item)?;
    }
    Ok(())
}

fn put_features(out: &mut Vec<u8>, items: &[Feature]) -> Result<(), NoMemory>
    requires few { IsFew items.now }
    requires each { AllFit ShortFeature items.now }
    ensures { OnOk result (out.new.items ≡ out.old.items ++ (list_of feature).written items.now) }
{
    put_uvarint(out, items.len() as u32 + 1)?;
    push_features(out, items)
}

fn put_register_broker(out: &mut Vec<u8>, r: &RegisterBrokerRecord) -> Result<(), NoMemory>
    requires { ShortRegistration r.now }
    ensures { OnOk result (out.new.items ≡ out.old.items ++ register_broker.written r.now) }
{
    put_i32(out, r.broker_id)?;
    put_flag(out, r.migrating)?;
    put_id(out, &r.incarnation)?;
    put_i64(out, r.broker_epoch)?;
    put_endpoints(out, r.endpoints.as_slice())?;
    put_features(out, r.features.as_slice())?;
    put_nullable_string(out, &r.rack)?;
    put_flag(out, r.fenced)?;
    put_flag(out, r.in_shutdown)?;
    put_no_tags(out)?;
    Ok(())
}

fn put_topic(out: &mut Vec<u8>, r: &TopicRecord) -> Result<(), NoMemory>
    requires { IsShort r.now.name }
    ensures { OnOk result (out.new.items ≡ out.old.items ++ topic.written r.now) }
{
    put_string(out, &r.name)?;
    put_id(out, &r.topic_id)?;
    put_no_tags(out)?;
    Ok(())
}

// A partition's recovery state, which is left out where it is 0.
fn put_recovery(out: &mut Vec<u8>, state: i8) -> Result<(), NoMemory>
    ensures { OnOk result (out.new.items ≡ out.old.items ++ (section partition_tags).written state) }
{
    if state == 0 {
        return put_uvarint(out, 0);
    }
    put_uvarint(out, 1)?;
    put_uvarint(out, 0)?;
    put_uvarint(out, 1)?;
    put_i8(out, state)
}

fn put_partition(out: &mut Vec<u8>, r: &PartitionRecord) -> Result<(), NoMemory>
    requires { ShortPartition r.now }
    ensures { OnOk result (out.new.items ≡ out.old.items ++ partition.written r.now) }
{
    put_i32(out, r.partition_id)?;
    put_id(out, &r.topic_id)?;
    put_list(out, &r.replicas)?;
    put_list(out, &r.isr)?;
    put_list(out, &r.removing)?;
    put_list(out, &r.adding)?;
    put_i32(out, r.leader)?;
    put_i32(out, r.leader_epoch)?;
    put_i32(out, r.partition_epoch)?;
    put_recovery(out, r.recovery)?;
    Ok(())
}

fn put_config(out: &mut Vec<u8>, r: &ConfigRecord) -> Result<(), NoMemory>
    requires { ShortConfig r.now }
    ensures { OnOk result (out.new.items ≡ out.old.items ++ config.written r.now) }
{
    put_i8(out, r.resource_type)?;
    put_string(out, &r.resource_name)?;
    put_string(out, &r.name)?;
    put_nullable_string(out, &r.value)?;
    put_no_tags(out)?;
    Ok(())
}

fn put_user_scram_credential(
    out: &mut Vec<u8>,
    r: &UserScramCredentialRecord,
) -> Result<(), NoMemory>
    requires { ShortCredential r.now }
    ensures { OnOk result (out.new.items ≡ out.old.items ++ user_scram_credential.written r.now) }
{
    put_string(out, &r.name)?;
    put_i8(out, r.mechanism)?;
    put_byte_field(out, r.salt.as_slice())?;
    put_byte_field(out, r.stored_key.as_slice())?;
    put_byte_field(out, r.server_key.as_slice())?;
    put_i32(out, r.iterations)?;
    put_no_tags(out)?;
    Ok(())
}

fn put_quota_entity(out: &mut Vec<u8>, r: &QuotaEntity) -> Result<(), NoMemory>
    requires { ShortEntity r.now }
    ensures { OnOk result (out.new.items ≡ out.old.items ++ quota_entity.written r.now) }
{
    put_string(out, &r.kind)?;
    put_nullable_string(out, &r.name)?;
    put_no_tags(out)?;
    Ok(())
}

fn push_entities(out: &mut Vec<u8>, items: &[QuotaEntity]) -> Result<(), NoMemory>
    requires { AllFit ShortEntity items.now }
    ensures { OnOk result (out.new.items ≡ out.old.items ++ items_written quota_entity.written items.now) }
{
    for item in items {
        put_quota_entity(out, item)?;
    }
    Ok(())
}

fn put_entities(out: &mut Vec<u8>, items: &[QuotaEntity]) -> Result<(), NoMemory>
    requires few { IsFew items.now }
    requires each { AllFit ShortEntity items.now }
    ensures { OnOk result (out.new.items ≡ out.old.items ++ (list_of quota_entity).written items.now) }
{
    put_uvarint(out, items.len() as u32 + 1)?;
    push_entities(out, items)
}

fn put_client_quota(out: &mut Vec<u8>, r: &ClientQuotaRecord) -> Result<(), NoMemory>
    requires { ShortQuota r.now }
    ensures { OnOk result (out.new.items ≡ out.old.items ++ client_quota.written r.now) }
{
    put_entities(out, r.entity.as_slice())?;
    put_string(out, &r.key)?;
    put_i64(out, r.value.whole)?;
    put_i32(out, r.value.micros)?;
    put_flag(out, r.remove)?;
    put_no_tags(out)?;
    Ok(())
}

fn put_producer_ids(out: &mut Vec<u8>, r: &ProducerIdsRecord) -> Result<(), NoMemory>
    ensures { OnOk result (out.new.items ≡ out.old.items ++ producer_ids.written r.now) }
{
    put_i32(out, r.broker_id)?;
    put_i64(out, r.broker_epoch)?;
    put_i64(out, r.next)?;
    put_no_tags(out)?;
    Ok(())
}

fn put_access_control_entry(out: &mut Vec<u8>, r: &AccessControlEntryRecord) -> Result<(), NoMemory>
    requires { ShortEntry r.now }
    ensures { OnOk result (out.new.items ≡ out.old.items ++ access_control_entry.written r.now) }
{
    put_id(out, &r.id)?;
    put_i8(out, r.resource_type)?;
    put_string(out, &r.resource_name)?;
    put_i8(out, r.pattern_type)?;
    put_string(out, &r.principal)?;
    put_string(out, &r.host)?;
    put_i8(out, r.operation)?;
    put_i8(out, r.permission)?;
    put_no_tags(out)?;
    Ok(())
}

fn put_id_alone(out: &mut Vec<u8>, r: &Id) -> Result<(), NoMemory>
    ensures { OnOk result (out.new.items ≡ out.old.items ++ id_alone.written r.now) }
{
    put_id(out, r)?;
    put_no_tags(out)?;
    Ok(())
}

fn put_state_alone(out: &mut Vec<u8>, r: i8) -> Result<(), NoMemory>
    ensures { OnOk result (out.new.items ≡ out.old.items ++ state_alone.written r) }
{
    put_i8(out, r)?;
    put_no_tags(out)?;
    Ok(())
}

fn put_name_and_mechanism(out: &mut Vec<u8>, name: &Text, mechanism: i8) -> Result<(), NoMemory>
    requires { IsShort name.now }
    ensures { OnOk result (out.new.items ≡ out.old.items ++ name_and_mechanism.written (name.now, mechanism)) }
{
    put_string(out, name)?;
    put_i8(out, mechanism)?;
    put_no_tags(out)?;
    Ok(())
}

// How long a tag's field is that has a count of items plus one, and so many bytes of items.
fn put_field_size(out: &mut Vec<u8>, count: usize, bytes: usize) -> Result<(), NoMemory>
    requires few { count < 2 ^ 32 }
    requires fits { length (uvarint.written (count + 1)) + bytes < 2 ^ 32 }
    ensures { OnOk result (out.new.items ≡ out.old.items ++ uvarint.written (length (uvarint.written (count + 1)) + bytes)) }
{
    put_uvarint(out, uvarint_size(count as u64 + 1) as u32 + bytes as u32)
}

// A text in a tagged section, which is left out where there is none.
fn put_text_tag(out: &mut Vec<u8>, v: &Option<Text>) -> Result<(), NoMemory>
    requires { FieldFits text_content v.now }
    ensures { OnOk result (out.new.items ≡ out.old.items ++ tagged_text.written v.now) }
{
    match v {
        None => put_uvarint(out, 0),
        Some(text) => put_one_text(out, text.bytes()),
    }
}

fn put_one_text(out: &mut Vec<u8>, text: &[u8]) -> Result<(), NoMemory>
    requires { FieldFits text_content (Some text.now) }
    ensures { OnOk result (out.new.items ≡ out.old.items ++ tagged_text.written (Some text.now)) }
{
    put_uvarint(out, 1)?;
    put_uvarint(out, 0)?;
    put_field_size(out, text.len(), text.len())?;
    put_text(out, text)
}

// A tag of a list of numbers, where there is one.
fn put_ints_tag(out: &mut Vec<u8>, number: u32, v: &Option<Sequence<i32>>) -> Result<(), NoMemory>
    requires { FieldFits (plain nullable_ints) v.now }
    ensures { OnOk result (out.new.items ≡ out.old.items ++ tags_written ((ints_tag number).tags v.now)) }
{
    match v {
        None => Ok(()),
        Some(list) => put_one_list(out, number, list),
    }
}

fn put_one_list(out: &mut Vec<u8>, number: u32, list: &Sequence<i32>) -> Result<(), NoMemory>
    requires { FieldFits (plain nullable_ints) (Some list.now) }
    ensures { OnOk result (out.new.items ≡ out.old.items ++ tags_written ((ints_tag number).tags (Some list.now))) }
{
    put_uvarint(out, number)?;
    let count = list.len();
    put_field_size(out, count, 4 * count)?;
    put_list(out, list)?;
    Ok(())
}

// How many tags a list of numbers has: one or none.
fn ints_tag_count(number: u32, v: &Option<Sequence<i32>>) -> u32
    ensures count { result ≡ length ((ints_tag number).tags v.now) }
    ensures bound { result ≤ 1 }
{
    match v {
        None => 0,
        Some(_) => 1,
    }
}

// The tag of a leader, which is left out where it is -2.
fn put_leader_tag(out: &mut Vec<u8>, leader: i32) -> Result<(), NoMemory>
    ensures { OnOk result (out.new.items ≡ out.old.items ++ tags_written (leader_tag.tags leader)) }
{
    if leader == -2 {
        return Ok(());
    }
    put_uvarint(out, 1)?;
    put_uvarint(out, 4)?;
    put_i32(out, leader)
}

fn leader_tag_count(leader: i32) -> u32
    ensures count { result ≡ length (leader_tag.tags leader) }
    ensures bound { result ≤ 1 }
{
    if leader == -2 { 0 } else { 1 }
}

// The tag of a stated recovery state, which is left out where it is -1.
fn put_state_tag(out: &mut Vec<u8>, state: i8) -> Result<(), NoMemory>
    ensures { OnOk result (out.new.items ≡ out.old.items ++ tags_written (stated_recovery_tag.tags state)) }
{
    if state == -1 {
        return Ok(());
    }
    put_uvarint(out, 5)?;
    put_uvarint(out, 1)?;
    put_i8(out, state)
}

fn state_tag_count(state: i8) -> u32
    ensures count { result ≡ length (stated_recovery_tag.tags state) }
    ensures bound { result ≤ 1 }
{
    if state == -1 { 0 } else { 1 }
}

/// How many parts of a change are tagged.
pub fn change_tag_count(r: &PartitionChangeRecord) -> u32
    ensures { result ≡ length (change_tags.tags (r.now.isr, (r.now.leader, (r.now.replicas, (r.now.removing, (r.now.adding, r.now.recovery)))))) }
{
    ints_tag_count(0, &r.isr)
        + leader_tag_count(r.leader)
        + ints_tag_count(2, &r.replicas)
        + ints_tag_count(3, &r.removing)
        + ints_tag_count(4, &r.adding)
        + state_tag_count(r.recovery)
}

fn put_change_tags(out: &mut Vec<u8>, r: &PartitionChangeRecord) -> Result<(), NoMemory>
    requires { ShortChange r.now }
    ensures { OnOk result (out.new.items ≡ out.old.items ++ tags_written (change_tags.tags (r.now.isr, (r.now.leader, (r.now.replicas, (r.now.removing, (r.now.adding, r.now.recovery))))))) }
{
    put_ints_tag(out, 0, &r.isr)?;
    put_leader_tag(out, r.leader)?;
    put_ints_tag(out, 2, &r.replicas)?;
    put_ints_tag(out, 3, &r.removing)?;
    put_ints_tag(out, 4, &r.adding)?;
    put_state_tag(out, r.recovery)?;
    Ok(())
}

fn put_partition_change(out: &mut Vec<u8>, r: &PartitionChangeRecord) -> Result<(), NoMemory>
    requires { ShortChange r.now }
    ensures { OnOk result (out.new.items ≡ out.old.items ++ partition_change.written r.now) }
{
    put_i32(out, r.partition_id)?;
    put_id(out, &r.topic_id)?;
    put_uvarint(out, change_tag_count(r))?;
    put_change_tags(out, r)?;
    Ok(())
}

// The key and the version of a record.
fn put_head(out: &mut Vec<u8>, key: u32, version: u32) -> Result<(), NoMemory>
    ensures { OnOk result (out.new.items ≡ out.old.items ++ head_written key version) }
{
    put_uvarint(out, 1)?;
    put_uvarint(out, key)?;
    put_uvarint(out, version)
}

// Writes a record's key and version, and then its fields.
macro_rules! headed {
    ($out:ident, $key:literal, $version:literal, $put:ident $(, $part:expr)*) => {{
        put_head($out, $key, $version)?;
        $put($out $(, $part)*)
    }};
}

fn put_record(out: &mut Vec<u8>, r: &MetaRecord) -> Result<(), NoMemory>
    requires { LengthsFit r.now }
    ensures { OnOk result (out.new.items ≡ out.old.items ++ bytes_of_record r.now) }
{
    match r {
        MetaRecord::RegisterBroker(record) => headed!(out, 0, 2, put_register_broker, record),
        MetaRecord::Topic(record) => headed!(out, 2, 0, put_topic, record),
        MetaRecord::Partition(record) => headed!(out, 3, 0, put_partition, record),
        MetaRecord::Config(record) => headed!(out, 4, 0, put_config, record),
        MetaRecord::PartitionChange(record) => headed!(out, 5, 0, put_partition_change, record),
        MetaRecord::RemoveTopic { topic_id } => headed!(out, 9, 0, put_id_alone, topic_id),
        MetaRecord::UserScramCredential(record) => headed!(
            out,
            11,
            0,
            put_user_scram_credential,
            record
        ),
        MetaRecord::ClientQuota(record) => headed!(out, 14, 64, put_client_quota, record),
        MetaRecord::ProducerIds(record) => headed!(out, 15, 0, put_producer_ids, record),
        MetaRecord::AccessControlEntry(record) => headed!(
            out,
            18,
            0,
            put_access_control_entry,
            record
        ),
        MetaRecord::RemoveAccessControlEntry { id } => headed!(out, 19, 0, put_id_alone, id),
        MetaRecord::NoOp => headed!(out, 20, 0, put_no_tags),
        MetaRecord::ZkMigrationState { state } => headed!(out, 21, 0, put_state_alone, *state),
        MetaRecord::RemoveUserScramCredential { name, mechanism } => headed!(
            out,
            22,
            0,
            put_name_and_mechanism,
            name,
            *mechanism
        ),
        MetaRecord::BeginTransaction { name } => headed!(out, 23, 0, put_text_tag, name),
        MetaRecord::EndTransaction => headed!(out, 24, 0, put_no_tags),
        MetaRecord::AbortTransaction { reason } => headed!(out, 25, 0, put_text_tag, reason),
    }
}

/// The bytes of a record: its one written spelling, with the fewest bytes for each number and no tag at its default.
///
/// Each length and count has to fit its field.
pub fn write_value(alloc: Global, r: &MetaRecord) -> Result<Vec<u8>, NoMemory>
    requires { LengthsFit r.now }
    ensures { IfOk result (λ bytes. bytes.items ≡ bytes_of_record r.now) }
{
    let mut out = Vec::new(alloc);
    put_record(&mut out, r)?;
    Ok(out)
}
