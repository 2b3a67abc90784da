//! How many bytes a record has.
ghost use Rattle.std.specs.Prelude.{◌≡◌, ◌+◌, ◌*◌, ◌<◌, ◌≤◌, ◌^◌, ◌++◌, length, Some};
ghost use Rattle.kz_spec_data.specs.Fields.{uvarint, groups_of};
ghost use Rattle.kz_spec_data.specs.Forms.{section, nothing, items_written, list_of, nullable_ints, tags_written};
ghost use Rattle.kz_spec_data.specs.Records.{uuid, no_fields, bytes_of_record, head_written, string, nullable_string, bytes, ints, endpoint, feature, register_broker, topic, partition, config, partition_change, partition_tags, change_tags, leader_tag, stated_recovery_tag, ints_tag, user_scram_credential, quota_entity, quota_entities, client_quota, producer_ids, access_control_entry, id_alone, state_alone, name_and_mechanism, tagged_text};

use crate::write::change_tag_count;
use kz_bytes::uvarint_size;
use kz_types::{
    AccessControlEntryRecord, ClientQuotaRecord, ConfigRecord, Endpoint, Feature, Id, MetaRecord,
    PartitionChangeRecord, PartitionRecord, ProducerIdsRecord, QuotaEntity, RegisterBrokerRecord,
    Sequence, Text, TopicRecord, UserScramCredentialRecord,
};

// A count plus one, as a number of variable size.
fn count_size(count: usize) -> u128
    requires { count < 2 ^ 63 }
    ensures size { result ≡ length (uvarint.written (count + 1)) }
    ensures bound { result ≤ 10 }
{
    uvarint_size(count as u64 + 1) as u128
}

// A count of bytes, and the bytes.
fn bytes_size(v: &[u8]) -> u128
    ensures size { result ≡ length (bytes.written v.now) }
    ensures bound { result ≤ 2 ^ 63 + 10 }
{
    count_size(v.len()) + v.len() as u128
}

fn id_size(id: &Id) -> u128
    ensures size { result ≡ length (uuid.written id.now) }
    ensures bound { result ≤ 2 ^ 63 }
{
    let bytes: &[u8] = &id.bytes;
    bytes.len() as u128
}

fn string_size(v: &Text) -> u128
    ensures size { result ≡ length (string.written v.now) }
    ensures bound { result ≤ 2 ^ 63 + 10 }
{
    bytes_size(v.bytes())
}

fn nullable_string_size(v: &Option<Text>) -> u128
    ensures size { result ≡ length (nullable_string.written v.now) }
    ensures bound { result ≤ 2 ^ 63 + 10 }
{
    match v {
        Some(text) => string_size(text),
        None => 1,
    }
}

fn ints_size(v: &Sequence<i32>) -> u128
    ensures size { result ≡ length (ints.written v.now) }
    ensures bound { result ≤ 2 ^ 65 + 10 }
{
    count_size(v.as_slice().len()) + 4 * v.as_slice().len() as u128
}

fn endpoint_size(r: &Endpoint) -> u128
    ensures size { result ≡ length (endpoint.written r.now) }
    ensures bound { result ≤ 2 ^ 64 + 25 }
{
    string_size(&r.name) + string_size(&r.host) + 5
}

// The bytes of items, without their count.
fn all_endpoints_size(items: &[Endpoint]) -> u128
    ensures size { result ≡ length (items_written endpoint.written items.now) }
    ensures bound { result ≤ length items.now * (2 ^ 64 + 25) }
{
    let mut size: u128 = 0;
    for item in items {
        size += endpoint_size(item);
    }
    size
}

fn endpoints_size(items: &[Endpoint]) -> u128
    ensures size { result ≡ length ((list_of endpoint).written items.now) }
    ensures bound { result ≤ 10 + 2 ^ 63 * (2 ^ 64 + 25) }
{
    count_size(items.len()) + all_endpoints_size(items)
}

fn feature_size(r: &Feature) -> u128
    ensures size { result ≡ length (feature.written r.now) }
    ensures bound { result ≤ 2 ^ 63 + 15 }
{
    string_size(&r.name) + 5
}

// The bytes of items, without their count.
fn all_features_size(items: &[Feature]) -> u128
    ensures size { result ≡ length (items_written feature.written items.now) }
    ensures bound { result ≤ length items.now * (2 ^ 63 + 15) }
{
    let mut size: u128 = 0;
    for item in items {
        size += feature_size(item);
    }
    size
}

fn features_size(items: &[Feature]) -> u128
    ensures size { result ≡ length ((list_of feature).written items.now) }
    ensures bound { result ≤ 10 + 2 ^ 63 * (2 ^ 63 + 15) }
{
    count_size(items.len()) + all_features_size(items)
}

fn register_broker_size(r: &RegisterBrokerRecord) -> u128
    ensures size { result ≡ length (register_broker.written r.now) }
    ensures bound { result ≤ 2 ^ 127 + 2 ^ 126 + 2 ^ 70 }
{
    endpoints_size(r.endpoints.as_slice())
        + features_size(r.features.as_slice())
        + nullable_string_size(&r.rack)
        + id_size(&r.incarnation)
        + 16
}

fn topic_size(r: &TopicRecord) -> u128
    ensures size { result ≡ length (topic.written r.now) }
    ensures bound { result ≤ 2 ^ 65 }
{
    string_size(&r.name) + id_size(&r.topic_id) + 1
}

#[tactic(auto, unfolding(kz_spec_data::specs::Fields::groups_of))]
fn recovery_size(state: i8) -> u128
    ensures size { result ≡ length ((section partition_tags).written state) }
    ensures bound { result ≤ 4 }
{
    if state == 0 { 1 } else { 4 }
}

fn partition_size(r: &PartitionRecord) -> u128
    ensures size { result ≡ length (partition.written r.now) }
    ensures bound { result ≤ 2 ^ 68 }
{
    ints_size(&r.replicas)
        + ints_size(&r.isr)
        + ints_size(&r.removing)
        + ints_size(&r.adding)
        + recovery_size(r.recovery)
        + id_size(&r.topic_id)
        + 16
}

fn config_size(r: &ConfigRecord) -> u128
    ensures size { result ≡ length (config.written r.now) }
    ensures bound { result ≤ 2 ^ 66 }
{
    string_size(&r.resource_name) + string_size(&r.name) + nullable_string_size(&r.value) + 2
}

fn user_scram_credential_size(r: &UserScramCredentialRecord) -> u128
    ensures size { result ≡ length (user_scram_credential.written r.now) }
    ensures bound { result ≤ 2 ^ 66 }
{
    string_size(&r.name)
        + bytes_size(r.salt.as_slice())
        + bytes_size(r.stored_key.as_slice())
        + bytes_size(r.server_key.as_slice())
        + 6
}

fn quota_entity_size(r: &QuotaEntity) -> u128
    ensures size { result ≡ length (quota_entity.written r.now) }
    ensures bound { result ≤ 2 ^ 64 + 21 }
{
    string_size(&r.kind) + nullable_string_size(&r.name) + 1
}

// The bytes of items, without their count.
fn all_entities_size(items: &[QuotaEntity]) -> u128
    ensures size { result ≡ length (items_written quota_entity.written items.now) }
    ensures bound { result ≤ length items.now * (2 ^ 64 + 21) }
{
    let mut size: u128 = 0;
    for item in items {
        size += quota_entity_size(item);
    }
    size
}

fn entities_size(items: &[QuotaEntity]) -> u128
    ensures size { result ≡ length ((list_of quota_entity).written items.now) }
    ensures bound { result ≤ 10 + 2 ^ 63 * (2 ^ 64 + 21) }
{
    count_size(items.len()) + all_entities_size(items)
}

fn client_quota_size(r: &ClientQuotaRecord) -> u128
    ensures size { result ≡ length (client_quota.written r.now) }
    ensures bound { result ≤ 2 ^ 127 + 2 ^ 70 }
{
    entities_size(r.entity.as_slice()) + string_size(&r.key) + 14
}

fn access_control_entry_size(r: &AccessControlEntryRecord) -> u128
    ensures size { result ≡ length (access_control_entry.written r.now) }
    ensures bound { result ≤ 2 ^ 66 }
{
    string_size(&r.resource_name)
        + string_size(&r.principal)
        + string_size(&r.host)
        + id_size(&r.id)
        + 5
}

fn name_and_mechanism_size(name: &Text, mechanism: i8) -> u128
    ensures size { result ≡ length (name_and_mechanism.written (name.now, mechanism)) }
    ensures bound { result ≤ 2 ^ 64 }
{
    string_size(name) + 2
}

// How many bytes a number has, of which at most `more` stand before the last.
#[tactic(auto, unfolding(kz_spec_data::specs::Fields::groups_of))]
fn number_size(number: u128, more: u8) -> u128
    ensures size { result ≡ length (groups_of more number) }
    ensures bound { result ≤ more + 1 }
{
    if more == 0 || number < 128 {
        return 1;
    }
    1 + number_size(number / 128, more - 1)
}

// The length of a tag's field, as a number of variable size, and the field.
fn field_size(bytes: u128) -> u128
    requires { bytes < 2 ^ 127 }
    ensures size { result ≡ length (uvarint.written bytes) + bytes }
    ensures bound { result ≤ bytes + 10 }
{
    number_size(bytes, 9) + bytes
}

fn tagged_text_size(v: &Option<Text>) -> u128
    ensures size { result ≡ length (tagged_text.written v.now) }
    ensures bound { result ≤ 2 ^ 64 }
{
    match v {
        None => no_tags_size(),
        Some(text) => 2 + field_size(string_size(text)),
    }
}

// An empty tagged section.
#[tactic(auto, unfolding(kz_spec_data::specs::Fields::groups_of))]
fn no_tags_size() -> u128
    ensures size { result ≡ length ((section nothing).written tt) }
    ensures one { result ≡ 1 }
{
    1
}

// The tag of a list of numbers, where there is one.
fn ints_tag_size(number: u32, v: &Option<Sequence<i32>>) -> u128
    ensures size { result ≡ length (tags_written ((ints_tag number).tags v.now)) }
    ensures bound { result ≤ 2 ^ 66 }
{
    match v {
        None => 0,
        Some(list) => list_tag_size(number, list),
    }
}

fn list_tag_size(number: u32, list: &Sequence<i32>) -> u128
    ensures size { result ≡ length (tags_written ((ints_tag number).tags (Some list.now))) }
    ensures bound { result ≤ 2 ^ 65 + 30 }
{
    uvarint_size(number as u64) as u128 + field_size(ints_size(list))
}

#[tactic(auto, unfolding(kz_spec_data::specs::Fields::groups_of))]
fn leader_tag_size(leader: i32) -> u128
    ensures size { result ≡ length (tags_written (leader_tag.tags leader)) }
    ensures bound { result ≤ 6 }
{
    if leader == -2 { 0 } else { 6 }
}

#[tactic(auto, unfolding(kz_spec_data::specs::Fields::groups_of))]
fn state_tag_size(state: i8) -> u128
    ensures size { result ≡ length (tags_written (stated_recovery_tag.tags state)) }
    ensures bound { result ≤ 3 }
{
    if state == -1 { 0 } else { 3 }
}

fn change_tags_size(r: &PartitionChangeRecord) -> u128
    ensures size { result ≡ length (tags_written (change_tags.tags (r.now.isr, (r.now.leader, (r.now.replicas, (r.now.removing, (r.now.adding, r.now.recovery))))))) }
    ensures bound { result ≤ 2 ^ 69 }
{
    ints_tag_size(0, &r.isr)
        + leader_tag_size(r.leader)
        + ints_tag_size(2, &r.replicas)
        + ints_tag_size(3, &r.removing)
        + ints_tag_size(4, &r.adding)
        + state_tag_size(r.recovery)
}

fn partition_change_size(r: &PartitionChangeRecord) -> u128
    ensures size { result ≡ length (partition_change.written r.now) }
    ensures bound { result ≤ 2 ^ 70 }
{
    let count = uvarint_size(change_tag_count(r) as u64) as u128;
    id_size(&r.topic_id) + count + change_tags_size(r) + 4
}

// The key and the version of a record.
fn head_size(key: u32, version: u32) -> u128
    ensures size { result ≡ length (head_written key version) }
    ensures bound { result ≤ 30 }
{
    uvarint_size(1) as u128
        + uvarint_size(key as u64) as u128
        + uvarint_size(version as u64) as u128
}

/// How many bytes `write_value` would write for a record, whether or not its lengths fit their fields.
pub fn value_size(r: &MetaRecord) -> u128
    ensures { result ≡ length (bytes_of_record r.now) }
{
    match r {
        MetaRecord::RegisterBroker(record) => head_size(0, 2) + register_broker_size(record),
        MetaRecord::Topic(record) => head_size(2, 0) + topic_size(record),
        MetaRecord::Partition(record) => head_size(3, 0) + partition_size(record),
        MetaRecord::Config(record) => head_size(4, 0) + config_size(record),
        MetaRecord::PartitionChange(record) => head_size(5, 0) + partition_change_size(record),
        MetaRecord::RemoveTopic { topic_id } => head_size(9, 0) + id_alone_size(topic_id),
        MetaRecord::UserScramCredential(record) => head_size(11, 0)
            + user_scram_credential_size(record),
        MetaRecord::ClientQuota(record) => head_size(14, 64) + client_quota_size(record),
        MetaRecord::ProducerIds(record) => head_size(15, 0) + producer_ids_size(record),
        MetaRecord::AccessControlEntry(record) => head_size(18, 0)
            + access_control_entry_size(record),
        MetaRecord::RemoveAccessControlEntry { id } => head_size(19, 0) + id_alone_size(id),
        MetaRecord::NoOp => head_size(20, 0) + no_tags_size(),
        MetaRecord::ZkMigrationState { state } => head_size(21, 0) + state_alone_size(*state),
        MetaRecord::RemoveUserScramCredential { name, mechanism } => head_size(22, 0)
            + name_and_mechanism_size(name, *mechanism),
        MetaRecord::BeginTransaction { name } => head_size(23, 0) + tagged_text_size(name),
        MetaRecord::EndTransaction => head_size(24, 0) + no_tags_size(),
        MetaRecord::AbortTransaction { reason } => head_size(25, 0) + tagged_text_size(reason),
    }
}

fn id_alone_size(id: &Id) -> u128
    ensures size { result ≡ length (id_alone.written id.now) }
    ensures bound { result ≤ 2 ^ 64 }
{
    id_size(id) + no_tags_size()
}

fn state_alone_size(state: i8) -> u128
    ensures size { result ≡ length (state_alone.written state) }
    ensures bound { result ≤ 2 }
{
    1 + no_tags_size()
}

fn producer_ids_size(r: &ProducerIdsRecord) -> u128
    ensures size { result ≡ length (producer_ids.written r.now) }
    ensures bound { result ≤ 21 }
{
    20 + no_tags_size()
}
