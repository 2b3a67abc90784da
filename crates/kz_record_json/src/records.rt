//! Records of the metadata log, as a script writes them.
ghost use Rattle.std.specs.Prelude.{◌≡◌, IfOk, Some, None, Err};
ghost use Rattle.serde_json.specs.View.{view, members_view};
ghost use Rattle.kz_spec_data.specs.Json.{by_name};
ghost use Rattle.kz_spec_data.specs.RecordLines.{log_forms, user_forms, topic_forms, record_forms, record_of};
ghost use Rattle.kz_spec_data.specs.WrittenRecords.{members_of_record, record_data};

use crate::brokers::{
    config_members, config_of, producer_ids_members, producer_ids_of, register_broker_members,
    register_broker_of,
};
use crate::entries::{
    access_control_entry_members, access_control_entry_of, remove_access_control_entry_members,
    remove_access_control_entry_of,
};
use crate::fault::LineFault;
use crate::topics::{
    partition_change_members, partition_change_of, partition_members, partition_of,
    remove_topic_members, remove_topic_of, topic_members, topic_of,
};
use crate::transactions::{
    abort_transaction_members, abort_transaction_of, begin_transaction_members,
    begin_transaction_of, end_transaction_of, no_op_of, zk_migration_state_members,
    zk_migration_state_of,
};
use crate::users::{
    client_quota_members, client_quota_of, remove_user_scram_credential_members,
    remove_user_scram_credential_of, user_scram_credential_members, user_scram_credential_of,
};
use kz_record_fields::{kind_member, text_member};
use kz_types::{MetaRecord, NoMemory};
use serde_json::{Map, Value};
use std::alloc::Global;

// The record of this name that a value is, of those of the migration and of transactions.
#[tactic(auto, unfolding(kz_spec_data::specs::RecordLines::log_forms))]
fn log_record_of(alloc: Global, kind: &str, value: &Value) -> Result<Option<MetaRecord>, NoMemory>
    ensures { IfOk result (λ made. made ≡ by_name log_forms kind.now (view value.now)) }
{
    match kind {
        "NoOp" => Ok(no_op_of(value)),
        "ZkMigrationState" => Ok(zk_migration_state_of(value)),
        "BeginTransaction" => begin_transaction_of(alloc, value),
        "EndTransaction" => Ok(end_transaction_of(value)),
        "AbortTransaction" => abort_transaction_of(alloc, value),
        _ => Ok(None),
    }
}

// The same, also of those of users and clients.
#[tactic(auto, unfolding(kz_spec_data::specs::RecordLines::user_forms))]
fn user_record_of(alloc: Global, kind: &str, value: &Value) -> Result<Option<MetaRecord>, NoMemory>
    ensures { IfOk result (λ made. made ≡ by_name user_forms kind.now (view value.now)) }
{
    match kind {
        "UserScramCredential" => user_scram_credential_of(alloc, value),
        "ClientQuota" => client_quota_of(alloc, value),
        "AccessControlEntry" => access_control_entry_of(alloc, value),
        "RemoveAccessControlEntry" => Ok(remove_access_control_entry_of(value)),
        "RemoveUserScramCredential" => remove_user_scram_credential_of(alloc, value),
        _ => log_record_of(alloc, kind, value),
    }
}

// The same, also of those of topics.
#[tactic(auto, unfolding(kz_spec_data::specs::RecordLines::topic_forms))]
fn topic_record_of(alloc: Global, kind: &str, value: &Value) -> Result<Option<MetaRecord>, NoMemory>
    ensures { IfOk result (λ made. made ≡ by_name topic_forms kind.now (view value.now)) }
{
    match kind {
        "Topic" => topic_of(alloc, value),
        "Partition" => partition_of(alloc, value),
        "PartitionChange" => partition_change_of(alloc, value),
        "RemoveTopic" => Ok(remove_topic_of(value)),
        _ => user_record_of(alloc, kind, value),
    }
}

// The record of this name that a value is, or `None` where it is none.
fn named_record_of(alloc: Global, kind: &str, value: &Value) -> Result<Option<MetaRecord>, NoMemory>
    ensures { IfOk result (λ made. made ≡ by_name record_forms kind.now (view value.now)) }
{
    match kind {
        "RegisterBroker" => register_broker_of(alloc, value),
        "Config" => config_of(alloc, value),
        "ProducerIds" => Ok(producer_ids_of(value)),
        _ => topic_record_of(alloc, kind, value),
    }
}

/// The record that a JSON value is, or `None` where it is none.
#[tactic(auto, unfolding(kz_spec_data::specs::RecordLines::record_of))]
pub fn record_of(alloc: Global, value: &Value) -> Result<Option<MetaRecord>, NoMemory>
    ensures { IfOk result (λ made. made ≡ record_of (view value.now)) }
{
    match text_member(value, "kind") {
        Some(kind) => named_record_of(alloc, kind, value),
        None => Ok(None),
    }
}

/// The record that a JSON value is, as lines have records: an object with the record's name as `kind` and exactly its
/// fields (KIP-631, KIP-868, KIP-866), of which tagged ones may be absent, which is their default.
///
/// `BadLine`: it is none. `NoMemory`: memory ran out.
pub fn read_item(alloc: Global, value: &Value) -> Result<MetaRecord, LineFault>
    ensures ok { IfOk result (λ item. record_of (view value.now) ≡ Some item) }
    ensures bad { result ≡ Err LineFault.BadLine → record_of (view value.now) ≡ None }
{
    match record_of(alloc, value) {
        Ok(Some(item)) => Ok(item),
        Ok(None) => Err(LineFault::BadLine),
        Err(NoMemory) => Err(LineFault::NoMemory),
    }
}

fn members_of_record(alloc: Global, item: &MetaRecord) -> Result<Map<String, Value>, NoMemory>
    ensures { IfOk result (λ members. members_view members.entries ≡ members_of_record item.now) }
{
    match item {
        MetaRecord::RegisterBroker(broker) => register_broker_members(alloc, broker),
        MetaRecord::Topic(topic) => topic_members(alloc, topic),
        MetaRecord::Partition(partition) => partition_members(alloc, partition),
        MetaRecord::Config(config) => config_members(alloc, config),
        MetaRecord::PartitionChange(change) => partition_change_members(alloc, change),
        MetaRecord::RemoveTopic { topic_id } => remove_topic_members(alloc, topic_id),
        MetaRecord::UserScramCredential(credential) => user_scram_credential_members(
            alloc, credential,
        ),
        MetaRecord::ClientQuota(quota) => client_quota_members(alloc, quota),
        MetaRecord::ProducerIds(ids) => producer_ids_members(alloc, ids),
        MetaRecord::AccessControlEntry(entry) => access_control_entry_members(alloc, entry),
        MetaRecord::RemoveAccessControlEntry { id } => remove_access_control_entry_members(
            alloc, id,
        ),
        MetaRecord::NoOp => kind_member(alloc, "NoOp"),
        MetaRecord::ZkMigrationState { state } => zk_migration_state_members(alloc, *state),
        MetaRecord::RemoveUserScramCredential { name, mechanism } => {
            remove_user_scram_credential_members(alloc, name, *mechanism)
        }
        MetaRecord::BeginTransaction { name } => begin_transaction_members(alloc, name),
        MetaRecord::EndTransaction => kind_member(alloc, "EndTransaction"),
        MetaRecord::AbortTransaction { reason } => abort_transaction_members(alloc, reason),
    }
}

/// A record as a JSON value, as lines have records. Tagged fields are left out at their default; the value of a quota is
/// `value`, its text, or `whole` and `micros` where no text is this value.
#[tactic(auto, unfolding(kz_spec_data::specs::WrittenRecords::record_data))]
pub fn write_item(alloc: Global, item: &MetaRecord) -> Result<Value, NoMemory>
    ensures { IfOk result (λ value. view value ≡ record_data item.now) }
{
    Ok(Value::Object(members_of_record(alloc, item)?))
}
