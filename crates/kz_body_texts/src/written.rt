//! Bodies, written.
ghost use Rattle.std.specs.Prelude.{◌≡◌, ◌∷◌, ◌++◌, [], List, IfOk, IfErr, OnOk, codes, string_bytes, pos, map, false, ℤ};
ghost use Rattle.std.specs.Fmt.{signed_decimal};
ghost use Rattle.kz_types.specs.Ids.{id_text};
ghost use Rattle.serde_json.specs.View.{view, members_view, items_of};
ghost use Rattle.serde_json.specs.Data.{Data, object, array, member, no_members, string};
ghost use Rattle.serde_json.specs.Written.{compact_text, has_float, members_have_float};
ghost use Rattle.kz_spec_data.specs.Bodies.{with_texts, config_data, whole_data, brokers_data, with_some, replicas_members, adding_members, removing_members, operation_name, permission_name, acl_data, acls_data, topic_data, state_data, producer_data};

use crate::number::number_text;
use crate::pairs::{names_rise, push_pairs};
use crate::partitions::{are_digits, push_rows};
use crate::texts::{push_brokers_of, push_whole_of, text_value, value_text};
use base64::engine::general_purpose::URL_SAFE_NO_PAD;
use kz_types::{AclRow, AssignmentRow, Id, NoMemory, Pair};
use serde_json::{Map, Value, json};
use std::alloc::Global;

/// The names and values of a configuration, in byte order.
fn texts_map(alloc: Global, pairs: &[Pair]) -> Result<Map<String, Value>, NoMemory>
    ensures { IfOk result (λ members. members_view members.entries ≡ with_texts no_members pairs.now) }
{
    let mut members: Map<String, Value> = Map::new(alloc);
    for pair in pairs {
        let value = Value::String(String::from_str(alloc, pair.value.as_str())?);
        serde_json::put(&mut members, alloc, pair.name.as_str(), value)?;
    }
    Ok(members)
}

// Adds an object of the names and values of a configuration.
#[tactic(auto, using(crate::proofs::ConfigLemmas::texts_in_order_text))]
fn push_texts(alloc: Global, text: &mut String, pairs: &[Pair]) -> Result<(), NoMemory>
    ensures { OnOk result (string_bytes text.new ≡ string_bytes text.old ++ compact_text (object (with_texts no_members pairs.now))) }
{
    if names_rise(pairs) {
        return push_pairs(alloc, text, pairs);
    }
    let members = texts_map(alloc, pairs)?;
    push_object(alloc, text, members)
}

/// The text of a configuration's body.
pub fn config_text(alloc: Global, pairs: &[Pair]) -> Result<String, NoMemory>
    ensures { IfOk result (λ text. string_bytes text ≡ compact_text (config_data pairs.now)) }
{
    let mut text = String::with_capacity(alloc, 32 + 32 * pairs.len())?;
    text.push_str("{\"config\":")?;
    push_texts(alloc, &mut text, pairs)?;
    text.push_str(",\"version\":1}")?;
    Ok(text)
}

/// The JSON value of a whole number.
fn whole_value(number: i64) -> Value
    ensures { view result ≡ whole_data number }
{
    Value::from(number)
}

/// A list of brokers.
fn brokers_value(alloc: Global, ids: &[i32]) -> Result<Value, NoMemory>
    ensures { IfOk result (λ value. view value ≡ brokers_data ids.now) }
{
    let mut values = Vec::new(alloc);
    for id in ids {
        values.push(whole_value(*id as i64))?;
    }
    Ok(Value::Array(values))
}

/// The replicas of partitions, by their numbers.
fn replicas_map(alloc: Global, rows: &[AssignmentRow]) -> Result<Map<String, Value>, NoMemory>
    ensures { IfOk result (λ members. members_view members.entries ≡ replicas_members no_members rows.now) }
{
    let mut members: Map<String, Value> = Map::new(alloc);
    for row in rows {
        let name = number_text(alloc, row.number)?;
        let value = brokers_value(alloc, row.replicas.as_slice())?;
        serde_json::put(&mut members, alloc, &name, value)?;
    }
    Ok(members)
}

/// The brokers that are added to partitions, by their numbers, but for those to which none is added.
fn adding_map(alloc: Global, rows: &[AssignmentRow]) -> Result<Map<String, Value>, NoMemory>
    ensures { IfOk result (λ members. members_view members.entries ≡ adding_members no_members rows.now) }
{
    let mut members: Map<String, Value> = Map::new(alloc);
    for row in rows {
        put_some(alloc, &mut members, row, row.adding.as_slice())?;
    }
    Ok(members)
}

/// The brokers that are removed from partitions, by their numbers, but for those from which none is removed.
fn removing_map(alloc: Global, rows: &[AssignmentRow]) -> Result<Map<String, Value>, NoMemory>
    ensures { IfOk result (λ members. members_view members.entries ≡ removing_members no_members rows.now) }
{
    let mut members: Map<String, Value> = Map::new(alloc);
    for row in rows {
        put_some(alloc, &mut members, row, row.removing.as_slice())?;
    }
    Ok(members)
}

/// Puts the list of a partition, unless it is empty.
fn put_some(
    alloc: Global,
    members: &mut Map<String, Value>,
    row: &AssignmentRow,
    ids: &[i32],
) -> Result<(), NoMemory>
    ensures { OnOk result (members_view members.new.entries ≡ with_some row.now ids.now (members_view members.old.entries)) }
{
    if ids.is_empty() {
        return Ok(());
    }
    let name = number_text(alloc, row.number)?;
    let value = brokers_value(alloc, ids)?;
    serde_json::put(members, alloc, &name, value)?;
    Ok(())
}

/// The body of a block of producer ids.
fn producer_value(alloc: Global, broker: Value, start: Value, end: Value) -> Result<Value, NoMemory>
    ensures { IfOk result (λ value. view value ≡ object
        (member (codes "block_end") (view end)
        (member (codes "block_start") (view start)
        (member (codes "broker") (view broker)
        (member (codes "version") (whole_data (pos 1)) no_members))))) }
{
    let mut members: Map<String, Value> = Map::new(alloc);
    serde_json::put(&mut members, alloc, "block_end", end)?;
    serde_json::put(&mut members, alloc, "block_start", start)?;
    serde_json::put(&mut members, alloc, "broker", broker)?;
    serde_json::put(&mut members, alloc, "version", whole_value(1))?;
    Ok(Value::Object(members))
}

/// An access control entry.
fn entry_value(
    alloc: Global,
    host: Value,
    operation: Value,
    permission: Value,
    principal: Value,
) -> Result<Value, NoMemory>
    ensures { IfOk result (λ value. view value ≡ object
        (member (codes "host") (view host)
        (member (codes "operation") (view operation)
        (member (codes "permissionType") (view permission)
        (member (codes "principal") (view principal) no_members))))) }
{
    let mut members: Map<String, Value> = Map::new(alloc);
    serde_json::put(&mut members, alloc, "host", host)?;
    serde_json::put(&mut members, alloc, "operation", operation)?;
    serde_json::put(&mut members, alloc, "permissionType", permission)?;
    serde_json::put(&mut members, alloc, "principal", principal)?;
    Ok(Value::Object(members))
}

/// The body of access control entries.
fn acls_value(alloc: Global, acls: Value) -> Result<Value, NoMemory>
    ensures { IfOk result (λ value. view value ≡ object (member (codes "acls") (view acls) (member (codes "version") (whole_data (pos 1)) no_members))) }
{
    Ok(json!(in alloc; {"version": 1, "acls": acls})?)
}

/// The name of an operation.
fn operation_name(operation: i8) -> &'static str
    ensures { result.now ≡ operation_name operation }
{
    match operation {
        2 => "All",
        3 => "Read",
        4 => "Write",
        5 => "Create",
        6 => "Delete",
        7 => "Alter",
        8 => "Describe",
        9 => "ClusterAction",
        10 => "DescribeConfigs",
        11 => "AlterConfigs",
        _ => "IdempotentWrite",
    }
}

/// The name of a permission.
fn permission_name(permission: i8) -> &'static str
    ensures { result.now ≡ permission_name permission }
{
    if permission == 2 { "Deny" } else { "Allow" }
}

/// An access control entry of a row.
fn row_value(alloc: Global, row: &AclRow) -> Result<Value, NoMemory>
    ensures { IfOk result (λ value. view value ≡ acl_data row.now) }
{
    let host = text_value(alloc, row.host.as_str())?;
    let operation = text_value(alloc, operation_name(row.operation))?;
    let permission = text_value(alloc, permission_name(row.permission))?;
    let principal = text_value(alloc, row.principal.as_str())?;
    entry_value(alloc, host, operation, permission, principal)
}

/// A list of access control entries.
fn rows_value(alloc: Global, rows: &[AclRow]) -> Result<Value, NoMemory>
    ensures { IfOk result (λ value. view value ≡ array (items_of (map acl_data rows.now))) }
{
    let mut values = Vec::new(alloc);
    for row in rows {
        values.push(row_value(alloc, row)?)?;
    }
    Ok(Value::Array(values))
}

// Adds an object of these members.
fn push_object(
    alloc: Global,
    text: &mut String,
    members: Map<String, Value>,
) -> Result<(), NoMemory>
    requires { members_have_float (members_view members.entries) ≡ false }
    ensures { OnOk result (string_bytes text.new ≡ string_bytes text.old ++ compact_text (object (members_view members.entries))) }
{
    if members.is_empty() {
        text.push_str("{}")?;
        return Ok(());
    }
    let written = value_text(alloc, &Value::Object(members))?;
    text.push_str(written.as_str())?;
    Ok(())
}

// Adds the member of the brokers that are added to partitions.
fn push_adding(alloc: Global, text: &mut String, rows: &[AssignmentRow]) -> Result<(), NoMemory>
    ensures { OnOk result (string_bytes text.new ≡ string_bytes text.old ++ (codes "{\"adding_replicas\":" ++ compact_text (object (adding_members no_members rows.now)))) }
{
    let members = adding_map(alloc, rows)?;
    text.push_str("{\"adding_replicas\":")?;
    push_object(alloc, text, members)
}

// Adds an object of the partitions' replicas.
#[tactic(auto, using(crate::proofs::TopicLemmas::in_order_text))]
fn push_replicas(alloc: Global, text: &mut String, rows: &[AssignmentRow]) -> Result<(), NoMemory>
    ensures { OnOk result (string_bytes text.new ≡ string_bytes text.old ++ compact_text (object (replicas_members no_members rows.now))) }
{
    if are_digits(rows) {
        return push_rows(text, rows);
    }
    let members = replicas_map(alloc, rows)?;
    push_object(alloc, text, members)
}

// Adds the member of the partitions' replicas.
fn push_partitions(alloc: Global, text: &mut String, rows: &[AssignmentRow]) -> Result<(), NoMemory>
    ensures { OnOk result (string_bytes text.new ≡ string_bytes text.old ++ (codes ",\"partitions\":" ++ compact_text (object (replicas_members no_members rows.now)))) }
{
    text.push_str(",\"partitions\":")?;
    push_replicas(alloc, text, rows)
}

// Adds the member of the brokers that are removed from partitions.
fn push_removing(alloc: Global, text: &mut String, rows: &[AssignmentRow]) -> Result<(), NoMemory>
    ensures { OnOk result (string_bytes text.new ≡ string_bytes text.old ++ (codes ",\"removing_replicas\":" ++ compact_text (object (removing_members no_members rows.now)))) }
{
    let members = removing_map(alloc, rows)?;
    text.push_str(",\"removing_replicas\":")?;
    push_object(alloc, text, members)
}

// Adds the member of a topic's id, from its bytes.
fn push_id(text: &mut String, bytes: &[u8; 16]) -> Result<(), NoMemory>
    ensures { OnOk result (string_bytes text.new ≡ string_bytes text.old ++ (codes ",\"topic_id\":" ++ compact_text (string (id_text bytes.now)))) }
{
    text.push_str(",\"topic_id\":\"")?;
    URL_SAFE_NO_PAD.encode_string(bytes, text)?;
    text.push_str("\"")?;
    Ok(())
}

/// The text of a topic's body.
pub fn topic_text(alloc: Global, id: &Id, rows: &[AssignmentRow]) -> Result<String, NoMemory>
    ensures { IfOk result (λ text. string_bytes text ≡ compact_text (topic_data id.now rows.now)) }
{
    let mut text = String::with_capacity(alloc, 112 + 12 * rows.len())?;
    push_adding(alloc, &mut text, rows)?;
    push_partitions(alloc, &mut text, rows)?;
    push_removing(alloc, &mut text, rows)?;
    push_id(&mut text, &id.bytes)?;
    text.push_str(",\"version\":3}")?;
    Ok(text)
}

/// The state of a partition, as its body has it.
#[derive(Clone, Copy)]
pub struct PartitionState<'a> {
    pub leader: i32,
    pub leader_epoch: i32,
    pub controller_epoch: i32,
    pub isr: &'a [i32],
    pub recovery: i8,
}

/// The text of the body of a partition's state.
pub fn state_text(alloc: Global, state: &PartitionState<'_>) -> Result<String, NoMemory>
    ensures { IfOk result (λ text. string_bytes text ≡ compact_text (state_data state.now.leader state.now.leader_epoch state.now.controller_epoch state.now.isr.now state.now.recovery)) }
{
    let mut text = String::with_capacity(alloc, 112 + 4 * state.isr.len())?;
    push_whole_of(&mut text, "{\"controller_epoch\":", state.controller_epoch)?;
    push_brokers_of(&mut text, ",\"isr\":", state.isr)?;
    push_whole_of(&mut text, ",\"leader\":", state.leader)?;
    push_whole_of(&mut text, ",\"leader_epoch\":", state.leader_epoch)?;
    push_whole_of(
        &mut text,
        ",\"leader_recovery_state\":",
        state.recovery as i32,
    )?;
    text.push_str(",\"version\":1}")?;
    Ok(text)
}

/// The text of the body of access control entries.
#[tactic(auto, using(crate::proofs::WrittenLemmas::acls_no_float))]
pub fn acls_text(alloc: Global, rows: &[AclRow]) -> Result<String, NoMemory>
    ensures { IfOk result (λ text. string_bytes text ≡ compact_text (acls_data rows.now)) }
{
    let acls = rows_value(alloc, rows)?;
    let value = acls_value(alloc, acls)?;
    value_text(alloc, &value)
}

/// A number as a text.
fn digits_value(alloc: Global, number: i64) -> Result<Value, NoMemory>
    ensures { IfOk result (λ value. view value ≡ string (signed_decimal number)) }
{
    Ok(Value::String(format!(in alloc; "{number}")?))
}

/// The text of the body of a block of producer ids.
#[tactic(auto, using(crate::proofs::WrittenLemmas::producer_no_float))]
pub fn producer_text(alloc: Global, broker: i32, start: i64, end: i64) -> Result<String, NoMemory>
    ensures { IfOk result (λ text. string_bytes text ≡ compact_text (producer_data broker start end)) }
{
    let broker = whole_value(broker as i64);
    let start = digits_value(alloc, start)?;
    let end = digits_value(alloc, end)?;
    let value = producer_value(alloc, broker, start, end)?;
    value_text(alloc, &value)
}
