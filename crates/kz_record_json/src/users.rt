//! Records of users and clients, as a script writes them: credentials and quotas.
ghost use Rattle.std.specs.Prelude.{◌≡◌, IfOk, OnOk, map, option_map, codes};
ghost use Rattle.serde_json.specs.Data.{array};
ghost use Rattle.serde_json.specs.View.{view, members_view, items_view, items_of};
ghost use Rattle.kz_types.specs.Quotas.{is_quota};
ghost use Rattle.kz_spec_data.specs.LineFields.{all_of, field};
ghost use Rattle.kz_spec_data.specs.Members.{with_text, with_whole};
ghost use Rattle.kz_spec_data.specs.UserRecords.{user_scram_credential_of, remove_user_scram_credential_of, entity_of, entities_of, quota, parts_of_quota, quota_value_of, client_quota_of};
ghost use Rattle.kz_spec_data.specs.WrittenRecords.{kind_member, user_scram_credential_members, entity_data, with_entities, with_quota, client_quota_members};

use kz_body_parts::QuotaText;
use kz_record_fields::{
    bytes_at, int8_at, int32_at, int64_at, kind_member, member_count, nullable_text, put_bytes,
    put_flag, put_text, put_text_or_null, put_whole, text_member, text_or_null_at,
};
use kz_types::{
    ClientQuotaRecord, MetaRecord, NoMemory, QuotaEntities, QuotaEntity, QuotaValue, Text,
    UserScramCredentialRecord,
};
use serde_json::{Map, Value};
use std::alloc::Global;

/// The `UserScramCredential` that a value is, or `None` where it is none.
pub fn user_scram_credential_of(
    alloc: Global,
    value: &Value,
) -> Result<Option<MetaRecord>, NoMemory>
    ensures { IfOk result (λ made. made ≡ user_scram_credential_of (view value.now)) }
{
    if member_count(value) != 7 {
        return Ok(None);
    }
    let Some(name) = text_member(value, "name") else {
        return Ok(None);
    };
    let Some(mechanism) = int8_at(value, "mechanism") else {
        return Ok(None);
    };
    let Some(salt) = bytes_at(alloc, value, "salt")? else {
        return Ok(None);
    };
    let Some(stored_key) = bytes_at(alloc, value, "storedKey")? else {
        return Ok(None);
    };
    let Some(server_key) = bytes_at(alloc, value, "serverKey")? else {
        return Ok(None);
    };
    let Some(iterations) = int32_at(value, "iterations") else {
        return Ok(None);
    };
    Ok(Some(MetaRecord::UserScramCredential(UserScramCredentialRecord {
        name: Text::from_str(alloc, name)?,
        mechanism,
        salt,
        stored_key,
        server_key,
        iterations,
    })))
}

/// The `RemoveUserScramCredential` that a value is, or `None` where it is none.
pub fn remove_user_scram_credential_of(
    alloc: Global,
    value: &Value,
) -> Result<Option<MetaRecord>, NoMemory>
    ensures { IfOk result (λ made. made ≡ remove_user_scram_credential_of (view value.now)) }
{
    if member_count(value) != 3 {
        return Ok(None);
    }
    let Some(name) = text_member(value, "name") else {
        return Ok(None);
    };
    let Some(mechanism) = int8_at(value, "mechanism") else {
        return Ok(None);
    };
    Ok(Some(MetaRecord::RemoveUserScramCredential {
        name: Text::from_str(alloc, name)?,
        mechanism,
    }))
}

fn entity_of(alloc: Global, value: &Value) -> Result<Option<QuotaEntity>, NoMemory>
    ensures { IfOk result (λ made. made ≡ entity_of (view value.now)) }
{
    if member_count(value) != 2 {
        return Ok(None);
    }
    let Some(kind) = text_member(value, "kind") else {
        return Ok(None);
    };
    let Some(name) = text_or_null_at(value, "name") else {
        return Ok(None);
    };
    Ok(Some(QuotaEntity {
        kind: Text::from_str(alloc, kind)?,
        name: nullable_text(alloc, name)?,
    }))
}

// The parts in a list, or `None` where one of its items is none.
fn parts_in(alloc: Global, values: &[Value]) -> Result<Option<Vec<QuotaEntity>>, NoMemory>
    ensures { IfOk result (λ made. option_map (λ parts. parts.items) made ≡ all_of entity_of (items_view values.now)) }
{
    let mut parts = Vec::new(alloc);
    for value in values {
        match entity_of(alloc, value)? {
            Some(part) => parts.push(part)?,
            None => return Ok(None),
        }
    }
    Ok(Some(parts))
}

// The member `entity`.
fn entities_at(alloc: Global, value: &Value) -> Result<Option<QuotaEntities>, NoMemory>
    ensures { IfOk result (λ made. made ≡ field (codes "entity") entities_of (view value.now)) }
{
    let Some(values) = value.get("entity").and_then(Value::as_array) else {
        return Ok(None);
    };
    match parts_in(alloc, values)? {
        Some(parts) => Ok(Some(QuotaEntities::from_vec(parts))),
        None => Ok(None),
    }
}

fn quota(value: &Value) -> Option<QuotaValue>
    ensures { result ≡ quota (view value.now) }
{
    match QuotaValue::read(value.as_str()?.as_bytes()) {
        Ok(quota) => Some(quota),
        Err(_) => None,
    }
}

// Whether a text is this value.
fn is_quota(value: &QuotaValue) -> bool
    ensures { result ≡ is_quota value.now }
{
    0 <= value.whole && 0 <= value.micros && value.micros <= 999_999
}

// `whole` and `micros`, where no text is this value.
fn parts_of_quota(value: &Value) -> Option<QuotaValue>
    ensures { result ≡ parts_of_quota (view value.now) }
{
    let whole = int64_at(value, "whole")?;
    let micros = int32_at(value, "micros")?;
    let quota = QuotaValue { whole, micros };
    if is_quota(&quota) { None } else { Some(quota) }
}

fn quota_value_of(value: &Value) -> Option<QuotaValue>
    ensures { result ≡ quota_value_of (view value.now) }
{
    match member_count(value) {
        5 => quota(value.get("value")?),
        6 => parts_of_quota(value),
        _ => None,
    }
}

/// The `ClientQuota` that a value is, or `None` where it is none.
pub fn client_quota_of(alloc: Global, value: &Value) -> Result<Option<MetaRecord>, NoMemory>
    ensures { IfOk result (λ made. made ≡ client_quota_of (view value.now)) }
{
    let Some(entity) = entities_at(alloc, value)? else {
        return Ok(None);
    };
    let Some(key) = text_member(value, "key") else {
        return Ok(None);
    };
    let Some(set_to) = quota_value_of(value) else {
        return Ok(None);
    };
    let Some(remove) = value.get("remove").and_then(Value::as_bool) else {
        return Ok(None);
    };
    Ok(Some(MetaRecord::ClientQuota(ClientQuotaRecord {
        entity,
        key: Text::from_str(alloc, key)?,
        value: set_to,
        remove,
    })))
}

/// The members of a `UserScramCredential`.
pub fn user_scram_credential_members(
    alloc: Global,
    credential: &UserScramCredentialRecord,
) -> Result<Map<String, Value>, NoMemory>
    ensures { IfOk result (λ members. members_view members.entries ≡ user_scram_credential_members credential.now) }
{
    let mut members = kind_member(alloc, "UserScramCredential")?;
    put_text(&mut members, alloc, "name", credential.name.as_str())?;
    put_whole(
        &mut members,
        alloc,
        "mechanism",
        credential.mechanism as i64,
    )?;
    put_bytes(&mut members, alloc, "salt", credential.salt.as_slice())?;
    put_bytes(
        &mut members,
        alloc,
        "storedKey",
        credential.stored_key.as_slice(),
    )?;
    put_bytes(
        &mut members,
        alloc,
        "serverKey",
        credential.server_key.as_slice(),
    )?;
    put_whole(
        &mut members,
        alloc,
        "iterations",
        credential.iterations as i64,
    )?;
    Ok(members)
}

/// The members of a `RemoveUserScramCredential`.
pub fn remove_user_scram_credential_members(
    alloc: Global,
    name: &Text,
    mechanism: i8,
) -> Result<Map<String, Value>, NoMemory>
    ensures { IfOk result (λ members. members_view members.entries ≡ with_whole (codes "mechanism") mechanism (with_text (codes "name") name.now (kind_member (codes "RemoveUserScramCredential")))) }
{
    let mut members = kind_member(alloc, "RemoveUserScramCredential")?;
    put_text(&mut members, alloc, "name", name.as_str())?;
    put_whole(&mut members, alloc, "mechanism", mechanism as i64)?;
    Ok(members)
}

fn entity_value(alloc: Global, entity: &QuotaEntity) -> Result<Value, NoMemory>
    ensures { IfOk result (λ value. view value ≡ entity_data entity.now) }
{
    let mut members: Map<String, Value> = Map::new(alloc);
    put_text(&mut members, alloc, "kind", entity.kind.as_str())?;
    put_text_or_null(&mut members, alloc, "name", &entity.name)?;
    Ok(Value::Object(members))
}

fn entity_values(alloc: Global, parts: &[QuotaEntity]) -> Result<Value, NoMemory>
    ensures { IfOk result (λ value. view value ≡ array (items_of (map entity_data parts.now))) }
{
    let mut values = Vec::new(alloc);
    for part in parts {
        values.push(entity_value(alloc, part)?)?;
    }
    Ok(Value::Array(values))
}

fn put_entities(
    members: &mut Map<String, Value>,
    alloc: Global,
    parts: &[QuotaEntity],
) -> Result<(), NoMemory>
    ensures { OnOk result (members_view members.new.entries ≡ with_entities parts.now (members_view members.old.entries)) }
{
    let values = entity_values(alloc, parts)?;
    serde_json::put(members, alloc, "entity", values)?;
    Ok(())
}

// Puts the value of a quota: its text, or both parts where no text is this value.
fn put_quota(
    members: &mut Map<String, Value>,
    alloc: Global,
    value: &QuotaValue,
) -> Result<(), NoMemory>
    ensures { OnOk result (members_view members.new.entries ≡ with_quota value.now (members_view members.old.entries)) }
{
    if is_quota(value) {
        let text = value.text(alloc)?;
        put_text(members, alloc, "value", text.as_str())
    } else {
        put_whole(members, alloc, "whole", value.whole)?;
        put_whole(members, alloc, "micros", value.micros as i64)
    }
}

/// The members of a `ClientQuota`.
pub fn client_quota_members(
    alloc: Global,
    quota: &ClientQuotaRecord,
) -> Result<Map<String, Value>, NoMemory>
    ensures { IfOk result (λ members. members_view members.entries ≡ client_quota_members quota.now) }
{
    let mut members = kind_member(alloc, "ClientQuota")?;
    put_entities(&mut members, alloc, quota.entity.as_slice())?;
    put_text(&mut members, alloc, "key", quota.key.as_str())?;
    put_quota(&mut members, alloc, &quota.value)?;
    put_flag(&mut members, alloc, "remove", quota.remove)?;
    Ok(members)
}
