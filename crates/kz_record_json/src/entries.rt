//! Records of access control entries, as a script writes them.
ghost use Rattle.std.specs.Prelude.{◌≡◌, IfOk, codes};
ghost use Rattle.serde_json.specs.View.{view, members_view};
ghost use Rattle.kz_spec_data.specs.Members.{with_id};
ghost use Rattle.kz_spec_data.specs.UserRecords.{access_control_entry_of, remove_access_control_entry_of};
ghost use Rattle.kz_spec_data.specs.WrittenRecords.{kind_member, access_control_entry_members};

use kz_record_fields::{
    int8_at, kind_member, member_count, put_id, put_text, put_whole, text_member, uuid_at,
};
use kz_types::{AccessControlEntryRecord, Id, MetaRecord, NoMemory, Text};
use serde_json::{Map, Value};
use std::alloc::Global;

/// The `AccessControlEntry` that a value is, or `None` where it is none.
pub fn access_control_entry_of(alloc: Global, value: &Value) -> Result<Option<MetaRecord>, NoMemory>
    ensures { IfOk result (λ made. made ≡ access_control_entry_of (view value.now)) }
{
    if member_count(value) != 9 {
        return Ok(None);
    }
    let Some(id) = uuid_at(value, "id") else {
        return Ok(None);
    };
    let Some(resource_type) = int8_at(value, "resourceType") else {
        return Ok(None);
    };
    let Some(resource_name) = text_member(value, "resourceName") else {
        return Ok(None);
    };
    let Some(pattern_type) = int8_at(value, "patternType") else {
        return Ok(None);
    };
    let Some(principal) = text_member(value, "principal") else {
        return Ok(None);
    };
    let Some(host) = text_member(value, "host") else {
        return Ok(None);
    };
    let Some(operation) = int8_at(value, "operation") else {
        return Ok(None);
    };
    let Some(permission) = int8_at(value, "permission") else {
        return Ok(None);
    };
    Ok(Some(MetaRecord::AccessControlEntry(AccessControlEntryRecord {
        id,
        resource_type,
        resource_name: Text::from_str(alloc, resource_name)?,
        pattern_type,
        principal: Text::from_str(alloc, principal)?,
        host: Text::from_str(alloc, host)?,
        operation,
        permission,
    })))
}

/// The `RemoveAccessControlEntry` that a value is, or `None` where it is none.
pub fn remove_access_control_entry_of(value: &Value) -> Option<MetaRecord>
    ensures { result ≡ remove_access_control_entry_of (view value.now) }
{
    if member_count(value) != 2 {
        return None;
    }
    let id = uuid_at(value, "id")?;
    Some(MetaRecord::RemoveAccessControlEntry { id })
}

/// The members of an `AccessControlEntry`.
pub fn access_control_entry_members(
    alloc: Global,
    entry: &AccessControlEntryRecord,
) -> Result<Map<String, Value>, NoMemory>
    ensures { IfOk result (λ members. members_view members.entries ≡ access_control_entry_members entry.now) }
{
    let mut members = kind_member(alloc, "AccessControlEntry")?;
    put_id(&mut members, alloc, "id", &entry.id)?;
    put_whole(
        &mut members,
        alloc,
        "resourceType",
        entry.resource_type as i64,
    )?;
    put_text(
        &mut members,
        alloc,
        "resourceName",
        entry.resource_name.as_str(),
    )?;
    put_whole(
        &mut members,
        alloc,
        "patternType",
        entry.pattern_type as i64,
    )?;
    put_text(&mut members, alloc, "principal", entry.principal.as_str())?;
    put_text(&mut members, alloc, "host", entry.host.as_str())?;
    put_whole(&mut members, alloc, "operation", entry.operation as i64)?;
    put_whole(&mut members, alloc, "permission", entry.permission as i64)?;
    Ok(members)
}

/// The members of a `RemoveAccessControlEntry`.
pub fn remove_access_control_entry_members(
    alloc: Global,
    entry: &Id,
) -> Result<Map<String, Value>, NoMemory>
    ensures { IfOk result (λ members. members_view members.entries ≡ with_id (codes "id") entry.now (kind_member (codes "RemoveAccessControlEntry"))) }
{
    let mut members = kind_member(alloc, "RemoveAccessControlEntry")?;
    put_id(&mut members, alloc, "id", entry)?;
    Ok(members)
}
