//! Access control entries.
ghost use Rattle.std.specs.Prelude.{◌≡◌, ◌≢◌, IfOk, Ok, Err, codes, option_map};
ghost use Rattle.serde_json.specs.View.{view, items_view};
ghost use Rattle.kz_types.specs.declared.fault.BodyFault.{BodyFault};
ghost use Rattle.kz_spec_data.specs.Bodies.{operation_of, permission_of, text_at, entry_in, entries_in, entries_of_data, acls_of_data};

use kz_body_parts::{bad_field, missing, whole_field};
use kz_types::{AclRow, Body, BodyFault, NoMemory, Sequence, Text};
use serde_json::Value;
use std::alloc::Global;

/// A resource: Kafka's codes of its pattern and its type, and its name.
#[derive(Clone, Copy)]
pub struct Resource<'a> {
    pub pattern: i8,
    pub kind: i8,
    pub name: &'a str,
}

/// Kafka's code of an operation.
pub fn operation_of(name: &str) -> Option<i8>
    ensures { result ≡ operation_of name.now }
{
    match name {
        "All" => Some(2),
        "Read" => Some(3),
        "Write" => Some(4),
        "Create" => Some(5),
        "Delete" => Some(6),
        "Alter" => Some(7),
        "Describe" => Some(8),
        "ClusterAction" => Some(9),
        "DescribeConfigs" => Some(10),
        "AlterConfigs" => Some(11),
        "IdempotentWrite" => Some(12),
        _ => None,
    }
}

/// Kafka's code of a permission.
pub fn permission_of(name: &str) -> Option<i8>
    ensures { result ≡ permission_of name.now }
{
    match name {
        "Deny" => Some(2),
        "Allow" => Some(3),
        _ => None,
    }
}

/// The text of a member.
fn text_at<'a>(name: &str, value: &'a Value) -> Option<&'a str>
    ensures { option_map (λ text. text.now) result ≡ text_at name.now (view value.now) }
{
    value.get(name).and_then(Value::as_str)
}

/// An entry of a resource, or `None` where it breaks its form.
fn entry_in(
    alloc: Global,
    resource: &Resource<'_>,
    value: &Value,
) -> Result<Option<AclRow>, NoMemory>
    ensures { IfOk result (λ row. row ≡ entry_in resource.now.pattern resource.now.kind resource.now.name.now (view value.now)) }
{
    let Some(principal) = text_at("principal", value) else {
        return Ok(None);
    };
    let Some(permission) = text_at("permissionType", value) else {
        return Ok(None);
    };
    let Some(permission) = permission_of(permission) else {
        return Ok(None);
    };
    let Some(operation) = text_at("operation", value) else {
        return Ok(None);
    };
    let Some(operation) = operation_of(operation) else {
        return Ok(None);
    };
    let Some(host) = text_at("host", value) else {
        return Ok(None);
    };
    let name = Text::from_str(alloc, resource.name)?;
    let principal = Text::from_str(alloc, principal)?;
    let host = Text::from_str(alloc, host)?;
    Ok(Some(AclRow {
        kind: resource.kind,
        pattern: resource.pattern,
        name,
        principal,
        host,
        operation,
        permission,
    }))
}

/// The entries of a resource, or `None` where one breaks its form.
fn entries_in(
    alloc: Global,
    resource: &Resource<'_>,
    values: &[Value],
) -> Result<Option<Sequence<AclRow>>, NoMemory>
    ensures { IfOk result (λ rows. rows ≡ entries_in resource.now.pattern resource.now.kind resource.now.name.now (items_view values.now)) }
{
    let mut rows = Sequence::new(alloc);
    for value in values {
        match entry_in(alloc, resource, value)? {
            Some(row) => rows.push(row)?,
            None => return Ok(None),
        }
    }
    Ok(Some(rows))
}

/// The entries of a list.
fn entries_of(
    alloc: Global,
    resource: &Resource<'_>,
    value: &Value,
) -> Result<Option<Sequence<AclRow>>, NoMemory>
    ensures { IfOk result (λ rows. rows ≡ entries_of_data resource.now.pattern resource.now.kind resource.now.name.now (view value.now)) }
{
    match value.as_array() {
        Some(values) => entries_in(alloc, resource, values),
        None => Ok(None),
    }
}

/// What the access control entries of a resource say.
pub fn acls_of(alloc: Global, resource: &Resource<'_>, value: &Value) -> Result<Body, BodyFault>
    ensures { result ≢ Err BodyFault.NoMemory → result ≡ acls_of_data resource.now.pattern resource.now.kind resource.now.name.now (view value.now) }
{
    match whole_field(alloc, value, "version", 1, 1) {
        Ok(_) => (),
        Err(fault) => return Err(fault),
    }
    let Some(member) = value.get("acls") else {
        return Err(missing(alloc, "acls"));
    };
    match entries_of(alloc, resource, member) {
        Ok(Some(rows)) => Ok(Body::Acls { rows }),
        Ok(None) => Err(bad_field(alloc, "acls")),
        Err(NoMemory) => Err(BodyFault::NoMemory),
    }
}
