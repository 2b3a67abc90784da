//! Keys of entities, as cases write them: a list of the entity's name and its fields.
use kz_body_parts::{number, whole};
use kz_types::{EntityKey, NoMemory, Text};
use serde_json::Value;
use std::alloc::Global;

fn entity_name(key: &EntityKey) -> &'static str {
    match key {
        EntityKey::Topic { .. } => "Topic",
        EntityKey::Partition { .. } => "Partition",
        EntityKey::TopicConfig { .. } => "TopicConfig",
        EntityKey::BrokerConfig { .. } => "BrokerConfig",
        EntityKey::Client { .. } => "Client",
        EntityKey::User { .. } => "User",
        EntityKey::UserClient { .. } => "UserClient",
        EntityKey::Ip { .. } => "Ip",
        EntityKey::Acl { .. } => "Acl",
        EntityKey::Producer => "Producer",
    }
}

fn push_text(values: &mut Vec<Value>, alloc: Global, text: &str) -> Result<(), NoMemory> {
    values.push(Value::try_from_str(alloc, text)?)?;
    Ok(())
}

// A name that may be absent, as null.
fn push_name(values: &mut Vec<Value>, alloc: Global, name: &Option<Text>) -> Result<(), NoMemory> {
    match name {
        Some(name) => push_text(values, alloc, name.as_str()),
        None => push_number(values, None),
    }
}

// A number that may be absent, as null.
fn push_number(values: &mut Vec<Value>, number: Option<i32>) -> Result<(), NoMemory> {
    let value = match number {
        Some(number) => Value::from(number),
        None => Value::Null,
    };
    values.push(value)?;
    Ok(())
}

fn push_fields(values: &mut Vec<Value>, alloc: Global, key: &EntityKey) -> Result<(), NoMemory> {
    match key {
        EntityKey::Topic { name } => push_text(values, alloc, name.as_str()),
        EntityKey::Partition { topic, number } => {
            push_text(values, alloc, topic.as_str())?;
            push_number(values, Some(*number))
        }
        EntityKey::TopicConfig { name } => push_text(values, alloc, name.as_str()),
        EntityKey::BrokerConfig { broker } => push_number(values, *broker),
        EntityKey::Client { client } => push_name(values, alloc, client),
        EntityKey::User { user } => push_name(values, alloc, user),
        EntityKey::UserClient { user, client } => {
            push_name(values, alloc, user)?;
            push_name(values, alloc, client)
        }
        EntityKey::Ip { address } => push_name(values, alloc, address),
        EntityKey::Acl {
            pattern,
            kind,
            name,
        } => {
            push_number(values, Some(*pattern as i32))?;
            push_number(values, Some(*kind as i32))?;
            push_text(values, alloc, name.as_str())
        }
        EntityKey::Producer => Ok(()),
    }
}

/// A key, written.
pub fn key_value(alloc: Global, key: &EntityKey) -> Result<Value, NoMemory> {
    let mut values = Vec::new(alloc);
    push_text(&mut values, alloc, entity_name(key))?;
    push_fields(&mut values, alloc, key)?;
    Ok(Value::Array(values))
}

// A name that may be absent, as null.
fn name_or_null_in(alloc: Global, value: &Value) -> Result<Option<Option<Text>>, NoMemory> {
    match value {
        Value::Null => Ok(Some(None)),
        Value::String(name) => Ok(Some(Some(Text::from_str(alloc, name.as_str())?))),
        _ => Ok(None),
    }
}

// A code of at most 8 bits.
fn code_in(value: &Value) -> Option<i8> {
    let code = whole(value, 0, i8::MAX as i64)?;
    Some(code as i8)
}

fn broker_key(field: &Value) -> Option<EntityKey> {
    if field.is_null() {
        return Some(EntityKey::BrokerConfig { broker: None });
    }
    let broker = number(field, 0)?;
    Some(EntityKey::BrokerConfig {
        broker: Some(broker),
    })
}

// A key of one name.
fn key_of_name(entity: &str, name: Text) -> Option<EntityKey> {
    match entity {
        "Topic" => Some(EntityKey::Topic { name }),
        "TopicConfig" => Some(EntityKey::TopicConfig { name }),
        "Client" => Some(EntityKey::Client { client: Some(name) }),
        "User" => Some(EntityKey::User { user: Some(name) }),
        "Ip" => Some(EntityKey::Ip {
            address: Some(name),
        }),
        _ => None,
    }
}

// A key whose one name is absent.
fn key_of_null(entity: &str) -> Option<EntityKey> {
    match entity {
        "Client" => Some(EntityKey::Client { client: None }),
        "User" => Some(EntityKey::User { user: None }),
        "Ip" => Some(EntityKey::Ip { address: None }),
        _ => None,
    }
}

// A key of one field.
fn key_of_one(alloc: Global, entity: &str, field: &Value) -> Result<Option<EntityKey>, NoMemory> {
    if entity == "BrokerConfig" {
        return Ok(broker_key(field));
    }
    match name_or_null_in(alloc, field)? {
        Some(Some(name)) => Ok(key_of_name(entity, name)),
        Some(None) => Ok(key_of_null(entity)),
        None => Ok(None),
    }
}

fn partition_key(
    alloc: Global,
    topic: &Value,
    partition: &Value,
) -> Result<Option<EntityKey>, NoMemory> {
    let Some(number) = number(partition, 0) else {
        return Ok(None);
    };
    match name_or_null_in(alloc, topic)? {
        Some(Some(topic)) => Ok(Some(EntityKey::Partition { topic, number })),
        _ => Ok(None),
    }
}

fn user_client_key(
    alloc: Global,
    user: &Value,
    client: &Value,
) -> Result<Option<EntityKey>, NoMemory> {
    let Some(user) = name_or_null_in(alloc, user)? else {
        return Ok(None);
    };
    let Some(client) = name_or_null_in(alloc, client)? else {
        return Ok(None);
    };
    Ok(Some(EntityKey::UserClient { user, client }))
}

fn acl_key(alloc: Global, fields: [&Value; 3]) -> Result<Option<EntityKey>, NoMemory> {
    let (Some(pattern), Some(kind)) = (code_in(fields[0]), code_in(fields[1])) else {
        return Ok(None);
    };
    match name_or_null_in(alloc, fields[2])? {
        Some(Some(name)) => Ok(Some(EntityKey::Acl {
            pattern,
            kind,
            name,
        })),
        _ => Ok(None),
    }
}

// A key of these fields.
fn key_of(alloc: Global, entity: &str, fields: &[Value]) -> Result<Option<EntityKey>, NoMemory> {
    match (entity, fields) {
        ("Producer", []) => Ok(Some(EntityKey::Producer)),
        ("Partition", [topic, number]) => partition_key(alloc, topic, number),
        ("UserClient", [user, client]) => user_client_key(alloc, user, client),
        ("Acl", [pattern, kind, name]) => acl_key(alloc, [pattern, kind, name]),
        (_, [field]) => key_of_one(alloc, entity, field),
        _ => Ok(None),
    }
}

/// The key that a member of a case is, or `None` where it is none.
pub fn key_at(alloc: Global, case: &Value, name: &str) -> Result<Option<EntityKey>, NoMemory> {
    let Some(Value::Array(parts)) = case.get(name) else {
        return Ok(None);
    };
    match parts.as_slice() {
        [Value::String(entity), fields @ ..] => key_of(alloc, entity.as_str(), fields),
        _ => Ok(None),
    }
}
