//! The path of an entity.
ghost use Rattle.std.specs.Prelude.{◌≡◌, ◌++◌, ℤ, List, ℕ, Option, IfOk, MatchResult, codes, true, pos, string_bytes, if◌then◌else◌};
ghost use Rattle.std.specs.Ordering.{int_eq};
ghost use Rattle.std.specs.Fmt.{signed_decimal};
ghost use Rattle.kz_types.specs.PathRule.{is_path, IsPathFault};
ghost use Rattle.kz_types.specs.Paths.{path_of, is_legal, part_or_default, part_for_name, resource_type_name};

use crate::names::sanitise;
use kz_paths::PRODUCER_TEXT;
use kz_types::{EntityKey, NoMemory, PathFault, Text, ZPath};
use std::alloc::Global;

/// The part of the default, or of a name.
fn part_of_name(alloc: Global, name: &Option<Text>) -> Result<Vec<u8>, NoMemory>
    ensures { IfOk result (λ part. part.items ≡ part_or_default part_for_name name.now) }
{
    match name {
        Some(name) => sanitise(alloc, name),
        None => Ok(b"<default>".to_vec(alloc)?),
    }
}

/// The part of the default, or of an address.
fn part_of_address(alloc: Global, address: &Option<Text>) -> Result<Vec<u8>, NoMemory>
    ensures { IfOk result (λ part. part.items ≡ part_or_default (λ a. a) address.now) }
{
    match address {
        Some(address) => Ok(address.bytes().to_vec(alloc)?),
        None => Ok(b"<default>".to_vec(alloc)?),
    }
}

/// The name of a type of resource.
fn resource_type_name(kind: i8) -> &'static str
    ensures { result.now ≡ resource_type_name kind }
{
    match kind {
        2 => "Topic",
        3 => "Group",
        4 => "Cluster",
        5 => "TransactionalId",
        _ => "DelegationToken",
    }
}

/// The text of an i32.
fn number_text(alloc: Global, number: i32) -> Result<String, NoMemory>
    ensures { IfOk result (λ text. string_bytes text ≡ signed_decimal number) }
{
    Ok(format!(in alloc; "{number}")?)
}

/// The part of the default, or of a broker.
fn part_of_broker(alloc: Global, broker: Option<i32>) -> Result<Vec<u8>, NoMemory>
    ensures { IfOk result (λ part. part.items ≡ part_or_default signed_decimal broker) }
{
    match broker {
        Some(number) => Ok(number_text(alloc, number)?.into_bytes()),
        None => Ok(b"<default>".to_vec(alloc)?),
    }
}

/// A text after a beginning.
fn joined(alloc: Global, front: &str, back: &[u8]) -> Result<Vec<u8>, NoMemory>
    ensures { IfOk result (λ text. text.items ≡ front.now ++ back.now) }
{
    let mut text = front.as_bytes().to_vec(alloc)?;
    text.extend_from_slice(back)?;
    Ok(text)
}

/// The text of the path of a partition, whose number is a text.
fn numbered_text(alloc: Global, topic: &str, number: &str) -> Result<String, NoMemory>
    ensures { IfOk result (λ text. string_bytes text ≡ codes "/brokers/topics/" ++ (topic.now ++ (codes "/partitions/" ++ (number.now ++ codes "/state")))) }
{
    Ok(format!(in alloc; "/brokers/topics/{topic}/partitions/{number}/state")?)
}

/// The text of the path of a partition.
fn partition_text(alloc: Global, topic: &str, number: i32) -> Result<Vec<u8>, NoMemory>
    ensures { IfOk result (λ text. text.items ≡ codes "/brokers/topics/" ++ (topic.now ++ (codes "/partitions/" ++ (signed_decimal number ++ codes "/state")))) }
{
    let number = number_text(alloc, number)?;
    let text = numbered_text(alloc, topic, &number)?;
    Ok(text.into_bytes())
}

/// The text of the path of a user's client id.
fn user_client_text(
    alloc: Global,
    user: &Option<Text>,
    client: &Option<Text>,
) -> Result<Vec<u8>, NoMemory>
    ensures { IfOk result (λ text. text.items ≡ codes "/config/users/" ++ (part_or_default part_for_name user.now ++ (codes "/clients/" ++ part_or_default part_for_name client.now))) }
{
    let user = part_of_name(alloc, user)?;
    let client = part_of_name(alloc, client)?;
    let mut text = joined(alloc, "/config/users/", &user)?;
    text.extend_from_slice(b"/clients/")?;
    text.extend_from_slice(&client)?;
    Ok(text)
}

/// The beginning of the path of a resource's access control entries.
fn acl_front(pattern: i8) -> &'static str
    ensures { result.now ≡ (if int_eq pattern (pos 3) then codes "/kafka-acl/" else codes "/kafka-acl-extended/prefixed/") }
{
    if pattern == 3 {
        "/kafka-acl/"
    } else {
        "/kafka-acl-extended/prefixed/"
    }
}

/// The text of the path of a resource's access control entries.
fn acl_text(alloc: Global, pattern: i8, kind: i8, name: &[u8]) -> Result<Vec<u8>, NoMemory>
    ensures { IfOk result (λ text. text.items ≡ (if int_eq pattern (pos 3) then codes "/kafka-acl/" else codes "/kafka-acl-extended/prefixed/")
        ++ (resource_type_name kind ++ (codes "/" ++ name.now))) }
{
    let mut text = joined(
        alloc,
        acl_front(pattern),
        resource_type_name(kind).as_bytes(),
    )?;
    text.extend_from_slice(b"/")?;
    text.extend_from_slice(name)?;
    Ok(text)
}

/// The text of the path of an entity, which may break the rule of paths.
#[tactic(auto, unfolding(kz_types::specs::Paths::path_of))]
pub fn path_text(alloc: Global, key: &EntityKey) -> Result<Vec<u8>, NoMemory>
    ensures { IfOk result (λ text. text.items ≡ path_of key.now) }
{
    match key {
        EntityKey::Topic { name } => joined(alloc, "/brokers/topics/", name.bytes()),
        EntityKey::Partition { topic, number } => partition_text(alloc, topic.as_str(), *number),
        EntityKey::TopicConfig { name } => joined(alloc, "/config/topics/", name.bytes()),
        EntityKey::BrokerConfig { broker } => {
            let part = part_of_broker(alloc, *broker)?;
            joined(alloc, "/config/brokers/", &part)
        }
        EntityKey::Client { client } => {
            let part = part_of_name(alloc, client)?;
            joined(alloc, "/config/clients/", &part)
        }
        EntityKey::User { user } => {
            let part = part_of_name(alloc, user)?;
            joined(alloc, "/config/users/", &part)
        }
        EntityKey::UserClient { user, client } => user_client_text(alloc, user, client),
        EntityKey::Ip { address } => {
            let part = part_of_address(alloc, address)?;
            joined(alloc, "/config/ips/", &part)
        }
        EntityKey::Acl {
            pattern,
            kind,
            name,
        } => acl_text(alloc, *pattern, *kind, name.bytes()),
        EntityKey::Producer => Ok(PRODUCER_TEXT.as_bytes().to_vec(alloc)?),
    }
}

/// The path of an entity. `BadName` exactly where it breaks the rule of paths, with the place of the fault: its name is
/// too long, or is `.` or `..`.
pub fn path_of(alloc: Global, key: &EntityKey) -> Result<ZPath, PathFault>
    requires { is_legal key.now ≡ true }
    ensures { MatchResult result (λ path. (path ≡ path_of key.now) × (is_path (path_of key.now) ≡ true)) (IsPathFault (path_of key.now)) }
{
    match path_text(alloc, key) {
        Ok(text) => ZPath::new(alloc, &text),
        Err(NoMemory) => Err(PathFault::NoMemory),
    }
}
