//! The entity that a path holds.
ghost use Rattle.std.specs.Prelude.{◌≡◌, ℤ, pos, List, ℕ, Bool, Option, Some, IfSome, IfOk, option_map, option_and_then};
ghost use Rattle.kz_types.specs.Numbers.{number_in};
ghost use Rattle.kz_types.specs.declared.key.EntityKey.TheVariants.{Topic, Partition, TopicConfig, BrokerConfig, Client, User, UserClient, Ip, Acl};
ghost use Rattle.kz_types.specs.Paths.{path_of, key_of, key_of_three, key_of_four, key_of_five, key_of_six, topic_of, address_of, resource_type_of, name_of_part, default_or, are};

use crate::cut::{Parts, cut};
use crate::names::restore;
use kz_order::are_equal;
use kz_types::{EntityKey, NoMemory, Text, ZPath, may_be_part, may_be_topic, number_in};
use std::alloc::Global;

/// The part that stands for the default in place of a name.
pub const DEFAULT: &str = "<default>";

/// Whether two parts are these words.
pub fn are(a: &str, b: &str, word: &str, next: &str) -> bool
    ensures { result ≡ are a.now b.now word.now next.now }
{
    are_equal(a.as_bytes(), word.as_bytes()) && are_equal(b.as_bytes(), next.as_bytes())
}

/// The name of a topic, where a part is one.
fn topic_of(alloc: Global, part: &str) -> Result<Option<Text>, NoMemory>
    ensures { IfOk result (λ name. name ≡ topic_of part.now) }
{
    if !may_be_topic(part.as_bytes()) {
        return Ok(None);
    }
    Ok(Some(Text::from_str(alloc, part)?))
}

/// The default, or the number of a broker.
pub fn broker_of(part: &str) -> Option<Option<i32>>
    ensures { result ≡ default_or number_in part.now }
{
    if part == DEFAULT {
        return Some(None);
    }
    match number_in(part.as_bytes()) {
        Some(number) => Some(Some(number)),
        None => None,
    }
}

/// The default, or the name that is written as this part.
pub fn name_of(alloc: Global, part: &str) -> Result<Option<Option<Text>>, NoMemory>
    ensures { IfOk result (λ name. name ≡ default_or name_of_part part.now) }
{
    if part == DEFAULT {
        return Ok(Some(None));
    }
    match restore(alloc, part.as_bytes())? {
        Some(name) => Ok(Some(Some(name))),
        None => Ok(None),
    }
}

/// The default, or an address.
fn address_of(alloc: Global, part: &str) -> Result<Option<Option<Text>>, NoMemory>
    ensures { IfOk result (λ address. address ≡ default_or address_of part.now) }
{
    if part == DEFAULT {
        return Ok(Some(None));
    }
    if !may_be_part(part.as_bytes()) {
        return Ok(None);
    }
    Ok(Some(Some(Text::from_str(alloc, part)?)))
}

/// Kafka's code of a type of resource.
pub fn resource_type_of(part: &str) -> Option<i8>
    ensures { result ≡ resource_type_of part.now }
{
    match part {
        "Topic" => Some(2),
        "Group" => Some(3),
        "Cluster" => Some(4),
        "TransactionalId" => Some(5),
        "DelegationToken" => Some(6),
        _ => None,
    }
}

/// A topic.
fn topic_key(alloc: Global, part: &str) -> Result<Option<EntityKey>, NoMemory>
    ensures { IfOk result (λ key. key ≡ option_map (λ name. Topic name) (topic_of part.now)) }
{
    match topic_of(alloc, part)? {
        Some(name) => Ok(Some(EntityKey::Topic { name })),
        None => Ok(None),
    }
}

/// The configuration of a topic.
fn topic_config_key(alloc: Global, part: &str) -> Result<Option<EntityKey>, NoMemory>
    ensures { IfOk result (λ key. key ≡ option_map (λ name. TopicConfig name) (topic_of part.now)) }
{
    match topic_of(alloc, part)? {
        Some(name) => Ok(Some(EntityKey::TopicConfig { name })),
        None => Ok(None),
    }
}

/// The configuration of a broker.
fn broker_config_key(part: &str) -> Option<EntityKey>
    ensures { result ≡ option_map (λ broker. BrokerConfig broker) (default_or number_in part.now) }
{
    match broker_of(part) {
        Some(broker) => Some(EntityKey::BrokerConfig { broker }),
        None => None,
    }
}

/// A client id.
fn client_key(alloc: Global, part: &str) -> Result<Option<EntityKey>, NoMemory>
    ensures { IfOk result (λ key. key ≡ option_map (λ client. Client client) (default_or name_of_part part.now)) }
{
    match name_of(alloc, part)? {
        Some(client) => Ok(Some(EntityKey::Client { client })),
        None => Ok(None),
    }
}

/// A user.
fn user_key(alloc: Global, part: &str) -> Result<Option<EntityKey>, NoMemory>
    ensures { IfOk result (λ key. key ≡ option_map (λ user. User user) (default_or name_of_part part.now)) }
{
    match name_of(alloc, part)? {
        Some(user) => Ok(Some(EntityKey::User { user })),
        None => Ok(None),
    }
}

/// An address.
fn ip_key(alloc: Global, part: &str) -> Result<Option<EntityKey>, NoMemory>
    ensures { IfOk result (λ key. key ≡ option_map (λ address. Ip address) (default_or address_of part.now)) }
{
    match address_of(alloc, part)? {
        Some(address) => Ok(Some(EntityKey::Ip { address })),
        None => Ok(None),
    }
}

/// The access control entries of a resource, matched literally.
fn literal_key(alloc: Global, kind: &str, name: &str) -> Result<Option<EntityKey>, NoMemory>
    ensures { IfOk result (λ key. key ≡ option_map (λ code. Acl (pos 3) code name.now) (resource_type_of kind.now)) }
{
    match resource_type_of(kind) {
        Some(kind) => Ok(Some(EntityKey::Acl {
            pattern: 3,
            kind,
            name: Text::from_str(alloc, name)?,
        })),
        None => Ok(None),
    }
}

/// The access control entries of a resource, matched as a prefix.
fn prefixed_key(alloc: Global, kind: &str, name: &str) -> Result<Option<EntityKey>, NoMemory>
    ensures { IfOk result (λ key. key ≡ option_map (λ code. Acl (pos 4) code name.now) (resource_type_of kind.now)) }
{
    match resource_type_of(kind) {
        Some(kind) => Ok(Some(EntityKey::Acl {
            pattern: 4,
            kind,
            name: Text::from_str(alloc, name)?,
        })),
        None => Ok(None),
    }
}

/// The entity of three parts.
fn key_of_three(alloc: Global, a: &str, b: &str, c: &str) -> Result<Option<EntityKey>, NoMemory>
    ensures { IfOk result (λ key. key ≡ key_of_three a.now b.now c.now) }
{
    if are(a, b, "brokers", "topics") {
        return topic_key(alloc, c);
    }
    if are(a, b, "config", "topics") {
        return topic_config_key(alloc, c);
    }
    if are(a, b, "config", "brokers") {
        return Ok(broker_config_key(c));
    }
    if are(a, b, "config", "clients") {
        return client_key(alloc, c);
    }
    if are(a, b, "config", "users") {
        return user_key(alloc, c);
    }
    if are(a, b, "config", "ips") {
        return ip_key(alloc, c);
    }
    if a == "kafka-acl" {
        return literal_key(alloc, b, c);
    }
    Ok(None)
}

/// The entity of four parts.
fn key_of_four(
    alloc: Global,
    a: &str,
    b: &str,
    c: &str,
    d: &str,
) -> Result<Option<EntityKey>, NoMemory>
    ensures { IfOk result (λ key. key ≡ key_of_four a.now b.now c.now d.now) }
{
    if are(a, b, "kafka-acl-extended", "prefixed") {
        return prefixed_key(alloc, c, d);
    }
    Ok(None)
}

/// The client id of a user.
fn user_client_key(alloc: Global, user: &str, client: &str) -> Result<Option<EntityKey>, NoMemory>
    ensures { IfOk result (λ key. key ≡ option_and_then (λ u. option_map (λ c. UserClient u c) (default_or name_of_part client.now)) (default_or name_of_part user.now)) }
{
    match name_of(alloc, user)? {
        Some(user) => match name_of(alloc, client)? {
            Some(client) => Ok(Some(EntityKey::UserClient { user, client })),
            None => Ok(None),
        },
        None => Ok(None),
    }
}

/// The entity of five parts.
fn key_of_five(
    alloc: Global,
    a: &str,
    b: &str,
    c: &str,
    d: &str,
    e: &str,
) -> Result<Option<EntityKey>, NoMemory>
    ensures { IfOk result (λ key. key ≡ key_of_five a.now b.now c.now d.now e.now) }
{
    if are(a, b, "config", "users") && d == "clients" {
        return user_client_key(alloc, c, e);
    }
    Ok(None)
}

/// A partition of a topic.
fn partition_key(alloc: Global, topic: &str, number: &str) -> Result<Option<EntityKey>, NoMemory>
    ensures { IfOk result (λ key. key ≡ option_and_then (λ t. option_map (λ n. Partition t n) (number_in number.now)) (topic_of topic.now)) }
{
    match topic_of(alloc, topic)? {
        Some(topic) => match number_in(number.as_bytes()) {
            Some(number) => Ok(Some(EntityKey::Partition { topic, number })),
            None => Ok(None),
        },
        None => Ok(None),
    }
}

/// The entity of six parts.
fn key_of_six(
    alloc: Global,
    a: &str,
    b: &str,
    c: &str,
    d: &str,
    e: &str,
    f: &str,
) -> Result<Option<EntityKey>, NoMemory>
    ensures { IfOk result (λ key. key ≡ key_of_six a.now b.now c.now d.now e.now f.now) }
{
    if are(a, b, "brokers", "topics") && are(d, f, "partitions", "state") {
        return partition_key(alloc, c, e);
    }
    Ok(None)
}

/// The entity that a path holds, by its parts.
fn key_of_path(alloc: Global, path: &ZPath) -> Result<Option<EntityKey>, NoMemory>
    ensures { IfOk result (λ key. key ≡ key_of path.now) }
{
    match cut(path.as_str()) {
        Parts::One(a) => if a == "latest_producer_id_block" {
            Ok(Some(EntityKey::Producer))
        } else {
            Ok(None)
        },
        Parts::Two(_, _) => Ok(None),
        Parts::Three(a, b, c) => key_of_three(alloc, a, b, c),
        Parts::Four(a, b, c, d) => key_of_four(alloc, a, b, c, d),
        Parts::Five(a, b, c, d, e) => key_of_five(alloc, a, b, c, d, e),
        Parts::Six(a, b, c, d, e, f) => key_of_six(alloc, a, b, c, d, e, f),
        Parts::More => Ok(None),
    }
}

/// The entity that a path holds. `None` exactly where it holds none. Its path is this one.
pub fn key_of(alloc: Global, path: &ZPath) -> Result<Option<EntityKey>, NoMemory>
    ensures value { IfOk result (λ key. key ≡ key_of path.now) }
    ensures path { IfOk result (λ key. IfSome key (λ k. path_of k ≡ path.now)) }
{
    let _rule = path.bytes();
    key_of_path(alloc, path)
}
