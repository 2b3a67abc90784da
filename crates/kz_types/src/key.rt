//! What a migrated znode is about.
ghost use Rattle.std.specs.Prelude.{◌≡◌, ◌==◌, ℤ, pos, ◌≤ℤ◌, length};
ghost use Rattle.kz_types.specs.Paths.{is_legal, is_topic_name, is_topic_byte, is_address, is_absent_or, is_not_negative, is_not_empty, default_part};
ghost use Rattle.std.specs.List.{list_all};

use crate::path_rule::may_be_part;
use crate::{Duplicate, NoMemory, Text};
use std::alloc::Global;

/// The entity that a znode holds. A name that is absent is the default one.
#[derive(Drop)]
pub enum EntityKey {
    /// A topic and the assignment of its partitions.
    Topic {
        name: Text,
    },
    /// The state of a topic's partition.
    Partition {
        topic: Text,
        number: i32,
    },
    /// The configuration of a topic.
    TopicConfig {
        name: Text,
    },
    /// The configuration of a broker.
    BrokerConfig {
        broker: Option<i32>,
    },
    /// The quotas of a client id.
    Client {
        client: Option<Text>,
    },
    /// The quotas and credentials of a user.
    User {
        user: Option<Text>,
    },
    /// The quotas of a client id of a user.
    UserClient {
        user: Option<Text>,
        client: Option<Text>,
    },
    /// The quotas of an address.
    Ip {
        address: Option<Text>,
    },
    /// The access control entries of a resource. `pattern` is 3 for literal names and 4 for prefixes; `kind` is Kafka's
    /// code of the resource's type, from 2 to 6.
    Acl {
        pattern: i8,
        kind: i8,
        name: Text,
    },
    /// The block of producer ids.
    Producer,
}

/// Whether each byte is a letter, a digit, `.`, `_` or `-`.
fn are_topic_bytes(name: &[u8]) -> bool
    ensures { result ≡ list_all is_topic_byte name.now }
{
    name.iter().all(|b| matches!(b, b'A'..=b'Z' | b'a'..=b'z' | b'0'..=b'9' | b'.' | b'_' | b'-'))
}

/// Whether a topic may have this name: 1 to 249 letters, digits, `.`, `_` and `-`, and neither `.` nor `..`.
#[tactic(auto, unfolding(crate::specs::Paths::is_topic_name))]
pub fn may_be_topic(name: &[u8]) -> bool
    ensures { result ≡ is_topic_name name.now }
{
    if name.is_empty() || 249 < name.len() || name == b".".as_slice() || name == b"..".as_slice() {
        return false;
    }
    are_topic_bytes(name)
}

/// Whether an address may be this: a part of a path other than the default's.
pub fn may_be_address(name: &[u8]) -> bool
    ensures { result ≡ is_address name.now }
{
    if name == b"<default>".as_slice() {
        return false;
    }
    may_be_part(name)
}

/// Whether a name is absent or isn't empty.
pub fn is_named(name: &Option<Text>) -> bool
    ensures { result ≡ is_absent_or is_not_empty name.now }
{
    match name {
        Some(name) => !name.bytes().is_empty(),
        None => true,
    }
}

/// Whether an address is absent or may be one.
pub fn is_located(address: &Option<Text>) -> bool
    ensures { result ≡ is_absent_or is_address address.now }
{
    match address {
        Some(address) => may_be_address(address.bytes()),
        None => true,
    }
}

/// Whether a broker is absent or its id isn't negative.
fn is_numbered(broker: &Option<i32>) -> bool
    ensures { result ≡ is_absent_or is_not_negative broker.now }
{
    match broker {
        Some(broker) => 0 <= *broker,
        None => true,
    }
}

impl EntityKey {
    /// Whether the names, numbers and codes of the key are those of its entity.
    #[tactic(auto, unfolding(crate::specs::Paths::is_legal))]
    pub fn is_legal(&self) -> bool
        ensures { result ≡ is_legal self.now }
    {
        match self {
            EntityKey::Topic { name } => may_be_topic(name.bytes()),
            EntityKey::Partition { topic, number } => may_be_topic(topic.bytes()) && 0 <= *number,
            EntityKey::TopicConfig { name } => may_be_topic(name.bytes()),
            EntityKey::BrokerConfig { broker } => is_numbered(broker),
            EntityKey::Client { client } => is_named(client),
            EntityKey::User { user } => is_named(user),
            EntityKey::UserClient { user, client } => is_named(user) && is_named(client),
            EntityKey::Ip { address } => is_located(address),
            EntityKey::Acl {
                pattern,
                kind,
                name,
            } => 3 <= *pattern
                && *pattern <= 4
                && 2 <= *kind
                && *kind <= 6
                && may_be_part(name.bytes()),
            EntityKey::Producer => true,
        }
    }
}

impl Duplicate for EntityKey {
    fn copy(&self, alloc: Global) -> Result<Self, NoMemory> {
        match self {
            EntityKey::Topic { name } => Ok(EntityKey::Topic {
                name: name.copy(alloc)?,
            }),
            EntityKey::Partition { topic, number } => Ok(EntityKey::Partition {
                topic: topic.copy(alloc)?,
                number: *number,
            }),
            EntityKey::TopicConfig { name } => Ok(EntityKey::TopicConfig {
                name: name.copy(alloc)?,
            }),
            EntityKey::BrokerConfig { broker } => Ok(EntityKey::BrokerConfig {
                broker: broker.copy(alloc)?,
            }),
            EntityKey::Client { client } => Ok(EntityKey::Client {
                client: client.copy(alloc)?,
            }),
            EntityKey::User { user } => Ok(EntityKey::User {
                user: user.copy(alloc)?,
            }),
            EntityKey::UserClient { user, client } => Ok(EntityKey::UserClient {
                user: user.copy(alloc)?,
                client: client.copy(alloc)?,
            }),
            EntityKey::Ip { address } => Ok(EntityKey::Ip {
                address: address.copy(alloc)?,
            }),
            EntityKey::Acl {
                pattern,
                kind,
                name,
            } => Ok(EntityKey::Acl {
                pattern: *pattern,
                kind: *kind,
                name: name.copy(alloc)?,
            }),
            EntityKey::Producer => Ok(EntityKey::Producer),
        }
    }
}
