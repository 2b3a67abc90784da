//! Records of the metadata log, after Kafka's record schemas (KIP-631, KIP-868, KIP-866), and why bytes are none.
use crate::{Duplicate, Id, NoMemory, QuotaValue, Sequence, Text, copy_all};
use std::alloc::Global;
use std::marker::Model;

/// An address that a broker listens at.
#[derive(Drop)]
pub struct Endpoint {
    /// The listener's name.
    pub name: Text,
    /// The host name or address that clients connect to.
    pub host: Text,
    /// The port that clients connect to.
    pub port: u16,
    /// The security protocol: 0 PLAINTEXT, 1 SSL, 2 SASL_PLAINTEXT, 3 SASL_SSL. Any number is taken.
    pub protocol: i16,
}

impl Duplicate for Endpoint {
    fn copy(&self, alloc: Global) -> Result<Self, NoMemory> {
        Ok(Endpoint {
            name: self.name.copy(alloc)?,
            host: self.host.copy(alloc)?,
            port: self.port,
            protocol: self.protocol,
        })
    }
}

/// A feature of a broker, and the versions that it knows.
#[derive(Drop)]
pub struct Feature {
    /// The feature's name.
    pub name: Text,
    /// The least version that the broker supports.
    pub min: i16,
    /// The greatest version that the broker supports.
    pub max: i16,
}

impl Duplicate for Feature {
    fn copy(&self, alloc: Global) -> Result<Self, NoMemory> {
        Ok(Feature {
            name: self.name.copy(alloc)?,
            min: self.min,
            max: self.max,
        })
    }
}

/// A broker registers.
/// Kafka's RegisterBrokerRecord at version 2. A later registration of the same broker takes the place of an earlier one.
#[derive(Drop)]
pub struct RegisterBrokerRecord {
    /// The broker's id, at least 0 where the metadata takes the record.
    pub broker_id: i32,
    /// Whether it is a ZooKeeper-mode broker that is ready to migrate.
    pub migrating: bool,
    /// An id that a broker process makes anew at each start.
    pub incarnation: Id,
    /// The epoch that the controller gave to this registration. The metadata takes 0 to 2,147,483,647.
    pub broker_epoch: i64,
    /// The addresses that the broker listens at.
    pub endpoints: Sequence<Endpoint>,
    /// The features that the broker supports.
    pub features: Sequence<Feature>,
    /// The broker's rack, or none.
    pub rack: Option<Text>,
    /// Whether the broker is fenced, so that it leads no partition.
    pub fenced: bool,
    /// Whether the broker is in a controlled shutdown.
    pub in_shutdown: bool,
}

impl Duplicate for RegisterBrokerRecord {
    fn copy(&self, alloc: Global) -> Result<Self, NoMemory> {
        Ok(RegisterBrokerRecord {
            broker_id: self.broker_id,
            migrating: self.migrating,
            incarnation: self.incarnation,
            broker_epoch: self.broker_epoch,
            endpoints: self.endpoints.copy(alloc)?,
            features: self.features.copy(alloc)?,
            rack: self.rack.copy(alloc)?,
            fenced: self.fenced,
            in_shutdown: self.in_shutdown,
        })
    }
}

/// A topic is made.
/// Kafka's TopicRecord at version 0. The topic has no partition yet.
#[derive(Drop)]
pub struct TopicRecord {
    /// The topic's name.
    pub name: Text,
    /// The topic's id, which no other topic has. Zero is no id.
    pub topic_id: Id,
}

impl Duplicate for TopicRecord {
    fn copy(&self, alloc: Global) -> Result<Self, NoMemory> {
        Ok(TopicRecord {
            name: self.name.copy(alloc)?,
            topic_id: self.topic_id,
        })
    }
}

/// A partition of a topic is made.
/// Kafka's PartitionRecord at version 0.
#[derive(Drop)]
pub struct PartitionRecord {
    /// The partition's number, from 0 on.
    pub partition_id: i32,
    /// The id of its topic.
    pub topic_id: Id,
    /// The brokers that hold the partition, the preferred leader first.
    pub replicas: Sequence<i32>,
    /// The replicas that are in sync.
    pub isr: Sequence<i32>,
    /// The replicas that a reassignment is removing.
    pub removing: Sequence<i32>,
    /// The replicas that a reassignment is adding.
    pub adding: Sequence<i32>,
    /// The leader, or -1 for none.
    pub leader: i32,
    /// 0 where the leader is recovered, 1 where it is recovering. By default 0.
    pub recovery: i8,
    /// The leader's epoch, which rises with each leader.
    pub leader_epoch: i32,
    /// The partition's epoch, which rises with each change of the partition.
    pub partition_epoch: i32,
}

impl Duplicate for PartitionRecord {
    fn copy(&self, alloc: Global) -> Result<Self, NoMemory> {
        Ok(PartitionRecord {
            partition_id: self.partition_id,
            topic_id: self.topic_id,
            replicas: self.replicas.copy(alloc)?,
            isr: self.isr.copy(alloc)?,
            removing: self.removing.copy(alloc)?,
            adding: self.adding.copy(alloc)?,
            leader: self.leader,
            recovery: self.recovery,
            leader_epoch: self.leader_epoch,
            partition_epoch: self.partition_epoch,
        })
    }
}

/// A member of a configuration is set, or removed where it has no value.
/// Kafka's ConfigRecord at version 0.
#[derive(Drop)]
pub struct ConfigRecord {
    /// 2 for a topic, 4 for a broker.
    pub resource_type: i8,
    /// A topic's name, or a broker's id in decimal; empty for all brokers.
    pub resource_name: Text,
    /// The member's name, such as `retention.ms`.
    pub name: Text,
    /// The member's value, or none to remove it.
    pub value: Option<Text>,
}

impl Duplicate for ConfigRecord {
    fn copy(&self, alloc: Global) -> Result<Self, NoMemory> {
        Ok(ConfigRecord {
            resource_type: self.resource_type,
            resource_name: self.resource_name.copy(alloc)?,
            name: self.name.copy(alloc)?,
            value: self.value.copy(alloc)?,
        })
    }
}

/// Parts of a partition change: those that are stated.
/// Kafka's PartitionChangeRecord at version 0. What isn't stated stays as it was. The change raises the partition epoch
/// by one, and a stated leader raises the leader epoch by one.
#[derive(Drop)]
pub struct PartitionChangeRecord {
    /// The partition's number.
    pub partition_id: i32,
    /// The id of its topic.
    pub topic_id: Id,
    /// The replicas that are in sync from now on.
    pub isr: Option<Sequence<i32>>,
    /// The leader, -1 for none, or -2 where none is stated.
    pub leader: i32,
    /// The brokers that hold the partition from now on.
    pub replicas: Option<Sequence<i32>>,
    /// The replicas that a reassignment is removing from now on.
    pub removing: Option<Sequence<i32>>,
    /// The replicas that a reassignment is adding from now on.
    pub adding: Option<Sequence<i32>>,
    /// 0 or 1 as in a partition, or -1 where it isn't stated.
    pub recovery: i8,
}

impl Duplicate for PartitionChangeRecord {
    fn copy(&self, alloc: Global) -> Result<Self, NoMemory> {
        Ok(PartitionChangeRecord {
            partition_id: self.partition_id,
            topic_id: self.topic_id,
            isr: self.isr.copy(alloc)?,
            leader: self.leader,
            replicas: self.replicas.copy(alloc)?,
            removing: self.removing.copy(alloc)?,
            adding: self.adding.copy(alloc)?,
            recovery: self.recovery,
        })
    }
}

/// A credential of a user is set.
/// Kafka's UserScramCredentialRecord at version 0. It takes the place of the user's credential of the same mechanism.
#[derive(Drop)]
pub struct UserScramCredentialRecord {
    /// The user's name.
    pub name: Text,
    /// 1 for SCRAM-SHA-256, 2 for SCRAM-SHA-512.
    pub mechanism: i8,
    /// The salt of RFC 5802.
    pub salt: Sequence<u8>,
    /// The stored key of RFC 5802.
    pub stored_key: Sequence<u8>,
    /// The server key of RFC 5802.
    pub server_key: Sequence<u8>,
    /// How often the password was hashed, at least 1 where the metadata takes the record.
    pub iterations: i32,
}

impl Duplicate for UserScramCredentialRecord {
    fn copy(&self, alloc: Global) -> Result<Self, NoMemory> {
        Ok(UserScramCredentialRecord {
            name: self.name.copy(alloc)?,
            mechanism: self.mechanism,
            salt: self.salt.copy(alloc)?,
            stored_key: self.stored_key.copy(alloc)?,
            server_key: self.server_key.copy(alloc)?,
            iterations: self.iterations,
        })
    }
}

/// A part of whom a quota speaks of.
#[derive(Drop)]
pub struct QuotaEntity {
    /// `user`, `client-id` or `ip`.
    pub kind: Text,
    /// The name, or none for the default.
    pub name: Option<Text>,
}

impl Duplicate for QuotaEntity {
    fn copy(&self, alloc: Global) -> Result<Self, NoMemory> {
        Ok(QuotaEntity {
            kind: self.kind.copy(alloc)?,
            name: self.name.copy(alloc)?,
        })
    }
}

/// Whom a quota speaks of: its parts, in order, which contracts see as a list. A user and a client id stand with the
/// user first, whatever order they come in, so that this pair is one value.
#[derive(Drop)]
pub struct QuotaEntities {
    parts: Vec<QuotaEntity>,
}

impl Model for QuotaEntities {
    ghost use Rattle.std.specs.Prelude.{◌≡◌, List, false};
    ghost use Rattle.kz_types.specs.QuotaEntities.{is_client_first};
    ghost use Rattle.kz_types.specs.declared.record.QuotaEntity.{QuotaEntity};

    ghost Value = { List QuotaEntity };

    ghost view = { λ q. q.parts.items };

    ghost invariant = { λ q. is_client_first q.parts.items ≡ false };
}

impl QuotaEntities {
    ghost use Rattle.std.specs.Prelude.{◌≡◌, length, false};
    ghost use Rattle.kz_types.specs.QuotaEntities.{is_client_first, user_first};

    /// These parts, and the pair of a client id and a user with the user first.
    pub fn from_vec(parts: Vec<QuotaEntity>) -> QuotaEntities
        ensures value { result ≡ user_first parts.items }
        ensures order { is_client_first result ≡ false }
    {
        QuotaEntities {
            parts: QuotaEntities::put_user_first(parts),
        }
    }

    // These parts with the user first.
    fn put_user_first(mut parts: Vec<QuotaEntity>) -> Vec<QuotaEntity>
        ensures value { result.items ≡ user_first parts.items }
        ensures order { is_client_first result.items ≡ false }
    {
        if QuotaEntities::is_client_first(&parts) {
            parts.swap(0, 1);
        }
        parts
    }

    // Whether these are a client id and then a user.
    fn is_client_first(parts: &[QuotaEntity]) -> bool
        ensures { result ≡ is_client_first parts.now }
    {
        match parts {
            [first, second] => first.kind.as_str() == "client-id" && second.kind.as_str() == "user",
            _ => false,
        }
    }

    /// Lends the parts.
    pub fn as_slice(&self) -> &[QuotaEntity]
        ensures value { result.now ≡ self.now }
        ensures order { is_client_first self.now ≡ false }
    {
        self.parts.as_slice()
    }

    /// How many parts there are.
    pub fn len(&self) -> usize
        ensures { result ≡ length self.now }
    {
        self.parts.len()
    }
}

impl Duplicate for QuotaEntities {
    fn copy(&self, alloc: Global) -> Result<Self, NoMemory> {
        Ok(QuotaEntities {
            parts: copy_all(alloc, &self.parts)?,
        })
    }
}

/// A quota is set, or removed.
/// Kafka's ClientQuotaRecord, whose value is a whole number and millionths in place of a 64-bit float.
#[derive(Drop)]
pub struct ClientQuotaRecord {
    /// Whom the quota speaks of: a user, a client id, both, or an address.
    pub entity: QuotaEntities,
    /// Which quota it is: `producer_byte_rate`, `consumer_byte_rate`, `request_percentage`, `controller_mutation_rate`,
    /// or of an address `connection_creation_rate`.
    pub key: Text,
    /// The quota: bytes a second, percent of a thread's time, or mutations or connections a second, as the key says.
    pub value: QuotaValue,
    /// Whether the quota is removed. Its value counts for nothing then, but is judged like any other.
    pub remove: bool,
}

impl Duplicate for ClientQuotaRecord {
    fn copy(&self, alloc: Global) -> Result<Self, NoMemory> {
        Ok(ClientQuotaRecord {
            entity: self.entity.copy(alloc)?,
            key: self.key.copy(alloc)?,
            value: self.value,
            remove: self.remove,
        })
    }
}

/// A broker takes a block of producer ids.
/// Kafka's ProducerIdsRecord at version 0. A block has 1,000 ids.
#[derive(Clone, Copy, Debug, PartialEq, Eq)]
pub struct ProducerIdsRecord {
    /// The broker, or -1 for none, as a migration writes it.
    pub broker_id: i32,
    /// The broker's epoch when it took the block, or -1 for none.
    pub broker_epoch: i64,
    /// The first id after the block.
    pub next: i64,
}

/// An access control entry is made.
/// Kafka's AccessControlEntryRecord at version 0.
#[derive(Drop)]
pub struct AccessControlEntryRecord {
    /// The entry's id, which no other entry has. Zero is no id.
    pub id: Id,
    /// The resource's type: 2 Topic, 3 Group, 4 Cluster, 5 TransactionalId, 6 DelegationToken.
    pub resource_type: i8,
    /// The resource's name, or the prefix of names.
    pub resource_name: Text,
    /// How the name is matched: 3 literally, 4 as a prefix.
    pub pattern_type: i8,
    /// Whom the entry speaks of, such as `User:alice`.
    pub principal: Text,
    /// The host that they connect from, or `*` for any.
    pub host: Text,
    /// The operation: 2 All, 3 Read, 4 Write, 5 Create, 6 Delete, 7 Alter, 8 Describe, 9 ClusterAction,
    /// 10 DescribeConfigs, 11 AlterConfigs, 12 IdempotentWrite.
    pub operation: i8,
    /// Whether it is allowed: 2 denied, 3 allowed.
    pub permission: i8,
}

impl Duplicate for AccessControlEntryRecord {
    fn copy(&self, alloc: Global) -> Result<Self, NoMemory> {
        Ok(AccessControlEntryRecord {
            id: self.id,
            resource_type: self.resource_type,
            resource_name: self.resource_name.copy(alloc)?,
            pattern_type: self.pattern_type,
            principal: self.principal.copy(alloc)?,
            host: self.host.copy(alloc)?,
            operation: self.operation,
            permission: self.permission,
        })
    }
}

/// A record of the metadata log. Its keys, versions and fields stand in docs/formats-records.md.
#[derive(Drop)]
pub enum MetaRecord {
    /// A broker registers.
    RegisterBroker(RegisterBrokerRecord),
    /// A topic is made.
    Topic(TopicRecord),
    /// A partition is made.
    Partition(PartitionRecord),
    /// A member of a configuration is set or removed.
    Config(ConfigRecord),
    /// Parts of a partition change.
    PartitionChange(PartitionChangeRecord),
    /// A topic is removed, with its partitions and configuration.
    /// `topic_id` is the topic's id.
    RemoveTopic { topic_id: Id },
    /// A credential of a user is set.
    UserScramCredential(UserScramCredentialRecord),
    /// A quota is set or removed.
    ClientQuota(ClientQuotaRecord),
    /// A block of producer ids is taken.
    ProducerIds(ProducerIdsRecord),
    /// An access control entry is made.
    AccessControlEntry(AccessControlEntryRecord),
    /// An access control entry is removed.
    /// `id` is the entry's id.
    RemoveAccessControlEntry { id: Id },
    /// Nothing. An election writes one, so that its epoch has a record.
    NoOp,
    /// The state of the migration: 0 none, 1 pre-migration, 2 migration, 3 post-migration.
    /// Another number changes nothing.
    ZkMigrationState { state: i8 },
    /// A credential of a user is removed.
    /// `name` is the user's, and `mechanism` is 1 for SCRAM-SHA-256, 2 for SCRAM-SHA-512.
    RemoveUserScramCredential { name: Text, mechanism: i8 },
    /// A transaction begins (KIP-868): the records after it count once it has ended. `name` says what it is for.
    BeginTransaction { name: Option<Text> },
    /// A transaction ends, and its records count.
    EndTransaction,
    /// A transaction ends, and its records never count. `reason` says why.
    AbortTransaction { reason: Option<Text> },
}

impl Duplicate for MetaRecord {
    fn copy(&self, alloc: Global) -> Result<Self, NoMemory> {
        match self {
            MetaRecord::RegisterBroker(record) => Ok(MetaRecord::RegisterBroker(record.copy(
                alloc,
            )?)),
            MetaRecord::Topic(record) => Ok(MetaRecord::Topic(record.copy(alloc)?)),
            MetaRecord::Partition(record) => Ok(MetaRecord::Partition(record.copy(alloc)?)),
            MetaRecord::Config(record) => Ok(MetaRecord::Config(record.copy(alloc)?)),
            MetaRecord::PartitionChange(record) => Ok(MetaRecord::PartitionChange(record.copy(
                alloc,
            )?)),
            MetaRecord::RemoveTopic { topic_id } => Ok(MetaRecord::RemoveTopic {
                topic_id: *topic_id,
            }),
            MetaRecord::UserScramCredential(record) => Ok(MetaRecord::UserScramCredential(
                record.copy(alloc)?,
            )),
            MetaRecord::ClientQuota(record) => Ok(MetaRecord::ClientQuota(record.copy(alloc)?)),
            MetaRecord::ProducerIds(record) => Ok(MetaRecord::ProducerIds(*record)),
            MetaRecord::AccessControlEntry(record) => Ok(MetaRecord::AccessControlEntry(record.copy(
                alloc,
            )?)),
            MetaRecord::RemoveAccessControlEntry { id } => Ok(MetaRecord::RemoveAccessControlEntry {
                id: *id,
            }),
            MetaRecord::NoOp => Ok(MetaRecord::NoOp),
            MetaRecord::ZkMigrationState { state } => Ok(MetaRecord::ZkMigrationState {
                state: *state,
            }),
            MetaRecord::RemoveUserScramCredential { name, mechanism } => Ok(
                MetaRecord::RemoveUserScramCredential {
                    name: name.copy(alloc)?,
                    mechanism: *mechanism,
                },
            ),
            MetaRecord::BeginTransaction { name } => Ok(MetaRecord::BeginTransaction {
                name: name.copy(alloc)?,
            }),
            MetaRecord::EndTransaction => Ok(MetaRecord::EndTransaction),
            MetaRecord::AbortTransaction { reason } => Ok(MetaRecord::AbortTransaction {
                reason: reason.copy(alloc)?,
            }),
        }
    }
}

/// Why a field can't be read, and the first byte at which no spelling goes on.
#[derive(Clone, Copy, Debug, PartialEq, Eq)]
pub enum ByteFault {
    /// The bytes end here, within the field.
    Short { at: usize },
    /// A number of variable length has no end or passes its range at this byte.
    Overlong { at: usize },
    /// A text is no UTF-8 from this byte on.
    NotUtf8 { at: usize },
}

/// Why bytes are no record, in the order in which they are read.
#[derive(Clone, Copy, Debug, PartialEq, Eq)]
pub enum CodecFault {
    /// The bytes end here, within the record.
    Short { at: usize },
    /// No record has this key.
    UnknownKey { key: u32 },
    /// The record of this key has another version.
    UnknownVersion { key: u32, version: u32 },
    /// A field that begins here, or that has this byte, has a value that it can't have.
    BadField { at: usize },
    /// The record ends here, and the bytes don't.
    Rest { at: usize },
    /// Memory ran out.
    NoMemory,
}

/// Why bytes are no batch of records, in the order in which this is tested.
#[derive(Clone, Copy, Debug, PartialEq, Eq)]
pub enum BatchFault {
    /// The bytes end before the header or the stated length does, or that length is less than the header's.
    Short,
    /// The format has another number than 2.
    BadMagic { byte: u8 },
    /// The stated checksum isn't that of the bytes.
    BadCrc { stored: u32, computed: u32 },
    /// The records are compressed, by the method of this number.
    Compressed { bits: u8 },
    /// The records don't fill the stated length in the stated number, or one of them is malformed.
    BadCount,
    /// The records don't have the offsets 0, 1, 2 and so on.
    BadOrder,
}
