//! What the metadata holds of an entity.
use crate::{Duplicate, NoMemory, Sequence, Text};
use std::alloc::Global;

/// A quota: a whole number and millionths.
/// Bytes a second, percent of a thread's time, or mutations or connections a second, by the quota's key.
#[derive(Clone, Copy, Debug, PartialEq, Eq)]
pub struct QuotaValue {
    /// The whole part.
    pub whole: i64,
    /// The millionths, from 0 to 999,999.
    pub micros: i32,
}

impl Duplicate for QuotaValue {
    fn copy(&self, _alloc: Global) -> Result<Self, NoMemory> {
        Ok(*self)
    }
}

/// What the metadata holds of a partition.
#[derive(Drop)]
pub struct PartitionRow {
    /// The brokers that hold it.
    pub replicas: Sequence<i32>,
    /// The brokers that are in sync.
    pub isr: Sequence<i32>,
    /// The replicas that a reassignment removes.
    pub removing: Sequence<i32>,
    /// The replicas that a reassignment adds.
    pub adding: Sequence<i32>,
    /// The leader, or -1 for none.
    pub leader: i32,
    /// 0 where the leader is recovered, 1 where it is recovering.
    pub recovery: i8,
    /// The one that it was made with, and one more for each leader that was stated since.
    pub leader_epoch: i32,
    /// The one that it was made with, and one more for each change since.
    pub partition_epoch: i32,
    /// The epoch of the batch that changed it last.
    pub controller_epoch: i32,
}

impl Duplicate for PartitionRow {
    fn copy(&self, alloc: Global) -> Result<Self, NoMemory> {
        Ok(PartitionRow {
            replicas: self.replicas.copy(alloc)?,
            isr: self.isr.copy(alloc)?,
            removing: self.removing.copy(alloc)?,
            adding: self.adding.copy(alloc)?,
            leader: self.leader,
            recovery: self.recovery,
            leader_epoch: self.leader_epoch,
            partition_epoch: self.partition_epoch,
            controller_epoch: self.controller_epoch,
        })
    }
}

/// An access control entry. The codes are Kafka's.
#[derive(Drop)]
pub struct AclRow {
    /// The resource's type.
    /// 2 Topic, 3 Group, 4 Cluster, 5 TransactionalId, 6 DelegationToken.
    pub kind: i8,
    /// How the resource's name is matched: 3 literally, 4 as a prefix.
    pub pattern: i8,
    /// The resource's name.
    pub name: Text,
    /// Who it speaks of.
    pub principal: Text,
    /// The host that they come from.
    pub host: Text,
    /// The operation.
    /// 2 All, 3 Read, 4 Write, 5 Create, 6 Delete, 7 Alter, 8 Describe, 9 ClusterAction, 10 DescribeConfigs,
    /// 11 AlterConfigs, 12 IdempotentWrite.
    pub operation: i8,
    /// Whether it is allowed: 2 denied, 3 allowed.
    pub permission: i8,
}

impl Duplicate for AclRow {
    fn copy(&self, alloc: Global) -> Result<Self, NoMemory> {
        Ok(AclRow {
            kind: self.kind,
            pattern: self.pattern,
            name: self.name.copy(alloc)?,
            principal: self.principal.copy(alloc)?,
            host: self.host.copy(alloc)?,
            operation: self.operation,
            permission: self.permission,
        })
    }
}

/// A credential of a user, after RFC 5802.
#[derive(Drop)]
pub struct ScramRow {
    /// The salt that the password is hashed with.
    pub salt: Sequence<u8>,
    /// The hash of the client's key, by which the server knows the client.
    pub stored_key: Sequence<u8>,
    /// The key by which the server shows that it knows the password.
    pub server_key: Sequence<u8>,
    /// At least 1.
    /// It is how often the password was hashed.
    pub iterations: i32,
}

impl Duplicate for ScramRow {
    fn copy(&self, alloc: Global) -> Result<Self, NoMemory> {
        Ok(ScramRow {
            salt: self.salt.copy(alloc)?,
            stored_key: self.stored_key.copy(alloc)?,
            server_key: self.server_key.copy(alloc)?,
            iterations: self.iterations,
        })
    }
}
