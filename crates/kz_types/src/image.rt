//! What the metadata holds of its entities.
use crate::{
    AclRow, Duplicate, Id, NoMemory, Pair, PartitionRow, QuotaRow, ScramPair, Sequence, Shared,
    Text, ZPath,
};
use std::alloc::Global;

/// The configuration of a resource: its name, and its members by rising name, of which there is at least one.
#[derive(Drop)]
pub struct Configuration {
    /// The resource's name: a broker's id in decimal, or empty for all brokers.
    pub name: Text,
    /// The members and their values.
    pub pairs: Sequence<Pair>,
}

impl Duplicate for Configuration {
    fn copy(&self, alloc: Global) -> Result<Self, NoMemory> {
        Ok(Configuration {
            name: self.name.copy(alloc)?,
            pairs: self.pairs.copy(alloc)?,
        })
    }
}

/// A partition of a topic, and its number.
#[derive(Drop)]
pub struct PartitionEntry {
    /// The number, from 0 on.
    pub number: i32,
    /// The partition.
    pub row: PartitionRow,
}

impl Duplicate for PartitionEntry {
    fn copy(&self, alloc: Global) -> Result<Self, NoMemory> {
        Ok(PartitionEntry {
            number: self.number,
            row: self.row.copy(alloc)?,
        })
    }
}

/// A topic: its name and its id, its partitions by rising number, and its configuration by rising name.
#[derive(Drop)]
pub struct TopicEntry {
    /// The topic's name.
    pub name: Text,
    /// The topic's id, never zero.
    pub id: Id,
    /// The partitions, each shared with the copies of the topic: a copy costs a pointer for each.
    pub partitions: Sequence<Shared<PartitionEntry>>,
    /// The members of the configuration and their values; none where it has none.
    pub pairs: Sequence<Pair>,
}

impl Duplicate for TopicEntry {
    fn copy(&self, alloc: Global) -> Result<Self, NoMemory> {
        Ok(TopicEntry {
            name: self.name.copy(alloc)?,
            id: self.id,
            partitions: self.partitions.copy(alloc)?,
            pairs: self.pairs.copy(alloc)?,
        })
    }
}

/// The quotas of an entity: the path of its znode, and its quotas by rising key, of which there is at least one.
#[derive(Drop)]
pub struct QuotaEntry {
    /// Such as `/config/users/alice`.
    pub path: ZPath,
    /// The quotas.
    pub quotas: Sequence<QuotaRow>,
}

impl Duplicate for QuotaEntry {
    fn copy(&self, alloc: Global) -> Result<Self, NoMemory> {
        Ok(QuotaEntry {
            path: self.path.copy(alloc)?,
            quotas: self.quotas.copy(alloc)?,
        })
    }
}

/// The credentials of a user, by rising mechanism, of which there is at least one.
#[derive(Drop)]
pub struct ScramEntry {
    /// The user's name.
    pub name: Text,
    /// The credentials.
    pub scrams: Sequence<ScramPair>,
}

impl Duplicate for ScramEntry {
    fn copy(&self, alloc: Global) -> Result<Self, NoMemory> {
        Ok(ScramEntry {
            name: self.name.copy(alloc)?,
            scrams: self.scrams.copy(alloc)?,
        })
    }
}

/// An access control entry, and its id.
#[derive(Drop)]
pub struct AclEntry {
    /// The id, never zero.
    pub id: Id,
    /// The entry.
    pub row: AclRow,
}

impl Duplicate for AclEntry {
    fn copy(&self, alloc: Global) -> Result<Self, NoMemory> {
        Ok(AclEntry {
            id: self.id,
            row: self.row.copy(alloc)?,
        })
    }
}
