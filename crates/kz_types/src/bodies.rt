//! What the body of a migrated znode says.
use crate::{AclRow, Duplicate, Id, NoMemory, QuotaValue, ScramRow, Sequence, Text};
use std::alloc::Global;

/// A name of a configuration and its value.
#[derive(Drop)]
pub struct Pair {
    pub name: Text,
    pub value: Text,
}

impl Duplicate for Pair {
    fn copy(&self, alloc: Global) -> Result<Self, NoMemory> {
        Ok(Pair {
            name: self.name.copy(alloc)?,
            value: self.value.copy(alloc)?,
        })
    }
}

/// A quota's key and its value.
#[derive(Drop)]
pub struct QuotaRow {
    pub key: Text,
    pub value: QuotaValue,
}

impl Duplicate for QuotaRow {
    fn copy(&self, alloc: Global) -> Result<Self, NoMemory> {
        Ok(QuotaRow {
            key: self.key.copy(alloc)?,
            value: self.value,
        })
    }
}

/// A credential's mechanism and its value.
#[derive(Drop)]
pub struct ScramPair {
    /// 1 for SCRAM-SHA-256, 2 for SCRAM-SHA-512.
    pub mechanism: i8,
    pub value: ScramRow,
}

impl Duplicate for ScramPair {
    fn copy(&self, alloc: Global) -> Result<Self, NoMemory> {
        Ok(ScramPair {
            mechanism: self.mechanism,
            value: self.value.copy(alloc)?,
        })
    }
}

/// The brokers that a topic's znode assigns to a partition.
#[derive(Drop)]
pub struct AssignmentRow {
    pub number: i32,
    pub replicas: Sequence<i32>,
    pub adding: Sequence<i32>,
    pub removing: Sequence<i32>,
}

impl Duplicate for AssignmentRow {
    fn copy(&self, alloc: Global) -> Result<Self, NoMemory> {
        Ok(AssignmentRow {
            number: self.number,
            replicas: self.replicas.copy(alloc)?,
            adding: self.adding.copy(alloc)?,
            removing: self.removing.copy(alloc)?,
        })
    }
}

/// What a body says, by the kind of its znode.
#[derive(Drop)]
pub enum Body {
    /// A topic: its id, and its partitions by rising number.
    Topic {
        id: Id,
        partitions: Sequence<AssignmentRow>,
    },
    /// The state of a partition. A leader of -1 is none.
    State {
        leader: i32,
        leader_epoch: i32,
        controller_epoch: i32,
        isr: Sequence<i32>,
        recovery: i8,
    },
    /// A configuration, by rising name.
    Config {
        pairs: Sequence<Pair>,
    },
    /// Quotas by rising key, and credentials by rising mechanism.
    Quota {
        quotas: Sequence<QuotaRow>,
        scrams: Sequence<ScramPair>,
    },
    /// Access control entries, in the order of the body.
    Acls {
        rows: Sequence<AclRow>,
    },
    /// A block of producer ids, from `start` to `end`, and the broker that holds it, or -1.
    Producer {
        broker: i32,
        start: i64,
        end: i64,
    },
    /// The empty body of the producer block.
    Blank,
}

impl Duplicate for Body {
    fn copy(&self, alloc: Global) -> Result<Self, NoMemory> {
        match self {
            Body::Topic { id, partitions } => Ok(Body::Topic {
                id: *id,
                partitions: partitions.copy(alloc)?,
            }),
            Body::State {
                leader,
                leader_epoch,
                controller_epoch,
                isr,
                recovery,
            } => Ok(Body::State {
                leader: *leader,
                leader_epoch: *leader_epoch,
                controller_epoch: *controller_epoch,
                isr: isr.copy(alloc)?,
                recovery: *recovery,
            }),
            Body::Config { pairs } => Ok(Body::Config {
                pairs: pairs.copy(alloc)?,
            }),
            Body::Quota { quotas, scrams } => Ok(Body::Quota {
                quotas: quotas.copy(alloc)?,
                scrams: scrams.copy(alloc)?,
            }),
            Body::Acls { rows } => Ok(Body::Acls {
                rows: rows.copy(alloc)?,
            }),
            Body::Producer { broker, start, end } => Ok(Body::Producer {
                broker: *broker,
                start: *start,
                end: *end,
            }),
            Body::Blank => Ok(Body::Blank),
        }
    }
}
