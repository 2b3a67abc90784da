//! Znodes, and what is asked of them.
use crate::{Duplicate, NoMemory, Sequence, ZPath};
use std::alloc::Global;

/// A znode of a ZooKeeper tree.
#[derive(Drop)]
pub struct Row {
    pub path: ZPath,
    pub body: Sequence<u8>,
    /// How often the body was set.
    pub version: i32,
    /// The session that an ephemeral znode ends with.
    pub owner: Option<i64>,
    /// The transaction that made it.
    pub czxid: i64,
    /// The transaction that made it or set its body last.
    pub mzxid: i64,
    /// The transaction that made it or last made or deleted a child.
    pub pzxid: i64,
}

impl Duplicate for Row {
    fn copy(&self, alloc: Global) -> Result<Self, NoMemory> {
        Ok(Row {
            path: self.path.copy(alloc)?,
            body: self.body.copy(alloc)?,
            version: self.version,
            owner: self.owner,
            czxid: self.czxid,
            mzxid: self.mzxid,
            pzxid: self.pzxid,
        })
    }
}

/// An operation of a multi. A version of -1 is any.
#[derive(Drop)]
pub enum Op {
    /// Makes a znode, ephemeral where it has an owner.
    Create {
        path: ZPath,
        body: Sequence<u8>,
        owner: Option<i64>,
    },
    /// Sets the body of a znode of this version.
    Set {
        path: ZPath,
        body: Sequence<u8>,
        version: i32,
    },
    /// Deletes a znode of this version.
    Delete {
        path: ZPath,
        version: i32,
    },
    /// Asks for a znode of this version.
    Check {
        path: ZPath,
        version: i32,
    },
}

impl Duplicate for Op {
    fn copy(&self, alloc: Global) -> Result<Self, NoMemory> {
        match self {
            Op::Create { path, body, owner } => Ok(Op::Create {
                path: path.copy(alloc)?,
                body: body.copy(alloc)?,
                owner: *owner,
            }),
            Op::Set {
                path,
                body,
                version,
            } => Ok(Op::Set {
                path: path.copy(alloc)?,
                body: body.copy(alloc)?,
                version: *version,
            }),
            Op::Delete { path, version } => Ok(Op::Delete {
                path: path.copy(alloc)?,
                version: *version,
            }),
            Op::Check { path, version } => Ok(Op::Check {
                path: path.copy(alloc)?,
                version: *version,
            }),
        }
    }
}

/// A path and the body that it is to have.
#[derive(Drop)]
pub struct Rendered {
    pub path: ZPath,
    pub body: Sequence<u8>,
}

impl Duplicate for Rendered {
    fn copy(&self, alloc: Global) -> Result<Self, NoMemory> {
        Ok(Rendered {
            path: self.path.copy(alloc)?,
            body: self.body.copy(alloc)?,
        })
    }
}
