//! ZooKeeper's error codes, and the states of a migration (KIP-866).

/// There is no such znode: `NoNode`.
pub const NO_NODE: i32 = -101;
/// The znode has another data version: `BadVersion`.
pub const BAD_VERSION: i32 = -103;
/// An ephemeral znode has no children: `NoChildrenForEphemerals`.
pub const NO_CHILDREN_FOR_EPHEMERALS: i32 = -108;
/// The znode is there: `NodeExists`.
pub const NODE_EXISTS: i32 = -110;
/// The znode has children: `NotEmpty`.
pub const NOT_EMPTY: i32 = -111;
/// The session isn't live: `SessionExpired`.
pub const SESSION_EXPIRED: i32 = -112;

/// No migration: the cluster began in KRaft, or nothing is known of ZooKeeper.
pub const NO_MIGRATION: i8 = 0;
/// A migration may begin.
pub const PRE_MIGRATION: i8 = 1;
/// The metadata is migrated, and changes are written to ZooKeeper too.
pub const MIGRATION: i8 = 2;
/// The migration is finalised: ZooKeeper is written no more.
pub const POST_MIGRATION: i8 = 3;
