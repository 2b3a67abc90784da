//! What is told of a tree and a log, and what a line of a tree that is loaded says.
use kz_types::{Row, Sequence};

/// The figures of a tree and a log.
#[derive(Clone, Copy, Debug, PartialEq, Eq)]
pub struct Figures {
    /// The tree's last zxid.
    pub zxid: i64,
    /// How many znodes the tree has, without the root.
    pub znodes: usize,
    /// The epoch of the controller that was elected last, or 0.
    pub epoch: i32,
    /// The log's base.
    pub base: i64,
    /// The log's end.
    pub end: i64,
    /// The state of the migration at the log's end: 0 none, 1 begun, 2 migrated, 3 finalised.
    pub migration: i8,
    /// The offset that the tree records, if it records one.
    pub recorded: Option<i64>,
}

/// What a line of a tree that is loaded says.
#[derive(Drop)]
pub enum LoadLine {
    /// The tree's last zxid and its live sessions: the first line.
    Head { zxid: i64, sessions: Sequence<i64> },
    /// A znode.
    Znode(Row),
}
