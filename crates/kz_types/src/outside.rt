//! How a call to the outside fails, and how a run ends.
use crate::{LogWhy, ZPath};

/// A call to a source, a sink or a disk failed.
#[derive(Clone, Copy, Debug, PartialEq, Eq)]
pub struct Failed;

/// How a run of the program ended.
#[derive(Drop, PartialEq)]
pub enum Status {
    /// The input was read to its end, and all was written.
    Done,
    /// The words name no command.
    Usage,
    /// This line of the input, counted from 1, is no event, or no line of a tree that is loaded.
    Script { line: u64 },
    /// The source failed.
    ReadFault,
    /// The sink failed.
    WriteFault,
    /// A call of the tree's disk failed.
    TreeFault,
    /// A call of the log's disk failed.
    LogFault,
    /// The tree's file is damaged at this place, in bytes.
    TreeDamaged { at: u64 },
    /// The log's file is damaged at this place, in bytes.
    LogDamaged { at: u64, why: LogWhy },
    /// The tree disagrees with the log at this path: it is as rendered at no batch end from the recorded one on, or it differs from the
    /// recorded one though nothing was written since.
    Disagrees { path: ZPath },
    /// Memory ran out.
    NoMemory,
    /// The limit numbered `which`, whose greatest value is `number`, would be passed.
    Limit { which: u8, number: u64 },
    /// A file that should be made holds a tree or a log.
    NotEmpty,
    /// An offset that was asked for isn't one from the log's base to its end.
    NoOffset { base: i64, end: i64 },
}
