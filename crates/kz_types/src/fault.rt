//! Why a call of the layers below answers no value.
use crate::{BatchFault, CodecFault, Text};

/// Why the body of a znode can't be read.
#[derive(Drop)]
pub enum BodyFault {
    /// It is no JSON object.
    NotJson,
    /// It lacks this member.
    Missing { field: Text },
    /// This member's value isn't one of its form.
    BadField { field: Text },
    /// It is a topic without an id.
    NoTopicId,
    /// It has a key that its entity hasn't.
    UnknownKey { name: Text },
    /// Memory ran out.
    NoMemory,
}

/// Why a path can't be translated.
#[derive(Drop)]
pub enum ReadWhy {
    /// It names nothing that is migrated, at or below a migrated root.
    Stray,
    /// Its body can't be read.
    Body(BodyFault),
    /// Its topic has the id of an earlier one.
    SameId,
    /// The limit of this number would be passed.
    Over { number: u8 },
}

/// Why a request of a tree wasn't answered.
#[derive(Clone, Copy, Debug, PartialEq, Eq)]
pub enum TreeFault {
    /// The operation at this index was refused with ZooKeeper's code.
    Refused { index: usize, code: i32 },
    /// The operation at this index would pass the limit of this number.
    Limit { index: usize, number: u8 },
    /// Memory ran out.
    NoMemory,
    /// The disk failed.
    Device,
    /// The disk failed in an earlier call.
    Down,
    /// The file would have this length.
    Full { length: u64 },
}

/// Why a request of a log wasn't answered.
#[derive(Clone, Copy, Debug, PartialEq, Eq)]
pub enum LogFault {
    /// The log has this epoch, and the request another.
    Stale { epoch: i32 },
    /// The disk failed.
    Failed,
    /// The limit of this number would be passed.
    Limit { number: u8 },
    /// Memory ran out.
    NoMemory,
    /// The disk failed in an earlier call.
    Down,
    /// The file would have this length.
    Full { length: u64 },
}

/// Why a log's file is damaged at a place.
#[derive(Clone, Copy, Debug, PartialEq, Eq)]
pub enum LogWhy {
    /// It doesn't begin with the header of a log's file.
    Header,
    /// A field of the frame is cut, or its kind isn't known.
    Malformed,
    /// The frame's batch can't be read.
    Batch(BatchFault),
    /// A record of the frame's batch can't be read.
    Value(CodecFault),
    /// The frame doesn't follow on the log before it.
    Sequence,
    /// The frame has another sum.
    Sum,
}
