//! What the frames of a tree's file hold.
use kz_types::{Op, Row, Sequence};

/// A transaction of a tree, as a frame holds it.
#[derive(Drop)]
pub enum Txn {
    /// A multi that was done, and its zxid.
    Multi { zxid: i64, ops: Sequence<Op> },
    /// Znodes of a tree that is loaded. With `first` the load begins anew.
    LoadRows { first: bool, rows: Sequence<Row> },
    /// The end of a load: the tree's last zxid, and its live sessions.
    LoadEnd { zxid: i64, sessions: Sequence<i64> },
    /// A session has begun.
    Begin { zxid: i64, session: i64 },
    /// A session has ended.
    End { zxid: i64, session: i64 },
}
