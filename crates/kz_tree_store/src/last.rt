//! The end of a load.
use kz_types::Sequence;

/// What ends a load: the tree's last zxid, and its live sessions.
#[derive(Drop)]
pub struct LoadLast {
    /// 0 to [`MAX_LONG`](kz_types::MAX_LONG).
    pub zxid: i64,
    /// They are at least 1, and rise.
    pub sessions: Sequence<i64>,
}
