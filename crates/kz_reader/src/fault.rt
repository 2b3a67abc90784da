//! Why znodes can't be translated.
use kz_types::{ReadWhy, ZPath};

/// Why znodes can't be translated.
#[derive(Drop)]
pub enum ReadFault {
    /// The path of the first znode that can't be, and why. A limit that all of them pass is told at `/brokers/topics`.
    Untranslatable { path: ZPath, why: ReadWhy },
    /// Memory ran out.
    NoMemory,
}
