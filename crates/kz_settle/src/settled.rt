//! What a settler answers.
use kz_types::Entry;

/// What a settler answers to an entry.
#[derive(Drop)]
pub enum Settled {
    /// It stands outside every transaction and counts.
    Now(Entry),
    /// It begins a transaction or stands inside one.
    Kept,
    /// It ends a transaction, whose records count and are to be popped.
    Released,
    /// It aborts a transaction, whose records never count; or it is an End or Abort outside every transaction.
    Dropped,
}
