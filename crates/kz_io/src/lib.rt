//! What a program reads from and writes to: a model of input and output that may fail.
//!
//! A source has bytes left, and a sink has bytes taken. An object either tells its contents to contracts in every
//! state, or in none. Each object counts its faults. The count never falls, and stands still in each call that
//! succeeds; a call fails only where the count rises, or stands at the greatest value of 64 bits. Each object also tells
//! whether its last call failed.
#![tactic(auto)]

mod memory;
mod sink;
mod source;
mod standard;

pub use kz_types::Failed;
pub use memory::{MemorySink, MemorySource};
pub use sink::{Sink, send};
pub use source::Source;
pub use standard::{StdSink, StdSource};
