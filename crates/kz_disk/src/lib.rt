//! What a store's file stands on: a model of a disk that may fail, and may lose at a stop what wasn't synced.
//!
//! A disk has contents, which it tells to contracts in every state or in none. Between two syncs that succeed, each range
//! that was written and what stands past the old end may hold any bytes after a stop; all other bytes stay. After a sync that
//! succeeds, a stop leaves what a read gives. A disk also says what a stop at an earlier moment might have left.
//!
//! Each disk counts its faults, as sources and sinks do: the count never falls, and stands still in each call that
//! succeeds; a call fails only where the count rises, or stands at the greatest value of 64 bits. Each disk also tells
//! whether its last call failed, and how often a sync has succeeded.
#![tactic(auto)]

mod calls;
mod changes;
mod disk;
mod fail;
mod file;
mod image;
mod memory;
mod stop;

pub use disk::Disk;
pub use fail::FailDisk;
pub use file::FileDisk;
pub use kz_types::Failed;
pub use memory::MemoryDisk;
pub use stop::StopDisk;
