//! Frames of a journal on a disk.
//!
//! A frame counts from the moment at which its gate is open on the disk. All that stands after the gate is written and synced
//! before the gate is touched, so a stop at any moment leaves the frames from before an append, or these and the new one whole.
#![tactic(auto)]

mod append;
mod change;
mod change_fault;
mod close;
mod create;
mod device;
mod fault;
mod find;
mod frame;
mod journal;
mod next;
mod open;
mod place;
mod read;
mod seal;
mod sealing;

pub use change::write_frame;
pub use change_fault::ChangeFault;
pub use fault::JournalFault;
pub use journal::{Frame, Journal};
pub use sealing::write_seal;
