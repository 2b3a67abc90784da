//! The payloads of the frames in a log's file: what each makes of the log, and what is written for a change.
#![tactic(auto)]

mod fault;
mod payload;
mod pieces;
mod same;
mod snapshot;
mod snapshot_payload;
mod take;

pub use fault::FrameFault;
pub use payload::{batch_bytes, reset_bytes};
pub use snapshot_payload::cut_and_bytes;
pub use take::take_payload;
