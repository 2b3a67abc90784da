//! The committed metadata log: the trait of stores that hold one, the store in memory, and a connection to a store that may lose
//! requests. A view is what a controller knows of a log.
#![tactic(auto)]

mod base;
mod builder;
mod cursor;
mod ends;
mod laws;
mod memory;
mod pass;
mod reading;
mod rows;
mod store;
mod view;
mod wire;

pub use kz_image::Feed;
pub use kz_types::{BatchRow, LogFault};
pub use laws::views_stay;
pub use memory::MemoryLog;
pub use reading::{read_all, read_to_end};
pub use rows::LogRows;
pub use store::{Elected, MetaLog};
pub use view::View;
pub use wire::{LogWire, LogWireFault};
