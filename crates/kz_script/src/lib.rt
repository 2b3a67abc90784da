//! Reads and writes the lines of a script, and writes the lines that the program prints.
#![tactic(auto)]

mod events;
mod numbers;
mod ops;
mod replies;
mod statuses;
mod written;

pub use events::read_event;
pub use kz_record_json::{LineFault, read_item, write_item};
pub use kz_types::{Answer, Event};
pub use replies::{body_text, summary, write_answer};
pub use statuses::{status_code, status_text};
pub use written::write_event;
