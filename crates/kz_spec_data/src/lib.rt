//! Definitions of data: what quotas, bodies, records and batches mean, what the lines of a script mean and which lines the
//! program prints, what the metadata, the log and the tree are, what their files and snapshots hold, and which znodes stand for
//! the metadata.
//!
//! The definitions stand in specs/. A law is the contract of a function that does nothing.
#![tactic(auto)]

pub mod batches;
mod body_examples;
mod client_laws;
mod difference_examples;
mod event_laws;
mod files;
mod image_examples;
mod journal_examples;
mod line_laws;
mod log_examples;
mod lookup_examples;
pub mod quotas;
mod record_laws;
pub mod records;
mod rendering_examples;
mod reply_laws;
mod snapshot_examples;
mod span_examples;
mod touched_examples;
mod translation_examples;
mod tree_examples;
mod written_laws;

pub use files::Txn;
