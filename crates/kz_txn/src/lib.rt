//! Transactions of a tree, written to bytes and read from them.
#![tactic(auto)]

mod fault;
mod fields;
mod laws;
mod read;
mod size;
mod write;

pub use fault::TxnFault;
pub use kz_spec_data::Txn;
pub use laws::written_is_read;
pub use read::read_txn;
pub use size::{row_size, txn_size};
pub use write::{put_load_rows_head, put_row, write_txn};
