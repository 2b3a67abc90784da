//! What a driver does in each of its states.
//!
//! After KIP-866. Each state has a file: what it asks for, and what follows the answer. What follows where no answer comes is
//! the same for all requests of a kind, and stands in `unanswered`.
#![tactic(auto)]

mod become_controller;
mod dual_write;
mod peers;
mod row;
mod sync_kraft_to_zk;
mod unanswered;
mod wait_for_brokers;
mod wait_for_controller_quorum;
mod writing;
mod zk_migration;

pub use become_controller::{claim, read_control_znodes};
pub use dual_write::read_log_in_dual_write;
pub use peers::Peers;
pub use row::{DriverRow, Stage};
pub use sync_kraft_to_zk::{read_log_for_resync, scan_for_resync};
pub use unanswered::go_on_without_answer;
pub use wait_for_brokers::{list_brokers, read_log_for_brokers};
pub use wait_for_controller_quorum::wait_for_quorum;
pub use writing::write;
pub use zk_migration::{append_records, begin_migration, scan_for_migration};
