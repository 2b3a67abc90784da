//! The migration driver of a controller: a state machine whose step makes at most one request of the tree or the log.
//!
//! After KIP-866. The driver reaches the tree and the log over the connections that it is handed for the step, and keeps
//! nothing of them but what it has read. What it does in each of its states stands in `kz_stages`.
#![tactic(auto)]

mod drive;

pub use drive::Driver;
pub use kz_requests::StepFault;
pub use kz_stages::Peers;
