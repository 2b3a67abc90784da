//! The bodies of the control znodes: `/controller_epoch`, `/controller` and `/migration` (KIP-866).
#![tactic(auto)]

mod reading;
mod writing;

pub use kz_types::{BodyFault, DriverState, Recorded, Reply};
pub use reading::{read_control, read_epoch, read_migration};
pub use writing::{write_control, write_epoch, write_migration};
