//! The fence around old controllers (KIP-866): the multi by which a controller claims the tree, what stands against a claim,
//! and the multi of a write, which checks the claim.
#![tactic(auto)]

mod checks;
mod claimer;
mod claims;
mod writes;

pub use checks::{ClaimFault, check_claim};
pub use claimer::Claimer;
pub use claims::{claim_ops, claimed_number, claimed_version};
pub use writes::write_ops;
