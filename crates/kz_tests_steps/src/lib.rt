//! Tests of the parts of a step of a controller.
#![tactic(auto)]

#[cfg(test)]
mod chunks;
#[cfg(test)]
mod claims;
#[cfg(test)]
mod readiness;
#[cfg(test)]
mod remaining;
#[cfg(test)]
mod requests;
