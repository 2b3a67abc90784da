//! Tests of the metadata and of the log.
#![tactic(auto)]

#[cfg(test)]
mod logs;
#[cfg(test)]
mod metadata;
#[cfg(test)]
mod settled;
#[cfg(test)]
mod views;
