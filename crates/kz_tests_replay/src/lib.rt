//! Tests of whole runs: what is printed, how they end, and what stands in both files.
#![tactic(auto)]

#[cfg(test)]
mod runs;
#[cfg(test)]
mod stops;
