//! Tests of dumps, loads and reports.
#![tactic(auto)]

#[cfg(test)]
mod dump_lines;
#[cfg(test)]
mod load_lines;
#[cfg(test)]
mod loads;
#[cfg(test)]
mod reports;
