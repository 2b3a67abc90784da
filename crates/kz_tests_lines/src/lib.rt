//! Tests of the lines of scripts and of replies, and of what is read and printed.
#![tactic(auto)]

#[cfg(test)]
mod devices;
#[cfg(test)]
mod generator;
#[cfg(test)]
mod lines;
#[cfg(test)]
mod output;
