//! Tests of what a change touches: operations, bodies that are asked for, and counts.
#![tactic(auto)]

#[cfg(test)]
mod bodies;
#[cfg(test)]
mod changes;
#[cfg(test)]
mod counts;
#[cfg(test)]
mod reads;
