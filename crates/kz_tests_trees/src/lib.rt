//! Tests of the tree of znodes and of its sessions.
#![tactic(auto)]

#[cfg(test)]
mod blocks;
#[cfg(test)]
mod load_rules;
#[cfg(test)]
mod rows;
#[cfg(test)]
mod sessions;
#[cfg(test)]
mod trees;
