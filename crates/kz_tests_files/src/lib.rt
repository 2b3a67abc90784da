//! Tests of the files of a tree and of a log.
#![tactic(auto)]

#[cfg(test)]
mod commands;
#[cfg(test)]
mod disks;
#[cfg(test)]
mod journals;
#[cfg(test)]
mod log_files;
#[cfg(test)]
mod store_files;
#[cfg(test)]
mod tree_files;
