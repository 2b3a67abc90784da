//! Tests of whole scripts: what the program prints for them, and how it ends.
#![tactic(auto)]

#[cfg(test)]
mod brokers;
#[cfg(test)]
mod clients;
#[cfg(test)]
mod controllers;
#[cfg(test)]
mod entities;
#[cfg(test)]
mod exits;
#[cfg(test)]
mod made;
#[cfg(test)]
mod snapshots;
