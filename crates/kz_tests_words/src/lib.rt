//! Tests of the program's words: commands one after another on the same two files.
#![tactic(auto)]

#[cfg(test)]
mod cluster;
#[cfg(test)]
mod hostile;
#[cfg(test)]
mod large;
#[cfg(test)]
mod loads;
#[cfg(test)]
mod made;
#[cfg(test)]
mod mixed;
#[cfg(test)]
mod reports;
#[cfg(test)]
mod snapshots;
