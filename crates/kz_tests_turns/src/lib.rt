//! Tests of verdicts, of rollbacks, and of the turns of a controller with their bound.
#![tactic(auto)]

#[cfg(test)]
mod amounts;
#[cfg(test)]
mod exits;
#[cfg(test)]
mod turns;
#[cfg(test)]
mod verdicts;
