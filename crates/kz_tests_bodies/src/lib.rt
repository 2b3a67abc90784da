//! Tests of paths, of the bodies of znodes and of quotas.
#![tactic(auto)]

#[cfg(test)]
mod bodies;
#[cfg(test)]
mod fixed_paths;
#[cfg(test)]
mod keys;
#[cfg(test)]
mod paths;
#[cfg(test)]
mod quotas;
#[cfg(test)]
mod states;
