//! Tests of the values that all crates share, of the order of bytes, of lists in the order of their keys, and of access control entries.
#![tactic(auto)]

#[cfg(test)]
mod acls;
#[cfg(test)]
mod copies;
#[cfg(test)]
mod made;
#[cfg(test)]
mod order;
#[cfg(test)]
mod sorted;
#[cfg(test)]
mod values;
