//! Tests of the znodes of metadata, the records of znodes, the operations between renderings, and drivers.
#![tactic(auto)]

mod limits;

pub use limits::all_data_has_at_most_67108864_bytes;

#[cfg(test)]
mod cluster;
#[cfg(test)]
mod drivers;
#[cfg(test)]
mod made;
#[cfg(test)]
mod reader;
#[cfg(test)]
mod render;
#[cfg(test)]
mod writer;
