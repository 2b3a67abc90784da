//! Records of the metadata log, read from bytes and written to them.
#![tactic(auto)]

pub use kz_codec_read::read_value;
pub use kz_codec_write::{value_size, write_value};
