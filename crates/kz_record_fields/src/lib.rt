//! The members of records, of events and of znodes, as the lines of scripts and of loads have them.
#![tactic(auto)]

mod fields;
mod members;
mod puts;
mod znode_fields;

pub use fields::{
    bytes, bytes_at, int8_at, int16_at, int32_at, int64_at, ints_at, nullable_text, tagged_count,
    tagged_int8, tagged_int32, tagged_ints, tagged_text, uint16_at, uuid_at,
};
pub use members::{member_count, text_member, text_or_null_at};
pub use puts::{
    ints_value, kind_member, put_bytes, put_flag, put_id, put_ints, put_tagged_ints,
    put_tagged_text, put_tagged_whole, put_text, put_text_or_null, put_whole,
};
pub use znode_fields::{bodied_count, body_in, path_in, session_in};
