//! The fields of records and batches, read from bytes and written to them.
#![tactic(auto)]

mod groups;
mod reader;
mod text;
mod writer;

pub use kz_types::ByteFault;
pub use reader::Reader;
pub use writer::{
    put_byte_field, put_i8, put_i16, put_i32, put_i64, put_id, put_ints, put_nullable_text,
    put_text, put_u16, put_uvarint, put_varint, put_varlong, uvarint_size,
};
