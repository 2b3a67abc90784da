//! The fields of a record.
ghost use Rattle.std.specs.Prelude.{◌≡◌, ◌+◌, length, IfOk, Ok, option_map};
ghost use Rattle.std.specs.Str.{IsUtf8};
ghost use Rattle.kz_spec_data.specs.Fields.{uvarint, nullable_text, ints_of};
ghost use Rattle.kz_spec_data.specs.Forms.{with_field_fault, flag};
ghost use Rattle.kz_spec_data.specs.Records.{Gives, int8, int16, uint16, int32, int64, uuid, string, nullable_string, bytes, ints};

use kz_bytes::{ByteFault, Reader};
use kz_types::{CodecFault, Id, NoMemory, Sequence, Text};
use std::alloc::Global;

// What a reader answered, with its fault as a record's.
macro_rules! lifted {
    ($read:expr) => {
        match $read {
            Ok(value) => Ok(value),
            Err(ByteFault::Short { at }) => Err(CodecFault::Short { at }),
            Err(ByteFault::Overlong { at }) => Err(CodecFault::BadField { at }),
            Err(ByteFault::NotUtf8 { at }) => Err(CodecFault::BadField { at }),
        }
    };
}

/// An unsigned number of variable size.
pub fn uvarint(reader: &mut Reader) -> Result<u32, CodecFault>
    ensures { Gives (λ x. (x, reader.new)) result (with_field_fault (uvarint.read reader.old)) }
{
    lifted!(reader.uvarint())
}

/// A signed number of 8 bits.
pub fn int8(reader: &mut Reader) -> Result<i8, CodecFault>
    ensures { Gives (λ x. (x, reader.new)) result (int8.read reader.old) }
{
    lifted!(reader.i8())
}

/// A signed number of 16 bits, the high byte first.
pub fn int16(reader: &mut Reader) -> Result<i16, CodecFault>
    ensures { Gives (λ x. (x, reader.new)) result (int16.read reader.old) }
{
    lifted!(reader.i16())
}

/// An unsigned number of 16 bits, the high byte first.
pub fn uint16(reader: &mut Reader) -> Result<u16, CodecFault>
    ensures { Gives (λ x. (x, reader.new)) result (uint16.read reader.old) }
{
    lifted!(reader.u16())
}

/// A signed number of 32 bits, the high byte first.
pub fn int32(reader: &mut Reader) -> Result<i32, CodecFault>
    ensures { Gives (λ x. (x, reader.new)) result (int32.read reader.old) }
{
    lifted!(reader.i32())
}

/// A signed number of 64 bits, the high byte first.
pub fn int64(reader: &mut Reader) -> Result<i64, CodecFault>
    ensures { Gives (λ x. (x, reader.new)) result (int64.read reader.old) }
{
    lifted!(reader.i64())
}

/// An id of 16 bytes.
pub fn uuid(reader: &mut Reader) -> Result<Id, CodecFault>
    ensures { Gives (λ x. (x, reader.new)) result (uuid.read reader.old) }
{
    lifted!(reader.id())
}

/// A byte 0 or 1.
pub fn flag(reader: &mut Reader) -> Result<bool, CodecFault>
    ensures { Gives (λ x. (x, reader.new)) result (flag.read reader.old) }
{
    let at = reader.at();
    match reader.part(1) {
        Ok([0]) => Ok(false),
        Ok([1]) => Ok(true),
        Ok(_) => Err(CodecFault::BadField { at }),
        Err(_) => Err(CodecFault::Short { at }),
    }
}

// A text of these bytes.
fn text_of(alloc: Global, bytes: &[u8]) -> Result<Text, NoMemory>
    requires { IsUtf8 bytes.now }
    ensures { IfOk result (λ text. text ≡ bytes.now) }
{
    match Text::new(alloc, bytes)? {
        Some(text) => Ok(text),
        None => unreachable!(),
    }
}

/// A text, or none.
pub fn nullable_string(alloc: Global, reader: &mut Reader) -> Result<Option<Text>, CodecFault>
    ensures { Gives (λ x. (x, reader.new)) result (nullable_string.read reader.old) }
{
    match reader.nullable_text() {
        Ok(None) => Ok(None),
        Ok(Some(bytes)) => match text_of(alloc, bytes) {
            Ok(text) => Ok(Some(text)),
            Err(NoMemory) => Err(CodecFault::NoMemory),
        },
        Err(ByteFault::Short { at }) => Err(CodecFault::Short { at }),
        Err(ByteFault::Overlong { at }) => Err(CodecFault::BadField { at }),
        Err(ByteFault::NotUtf8 { at }) => Err(CodecFault::BadField { at }),
    }
}

/// A text.
pub fn string(alloc: Global, reader: &mut Reader) -> Result<Text, CodecFault>
    ensures { Gives (λ x. (x, reader.new)) result (string.read reader.old) }
{
    let at = reader.at();
    match nullable_string(alloc, reader)? {
        Some(text) => Ok(text),
        None => Err(CodecFault::BadField { at }),
    }
}

/// Bytes.
pub fn bytes(alloc: Global, reader: &mut Reader) -> Result<Sequence<u8>, CodecFault>
    ensures { Gives (λ x. (x, reader.new)) result (bytes.read reader.old) }
{
    if reader.is_null() {
        return Err(CodecFault::BadField { at: reader.at() });
    }
    let bytes = lifted!(reader.byte_field())?;
    match Vec::from_slice(alloc, bytes) {
        Ok(items) => Ok(Sequence::from_vec(items)),
        Err(_) => Err(CodecFault::NoMemory),
    }
}

// The numbers that four bytes each make.
fn ints_of(alloc: Global, bytes: &[u8]) -> Result<Sequence<i32>, NoMemory>
    ensures { IfOk result (λ numbers. numbers ≡ ints_of bytes.now) }
{
    let mut numbers = Vec::with_capacity(alloc, bytes.len() / 4)?;
    let mut left = bytes;
    while let [a, b, c, d, rest @ ..] = left {
        numbers.push(i32::from_be_bytes([*a, *b, *c, *d]))?;
        left = rest;
    }
    Ok(Sequence::from_vec(numbers))
}

/// The numbers that four bytes each make, or none.
pub fn ints_or_null(
    alloc: Global,
    bytes: Option<&[u8]>,
) -> Result<Option<Sequence<i32>>, CodecFault>
    ensures { Gives (λ x. x) result (Ok (option_map (λ x. ints_of x.now) bytes.entry)) }
{
    match bytes {
        None => Ok(None),
        Some(bytes) => match ints_of(alloc, bytes) {
            Ok(numbers) => Ok(Some(numbers)),
            Err(NoMemory) => Err(CodecFault::NoMemory),
        },
    }
}

/// A list of numbers.
pub fn ints(alloc: Global, reader: &mut Reader) -> Result<Sequence<i32>, CodecFault>
    ensures { Gives (λ x. (x, reader.new)) result (ints.read reader.old) }
{
    let at = reader.at();
    match lifted!(reader.ints())? {
        Some(bytes) => match ints_of(alloc, bytes) {
            Ok(numbers) => Ok(numbers),
            Err(NoMemory) => Err(CodecFault::NoMemory),
        },
        None => Err(CodecFault::BadField { at }),
    }
}
