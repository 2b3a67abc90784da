//! Fields of records: how the values of members are read.
ghost use Rattle.std.specs.Prelude.{◌≡◌, ◌+◌, ◌<◌, ◌≤◌, IfOk, None, option_map};
ghost use Rattle.base64.specs.Engines.{standard};
ghost use Rattle.base64.specs.GeneralPurpose.{decoded_of};
ghost use Rattle.serde_json.specs.View.{view, items_view};
ghost use Rattle.kz_spec_data.specs.Json.{text_or_null};
ghost use Rattle.kz_spec_data.specs.LineFields.{int8, int16, uint16, int32, int64, uuid, bytes, all_of, ints, ints_or_null, field, tagged_member, tagged_count};

use crate::members::text_or_null;
use base64::DecodeAllocError;
use base64::engine::general_purpose::STANDARD;
use kz_body_parts::{number, whole};
use kz_types::{Id, NoMemory, Sequence, Text};
use serde_json::Value;
use std::alloc::Global;

fn int8(value: &Value) -> Option<i8>
    ensures { result ≡ int8 (view value.now) }
{
    match whole(value, i8::MIN as i64, i8::MAX as i64) {
        Some(number) => Some(number as i8),
        None => None,
    }
}

/// The member of this name, a whole number of 8 bits with a sign.
pub fn int8_at(value: &Value, name: &str) -> Option<i8>
    ensures { result ≡ field name.now int8 (view value.now) }
{
    int8(value.get(name)?)
}

fn int16(value: &Value) -> Option<i16>
    ensures { result ≡ int16 (view value.now) }
{
    match whole(value, i16::MIN as i64, i16::MAX as i64) {
        Some(number) => Some(number as i16),
        None => None,
    }
}

/// The member of this name, a whole number of 16 bits with a sign.
pub fn int16_at(value: &Value, name: &str) -> Option<i16>
    ensures { result ≡ field name.now int16 (view value.now) }
{
    int16(value.get(name)?)
}

fn uint16(value: &Value) -> Option<u16>
    ensures { result ≡ uint16 (view value.now) }
{
    let number = value.as_u64()?;
    if number <= u16::MAX as u64 {
        Some(number as u16)
    } else {
        None
    }
}

/// The member of this name, a whole number of 16 bits without a sign.
pub fn uint16_at(value: &Value, name: &str) -> Option<u16>
    ensures { result ≡ field name.now uint16 (view value.now) }
{
    uint16(value.get(name)?)
}

fn int32(value: &Value) -> Option<i32>
    ensures { result ≡ int32 (view value.now) }
{
    number(value, i32::MIN)
}

/// The member of this name, a whole number of 32 bits with a sign.
pub fn int32_at(value: &Value, name: &str) -> Option<i32>
    ensures { result ≡ field name.now int32 (view value.now) }
{
    int32(value.get(name)?)
}

fn int64(value: &Value) -> Option<i64>
    ensures { result ≡ int64 (view value.now) }
{
    value.as_i64()
}

/// The member of this name, a whole number of 64 bits with a sign.
pub fn int64_at(value: &Value, name: &str) -> Option<i64>
    ensures { result ≡ field name.now int64 (view value.now) }
{
    int64(value.get(name)?)
}

fn uuid(value: &Value) -> Option<Id>
    ensures { result ≡ uuid (view value.now) }
{
    match value.as_str() {
        Some(text) => Id::read(text.as_bytes()),
        None => None,
    }
}

/// The member of this name, an id: its 22 characters.
pub fn uuid_at(value: &Value, name: &str) -> Option<Id>
    ensures { result ≡ field name.now uuid (view value.now) }
{
    uuid(value.get(name)?)
}

// The bytes that base64 with its padding spells, where it spells them as they are written.
fn decoded(alloc: Global, text: &[u8]) -> Result<Option<Sequence<u8>>, NoMemory>
    ensures { IfOk result (λ bytes. bytes ≡ decoded_of standard text.now) }
{
    match STANDARD.decode(alloc, text) {
        Ok(bytes) => Ok(Some(Sequence::from_vec(bytes))),
        Err(DecodeAllocError::DecodeError(_)) => Ok(None),
        Err(DecodeAllocError::OutOfMemory) => Err(NoMemory),
    }
}

/// Bytes in base64 with its padding.
pub fn bytes(alloc: Global, value: &Value) -> Result<Option<Sequence<u8>>, NoMemory>
    ensures { IfOk result (λ made. made ≡ bytes (view value.now)) }
{
    match value.as_str() {
        Some(text) => decoded(alloc, text.as_bytes()),
        None => Ok(None),
    }
}

/// The member of this name, bytes in base64.
pub fn bytes_at(alloc: Global, value: &Value, name: &str) -> Result<Option<Sequence<u8>>, NoMemory>
    ensures { IfOk result (λ made. made ≡ field name.now bytes (view value.now)) }
{
    match value.get(name) {
        Some(member) => bytes(alloc, member),
        None => Ok(None),
    }
}

// The whole numbers of a list, or `None` where one of its items is none.
fn ints_in(alloc: Global, values: &[Value]) -> Result<Option<Sequence<i32>>, NoMemory>
    ensures { IfOk result (λ ints. ints ≡ all_of int32 (items_view values.now)) }
{
    let mut ints = Sequence::new(alloc);
    for value in values {
        match int32(value) {
            Some(number) => ints.push(number)?,
            None => return Ok(None),
        }
    }
    Ok(Some(ints))
}

// A list of whole numbers of 32 bits.
fn ints(alloc: Global, value: &Value) -> Result<Option<Sequence<i32>>, NoMemory>
    ensures { IfOk result (λ made. made ≡ ints (view value.now)) }
{
    match value.as_array() {
        Some(values) => ints_in(alloc, values),
        None => Ok(None),
    }
}

/// The member of this name, a list of whole numbers of 32 bits.
pub fn ints_at(alloc: Global, value: &Value, name: &str) -> Result<Option<Sequence<i32>>, NoMemory>
    ensures { IfOk result (λ made. made ≡ field name.now ints (view value.now)) }
{
    match value.get(name) {
        Some(member) => ints(alloc, member),
        None => Ok(None),
    }
}

// A list of whole numbers, or null.
fn ints_or_null(alloc: Global, value: &Value) -> Result<Option<Option<Sequence<i32>>>, NoMemory>
    ensures { IfOk result (λ made. made ≡ ints_or_null (view value.now)) }
{
    match value {
        Value::Null => Ok(Some(None)),
        Value::Array(values) => match ints_in(alloc, values)? {
            Some(ints) => Ok(Some(Some(ints))),
            None => Ok(None),
        },
        _ => Ok(None),
    }
}

/// A tagged list of whole numbers, by default null.
pub fn tagged_ints(
    alloc: Global,
    value: &Value,
    name: &str,
) -> Result<Option<Option<Sequence<i32>>>, NoMemory>
    ensures { IfOk result (λ made. made ≡ tagged_member name.now None ints_or_null (view value.now)) }
{
    match value.get(name) {
        Some(member) => ints_or_null(alloc, member),
        None => Ok(Some(None)),
    }
}

/// A tagged whole number of 8 bits, and what it is by default.
pub fn tagged_int8(value: &Value, name: &str, default: i8) -> Option<i8>
    ensures { result ≡ tagged_member name.now default int8 (view value.now) }
{
    match value.get(name) {
        Some(member) => int8(member),
        None => Some(default),
    }
}

/// A tagged whole number of 32 bits, and what it is by default.
pub fn tagged_int32(value: &Value, name: &str, default: i32) -> Option<i32>
    ensures { result ≡ tagged_member name.now default int32 (view value.now) }
{
    match value.get(name) {
        Some(member) => int32(member),
        None => Some(default),
    }
}

/// A tagged text, by default null.
pub fn tagged_text<'a>(value: &'a Value, name: &str) -> Option<Option<&'a str>>
    ensures { option_map (λ o. option_map (λ t. t.now) o) result ≡ tagged_member name.now None text_or_null (view value.now) }
{
    match value.get(name) {
        Some(member) => text_or_null(member),
        None => Some(None),
    }
}

/// How many members there are with a tagged field, where there are so many others.
pub fn tagged_count(value: &Value, name: &str, others: usize) -> usize
    requires { others < 100 }
    ensures count { result ≡ tagged_count name.now (view value.now) others }
    ensures bound { result ≤ others + 1 }
{
    if value.get(name).is_some() {
        others + 1
    } else {
        others
    }
}

/// A copy of a text that may be absent.
pub fn nullable_text(alloc: Global, text: Option<&str>) -> Result<Option<Text>, NoMemory>
    ensures { IfOk result (λ made. made ≡ option_map (λ t. t.now) text.entry) }
{
    match text {
        Some(text) => Ok(Some(Text::from_str(alloc, text)?)),
        None => Ok(None),
    }
}
