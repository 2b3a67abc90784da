//! Tagged sections.
ghost use Rattle.std.specs.Prelude.{◌≡◌, ◌==◌, length, option_map, IfOk};
ghost use Rattle.std.specs.Int.{w8, w32};
ghost use Rattle.kz_spec_data.specs.Fields.{Reads, nullable_bytes, signed_number};
ghost use Rattle.kz_spec_data.specs.Forms.{section, nothing, tag_at, tags_at, plain, text_content, tag_value, nullable_ints};
ghost use Rattle.kz_spec_data.specs.Records.{Gives, tagged_text, text_tags, partition_tags, change_tags};
ghost use Rattle.kz_codec_read.specs.Changes.{parts_of};

use crate::fields::{ints_or_null, nullable_string, uvarint};
use kz_bytes::{ByteFault, Reader};
use kz_types::{CodecFault, Sequence, Text};
use std::alloc::Global;

/// A tag: its number, the place of that number, and a reader of its field.
#[derive(Drop)]
pub struct Tag<'a> {
    pub number: u32,
    pub at: usize,
    pub field: Reader<'a>,
}

/// The next tag, whose number has to be at least this one.
pub fn next_tag<'a>(reader: &mut Reader<'a>, least: u64) -> Result<Tag<'a>, CodecFault>
    ensures read { Gives (λ x. ((x.number, x.field), reader.new)) result (tag_at least reader.old) }
    ensures place { IfOk result (λ x. x.at ≡ reader.old.at) }
{
    let at = reader.at();
    let number = uvarint(reader)?;
    if (number as u64) < least {
        return Err(CodecFault::BadField { at });
    }
    let size = uvarint(reader)?;
    match reader.within(size as usize) {
        Ok(field) => Ok(Tag { number, at, field }),
        Err(ByteFault::Short { at }) => Err(CodecFault::Short { at }),
        Err(ByteFault::Overlong { at }) => Err(CodecFault::BadField { at }),
        Err(ByteFault::NotUtf8 { at }) => Err(CodecFault::BadField { at }),
    }
}

/// Whether no byte is left.
pub fn is_done(reader: &mut Reader) -> bool
    ensures { result ≡ (length reader.old.left == 0) }
{
    reader.part(1).is_err()
}

// A tag's field of 8 bits.
fn int8_of(at: usize, field: &mut Reader) -> Result<i8, CodecFault>
    ensures { Gives (λ x. x) result (tag_value (plain (signed_number w8)) at field.old) }
{
    match field.i8() {
        Ok(value) => {
            if is_done(field) {
                Ok(value)
            } else {
                Err(CodecFault::BadField { at })
            }
        }
        Err(ByteFault::Short { .. }) => Err(CodecFault::BadField { at }),
        Err(ByteFault::Overlong { at }) => Err(CodecFault::BadField { at }),
        Err(ByteFault::NotUtf8 { at }) => Err(CodecFault::BadField { at }),
    }
}

// A tag's field of 32 bits.
fn int32_of(at: usize, field: &mut Reader) -> Result<i32, CodecFault>
    ensures { Gives (λ x. x) result (tag_value (plain (signed_number w32)) at field.old) }
{
    match field.i32() {
        Ok(value) => {
            if is_done(field) {
                Ok(value)
            } else {
                Err(CodecFault::BadField { at })
            }
        }
        Err(ByteFault::Short { .. }) => Err(CodecFault::BadField { at }),
        Err(ByteFault::Overlong { at }) => Err(CodecFault::BadField { at }),
        Err(ByteFault::NotUtf8 { at }) => Err(CodecFault::BadField { at }),
    }
}

// A tag's list of numbers.
fn ints_in(
    alloc: Global,
    at: usize,
    field: &mut Reader,
) -> Result<Option<Sequence<i32>>, CodecFault>
    ensures { Gives (λ x. x) result (tag_value (plain nullable_ints) at field.old) }
{
    match field.ints() {
        Ok(bytes) => {
            if is_done(field) {
                ints_or_null(alloc, bytes)
            } else {
                Err(CodecFault::BadField { at })
            }
        }
        Err(ByteFault::Short { .. }) => Err(CodecFault::BadField { at }),
        Err(ByteFault::Overlong { at }) => Err(CodecFault::BadField { at }),
        Err(ByteFault::NotUtf8 { at }) => Err(CodecFault::BadField { at }),
    }
}

// The bytes of a text, or none, which aren't judged.
fn unjudged<'a>(reader: &mut Reader<'a>) -> Result<Option<&'a [u8]>, ByteFault>
    ensures { Reads (option_map (λ x. x.now)) reader.old result reader.new (nullable_bytes.read reader.old) }
{
    if reader.is_null() {
        reader.uvarint()?;
        return Ok(None);
    }
    Ok(Some(reader.byte_field()?))
}

// A tag's text, which is judged once it fills the field.
fn text_in(alloc: Global, at: usize, field: &mut Reader) -> Result<Option<Text>, CodecFault>
    ensures { Gives (λ x. x) result (tag_value text_content at field.old) }
{
    let mut taken = field.again();
    match unjudged(&mut taken) {
        Ok(_) => {
            if is_done(&mut taken) {
                nullable_string(alloc, field)
            } else {
                Err(CodecFault::BadField { at })
            }
        }
        Err(ByteFault::Short { .. }) => Err(CodecFault::BadField { at }),
        Err(ByteFault::Overlong { at }) => Err(CodecFault::BadField { at }),
        Err(ByteFault::NotUtf8 { at }) => Err(CodecFault::BadField { at }),
    }
}

/// A tagged section in which no tag is known.
pub fn no_tags(reader: &mut Reader) -> Result<(), CodecFault>
    ensures { Gives (λ x. (x, reader.new)) result ((section nothing).read reader.old) }
{
    let count = uvarint(reader)?;
    unknown_tags(reader, count)
}

// So many tags of which none is known.
fn unknown_tags(reader: &mut Reader, count: u32) -> Result<(), CodecFault>
    ensures { Gives (λ x. (x, reader.new)) result (tags_at nothing.take count 0 nothing.default reader.old) }
{
    let mut least: u64 = 0;
    for _ in 0..count {
        let tag = next_tag(reader, least)?;
        least = tag.number as u64 + 1;
    }
    Ok(())
}

/// The recovery state of a partition.
pub fn recovery_tag(reader: &mut Reader) -> Result<i8, CodecFault>
    ensures { Gives (λ x. (x, reader.new)) result ((section partition_tags).read reader.old) }
{
    let count = uvarint(reader)?;
    let recovery = recovery_tags(reader, count)?;
    Ok(recovery.state)
}

// So many tags, among them maybe that of the recovery state.
fn recovery_tags(reader: &mut Reader, count: u32) -> Result<Recovery, CodecFault>
    ensures { Gives (λ x. (x.state, reader.new)) result (tags_at partition_tags.take count 0 partition_tags.default reader.old) }
{
    let mut least: u64 = 0;
    let mut recovery = Recovery { state: 0 };
    for _ in 0..count {
        let tag = next_tag(reader, least)?;
        least = tag.number as u64 + 1;
        take_recovery(tag, &mut recovery)?;
    }
    Ok(recovery)
}

// A partition's recovery state.
#[derive(Drop)]
struct Recovery {
    state: i8,
}

fn take_recovery(tag: Tag, recovery: &mut Recovery) -> Result<(), CodecFault>
    ensures { Gives (λ x. recovery.new.state) result (partition_tags.take tag.entry.number tag.entry.at tag.entry.field recovery.old.state) }
{
    let Tag {
        number,
        at,
        mut field,
    } = tag;
    if number == 0 {
        recovery.state = int8_of(at, &mut field)?;
    }
    Ok(())
}

/// A text, or none where no tag says one.
pub fn text_tag(alloc: Global, reader: &mut Reader) -> Result<Option<Text>, CodecFault>
    ensures { Gives (λ x. (x, reader.new)) result (tagged_text.read reader.old) }
{
    let count = uvarint(reader)?;
    text_among(alloc, reader, count)
}

// So many tags, among them maybe that of a text.
fn text_among(alloc: Global, reader: &mut Reader, count: u32) -> Result<Option<Text>, CodecFault>
    ensures { Gives (λ x. (x, reader.new)) result (tags_at text_tags.take count 0 text_tags.default reader.old) }
{
    let mut least: u64 = 0;
    let mut text = None;
    for _ in 0..count {
        let tag = next_tag(reader, least)?;
        least = tag.number as u64 + 1;
        take_text(alloc, tag, &mut text)?;
    }
    Ok(text)
}

fn take_text(alloc: Global, tag: Tag, text: &mut Option<Text>) -> Result<(), CodecFault>
    ensures { Gives (λ x. text.new) result (text_tags.take tag.entry.number tag.entry.at tag.entry.field text.old) }
{
    let Tag {
        number,
        at,
        mut field,
    } = tag;
    if number == 0 {
        *text = text_in(alloc, at, &mut field)?;
    }
    Ok(())
}

/// The parts of a partition change that are tagged.
#[derive(Drop)]
pub struct ChangeParts {
    pub isr: Option<Sequence<i32>>,
    pub leader: i32,
    pub replicas: Option<Sequence<i32>>,
    pub removing: Option<Sequence<i32>>,
    pub adding: Option<Sequence<i32>>,
    pub recovery: i8,
}

fn take_change(alloc: Global, tag: Tag, parts: &mut ChangeParts) -> Result<(), CodecFault>
    ensures { Gives (λ x. parts_of parts.new) result (change_tags.take tag.entry.number tag.entry.at tag.entry.field (parts_of parts.old)) }
{
    let Tag {
        number,
        at,
        mut field,
    } = tag;
    match number {
        0 => parts.isr = ints_in(alloc, at, &mut field)?,
        1 => parts.leader = int32_of(at, &mut field)?,
        2 => parts.replicas = ints_in(alloc, at, &mut field)?,
        3 => parts.removing = ints_in(alloc, at, &mut field)?,
        4 => parts.adding = ints_in(alloc, at, &mut field)?,
        5 => parts.recovery = int8_of(at, &mut field)?,
        _ => {}
    }
    Ok(())
}

/// The tagged parts of a partition change.
pub fn change_parts(alloc: Global, reader: &mut Reader) -> Result<ChangeParts, CodecFault>
    ensures { Gives (λ x. (parts_of x, reader.new)) result ((section change_tags).read reader.old) }
{
    let count = uvarint(reader)?;
    parts_among(alloc, reader, count)
}

// So many tags, among them maybe those of the parts.
fn parts_among(alloc: Global, reader: &mut Reader, count: u32) -> Result<ChangeParts, CodecFault>
    ensures { Gives (λ x. (parts_of x, reader.new)) result (tags_at change_tags.take count 0 change_tags.default reader.old) }
{
    let mut least: u64 = 0;
    let mut parts = ChangeParts {
        isr: None,
        leader: -2,
        replicas: None,
        removing: None,
        adding: None,
        recovery: -1,
    };
    for _ in 0..count {
        let tag = next_tag(reader, least)?;
        least = tag.number as u64 + 1;
        take_change(alloc, tag, &mut parts)?;
    }
    Ok(parts)
}
