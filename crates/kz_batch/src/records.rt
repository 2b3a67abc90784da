//! The records of a batch.
ghost use Rattle.std.specs.Prelude.{◌≡◌, ◌==◌, ◌&&◌, length, option_map, pos};
ghost use Rattle.std.specs.Ordering.{int_eq};
ghost use Rattle.kz_spec_data.specs.Forms.{items_at};
ghost use Rattle.kz_spec_data.specs.Fields.{varint, varlong};
ghost use Rattle.kz_spec_data.specs.Batches.{countable, no_attributes, measured_at, measured_or_null, bytes_with_length, header, headers, content, entry, delta_of, value_of, is_numbered};
ghost use Rattle.kz_batch.specs.Answers.{Says, Finds};

use kz_bytes::Reader;
use kz_types::BatchFault;

/// What a batch takes of a record: its offset delta and its value.
#[derive(Clone, Copy)]
pub struct Entry<'a> {
    pub delta: i64,
    pub value: &'a [u8],
}

fn read_varint(reader: &mut Reader) -> Result<i32, BatchFault>
    ensures { Says (λ x. x) result reader.new (countable (varint.read reader.old)) }
{
    match reader.varint() {
        Ok(number) => Ok(number),
        Err(_) => Err(BatchFault::BadCount),
    }
}

fn read_varlong(reader: &mut Reader) -> Result<i64, BatchFault>
    ensures { Says (λ x. x) result reader.new (countable (varlong.read reader.old)) }
{
    match reader.varlong() {
        Ok(number) => Ok(number),
        Err(_) => Err(BatchFault::BadCount),
    }
}

fn read_attributes(reader: &mut Reader) -> Result<(), BatchFault>
    ensures { Says (λ x. x) result reader.new (no_attributes.read reader.old) }
{
    match reader.part(1) {
        Ok([0]) => Ok(()),
        Ok(_) => Err(BatchFault::BadCount),
        Err(_) => Err(BatchFault::BadCount),
    }
}

// So many bytes, or none at all for -1.
fn read_bytes<'a>(reader: &mut Reader<'a>, size: i32) -> Result<Option<&'a [u8]>, BatchFault>
    ensures { Says (option_map (λ x. x.now)) result reader.new (measured_at (size, reader.old)) }
{
    if size >= 0 {
        match reader.part(size as usize) {
            Ok(bytes) => Ok(Some(bytes)),
            Err(_) => Err(BatchFault::BadCount),
        }
    } else if size == -1 {
        Ok(None)
    } else {
        Err(BatchFault::BadCount)
    }
}

fn read_measured_or_null<'a>(reader: &mut Reader<'a>) -> Result<Option<&'a [u8]>, BatchFault>
    ensures { Says (option_map (λ x. x.now)) result reader.new (measured_or_null.read reader.old) }
{
    let size = read_varint(reader)?;
    read_bytes(reader, size)
}

fn read_measured<'a>(reader: &mut Reader<'a>) -> Result<&'a [u8], BatchFault>
    ensures { Says (λ x. x.now) result reader.new (bytes_with_length.read reader.old) }
{
    match read_measured_or_null(reader)? {
        Some(bytes) => Ok(bytes),
        None => Err(BatchFault::BadCount),
    }
}

// One header, which is passed over.
fn skip_header(reader: &mut Reader) -> Result<(), BatchFault>
    ensures { Finds (λ x y. Unit {0}) result reader.new (header.read reader.old) }
{
    read_measured(reader)?;
    read_measured_or_null(reader)?;
    Ok(())
}

// So many headers, which are passed over.
fn skip_so_many(reader: &mut Reader, count: u32) -> Result<(), BatchFault>
    ensures { Finds (λ x y. Unit {0}) result reader.new (items_at header.read count reader.old) }
{
    for _ in 0..count {
        skip_header(reader)?;
    }
    Ok(())
}

fn skip_headers(reader: &mut Reader) -> Result<(), BatchFault>
    ensures { Finds (λ x y. Unit {0}) result reader.new (headers.read reader.old) }
{
    let count = read_varint(reader)?;
    if count < 0 {
        return Err(BatchFault::BadCount);
    }
    skip_so_many(reader, count as u32)
}

// The content of a record.
fn read_content<'a>(reader: &mut Reader<'a>) -> Result<Entry<'a>, BatchFault>
    ensures { Finds (λ x c. (delta_of c ≡ x.delta) × (value_of c ≡ x.value.now)) result reader.new (content.read reader.old) }
{
    read_attributes(reader)?;
    read_varlong(reader)?;
    let delta = read_varlong(reader)?;
    read_measured_or_null(reader)?;
    let value = read_measured(reader)?;
    skip_headers(reader)?;
    Ok(Entry { delta, value })
}

/// Whether no byte is left.
pub fn is_done(reader: &mut Reader) -> bool
    ensures { result ≡ (length reader.old.left == 0) }
{
    reader.part(1).is_err()
}

/// A record: the length of its content, and the content.
pub fn read_entry<'a>(reader: &mut Reader<'a>) -> Result<Entry<'a>, BatchFault>
    ensures { Finds (λ x c. (delta_of c ≡ x.delta) × (value_of c ≡ x.value.now)) result reader.new (entry.read reader.old) }
{
    let size = read_varint(reader)?;
    if size < 0 {
        return Err(BatchFault::BadCount);
    }
    match reader.within(size as usize) {
        Ok(mut inside) => {
            let found = read_content(&mut inside)?;
            if is_done(&mut inside) {
                Ok(found)
            } else {
                Err(BatchFault::BadCount)
            }
        }
        Err(_) => Err(BatchFault::BadCount),
    }
}

// Whether records that are in order stay so with one more, of this offset.
fn follows(ordered: bool, delta: i64, number: u32) -> bool
    ensures { result ≡ (ordered && int_eq delta (pos number)) }
{
    ordered && delta == number as i64
}

/// So many records: whether they have the offsets 0, 1, 2 and so on.
pub fn read_records(reader: &mut Reader, count: u32) -> Result<bool, BatchFault>
    ensures { Finds (λ ordered cs. ordered ≡ is_numbered 0 cs) result reader.new (items_at entry.read count reader.old) }
{
    let mut ordered = true;
    for i in 0..count {
        let found = read_entry(reader)?;
        ordered = follows(ordered, found.delta, i);
    }
    Ok(ordered)
}
