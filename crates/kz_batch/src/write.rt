//! A batch of values.
ghost use Rattle.std.specs.Prelude.{◌≡◌, ◌+◌, ◌*◌, ◌<◌, ◌≤◌, ◌^◌, ◌++◌, ◌+ℤ◌, ℤ, pos, negsuc, length, map, OnOk, IfOk};
ghost use Rattle.std.specs.Int.{w32, w64, to_be_bytes, cast_unsigned};
ghost use Rattle.kz_spec_data.specs.Fields.{groups_of};
ghost use Rattle.kz_spec_data.specs.Batches.{content, entry, content_with, records_written, summed_written, header_written, sealed_written, batch_written, Holds31, BatchFits};
ghost use Rattle.kz_spec_data.specs.Forms.{AllFit};

use kz_bytes::{put_i32, put_uvarint, uvarint_size};
use kz_crc::crc32c;
use kz_types::NoMemory;
use std::alloc::Global;

// How many bytes a number has, of which at most `more` stand before the last.
#[tactic(auto, unfolding(kz_spec_data::specs::Fields::groups_of))]
fn number_size(number: u128, more: u8) -> u128
    ensures size { result ≡ length (groups_of more number) }
    ensures bound { result ≤ more + 1 }
{
    if more == 0 || number < 128 {
        return 1;
    }
    1 + number_size(number / 128, more - 1)
}

// How many bytes the content of a record has.
fn content_size(index: u64, value: &[u8]) -> u128
    requires { index < 2 ^ 63 }
    ensures size { result ≡ length (content.written (content_with index value.now)) }
    ensures bound { result ≤ length value.now + 24 }
{
    let number = uvarint_size(2 * index) as u128;
    let size = uvarint_size(2 * value.len() as u64) as u128;
    number + size + value.len() as u128 + small_size()
}

// The attributes, the timestamp delta, the key's length and the count of headers.
#[tactic(auto, unfolding(kz_spec_data::specs::Fields::groups_of))]
fn small_size() -> u128
    ensures size { result ≡ 1 + length (groups_of 9 0) + length (groups_of 9 1) + length (groups_of 9 0) }
    ensures bound { result ≡ 4 }
{
    4
}

// How many bytes a record has.
fn entry_size(index: u64, value: &[u8]) -> u128
    requires { index < 2 ^ 63 }
    ensures size { result ≡ length (entry.written (content_with index value.now)) }
    ensures bound { result ≤ length value.now + 34 }
{
    let size = content_size(index, value);
    number_size(2 * size, 9) + size
}

// The content of a record that holds a value.
fn put_content(out: &mut Vec<u8>, index: u32, value: &[u8]) -> Result<(), NoMemory>
    requires index { index < 2 ^ 31 }
    requires size { length value.now < 2 ^ 31 }
    ensures { OnOk result (out.new.items ≡ out.old.items ++ content.written (content_with index value.now)) }
{
    out.extend_from_slice(&[0])?;
    put_uvarint(out, 0)?;
    put_uvarint(out, 2 * index)?;
    put_uvarint(out, 1)?;
    put_uvarint(out, 2 * value.len() as u32)?;
    out.extend_from_slice(value)?;
    put_uvarint(out, 0)?;
    Ok(())
}

// A record that holds a value.
fn put_entry(out: &mut Vec<u8>, index: u32, value: &[u8]) -> Result<(), NoMemory>
    requires index { index < 2 ^ 31 }
    requires size { Holds31 value.now }
    ensures { OnOk result (out.new.items ≡ out.old.items ++ entry.written (content_with index value.now)) }
{
    put_uvarint(out, 2 * content_size(index as u64, value) as u32)?;
    put_content(out, index, value)?;
    Ok(())
}

// The records.
fn put_records(out: &mut Vec<u8>, values: &[Vec<u8>]) -> Result<(), NoMemory>
    requires few { length values.now < 2 ^ 31 }
    requires each { AllFit Holds31 (map (λ v. v.items) values.now) }
    ensures { OnOk result (out.new.items ≡ out.old.items ++ records_written 0 (map (λ v. v.items) values.now)) }
{
    let mut index: u32 = 0;
    for value in values {
        put_entry(out, index, value)?;
        index += 1;
    }
    Ok(())
}

// The offset delta of the last of so many records.
fn put_last_delta(out: &mut Vec<u8>, count: u32) -> Result<(), NoMemory>
    requires { count < 2 ^ 31 }
    ensures { OnOk result (out.new.items ≡ out.old.items ++ to_be_bytes w32 (cast_unsigned w32 (pos count +ℤ negsuc 0))) }
{
    put_i32(out, count as i32 - 1)
}

// A number of 32 bits.
fn put_u32(out: &mut Vec<u8>, number: u32) -> Result<(), NoMemory>
    ensures { OnOk result (out.new.items ≡ out.old.items ++ to_be_bytes w32 number) }
{
    out.extend_from_slice(&number.to_be_bytes())?;
    Ok(())
}

// A number of 64 bits.
fn put_long(out: &mut Vec<u8>, number: i64) -> Result<(), NoMemory>
    ensures { OnOk result (out.new.items ≡ out.old.items ++ to_be_bytes w64 (cast_unsigned w64 number)) }
{
    out.extend_from_slice(&number.to_be_bytes())?;
    Ok(())
}

// An epoch.
fn put_epoch(out: &mut Vec<u8>, number: i32) -> Result<(), NoMemory>
    ensures { OnOk result (out.new.items ≡ out.old.items ++ to_be_bytes w32 (cast_unsigned w32 number)) }
{
    out.extend_from_slice(&number.to_be_bytes())?;
    Ok(())
}

// Bytes.
fn put_bytes(out: &mut Vec<u8>, bytes: &[u8]) -> Result<(), NoMemory>
    ensures { OnOk result (out.new.items ≡ out.old.items ++ bytes.now) }
{
    out.extend_from_slice(bytes)?;
    Ok(())
}

// The header from the attributes to the producer's sequence: nothing is compressed, and no producer is named.
fn put_header(out: &mut Vec<u8>, count: u32, time: i64) -> Result<(), NoMemory>
    requires { count < 2 ^ 31 }
    ensures { OnOk result (out.new.items ≡ out.old.items ++ header_written time count) }
{
    put_bytes(out, &[0, 0])?;
    put_last_delta(out, count)?;
    put_long(out, time)?;
    put_long(out, time)?;
    put_bytes(
        out,
        &[
            0xFF, 0xFF, 0xFF, 0xFF, 0xFF, 0xFF, 0xFF, 0xFF, 0xFF, 0xFF, 0xFF, 0xFF, 0xFF, 0xFF,
        ],
    )?;
    put_u32(out, count)?;
    Ok(())
}

// From the attributes on.
fn put_summed(out: &mut Vec<u8>, time: i64, values: &[Vec<u8>]) -> Result<(), NoMemory>
    requires few { length values.now < 2 ^ 31 }
    requires each { AllFit Holds31 (map (λ v. v.items) values.now) }
    ensures { OnOk result (out.new.items ≡ out.old.items ++ summed_written time (map (λ v. v.items) values.now)) }
{
    put_header(out, values.len() as u32, time)?;
    put_records(out, values)?;
    Ok(())
}

// What stands in front of the sum's bytes, and these.
fn put_batch(out: &mut Vec<u8>, first: i64, epoch: i32, rest: &[u8]) -> Result<(), NoMemory>
    requires { length rest.now + 9 < 2 ^ 31 }
    ensures { OnOk result (out.new.items ≡ out.old.items ++ sealed_written first epoch rest.now) }
{
    put_long(out, first)?;
    put_u32(out, rest.len() as u32 + 9)?;
    put_epoch(out, epoch)?;
    put_bytes(out, &[2])?;
    put_u32(out, crc32c(rest))?;
    put_bytes(out, rest)?;
    Ok(())
}

/// A batch of these values, whose first offset, epoch and time are given. Each length and count has to fit its field.
///
/// The records have the offsets from the first one on and the batch's time, without keys and headers. Nothing is
/// compressed, and no producer is named.
pub fn write_batch(
    alloc: Global,
    first: i64,
    epoch: i32,
    time: i64,
    values: &[Vec<u8>],
) -> Result<Vec<u8>, NoMemory>
    requires { BatchFits (map (λ v. v.items) values.now) }
    ensures { IfOk result (λ bytes. bytes.items ≡ batch_written first epoch time (map (λ v. v.items) values.now)) }
{
    let mut rest = Vec::new(alloc);
    put_summed(&mut rest, time, values)?;
    let mut out = Vec::new(alloc);
    put_batch(&mut out, first, epoch, &rest)?;
    Ok(out)
}

// How many bytes the records have.
fn records_size(values: &[Vec<u8>]) -> u128
    ensures size { result ≡ length (records_written 0 (map (λ v. v.items) values.now)) }
    ensures bound { result ≤ length values.now * (2 ^ 63 + 34) }
{
    let mut size: u128 = 0;
    let mut index: u64 = 0;
    for value in values {
        size += entry_size(index, value);
        index += 1;
    }
    size
}

/// How many bytes `write_batch` would write for these values, whether or not their lengths fit their fields.
pub fn batch_size(values: &[Vec<u8>]) -> u128
    ensures { (first epoch time : ℤ) → result ≡ length (batch_written first epoch time (map (λ v. v.items) values.now)) }
{
    61 + records_size(values)
}
