//! What is written for a change of a log.
ghost use Rattle.std.specs.Prelude.{◌≡◌, ◌<◌, ◌≤◌, ◌∷◌, ℤ, length, map, IfOk, OnOk};
ghost use Rattle.std.specs.List.{All};
ghost use Rattle.std.specs.Int.{w32, to_be_bytes, cast_unsigned};
ghost use Rattle.kz_spec_data.specs.Records.{bytes_of_record};
ghost use Rattle.kz_spec_data.specs.Batches.{batch_written};
ghost use Rattle.kz_laws_values.specs.Texts.{AreBytes};
ghost use Rattle.kz_laws_znodes.specs.ReadBack.{IsReadBack};
ghost use Rattle.kz_log_frames.specs.Payloads.{IsValueOf, AreValuesOf, IsPayloadOf};

use kz_batch::{batch_size, write_batch};
use kz_codec::{value_size, write_value};
use kz_laws_values::held_record_is_spelled;
use kz_laws_values::records::written_batch_is_spelled;
use kz_types::{BatchRow, MetaRecord, NoMemory};
use std::alloc::Global;

// So many zeros.
fn zeros(alloc: Global, count: u128) -> Result<Vec<u8>, NoMemory>
    ensures { IfOk result (λ bytes. length bytes.items ≡ count) }
{
    if count > usize::MAX as u128 {
        return Err(NoMemory);
    }
    match vec![in alloc; 0u8; count as usize] {
        Ok(bytes) => Ok(bytes),
        Err(_) => Err(NoMemory),
    }
}

// As many zeros as a record has bytes, where a length in it may not fit its field.
fn long_value(alloc: Global, item: &MetaRecord, size: u128) -> Result<Vec<u8>, NoMemory>
    requires size { size ≡ length (bytes_of_record item.now) }
    requires many { 4294967295 < size }
    ensures { IfOk result (λ value. IsValueOf item.now value.items) }
{
    zeros(alloc, size)
}

/// The bytes of a record whose lengths fit.
pub(crate) fn short_value(alloc: Global, item: &MetaRecord) -> Result<Vec<u8>, NoMemory>
    requires few { length (bytes_of_record item.now) ≤ 4294967295 }
    ensures { IfOk result (λ value. IsValueOf item.now value.items) }
{
    held_record_is_spelled(item);
    write_value(alloc, item)
}

// The bytes of a record, or as many zeros where a length in it may not fit its field.
fn value_bytes(alloc: Global, item: &MetaRecord) -> Result<Vec<u8>, NoMemory>
    ensures { IfOk result (λ value. IsValueOf item.now value.items) }
{
    let size = value_size(item);
    if size > u32::MAX as u128 {
        return long_value(alloc, item, size);
    }
    short_value(alloc, item)
}

fn is_byte(_byte: u8)
    ensures { _byte < 256 }
{}

/// Bytes are numbers below 256.
pub(crate) fn are_bytes(bytes: &[u8])
    ensures { AreBytes bytes.now }
{
    for byte in bytes {
        is_byte(*byte);
    }
}

// The same of each of these records.
fn all_values(alloc: Global, items: &[MetaRecord]) -> Result<Vec<Vec<u8>>, NoMemory>
    ensures values { IfOk result (λ values. AreValuesOf items.now (map (λ v. v.items) values.items)) }
    ensures bytes { IfOk result (λ values. All AreBytes (map (λ v. v.items) values.items)) }
{
    let mut values = Vec::new(alloc);
    for item in items {
        let value = value_bytes(alloc, item)?;
        are_bytes(&value);
        values.push(value)?;
    }
    Ok(values)
}

// A kind byte, and the rest of a payload.
fn with_kind(alloc: Global, kind: u8, bytes: &[u8]) -> Result<Vec<u8>, NoMemory>
    ensures { IfOk result (λ payload. payload.items ≡ kind ∷ bytes.now) }
{
    let mut payload = Vec::new(alloc);
    payload.push(kind)?;
    payload.extend_from_slice(bytes)?;
    Ok(payload)
}

// The payload of a batch of so many bytes that no file has room for it: zeros, as many as it has.
fn long_batch(
    alloc: Global,
    row: &BatchRow,
    values: &[Vec<u8>],
    size: u128,
) -> Result<Vec<u8>, NoMemory>
    requires values { AreValuesOf row.now.items (map (λ v. v.items) values.now) }
    requires size { (first epoch time : ℤ) → size ≡ length (batch_written first epoch time (map (λ v. v.items) values.now)) }
    requires many { 2147483647 < size }
    ensures { IfOk result (λ payload. IsPayloadOf row.now payload.items) }
{
    let many = zeros(alloc, size)?;
    with_kind(alloc, 1, &many)
}

// The payload of a batch of these values.
fn short_batch(alloc: Global, row: &BatchRow, values: &[Vec<u8>]) -> Result<Vec<u8>, NoMemory>
    requires values { AreValuesOf row.now.items (map (λ v. v.items) values.now) }
    requires bytes { All AreBytes (map (λ v. v.items) values.now) }
    requires few { (first epoch time : ℤ) → length (batch_written first epoch time (map (λ v. v.items) values.now)) ≤ 2147483647 }
    ensures { IfOk result (λ payload. IsPayloadOf row.now payload.items) }
{
    written_batch_is_spelled();
    let bytes = write_batch(alloc, row.first, row.epoch, row.time, values)?;
    with_kind(alloc, 1, &bytes)
}

// The payload of a batch of these values, or as many zeros where no file has room for it.
fn batch_of_values(alloc: Global, row: &BatchRow, values: &[Vec<u8>]) -> Result<Vec<u8>, NoMemory>
    requires values { AreValuesOf row.now.items (map (λ v. v.items) values.now) }
    requires bytes { All AreBytes (map (λ v. v.items) values.now) }
    ensures { IfOk result (λ payload. IsPayloadOf row.now payload.items) }
{
    let size = batch_size(values);
    if size > i32::MAX as u128 {
        return long_batch(alloc, row, values, size);
    }
    short_batch(alloc, row, values)
}

/// The payload of a batch's frame, or as many zeros where no file has room for it. Each record is read back.
pub fn batch_bytes(alloc: Global, row: &BatchRow) -> Result<Vec<u8>, NoMemory>
    ensures payload { IfOk result (λ payload. IsPayloadOf row.now payload.items) }
    ensures records { OnOk result (All IsReadBack row.now.items) }
{
    let values = all_values(alloc, row.items.as_slice())?;
    batch_of_values(alloc, row, &values)
}

/// The payload of the frame of a reset, of a log of this epoch.
pub fn reset_bytes(alloc: Global, epoch: i32) -> Result<Vec<u8>, NoMemory>
    ensures { IfOk result (λ payload. payload.items ≡ 2 ∷ to_be_bytes w32 (cast_unsigned w32 epoch)) }
{
    with_kind(alloc, 2, &epoch.cast_unsigned().to_be_bytes())
}
