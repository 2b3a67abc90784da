//! Taking the payloads of frames into a log.
ghost use Rattle.std.specs.Prelude.{◌≡◌, ◌≤◌, ◌+ℤ◌, ◌&&◌, pos, int_le, length, List, ℕ, Ok};
ghost use Rattle.std.specs.Int.{w32};
ghost use Rattle.std.specs.Ordering.{int_eq};
ghost use Rattle.kz_spec_data.specs.Batches.{signed_at, batch_of};
ghost use Rattle.kz_spec_data.specs.Log.{end_of};
ghost use Rattle.kz_spec_data.specs.Records.{record_of};
ghost use Rattle.kz_spec_data.specs.LogFile.{read_values, follows, batch_row, after_batch, after_reset, after_payload};
ghost use Rattle.kz_log_frames.specs.Taken.{Says, ReadsItem, row_or_not};

use crate::fault::FrameFault;
use crate::snapshot::take_snapshot;
use kz_batch::{Batch, Values};
use kz_codec::read_value;
use kz_log::LogRows;
use kz_types::{BatchRow, CodecFault, LogWhy, MAX_LONG, MetaRecord, Sequence};
use std::alloc::Global;

// The record of a value.
fn read_item(alloc: Global, value: &[u8]) -> Result<MetaRecord, FrameFault>
    ensures { ReadsItem result (record_of value.now) }
{
    match read_value(alloc, value) {
        Ok(item) => Ok(item),
        Err(CodecFault::Short { at }) => {
            Err(FrameFault::Why(LogWhy::Value(CodecFault::Short { at })))
        }
        Err(CodecFault::UnknownKey { key }) => {
            Err(FrameFault::Why(LogWhy::Value(CodecFault::UnknownKey { key })))
        }
        Err(CodecFault::UnknownVersion { key, version }) => Err(FrameFault::Why(LogWhy::Value(
            CodecFault::UnknownVersion { key, version },
        ))),
        Err(CodecFault::BadField { at }) => {
            Err(FrameFault::Why(LogWhy::Value(CodecFault::BadField { at })))
        }
        Err(CodecFault::Rest { at }) => {
            Err(FrameFault::Why(LogWhy::Value(CodecFault::Rest { at })))
        }
        Err(CodecFault::NoMemory) => Err(FrameFault::NoMemory),
    }
}

/// The records of a batch's values.
pub(crate) fn read_items(
    alloc: Global,
    mut values: Values<'_>,
) -> Result<Vec<MetaRecord>, FrameFault>
    ensures { Says (λ items. items.items) result (read_values values.entry) }
{
    let mut items = Vec::new(alloc);
    while let Some(value) = values.next() {
        let item = match read_item(alloc, value) {
            Ok(item) => item,
            Err(fault) => return Err(fault),
        };
        let Ok(()) = items.push(item) else {
            return Err(FrameFault::NoMemory);
        };
    }
    Ok(items)
}

// Whether an offset is the one after another.
fn is_next(first: i64, end: i64) -> bool
    ensures { result ≡ int_eq first (end +ℤ pos 1) }
{
    first as i128 == end as i128 + 1
}

// Whether an offset is in range.
fn is_long(last: i128) -> bool
    ensures { result ≡ int_le last MAX_LONG }
{
    last <= MAX_LONG as i128
}

// Whether a batch begins after a log's end.
fn begins_next(log: &LogRows, batch: &Batch<'_>) -> bool
    ensures { result ≡ int_eq batch.now.first (end_of log.now +ℤ pos 1) }
{
    is_next(batch.first(), log.end())
}

// Whether the last offset of a batch is in range.
fn ends_in_range(batch: &Batch<'_>) -> bool
    ensures { result ≡ int_le batch.now.last MAX_LONG }
{
    is_long(batch.last())
}

// Whether the epoch of a batch is at least a log's.
fn climbs(log: &LogRows, batch: &Batch<'_>) -> bool
    ensures { result ≡ int_le log.now.epoch batch.now.epoch }
{
    log.epoch() <= batch.epoch()
}

// Whether the epoch of a batch is that of a controller that was elected.
fn is_elected(batch: &Batch<'_>) -> bool
    ensures { result ≡ int_le (pos 1) batch.now.epoch }
{
    1 <= batch.epoch()
}

// Whether all of these hold.
fn all_hold(plain: bool, some: bool, next: bool, long: bool, climbs: bool, elected: bool) -> bool
    ensures { result ≡ (plain && some && next && long && climbs && elected) }
{
    if !plain {
        return false;
    }
    if !some {
        return false;
    }
    if !next {
        return false;
    }
    if !long {
        return false;
    }
    if !climbs {
        return false;
    }
    elected
}

// Whether a batch with so many records follows on a log.
fn does_follow(log: &LogRows, batch: &Batch<'_>, count: usize) -> bool
    requires { count ≡ length batch.now.values }
    ensures { result ≡ follows log.now batch.now }
{
    all_hold(
        !batch.is_control(),
        0 < count,
        begins_next(log, batch),
        ends_in_range(batch),
        climbs(log, batch),
        is_elected(batch),
    )
}

/// What is held of a batch.
pub(crate) fn row_of(batch: &Batch<'_>, items: Vec<MetaRecord>) -> BatchRow
    ensures { result ≡ batch_row batch.now items.items }
{
    BatchRow {
        first: batch.first(),
        epoch: batch.epoch(),
        time: batch.time(),
        items: Sequence::from_vec(items),
    }
}

// Takes a batch that was read, and its records.
fn add_batch(log: &mut LogRows, batch: &Batch<'_>, items: Vec<MetaRecord>) -> Result<(), FrameFault>
    requires batch { (bytes : List ℕ) × (batch_of bytes ≡ Ok batch.now) }
    requires values { read_values batch.now.values ≡ Ok items.items }
    ensures { Says (λ done. log.new) result (row_or_not log.old batch.now items.items) }
{
    let count = items.len();
    if !does_follow(log, batch, count) {
        return Err(FrameFault::Why(LogWhy::Sequence));
    }
    let Ok(()) = log.push(row_of(batch, items)) else {
        return Err(FrameFault::NoMemory);
    };
    Ok(())
}

// Takes a batch.
fn take_batch(alloc: Global, log: &mut LogRows, bytes: &[u8]) -> Result<(), FrameFault>
    ensures { Says (λ done. log.new) result (after_batch log.old bytes.now) }
{
    let batch = match Batch::read(bytes) {
        Ok(batch) => batch,
        Err(fault) => return Err(FrameFault::Why(LogWhy::Batch(fault))),
    };
    match read_items(alloc, batch.values()) {
        Ok(items) => add_batch(log, &batch, items),
        Err(fault) => Err(fault),
    }
}

/// The epoch in the first four bytes.
pub(crate) fn epoch_in(bytes: &[u8]) -> i32
    requires { 4 ≤ length bytes.now }
    ensures { result ≡ signed_at w32 0 bytes.now }
{
    let (field, _) = bytes.split_at(4);
    u32::from_be_bytes([field[0], field[1], field[2], field[3]]).cast_signed()
}

// Takes a reset.
fn take_reset(alloc: Global, log: &mut LogRows, bytes: &[u8]) -> Result<(), FrameFault>
    ensures { Says (λ done. log.new) result (after_reset log.old bytes.now) }
{
    if bytes.len() < 4 {
        return Err(FrameFault::Why(LogWhy::Malformed));
    }
    if epoch_in(bytes) != log.epoch() || bytes.len() != 4 {
        return Err(FrameFault::Why(LogWhy::Sequence));
    }
    *log = log.emptied(alloc);
    Ok(())
}

/// Takes what a frame's payload makes of a log: its kind byte, 1 for a batch, 2 for a reset and 3 for a snapshot, and the rest.
#[tactic(auto, unfolding(kz_spec_data::specs::LogFile::after_payload))]
pub fn take_payload(alloc: Global, log: &mut LogRows, payload: &[u8]) -> Result<(), FrameFault>
    ensures { Says (λ done. log.new) result (after_payload log.old payload.now) }
{
    let Some((kind, bytes)) = payload.split_first() else {
        return Err(FrameFault::Why(LogWhy::Malformed));
    };
    match *kind {
        1 => take_batch(alloc, log, bytes),
        2 => take_reset(alloc, log, bytes),
        3 => take_snapshot(alloc, log, bytes),
        _ => Err(FrameFault::Why(LogWhy::Malformed)),
    }
}
