//! What is written for a snapshot of a log.
ghost use Rattle.std.specs.Prelude.{◌≡◌, ◌≤◌, ◌<◌, ◌^◌, true, [], length, IfOk, OnOk};
ghost use Rattle.std.specs.List.{All, flat_map};
ghost use Rattle.std.specs.Int.{w32, to_be_bytes};
ghost use Rattle.kz_spec_data.specs.Log.{IsLog, may_be_base, snapshot};
ghost use Rattle.kz_spec_data.specs.SnapshotBatches.{snapshot_batches};
ghost use Rattle.kz_spec_data.specs.LogFile.{piece_written};
ghost use Rattle.kz_laws_znodes.specs.ReadBack.{IsBatchReadBack};
ghost use Rattle.kz_log_frames.specs.Payloads.{Grows, IsHeadOf, IsSnapshotOf, written_snapshot};

use crate::payload::batch_bytes;
use kz_image::Image;
use kz_laws_znodes::snapshot_files::snapshot_is_read_back;
use kz_log::LogRows;
use kz_snapshot::to_rows;
use kz_types::{BatchRow, NoMemory};
use std::alloc::Global;

// A number in four bytes, or four zeros where it has more.
fn number_bytes(number: usize) -> [u8; 4]
    ensures size { length result ≡ 4 }
    ensures bytes { number < 2 ^ 32 → result ≡ to_be_bytes w32 number }
{
    match u32::try_from(number) {
        Ok(short) => short.to_be_bytes(),
        Err(_) => [0; 4],
    }
}

// The fields before the batches: the kind byte 3, the epoch, the base, and how many batches there are.
fn head_bytes(alloc: Global, epoch: i32, base: i64, count: usize) -> Result<Vec<u8>, NoMemory>
    ensures { IfOk result (λ head. IsHeadOf epoch base count head.items) }
{
    let mut head = Vec::new(alloc);
    head.push(3)?;
    head.extend_from_slice(&epoch.cast_unsigned().to_be_bytes())?;
    head.extend_from_slice(&base.cast_unsigned().to_be_bytes())?;
    head.extend_from_slice(&number_bytes(count))?;
    Ok(head)
}

// Adds a batch after its length in four bytes.
fn push_piece(alloc: Global, payload: &mut Vec<u8>, row: &BatchRow) -> Result<(), NoMemory>
    ensures grows { OnOk result (Grows payload.old.items payload.new.items (piece_written row.now)) }
    ensures records { OnOk result (IsBatchReadBack row.now) }
{
    // read, since its type says that it fits 32 bits
    let _epoch = row.epoch;
    let bytes = batch_bytes(alloc, row)?;
    let (_, written) = bytes.split_at(1);
    payload.extend_from_slice(&number_bytes(written.len()))?;
    payload.extend_from_slice(written)?;
    Ok(())
}

// Adds batches.
fn push_pieces(alloc: Global, payload: &mut Vec<u8>, rows: &[BatchRow]) -> Result<(), NoMemory>
    ensures grows { OnOk result (Grows payload.old.items payload.new.items (flat_map piece_written rows.now)) }
    ensures records { OnOk result (All IsBatchReadBack rows.now) }
{
    for row in rows {
        push_piece(alloc, payload, row)?;
    }
    Ok(())
}

// The payload of the frame of a snapshot of this metadata, or as many bytes where no file has room for it.
fn payload_bytes(alloc: Global, epoch: i32, base: i64, image: &Image) -> Result<Vec<u8>, NoMemory>
    ensures payload { IfOk result (λ payload. Grows [] payload.items (written_snapshot epoch base image.now)) }
    ensures records { OnOk result (All IsBatchReadBack (snapshot_batches epoch image.now)) }
{
    let rows = to_rows(alloc, image, epoch)?;
    let mut payload = head_bytes(alloc, epoch, base, rows.len())?;
    push_pieces(alloc, &mut payload, &rows)?;
    Ok(payload)
}

/// A log that is cut at an offset, and the payload of the frame of that snapshot, or as many bytes where no file has room for it.
pub fn cut_and_bytes(
    alloc: Global,
    rows: &LogRows,
    offset: i64,
) -> Result<(LogRows, Vec<u8>), NoMemory>
    requires { may_be_base rows.now offset ≡ true }
    ensures rows { IfOk result (λ made. made.0 ≡ snapshot rows.now offset) }
    ensures is_log { IfOk result (λ made. IsLog made.0) }
    ensures payload { IfOk result (λ made. IsSnapshotOf rows.now made.0 offset made.1.items) }
{
    rows.is_log();
    let cut = rows.cut(alloc, offset)?;
    let image = cut.base_image();
    image.is_held();
    let payload = payload_bytes(alloc, rows.epoch(), offset, image)?;
    snapshot_is_read_back();
    Ok((cut, payload))
}
