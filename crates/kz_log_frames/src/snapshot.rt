//! Taking the frame of a snapshot into a log.
ghost use Rattle.std.specs.Prelude.{◌≡◌, ◌≤◌, ◌&&◌, length, IfOk};
ghost use Rattle.std.specs.Int.{w64};
ghost use Rattle.kz_spec_data.specs.Batches.{signed_at};
ghost use Rattle.kz_spec_data.specs.LogFile.{after_snapshot};
ghost use Rattle.kz_log_frames.specs.Taken.{Says};
ghost use Rattle.kz_log_frames.specs.Pieces.{HaveShortRecords, image_of_rows, is_allowed, are_own_records, cut_or_not};

use crate::fault::FrameFault;
use crate::pieces::{Found, number_in, read_all, split_pieces};
use crate::same::same_rows;
use crate::take::epoch_in;
use kz_image::Image;
use kz_log::LogRows;
use kz_snapshot::{from_rows, records};
use kz_types::{BatchRow, LogWhy, NoMemory};
use std::alloc::Global;

// The base in a snapshot's frame.
fn base_in(bytes: &[u8]) -> i64
    requires { 12 ≤ length bytes.now }
    ensures { result ≡ signed_at w64 4 bytes.now }
{
    let (_, rest) = bytes.split_at(4);
    let (field, _) = rest.split_at(8);
    i64::from_be_bytes([
        field[0], field[1], field[2], field[3], field[4], field[5], field[6], field[7],
    ])
}

// Whether all of these hold.
fn all_hold(ends: bool, current: bool, may: bool, based: bool, fits: bool) -> bool
    ensures { result ≡ (ends && current && may && based && fits) }
{
    if !ends {
        return false;
    }
    if !current {
        return false;
    }
    if !may {
        return false;
    }
    if !based {
        return false;
    }
    fits
}

// Whether a snapshot of a log may have these fields.
fn is_allowed(
    alloc: Global,
    log: &LogRows,
    epoch: i32,
    base: i64,
    found: &Found,
    rest: usize,
) -> Result<bool, NoMemory>
    ensures { IfOk result (λ is. is ≡ is_allowed log.now epoch base found.now.rows.items found.now.fits rest) }
{
    let may = log.may_be_base(alloc, base)?;
    Ok(all_hold(
        rest == 0,
        epoch == log.epoch(),
        may,
        0 <= base || found.rows.is_empty(),
        found.fits,
    ))
}

// Whether the records of batches are those of this metadata.
fn has_records(
    alloc: Global,
    epoch: i32,
    rows: &[BatchRow],
    image: &Image,
) -> Result<bool, NoMemory>
    requires image { image.now ≡ image_of_rows rows.now }
    requires short { HaveShortRecords rows.now }
    ensures { IfOk result (λ same. same ≡ are_own_records epoch rows.now) }
{
    let own = records(alloc, image, epoch)?;
    same_rows(alloc, rows, &own)
}

// Cuts a log by the fields of a snapshot.
fn cut_by(
    alloc: Global,
    log: &mut LogRows,
    epoch: i32,
    base: i64,
    found: &Found,
    rest: usize,
) -> Result<(), FrameFault>
    requires { HaveShortRecords found.now.rows.items }
    ensures { Says (λ done. log.new) result (cut_or_not log.old epoch base found.now.rows.items found.now.fits rest) }
{
    let Ok(allowed) = is_allowed(alloc, log, epoch, base, found, rest) else {
        return Err(FrameFault::NoMemory);
    };
    if !allowed {
        return Err(FrameFault::Why(LogWhy::Sequence));
    }
    let Ok(image) = from_rows(alloc, &found.rows) else {
        return Err(FrameFault::NoMemory);
    };
    let Ok(same) = has_records(alloc, epoch, &found.rows, &image) else {
        return Err(FrameFault::NoMemory);
    };
    if !same {
        return Err(FrameFault::Why(LogWhy::Sequence));
    }
    let Ok(cut) = log.with_base(alloc, base, image) else {
        return Err(FrameFault::NoMemory);
    };
    *log = cut;
    Ok(())
}

/// Takes a snapshot: the log's epoch, the base, how many batches there are, and the batches.
pub(crate) fn take_snapshot(
    alloc: Global,
    log: &mut LogRows,
    bytes: &[u8],
) -> Result<(), FrameFault>
    ensures { Says (λ done. log.new) result (after_snapshot log.old bytes.now) }
{
    if bytes.len() < 16 {
        return Err(FrameFault::Why(LogWhy::Malformed));
    }
    let epoch = epoch_in(bytes);
    let base = base_in(bytes);
    let (_, counted) = bytes.split_at(12);
    let count = number_in(counted);
    let (_, written) = bytes.split_at(16);
    let (pieces, rest) = match split_pieces(alloc, count, written) {
        Ok(split) => split,
        Err(fault) => return Err(fault),
    };
    let found = match read_all(alloc, pieces) {
        Ok(found) => found,
        Err(fault) => return Err(fault),
    };
    cut_by(alloc, log, epoch, base, &found, rest.len())
}
