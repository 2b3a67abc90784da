//! The batches in the frame of a snapshot.
ghost use Rattle.std.specs.Prelude.{◌≡◌, ◌≤◌, ◌+ℤ◌, ◌&&◌, ◌∷◌, [], ◌++◌, nat_lt, not, pos, List, length, map, take, option_map, Ok, IfOk};
ghost use Rattle.std.specs.List.{All};
ghost use Rattle.std.specs.Int.{w32, from_be_bytes};
ghost use Rattle.std.specs.Ordering.{int_eq};
ghost use Rattle.kz_spec_data.specs.Batches.{batch_of};
ghost use Rattle.kz_spec_data.specs.LogFile.{Piece, read_values, read_pieces, read_batches};
ghost use Rattle.kz_log_frames.specs.Taken.{Says};
ghost use Rattle.kz_log_frames.specs.Pieces.{IsShortRecord, IsSplit, AreFound, read_batch, ReadsBatch, ReadsBatches};

use crate::fault::FrameFault;
use crate::payload::are_bytes;
use crate::take::{read_items, row_of};
use kz_batch::Batch;
use kz_laws_values::lengths::{records_are_shortest, values_are_short};
use kz_types::{BatchRow, LogWhy, MetaRecord, NoMemory};
use std::alloc::Global;

/// The number in the first four bytes.
pub(crate) fn number_in(bytes: &[u8]) -> u32
    requires { 4 ≤ length bytes.now }
    ensures { result ≡ from_be_bytes w32 (take 4 bytes.now) }
{
    let (field, _) = bytes.split_at(4);
    u32::from_be_bytes([field[0], field[1], field[2], field[3]])
}

// A piece after its length in four bytes, and the bytes after it. `None`: the piece is cut.
fn split_piece(bytes: &[u8]) -> Option<(&[u8], &[u8])>
    ensures { IsSplit bytes.now (option_map (λ parts. (parts.0.now, parts.1.now)) result) }
{
    if bytes.len() < 4 {
        return None;
    }
    let size = number_in(bytes) as usize;
    let (_, rest) = bytes.split_at(4);
    if rest.len() < size {
        return None;
    }
    Some(rest.split_at(size))
}

/// So many pieces, each after its length in four bytes, and the bytes after them.
pub(crate) fn split_pieces<'a>(
    alloc: Global,
    count: u32,
    bytes: &'a [u8],
) -> Result<(Vec<&'a [u8]>, &'a [u8]), FrameFault>
    ensures { Says (λ found. (map (λ piece. piece.now) found.0.items, found.1.now)) result (read_pieces count bytes.now) }
{
    let mut pieces = Vec::new(alloc);
    let mut rest = bytes;
    let mut left = count;
    while 0 < left {
        let Some((piece, later)) = split_piece(rest) else {
            return Err(FrameFault::Why(LogWhy::Malformed));
        };
        let Ok(()) = pieces.push(piece) else {
            return Err(FrameFault::NoMemory);
        };
        rest = later;
        left -= 1;
    }
    Ok((pieces, rest))
}

/// The batches that were read, the last offset of the last, and whether each is one of a snapshot.
#[derive(Drop)]
pub(crate) struct Found {
    pub(crate) rows: Vec<BatchRow>,
    pub(crate) last: i128,
    pub(crate) fits: bool,
}

// Whether an offset is the one after another.
fn is_next(first: i64, last: i128) -> bool
    ensures { result ≡ int_eq first (last +ℤ pos 1) }
{
    first as i128 - 1 == last
}

// Whether all of these hold.
fn all_hold(before: bool, plain: bool, some: bool, next: bool, timeless: bool) -> bool
    ensures { result ≡ (before && (plain && some && next && timeless)) }
{
    if !before {
        return false;
    }
    if !plain {
        return false;
    }
    if !some {
        return false;
    }
    if !next {
        return false;
    }
    timeless
}

// Whether the batches that were read and one with so many records are batches of a snapshot.
fn do_fit(found: &Found, batch: &Batch<'_>, count: usize) -> bool
    ensures { result ≡ (found.now.fits && (not batch.now.control && nat_lt 0 count && int_eq batch.now.first (found.now.last +ℤ pos 1) && int_eq batch.now.time (pos 0))) }
{
    all_hold(
        found.fits,
        !batch.is_control(),
        0 < count,
        is_next(batch.first(), found.last),
        batch.time() == 0,
    )
}

// The batches that were read, and one more.
fn with_batch(found: Found, batch: &Batch<'_>, items: Vec<MetaRecord>) -> Result<Found, NoMemory>
    requires values { read_values batch.now.values ≡ Ok items.items }
    requires short { All IsShortRecord items.items }
    ensures { IfOk result (λ made. (ps : List Piece) → AreFound found ps → AreFound made (ps ++ (batch.now, items.items) ∷ [])) }
{
    let fits = do_fit(&found, batch, items.len());
    let last = batch.last();
    let Found { mut rows, .. } = found;
    rows.push(row_of(batch, items))?;
    Ok(Found { rows, last, fits })
}

// Each record that was read of a batch's values has fewer than 2^32 bytes: it has at most as many as its value, which has fewer
// than 2^31.
fn are_short(piece: &[u8], batch: &Batch<'_>, items: &[MetaRecord])
    requires batch { batch_of piece.now ≡ Ok batch.now }
    requires values { read_values batch.now.values ≡ Ok items.now }
    ensures { All IsShortRecord items.now }
{
    are_bytes(piece);
    values_are_short();
    records_are_shortest();
}

// Reads a batch after those that were read.
fn read_piece(alloc: Global, found: Found, piece: &[u8]) -> Result<Found, FrameFault>
    ensures { (ps : List Piece) → AreFound found ps → ReadsBatch result ps (read_batch piece.now) }
{
    let batch = match Batch::read(piece) {
        Ok(batch) => batch,
        Err(fault) => return Err(FrameFault::Why(LogWhy::Batch(fault))),
    };
    match read_items(alloc, batch.values()) {
        Ok(items) => {
            are_short(piece, &batch, &items);
            match with_batch(found, &batch, items) {
                Ok(made) => Ok(made),
                Err(NoMemory) => Err(FrameFault::NoMemory),
            }
        }
        Err(fault) => Err(fault),
    }
}

/// Reads batches.
pub(crate) fn read_all(alloc: Global, pieces: Vec<&[u8]>) -> Result<Found, FrameFault>
    ensures { ReadsBatches result (read_batches (map (λ piece. piece.now) pieces.entry.items)) }
{
    let mut found = Found {
        rows: Vec::new(alloc),
        last: -1,
        fits: true,
    };
    for piece in pieces {
        found = match read_piece(alloc, found, piece) {
            Ok(made) => made,
            Err(fault) => return Err(fault),
        };
    }
    Ok(found)
}
