//! What a stop leaves of a disk in memory.
ghost use Rattle.std.specs.Prelude.{◌≡◌, true, reverse, IfOk, option_map};
ghost use Rattle.kz_disk.specs.Changes.{filled, crash_image, are_within};

use crate::changes::{Change, put_piece};
use kz_types::NoMemory;
use std::alloc::Global;

// A piece as a stop leaves it: as it was written, or with this byte throughout.
fn filled(alloc: Global, fill: Option<u8>, piece: &[u8]) -> Result<Vec<u8>, NoMemory>
    ensures { IfOk result (λ made. made.items ≡ filled fill piece.now) }
{
    match fill {
        None => Ok(piece.to_vec(alloc)?),
        Some(byte) => Ok(vec![in alloc; byte; piece.len()]?),
    }
}

/// What a stop after these changes leaves of the first contents where what was written since the last sync is filled so.
/// The changes stand in the order in which they were made.
pub(crate) fn crash_image(
    alloc: Global,
    fill: Option<u8>,
    start: &[u8],
    changes: &[Change],
) -> Result<Vec<u8>, NoMemory>
    requires { are_within start.now (reverse changes.now) ≡ true }
    ensures { IfOk result (λ image. image.items ≡ crash_image fill start.now (reverse changes.now)) }
{
    let mut contents = start.to_vec(alloc)?;
    let mut image = start.to_vec(alloc)?;
    for change in changes {
        match change {
            Change::Wrote { at, piece } => {
                let left = filled(alloc, fill, piece)?;
                put_piece(&mut contents, *at, piece)?;
                put_piece(&mut image, *at, &left)?;
            }
            Change::Synced => image = contents.to_vec(alloc)?,
        }
    }
    Ok(image)
}
