//! The changes of a disk in memory.
ghost use Rattle.std.specs.Prelude.{◌≡◌, ◌≤◌, length, OnOk, OnErr, vec_len};
ghost use Rattle.kz_disk.specs.Disks.{with_piece};

use std::alloc::AllocError;

/// A change of a disk in memory.
#[derive(Drop)]
pub enum Change {
    /// A piece was written from a place on.
    Wrote { at: usize, piece: Vec<u8> },
    /// All that was written outlives a stop from here on.
    Synced,
}

/// Writes a piece over what stands from a place on, and past the end. At `Err` the bytes are as they were.
pub(crate) fn put_piece(bytes: &mut Vec<u8>, at: usize, piece: &[u8]) -> Result<(), AllocError>
    requires { at ≤ vec_len bytes.old }
    ensures ok { OnOk result (bytes.new.items ≡ with_piece at piece.now bytes.old.items) }
    ensures err { OnErr result (bytes.new.items ≡ bytes.old.items) }
{
    let over = piece.len().min(bytes.len() - at);
    bytes.extend_from_slice(&piece[over..])?;
    bytes[at..at + over].copy_from_slice(&piece[..over]);
    Ok(())
}
