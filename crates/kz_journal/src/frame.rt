//! One more frame after a closed gate.
ghost use Rattle.std.specs.Prelude.{◌≡◌, ◌+◌, ◌^◌, ◌<◌, ℕ, List, Some, true, false, length, IfOk, OnOk, IsErrOf};
ghost use Rattle.kz_types.specs.Causes.{Rose};
ghost use Rattle.kz_disk.specs.Disks.{StaysTold, IsWithin, NothingPends, LeavesOnly};
ghost use Rattle.kz_spec_data.specs.Frames.{journal_of, LeftByAppend};
ghost use Rattle.kz_laws_values.specs.Fronts.{sum_of};
ghost use Rattle.kz_journal.specs.Appends.{after_gate, IsResting, IsAppended};

use crate::device::{CLOSED_GATE, write_after};
use kz_crc::{crc32c, crc32c_add};
use kz_disk::Disk;
use kz_types::NoMemory;
use std::alloc::Global;

/// Why a frame isn't written.
#[derive(Clone, Copy, Debug, PartialEq, Eq)]
pub(crate) enum FrameFault {
    /// A call of the disk failed.
    Failed,
    /// Memory ran out.
    NoMemory,
}

// The sum of a frame: of its bytes of length, and its payload.
fn frame_sum(len: u32, payload: &[u8]) -> u32
    requires { len ≡ length payload.now }
    ensures { result ≡ sum_of payload.now }
{
    crc32c_add(crc32c(&len.to_be_bytes()), payload)
}

fn plain_bytes(alloc: Global, payload: &[u8]) -> Result<Vec<u8>, NoMemory>
    requires { length payload.now < 2 ^ 31 }
    ensures { IfOk result (λ bytes. bytes.items ≡ after_gate false payload.now) }
{
    let len = payload.len() as u32;
    let mut bytes = Vec::with_capacity(alloc, payload.len() + 5)?;
    bytes.extend_from_slice(&len.to_be_bytes())?;
    bytes.extend_from_slice(payload)?;
    bytes.push(CLOSED_GATE)?;
    Ok(bytes)
}

fn summed_bytes(alloc: Global, payload: &[u8]) -> Result<Vec<u8>, NoMemory>
    requires { length payload.now < 2 ^ 31 }
    ensures bytes { IfOk result (λ bytes. bytes.items ≡ after_gate true payload.now) }
    ensures sum { OnOk result (sum_of payload.now < 2 ^ 32) }
{
    let len = payload.len() as u32;
    let sum = frame_sum(len, payload);
    let mut bytes = Vec::with_capacity(alloc, payload.len() + 9)?;
    bytes.extend_from_slice(&len.to_be_bytes())?;
    bytes.extend_from_slice(&sum.to_be_bytes())?;
    bytes.extend_from_slice(payload)?;
    bytes.push(CLOSED_GATE)?;
    Ok(bytes)
}

// What is written after the gate of a frame.
fn frame_bytes(alloc: Global, summed: bool, payload: &[u8]) -> Result<Vec<u8>, NoMemory>
    requires { length payload.now < 2 ^ 31 }
    ensures bytes { IfOk result (λ bytes. bytes.items ≡ after_gate summed payload.now) }
    ensures sum { OnOk result (summed ≡ true → sum_of payload.now < 2 ^ 32) }
{
    if summed {
        summed_bytes(alloc, payload)
    } else {
        plain_bytes(alloc, payload)
    }
}

/// Appends a frame after the closed gate at this place, with a sum or without, and syncs it. A stop at any moment of the call
/// leaves the frames from before it, or these and the new one whole.
///
/// `Failed`: the disk's count of faults rose in this call. `NoMemory`: nothing was called.
pub(crate) fn append_frame<D: Disk>(
    alloc: Global,
    disk: &mut D,
    gate: u64,
    summed: bool,
    payload: &[u8],
) -> Result<(), FrameFault>
    requires few { (gate < 2 ^ 31) × (length payload.now < 2 ^ 31) }
    requires within { IsWithin (D.told disk.old) (gate + 1) }
    requires settled { NothingPends (D.told disk.old) (D.may_leave disk.old) }
    ensures appended { OnOk result ((letter : ℕ) (file : List ℕ) → D.told disk.old ≡ Some file → IsResting letter gate summed file
        → IsAppended letter gate summed payload.now file (D.told disk.new)) }
    ensures told { StaysTold (D.told disk.old) (D.told disk.new) }
    ensures durable { OnOk result (NothingPends (D.told disk.new) (D.may_leave disk.new)) }
    ensures any_moment { (letter : ℕ) (file : List ℕ) → D.told disk.old ≡ Some file → IsResting letter gate summed file
        → LeavesOnly D.moment D.left_since disk.old disk.new (LeftByAppend letter payload.now (journal_of letter file)) }
    ensures failed { IsErrOf result FrameFault.Failed → Rose (D.faults disk.old) (D.faults disk.new) × (D.last_failed disk.new ≡ true) }
    ensures calm { (IsErrOf result FrameFault.Failed → ⊥) → D.faults disk.new ≡ D.faults disk.old }
    ensures untouched { IsErrOf result FrameFault.NoMemory → disk.new ≡ disk.old }
{
    let Ok(bytes) = frame_bytes(alloc, summed, payload) else {
        return Err(FrameFault::NoMemory);
    };
    match write_after(disk, gate, &bytes) {
        Ok(()) => Ok(()),
        Err(_) => Err(FrameFault::Failed),
    }
}
