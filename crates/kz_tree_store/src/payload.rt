//! What is written for a transaction.
ghost use Rattle.std.specs.Prelude.{◌≡◌, length, IfOk};
ghost use Rattle.kz_spec_data.specs.Forms.{AllFit};
ghost use Rattle.std.specs.Int.{w32, w64};
ghost use Rattle.std.specs.Int.RustNames.{FitsSigned};
ghost use Rattle.kz_tree_store.specs.Changes.{FitsIfFew, IsPayloadOf};
ghost use Rattle.kz_tree_store.specs.Payloads.{IsOwnerHeld, IsPathHeld, IsOpHeld, IsRowHeld};

use kz_spec_data::Txn;
use kz_txn::{txn_size, write_txn, written_is_read};
use kz_types::{MAX_FILE_BYTES, NoMemory, Op, Row, ZPath};
use std::alloc::Global;

/// So many zeros.
pub(crate) fn zeros(alloc: Global, count: u128) -> Result<Vec<u8>, NoMemory>
    ensures { IfOk result (λ bytes. length bytes.items ≡ count) }
{
    if count > usize::MAX as u128 {
        return Err(NoMemory);
    }
    match vec![in alloc; 0u8; count as usize] {
        Ok(bytes) => Ok(bytes),
        Err(_) => Err(NoMemory),
    }
}

/// The payload of a transaction's frame, or as many zeros where no file has room for it.
pub(crate) fn txn_bytes(alloc: Global, txn: &Txn) -> Result<Vec<u8>, NoMemory>
    requires { FitsIfFew txn.now }
    ensures { IfOk result (λ payload. IsPayloadOf txn.now payload.items) }
{
    let size = txn_size(txn);
    if size > MAX_FILE_BYTES as u128 {
        let payload = zeros(alloc, size)?;
        return Ok(payload);
    }
    written_is_read();
    let payload = write_txn(alloc, txn)?;
    Ok(payload)
}

// ---- what a program holds

fn is_held32(_number: i32)
    ensures { FitsSigned w32 _number }
{}

fn is_held64(_number: i64)
    ensures { FitsSigned w64 _number }
{}

fn is_path_held(path: &ZPath)
    ensures { IsPathHeld path.now }
{
    let _ = path.bytes();
}

fn is_owner_held(owner: Option<i64>)
    ensures { IsOwnerHeld owner }
{
    if let Some(session) = owner {
        is_held64(session);
    }
}

fn is_op_held(op: &Op)
    ensures { IsOpHeld op.now }
{
    match op {
        Op::Create { path, owner, .. } => {
            is_path_held(path);
            is_owner_held(*owner);
        }
        Op::Set { path, version, .. } => {
            is_path_held(path);
            is_held32(*version);
        }
        Op::Delete { path, version } => {
            is_path_held(path);
            is_held32(*version);
        }
        Op::Check { path, version } => {
            is_path_held(path);
            is_held32(*version);
        }
    }
}

/// Each operation that a program holds has a path, and numbers in their ranges.
pub(crate) fn are_ops_held(ops: &[Op])
    ensures { AllFit IsOpHeld ops.now }
{
    for op in ops {
        is_op_held(op);
    }
}

/// The same of a znode.
pub(crate) fn is_row_held(row: &Row)
    ensures { IsRowHeld row.now }
{
    is_path_held(&row.path);
    is_held32(row.version);
    is_owner_held(row.owner);
    is_held64(row.czxid);
    is_held64(row.mzxid);
    is_held64(row.pzxid);
}

/// The same of each of these znodes.
pub(crate) fn are_rows_held(rows: &[Row])
    ensures { AllFit IsRowHeld rows.now }
{
    for row in rows {
        is_row_held(row);
    }
}

/// The same of each session.
pub(crate) fn are_sessions_held(sessions: &[i64])
    ensures { AllFit (FitsSigned w64) sessions.now }
{
    for session in sessions {
        is_held64(*session);
    }
}
