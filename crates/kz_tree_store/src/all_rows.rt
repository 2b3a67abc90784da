//! The payload of all znodes of a load.
ghost use Rattle.std.specs.Prelude.{◌≡◌, ◌<◌, ◌+◌, ◌^◌, ◌++◌, length, true, OnOk, IfOk};
ghost use Rattle.kz_spec_data.specs.Forms.{AllFit, items_written};
ghost use Rattle.kz_spec_data.specs.declared.files.Txn.TheVariants.{LoadRows};
ghost use Rattle.kz_spec_data.specs.Loads.{is_load};
ghost use Rattle.kz_spec_data.specs.Transactions.{row, TxnFits, txn_written};
ghost use Rattle.kz_tree_store.specs.Changes.{IsPayloadOf};
ghost use Rattle.kz_tree_store.specs.Payloads.{IsRowHeld};

use crate::payload::{is_row_held, zeros};
use kz_tree::LoadCheck;
use kz_txn::{put_load_rows_head, put_row, row_size, written_is_read};
use kz_types::{MAX_FILE_BYTES, NoMemory};
use std::alloc::Global;

// Each znode of a load is held, and they keep its rules.
fn are_all_held(check: &LoadCheck)
    ensures held { AllFit IsRowHeld check.now.rows }
    ensures load { is_load check.now.zxid check.now.sessions check.now.rows ≡ true }
{
    for row in check.rows() {
        is_row_held(row);
    }
}

// How many bytes the znodes have, and these before them. `NoMemory`: no memory has as many.
fn rows_size(before: u128, check: &LoadCheck) -> Result<u128, NoMemory>
    requires { before < 2 ^ 64 }
    ensures { IfOk result (λ size. size ≡ before + length (items_written row.written check.now.rows)) }
{
    let mut size = before;
    for row in check.rows() {
        size += row_size(row);
        if size > usize::MAX as u128 {
            return Err(NoMemory);
        }
    }
    Ok(size)
}

// Appends the znodes.
fn push_rows(out: &mut Vec<u8>, check: &LoadCheck) -> Result<(), NoMemory>
    requires { AllFit row.fits check.now.rows }
    ensures { OnOk result (out.new.items ≡ out.old.items ++ items_written row.written check.now.rows) }
{
    for row in check.rows() {
        put_row(out, row)?;
    }
    Ok(())
}

// The bytes of the transaction of the znodes, of which there are so many.
#[tactic(auto, unfolding(kz_spec_data::specs::Transactions::txn_written))]
fn write_rows(alloc: Global, size: usize, check: &LoadCheck) -> Result<Vec<u8>, NoMemory>
    requires { TxnFits (LoadRows true check.now.rows) }
    ensures { IfOk result (λ bytes. bytes.items ≡ txn_written (LoadRows true check.now.rows)) }
{
    let mut out = Vec::with_capacity(alloc, size)?;
    put_load_rows_head(&mut out, true, check.count())?;
    push_rows(&mut out, check)?;
    Ok(out)
}

/// The payload of the frame with all znodes of a load, or as many zeros where no file has room for it.
pub(crate) fn all_rows_bytes(alloc: Global, check: &LoadCheck) -> Result<Vec<u8>, NoMemory>
    ensures { IfOk result (λ payload. IsPayloadOf (LoadRows true check.now.rows) payload.items) }
{
    // A kind byte, a flag and a count stand before the znodes.
    let size = rows_size(6, check)?;
    if size > MAX_FILE_BYTES as u128 {
        let payload = zeros(alloc, size)?;
        return Ok(payload);
    }
    are_all_held(check);
    written_is_read();
    let payload = write_rows(alloc, size as usize, check)?;
    Ok(payload)
}
