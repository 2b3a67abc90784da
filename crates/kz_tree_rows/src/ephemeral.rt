//! The ephemeral znodes of a tree: those that end with a session.
ghost use Rattle.std.specs.Prelude.{◌≡◌, unwrap_or, if◌then◌else◌, IfOk};
ghost use Rattle.kz_spec_data.specs.Tree.{put_row, without_row};
ghost use Rattle.kz_tree_rows.specs.Kept.{has_owner, ephemeral_with};

use kz_row_parts::PartedRows;
use kz_types::{Duplicate, NoMemory, Row};
use std::alloc::Global;

fn has_owner(row: &Row) -> bool
    ensures { result ≡ has_owner row.now }
{
    row.owner.is_some()
}

// These ephemeral znodes and one more.
fn with_one(alloc: Global, ephemeral: &PartedRows, row: &Row) -> Result<PartedRows, NoMemory>
    ensures { IfOk result (λ made. made ≡ put_row row.now ephemeral.now) }
{
    let mut made = ephemeral.copy(alloc)?;
    made.put(row.copy(alloc)?)?;
    Ok(made)
}

/// The ephemeral znodes without that of a path, if it is one of these.
pub fn without_removed(
    alloc: Global,
    ephemeral: &PartedRows,
    path: &[u8],
) -> Result<Option<PartedRows>, NoMemory>
    ensures { IfOk result (λ made. unwrap_or made ephemeral.now ≡ without_row path.now ephemeral.now) }
{
    if ephemeral.find(path).is_none() {
        return Ok(None);
    }
    let mut made = ephemeral.copy(alloc)?;
    made.take_out(path)?;
    Ok(Some(made))
}

/// The ephemeral znodes once a znode is put among all, if they are others then.
pub fn with_put(
    alloc: Global,
    ephemeral: &PartedRows,
    row: &Row,
) -> Result<Option<PartedRows>, NoMemory>
    ensures { IfOk result (λ made. unwrap_or made ephemeral.now ≡ ephemeral_with row.now ephemeral.now) }
{
    if has_owner(row) {
        return Ok(Some(with_one(alloc, ephemeral, row)?));
    }
    without_removed(alloc, ephemeral, row.path.bytes())
}

/// The same of a znode whose path no other has. It searches for none.
pub fn with_added(
    alloc: Global,
    ephemeral: &PartedRows,
    row: &Row,
) -> Result<Option<PartedRows>, NoMemory>
    ensures { IfOk result (λ made. unwrap_or made ephemeral.now ≡ (if has_owner row.now then put_row row.now ephemeral.now else ephemeral.now)) }
{
    if has_owner(row) {
        return Ok(Some(with_one(alloc, ephemeral, row)?));
    }
    Ok(None)
}

/// Takes others in place of the ephemeral znodes, where there are others.
pub fn set(ephemeral: &mut PartedRows, made: Option<PartedRows>)
    ensures { ephemeral.new ≡ unwrap_or made ephemeral.old }
{
    if let Some(made) = made {
        *ephemeral = made;
    }
}
