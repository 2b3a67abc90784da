//! The children of a znode.
ghost use Rattle.std.specs.Prelude.{◌≡◌, ◌≢◌, ◌∷◌, ◌++◌, [], IfOk};
ghost use Rattle.kz_spec_data.specs.Tree.{has_children};

use crate::names::parent_of;
use crate::rows::Rows;
use kz_row_parts::is_before;
use kz_types::{NoMemory, copy_all};
use std::alloc::Global;

/// A path and one more byte.
pub(crate) fn with_byte(alloc: Global, path: &[u8], byte: u8) -> Result<Vec<u8>, NoMemory>
    ensures { IfOk result (λ made. made.items ≡ path.now ++ byte ∷ []) }
{
    let mut made = copy_all(alloc, path)?;
    made.push(byte)?;
    Ok(made)
}

/// Whether a znode has this path as its parent. It would stand from the path followed by `/` on, and before the path
/// followed by `0`, which is the next byte. Where each znode's parent is there, the first znode of these decides.
pub fn has_children(alloc: Global, path: &[u8], rows: &Rows) -> Result<bool, NoMemory>
    requires { path.now ≢ [] }
    ensures { IfOk result (λ has. has ≡ has_children path.now rows.now) }
{
    let first = with_byte(alloc, path, b'/')?;
    let end = with_byte(alloc, path, b'0')?;
    if rows.find(&first).is_some() {
        return Ok(true);
    }
    for row in rows.items_after_bytes(&first) {
        if !is_before(row.path.bytes(), &end) {
            return Ok(false);
        }
        if parent_of(row.path.bytes()) == path {
            return Ok(true);
        }
    }
    Ok(false)
}
