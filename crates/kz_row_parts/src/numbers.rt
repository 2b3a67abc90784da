//! The numbers of znodes.
ghost use Rattle.std.specs.Prelude.{◌≡◌, ◌≤ℤ◌, List, map, IfOk, IfSome, IsTrue, ◌↔◌, option_map};
ghost use Rattle.kz_types.specs.declared.tree.Row.{Row};
ghost use Rattle.kz_spec_data.specs.Tree.{row_at, put_row};
ghost use Rattle.kz_row_parts.specs.Kept.{AreRows};
ghost use Rattle.kz_row_parts.specs.Numbered.{latest_of, numbers_of_row, numbers_of};

use crate::migrated::is_migrated;
use kz_row_numbers::{Numbers, Segments, join};
use kz_sorted::{Block, Shared};
use kz_types::{NoMemory, Row};
use std::alloc::Global;

// The last transaction that wrote a migrated znode, or its children.
fn latest_of(row: &Row) -> Option<i64>
    ensures { result ≡ latest_of row.now }
{
    if is_migrated(row.path.bytes()) {
        Some(row.mzxid.max(row.pzxid))
    } else {
        None
    }
}

/// The numbers of one znode.
pub fn numbers_of_row(row: &Row) -> Numbers
    ensures { result ≡ numbers_of_row row.now }
{
    Numbers {
        rows: 1,
        latest: latest_of(row),
    }
}

/// The numbers of these znodes together.
pub fn numbers_of(rows: &[Shared<Row>]) -> Numbers
    ensures { result ≡ numbers_of rows.now }
{
    let mut numbers = Numbers::none();
    for row in rows {
        numbers = join(numbers, numbers_of_row(row.get()));
    }
    numbers
}

/// The numbers of each block. It looks at each znode.
pub fn segments_of(alloc: Global, blocks: &[Block<Row>]) -> Result<Segments, NoMemory>
    ensures { IfOk result (λ made. made ≡ map numbers_of blocks.now) }
{
    let mut numbers = Vec::new(alloc);
    for block in blocks {
        numbers.push(numbers_of(block.items()))?;
    }
    Segments::of(alloc, numbers)
}

// Whether neither transaction of a znode is before that of the other.
fn is_not_before(row: &Row, other: &Row) -> bool
    ensures { IsTrue result ↔ ((other.now.mzxid ≤ℤ row.now.mzxid) × (other.now.pzxid ≤ℤ row.now.pzxid)) }
{
    other.mzxid <= row.mzxid && other.pzxid <= row.pzxid
}

/// The numbers of a block once a znode is put there, from those before and the one that it replaces, if there is one. They
/// aren't known where that one may have been the last to be written.
pub fn numbers_with(numbers: Numbers, replaced: Option<&Row>, row: &Row) -> Option<Numbers>
    ensures { (block : List Row) → AreRows block → numbers ≡ numbers_of block → option_map (λ r. r.now) replaced.entry ≡ row_at row.now.path block
        → IfSome result (λ made. made ≡ numbers_of (put_row row.now block)) }
{
    let together = join(numbers, numbers_of_row(row));
    let Some(other) = replaced else {
        return Some(together);
    };
    if is_not_before(row, other) {
        return Some(Numbers {
            rows: numbers.rows,
            latest: together.latest,
        });
    }
    None
}
