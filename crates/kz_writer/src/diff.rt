//! The difference of two renderings.
ghost use Rattle.std.specs.Prelude.{◌≡◌, ◌++◌, map, option_map, IfOk, OnOk, OnErr};
ghost use Rattle.kz_types.specs.Order.{bytes_cmp};
ghost use Rattle.kz_types.specs.Ordered.{find as find_in, Rises};
ghost use Rattle.kz_spec_data.specs.Tree.{path_of_row, path_of_rendered, rendered_row};
ghost use Rattle.kz_spec_data.specs.Difference.{diff};
ghost use Rattle.kz_writer.specs.Parts.{deletes, puts, delete_of, put_of};

use crate::znode::Znode;
use kz_sorted::find_near;
use kz_types::{Duplicate, NoMemory, Op, Rendered, Row};
use std::alloc::Global;

// The znode with this path, and the place where the search ended.
fn find_znode<'a, Z: Znode>(znodes: &'a [Z], path: &[u8], place: usize) -> (Option<&'a Z>, usize)
    requires { Rises bytes_cmp Z.key znodes.now }
    ensures { option_map (λ z. Z.rendered z.now) result.0 ≡ find_in bytes_cmp path_of_rendered path.now (map Z.rendered znodes.entry.now) }
{
    find_near(znodes, path, place)
}

// A delete of a znode that isn't wanted. Tells the place where it would stand.
fn push_delete<Z: Znode>(
    alloc: Global,
    ops: &mut Vec<Op>,
    znode: &Z,
    want: &[Rendered],
    place: usize,
) -> Result<usize, NoMemory>
    requires { Rises bytes_cmp path_of_rendered want.now }
    ensures { OnOk result (ops.new.items ≡ ops.old.items ++ delete_of (Z.rendered znode.now) want.now) }
{
    let (found, at) = find_near(want, znode.path().bytes(), place);
    if found.is_none() {
        ops.push(Op::Delete {
            path: znode.path().copy(alloc)?,
            version: -1,
        })?;
    }
    Ok(at)
}

// A create or a set of a znode that is absent or has another body. Tells the place after it.
fn push_put<Z: Znode>(
    alloc: Global,
    ops: &mut Vec<Op>,
    have: &[Z],
    znode: &Rendered,
    place: usize,
) -> Result<usize, NoMemory>
    requires { Rises bytes_cmp Z.key have.now }
    ensures { OnOk result (ops.new.items ≡ ops.old.items ++ put_of (map Z.rendered have.now) znode.now) }
{
    match find_znode(have, znode.path.bytes(), place) {
        (None, at) => {
            ops.push(Op::Create {
                path: znode.path.copy(alloc)?,
                body: znode.body.copy(alloc)?,
                owner: None,
            })?;
            Ok(at)
        }
        (Some(present), at) => {
            if present.body() != znode.body.as_slice() {
                ops.push(Op::Set {
                    path: znode.path.copy(alloc)?,
                    body: znode.body.copy(alloc)?,
                    version: -1,
                })?;
            }
            Ok(at.saturating_add(1))
        }
    }
}

// Both lists rise, so that the znodes that are looked for one after another stand one after another.
fn push_deletes<Z: Znode>(
    alloc: Global,
    ops: &mut Vec<Op>,
    have: &[Z],
    want: &[Rendered],
) -> Result<(), NoMemory>
    requires { Rises bytes_cmp path_of_rendered want.now }
    ensures { OnOk result (ops.new.items ≡ ops.old.items ++ deletes (map Z.rendered have.now) want.now) }
{
    let count = have.len();
    let mut place = want.len();
    for done in 0..count {
        let znode = &have[count - 1 - done];
        place = push_delete(alloc, ops, znode, want, place.saturating_sub(1))?;
    }
    Ok(())
}

fn push_puts<Z: Znode>(
    alloc: Global,
    ops: &mut Vec<Op>,
    have: &[Z],
    want: &[Rendered],
) -> Result<(), NoMemory>
    requires { Rises bytes_cmp Z.key have.now }
    ensures { OnOk result (ops.new.items ≡ ops.old.items ++ puts (map Z.rendered have.now) want.now) }
{
    let mut place = 0;
    for znode in want {
        place = push_put(alloc, ops, have, znode, place)?;
    }
    Ok(())
}

// The operations that make `want` of `have`.
fn operations<Z: Znode>(alloc: Global, have: &[Z], want: &[Rendered]) -> Result<Vec<Op>, NoMemory>
    requires have_rises { Rises bytes_cmp Z.key have.now }
    requires want_rises { Rises bytes_cmp path_of_rendered want.now }
    ensures { IfOk result (λ ops. ops.items ≡ diff (map Z.rendered have.now) want.now) }
{
    let mut ops = Vec::new(alloc);
    push_deletes(alloc, &mut ops, have, want)?;
    push_puts(alloc, &mut ops, have, want)?;
    Ok(ops)
}

/// The operations that make `want` of `have`, each at any version: deletes by falling path, then creates and sets by
/// rising path.
pub fn diff_renderings(
    alloc: Global,
    have: &[Rendered],
    want: &[Rendered],
) -> Result<Vec<Op>, NoMemory>
    requires have_rises { Rises bytes_cmp path_of_rendered have.now }
    requires want_rises { Rises bytes_cmp path_of_rendered want.now }
    ensures { IfOk result (λ ops. ops.items ≡ diff have.now want.now) }
{
    operations(alloc, have, want)
}

/// The operations that make `want` of the migrated area, each at any version: deletes by falling path, then creates and
/// sets by rising path.
pub fn diff_ops(alloc: Global, area: &[Row], want: &[Rendered]) -> Result<Vec<Op>, NoMemory>
    requires area_rises { Rises bytes_cmp path_of_row area.now }
    requires want_rises { Rises bytes_cmp path_of_rendered want.now }
    ensures { IfOk result (λ ops. ops.items ≡ diff (map rendered_row area.now) want.now) }
{
    operations(alloc, area, want)
}
