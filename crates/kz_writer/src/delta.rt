//! The operations between two lists of znodes that differ at known paths alone.
ghost use Rattle.std.specs.Prelude.{◌≡◌, ◌++◌, true, map, length, option_to_list, IfOk, OnOk, All};
ghost use Rattle.kz_types.specs.Paths.{is_legal};
ghost use Rattle.kz_types.specs.Order.{bytes_cmp};
ghost use Rattle.kz_types.specs.Ordered.{find};
ghost use Rattle.kz_types.specs.Covering.{at_keys};
ghost use Rattle.kz_spec_data.specs.Tree.{path_of_rendered};
ghost use Rattle.kz_spec_data.specs.Difference.{diff};
ghost use Rattle.kz_spec_data.specs.Spans.{all_spanned_paths, CoverDifference};
ghost use Rattle.kz_writer.specs.PathLists.{path_of_spanned, DifferAtPathsAlone, RisesBy};

use crate::diff::diff_renderings;
use crate::spanned::{SpannedPath, spanned_in_order};
use kz_delta::Touched;
use kz_types::{Bodies, Duplicate, EntityKey, NoMemory, Op, Rendered, Sequence, ZPath};
use std::alloc::Global;

// Adds the znode at a path, where there is one.
fn push_found<B: Bodies>(
    alloc: Global,
    znodes: &mut Vec<Rendered>,
    bodies: &mut B,
    path: &ZPath,
) -> Result<(), NoMemory>
    ensures ok { OnOk result (znodes.new.items ≡ znodes.old.items ++ option_to_list (find bytes_cmp path_of_rendered path.now (B.znodes bodies.old))) }
    ensures same { B.znodes bodies.new ≡ B.znodes bodies.old }
    ensures counts { RisesBy 1 (B.count bodies.old) (B.count bodies.new) }
{
    match bodies.body(path)? {
        None => Ok(()),
        Some(body) => Ok(znodes.push(Rendered {
            path: path.copy(alloc)?,
            body: Sequence::from_vec(body),
        })?),
    }
}

/// The znodes at these paths, in the order of the paths. Each path is asked for once.
pub fn znodes_at<B: Bodies>(
    alloc: Global,
    bodies: &mut B,
    paths: &[SpannedPath],
) -> Result<Vec<Rendered>, NoMemory>
    ensures ok { IfOk result (λ znodes. znodes.items ≡ at_keys bytes_cmp path_of_rendered (map path_of_spanned paths.now) (B.znodes bodies.old)) }
    ensures same { B.znodes bodies.new ≡ B.znodes bodies.old }
    ensures counts { RisesBy (length paths.now) (B.count bodies.old) (B.count bodies.new) }
{
    let mut znodes = Vec::new(alloc);
    for spanned in paths {
        push_found(alloc, &mut znodes, bodies, &spanned.path)?;
    }
    Ok(znodes)
}

// The operations that make the one list of znodes the other, which differ at the paths that these keys span.
fn ops_at<O: Bodies, N: Bodies>(
    alloc: Global,
    old: &mut O,
    new: &mut N,
    keys: &[EntityKey],
) -> Result<Vec<Op>, NoMemory>
    requires legal { All (λ k. is_legal k ≡ true) keys.now }
    requires covers { CoverDifference keys.now (O.znodes old.old) (N.znodes new.old) }
    requires rule { DifferAtPathsAlone (O.znodes old.old) (N.znodes new.old) }
    ensures ok { IfOk result (λ ops. ops.items ≡ diff (O.znodes old.old) (N.znodes new.old)) }
    ensures old_same { O.znodes old.new ≡ O.znodes old.old }
    ensures new_same { N.znodes new.new ≡ N.znodes new.old }
    ensures old_counts { RisesBy (length (all_spanned_paths keys.now)) (O.count old.old) (O.count old.new) }
    ensures new_counts { RisesBy (length (all_spanned_paths keys.now)) (N.count new.old) (N.count new.new) }
{
    let paths = spanned_in_order(alloc, keys)?;
    let have = znodes_at(alloc, old, &paths)?;
    let want = znodes_at(alloc, new, &paths)?;
    diff_renderings(alloc, &have, &want)
}

/// The operations that make the one list of znodes the other, each at any version: deletes by falling path, then creates and
/// sets by rising path. The lists differ at the paths that the keys span, and at no others. Only bodies at these paths are
/// asked for, each once.
pub fn delta_ops<O: Bodies, N: Bodies>(
    alloc: Global,
    old: &mut O,
    new: &mut N,
    keys: &Touched,
) -> Result<Vec<Op>, NoMemory>
    requires covers { CoverDifference keys.now (O.znodes old.old) (N.znodes new.old) }
    requires rule { DifferAtPathsAlone (O.znodes old.old) (N.znodes new.old) }
    ensures ok { IfOk result (λ ops. ops.items ≡ diff (O.znodes old.old) (N.znodes new.old)) }
    ensures old_same { O.znodes old.new ≡ O.znodes old.old }
    ensures new_same { N.znodes new.new ≡ N.znodes new.old }
    ensures old_counts { RisesBy (length (all_spanned_paths keys.now)) (O.count old.old) (O.count old.new) }
    ensures new_counts { RisesBy (length (all_spanned_paths keys.now)) (N.count new.old) (N.count new.new) }
{
    let keys = keys.keys();
    ops_at(alloc, old, new, keys)
}
