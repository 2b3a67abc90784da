//! The operations between two metadata.
ghost use Rattle.std.specs.Prelude.{◌≡◌, IfOk};
ghost use Rattle.kz_spec_data.specs.Difference.{diff};
ghost use Rattle.kz_spec_data.specs.Rendering.{render};
ghost use Rattle.kz_spec_data.specs.Spans.{CoverDifference};
ghost use Rattle.kz_view_delta.specs.Reads.{WasRead};

use crate::keys::keys_between;
use kz_delta::Touched;
use kz_image::{Feed, Image};
use kz_log::View;
use kz_render::render;
use kz_types::{NoMemory, Op};
use kz_writer::{ImageBodies, delta_ops, diff_renderings, renderings_differ_at_paths};
use std::alloc::Global;

// The operations between two metadata, of which all znodes are rendered.
fn whole_difference(alloc: Global, before: &Image, after: &Image) -> Result<Vec<Op>, NoMemory>
    ensures { IfOk result (λ ops. ops.items ≡ diff (render before.now) (render after.now)) }
{
    let have = render(alloc, before)?;
    let want = render(alloc, after)?;
    diff_renderings(alloc, &have, &want)
}

// The operations between two metadata, of which only the znodes are rendered whose paths these keys span.
fn difference_at(
    alloc: Global,
    before: &Image,
    after: &Image,
    keys: &Touched,
) -> Result<Vec<Op>, NoMemory>
    requires { CoverDifference keys.now (render before.now) (render after.now) }
    ensures { IfOk result (λ ops. ops.items ≡ diff (render before.now) (render after.now)) }
{
    renderings_differ_at_paths(before, after);
    let mut old = ImageBodies::new(alloc, before);
    let mut new = ImageBodies::new(alloc, after);
    delta_ops(alloc, &mut old, &mut new, keys)
}

/// The operations that make the znodes of the metadata of a view those of the metadata at the log's end, each at any version. Only the
/// znodes are rendered that what was read touches; all are where the view knows of an open transaction. `NoMemory` is the only error.
pub fn delta(alloc: Global, before: &View, feed: &Feed, after: &View) -> Result<Vec<Op>, NoMemory>
    requires { WasRead before.now feed.now after.now }
    ensures { IfOk result (λ ops. ops.items ≡ diff (render before.now.image) (render after.now.image)) }
{
    match keys_between(alloc, before, feed, after)? {
        Some(keys) => difference_at(alloc, before.image(), after.image(), &keys),
        None => whole_difference(alloc, before.image(), after.image()),
    }
}
