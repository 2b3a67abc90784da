//! The counts of a rendering after a change, and limits by them.
ghost use Rattle.std.specs.Prelude.{◌≡◌, pos, IfSome};
ghost use Rattle.kz_spec_data.specs.Image.{all_applied};
ghost use Rattle.kz_spec_data.specs.Rendering.{render};
ghost use Rattle.kz_counted_view.specs.Counting.{counts_of};

use crate::changes::{another_leader, changed, image, made, member, removal};
use kz_counted_view::{Counts, counts_after, counts_of, passed_limit};
use kz_image::Image;
use kz_render::render;
use kz_types::{MAX_BODIES_BYTES, MAX_ZNODES, MetaRecord};
use kz_view_delta::keys_of_applied;
use std::alloc::Global;
use std::process::Abort;

// The counts of the whole rendering.
fn whole(rt: &impl Abort, alloc: Global, image: &Image) -> Option<Counts>
    ensures { IfSome result (λ counts. counts ≡ counts_of (render image.now)) }
{
    let znodes = made(rt, render(alloc, image));
    counts_of(&znodes)
}

// Whether the counts after records are those of the whole rendering.
fn are_kept(
    rt: &impl Abort,
    alloc: Global,
    old: &Image,
    records: &[MetaRecord],
    new: &Image,
) -> bool
    requires { new.now ≡ all_applied (pos 5) records.now old.now }
{
    let keys = made(rt, keys_of_applied(alloc, old, records, new));
    let Some(counts) = whole(rt, alloc, old) else {
        return false;
    };
    let after = made(rt, counts_after(alloc, counts, old, new, &keys));
    after.is_some() && after == whole(rt, alloc, new)
}

#[test]
fn counts_of_changes_are_those_of_the_rendering(rt: HostRuntime) {
    let alloc = rt.alloc();
    let old = image(&rt, alloc);
    let records = [another_leader(), member(&rt, alloc, "1")];
    let new = changed(&rt, alloc, &old, &records);
    assert!(rt; are_kept(&rt, alloc, &old, &records, &new));
    let records = [removal()];
    let gone = changed(&rt, alloc, &new, &records);
    assert!(rt; are_kept(&rt, alloc, &new, &records, &gone));
}

static LIMITS: [(Counts, Option<u8>); 7] = [
    (
        Counts {
            long: 0,
            znodes: MAX_ZNODES,
            bytes: MAX_BODIES_BYTES,
        },
        None,
    ),
    (
        Counts {
            long: 1,
            znodes: MAX_ZNODES,
            bytes: 0,
        },
        Some(2),
    ),
    (
        Counts {
            long: 1,
            znodes: MAX_ZNODES + 1,
            bytes: MAX_BODIES_BYTES + 1,
        },
        Some(2),
    ),
    (
        Counts {
            long: 0,
            znodes: MAX_ZNODES + 1,
            bytes: 0,
        },
        Some(3),
    ),
    (
        Counts {
            long: 0,
            znodes: MAX_ZNODES + 1,
            bytes: MAX_BODIES_BYTES + 1,
        },
        Some(3),
    ),
    (
        Counts {
            long: 0,
            znodes: 1,
            bytes: MAX_BODIES_BYTES + 1,
        },
        Some(6),
    ),
    (
        Counts {
            long: 0,
            znodes: 0,
            bytes: 0,
        },
        None,
    ),
];

#[test]
fn the_first_limit_is_told(rt: HostRuntime) {
    for (counts, limit) in LIMITS.iter() {
        assert!(rt; passed_limit(*counts) == *limit);
    }
}
