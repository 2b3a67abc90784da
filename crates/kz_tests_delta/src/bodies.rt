//! The operations of a change, and how many bodies are asked for.
ghost use Rattle.std.specs.Prelude.{◌≡◌, pos};
ghost use Rattle.kz_spec_data.specs.Image.{all_applied};

use crate::changes::{another_leader, changed, image, made, member, member_of_topic, removal};
use kz_image::Image;
use kz_render::render;
use kz_types::{MetaRecord, Op};
use kz_view_delta::keys_of_applied;
use kz_writer::{ImageBodies, delta_ops, diff_renderings, renderings_differ_at_paths};
use std::alloc::Global;
use std::process::Abort;

// The operations of records, and how many bodies of the metadata before and after were asked for.
fn delta(
    rt: &impl Abort,
    alloc: Global,
    old: &Image,
    records: &[MetaRecord],
    new: &Image,
) -> (Vec<Op>, u64, u64)
    requires { new.now ≡ all_applied (pos 5) records.now old.now }
{
    let keys = made(rt, keys_of_applied(alloc, old, records, new));
    renderings_differ_at_paths(old, new);
    let mut before = ImageBodies::new(alloc, old);
    let mut after = ImageBodies::new(alloc, new);
    let ops = made(rt, delta_ops(alloc, &mut before, &mut after, &keys));
    (ops, before.count(), after.count())
}

// The operations between the two whole renderings.
fn whole(rt: &impl Abort, alloc: Global, old: &Image, new: &Image) -> Vec<Op> {
    let had = made(rt, render(alloc, old));
    let has = made(rt, render(alloc, new));
    made(rt, diff_renderings(alloc, &had, &has))
}

// Whether the only operation sets the znode of this path, and the other list has the same one.
fn is_only_set(ops: &[Op], whole: &[Op], text: &str) -> bool {
    match (ops, whole) {
        (
            [Op::Set { path, body, .. }],
            [
                Op::Set {
                    path: same,
                    body: equal,
                    ..
                },
            ],
        ) => { path.as_str() == text && path == same && body.as_slice() == equal.as_slice() }
        _ => false,
    }
}

#[test]
fn a_partition_that_changes_asks_for_four_bodies(rt: HostRuntime) {
    let alloc = rt.alloc();
    let old = image(&rt, alloc);
    let records = [another_leader()];
    let new = changed(&rt, alloc, &old, &records);
    let (ops, before, after) = delta(&rt, alloc, &old, &records, &new);
    assert!(rt; before == 4 && after == 4);
    let whole = whole(&rt, alloc, &old, &new);
    assert!(rt; is_only_set(&ops, &whole, "/brokers/topics/t/partitions/0/state"));
}

// The path that an operation deletes, or none.
fn deleted(op: &Op) -> &str {
    match op {
        Op::Delete { path, .. } => path.as_str(),
        _ => "",
    }
}

static DELETED: [&str; 5] = [
    "/config/topics/t",
    "/brokers/topics/t/partitions/0/state",
    "/brokers/topics/t/partitions/0",
    "/brokers/topics/t/partitions",
    "/brokers/topics/t",
];

#[test]
fn a_topic_that_is_removed_is_deleted_by_falling_path(rt: HostRuntime) {
    let alloc = rt.alloc();
    let old = image(&rt, alloc);
    let with_member = changed(&rt, alloc, &old, &[member_of_topic(&rt, alloc)]);
    let records = [removal()];
    let new = changed(&rt, alloc, &with_member, &records);
    let (ops, _, _) = delta(&rt, alloc, &with_member, &records, &new);
    assert!(rt; ops.len() == DELETED.len());
    for (op, path) in ops.iter().zip(DELETED.iter()) {
        assert!(rt; deleted(op) == *path);
    }
}

#[test]
fn members_of_three_brokers_ask_for_three_bodies(rt: HostRuntime) {
    let alloc = rt.alloc();
    let old = image(&rt, alloc);
    let records = [
        member(&rt, alloc, "1"),
        member(&rt, alloc, "2"),
        member(&rt, alloc, "3"),
    ];
    let new = changed(&rt, alloc, &old, &records);
    let (ops, before, after) = delta(&rt, alloc, &old, &records, &new);
    assert!(rt; before == 3 && after == 3 && ops.len() == 3);
}
