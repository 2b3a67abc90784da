//! What is read after a view, and the limits of a change after it.
ghost use Rattle.std.specs.Prelude.{◌≡◌};
ghost use Rattle.kz_spec_data.specs.Log.{IsViewOf};

use crate::changes::{long_member, made, member, no_member};
use kz_counted_view::{CountedView, read_to_end};
use kz_log::{LogWire, MemoryLog, MetaLog, View};
use kz_render::render;
use kz_requests::append;
use kz_types::{MetaRecord, Op};
use kz_view_delta::{delta, read_to_end as read_on};
use kz_writer::diff_renderings;
use std::alloc::Global;
use std::process::Abort;

// A log of one batch, of epoch 1, and a view that knows nothing of it.
fn started(rt: &impl Abort, alloc: Global) -> (LogWire<MemoryLog>, View)
    ensures { IsViewOf (⟦<MemoryLog as MetaLog>⟧.log result.0.inner) result.1 }
{
    let mut log = MemoryLog::new(alloc);
    let _elected = made(rt, log.elect(0, &[MetaRecord::NoOp]));
    (LogWire::new(log), View::new(alloc))
}

// The same, with a view that counts.
fn started_to_count(rt: &impl Abort, alloc: Global) -> (LogWire<MemoryLog>, CountedView)
    ensures { IsViewOf (⟦<MemoryLog as MetaLog>⟧.log result.0.inner) result.1 }
{
    let mut log = MemoryLog::new(alloc);
    let _elected = made(rt, log.elect(0, &[MetaRecord::NoOp]));
    (LogWire::new(log), CountedView::new(alloc))
}

// Brings the view to the log's end.
fn read_on_and_count(rt: &impl Abort, view: &mut CountedView, log: &mut LogWire<MemoryLog>)
    requires { IsViewOf (⟦<MemoryLog as MetaLog>⟧.log log.old.inner) view.old }
    ensures { IsViewOf (⟦<MemoryLog as MetaLog>⟧.log log.new.inner) view.new }
{
    made(rt, read_to_end(view, log.inner_mut()));
}

// The limit that the metadata passes after these records, if any.
fn limit_after(rt: &impl Abort, view: &mut CountedView, records: &[MetaRecord]) -> Option<u8>
    ensures { view.new ≡ view.old }
{
    let after = made(rt, view.after(1, records));
    made(rt, after.limit())
}

#[test]
fn a_change_within_the_limits(rt: HostRuntime) {
    let alloc = rt.alloc();
    let (mut log, mut view) = started_to_count(&rt, alloc);
    read_on_and_count(&rt, &mut view, &mut log);
    let records = [member(&rt, alloc, "1")];
    assert!(rt; limit_after(&rt, &mut view, &records).is_none());
    let _end = made(&rt, append(&mut log, 1, 0, &records));
    read_on_and_count(&rt, &mut view, &mut log);
    assert!(rt; view.view().position() == 1 && view.image().state() == 0);
    assert!(rt; limit_after(&rt, &mut view, &records).is_none());
}

// The view that reads all of a log.
fn read_anew(rt: &impl Abort, alloc: Global, log: &mut LogWire<MemoryLog>) -> CountedView {
    let mut view = CountedView::new(alloc);
    made(rt, read_to_end(&mut view, log.inner_mut()));
    view
}

// Whether two views are of one position and epoch, and their metadata is rendered alike.
fn are_alike(rt: &impl Abort, alloc: Global, some: &CountedView, other: &CountedView) -> bool {
    let had = made(rt, render(alloc, some.image()));
    let has = made(rt, render(alloc, other.image()));
    made(rt, diff_renderings(alloc, &had, &has)).is_empty()
        && some.view().position() == other.view().position()
        && some.view().epoch() == other.view().epoch()
}

// Appends a record, which the view takes without reading it. The limit that the metadata passes then, if any.
fn append_and_put(
    rt: &impl Abort,
    log: &mut LogWire<MemoryLog>,
    view: &mut CountedView,
    record: MetaRecord,
) -> Option<u8> {
    let records = [record];
    let after = made(rt, view.after(1, &records));
    let limit = made(rt, after.limit());
    let end = made(rt, made(rt, append(log, 1, 0, &records)));
    view.put_appended(end, 1, after);
    limit
}

#[test]
fn what_was_appended_is_put_in_place_as_it_is_read(rt: HostRuntime) {
    let alloc = rt.alloc();
    let (mut log, mut view) = started_to_count(&rt, alloc);
    read_on_and_count(&rt, &mut view, &mut log);
    let change = long_member(&rt, alloc, "1");
    assert!(rt; append_and_put(&rt, &mut log, &mut view, change) == Some(2));
    assert!(rt; are_alike(&rt, alloc, &view, &read_anew(&rt, alloc, &mut log)));
    let change = member(&rt, alloc, "2");
    assert!(rt; append_and_put(&rt, &mut log, &mut view, change) == Some(2));
    assert!(rt; are_alike(&rt, alloc, &view, &read_anew(&rt, alloc, &mut log)));
    let change = no_member(&rt, alloc, "1");
    assert!(rt; append_and_put(&rt, &mut log, &mut view, change).is_none());
    assert!(rt; are_alike(&rt, alloc, &view, &read_anew(&rt, alloc, &mut log)));
    assert!(rt; view.view().position() == 3);
}

// The path that an operation creates, or none.
fn created(op: &Op) -> &str {
    match op {
        Op::Create { path, .. } => path.as_str(),
        _ => "",
    }
}

#[test]
fn what_is_read_is_to_be_written(rt: HostRuntime) {
    let alloc = rt.alloc();
    let (mut log, before) = started(&rt, alloc);
    let (first, _) = made(&rt, read_on(alloc, &before, &mut log, &before));
    let _end = made(&rt, append(&mut log, 1, 0, &[member(&rt, alloc, "1")]));
    let (second, feed) = made(&rt, read_on(alloc, &first, &mut log, &first));
    let ops = made(&rt, delta(alloc, &first, &feed, &second));
    assert!(rt; ops.len() == 1 && created(&ops[0]) == "/config/brokers/1");
}
