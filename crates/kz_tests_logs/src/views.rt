//! Tests of views over feeds.
ghost use Rattle.std.specs.Prelude.{◌≡◌, ◌<◌, length};
ghost use Rattle.kz_spec_data.specs.Log.{IsViewOf, new_view};
ghost use Rattle.kz_log.specs.Views.{Fits};

use kz_image::Image;
use kz_log::{Feed, MemoryLog, MetaLog, View, read_to_end, views_stay};
use kz_types::{ConfigRecord, MetaRecord, Sequence, Text};
use std::alloc::Global;
use std::process::Abort;

// What a call gave, which must not have failed.
fn made<T: Drop, E: Drop>(rt: &impl Abort, outcome: Result<T, E>) -> T {
    match outcome {
        Ok(value) => value,
        Err(_) => panic!(rt; "a call failed"),
    }
}

fn text_of(rt: &impl Abort, alloc: Global, text: &str) -> Text {
    made(rt, Text::from_str(alloc, text))
}

fn config(rt: &impl Abort, alloc: Global) -> MetaRecord {
    MetaRecord::Config(ConfigRecord {
        resource_type: 4,
        resource_name: text_of(rt, alloc, "1"),
        name: text_of(rt, alloc, "a"),
        value: Some(text_of(rt, alloc, "v")),
    })
}

const BEGIN: MetaRecord = MetaRecord::BeginTransaction { name: None };

// Brings a view to the end of the log, which it then has with this many configurations.
fn reads<L: MetaLog>(rt: &impl Abort, view: &mut View, log: &mut L, end: i64, configs: usize)
    requires { IsViewOf (L.log log.old) view.old }
    ensures log { L.log log.new ≡ L.log log.old }
    ensures view { IsViewOf (L.log log.new) view.new }
{
    made(rt, read_to_end(view, log));
    assert!(rt; view.position() == end);
    assert!(rt; view.epoch() == 1);
    assert!(rt; view.image().broker_configs().len() == configs);
}

// Appends a batch, after which the view is one of the log.
fn append<L: MetaLog>(rt: &impl Abort, view: &View, log: &mut L, items: &[MetaRecord])
    requires some { 0 < length items.now }
    requires view { IsViewOf (L.log log.old) view.now }
    ensures { IsViewOf (L.log log.new) view.now }
{
    views_stay();
    match log.append(1, 6, items) {
        Ok(_) => {}
        Err(_) => panic!(rt; "a call failed"),
    }
}

#[test]
fn a_view_is_brought_to_the_end_by_one_feed(rt: HostRuntime) {
    let alloc = rt.alloc();
    let mut log = MemoryLog::new(alloc);
    made(&rt, log.elect(5, &[MetaRecord::NoOp]));
    let ended = [BEGIN, config(&rt, alloc), MetaRecord::EndTransaction];
    made(&rt, log.append(1, 6, &ended));
    views_stay();
    let mut view = View::new(alloc);
    reads(&rt, &mut view, &mut log, 3, 1);
    assert!(rt; view.begun().is_none());
    drop(view);
    drop(log);
}

#[test]
fn a_transaction_is_open_between_two_feeds(rt: HostRuntime) {
    let alloc = rt.alloc();
    let mut log = MemoryLog::new(alloc);
    made(&rt, log.elect(5, &[MetaRecord::NoOp]));
    let begun = [BEGIN, config(&rt, alloc)];
    made(&rt, log.append(1, 6, &begun));
    views_stay();
    let mut view = View::new(alloc);
    reads(&rt, &mut view, &mut log, 2, 0);
    assert!(rt; view.begun() == Some(1));
    append(&rt, &view, &mut log, &[MetaRecord::EndTransaction]);
    reads(&rt, &mut view, &mut log, 3, 1);
    assert!(rt; view.begun().is_none());
    drop(view);
    drop(log);
}

#[test]
fn a_feed_with_a_base_begins_anew(rt: HostRuntime) {
    let alloc = rt.alloc();
    let mut image = Image::new(alloc);
    made(&rt, image.apply(1, &config(&rt, alloc)));
    let feed = Feed {
        base: Some((41, image)),
        batches: Sequence::new(alloc),
        end: 41,
    };
    let mut view = View::new(alloc);
    made(&rt, view.advance(feed));
    assert!(rt; view.position() == 41);
    assert!(rt; view.epoch() == 0);
    assert!(rt; view.image().broker_configs().len() == 1);
    assert!(rt; view.begun().is_none());
    drop(view);
}

// What a log has after nothing, which a view that knows nothing can take.
fn all_of<L: MetaLog>(rt: &impl Abort, log: &mut L) -> Feed
    ensures fits { Fits new_view result }
    ensures log { L.log log.new ≡ L.log log.old }
{
    views_stay();
    match log.read_from(-1) {
        Ok(feed) => feed,
        Err(_) => panic!(rt; "a call failed"),
    }
}

#[test]
fn a_view_shares_the_metadata_of_another_at_the_end(rt: HostRuntime) {
    let alloc = rt.alloc();
    let mut log = MemoryLog::new(alloc);
    made(&rt, log.elect(5, &[MetaRecord::NoOp]));
    made(&rt, log.append(1, 6, &[config(&rt, alloc)]));
    views_stay();
    let mut latest = View::new(alloc);
    reads(&rt, &mut latest, &mut log, 1, 1);
    let view = View::new(alloc);
    let feed = all_of(&rt, &mut log);
    assert!(rt; !view.is_at_end_of(&feed));
    assert!(rt; latest.position() == feed.end);
    let beside = made(&rt, view.beside(&feed, &latest));
    assert!(rt; beside.position() == 1);
    assert!(rt; beside.epoch() == 1);
    assert!(rt; beside.image().broker_configs().len() == 1);
    assert!(rt; view.position() == -1);
    drop(beside);
    drop(feed);
    drop(view);
    drop(latest);
    drop(log);
}

// Brings a view to the end of what was read, beside another.
fn advance_beside(rt: &impl Abort, view: &mut View, feed: Feed, other: &View)
    requires { Fits view.old feed }
{
    made(rt, view.advance_beside(feed, other));
    assert!(rt; view.position() == 1);
    assert!(rt; view.epoch() == 1);
    assert!(rt; view.image().broker_configs().len() == 1);
}

#[test]
fn a_view_advances_beside_another_at_the_end_or_before_it(rt: HostRuntime) {
    let alloc = rt.alloc();
    let mut log = MemoryLog::new(alloc);
    made(&rt, log.elect(5, &[MetaRecord::NoOp]));
    made(&rt, log.append(1, 6, &[config(&rt, alloc)]));
    views_stay();
    let mut first = View::new(alloc);
    let nothing = View::new(alloc);
    let feed = all_of(&rt, &mut log);
    advance_beside(&rt, &mut first, feed, &nothing);
    let mut second = View::new(alloc);
    let feed = all_of(&rt, &mut log);
    advance_beside(&rt, &mut second, feed, &first);
    drop(nothing);
    drop(first);
    drop(second);
    drop(log);
}

#[test]
fn what_was_appended_is_put_into_a_view(rt: HostRuntime) {
    let alloc = rt.alloc();
    let mut image = Image::new(alloc);
    made(&rt, image.apply(1, &config(&rt, alloc)));
    let mut view = View::new(alloc);
    view.put_appended(7, 2, image);
    assert!(rt; view.position() == 7);
    assert!(rt; view.epoch() == 2);
    assert!(rt; view.image().broker_configs().len() == 1);
    drop(view);
}
