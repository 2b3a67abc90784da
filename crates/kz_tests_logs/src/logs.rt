use kz_image::Image;
use kz_log::{
    Elected, Feed, LogFault, LogRows, LogWire, LogWireFault, MemoryLog, MetaLog, read_all,
};
use kz_types::{ConfigRecord, MetaRecord, Plan, Sequence, Text};
use std::alloc::Global;
use std::process::Abort;

// What a call gave, which must not have failed.
fn made<T: Drop, E: Drop>(rt: &impl Abort, outcome: Result<T, E>) -> T {
    match outcome {
        Ok(value) => value,
        Err(_) => panic!(rt; "a call failed"),
    }
}

fn text_of(rt: &impl Abort, alloc: Global, text: &str) -> Text {
    made(rt, Text::from_str(alloc, text))
}

fn config(rt: &impl Abort, alloc: Global) -> MetaRecord {
    MetaRecord::Config(ConfigRecord {
        resource_type: 4,
        resource_name: text_of(rt, alloc, "1"),
        name: text_of(rt, alloc, "a"),
        value: Some(text_of(rt, alloc, "v")),
    })
}

const BEGIN: MetaRecord = MetaRecord::BeginTransaction { name: None };

const ABORT: MetaRecord = MetaRecord::AbortTransaction { reason: None };

const FULL: LogFault = LogFault::Limit { number: 7 };

// ---- what is read of a log

// How many batches a feed has, and the first offset of the first.
fn batches_of(feed: &Feed) -> (usize, Option<i64>) {
    let batches = feed.batches.as_slice();
    match batches.get(0) {
        Some(batch) => (batches.len(), Some(batch.first)),
        None => (0, None),
    }
}

fn has_base(feed: &Feed, base: i64) -> bool {
    match &feed.base {
        Some((offset, _)) => *offset == base,
        None => false,
    }
}

// A log of epoch 1 with the offsets 0 to 6, in batches of 1, 3 and 3.
fn log_of_three(rt: &impl Abort, alloc: Global) -> MemoryLog {
    let mut log = MemoryLog::new(alloc);
    let three = [MetaRecord::NoOp, MetaRecord::NoOp, MetaRecord::NoOp];
    made(rt, log.elect(5, &[MetaRecord::NoOp]));
    made(rt, log.append(1, 6, &three));
    made(rt, log.append(1, 7, &three));
    log
}

// An offset, whether it is below the base, and the batches after it.
static READS: [(i64, bool, usize, Option<i64>); 7] = [
    (-2, true, 3, Some(0)),
    (-1, false, 3, Some(0)),
    (0, false, 2, Some(1)),
    (1, false, 1, Some(4)),
    (3, false, 1, Some(4)),
    (6, false, 0, None),
    (7, false, 0, None),
];

#[test]
fn batches_after_an_offset_are_read(rt: HostRuntime) {
    let mut log = log_of_three(&rt, rt.alloc());
    for (after, below, count, first) in &READS {
        let feed = made(&rt, log.read_from(*after));
        let (batches, begins) = batches_of(&feed);
        assert!(rt; has_base(&feed, -1) == *below);
        assert!(rt; batches == *count);
        assert!(rt; begins == *first);
        assert!(rt; feed.end == 6);
        drop(feed);
    }
    drop(log);
}

#[test]
fn a_log_is_read_whole(rt: HostRuntime) {
    let alloc = rt.alloc();
    let mut log = log_of_three(&rt, alloc);
    let rows = made(&rt, read_all(&mut log));
    assert!(rt; rows.epoch() == 1);
    assert!(rt; rows.base() == -1);
    let ends = made(&rt, rows.batch_ends(alloc));
    assert!(rt; ends.as_slice() == [-1, 0, 3, 6].as_slice());
    drop(rows);
    drop(log);
}

// ---- what a log takes

#[test]
fn a_new_log_is_empty(rt: HostRuntime) {
    let mut log = MemoryLog::new(rt.alloc());
    assert!(rt; log.epoch() == 0);
    assert!(rt; log.base() == -1);
    assert!(rt; log.end() == -1);
    let feed = made(&rt, log.read_from(-1));
    assert!(rt; feed.base.is_none());
    assert!(rt; feed.batches.len() == 0);
    assert!(rt; feed.end == -1);
    drop(feed);
    drop(log);
}

#[test]
fn another_epoch_is_refused(rt: HostRuntime) {
    let mut log = MemoryLog::new(rt.alloc());
    let one = [MetaRecord::NoOp];
    let stale = LogFault::Stale { epoch: 1 };
    assert!(rt; log.elect(5, &one) == Ok(Elected { epoch: 1, end: 0 }));
    assert!(rt; log.append(2, 0, &one) == Err(stale));
    assert!(rt; log.end() == 0);
    assert!(rt; log.append(1, 0, &[BEGIN, ABORT]) == Ok(2));
    assert!(rt; log.elect(5, &one) == Ok(Elected { epoch: 2, end: 3 }));
    assert!(rt; log.epoch() == 2);
    assert!(rt; log.append(1, 0, &one) == Err(LogFault::Stale { epoch: 2 }));
    drop(log);
}

#[test]
fn a_reset_leaves_the_epoch(rt: HostRuntime) {
    let mut log = log_of_three(&rt, rt.alloc());
    assert!(rt; log.reset() == Ok(()));
    assert!(rt; log.epoch() == 1);
    assert!(rt; log.base() == -1);
    assert!(rt; log.end() == -1);
    assert!(rt; log.append(1, 8, &[MetaRecord::NoOp]) == Ok(0));
    drop(log);
}

fn put<T: Drop>(rt: &impl Abort, items: &mut Sequence<T>, item: T) {
    made(rt, items.push(item));
}

// A log of one record less than there may be, in three batches.
fn long_log(rt: &impl Abort, alloc: Global) -> MemoryLog {
    let mut items = Sequence::new(alloc);
    for _ in 0..333_333 {
        put(rt, &mut items, MetaRecord::NoOp);
    }
    let items = items.as_slice();
    let mut log = MemoryLog::new(alloc);
    assert!(rt; !items.is_empty());
    made(rt, log.elect(5, items));
    made(rt, log.append(1, 6, items));
    made(rt, log.append(1, 7, items));
    log
}

#[test]
fn a_log_has_at_most_1000000_records(rt: HostRuntime) {
    let mut log = long_log(&rt, rt.alloc());
    let one = [MetaRecord::NoOp];
    let two = [MetaRecord::NoOp, MetaRecord::NoOp];
    assert!(rt; log.append(1, 8, &two) == Err(FULL));
    assert!(rt; log.elect(8, &two) == Err(FULL));
    assert!(rt; log.append(1, 8, &one) == Ok(999_999));
    assert!(rt; log.append(1, 8, &one) == Err(FULL));
    assert!(rt; log.elect(8, &one) == Err(FULL));
    assert!(rt; log.epoch() == 1);
    drop(log);
}

// ---- the metadata at an offset

fn add(rt: &impl Abort, alloc: Global, rows: &mut LogRows, items: &[MetaRecord]) {
    assert!(rt; !items.is_empty());
    assert!(rt; rows.epoch() <= 1);
    match rows.full(items.len()) {
        None => made(rt, rows.add(alloc, 1, 5, items)),
        Some(_) => panic!(rt; "the log is full"),
    }
}

// NoOp, Begin, Config, Abort, Begin, Config, End, at offsets 0 to 6, in batches of 1, 3 and 3.
fn settled(rt: &impl Abort, alloc: Global) -> LogRows {
    let mut rows = LogRows::new(alloc);
    add(rt, alloc, &mut rows, &[MetaRecord::NoOp]);
    let aborted = [BEGIN, config(rt, alloc), ABORT];
    add(rt, alloc, &mut rows, &aborted);
    let ended = [BEGIN, config(rt, alloc), MetaRecord::EndTransaction];
    add(rt, alloc, &mut rows, &ended);
    rows
}

// How many configurations the metadata has.
fn count(image: Image) -> usize {
    image.broker_configs().len()
}

#[test]
fn records_count_at_the_end_of_their_transaction(rt: HostRuntime) {
    let alloc = rt.alloc();
    let rows = settled(&rt, alloc);
    for (offset, configs) in [
        (-2, 0),
        (-1, 0),
        (0, 0),
        (1, 0),
        (2, 0),
        (3, 0),
        (4, 0),
        (5, 0),
        (6, 1),
        (7, 1),
    ] {
        assert!(rt; count(made(&rt, rows.image_at(alloc, offset))) == configs);
    }
    let ends = made(&rt, rows.batch_ends(alloc));
    assert!(rt; ends.as_slice() == [-1, 0, 3, 6].as_slice());
    drop(rows);
}

// A log of epoch 1 without a batch, whose base has one configuration.
fn rows_from(rt: &impl Abort, alloc: Global, base: i64) -> LogRows {
    let mut image = Image::new(alloc);
    made(rt, image.apply(1, &config(rt, alloc)));
    assert!(rt; 0 <= base);
    let feed = Feed {
        base: Some((base, image)),
        batches: Sequence::new(alloc),
        end: base,
    };
    LogRows::from_feed(1, feed)
}

#[test]
fn a_log_goes_on_from_its_base(rt: HostRuntime) {
    let alloc = rt.alloc();
    let mut rows = rows_from(&rt, alloc, 41);
    add(&rt, alloc, &mut rows, &[BEGIN, ABORT]);
    assert!(rt; rows.epoch() == 1);
    assert!(rt; rows.base() == 41);
    assert!(rt; rows.end() == 43);
    for offset in [40, 41, 43] {
        assert!(rt; count(made(&rt, rows.image_at(alloc, offset))) == 1);
    }
    let ends = made(&rt, rows.batch_ends(alloc));
    assert!(rt; ends.as_slice() == [41, 43].as_slice());
    for (after, below, count, first) in [
        (40, true, 1, Some(42)),
        (41, false, 1, Some(42)),
        (43, false, 0, None),
    ] {
        let feed = made(&rt, rows.read_from(alloc, after));
        let (batches, begins) = batches_of(&feed);
        assert!(rt; has_base(&feed, 41) == below);
        assert!(rt; batches == count);
        assert!(rt; begins == first);
        drop(feed);
    }
    drop(rows);
}

#[test]
fn offsets_end_at_9223372036854775807(rt: HostRuntime) {
    let alloc = rt.alloc();
    let mut rows = rows_from(&rt, alloc, i64::MAX - 2);
    assert!(rt; rows.full(2).is_none());
    assert!(rt; rows.full(3) == Some(17));
    assert!(rt; rows.full(1_000_001) == Some(7));
    add(&rt, alloc, &mut rows, &[BEGIN, ABORT]);
    assert!(rt; rows.end() == i64::MAX);
    assert!(rt; rows.full(1) == Some(17));
    drop(rows);
}

// ---- a connection

// A plan, the epoch of an append under it, what is answered, and the end of the log then.
static PLANS: [(Plan, i32, Result<i64, LogWireFault>, i64); 8] = [
    (Plan::Deliver, 1, Ok(1), 1),
    (Plan::LostBefore, 1, Err(LogWireFault::Lost), 1),
    (Plan::LostAfter, 1, Err(LogWireFault::Lost), 2),
    (Plan::LostAfter, 2, Err(LogWireFault::Lost), 2),
    (Plan::Expired, 1, Ok(3), 3),
    (
        Plan::Expired,
        2,
        Err(LogWireFault::Log(LogFault::Stale { epoch: 1 })),
        3,
    ),
    (
        Plan::Deliver,
        2,
        Err(LogWireFault::Log(LogFault::Stale { epoch: 1 })),
        3,
    ),
    (Plan::Deliver, 1, Ok(4), 4),
];

#[test]
fn requests_go_by_their_plan(rt: HostRuntime) {
    let mut wire = LogWire::new(MemoryLog::new(rt.alloc()));
    let one = [MetaRecord::NoOp];
    assert!(rt; wire.inner_mut().elect(5, &one).is_ok());
    for (plan, epoch, answer, end) in &PLANS {
        wire.plan(*plan);
        assert!(rt; *epoch >= 1);
        assert!(rt; wire.append(*epoch, 6, &one) == *answer);
        assert!(rt; wire.inner().end() == *end);
    }
    // a plan serves one request alone
    for (plan, lost) in [
        (Plan::LostBefore, true),
        (Plan::LostAfter, true),
        (Plan::Expired, false),
    ] {
        wire.plan(plan);
        assert!(rt; wire.read_from(0).is_err() == lost);
        assert!(rt; wire.read_from(0).is_ok());
    }
    let log = wire.into_inner();
    assert!(rt; log.end() == 4);
    drop(log);
}

// ---- a log that is full

#[test]
fn a_full_log_answers_though_its_answer_is_lost(rt: HostRuntime) {
    let mut wire = LogWire::new(long_log(&rt, rt.alloc()));
    let two = [MetaRecord::NoOp, MetaRecord::NoOp];
    wire.plan(Plan::LostAfter);
    assert!(rt; wire.append(1, 8, &two) == Err(LogWireFault::Log(FULL)));
    drop(wire);
}
