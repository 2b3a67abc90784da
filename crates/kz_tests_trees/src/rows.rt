//! Each public call with ample memory.
use kz_row_parts::{PartedRows, is_before};
use kz_tree_rows::{Rows, has_children, is_migrated, name_of, parent_of, reads};
use kz_types::{Duplicate, Row, Sequence, ZPath};
use std::alloc::Global;
use std::process::Abort;

// What a call gave, which must not have failed.
fn made<T: Drop, E: Drop>(rt: &impl Abort, outcome: Result<T, E>) -> T {
    match outcome {
        Ok(value) => value,
        Err(_) => panic!(rt; "a call failed"),
    }
}

fn path_of(rt: &impl Abort, alloc: Global, path: &str) -> ZPath {
    made(rt, ZPath::new(alloc, path.as_bytes()))
}

fn row_of(rt: &impl Abort, alloc: Global, path: &str, zxid: i64) -> Row {
    Row {
        path: path_of(rt, alloc, path),
        body: Sequence::new(alloc),
        version: 0,
        owner: None,
        czxid: zxid,
        mzxid: zxid,
        pzxid: zxid,
    }
}

static PATHS: [&str; 8] = [
    "/config/brokers-2",
    "/config/brokers",
    "/config",
    "/brokers/topics/t",
    "/brokers/topics",
    "/brokers/ids/2",
    "/brokers/ids",
    "/brokers",
];

// The znodes of these paths, put in falling order.
fn filled(rt: &impl Abort, alloc: Global) -> Rows {
    let mut rows = Rows::new(alloc);
    for path in PATHS {
        made(rt, rows.put(row_of(rt, alloc, path, 1)));
    }
    rows
}

fn is_at(row: Option<&Row>, path: &str) -> bool {
    match row {
        Some(row) => row.path.as_str() == path,
        None => path.is_empty(),
    }
}

#[test]
fn znodes_are_put_and_found(rt: HostRuntime) {
    let alloc = rt.alloc();
    let rows = filled(&rt, alloc);
    assert!(rt; rows.count() == 8);
    assert!(rt; rows.migrated_count() == 3);
    assert!(rt; rows.count_beside(b"/config/topics") == 3);
    assert!(rt; rows.count_beside(b"/config") == 5);
    assert!(rt; is_at(rows.find(b"/config"), "/config"));
    assert!(rt; rows.find(b"/controller").is_none());
    let mut items = rows.items();
    assert!(rt; is_at(items.next(), "/brokers"));
    let after = path_of(&rt, alloc, "/brokers/ids/2");
    assert!(rt; is_at(rows.next_after(Some(&after)), "/brokers/topics"));
    let mut items = rows.items_after(Some(&after));
    assert!(rt; is_at(items.next(), "/brokers/topics"));
    let mut items = rows.items_after_bytes(b"/config/");
    assert!(rt; is_at(items.next(), "/config/brokers"));
    drop(rows);
}

// A copy stays as it was.
#[test]
fn znodes_are_changed_and_taken_out(rt: HostRuntime) {
    let alloc = rt.alloc();
    let mut rows = filled(&rt, alloc);
    let copy = made(&rt, rows.copy(alloc));
    made(&rt, rows.take_out(b"/brokers/topics/t"));
    made(&rt, rows.take_out(b"/brokers/topics/u"));
    made(&rt, rows.touch(alloc, b"/brokers/topics", 7));
    made(&rt, rows.put(row_of(&rt, alloc, "/config", 8)));
    assert!(rt; rows.count() == 7);
    assert!(rt; rows.migrated_count() == 2);
    assert!(rt; rows.find(b"/brokers/topics").map(|row| row.pzxid) == Some(7));
    assert!(rt; rows.find(b"/config").map(|row| row.czxid) == Some(8));
    assert!(rt; copy.count() == 8);
    assert!(rt; copy.find(b"/config").map(|row| row.czxid) == Some(1));
    drop(copy);
    drop(rows);
}

fn owned(rt: &impl Abort, alloc: Global, path: &str, owner: Option<i64>) -> Row {
    let mut row = row_of(rt, alloc, path, 9);
    row.owner = owner;
    row
}

// Whether the ephemeral znodes are those of these paths.
fn are_ephemeral(rows: &Rows, paths: &[&str]) -> bool {
    let mut items = rows.ephemeral();
    for path in paths {
        if !is_at(items.next(), path) {
            return false;
        }
    }
    items.next().is_none()
}

// A znode with an owner is ephemeral until it is taken out, or one without an owner is put in its place.
#[test]
fn ephemeral_znodes_are_listed(rt: HostRuntime) {
    let alloc = rt.alloc();
    let mut rows = filled(&rt, alloc);
    assert!(rt; are_ephemeral(&rows, &[]));
    made(&rt, rows.put(owned(&rt, alloc, "/controller", Some(1))));
    made(&rt, rows.put(owned(&rt, alloc, "/brokers/ids/2", Some(2))));
    let last = owned(&rt, alloc, "/z", Some(1));
    assert!(rt; rows.are_before(last.path.bytes()));
    made(&rt, rows.append(last));
    assert!(rt; are_ephemeral(&rows, &["/brokers/ids/2", "/controller", "/z"]));
    let copy = made(&rt, rows.copy(alloc));
    made(&rt, rows.touch(alloc, b"/controller", 10));
    made(&rt, rows.take_out(b"/z"));
    made(&rt, rows.put(owned(&rt, alloc, "/brokers/ids/2", None)));
    assert!(rt; are_ephemeral(&rows, &["/controller"]));
    assert!(rt; rows.ephemeral().next().map(|row| row.pzxid) == Some(10));
    assert!(rt; are_ephemeral(&copy, &["/brokers/ids/2", "/controller", "/z"]));
    drop(copy);
    drop(rows);
}

// A list alone, without the counts of a tree.
#[test]
fn znodes_in_parts_are_put_and_found(rt: HostRuntime) {
    let alloc = rt.alloc();
    let mut rows = PartedRows::new(alloc);
    assert!(rt; rows.count() == 0 && rows.last().is_none() && rows.first_later(0).is_none());
    made(&rt, rows.put(row_of(&rt, alloc, "/config/brokers", 4)));
    made(&rt, rows.put(row_of(&rt, alloc, "/brokers", 5)));
    assert!(rt; is_before(b"/config", b"/config/topics") && !is_before(b"/config", b"/config"));
    assert!(rt; !rows.are_before(b"/config"));
    let last = row_of(&rt, alloc, "/config/topics", 6);
    assert!(rt; rows.are_before(last.path.bytes()));
    made(&rt, rows.append(last));
    assert!(rt; rows.count() == 3);
    assert!(rt; is_at(rows.last(), "/config/topics"));
    assert!(rt; is_at(rows.find(b"/brokers"), "/brokers"));
    assert!(rt; is_at(rows.find_near_end(b"/brokers"), "/brokers"));
    assert!(rt; is_at(rows.items().next(), "/brokers"));
    assert!(rt; is_at(rows.items_after(b"/brokers").next(), "/config/brokers"));
    assert!(rt; is_at(rows.first_later(4), "/config/topics"));
    let copy = made(&rt, rows.copy(alloc));
    made(&rt, rows.take_out(b"/config/topics"));
    assert!(rt; rows.first_later(4).is_none());
    assert!(rt; rows.count() == 2 && copy.count() == 3);
    drop(copy);
    drop(rows);
}

// A path that only begins alike is no child, although it stands before the children.
#[test]
fn children_are_below_their_parents(rt: HostRuntime) {
    let alloc = rt.alloc();
    let rows = filled(&rt, alloc);
    assert!(rt; made(&rt, has_children(alloc, b"/config", &rows)));
    assert!(rt; !made(&rt, has_children(alloc, b"/config/brokers", &rows)));
    assert!(rt; parent_of(b"/config/brokers") == b"/config".as_slice());
    assert!(rt; parent_of(b"/config").is_empty());
    assert!(rt; name_of(b"/config/brokers") == b"brokers".as_slice());
    assert!(rt; is_migrated(b"/config/brokers") && !is_migrated(b"/config/brokers-2"));
    drop(rows);
}

#[test]
fn znodes_are_read(rt: HostRuntime) {
    let alloc = rt.alloc();
    let rows = filled(&rt, alloc);
    let page = made(&rt, reads::scan(alloc, &rows, None, 2));
    assert!(rt; page.len() == 2 && is_at(page.first(), "/brokers/topics"));
    let mut paths = Sequence::new(alloc);
    made(&rt, paths.push(path_of(&rt, alloc, "/controller")));
    let found = made(&rt, reads::look(alloc, &rows, paths.as_slice()));
    assert!(rt; found.len() == 1);
    assert!(rt; made(&rt, reads::broker_ids(alloc, &rows)).as_slice() == [2].as_slice());
    let migrated = made(&rt, reads::migrated_rows(alloc, &rows));
    assert!(rt; migrated.len() == 3);
    let area = made(&rt, reads::area(alloc, &rows));
    assert!(rt; area.len() == 3);
    assert!(rt; made(&rt, reads::recorded(alloc, &rows)).is_none());
    let unclosed = made(&rt, reads::unclosed(alloc, &rows));
    assert!(rt; unclosed.map(|path| path.as_str() == "/migration") == Some(true));
    drop(page);
    drop(found);
    drop(migrated);
    drop(area);
    drop(rows);
}

// How many znodes of the next test stand below `/brokers/topics`: those of three parts or more.
const TOPICS: i64 = 10_007;

// Each number that this one divides is compared with a look at all znodes.
const STRIDE: i64 = 101;

// The path of a znode below `/brokers/topics`. Paths rise as their numbers do.
fn topic_path(rt: &impl Abort, alloc: Global, number: i64) -> String {
    made(rt, format!(in alloc; "/brokers/topics/{number:05}"))
}

// Puts the znode of a number, as it was written by a transaction.
fn put_topic(rt: &impl Abort, alloc: Global, rows: &mut Rows, number: i64, zxid: i64) {
    let path = topic_path(rt, alloc, number);
    made(rt, rows.put(row_of(rt, alloc, path.as_str(), zxid)));
}

// The first migrated znode that was written after a transaction, by a look at each.
fn first_by_scan(rows: &Rows, zxid: i64) -> Option<&Row> {
    for row in rows.items() {
        if is_migrated(row.path.bytes()) && (row.mzxid > zxid || row.pzxid > zxid) {
            return Some(row);
        }
    }
    None
}

// The first znode after a transaction is that of a scan.
fn finds_first(rows: &Rows, zxid: i64) -> bool {
    match first_by_scan(rows, zxid) {
        Some(row) => is_at(rows.first_later(zxid), row.path.as_str()),
        None => rows.first_later(zxid).is_none(),
    }
}

// Puts the znodes below `/brokers/topics` one by one.
fn put_topics(rt: &impl Abort, alloc: Global, rows: &mut Rows) {
    for number in 0..TOPICS {
        put_topic(rt, alloc, rows, number, number.wrapping_mul(5) % TOPICS);
        if number % STRIDE == 0 {
            assert!(rt; finds_first(rows, number));
        }
    }
}

// Takes them out from the last on.
fn take_topics_out(rt: &impl Abort, alloc: Global, rows: &mut Rows) {
    for number in (0..TOPICS).rev() {
        let path = topic_path(rt, alloc, number);
        made(rt, rows.take_out(path.as_bytes()));
        if number % STRIDE == 0 {
            assert!(rt; finds_first(rows, number));
        }
    }
}

// Blocks and parts come and go, and the numbers of each are those of its znodes.
#[test]
fn the_first_later_znode_is_found(rt: HostRuntime) {
    let alloc = rt.alloc();
    let mut rows = Rows::new(alloc);
    made(&rt, rows.put(row_of(&rt, alloc, "/brokers/topics", 1)));
    put_topics(&rt, alloc, &mut rows);
    assert!(rt; rows.count() == 10_008 && rows.migrated_count() == 10_008);
    let copy = made(&rt, rows.copy(alloc));
    take_topics_out(&rt, alloc, &mut rows);
    assert!(rt; rows.count() == 1);
    assert!(rt; rows.first_later(0).is_some() && rows.first_later(1).is_none());
    assert!(rt; copy.count() == 10_008 && finds_first(&copy, 10_005));
    drop(copy);
    drop(rows);
}

// A znode that is put in the place of one that was written later.
#[test]
fn an_older_znode_takes_the_place_of_a_later(rt: HostRuntime) {
    let alloc = rt.alloc();
    let mut rows = Rows::new(alloc);
    put_topic(&rt, alloc, &mut rows, 3, 2000);
    put_topic(&rt, alloc, &mut rows, 4, 5);
    assert!(rt; finds_first(&rows, 1500) && rows.first_later(1500).is_some());
    put_topic(&rt, alloc, &mut rows, 3, 2);
    assert!(rt; rows.first_later(1500).is_none());
    assert!(rt; finds_first(&rows, 3) && rows.first_later(3).is_some());
    drop(rows);
}
