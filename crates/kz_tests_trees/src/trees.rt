use kz_tree::{ClosedFault, LoadCheck, Op, Row, Tree, TreeFault, is_migrated};
use kz_types::{Sequence, ZPath};
use std::alloc::Global;
use std::process::Abort;

// What a call gave, which must not have failed.
fn made<T: Drop, E: Drop>(rt: &impl Abort, outcome: Result<T, E>) -> T {
    match outcome {
        Ok(value) => value,
        Err(_) => panic!(rt; "a call failed"),
    }
}

fn put<T: Drop>(rt: &impl Abort, items: &mut Sequence<T>, item: T) {
    made(rt, items.push(item));
}

fn path_of(rt: &impl Abort, alloc: Global, text: &str) -> ZPath {
    made(rt, ZPath::new(alloc, text.as_bytes()))
}

fn body_of(rt: &impl Abort, alloc: Global, body: &[u8]) -> Sequence<u8> {
    Sequence::from_vec(made(rt, body.to_vec(alloc)))
}

// A body of a byte more than there may be.
fn long_body(rt: &impl Abort, alloc: Global) -> Sequence<u8> {
    Sequence::from_vec(made(rt, vec![in alloc; b'x'; 1_048_576]))
}

// An operation of a table: creates have an owner, or 0 for none; the others have a version.
#[derive(Clone, Copy)]
enum Ask {
    Create(&'static str, i64),
    Long(&'static str),
    Set(&'static str, i32),
    SetLong(&'static str, i32),
    Delete(&'static str, i32),
    Check(&'static str, i32),
}

fn create(rt: &impl Abort, alloc: Global, path: &str, body: Sequence<u8>, owner: i64) -> Op {
    Op::Create {
        path: path_of(rt, alloc, path),
        body,
        owner: if owner == 0 { None } else { Some(owner) },
    }
}

fn set(rt: &impl Abort, alloc: Global, path: &str, body: Sequence<u8>, version: i32) -> Op {
    Op::Set {
        path: path_of(rt, alloc, path),
        body,
        version,
    }
}

fn op_of(rt: &impl Abort, alloc: Global, ask: Ask) -> Op {
    match ask {
        Ask::Create(path, owner) => create(rt, alloc, path, body_of(rt, alloc, b"{}"), owner),
        Ask::Long(path) => create(rt, alloc, path, long_body(rt, alloc), 0),
        Ask::Set(path, version) => set(rt, alloc, path, body_of(rt, alloc, b"set"), version),
        Ask::SetLong(path, version) => set(rt, alloc, path, long_body(rt, alloc), version),
        Ask::Delete(path, version) => Op::Delete {
            path: path_of(rt, alloc, path),
            version,
        },
        Ask::Check(path, version) => Op::Check {
            path: path_of(rt, alloc, path),
            version,
        },
    }
}

fn ops_of(rt: &impl Abort, alloc: Global, asks: &[Ask]) -> Sequence<Op> {
    let mut ops = Sequence::new(alloc);
    for ask in asks {
        put(rt, &mut ops, op_of(rt, alloc, *ask));
    }
    ops
}

// An answer of a table: the zxid; or the place of the operation that is refused, with its code or the limit's number.
#[derive(Clone, Copy)]
enum Told {
    Done(i64),
    Refused(usize, i32),
    Limit(usize, u8),
}

fn answer_of(told: Told) -> Result<i64, TreeFault> {
    match told {
        Told::Done(zxid) => Ok(zxid),
        Told::Refused(index, code) => Err(TreeFault::Refused { index, code }),
        Told::Limit(index, number) => Err(TreeFault::Limit { index, number }),
    }
}

// Why an operation of a table is refused.
#[derive(Clone, Copy)]
enum Cause {
    Code(i32),
    Limit(u8),
}

fn told_of(index: usize, cause: Cause) -> Told {
    match cause {
        Cause::Code(code) => Told::Refused(index, code),
        Cause::Limit(number) => Told::Limit(index, number),
    }
}

// The first multis of a tree after six transactions with the session 1 and the znode /v, which was set as often as it may
// be, and what it answers.
static FIRST: [(&[Ask], Told); 2] = [
    (
        &[
            Ask::Create("/a", 0),
            Ask::Create("/a/b", 0),
            Ask::Create("/e", 1),
        ],
        Told::Done(7),
    ),
    (&[], Told::Done(8)),
];

// What it refuses then, and why.
static CAUSES: [(Ask, Cause); 23] = [
    (Ask::Create("/x", 2), Cause::Code(-112)),
    (Ask::Create("/x/y", 0), Cause::Code(-101)),
    (Ask::Create("/a", 0), Cause::Code(-110)),
    (Ask::Create("/e/f", 0), Cause::Code(-108)),
    (Ask::Long("/x"), Cause::Limit(2)),
    (Ask::Set("/x", -1), Cause::Code(-101)),
    (Ask::Set("/a", 1), Cause::Code(-103)),
    (Ask::SetLong("/a", 0), Cause::Limit(2)),
    (Ask::Set("/v", -1), Cause::Limit(5)),
    (Ask::Delete("/x", -1), Cause::Code(-101)),
    (Ask::Delete("/a/b", 1), Cause::Code(-103)),
    (Ask::Delete("/a", -1), Cause::Code(-111)),
    (Ask::Check("/x", -1), Cause::Code(-101)),
    (Ask::Check("/a", 1), Cause::Code(-103)),
    // several causes at once
    (Ask::Create("/a", 2), Cause::Code(-112)),
    (Ask::Create("/e/f/g", 0), Cause::Code(-101)),
    (Ask::Long("/x/y"), Cause::Code(-101)),
    (Ask::Long("/a"), Cause::Code(-110)),
    (Ask::Long("/e/f"), Cause::Code(-108)),
    (Ask::SetLong("/a", 1), Cause::Code(-103)),
    (Ask::SetLong("/v", 2_147_483_647), Cause::Limit(2)),
    (Ask::Set("/v", 0), Cause::Code(-103)),
    (Ask::Delete("/a", 1), Cause::Code(-103)),
];

// Its further multis, and what it answers.
static MULTIS: [(&[Ask], Told); 8] = [
    // the operations before one count
    (
        &[Ask::Create("/x", 0), Ask::Create("/x", 0)],
        Told::Refused(1, -110),
    ),
    (
        &[Ask::Set("/a", 0), Ask::Set("/a", 0)],
        Told::Refused(1, -103),
    ),
    (
        &[
            Ask::Delete("/a/b", 0),
            Ask::Delete("/a", 0),
            Ask::Check("/a", -1),
        ],
        Told::Refused(2, -101),
    ),
    (
        &[
            Ask::Check("/a", 0),
            Ask::Create("/a/c", 0),
            Ask::Check("/a", 1),
        ],
        Told::Refused(2, -103),
    ),
    (
        &[Ask::Create("/f", 1), Ask::Create("/f/g", 0)],
        Told::Refused(1, -108),
    ),
    // the first that is refused is named
    (
        &[Ask::Set("/x", -1), Ask::Create("/x", 2)],
        Told::Refused(0, -101),
    ),
    // nothing of what was refused stands, and no zxid was taken
    (&[Ask::Set("/a", 0), Ask::Set("/a", 1)], Told::Done(9)),
    (
        &[
            Ask::Check("/a", 2),
            Ask::Delete("/a/b", 0),
            Ask::Delete("/a", 2),
        ],
        Told::Done(10),
    ),
];

// The multis of a tree one transaction before the last, and what it answers.
static LAST: [(&[Ask], Told); 4] = [
    (&[Ask::Create("/a", 0)], Told::Done(9223372036854775807)),
    (&[Ask::Create("/b", 0)], Told::Limit(0, 17)),
    (&[], Told::Limit(0, 17)),
    (
        &[Ask::Create("/b", 0), Ask::Create("/a", 0)],
        Told::Refused(1, -110),
    ),
];

// The tree with the session 1 and the znode /v after so many transactions.
fn aged(rt: &impl Abort, alloc: Global, zxid: i64) -> Tree {
    let row = Row {
        path: path_of(rt, alloc, "/v"),
        body: Sequence::new(alloc),
        version: i32::MAX,
        owner: None,
        czxid: 1,
        mzxid: 1,
        pzxid: 1,
    };
    let mut check = made(rt, LoadCheck::new(alloc, zxid, &[1]));
    made(rt, check.take(&row));
    check.into_tree()
}

// Whether a tree answers a multi so.
fn answers(rt: &impl Abort, alloc: Global, tree: &mut Tree, asks: &[Ask], told: Told) -> bool {
    let ops = ops_of(rt, alloc, asks);
    tree.multi(ops.as_slice()) == answer_of(told)
}

fn answers_all(rt: &impl Abort, alloc: Global, tree: &mut Tree, multis: &[(&[Ask], Told)]) {
    for (asks, told) in multis {
        assert!(rt; answers(rt, alloc, tree, asks, *told));
    }
}

#[test]
fn multis_are_made_or_refused_at_their_first_cause(rt: HostRuntime) {
    let alloc = rt.alloc();
    let mut tree = aged(&rt, alloc, 6);
    answers_all(&rt, alloc, &mut tree, &FIRST);
    for (ask, cause) in &CAUSES {
        assert!(rt; answers(&rt, alloc, &mut tree, &[*ask], told_of(0, *cause)));
        let later = [Ask::Check("/a", 0), Ask::Check("/e", -1), *ask];
        assert!(rt; answers(&rt, alloc, &mut tree, &later, told_of(2, *cause)));
    }
    answers_all(&rt, alloc, &mut tree, &MULTIS);
    assert!(rt; tree.count() == 2);
    assert!(rt; tree.last_zxid() == 10);
    assert!(rt; tree.sessions() == [1].as_slice());
    drop(tree);
}

#[test]
fn the_last_zxid_is_a_limit(rt: HostRuntime) {
    let alloc = rt.alloc();
    let mut tree = aged(&rt, alloc, 9_223_372_036_854_775_806);
    answers_all(&rt, alloc, &mut tree, &LAST);
    assert!(rt; tree.count() == 2);
    drop(tree);
}

static PATHS: [&str; 10] = [
    "/brokers",
    "/brokers/ids",
    "/brokers/ids/2",
    "/brokers/ids/10",
    "/brokers/ids/02",
    "/brokers/topics",
    "/brokers/topics/t",
    "/config",
    "/config/brokers",
    "/config/brokers-2",
];

// The tree of these paths.
fn filled(rt: &impl Abort, alloc: Global) -> Tree {
    let mut ops = Sequence::new(alloc);
    for path in PATHS {
        put(
            rt,
            &mut ops,
            create(rt, alloc, path, Sequence::new(alloc), 0),
        );
    }
    let mut tree = Tree::new(alloc);
    assert!(rt; tree.multi(ops.as_slice()) == Ok(1));
    tree
}

#[test]
fn the_migrated_area_is_read(rt: HostRuntime) {
    let tree = filled(&rt, rt.alloc());
    assert!(rt; tree.count() == 10);
    assert!(rt; made(&rt, tree.broker_ids()).as_slice() == [2, 10].as_slice());
    assert!(rt; tree.area_len() == 3);
    let area = made(&rt, tree.area());
    assert!(rt; area.len() == 3);
    let rows = made(&rt, tree.migrated_rows());
    assert!(rt; rows.len() == 3);
    drop(area);
    drop(rows);
    drop(tree);
}

// A path that only begins alike is no child, although it stands before the children.
#[test]
fn siblings_are_no_children(rt: HostRuntime) {
    let alloc = rt.alloc();
    let mut tree = filled(&rt, alloc);
    assert!(rt;
        answers(
            &rt,
            alloc,
            &mut tree,
            &[Ask::Delete("/config/brokers", 0)],
            Told::Done(2)
        )
    );
    assert!(rt;
        answers(
            &rt,
            alloc,
            &mut tree,
            &[Ask::Delete("/config", 0)],
            Told::Refused(0, -111)
        )
    );
    assert!(rt; tree.count() == 9);
    assert!(rt; tree.area_len() == 2);
    let mut rows = tree.rows();
    assert!(rt; rows.next().is_some());
    drop(tree);
}

// Whether a page has so many znodes, and the first has this path.
fn is_page(page: Vec<Row>, count: usize, path: &str) -> bool {
    let is_first = match page.first() {
        Some(first) => first.path.as_str() == path,
        None => false,
    };
    page.len() == count && is_first
}

#[test]
fn pages_begin_after_a_path(rt: HostRuntime) {
    let alloc = rt.alloc();
    let tree = filled(&rt, alloc);
    assert!(rt; is_page(made(&rt, tree.scan(None, 2)), 2, "/brokers/topics"));
    let after = path_of(&rt, alloc, "/brokers/topics");
    let page = made(&rt, tree.scan(Some(&after), 256));
    assert!(rt; is_page(page, 2, "/brokers/topics/t"));
    drop(tree);
}

// Whether the znodes after a path begin with this one.
fn is_next(tree: &Tree, after: Option<&ZPath>, path: &str) -> bool {
    match tree.next_row(after) {
        Some(row) => row.path.as_str() == path,
        None => path.is_empty(),
    }
}

#[test]
fn znodes_follow_one_another(rt: HostRuntime) {
    let alloc = rt.alloc();
    let tree = filled(&rt, alloc);
    assert!(rt; is_next(&tree, None, "/brokers"));
    for (after, next) in [
        ("/brokers", "/brokers/ids"),
        ("/brokers/ids/1", "/brokers/ids/10"),
        ("/brokers/ids/2", "/brokers/topics"),
        ("/config/brokers-2", ""),
        ("/zookeeper", ""),
    ] {
        let after = path_of(&rt, alloc, after);
        assert!(rt; is_next(&tree, Some(&after), next));
    }
    drop(tree);
}

// Whether the first znode was found, and the second wasn't.
fn is_first_found(found: &[Option<Row>]) -> bool {
    match found {
        [Some(row), None] => {
            row.path.as_str() == "/config"
                && row.version == 0
                && row.czxid == 1
                && row.mzxid == 1
                && row.pzxid == 1
        }
        _ => false,
    }
}

#[test]
fn znodes_are_looked_up(rt: HostRuntime) {
    let alloc = rt.alloc();
    let tree = filled(&rt, alloc);
    let mut paths = Sequence::new(alloc);
    put(&rt, &mut paths, path_of(&rt, alloc, "/config"));
    put(&rt, &mut paths, path_of(&rt, alloc, "/controller"));
    let found = made(&rt, tree.look_up(paths.as_slice()));
    assert!(rt; is_first_found(&found));
    assert!(rt; tree.row(b"/controller").is_none());
    drop(found);
    drop(tree);
}

// Whether a tree isn't closed at this path; an empty one where it is closed.
fn is_unclosed_at(tree: &Tree, path: &str) -> bool {
    match tree.closed() {
        Ok(()) => path.is_empty(),
        Err(ClosedFault::Unclosed { path: unclosed }) => unclosed.as_str() == path,
        Err(ClosedFault::NoMemory) => false,
    }
}

const RECORDED: &[u8] =
    b"{\"kraft_controller_epoch\":1,\"kraft_controller_id\":3000,\"kraft_metadata_epoch\":1,\"kraft_metadata_offset\":4,\"version\":0}";

// A delete shows in the parent alone.
#[test]
fn a_tree_is_closed_until_it_is_written(rt: HostRuntime) {
    let alloc = rt.alloc();
    let mut tree = filled(&rt, alloc);
    assert!(rt; is_unclosed_at(&tree, "/migration"));
    let mut ops = Sequence::new(alloc);
    put(
        &rt,
        &mut ops,
        create(&rt, alloc, "/migration", body_of(&rt, alloc, RECORDED), 0),
    );
    assert!(rt; tree.multi(ops.as_slice()) == Ok(2));
    let recorded = made(&rt, tree.recorded());
    assert!(rt; recorded.map(|recorded| recorded.offset) == Some(4));
    assert!(rt; is_unclosed_at(&tree, ""));
    let ops = ops_of(&rt, alloc, &[Ask::Delete("/brokers/topics/t", 0)]);
    assert!(rt; tree.multi(ops.as_slice()) == Ok(3));
    assert!(rt; is_unclosed_at(&tree, "/brokers/topics"));
    drop(tree);
}

static MIGRATED: [(&[u8], bool); 12] = [
    (b"/brokers/topics", true),
    (b"/brokers/topics/t/partitions/0/state", true),
    (b"/brokers/topics2", false),
    (b"/brokers", false),
    (b"/config/users/a/clients/b", true),
    (b"/config/ips", true),
    (b"/config/brokers-2", false),
    (b"/kafka-acl/Topic/t", true),
    (b"/kafka-acl/topic", false),
    (b"/kafka-acl-extended/prefixed", false),
    (b"/kafka-acl-extended/prefixed/TransactionalId", true),
    (b"/latest_producer_id_block", true),
];

#[test]
fn paths_are_migrated_below_their_roots(rt: HostRuntime) {
    for (path, migrated) in &MIGRATED {
        assert!(rt; is_migrated(path) == *migrated);
    }
}
