//! Each call, with ample memory.
use kz_dump::{
    Figures, LoadLine, batch_line, check_lines, log_head, read_row_line, render_line, row_line,
    status_lines, tree_head,
};
use kz_record_json::LineFault;
use kz_tree::{LoadCheck, Tree};
use kz_types::{AheadPath, BatchRow, MetaRecord, Rendered, Row, Sequence, Verdict, ZPath};
use std::alloc::Global;
use std::process::Abort;

// What a call gave, which must not have failed.
fn made<T: Drop, E: Drop>(rt: &impl Abort, outcome: Result<T, E>) -> T {
    match outcome {
        Ok(value) => value,
        Err(_) => panic!(rt; "a call failed"),
    }
}

fn path_of(rt: &impl Abort, alloc: Global, text: &str) -> ZPath {
    made(rt, ZPath::new(alloc, text.as_bytes()))
}

fn body_of(rt: &impl Abort, alloc: Global, bytes: &[u8]) -> Sequence<u8> {
    Sequence::from_vec(made(rt, bytes.to_vec(alloc)))
}

// A tree without znodes, with this last zxid and these live sessions.
fn tree_of(rt: &impl Abort, alloc: Global, zxid: i64, sessions: &[i64]) -> Tree {
    let check = made(rt, LoadCheck::new(alloc, zxid, sessions));
    check.into_tree()
}

static TREES: [(i64, &[i64], &str); 3] = [
    (0, &[], "{\"sessions\":[],\"zxid\":0}\n"),
    (9, &[3, 5], "{\"sessions\":[3,5],\"zxid\":9}\n"),
    (
        i64::MAX,
        &[i64::MAX],
        "{\"sessions\":[9223372036854775807],\"zxid\":9223372036854775807}\n",
    ),
];

#[test]
fn a_tree_begins_with_its_sessions(rt: HostRuntime) {
    let alloc = rt.alloc();
    for (zxid, sessions, wanted) in &TREES {
        let tree = tree_of(&rt, alloc, *zxid, sessions);
        let line = made(&rt, tree_head(alloc, &tree));
        assert!(rt; line.as_slice() == wanted.as_bytes());
        drop(line);
        drop(tree);
    }
}

// A znode of a table: its path and body, its version, its owner or 0 for none, its czxid, mzxid and pzxid, and its line.
type Znode = (
    &'static str,
    &'static [u8],
    i32,
    i64,
    [i64; 3],
    &'static str,
);

static ZNODES: [Znode; 4] = [
    (
        "/a",
        b"",
        0,
        0,
        [1, 1, 1],
        "{\"bytes\":\"\",\"czxid\":1,\"mzxid\":1,\"path\":\"/a\",\"pzxid\":1,\"version\":0}\n",
    ),
    (
        "/config/\"",
        b"{}",
        3,
        0,
        [1, 2, 4],
        "{\"bytes\":\"e30=\",\"czxid\":1,\"mzxid\":2,\"path\":\"/config/\\\"\",\"pzxid\":4,\"version\":3}\n",
    ),
    (
        "/brokers/ids/1",
        b"\xff\x00",
        i32::MAX,
        7,
        [2, 3, 2],
        "{\"bytes\":\"/wA=\",\"czxid\":2,\"mzxid\":3,\"owner\":7,\"path\":\"/brokers/ids/1\",\"pzxid\":2,\"version\":2147483647}\n",
    ),
    (
        "/b",
        b"x",
        -1,
        i64::MAX,
        [-1, i64::MIN, 0],
        "{\"bytes\":\"eA==\",\"czxid\":-1,\"mzxid\":-9223372036854775808,\"owner\":9223372036854775807,\"path\":\"/b\",\"pzxid\":0,\"version\":-1}\n",
    ),
];

fn row_of(rt: &impl Abort, alloc: Global, znode: Znode) -> Row {
    let (path, body, version, owner, [czxid, mzxid, pzxid], _) = znode;
    Row {
        path: path_of(rt, alloc, path),
        body: body_of(rt, alloc, body),
        version,
        owner: if owner == 0 { None } else { Some(owner) },
        czxid,
        mzxid,
        pzxid,
    }
}

fn has_its_line(rt: &impl Abort, alloc: Global, znode: Znode) -> bool {
    let row = row_of(rt, alloc, znode);
    let line = made(rt, row_line(alloc, &row));
    drop(row);
    line.as_slice() == znode.5.as_bytes()
}

#[test]
fn znodes_have_their_lines(rt: HostRuntime) {
    let alloc = rt.alloc();
    for znode in &ZNODES {
        assert!(rt; has_its_line(&rt, alloc, *znode));
    }
}

static LOGS: [(i64, i64, i32, &str); 3] = [
    (-1, -1, 0, "{\"base\":-1,\"end\":-1,\"epoch\":0}\n"),
    (-1, 4, 1, "{\"base\":-1,\"end\":4,\"epoch\":1}\n"),
    (
        3,
        70,
        2147483647,
        "{\"base\":3,\"end\":70,\"epoch\":2147483647}\n",
    ),
];

#[test]
fn a_log_begins_with_its_base_and_end(rt: HostRuntime) {
    let alloc = rt.alloc();
    for (base, end, epoch, wanted) in &LOGS {
        let line = made(&rt, log_head(alloc, *base, *end, *epoch));
        assert!(rt; line.as_slice() == wanted.as_bytes());
        drop(line);
    }
}

#[test]
fn a_batch_has_its_records(rt: HostRuntime) {
    let alloc = rt.alloc();
    let mut items = Sequence::new(alloc);
    made(&rt, items.push(MetaRecord::NoOp));
    made(&rt, items.push(MetaRecord::ZkMigrationState { state: 1 }));
    let batch = BatchRow {
        first: 5,
        epoch: 2,
        time: 8,
        items,
    };
    let line = made(&rt, batch_line(alloc, &batch));
    let wanted =
        "{\"epoch\":2,\"first\":5,\"records\":[{\"kind\":\"NoOp\"},{\"kind\":\"ZkMigrationState\",\"state\":1}],\"time\":8}\n";
    assert!(rt; line.as_slice() == wanted.as_bytes());
    drop(line);
    drop(batch);
}

static RENDERED: [(&str, &[u8], &[u8]); 4] = [
    ("/a", b"", b"{\"body\":\"\",\"path\":\"/a\"}\n"),
    (
        "/config/\"\\",
        b"{\"a\":\"\\u0001\"}",
        b"{\"body\":\"{\\\"a\\\":\\\"\\\\u0001\\\"}\",\"path\":\"/config/\\\"\\\\\"}\n",
    ),
    (
        "/b",
        b"\x00\x08\x09\x0a\x0b\x0c\x0d\x1f /\x7f",
        b"{\"body\":\"\\u0000\\b\\t\\n\\u000b\\f\\r\\u001f /\x7f\",\"path\":\"/b\"}\n",
    ),
    (
        "/\u{e9}",
        b"\xff\xc3\xa9",
        b"{\"body\":\"\xff\xc3\xa9\",\"path\":\"/\xc3\xa9\"}\n",
    ),
];

#[test]
fn rendered_znodes_have_their_lines(rt: HostRuntime) {
    let alloc = rt.alloc();
    for (path, body, wanted) in &RENDERED {
        let row = Rendered {
            path: path_of(&rt, alloc, path),
            body: body_of(&rt, alloc, body),
        };
        let line = made(&rt, render_line(alloc, &row));
        assert!(rt; line.as_slice() == *wanted);
        drop(line);
        drop(row);
    }
}

fn is_printed(rt: &impl Abort, alloc: Global, verdict: Verdict, wanted: &str) -> bool {
    let lines = made(rt, check_lines(alloc, &verdict));
    drop(verdict);
    lines.as_slice() == wanted.as_bytes()
}

// Two paths that are ahead.
fn paths_ahead(rt: &impl Abort, alloc: Global) -> Sequence<AheadPath> {
    let mut paths = Sequence::new(alloc);
    let first = AheadPath {
        path: path_of(rt, alloc, "/config/brokers/1"),
        offset: 69,
    };
    made(rt, paths.push(first));
    let second = AheadPath {
        path: path_of(rt, alloc, "/config/\""),
        offset: 5,
    };
    made(rt, paths.push(second));
    paths
}

#[test]
fn verdicts_have_their_lines(rt: HostRuntime) {
    let alloc = rt.alloc();
    assert!(rt; is_printed(&rt, alloc, Verdict::Unmigrated, "unmigrated\n"));
    assert!(rt; is_printed(&rt, alloc, Verdict::Unrecorded, "unrecorded\n"));
    assert!(rt; is_printed(&rt, alloc, Verdict::Closed { offset: 4 }, "closed 4\n"));
    let none = Verdict::Ahead {
        offset: 4,
        paths: Sequence::new(alloc),
    };
    assert!(rt; is_printed(&rt, alloc, none, "ahead 4 0\n"));
    let two = Verdict::Ahead {
        offset: 4,
        paths: paths_ahead(&rt, alloc),
    };
    assert!(rt;
        is_printed(
            &rt,
            alloc,
            two,
            "ahead 4 2\n\"/config/brokers/1\" 69\n\"/config/\\\"\" 5\n",
        )
    );
    let path = path_of(&rt, alloc, "/config/brokers/1");
    assert!(rt; is_printed(&rt, alloc, Verdict::Disagrees { path }, ""));
}

static FIGURES: [(Figures, &str); 2] = [
    (
        Figures {
            zxid: 2,
            znodes: 25,
            epoch: 1,
            base: 3,
            end: 4,
            migration: 2,
            recorded: Some(4),
        },
        "zxid 2\nznodes 25\nepoch 1\nbase 3\nend 4\nmigration 2\nrecorded 4\n",
    ),
    (
        Figures {
            zxid: 0,
            znodes: 0,
            epoch: 0,
            base: -1,
            end: -1,
            migration: 0,
            recorded: None,
        },
        "zxid 0\nznodes 0\nepoch 0\nbase -1\nend -1\nmigration 0\nrecorded none\n",
    ),
];

#[test]
fn figures_have_their_lines(rt: HostRuntime) {
    let alloc = rt.alloc();
    for (figures, wanted) in &FIGURES {
        let lines = made(&rt, status_lines(alloc, figures));
        assert!(rt; lines.as_slice() == wanted.as_bytes());
        drop(lines);
    }
}

// What a line says: a znode as its own line, and a first line as that of a tree without znodes. `bad` where it is neither.
fn said(rt: &impl Abort, alloc: Global, line: &[u8]) -> Vec<u8> {
    match read_row_line(alloc, line) {
        Ok(LoadLine::Znode(row)) => made(rt, row_line(alloc, &row)),
        Ok(LoadLine::Head { zxid, sessions }) => {
            let tree = tree_of(rt, alloc, zxid, sessions.as_slice());
            made(rt, tree_head(alloc, &tree))
        }
        Err(LineFault::BadLine) => made(rt, b"bad".to_vec(alloc)),
        Err(LineFault::NoMemory) => panic!(rt; "no memory"),
    }
}

static LINES: [(&[u8], &str); 20] = [
    (b"{}", "{\"sessions\":[],\"zxid\":1}\n"),
    (
        b"{\"zxid\":9,\"sessions\":[1,5]}",
        "{\"sessions\":[1,5],\"zxid\":9}\n",
    ),
    (b" { \"sessions\" : [] } ", "{\"sessions\":[],\"zxid\":1}\n"),
    (
        b"{\"path\":\"/a\"}",
        "{\"bytes\":\"\",\"czxid\":1,\"mzxid\":1,\"path\":\"/a\",\"pzxid\":1,\"version\":0}\n",
    ),
    (
        b"{\"path\":\"/a\",\"czxid\":6,\"text\":\"x\"}",
        "{\"bytes\":\"eA==\",\"czxid\":6,\"mzxid\":6,\"path\":\"/a\",\"pzxid\":6,\"version\":0}\n",
    ),
    (
        b"{\"bytes\":\"e30=\",\"czxid\":2,\"mzxid\":3,\"owner\":7,\"path\":\"/a\",\"pzxid\":4,\"version\":5}",
        "{\"bytes\":\"e30=\",\"czxid\":2,\"mzxid\":3,\"owner\":7,\"path\":\"/a\",\"pzxid\":4,\"version\":5}\n",
    ),
    (
        b"{\"path\":\"/b\",\"path\":\"/a\",\"pzxid\":-2}",
        "{\"bytes\":\"\",\"czxid\":1,\"mzxid\":1,\"path\":\"/a\",\"pzxid\":-2,\"version\":0}\n",
    ),
    (b"", "bad"),
    (b"# a comment", "bad"),
    (b"[]", "bad"),
    (b"{\"path\":\"/a\"", "bad"),
    (b"{\"zxid\":1.0}", "bad"),
    (b"{\"zxid\":1,\"version\":1}", "bad"),
    (b"{\"sessions\":[\"1\"]}", "bad"),
    (b"{\"path\":\"a\"}", "bad"),
    (b"{\"path\":\"/a\",\"ctime\":1}", "bad"),
    (b"{\"path\":\"/a\",\"text\":\"\",\"bytes\":\"\"}", "bad"),
    (b"{\"path\":\"/a\",\"bytes\":\"e30\"}", "bad"),
    (b"{\"path\":\"/a\",\"version\":2147483648}", "bad"),
    (b"{\"path\":\"/a\",\"owner\":null}", "bad"),
];

#[test]
fn lines_are_read_or_bad(rt: HostRuntime) {
    let alloc = rt.alloc();
    for (line, wanted) in &LINES {
        let text = said(&rt, alloc, line);
        assert!(rt; text.as_slice() == wanted.as_bytes());
        drop(text);
    }
}
