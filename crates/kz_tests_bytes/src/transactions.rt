ghost use Rattle.std.specs.Prelude.{◌≡◌, ◌<◌, ◌^◌, ◌∷◌, [], length};
ghost use Rattle.kz_spec_data.specs.Forms.{AllFit};
ghost use Rattle.kz_spec_data.specs.Transactions.{path, op, row, list_of, TxnFits};

use kz_txn::{Txn, TxnFault, read_txn, txn_size, write_txn};
use kz_types::{Op, Row, Sequence, ZPath};
use std::alloc::Global;
use std::process::Abort;

// A multi of a create without an owner, a set, a delete and a check.
static MULTI: &[u8] =
    b"\x01\x00\x00\x00\x01\x00\x00\x00\x02\x00\x00\x00\x04\x01\x00\x00\x00\x02\x2F\x61\x00\x00\x00\x03\x61\x62\x63\x00\x00\x00\x00\x00\x00\x00\x00\x02\x00\x00\x00\x02\x2F\x62\x00\x00\x00\x07\x00\x00\x00\x00\x03\x00\x00\x00\x04\x2F\x62\x2F\x63\xFF\xFF\xFF\xFF\x04\x00\x00\x00\x02\x2F\x64\x80\x00\x00\x00";

// A multi of one create.
static CREATE: &[u8] =
    b"\x01\x00\x00\x00\x01\x00\x00\x00\x02\x00\x00\x00\x01\x01\x00\x00\x00\x02\x2F\x61\x00\x00\x00\x03\x61\x62\x63\x00\x00\x00\x00\x00\x00\x00\x09";

// A znode that begins a load.
static ROWS: &[u8] =
    b"\x02\x01\x00\x00\x00\x01\x00\x00\x00\x02\x2F\x61\x00\x00\x00\x01\x78\x00\x00\x00\x00\x00\x00\x00\x00\x00\x00\x00\x09\x00\x00\x00\x00\x00\x00\x00\x01\x00\x00\x00\x00\x00\x00\x00\x02\xFF\xFF\xFF\xFF\xFF\xFF\xFF\xFF";

// No znode of a load that goes on.
static NO_ROWS: &[u8] = b"\x02\x00\x00\x00\x00\x00";

// The end of a load with two sessions.
static LOAD_END: &[u8] =
    b"\x03\x00\x00\x00\x01\x00\x00\x00\x02\x00\x00\x00\x02\x00\x00\x00\x00\x00\x00\x00\x03\x7F\xFF\xFF\xFF\xFF\xFF\xFF\xFF";

// The beginning of a session.
static BEGIN: &[u8] = b"\x04\x00\x00\x00\x01\x00\x00\x00\x02\x00\x00\x00\x00\x00\x00\x00\x05";

// The end of a session.
static END: &[u8] = b"\x05\xFF\xFF\xFF\xFF\xFF\xFF\xFF\xFF\x7F\xFF\xFF\xFF\xFF\xFF\xFF\xFF";

// Bytes that are no transaction, each with the place of the first bad byte.
static FAULTS: [(&[u8], usize); 18] = [
    (b"", 0),
    (b"\x00", 0),
    (b"\x06", 0),
    (b"\x04", 1),
    (
        b"\x04\x00\x00\x00\x01\x00\x00\x00\x02\x00\x00\x00\x00\x00\x00\x00",
        16,
    ),
    (
        b"\x04\x00\x00\x00\x01\x00\x00\x00\x02\x00\x00\x00\x00\x00\x00\x00\x00",
        16,
    ),
    (
        b"\x04\x00\x00\x00\x01\x00\x00\x00\x02\x80\x00\x00\x00\x00\x00\x00\x00",
        9,
    ),
    (
        b"\x05\xFF\xFF\xFF\xFF\xFF\xFF\xFF\xFF\x7F\xFF\xFF\xFF\xFF\xFF\xFF\xFF\x00",
        17,
    ),
    (
        b"\x03\x00\x00\x00\x01\x00\x00\x00\x02\x00\x00\x00\x02\x00\x00\x00\x00\x00\x00\x00\x03\x00\x00\x00\x00\x00\x00\x00\x03",
        28,
    ),
    (
        b"\x03\x00\x00\x00\x01\x00\x00\x00\x02\x00\x00\x00\x02\x7F\xFF\xFF\xFF\xFF\xFF\xFF\xFF\x7F\xFF\xFF\xFF\xFF\xFF\xFF\xFF",
        20,
    ),
    (
        b"\x01\x00\x00\x00\x01\x00\x00\x00\x02\x00\x00\x00\x01\x05",
        13,
    ),
    (
        b"\x01\x00\x00\x00\x01\x00\x00\x00\x02\x00\x00\x00\x01\x03\x00\x00\x00\x01\x61\x00\x00\x00\x00",
        18,
    ),
    (
        b"\x01\x00\x00\x00\x01\x00\x00\x00\x02\x00\x00\x00\x01\x03\x00\x00\x00\x05\x2F\x61\x2F\x2F\x62\x00\x00\x00\x00",
        21,
    ),
    (
        b"\x01\x00\x00\x00\x01\x00\x00\x00\x02\x00\x00\x00\x01\x03\x00\x00\x00\x03\x2F\x61\x2F\x00\x00\x00\x00",
        21,
    ),
    (b"\x02\x02", 1),
    (b"\x02\x00\xFF\xFF\xFF\xFF", 6),
    (
        b"\x01\x00\x00\x00\x01\x00\x00\x00\x02\x00\x00\x00\x01\x01\x00\x00\x00\x02\x2F\x61\x00\x00\x00\x0A\x61",
        25,
    ),
    (
        b"\x01\x00\x00\x00\x01\x00\x00\x00\x02\x00\x00\x00\x01\x01\x00\x00\x00\x02\x2F\x61\x00\x00\x00\x00\x80\x00\x00\x00\x00\x00\x00\x00",
        24,
    ),
];

// The transaction that these bytes are.
fn read(rt: &impl Abort, alloc: Global, bytes: &[u8]) -> Txn {
    match read_txn(alloc, bytes) {
        Ok(txn) => txn,
        Err(_) => panic!(rt; "no transaction"),
    }
}

fn size_of(rt: &impl Abort, alloc: Global, bytes: &[u8]) -> u128 {
    txn_size(&read(rt, alloc, bytes))
}

#[test]
fn transactions_have_their_sizes(rt: HostRuntime) {
    let alloc = rt.alloc();
    assert!(rt; size_of(&rt, alloc, MULTI) == MULTI.len() as u128);
    assert!(rt; size_of(&rt, alloc, CREATE) == CREATE.len() as u128);
    assert!(rt; size_of(&rt, alloc, ROWS) == ROWS.len() as u128);
    assert!(rt; size_of(&rt, alloc, NO_ROWS) == NO_ROWS.len() as u128);
    assert!(rt; size_of(&rt, alloc, LOAD_END) == LOAD_END.len() as u128);
    assert!(rt; size_of(&rt, alloc, BEGIN) == BEGIN.len() as u128);
    assert!(rt; size_of(&rt, alloc, END) == END.len() as u128);
}

// Whether these bytes end as a transaction at this place.
fn is_fault(alloc: Global, bytes: &[u8], at: usize) -> bool {
    match read_txn(alloc, bytes) {
        Ok(_) => false,
        Err(fault) => fault == TxnFault::Malformed { at },
    }
}

#[test]
fn each_fault_is_at_the_first_bad_byte(rt: HostRuntime) {
    let alloc = rt.alloc();
    for (bytes, at) in &FAULTS {
        assert!(rt; is_fault(alloc, bytes, *at), "{at}");
    }
}

// ---- what is written

fn path_of(rt: &impl Abort, alloc: Global, bytes: &[u8]) -> ZPath
    requires { length bytes.now < 100 }
    ensures { path.fits result }
{
    match ZPath::new(alloc, bytes) {
        Ok(path) => path,
        Err(_) => panic!(rt; "no path"),
    }
}

fn body_of(rt: &impl Abort, alloc: Global, bytes: &[u8]) -> Sequence<u8>
    requires { length bytes.now < 100 }
    ensures { length result < 2 ^ 32 }
{
    match Vec::from_slice(alloc, bytes) {
        Ok(items) => Sequence::from_vec(items),
        Err(_) => panic!(rt; "no memory"),
    }
}

fn list<T: Drop>(rt: &impl Abort, alloc: Global, item: T) -> Sequence<T>
    ensures { result ≡ item ∷ [] }
{
    let mut items = Sequence::new(alloc);
    let Ok(()) = items.push(item) else {
        panic!(rt; "no memory");
    };
    items
}

// Whether these bytes are written for a transaction, and it has their size.
fn is_written(alloc: Global, t: &Txn, bytes: &[u8]) -> bool
    requires { TxnFits t.now }
{
    match write_txn(alloc, t) {
        Ok(written) => written.as_slice() == bytes,
        Err(_) => false,
    }
}

fn create(rt: &impl Abort, alloc: Global) -> Op
    ensures { op.fits result }
{
    let path = path_of(rt, alloc, b"/a");
    let body = body_of(rt, alloc, b"abc");
    let owner = Some(9);
    Op::Create { path, body, owner }
}

fn row(rt: &impl Abort, alloc: Global) -> Row
    ensures { row.fits result }
{
    let path = path_of(rt, alloc, b"/a");
    let body = body_of(rt, alloc, b"x");
    Row {
        path,
        body,
        version: 0,
        owner: Some(9),
        czxid: 1,
        mzxid: 2,
        pzxid: -1,
    }
}

#[test]
fn changes_are_written(rt: HostRuntime) {
    let alloc = rt.alloc();
    let ops = list(&rt, alloc, create(&rt, alloc));
    let multi = Txn::Multi {
        zxid: 4_294_967_298,
        ops,
    };
    assert!(rt; is_written(alloc, &multi, CREATE));
}

#[test]
fn loads_are_written(rt: HostRuntime) {
    let alloc = rt.alloc();
    let rows = list(&rt, alloc, row(&rt, alloc));
    let load = Txn::LoadRows { first: true, rows };
    assert!(rt; is_written(alloc, &load, ROWS));
    let mut sessions = list(&rt, alloc, 3);
    let Ok(()) = sessions.push(i64::MAX) else {
        panic!(rt; "no memory");
    };
    let end = Txn::LoadEnd {
        zxid: 4_294_967_298,
        sessions,
    };
    assert!(rt; is_written(alloc, &end, LOAD_END));
}

#[test]
fn sessions_are_written(rt: HostRuntime) {
    let alloc = rt.alloc();
    let begin = Txn::Begin {
        zxid: 4_294_967_298,
        session: 5,
    };
    assert!(rt; is_written(alloc, &begin, BEGIN));
    let end = Txn::End {
        zxid: -1,
        session: i64::MAX,
    };
    assert!(rt; is_written(alloc, &end, END));
}

// Whether these are a create of this path and body without an owner, a set, a delete and a check.
fn are_four(ops: &[Op]) -> bool {
    match ops {
        [
            Op::Create { path, body, owner },
            Op::Set { .. },
            Op::Delete { .. },
            Op::Check { .. },
        ] => {
            path.bytes() == b"/a".as_slice()
                && body.as_slice() == b"abc".as_slice()
                && owner.is_none()
        }
        _ => false,
    }
}

#[test]
fn contents_are_read(rt: HostRuntime) {
    let alloc = rt.alloc();
    match read(&rt, alloc, MULTI) {
        Txn::Multi { zxid, ops } => {
            assert!(rt; zxid == 4_294_967_298 && are_four(ops.as_slice()));
        }
        _ => panic!(rt; "no multi"),
    }
    match read(&rt, alloc, ROWS) {
        Txn::LoadRows { first, rows } => assert!(rt; first && rows.len() == 1),
        _ => panic!(rt; "no znodes"),
    }
    match read(&rt, alloc, LOAD_END) {
        Txn::LoadEnd { sessions, .. } => assert!(rt; sessions.len() == 2),
        _ => panic!(rt; "no end of a load"),
    }
}
