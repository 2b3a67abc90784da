use kz_session::{MemoryTree, SessionFault, ZSessions};
use kz_tree::{Op, Plan, TreeFault, Wire, WireFault, ZTree};
use kz_types::{Sequence, ZPath};
use std::alloc::Global;
use std::process::Abort;

// What a call gave, which must not have failed.
fn made<T: Drop, E: Drop>(rt: &impl Abort, outcome: Result<T, E>) -> T {
    match outcome {
        Ok(value) => value,
        Err(_) => panic!(rt; "a call failed"),
    }
}

fn path_of(rt: &impl Abort, alloc: Global, path: &str) -> ZPath {
    made(rt, ZPath::new(alloc, path.as_bytes()))
}

// An operation of a table: creates have an owner, or 0 for none; the others have a version.
#[derive(Clone, Copy)]
enum Ask {
    Create(&'static str, i64),
    Set(&'static str, i32),
    Delete(&'static str, i32),
    Check(&'static str, i32),
}

fn op_of(rt: &impl Abort, alloc: Global, ask: Ask) -> Op {
    match ask {
        Ask::Create(path, owner) => Op::Create {
            path: path_of(rt, alloc, path),
            body: Sequence::new(alloc),
            owner: if owner == 0 { None } else { Some(owner) },
        },
        Ask::Set(path, version) => Op::Set {
            path: path_of(rt, alloc, path),
            body: Sequence::new(alloc),
            version,
        },
        Ask::Delete(path, version) => Op::Delete {
            path: path_of(rt, alloc, path),
            version,
        },
        Ask::Check(path, version) => Op::Check {
            path: path_of(rt, alloc, path),
            version,
        },
    }
}

fn ops_of(rt: &impl Abort, alloc: Global, asks: &[Ask]) -> Sequence<Op> {
    let mut ops = Sequence::new(alloc);
    for ask in asks {
        made(rt, ops.push(op_of(rt, alloc, *ask)));
    }
    ops
}

// What a store answers a multi, through its trait.
fn multi<T: ZTree>(
    rt: &impl Abort,
    alloc: Global,
    store: &mut T,
    asks: &[Ask],
) -> Result<i64, TreeFault> {
    let ops = ops_of(rt, alloc, asks);
    store.multi(ops.as_slice())
}

// What a request of a table asks.
#[derive(Clone, Copy)]
enum Request {
    Begin(i64),
    End(i64),
    Multi(&'static [Ask]),
}

// What it is answered: the zxid, or why there is none.
#[derive(Clone, Copy)]
enum Told {
    Done(i64),
    Known,
    Unknown,
    Refused(usize, i32),
}

fn is_told(answer: Result<i64, SessionFault>, told: Told) -> bool {
    match told {
        Told::Done(zxid) => answer == Ok(zxid),
        Told::Known => answer == Err(SessionFault::Known),
        Told::Unknown => answer == Err(SessionFault::Unknown),
        Told::Refused(..) => false,
    }
}

fn is_multi_told(answer: Result<i64, TreeFault>, told: Told) -> bool {
    match told {
        Told::Done(zxid) => answer == Ok(zxid),
        Told::Known => false,
        Told::Unknown => false,
        Told::Refused(index, code) => answer == Err(TreeFault::Refused { index, code }),
    }
}

// Sessions begin and end on a tree, which makes and ends ephemeral znodes.
static REQUESTS: [(Request, Told); 19] = [
    (Request::Begin(1), Told::Done(1)),
    (Request::Begin(1), Told::Known),
    (Request::End(2), Told::Unknown),
    (Request::Begin(2), Told::Done(2)),
    (
        Request::Multi(&[
            Ask::Create("/e", 1),
            Ask::Create("/p", 0),
            Ask::Create("/p/e", 1),
            Ask::Create("/p/f", 2),
            Ask::Create("/q", 0),
        ]),
        Told::Done(3),
    ),
    (
        Request::Multi(&[Ask::Create("/e/f", 0)]),
        Told::Refused(0, -108),
    ),
    (
        Request::Multi(&[Ask::Delete("/p", 0)]),
        Told::Refused(0, -111),
    ),
    (Request::End(1), Told::Done(4)),
    (Request::End(1), Told::Unknown),
    (
        Request::Multi(&[Ask::Create("/e", 1)]),
        Told::Refused(0, -112),
    ),
    (
        Request::Multi(&[Ask::Check("/e", -1)]),
        Told::Refused(0, -101),
    ),
    (
        Request::Multi(&[Ask::Check("/p/f", 0), Ask::Check("/p/e", -1)]),
        Told::Refused(1, -101),
    ),
    (Request::Begin(1), Told::Done(5)),
    (Request::Multi(&[Ask::Create("/e", 1)]), Told::Done(6)),
    (Request::Begin(1), Told::Known),
    (
        Request::Multi(&[
            Ask::Set("/e", 0),
            Ask::Create("/p/g", 1),
            Ask::Create("/p/h", 1),
        ]),
        Told::Done(7),
    ),
    (Request::Multi(&[Ask::Delete("/p/g", 0)]), Told::Done(8)),
    (Request::Multi(&[Ask::Set("/q", 0)]), Told::Done(9)),
    (Request::End(1), Told::Done(10)),
];

fn is_answered(
    rt: &impl Abort,
    alloc: Global,
    store: &mut MemoryTree,
    request: Request,
    told: Told,
) -> bool {
    match request {
        Request::Begin(session) => {
            assert!(rt; session >= 1);
            is_told(store.begin_session(session), told)
        }
        Request::End(session) => is_told(store.end_session(session), told),
        Request::Multi(asks) => is_multi_told(multi(rt, alloc, store, asks), told),
    }
}

// Whether a znode is there, with this pzxid.
fn is_there(store: &MemoryTree, path: &[u8], pzxid: i64) -> bool {
    match store.tree().row(path) {
        Some(row) => row.pzxid == pzxid,
        None => false,
    }
}

#[test]
fn ephemeral_znodes_end_with_their_session(rt: HostRuntime) {
    let alloc = rt.alloc();
    let mut store = MemoryTree::new(alloc);
    for (request, told) in &REQUESTS {
        assert!(rt; is_answered(&rt, alloc, &mut store, *request, *told));
    }
    assert!(rt; store.tree().sessions() == [2].as_slice());
    assert!(rt; store.tree().count() == 3);
    assert!(rt; is_there(&store, b"/p", 10));
    assert!(rt; is_there(&store, b"/p/f", 3));
    assert!(rt; is_there(&store, b"/q", 3));
    drop(store);
}

#[test]
fn a_multi_is_made_whole_or_not_at_all(rt: HostRuntime) {
    let alloc = rt.alloc();
    let mut store = MemoryTree::new(alloc);
    let first = [
        Ask::Create("/a", 0),
        Ask::Create("/a/b", 0),
        Ask::Set("/a", 0),
        Ask::Check("/a", 1),
    ];
    assert!(rt; multi(&rt, alloc, &mut store, &first) == Ok(1));
    let second = [Ask::Create("/c", 0), Ask::Delete("/a", 1)];
    assert!(rt;
        multi(&rt, alloc, &mut store, &second)
            == Err(TreeFault::Refused {
                index: 1,
                code: -111
            })
    );
    assert!(rt; store.tree().row(b"/c").is_none());
    let third = [Ask::Create("/x/y", 0)];
    assert!(rt;
        multi(&rt, alloc, &mut store, &third)
            == Err(TreeFault::Refused {
                index: 0,
                code: -101
            })
    );
    assert!(rt; store.tree().last_zxid() == 1);
    assert!(rt; made(&rt, store.scan(None, 10)).len() == 0);
    assert!(rt; made(&rt, store.broker_ids()).len() == 0);
    let path = [path_of(&rt, alloc, "/a")];
    assert!(rt; made(&rt, store.look(&path)).len() == 1);
    drop(path);
    drop(store);
}

// A plan, what is asked under it, what is answered, and the last zxid of the store then.
static PLANS: [(Plan, &[Ask], Result<i64, WireFault>, i64); 8] = [
    (Plan::Deliver, &[Ask::Create("/a", 0)], Ok(1), 1),
    (
        Plan::LostBefore,
        &[Ask::Create("/b", 0)],
        Err(WireFault::Lost),
        1,
    ),
    (
        Plan::LostAfter,
        &[Ask::Create("/b", 0)],
        Err(WireFault::Lost),
        2,
    ),
    (
        Plan::LostAfter,
        &[Ask::Create("/b", 0)],
        Err(WireFault::Lost),
        2,
    ),
    (
        Plan::Expired,
        &[Ask::Create("/c", 0)],
        Err(WireFault::Expired),
        2,
    ),
    (
        Plan::Deliver,
        &[Ask::Create("/b", 0)],
        Err(WireFault::Tree(TreeFault::Refused {
            index: 0,
            code: -110,
        })),
        2,
    ),
    (Plan::Deliver, &[Ask::Create("/c", 0)], Ok(3), 3),
    (Plan::Deliver, &[Ask::Create("/d", 0)], Ok(4), 4),
];

#[test]
fn requests_go_by_their_plan(rt: HostRuntime) {
    let alloc = rt.alloc();
    let mut wire = Wire::new(MemoryTree::new(alloc));
    for (plan, asks, answer, zxid) in &PLANS {
        wire.plan(*plan);
        let ops = ops_of(&rt, alloc, asks);
        assert!(rt; wire.multi(ops.as_slice()) == *answer);
        assert!(rt; wire.inner().tree().last_zxid() == *zxid);
    }
    // a plan serves one request alone
    wire.plan(Plan::LostBefore);
    assert!(rt; wire.broker_ids().is_err());
    assert!(rt; wire.broker_ids().is_ok());
    wire.plan(Plan::LostAfter);
    assert!(rt; wire.scan(None, 1).is_err());
    assert!(rt; wire.scan(None, 1).is_ok());
    wire.plan(Plan::Expired);
    assert!(rt; wire.look(&[]).is_err());
    assert!(rt; wire.look(&[]).is_ok());
    assert!(rt; wire.inner_mut().begin_session(7) == Ok(5));
    let store = wire.into_inner();
    assert!(rt; store.tree().sessions() == [7].as_slice());
    drop(store);
}
