ghost use Rattle.kz_spec_data.specs.Log.{IsViewOf, new_view};

use kz_log::{LogWire, MemoryLog, MetaLog, View};
use kz_requests::{StepFault, append, broker_ids, multi, page, path_at, read, rows_at};
use kz_session::MemoryTree;
use kz_tree::Wire;
use kz_types::{LogFault, MetaRecord, Op, Plan, Sequence, ZPath};
use std::alloc::Global;
use std::process::Abort;

// What a call gave, which must not have failed.
fn made<T: Drop, E: Drop>(rt: &impl Abort, outcome: Result<T, E>) -> T {
    match outcome {
        Ok(value) => value,
        Err(_) => panic!(rt; "a call failed"),
    }
}

fn path_of(rt: &impl Abort, alloc: Global, path: &str) -> ZPath {
    made(rt, ZPath::new(alloc, path.as_bytes()))
}

// One operation that creates a znode.
fn create(rt: &impl Abort, alloc: Global, path: &str) -> [Op; 1] {
    [Op::Create {
        path: path_of(rt, alloc, path),
        body: Sequence::new(alloc),
        owner: None,
    }]
}

// What comes of a multi that creates a znode, by the plan of its connection.
fn creates(
    rt: &impl Abort,
    alloc: Global,
    tree: &mut Wire<MemoryTree>,
    path: &str,
    plan: Plan,
) -> Result<bool, StepFault> {
    let ops = create(rt, alloc, path);
    tree.plan(plan);
    match multi(tree, &ops) {
        Ok(refusal) => Ok(refusal.is_none()),
        Err(fault) => Err(fault),
    }
}

static MULTIS: [(&str, Plan, Result<bool, StepFault>); 6] = [
    ("/brokers", Plan::Deliver, Ok(true)),
    ("/brokers", Plan::Deliver, Ok(false)),
    ("/brokers/ids", Plan::LostBefore, Err(StepFault::Lost)),
    ("/brokers/ids", Plan::LostAfter, Err(StepFault::Lost)),
    ("/brokers/topics", Plan::Expired, Err(StepFault::Expired)),
    ("/brokers/topics", Plan::Deliver, Ok(true)),
];

#[test]
fn requests_of_the_tree(rt: HostRuntime) {
    let alloc = rt.alloc();
    let mut tree = Wire::new(MemoryTree::new(alloc));
    for (path, plan, told) in MULTIS {
        assert!(&rt; creates(&rt, alloc, &mut tree, path, plan) == told);
    }
    let rows = made(&rt, page(&mut tree, None, 10));
    assert!(&rt; rows.len() == 1);
    drop(rows);
    let paths = [
        path_of(&rt, alloc, "/brokers/ids"),
        path_of(&rt, alloc, "/config"),
    ];
    let looked = made(&rt, rows_at(&mut tree, &paths));
    assert!(&rt; matches!(looked.as_slice(), [Some(_), None]));
    drop(looked);
    drop(paths);
    let ids = made(&rt, broker_ids(&mut tree));
    assert!(&rt; ids.is_empty());
    drop(ids);
    drop(tree);
}

#[test]
fn the_path_of_an_operation(rt: HostRuntime) {
    let alloc = rt.alloc();
    let ops = create(&rt, alloc, "/config");
    let path = made(&rt, path_at(alloc, &ops, 0));
    assert!(&rt; path.as_str() == "/config");
    drop(path);
    drop(ops);
}

#[test]
fn requests_of_the_log(rt: HostRuntime) {
    let alloc = rt.alloc();
    let mut log = LogWire::new(MemoryLog::new(alloc));
    let items = [MetaRecord::NoOp];
    let stale = append(&mut log, 2, 0, &items);
    assert!(&rt; matches!(stale, Ok(Err(LogFault::Stale { .. }))));
    drop(stale);
    log.plan(Plan::LostBefore);
    let lost = append(&mut log, 1, 0, &items);
    assert!(&rt; matches!(lost, Err(StepFault::Lost)));
    drop(lost);
    drop(items);
    drop(log);
}

// An empty log, and what is known of it.
fn started(alloc: Global) -> (LogWire<MemoryLog>, View)
    ensures view { IsViewOf (⟦<MemoryLog as MetaLog>⟧.log result.0.inner) result.1 }
    ensures first { IsViewOf (⟦<MemoryLog as MetaLog>⟧.log result.0.inner) new_view }
{
    (LogWire::new(MemoryLog::new(alloc)), View::new(alloc))
}

#[test]
fn a_read_of_the_log(rt: HostRuntime) {
    let alloc = rt.alloc();
    let (mut log, mut view) = started(alloc);
    let latest = View::new(alloc);
    made(&rt, read(&mut view, &mut log, &latest));
    assert!(&rt; view.position() == -1);
    drop(latest);
    drop(view);
    drop(log);
}
