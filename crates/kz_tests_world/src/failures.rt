use kz_stream::{Failure, failure_of};
use kz_types::{Answer, DriverState, LogFault, Reply, Sequence, TreeFault};
use std::alloc::Global;
use std::process::Abort;

// Faults of the tree, and how an event fails by each.
static TREE_FAULTS: [(TreeFault, Option<Failure>); 6] = [
    (
        TreeFault::Refused {
            index: 1,
            code: -101,
        },
        None,
    ),
    (
        TreeFault::Limit {
            index: 0,
            number: 5,
        },
        None,
    ),
    (TreeFault::NoMemory, Some(Failure::NoMemory)),
    (TreeFault::Device, Some(Failure::TreeDisk)),
    (TreeFault::Down, Some(Failure::TreeDisk)),
    (TreeFault::Full { length: 9 }, Some(Failure::TreeFull)),
];

// Faults of the log, and how an event fails by each.
static LOG_FAULTS: [(LogFault, Option<Failure>); 6] = [
    (LogFault::Stale { epoch: 2 }, None),
    (LogFault::Limit { number: 8 }, None),
    (LogFault::NoMemory, Some(Failure::NoMemory)),
    (LogFault::Failed, Some(Failure::LogDisk)),
    (LogFault::Down, Some(Failure::LogDisk)),
    (LogFault::Full { length: 9 }, Some(Failure::LogFull)),
];

fn put(rt: &impl Abort, replies: &mut Sequence<Reply>, reply: Reply) {
    match replies.push(reply) {
        Ok(()) => {}
        Err(_) => panic!(rt; "no memory"),
    }
}

// Whether the event of this answer failed so.
fn fails_by(answer: Answer, wanted: Option<Failure>) -> bool {
    let failure = failure_of(&answer);
    drop(answer);
    failure == wanted
}

// A turn of a step that was made, and then these.
fn turn_of(rt: &impl Abort, alloc: Global, first: Reply, second: Reply) -> Answer {
    let mut replies = Sequence::new(alloc);
    put(rt, &mut replies, Reply::Moved(DriverState::Inactive));
    put(rt, &mut replies, first);
    put(rt, &mut replies, second);
    Answer::Turn(replies)
}

#[test]
fn an_answer_tells_how_its_event_failed(rt: HostRuntime) {
    let alloc = rt.alloc();
    for (fault, wanted) in &TREE_FAULTS {
        assert!(rt; fails_by(Answer::TreeFailed(*fault), *wanted));
        assert!(rt; fails_by(Answer::Step(Reply::TreeFailed(*fault)), *wanted));
        let turn = turn_of(&rt, alloc, Reply::Lost, Reply::TreeFailed(*fault));
        assert!(rt; fails_by(turn, *wanted));
    }
    for (fault, wanted) in &LOG_FAULTS {
        assert!(rt; fails_by(Answer::LogFailed(*fault), *wanted));
        assert!(rt; fails_by(Answer::Step(Reply::LogFailed(*fault)), *wanted));
        let turn = turn_of(&rt, alloc, Reply::Looked, Reply::LogFailed(*fault));
        assert!(rt; fails_by(turn, *wanted));
    }
    assert!(rt; fails_by(Answer::NoMemory, Some(Failure::NoMemory)));
    assert!(rt; fails_by(Answer::Step(Reply::NoMemory), Some(Failure::NoMemory)));
    assert!(rt; fails_by(Answer::Step(Reply::Expired), None));
    assert!(rt; fails_by(Answer::Done, None));
    assert!(rt;
        fails_by(
            Answer::Refused {
                index: 0,
                code: -110
            },
            None
        )
    );
}

#[test]
fn the_first_failing_step_of_a_turn_counts(rt: HostRuntime) {
    let alloc = rt.alloc();
    let device = Reply::TreeFailed(TreeFault::Device);
    let turn = turn_of(&rt, alloc, device, Reply::NoMemory);
    assert!(rt; fails_by(turn, Some(Failure::TreeDisk)));
    let refused = Reply::LogFailed(LogFault::Stale { epoch: 1 });
    let turn = turn_of(&rt, alloc, refused, Reply::LogFailed(LogFault::Down));
    assert!(rt; fails_by(turn, Some(Failure::LogDisk)));
    let turn = turn_of(&rt, alloc, Reply::Lost, Reply::Idle);
    assert!(rt; fails_by(turn, None));
}
