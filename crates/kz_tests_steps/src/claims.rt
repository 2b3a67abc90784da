//! Each public call with ample memory, and each refusal. What a claim and a write are is compared with texts.
use kz_fence::{
    ClaimFault, Claimer, check_claim, claim_ops, claimed_number, claimed_version, write_ops,
};
use kz_types::{ClaimSeen, Op, Recorded, Row, Sequence, Text, ZPath};
use std::alloc::Global;
use std::process::Abort;

// What a call gave, which must not have failed.
fn made<T: Drop, E: Drop>(rt: &impl Abort, outcome: Result<T, E>) -> T {
    match outcome {
        Ok(value) => value,
        Err(_) => panic!(rt; "a call failed"),
    }
}

fn path_of(rt: &impl Abort, alloc: Global, text: &str) -> ZPath {
    made(rt, ZPath::new(alloc, text.as_bytes()))
}

// A znode that is seen: its body and its data version.
type RowText = Option<(&'static str, i32)>;

fn row_of(rt: &impl Abort, alloc: Global, path: &str, row: &RowText) -> Option<Row> {
    match row {
        None => None,
        Some((body, version)) => Some(Row {
            path: path_of(rt, alloc, path),
            body: Sequence::from_vec(made(rt, body.as_bytes().to_vec(alloc))),
            version: *version,
            owner: None,
            czxid: 1,
            mzxid: 1,
            pzxid: 1,
        }),
    }
}

// `/controller`, `/controller_epoch` and `/migration` as they are seen, and the base znodes that are there.
type SeenText = (RowText, RowText, RowText, [bool; 5]);

fn seen_of(rt: &impl Abort, alloc: Global, seen: &SeenText) -> ClaimSeen {
    let (control, epoch, migration, bases) = seen;
    ClaimSeen {
        control: row_of(rt, alloc, "/controller", control),
        epoch: row_of(rt, alloc, "/controller_epoch", epoch),
        migration: row_of(rt, alloc, "/migration", migration),
        bases: *bases,
    }
}

// The controller of the epoch 2.
fn claimer(migrated: bool) -> Claimer {
    Claimer {
        id: 3000,
        epoch: 2,
        now: 8,
        migrated,
    }
}

const HELD_2: &str = "{\"kraftControllerEpoch\":2}";

const HELD_3: &str = "{\"kraftControllerEpoch\":3}";

const HELD_BY_BROKER: &str = "{\"version\":1,\"brokerid\":1,\"timestamp\":\"0\"}";

const LAST: i32 = 2147483647;

const NONE: [bool; 5] = [false; 5];

// What is seen, whether the log is migrated, and what stands against the claim.
static CLAIMS: [(SeenText, bool, &str); 12] = [
    ((None, None, None, NONE), false, ""),
    ((Some((HELD_2, 0)), None, None, NONE), false, ""),
    ((Some((HELD_BY_BROKER, LAST)), None, None, NONE), false, ""),
    (
        (Some((HELD_3, 0)), Some(("x", LAST)), Some(("", LAST)), NONE),
        false,
        "higher 3",
    ),
    (
        (None, Some(("x", LAST)), Some(("", LAST)), NONE),
        false,
        "bad",
    ),
    ((None, Some(("", 0)), None, NONE), true, "bad"),
    (
        (None, Some(("2147483647", 0)), Some(("", LAST)), NONE),
        false,
        "/controller_epoch",
    ),
    (
        (None, Some(("1", LAST)), None, NONE),
        true,
        "/controller_epoch",
    ),
    (
        (None, Some(("2147483646", 2147483646)), None, NONE),
        true,
        "",
    ),
    ((None, None, Some(("", LAST)), NONE), false, "/migration"),
    ((None, None, Some(("", LAST)), NONE), true, ""),
    ((None, None, Some(("", 2147483646)), NONE), false, ""),
];

// Whether a claim is taken or refused as told.
fn is_told<T: Drop>(outcome: Result<T, ClaimFault>, told: &str) -> bool {
    match outcome {
        Ok(_) => told.is_empty(),
        Err(ClaimFault::HigherEpoch { epoch }) => told == "higher 3" && epoch == 3,
        Err(ClaimFault::BadEpochBody) => told == "bad",
        Err(ClaimFault::Limit { path }) => told == path.as_str(),
        Err(ClaimFault::NoMemory) => false,
    }
}

#[test]
fn what_stands_against_a_claim_is_told(rt: HostRuntime) {
    let alloc = rt.alloc();
    for (text, migrated, told) in &CLAIMS {
        let seen = seen_of(&rt, alloc, text);
        let own = claimer(*migrated);
        assert!(rt; is_told(check_claim(alloc, &seen, &own), told));
        assert!(rt; is_told(claim_ops(alloc, &seen, &own), told));
        drop(seen);
    }
}

// An operation: a word, a path, a body, and a version, which is 0 for a create.
type OpText = (&'static str, &'static str, &'static str, i32);

// Whether this is the operation.
fn is_op(op: &Op, wanted: &OpText) -> bool {
    let (word, text, written, number) = wanted;
    match op {
        Op::Create { path, body, owner } => {
            *word == "create"
                && path.as_str() == *text
                && body.as_slice() == written.as_bytes()
                && owner.is_none()
        }
        Op::Set {
            path,
            body,
            version,
        } => {
            *word == "set"
                && path.as_str() == *text
                && body.as_slice() == written.as_bytes()
                && version == number
        }
        Op::Delete { path, version } => {
            *word == "delete" && path.as_str() == *text && version == number
        }
        Op::Check { path, version } => {
            *word == "check" && path.as_str() == *text && version == number
        }
    }
}

fn are_ops(ops: &[Op], wanted: &[OpText]) -> bool {
    ops.len() == wanted.len() && ops.iter().zip(wanted).all(|(op, wanted)| is_op(op, wanted))
}

const HELD: &str =
    "{\"brokerid\":3000,\"kraftControllerEpoch\":2,\"timestamp\":\"8\",\"version\":2}";

const UNRECORDED: &str =
    "{\"kraft_controller_epoch\":2,\"kraft_controller_id\":3000,\"kraft_metadata_epoch\":-1,\"kraft_metadata_offset\":-1,\"version\":0}";

// The claim of a tree where nothing is there.
static FIRST: [OpText; 8] = [
    ("create", "/controller_epoch", "1", 0),
    ("create", "/controller", HELD, 0),
    ("create", "/migration", UNRECORDED, 0),
    ("create", "/brokers", "", 0),
    ("create", "/config", "", 0),
    ("create", "/kafka-acl", "", 0),
    ("create", "/kafka-acl-extended", "", 0),
    ("create", "/kafka-acl-extended/prefixed", "", 0),
];

// The tree of another controller, with some of the base znodes.
const OTHER: SeenText = (
    Some((HELD_BY_BROKER, 4)),
    Some(("5", 7)),
    Some(("", 3)),
    [true, true, false, true, false],
);

// The claim of that tree, while the log isn't migrated.
static NEXT: [OpText; 6] = [
    ("set", "/controller_epoch", "6", 7),
    ("delete", "/controller", "", 4),
    ("create", "/controller", HELD, 0),
    ("set", "/migration", UNRECORDED, -1),
    ("create", "/kafka-acl", "", 0),
    ("create", "/kafka-acl-extended/prefixed", "", 0),
];

// The claim of that tree on a migrated log.
static MIGRATED: [OpText; 5] = [
    ("set", "/controller_epoch", "6", 7),
    ("delete", "/controller", "", 4),
    ("create", "/controller", HELD, 0),
    ("create", "/kafka-acl", "", 0),
    ("create", "/kafka-acl-extended/prefixed", "", 0),
];

// Whether the claim of what is seen has these operations.
fn claims(rt: &impl Abort, alloc: Global, seen: &SeenText, migrated: bool, ops: &[OpText]) -> bool {
    let seen = seen_of(rt, alloc, seen);
    are_ops(&made(rt, claim_ops(alloc, &seen, &claimer(migrated))), ops)
}

#[test]
fn claims_are_multis(rt: HostRuntime) {
    let alloc = rt.alloc();
    assert!(rt; claims(&rt, alloc, &(None, None, None, NONE), false, &FIRST));
    assert!(rt; claims(&rt, alloc, &OTHER, false, &NEXT));
    assert!(rt; claims(&rt, alloc, &OTHER, true, &MIGRATED));
}

#[test]
fn a_claim_raises_the_epoch(rt: HostRuntime) {
    let alloc = rt.alloc();
    assert!(rt; made(&rt, claimed_number(alloc, None)) == 1);
    assert!(rt; claimed_version(None) == 0);
    let seen = seen_of(&rt, alloc, &OTHER);
    match check_claim(alloc, &seen, &claimer(false)) {
        Ok(()) => {
            assert!(rt; made(&rt, claimed_number(alloc, seen.epoch.as_ref())) == 6);
            assert!(rt; claimed_version(seen.epoch.as_ref()) == 8);
        }
        Err(_) => panic!(rt; "the claim is refused"),
    }
}

static CHECKED: OpText = ("check", "/controller_epoch", "", 7);

static RECORDED: OpText = (
    "set",
    "/migration",
    "{\"kraft_controller_epoch\":2,\"kraft_controller_id\":3000,\"kraft_metadata_epoch\":1,\"kraft_metadata_offset\":4,\"version\":0}",
    -1,
);

const TARGET: Recorded = Recorded {
    id: 3000,
    controller_epoch: 2,
    offset: 4,
    epoch: 1,
};

// Checks of `/x`, so many.
fn checks(rt: &impl Abort, alloc: Global, count: usize) -> Sequence<Op> {
    let mut ops = Sequence::new(alloc);
    for _ in 0..count {
        let check = Op::Check {
            path: path_of(rt, alloc, "/x"),
            version: 1,
        };
        made(rt, ops.push(check));
    }
    ops
}

// Whether the write begins with a check of the claim, and whether it ends with the offset.
fn is_write(ops: &[Op], is_last: bool) -> bool {
    match ops {
        [first, .., last] => is_op(first, &CHECKED) && is_op(last, &RECORDED) == is_last,
        _ => false,
    }
}

#[test]
fn writes_are_multis(rt: HostRuntime) {
    let alloc = rt.alloc();
    for count in [0, 1, 64] {
        let ops = checks(&rt, alloc, count);
        let last = made(&rt, write_ops(alloc, 7, ops.as_slice(), Some(&TARGET)));
        assert!(rt; last.len() == count + 2 && is_write(&last, true));
        drop(ops);
    }
    let ops = checks(&rt, alloc, 1);
    let more = made(&rt, write_ops(alloc, 7, ops.as_slice(), None));
    assert!(rt; more.len() == 2 && is_write(&more, false));
}
