//! A tree and a log of different clusters.
use crate::made::{Outcome, disk, ended};

static MIGRATION: &str = r#"{"event":"quorum","ids":[3000]}
{"event":"start","controller":3000}
{"event":"elect","controller":3000}
{"event":"turn","controller":3000}
"#;

static BROKER: &str = r#"{"zxid":9}
{"path":"/config"}
{"path":"/config/brokers"}
{"path":"/config/brokers/1","text":"{\"version\":1,\"config\":{\"a\":\"1\"}}"}
"#;

// The tree of a cluster with a broker's configuration records offset 5. The log of an empty cluster ends at 4, so it agrees at no path.
#[test]
fn a_path_that_disagrees_ends_a_check(rt: HostRuntime) {
    let alloc = rt.alloc();
    let script = MIGRATION.as_bytes();
    let empty = ended(
        &rt,
        alloc,
        &["init"],
        b"",
        disk(&rt, alloc),
        disk(&rt, alloc),
    );
    let Outcome { tree, log, .. } = empty;
    let migrated = ended(&rt, alloc, &["replay"], script, tree, log);
    let Outcome {
        tree: _,
        log: other,
        ..
    } = migrated;
    let loaded = ended(
        &rt,
        alloc,
        &["load"],
        BROKER.as_bytes(),
        disk(&rt, alloc),
        disk(&rt, alloc),
    );
    let Outcome { tree, log, .. } = loaded;
    let migrated = ended(&rt, alloc, &["replay"], script, tree, log);
    let Outcome { tree, log: _, .. } = migrated;
    let checked = ended(&rt, alloc, &["check"], b"", tree, other);
    assert!(rt; checked.code == 9);
    assert!(rt; checked.told.as_slice() == b"disagrees \"/brokers/topics\"".as_slice());
    assert!(rt; checked.out.is_empty());
}
