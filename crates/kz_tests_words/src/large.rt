//! Long scripts and large trees.
use crate::made::{Outcome, disk, ended, made};
use std::alloc::Global;
use std::process::Abort;

// A generated script with 120 changes is replayed, and the tree is in step with the log after it.
#[test]
fn a_generated_script_is_replayed(rt: HostRuntime) {
    let alloc = rt.alloc();
    let written = ended(
        &rt,
        alloc,
        &["generate", "120"],
        b"",
        disk(&rt, alloc),
        disk(&rt, alloc),
    );
    assert!(rt; written.code == 0);
    let Outcome { out, tree, log, .. } = written;
    let Outcome { tree, log, .. } = ended(&rt, alloc, &["init"], b"", tree, log);
    let replayed = ended(&rt, alloc, &["replay"], &out, tree, log);
    assert!(rt; replayed.code == 0);
    let last = b"140 closed 125\nend events=140 steps=55 zxid=15 offset=125 recorded=125\n";
    assert!(rt; replayed.out.as_slice().ends_with(last.as_slice()));
}

// A line of a load.
fn push_line(rt: &impl Abort, alloc: Global, lines: &mut Vec<u8>, path: &str, text: &str) {
    let line = made(
        rt,
        format!(in alloc; "{{\"path\":\"{path}\",\"text\":\"{text}\"}}\n"),
    );
    made(rt, lines.extend_from_slice(line.as_bytes()));
}

// The lines of a cluster with so many topics of one partition each, up to 900 of them.
fn cluster(rt: &impl Abort, alloc: Global, topics: u16) -> Vec<u8> {
    let mut lines = made(rt, b"{\"zxid\":9}\n".to_vec(alloc));
    push_line(rt, alloc, &mut lines, "/brokers", "");
    push_line(rt, alloc, &mut lines, "/brokers/topics", "");
    for topic in 0..topics {
        let number = topic.saturating_add(100);
        let path = made(rt, format!(in alloc; "/brokers/topics/t{number}"));
        let body = made(
            rt,
            format!(in alloc;
                "{{\\\"version\\\":3,\\\"partitions\\\":{{\\\"0\\\":[1]}},\\\"topic_id\\\":\\\"AAAAAAAAAA{number}AAAAAAAAA\\\"}}"
            ),
        );
        push_line(rt, alloc, &mut lines, path.as_str(), body.as_str());
    }
    lines
}

static MIGRATION: &str = r#"{"event":"quorum","ids":[3000]}
{"event":"start","controller":3000}
{"event":"elect","controller":3000}
{"event":"turn","controller":3000}
{"event":"check"}
"#;

// A cluster of 200 topics is loaded, migrated and dumped. A load of what was dumped gives the same dump.
#[test]
fn a_dump_is_loaded_again(rt: HostRuntime) {
    let alloc = rt.alloc();
    let lines = cluster(&rt, alloc, 200);
    let loaded = ended(
        &rt,
        alloc,
        &["load"],
        &lines,
        disk(&rt, alloc),
        disk(&rt, alloc),
    );
    assert!(rt; loaded.code == 0);
    let Outcome { tree, log, .. } = loaded;
    let migrated = ended(&rt, alloc, &["replay"], MIGRATION.as_bytes(), tree, log);
    assert!(rt; migrated.code == 0);
    let Outcome { tree, log, .. } = migrated;
    let dumped = ended(&rt, alloc, &["dump-tree"], b"", tree, log);
    assert!(rt; dumped.code == 0);
    let again = ended(
        &rt,
        alloc,
        &["load"],
        &dumped.out,
        disk(&rt, alloc),
        disk(&rt, alloc),
    );
    assert!(rt; again.code == 0);
    let Outcome { tree, log, .. } = again;
    let same = ended(&rt, alloc, &["dump-tree"], b"", tree, log);
    assert!(rt; same.out.as_slice() == dumped.out.as_slice());
    assert!(rt; same.out.len() > 100_000);
}
