//! What is told of files that stand for an empty tree and an empty log, and how a command ends where it can't be told. Reports on
//! migrated clusters are tested over the whole program.
use kz_disk::MemoryDisk;
use kz_io::MemorySink;
use kz_reports::{Report, tell};
use kz_types::Status;
use std::alloc::Global;
use std::process::Abort;

// What a call gave, which must not have failed.
fn made<T: Drop, E: Drop>(rt: &impl Abort, outcome: Result<T, E>) -> T {
    match outcome {
        Ok(value) => value,
        Err(_) => panic!(rt; "a call failed"),
    }
}

// A disk that holds these bytes.
fn disk_of(rt: &impl Abort, alloc: Global, bytes: &[u8]) -> MemoryDisk {
    made(
        rt,
        MemoryDisk::new(alloc, made(rt, bytes.to_vec(alloc)), Vec::new(alloc)),
    )
}

static TREE: &[u8] = b"KZ-JOURNAL T 02\n\x00";

static LOG: &[u8] = b"KZ-JOURNAL L 02\n\x00";

// A report on these files ends so, prints this, and leaves the files. The writes with these numbers fail.
fn tells(
    rt: &impl Abort,
    alloc: Global,
    report: Report,
    files: (&[u8], &[u8]),
    fail: &[u64],
    status: &Status,
    text: &str,
) {
    let mut out = MemorySink::new(alloc, made(rt, fail.to_vec(alloc)), Vec::new(alloc));
    let (ended, tree, log) = tell(
        alloc,
        report,
        &mut out,
        disk_of(rt, alloc, files.0),
        disk_of(rt, alloc, files.1),
    );
    assert!(rt; ended == *status);
    assert!(rt; out.taken() == text.as_bytes());
    assert!(rt; tree.bytes() == files.0);
    assert!(rt; log.bytes() == files.1);
    drop(out);
    drop(tree);
    drop(log);
}

const ROOTS: &str = r#"{"body":"","path":"/brokers/topics"}
{"body":"","path":"/config/brokers"}
{"body":"","path":"/config/clients"}
{"body":"","path":"/config/ips"}
{"body":"","path":"/config/topics"}
{"body":"","path":"/config/users"}
{"body":"","path":"/kafka-acl-extended/prefixed/Cluster"}
{"body":"","path":"/kafka-acl-extended/prefixed/DelegationToken"}
{"body":"","path":"/kafka-acl-extended/prefixed/Group"}
{"body":"","path":"/kafka-acl-extended/prefixed/Topic"}
{"body":"","path":"/kafka-acl-extended/prefixed/TransactionalId"}
{"body":"","path":"/kafka-acl/Cluster"}
{"body":"","path":"/kafka-acl/DelegationToken"}
{"body":"","path":"/kafka-acl/Group"}
{"body":"","path":"/kafka-acl/Topic"}
{"body":"","path":"/kafka-acl/TransactionalId"}
{"body":"","path":"/latest_producer_id_block"}
"#;

static REPORTS: [(Report, &str); 5] = [
    (Report::DumpTree, "{\"sessions\":[],\"zxid\":0}\n"),
    (Report::DumpLog, "{\"base\":-1,\"end\":-1,\"epoch\":0}\n"),
    (Report::Render, ROOTS),
    (Report::Check, "unmigrated\n"),
    (
        Report::Figures,
        "zxid 0\nznodes 0\nepoch 0\nbase -1\nend -1\nmigration 0\nrecorded none\n",
    ),
];

#[test]
fn empty_files_are_told(rt: HostRuntime) {
    let alloc = rt.alloc();
    for (report, text) in &REPORTS {
        tells(&rt, alloc, *report, (TREE, LOG), &[], &Status::Done, text);
    }
}

#[test]
fn an_offset_after_the_end_is_refused(rt: HostRuntime) {
    let none = Status::NoOffset { base: -1, end: -1 };
    tells(
        &rt,
        rt.alloc(),
        Report::RenderAt { offset: 0 },
        (TREE, LOG),
        &[],
        &none,
        "",
    );
}

#[test]
fn a_failed_write_ends_a_report(rt: HostRuntime) {
    let alloc = rt.alloc();
    for (report, _) in &REPORTS {
        tells(
            &rt,
            alloc,
            *report,
            (TREE, LOG),
            &[0],
            &Status::WriteFault,
            "",
        );
    }
}

#[test]
fn a_damaged_file_is_told(rt: HostRuntime) {
    let damaged = Status::TreeDamaged { at: 0 };
    tells(
        &rt,
        rt.alloc(),
        Report::Figures,
        (b"", LOG),
        &[],
        &damaged,
        "",
    );
}
