use kz_disk::{Disk, MemoryDisk, StopDisk};
use kz_io::{Failed, MemorySink, MemorySource, Sink, Source};
use kz_replay::{Status, code, run, text};
use kz_types::LogWhy;
use std::alloc::{AllocError, Global};
use std::process::Abort;

// What a call gave, which must not have failed.
fn made<T: Drop, E: Drop>(rt: &impl Abort, outcome: Result<T, E>) -> T {
    match outcome {
        Ok(value) => value,
        Err(_) => panic!(rt; "a call failed"),
    }
}

// A controller migrates an empty cluster.
const MIGRATION: &str = r#"{"event":"quorum","ids":[3000]}
{"event":"start","controller":3000}
{"event":"elect","controller":3000}
{"event":"turn","controller":3000}
"#;

const MIGRATED: &str = "1 done
2 done
3 elected 1 1
4 moved WAIT_FOR_BROKERS
4 looked
4 moved BECOME_CONTROLLER
4 looked
4 claimed 1
4 read 0
4 appended 2
4 appended 4
4 looked
4 read 0
4 recorded 4
4 moved DUAL_WRITE
4 idle
";

const CHECK: &str = r#"{"event":"check"}
"#;

const TURN: &str = r#"{"event":"turn","controller":3000}
"#;

const STEP: &str = r#"{"event":"step","controller":3000}
"#;

const CHANGE: &str =
    r#"{"event":"change","controller":3000,"records":[{"kind":"Config","resourceType":4,"resourceName":"1","name":"a","value":"1"}]}
"#;

// These words.
fn words_of(rt: &impl Abort, alloc: Global, list: &[&str]) -> Vec<String> {
    let mut words = Vec::new(alloc);
    for word in list {
        made(rt, words.push(made(rt, String::from_str(alloc, word))));
    }
    words
}

// A part of a text, and how often it stands there.
type Part = (&'static str, usize);

fn join(alloc: Global, parts: &[Part]) -> Result<String, AllocError> {
    let mut whole = String::new(alloc);
    for (part, times) in parts {
        for _ in 0..*times {
            whole.push_str(part)?;
        }
    }
    Ok(whole)
}

// These parts, one after another.
fn joined(rt: &impl Abort, alloc: Global, parts: &[Part]) -> String {
    made(rt, join(alloc, parts))
}

// The numbers of reads and writes that fail, and of writes that take nothing.
type Failures = (&'static [u64], &'static [u64], &'static [u64]);

const NONE: Failures = (&[], &[], &[]);

// A disk that holds these bytes. The calls with these numbers fail.
fn disk_of(rt: &impl Abort, alloc: Global, bytes: &[u8], fail: &[u64]) -> MemoryDisk {
    let bytes = made(rt, bytes.to_vec(alloc));
    made(
        rt,
        MemoryDisk::new(alloc, bytes, made(rt, fail.to_vec(alloc))),
    )
}

// Both disks after `init` on two empty ones.
fn empty_files(rt: &impl Abort, alloc: Global) -> (MemoryDisk, MemoryDisk) {
    let tree = disk_of(rt, alloc, b"", &[]);
    let log = disk_of(rt, alloc, b"", &[]);
    runs(rt, alloc, "init", "", tree, log, Status::Done, "")
}

// This command on these disks, with this script as input, ends with this status and prints these lines. Gives the disks back.
fn runs<D: Disk + Drop, E: Disk + Drop>(
    rt: &impl Abort,
    alloc: Global,
    word: &str,
    script: &str,
    tree: D,
    log: E,
    status: Status,
    lines: &str,
) -> (D, E) {
    let script = made(rt, script.as_bytes().to_vec(alloc));
    let mut input = MemorySource::new(script, Vec::new(alloc));
    let mut out = MemorySink::new(alloc, Vec::new(alloc), Vec::new(alloc));
    let words = words_of(rt, alloc, &[word]);
    let (ended, tree, log) = run(alloc, &words, &mut input, &mut out, tree, log);
    assert!(rt; ended == status);
    assert!(rt; out.taken() == lines.as_bytes());
    drop(words);
    drop(input);
    drop(out);
    (tree, log)
}

// A run of this script on an empty tree and an empty log ends with this status and these replies, where these reads and writes
// fail.
fn replays(
    rt: &impl Abort,
    alloc: Global,
    script: String,
    failures: &Failures,
    status: &Status,
    replies: String,
) {
    let (reads, writes, none) = failures;
    let reads = made(rt, reads.to_vec(alloc));
    let mut input = MemorySource::new(script.into_bytes(), reads);
    let writes = made(rt, writes.to_vec(alloc));
    let mut out = MemorySink::new(alloc, writes, made(rt, none.to_vec(alloc)));
    let words = words_of(rt, alloc, &["replay"]);
    let (tree, log) = empty_files(rt, alloc);
    let (ended, tree, log) = run(alloc, &words, &mut input, &mut out, tree, log);
    assert!(rt; ended == *status);
    assert!(rt; out.taken() == replies.as_bytes());
    drop(words);
    drop(input);
    drop(out);
    drop(tree);
    drop(log);
}

// Scripts, how their runs end, and the replies.
const SCRIPTS: [(&[Part], Status, &[Part]); 7] = [
    (
        &[(MIGRATION, 1), (CHECK, 1)],
        Status::Done,
        &[
            (MIGRATED, 1),
            (
                "5 closed 4\nend events=5 steps=13 zxid=2 offset=4 recorded=4\n",
                1,
            ),
        ],
    ),
    (
        &[
            (MIGRATION, 1),
            (CHECK, 1),
            (CHANGE, 1),
            (CHECK, 1),
            (TURN, 1),
            (CHECK, 1),
        ],
        Status::Done,
        &[
            (MIGRATED, 1),
            (
                "5 closed 4\n6 appended 5\n7 closed 4\n8 looked\n8 recorded 5\n8 idle\n9 closed 5\n",
                1,
            ),
            ("end events=9 steps=16 zxid=3 offset=5 recorded=5\n", 1),
        ],
    ),
    (
        &[
            ("{\"event\":\"quorum\",\"ids\":[3000]}\n", 1),
            ("{\"event\":\"start\",\"controller\":3001}\n", 1),
            ("{\"event\":\"start\",\"controller\":3000}\n", 2),
            (CHANGE, 1),
        ],
        Status::Done,
        &[(
            "1 done\n2 unknown-controller\n3 done\n4 already-running\n5 not-leader\nend events=5 steps=0 zxid=0 offset=-1 recorded=none\n",
            1,
        )],
    ),
    (
        &[("{\"event\":\"none\"}\n", 1)],
        Status::Script { line: 1 },
        &[],
    ),
    (
        &[],
        Status::Done,
        &[("end events=0 steps=0 zxid=0 offset=-1 recorded=none\n", 1)],
    ),
    (
        &[("\n# a comment\n{\"event\":\"check\"}", 1)],
        Status::Done,
        &[(
            "3 unmigrated\nend events=1 steps=0 zxid=0 offset=-1 recorded=none\n",
            1,
        )],
    ),
    (&[("# a comment\n\n{}", 1)], Status::Script { line: 3 }, &[]),
];

#[test]
fn scripts_have_their_replies(rt: HostRuntime) {
    let alloc = rt.alloc();
    let scripts = SCRIPTS;
    for (script, status, replies) in &scripts {
        let script = joined(&rt, alloc, script);
        let replies = joined(&rt, alloc, replies);
        replays(&rt, alloc, script, &NONE, status, replies);
    }
}

#[test]
fn a_status_has_a_code_and_a_text(rt: HostRuntime) {
    let status = Status::Script { line: 3 };
    assert!(rt; code(&status) == 2);
    let told = made(&rt, text(rt.alloc(), &status));
    assert!(rt; told.as_slice() == b"script line 3".as_slice());
}

const LONG_CHANGE: &str =
    "{\"event\":\"change\",\"controller\":3000,\"records\":[{\"kind\":\"Config\",\"resourceType\":4,\"resourceName\":\"1\",\"name\":";

static LONG_BODIES: [(usize, &str); 2] = [
    (
        448_537,
        "5 appended 5\n6 appended 6\n7 looked\n7 recorded 6\n7 idle\nend events=7 steps=16 zxid=3 offset=6 recorded=6\n",
    ),
    (
        448_538,
        "5 appended 5\n6 over 2\n7 looked\n7 recorded 5\n7 idle\nend events=7 steps=16 zxid=3 offset=5 recorded=5\n",
    ),
];

#[test]
fn a_body_has_at_most_1048575_bytes(rt: HostRuntime) {
    let alloc = rt.alloc();
    for (size, replies) in &LONG_BODIES {
        let script = [
            (MIGRATION, 1),
            (LONG_CHANGE, 1),
            ("\"a\",\"value\":\"", 1),
            ("x", 600_000),
            ("\"}]}\n", 1),
            (LONG_CHANGE, 1),
            ("\"b\",\"value\":\"", 1),
            ("x", *size),
            ("\"}]}\n", 1),
            (TURN, 1),
        ];
        let script = joined(&rt, alloc, &script);
        let replies = joined(&rt, alloc, &[(MIGRATED, 1), (*replies, 1)]);
        replays(&rt, alloc, script, &NONE, &Status::Done, replies);
    }
}

// More than one piece.
static PIECES: [Part; 6] = [
    (MIGRATION, 1),
    (CHECK, 1),
    ("#", 1),
    ("x", 5_000),
    ("\n", 1),
    (CHECK, 1),
];

const BEGUN: &[Part] = &[("1 done\n2 done\n3 elected 1 1\n", 1)];

const FIRST: &[Part] = &[(MIGRATED, 1), ("5 closed 4\n", 1)];

const SECOND: &[Part] = &[(MIGRATED, 1), ("5 closed 4\n7 closed 4\n", 1)];

const FAILING: [(Failures, Status, &[Part]); 8] = [
    ((&[0], &[], &[]), Status::ReadFault, &[]),
    ((&[1], &[], &[]), Status::ReadFault, FIRST),
    ((&[2], &[], &[]), Status::ReadFault, SECOND),
    ((&[], &[0], &[]), Status::WriteFault, &[]),
    ((&[], &[3], &[]), Status::WriteFault, BEGUN),
    ((&[], &[], &[3]), Status::WriteFault, BEGUN),
    ((&[], &[], &[5]), Status::WriteFault, FIRST),
    ((&[], &[6], &[]), Status::WriteFault, SECOND),
];

#[test]
fn a_side_that_fails_ends_the_run(rt: HostRuntime) {
    let alloc = rt.alloc();
    let failing = FAILING;
    for (failures, status, replies) in &failing {
        let script = joined(&rt, alloc, &PIECES);
        let replies = joined(&rt, alloc, replies);
        replays(&rt, alloc, script, failures, status, replies);
    }
}

// A source that gives a byte in each read.
#[derive(Drop)]
struct SingleBytes {
    bytes: Vec<u8>,
    at: usize,
}

impl Source for SingleBytes {
    ghost use Rattle.std.specs.Prelude.{None, false};

    ghost left = { λ _. None };

    ghost faults = { λ _. 0 };

    ghost last_failed = { λ _. false };

    fn read(&mut self, buf: &mut [u8]) -> Result<usize, Failed> {
        if self.at < self.bytes.len() && !buf.is_empty() {
            buf[0] = self.bytes[self.at];
            self.at += 1;
            return Ok(1);
        }
        Ok(0)
    }
}

static SINGLE: [Part; 6] = [
    (MIGRATION, 1),
    ("\n# a comment\n", 1),
    (CHANGE, 1),
    (TURN, 1),
    (CHECK, 1),
    ("{\"event\":\"check\"}", 1),
];

static SINGLE_REPLIES: [Part; 2] = [
    (MIGRATED, 1),
    (
        "7 appended 5\n8 looked\n8 recorded 5\n8 idle\n9 closed 5\n10 closed 5\nend events=8 steps=16 zxid=3 offset=5 recorded=5\n",
        1,
    ),
];

// The replies to the lines that have ended.
static WHOLE_REPLIES: [Part; 2] = [
    (MIGRATED, 1),
    (
        "7 appended 5\n8 looked\n8 recorded 5\n8 idle\n9 closed 5\n",
        1,
    ),
];

#[test]
fn at_a_failed_read_whole_lines_have_their_replies(rt: HostRuntime) {
    let alloc = rt.alloc();
    let failures: Failures = (&[1], &[], &[]);
    let script = joined(&rt, alloc, &SINGLE);
    let replies = joined(&rt, alloc, &WHOLE_REPLIES);
    replays(&rt, alloc, script, &failures, &Status::ReadFault, replies);
}

#[test]
fn pieces_of_one_byte_change_nothing(rt: HostRuntime) {
    let alloc = rt.alloc();
    let script = joined(&rt, alloc, &SINGLE);
    let replies = joined(&rt, alloc, &SINGLE_REPLIES);
    replays(&rt, alloc, script, &NONE, &Status::Done, replies);
    let mut input = SingleBytes {
        bytes: joined(&rt, alloc, &SINGLE).into_bytes(),
        at: 0,
    };
    let mut out = MemorySink::new(alloc, Vec::new(alloc), Vec::new(alloc));
    let words = words_of(&rt, alloc, &["replay"]);
    let (tree, log) = empty_files(&rt, alloc);
    let (status, tree, log) = run(alloc, &words, &mut input, &mut out, tree, log);
    let replies = joined(&rt, alloc, &SINGLE_REPLIES);
    drop(tree);
    drop(log);
    assert!(rt; status == Status::Done);
    assert!(rt; out.taken() == replies.as_bytes());
    drop(words);
    drop(input);
    drop(out);
}

static OTHER_WORDS: [&[&str]; 6] = [
    &[],
    &[""],
    &["init", "x"],
    &["Replay"],
    &["replay "],
    &["replay", "replay"],
];

// Whether both sides are as they were: their first calls are still to come, and fail.
fn are_untouched(mut input: MemorySource, mut out: MemorySink) -> bool {
    let mut piece = [0u8; 1];
    input.read(&mut piece).is_err() && out.write(b"x").is_err() && out.taken().is_empty()
}

#[test]
fn other_words_touch_nothing(rt: HostRuntime) {
    let alloc = rt.alloc();
    for list in &OTHER_WORDS {
        let words = words_of(&rt, alloc, list);
        let script = made(&rt, MIGRATION.as_bytes().to_vec(alloc));
        let mut input = MemorySource::new(script, made(&rt, [0].to_vec(alloc)));
        let mut out = MemorySink::new(alloc, made(&rt, [0].to_vec(alloc)), Vec::new(alloc));
        let tree = disk_of(&rt, alloc, b"", &[]);
        let log = disk_of(&rt, alloc, b"", &[]);
        let (status, tree, log) = run(alloc, &words, &mut input, &mut out, tree, log);
        assert!(rt; status == Status::Usage);
        assert!(rt; are_untouched(input, out));
        assert!(rt; tree.bytes().is_empty() && log.bytes().is_empty());
        drop(tree);
        drop(log);
        drop(words);
    }
}

const LIMIT: Status = Status::Limit {
    which: 10,
    number: 2_097_152,
};

const LONG_LINES: [(usize, &str, Status, &str); 4] = [
    (
        2_097_151,
        "\n{\"event\":\"check\"}\n",
        Status::Done,
        "1 unmigrated\n3 unmigrated\nend events=2 steps=0 zxid=0 offset=-1 recorded=none\n",
    ),
    (
        2_097_151,
        "",
        Status::Done,
        "1 unmigrated\nend events=1 steps=0 zxid=0 offset=-1 recorded=none\n",
    ),
    (
        2_097_152,
        "\n{\"event\":\"check\"}\n",
        LIMIT,
        "1 unmigrated\n",
    ),
    (2_097_152, "", LIMIT, "1 unmigrated\n"),
];

#[test]
fn a_line_has_at_most_2097152_bytes(rt: HostRuntime) {
    let alloc = rt.alloc();
    let lines = LONG_LINES;
    for (size, rest, status, replies) in &lines {
        let script = joined(
            &rt,
            alloc,
            &[(CHECK, 1), ("#", 1), ("x", *size), (*rest, 1)],
        );
        let replies = joined(&rt, alloc, &[(*replies, 1)]);
        replays(&rt, alloc, script, &NONE, status, replies);
    }
}

// A script that changes the configurations of so many brokers, and then writes them, with a check after the first write, and
// elects anew.
fn many_changes(alloc: Global, count: u32) -> Result<String, AllocError> {
    let mut script = String::from_str(alloc, MIGRATION)?;
    for broker in 0..count {
        let line = format!(in alloc;
            "{{\"event\":\"change\",\"controller\":3000,\"records\":[{{\"kind\":\"Config\",\"resourceType\":4,\"resourceName\":\"{broker}\",\"name\":\"a\",\"value\":\"1\"}}]}}\n"
        )?;
        script.push_str(&line)?;
    }
    script.push_str(STEP)?;
    script.push_str(STEP)?;
    script.push_str(CHECK)?;
    script.push_str(TURN)?;
    script.push_str(CHECK)?;
    script.push_str("{\"event\":\"elect\",\"controller\":3000}\n")?;
    script.push_str(TURN)?;
    script.push_str(CHECK)?;
    Ok(script)
}

// The replies to these changes.
fn many_replies(alloc: Global, count: u32) -> Result<String, AllocError> {
    let mut replies = String::from_str(alloc, MIGRATED)?;
    for broker in 0..count {
        let line = u64::from(broker) + 5;
        replies.push_str(&format!(in alloc; "{line} appended {line}\n")?)?;
    }
    replies.push_str(
        "305 looked\n306 wrote 64\n307 ahead 4 64\n308 wrote 64\n308 wrote 64\n308 wrote 64\n308 recorded 304\n308 idle\n309 closed 304\n310 elected 2 305\n311 moved BECOME_CONTROLLER\n311 looked\n311 claimed 2\n311 looked\n311 read 256\n311 read 61\n311 recorded 305\n311 moved DUAL_WRITE\n311 idle\n312 closed 305\nend events=312 steps=29 zxid=9 offset=305 recorded=305\n",
    )?;
    Ok(replies)
}

#[test]
fn writes_go_in_chunks_and_reads_in_pages(rt: HostRuntime) {
    let alloc = rt.alloc();
    let script = made(&rt, many_changes(alloc, 300));
    let replies = made(&rt, many_replies(alloc, 300));
    replays(&rt, alloc, script, &NONE, &Status::Done, replies);
}

const CHECKED: &str = "1 closed 4\nend events=1 steps=0 zxid=2 offset=4 recorded=4\n";

const EMPTY_END: &str = "end events=0 steps=0 zxid=0 offset=-1 recorded=none\n";

const EARLIER_END: &str = "end events=0 steps=0 zxid=2 offset=2 recorded=4\n";

const MIGRATED_END: &str = "1 done
2 done
3 elected 1 1
4 moved WAIT_FOR_BROKERS
4 looked
4 moved BECOME_CONTROLLER
4 looked
4 claimed 1
4 read 0
4 appended 2
4 appended 4
4 looked
4 read 0
4 recorded 4
4 moved DUAL_WRITE
4 idle
end events=4 steps=13 zxid=2 offset=4 recorded=4
";

// Files after the migration of an empty cluster, that begin with these bytes.
fn migrated_files(
    rt: &impl Abort,
    alloc: Global,
    tree: &[u8],
    log: &[u8],
) -> (MemoryDisk, MemoryDisk) {
    let tree = disk_of(rt, alloc, tree, &[]);
    let log = disk_of(rt, alloc, log, &[]);
    let (tree, log) = runs(rt, alloc, "init", "", tree, log, Status::Done, "");
    runs(
        rt,
        alloc,
        "replay",
        MIGRATION,
        tree,
        log,
        Status::Done,
        MIGRATED_END,
    )
}

#[test]
fn files_are_made_once(rt: HostRuntime) {
    let alloc = rt.alloc();
    let (tree, log) = empty_files(&rt, alloc);
    let (tree, log) = runs(&rt, alloc, "init", "", tree, log, Status::Done, "");
    let (tree, log) = runs(&rt, alloc, "replay", "", tree, log, Status::Done, EMPTY_END);
    let (tree, log) = runs(
        &rt,
        alloc,
        "replay",
        MIGRATION,
        tree,
        log,
        Status::Done,
        MIGRATED_END,
    );
    let (tree, log) = runs(&rt, alloc, "init", "", tree, log, Status::NotEmpty, "");
    let (tree, log) = runs(
        &rt,
        alloc,
        "replay",
        CHECK,
        tree,
        log,
        Status::Done,
        CHECKED,
    );
    drop(tree);
    drop(log);
}

#[test]
fn files_without_a_header_are_damaged(rt: HostRuntime) {
    let alloc = rt.alloc();
    let tree = disk_of(&rt, alloc, b"", &[]);
    let log = disk_of(&rt, alloc, b"", &[]);
    let damaged = Status::TreeDamaged { at: 0 };
    let (tree, log) = runs(&rt, alloc, "replay", CHECK, tree, log, damaged, "");
    assert!(rt; tree.bytes().is_empty() && log.bytes().is_empty());
    drop(tree);
    drop(log);
}

#[test]
fn a_disk_that_fails_is_told(rt: HostRuntime) {
    let alloc = rt.alloc();
    let (tree, log) = empty_files(&rt, alloc);
    let failing = disk_of(&rt, alloc, tree.bytes(), &[0]);
    let (failing, log) = runs(
        &rt,
        alloc,
        "replay",
        MIGRATION,
        failing,
        log,
        Status::TreeFault,
        "",
    );
    drop(failing);
    let failing = disk_of(&rt, alloc, log.bytes(), &[0]);
    let (tree, failing) = runs(
        &rt,
        alloc,
        "replay",
        MIGRATION,
        tree,
        failing,
        Status::LogFault,
        "",
    );
    drop(tree);
    drop(failing);
    drop(log);
}

// The log's file of `migrated_files`, changed at a place.
fn changed_log(
    rt: &impl Abort,
    alloc: Global,
    log: &MemoryDisk,
    at: usize,
    byte: u8,
) -> MemoryDisk {
    let mut bytes = made(rt, log.bytes().to_vec(alloc));
    if at < bytes.len() {
        bytes[at] = byte;
    }
    let log = disk_of(rt, alloc, &bytes, &[]);
    drop(bytes);
    log
}

// The first bytes of a file, which has as many.
fn front_of<'a>(rt: &impl Abort, bytes: &'a [u8], end: usize) -> &'a [u8] {
    assert!(rt; end <= bytes.len());
    &bytes[..end]
}

#[test]
fn a_torn_frame_is_left_out_and_a_changed_one_is_told(rt: HostRuntime) {
    let alloc = rt.alloc();
    let (tree, log) = migrated_files(&rt, alloc, b"", b"");
    // the last frame's gate stands at byte 207 and its last byte at 300; the next gate is closed
    assert!(rt; log.bytes().len() == 302);
    let cut = disk_of(&rt, alloc, front_of(&rt, log.bytes(), 300), &[]);
    let (tree, cut) = runs(
        &rt,
        alloc,
        "replay",
        "",
        tree,
        cut,
        Status::Done,
        EARLIER_END,
    );
    let closed = changed_log(&rt, alloc, &log, 207, 0x7F);
    let (tree, closed) = runs(
        &rt,
        alloc,
        "replay",
        "",
        tree,
        closed,
        Status::Done,
        EARLIER_END,
    );
    drop(cut);
    drop(closed);
    let sum = Status::LogDamaged {
        at: 207,
        why: LogWhy::Sum,
    };
    let changed = changed_log(&rt, alloc, &log, 300, 1);
    let (tree, changed) = runs(&rt, alloc, "replay", CHECK, tree, changed, sum, "");
    drop(tree);
    drop(changed);
    drop(log);
}

const PLAIN_TREE: &[u8] = b"KZ-JOURNAL T 01\n\x00";

const PLAIN_LOG: &[u8] = b"KZ-JOURNAL L 01\n\x00";

#[test]
fn old_files_are_sealed_once(rt: HostRuntime) {
    let alloc = rt.alloc();
    let (tree, log) = migrated_files(&rt, alloc, PLAIN_TREE, PLAIN_LOG);
    let (tree, log) = runs(&rt, alloc, "upgrade", "", tree, log, Status::Done, "");
    let (tree_size, log_size) = (tree.bytes().len(), log.bytes().len());
    let (tree, log) = runs(&rt, alloc, "upgrade", "", tree, log, Status::Done, "");
    assert!(rt; tree.bytes().len() == tree_size && log.bytes().len() == log_size);
    let (tree, log) = runs(
        &rt,
        alloc,
        "replay",
        CHECK,
        tree,
        log,
        Status::Done,
        CHECKED,
    );
    drop(tree);
    drop(log);
}

#[test]
fn a_seal_has_nine_bytes(rt: HostRuntime) {
    let alloc = rt.alloc();
    let tree = disk_of(&rt, alloc, PLAIN_TREE, &[]);
    let log = disk_of(&rt, alloc, PLAIN_LOG, &[]);
    let (tree, log) = runs(&rt, alloc, "upgrade", "", tree, log, Status::Done, "");
    assert!(rt; tree.bytes().len() == 26 && log.bytes().len() == 26);
    assert!(rt; tree.bytes()[16..21] == [0xA5, 0xFF, 0xFF, 0xFF, 0xFF]);
    let mut bytes = made(&rt, tree.bytes().to_vec(alloc));
    assert!(rt; bytes.len() > 21);
    bytes[21] ^= 1;
    let changed = disk_of(&rt, alloc, &bytes, &[]);
    let damaged = Status::TreeDamaged { at: 16 };
    let (changed, log) = runs(&rt, alloc, "replay", CHECK, changed, log, damaged, "");
    drop(bytes);
    drop(changed);
    drop(tree);
    drop(log);
}

// An upgrade in which both machines stop after so many calls of their disks. What is left stands for the same tree and log.
fn stops_in_an_upgrade(rt: &impl Abort, alloc: Global, calls: u64) {
    let (tree, log) = migrated_files(rt, alloc, PLAIN_TREE, PLAIN_LOG);
    let mut input = MemorySource::new(Vec::new(alloc), Vec::new(alloc));
    let mut out = MemorySink::new(alloc, Vec::new(alloc), Vec::new(alloc));
    let words = words_of(rt, alloc, &["upgrade"]);
    let tree = StopDisk::new(tree, calls);
    let log = StopDisk::new(log, calls);
    let (_, tree, log) = run(alloc, &words, &mut input, &mut out, tree, log);
    let (tree, log) = (tree.into_disk(), log.into_disk());
    let (tree, log) = runs(rt, alloc, "upgrade", "", tree, log, Status::Done, "");
    let (tree, log) = runs(rt, alloc, "replay", CHECK, tree, log, Status::Done, CHECKED);
    drop(words);
    drop(input);
    drop(out);
    drop(tree);
    drop(log);
}

#[test]
fn a_stop_in_an_upgrade_leaves_tree_and_log(rt: HostRuntime) {
    for calls in 0..30u64 {
        stops_in_an_upgrade(&rt, rt.alloc(), calls);
    }
}
