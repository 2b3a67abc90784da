use kz_io::MemorySink;
use kz_stream::{Machine, Stop, Stream, stop_status};
use kz_types::{Answer, Event, LogFault, NoMemory, Reply, Sequence, Status, TreeFault};
use std::alloc::Global;
use std::process::Abort;

// What a call gave, which must not have failed.
fn made<T: Drop, E: Drop>(rt: &impl Abort, outcome: Result<T, E>) -> T {
    match outcome {
        Ok(value) => value,
        Err(_) => panic!(rt; "a call failed"),
    }
}

// An answer of a machine.
#[derive(Clone, Copy)]
enum Said {
    Done,
    // A step that has looked.
    Step,
    // A step that has looked, and one of which this is the fault of the log.
    Turn(LogFault),
    Tree(TreeFault),
    Log(LogFault),
    NoMemory,
}

// A machine that answers the events one after another by this list, and all others by `Done`. The world that it tells is none that
// is sound, so that it may answer as it likes.
#[derive(Drop)]
struct Listed {
    alloc: Global,
    answers: &'static [Said],
    events: usize,
}

fn turn_of(alloc: Global, fault: LogFault) -> Answer {
    let mut replies = Sequence::new(alloc);
    if replies.push(Reply::Looked).is_err() || replies.push(Reply::LogFailed(fault)).is_err() {
        return Answer::NoMemory;
    }
    Answer::Turn(replies)
}

impl Listed {
    // The answer to the event of this number, counted from 0.
    fn answer(&self, at: usize) -> Answer {
        if at >= self.answers.len() {
            return Answer::Done;
        }
        match self.answers[at] {
            Said::Done => Answer::Done,
            Said::Step => Answer::Step(Reply::Looked),
            Said::Turn(fault) => turn_of(self.alloc, fault),
            Said::Tree(fault) => Answer::TreeFailed(fault),
            Said::Log(fault) => Answer::LogFailed(fault),
            Said::NoMemory => Answer::NoMemory,
        }
    }
}

impl Machine for Listed {
    ghost use Rattle.std.specs.Prelude.{[], negsuc};
    ghost use Rattle.kz_spec_data.specs.Log.{empty_log};
    ghost use Rattle.kz_spec_data.specs.Requests.{no_disk};

    ghost world = { λ _. record { shared = record { tree = record { zxid = negsuc 0; sessions = []; rows = [] }; log = empty_log; declared = [] }; drivers = [] } };

    ghost disks = { λ _. record { tree = no_disk; log = no_disk } };

    ghost tree_left = { λ _ _. ⊥ };

    ghost log_left = { λ _ _. ⊥ };

    ghost settled = { λ _ _. (λ _ none. absurd none, λ _ none. absurd none) };

    fn event(&mut self, _event: &Event) -> Answer {
        let at = self.events;
        self.events = at.saturating_add(1);
        self.answer(at)
    }

    fn zxid(&self) -> i64 {
        -1
    }

    fn end(&self) -> i64 {
        -1
    }

    fn recorded(&self) -> Result<Option<i64>, NoMemory> {
        Ok(None)
    }
}

// Feeds a script to a stream: whole, or a byte at a time.
fn feed(
    stream: &mut Stream<Listed>,
    out: &mut MemorySink,
    script: &[u8],
    single: bool,
) -> Result<(), Stop> {
    if !single {
        return stream.feed(script, out);
    }
    for byte in script {
        match stream.feed(&[*byte], out) {
            Ok(()) => {}
            Err(stop) => return Err(stop),
        }
    }
    Ok(())
}

// A run of a script: the answers of its machine, the numbers of writes that fail and of those that take nothing, the status with
// which it ends, what it writes, and how many events its machine was asked.
#[derive(Drop)]
struct Run {
    script: &'static str,
    answers: &'static [Said],
    fail: &'static [u64],
    none: &'static [u64],
    status: Status,
    text: &'static str,
    events: usize,
}

fn runs(rt: &impl Abort, alloc: Global, script: &[u8], single: bool, run: &Run) {
    let fail = made(rt, run.fail.to_vec(alloc));
    let none = made(rt, run.none.to_vec(alloc));
    let mut out = MemorySink::new(alloc, fail, none);
    let machine = Listed {
        alloc,
        answers: run.answers,
        events: 0,
    };
    let mut stream = Stream::new(alloc, machine);
    let fed = feed(&mut stream, &mut out, script, single);
    let (ended, machine) = match fed {
        Ok(()) => stream.finish(&mut out),
        Err(stop) => (Err(stop), stream.into_machine()),
    };
    let status = match ended {
        Ok(()) => Status::Done,
        Err(stop) => stop_status(stop),
    };
    assert!(rt; status == run.status);
    assert!(rt; machine.events == run.events);
    assert!(rt; out.taken() == run.text.as_bytes());
    drop(machine);
    drop(out);
}

const CHECK: &str = "{\"event\":\"check\"}";

const CHECKS: &str = "{\"event\":\"check\"}\n{\"event\":\"check\"}\n{\"event\":\"check\"}\n";

const TURNS: &str =
    "{\"event\":\"check\"}\n{\"event\":\"turn\",\"controller\":1}\n{\"event\":\"check\"}\n";

const RUNS: [Run; 19] = [
    Run {
        script: "",
        answers: &[],
        fail: &[],
        none: &[],
        status: Status::Done,
        text: "end events=0 steps=0 zxid=-1 offset=-1 recorded=none\n",
        events: 0,
    },
    Run {
        script: "{\"event\":\"check\"}\n\n# a comment\n{\"event\":\"check\"}",
        answers: &[Said::Step],
        fail: &[],
        none: &[],
        status: Status::Done,
        text: "1 looked\n4 done\nend events=2 steps=1 zxid=-1 offset=-1 recorded=none\n",
        events: 2,
    },
    Run {
        script: "{\"event\":\"check\"}\n# a comment\n{}\n{\"event\":\"check\"}\n",
        answers: &[],
        fail: &[],
        none: &[],
        status: Status::Script { line: 3 },
        text: "1 done\n",
        events: 1,
    },
    Run {
        script: "{\"event\":\"check\"}\n\n{\"event\":",
        answers: &[],
        fail: &[],
        none: &[],
        status: Status::Script { line: 3 },
        text: "1 done\n",
        events: 1,
    },
    Run {
        script: TURNS,
        answers: &[Said::Done, Said::Turn(LogFault::Stale { epoch: 1 })],
        fail: &[],
        none: &[],
        status: Status::Done,
        text: "1 done\n2 looked\n3 done\nend events=3 steps=2 zxid=-1 offset=-1 recorded=none\n",
        events: 3,
    },
    Run {
        script: TURNS,
        answers: &[Said::Done, Said::Turn(LogFault::Failed)],
        fail: &[],
        none: &[],
        status: Status::LogFault,
        text: "1 done\n2 looked\n",
        events: 2,
    },
    Run {
        script: TURNS,
        answers: &[Said::Done, Said::Turn(LogFault::Limit { number: 7 })],
        fail: &[],
        none: &[],
        status: Status::Limit {
            which: 7,
            number: 1_000_000,
        },
        text: "1 done\n2 looked\n",
        events: 2,
    },
    Run {
        script: CHECKS,
        answers: &[Said::Done, Said::Tree(TreeFault::Device)],
        fail: &[],
        none: &[],
        status: Status::TreeFault,
        text: "1 done\n",
        events: 2,
    },
    Run {
        script: CHECKS,
        answers: &[Said::Done, Said::Tree(TreeFault::Full { length: 9 })],
        fail: &[],
        none: &[],
        status: Status::Limit {
            which: 12,
            number: 2_147_483_647,
        },
        text: "1 done\n",
        events: 2,
    },
    Run {
        script: CHECKS,
        answers: &[
            Said::Done,
            Said::Tree(TreeFault::Limit {
                index: 0,
                number: 17,
            }),
        ],
        fail: &[],
        none: &[],
        status: Status::Limit {
            which: 17,
            number: 9_223_372_036_854_775_807,
        },
        text: "1 done\n",
        events: 2,
    },
    Run {
        script: CHECKS,
        answers: &[Said::Log(LogFault::Down)],
        fail: &[],
        none: &[],
        status: Status::LogFault,
        text: "",
        events: 1,
    },
    Run {
        script: CHECKS,
        answers: &[Said::Done, Said::Log(LogFault::Full { length: 9 })],
        fail: &[],
        none: &[],
        status: Status::Limit {
            which: 13,
            number: 2_147_483_647,
        },
        text: "1 done\n",
        events: 2,
    },
    Run {
        script: CHECKS,
        answers: &[Said::Done, Said::NoMemory],
        fail: &[],
        none: &[],
        status: Status::NoMemory,
        text: "1 done\n",
        events: 2,
    },
    Run {
        script: CHECK,
        answers: &[Said::NoMemory],
        fail: &[],
        none: &[],
        status: Status::NoMemory,
        text: "",
        events: 1,
    },
    Run {
        script: CHECKS,
        answers: &[],
        fail: &[1],
        none: &[],
        status: Status::WriteFault,
        text: "1 done\n",
        events: 2,
    },
    Run {
        script: CHECKS,
        answers: &[],
        fail: &[],
        none: &[2],
        status: Status::WriteFault,
        text: "1 done\n2 done\n",
        events: 3,
    },
    Run {
        script: CHECKS,
        answers: &[],
        fail: &[3],
        none: &[],
        status: Status::WriteFault,
        text: "1 done\n2 done\n3 done\n",
        events: 3,
    },
    Run {
        script: TURNS,
        answers: &[Said::Done, Said::Turn(LogFault::Failed)],
        fail: &[1],
        none: &[],
        status: Status::WriteFault,
        text: "1 done\n",
        events: 2,
    },
    Run {
        script: CHECK,
        answers: &[],
        fail: &[],
        none: &[0],
        status: Status::WriteFault,
        text: "",
        events: 1,
    },
];

#[test]
fn a_run_ends_with_its_status_and_its_lines(rt: HostRuntime) {
    let alloc = rt.alloc();
    let all = RUNS;
    for run in &all {
        runs(&rt, alloc, run.script.as_bytes(), false, run);
        runs(&rt, alloc, run.script.as_bytes(), true, run);
    }
}

// A comment of so many bytes, with a check before it and after it.
fn long_script(rt: &impl Abort, alloc: Global, bytes: usize) -> Vec<u8> {
    let comment = made(rt, vec![in alloc; b'#'; bytes]);
    let mut script = made(rt, CHECK.as_bytes().to_vec(alloc));
    made(rt, script.push(b'\n'));
    made(rt, script.extend_from_slice(&comment));
    made(rt, script.push(b'\n'));
    made(rt, script.extend_from_slice(CHECK.as_bytes()));
    script
}

const LONG_LINES: [(usize, Run); 2] = [
    (
        2_097_152,
        Run {
            script: "",
            answers: &[],
            fail: &[],
            none: &[],
            status: Status::Done,
            text: "1 done\n3 done\nend events=2 steps=0 zxid=-1 offset=-1 recorded=none\n",
            events: 2,
        },
    ),
    (
        2_097_153,
        Run {
            script: "",
            answers: &[],
            fail: &[],
            none: &[],
            status: Status::Limit {
                which: 10,
                number: 2_097_152,
            },
            text: "1 done\n",
            events: 1,
        },
    ),
];

#[test]
fn a_line_has_at_most_2097152_bytes(rt: HostRuntime) {
    let alloc = rt.alloc();
    let all = LONG_LINES;
    for (bytes, run) in &all {
        let script = long_script(&rt, alloc, *bytes);
        runs(&rt, alloc, &script, false, run);
        drop(script);
    }
}
