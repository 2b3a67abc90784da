//! A log that is cut, and controllers that go on with it.
use crate::made::{Run, all_end};

// The log is cut at the offset that is recorded, and holds its metadata alone up to there. A further run takes over with it.
static SNAPSHOT: [Run; 7] = [
    Run {
        words: &["init"],
        input: "",
        code: 0,
        told: "",
        out: "",
    },
    Run {
        words: &["replay"],
        input: r#"{"event":"quorum","ids":[3000]}
{"event":"start","controller":3000}
{"event":"elect","controller":3000}
{"event":"snapshot"}
{"event":"turn","controller":3000}
{"event":"snapshot"}
"#,
        code: 0,
        told: "",
        out: r#"1 done
2 done
3 elected 1 1
4 too-early
5 moved WAIT_FOR_BROKERS
5 looked
5 moved BECOME_CONTROLLER
5 looked
5 claimed 1
5 read 0
5 appended 2
5 appended 4
5 looked
5 read 0
5 recorded 4
5 moved DUAL_WRITE
5 idle
6 done
end events=6 steps=13 zxid=2 offset=4 recorded=4
"#,
    },
    Run {
        words: &["dump-log"],
        input: "",
        code: 0,
        told: "",
        out: r#"{"base":4,"end":4,"epoch":1}
"#,
    },
    Run {
        words: &["status"],
        input: "",
        code: 0,
        told: "",
        out: r#"zxid 2
znodes 25
epoch 1
base 4
end 4
migration 2
recorded 4
"#,
    },
    Run {
        words: &["render", "3"],
        input: "",
        code: 13,
        told: "no offset 4 4",
        out: "",
    },
    Run {
        words: &["replay"],
        input: r#"{"event":"quorum","ids":[3000]}
{"event":"start","controller":3000}
{"event":"elect","controller":3000}
{"event":"turn","controller":3000}
{"event":"check"}
"#,
        code: 0,
        told: "",
        out: r#"1 done
2 done
3 elected 2 5
4 moved BECOME_CONTROLLER
4 looked
4 claimed 2
4 looked
4 read 17
4 recorded 5
4 moved DUAL_WRITE
4 idle
5 closed 5
end events=5 steps=8 zxid=4 offset=5 recorded=5
"#,
    },
    Run {
        words: &["dump-log"],
        input: "",
        code: 0,
        told: "",
        out: r#"{"base":4,"end":5,"epoch":2}
{"epoch":2,"first":5,"records":[{"kind":"NoOp"}],"time":0}
"#,
    },
];

#[test]
fn a_log_is_cut_and_gone_on_with(rt: HostRuntime) {
    assert!(rt; all_end(&rt, rt.alloc(), &SNAPSHOT));
}
