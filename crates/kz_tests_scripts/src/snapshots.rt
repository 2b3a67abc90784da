//! Snapshots of the log.
use crate::made::prints;
use kz_replay::Status;

// Scripts, how their runs end, and what they print.
const SCRIPTS: [(&str, Status, &str); 2] = [
    // the log is cut at what is recorded, a change after it stays, and another controller takes over
    (
        r#"{"event":"quorum","ids":[3000,3001]}
{"event":"start","controller":3000}
{"event":"start","controller":3001}
{"event":"elect","controller":3000}
{"event":"snapshot"}
{"event":"turn","controller":3000}
{"event":"change","controller":3000,"records":[{"kind":"Config","resourceType":4,"resourceName":"1","name":"log.retention.hours","value":"72"}]}
{"event":"snapshot"}
{"event":"check"}
{"event":"turn","controller":3000}
{"event":"snapshot"}
{"event":"elect","controller":3001}
{"event":"turn","controller":3001}
{"event":"check"}
"#,
        Status::Done,
        "1 done
2 done
3 done
4 elected 1 1
5 too-early
6 moved WAIT_FOR_BROKERS
6 looked
6 moved BECOME_CONTROLLER
6 looked
6 claimed 1
6 read 0
6 appended 2
6 appended 4
6 looked
6 read 0
6 recorded 4
6 moved DUAL_WRITE
6 idle
7 appended 5
8 done
9 closed 4
10 looked
10 recorded 5
10 idle
11 done
12 elected 2 6
13 moved BECOME_CONTROLLER
13 looked
13 claimed 2
13 looked
13 read 18
13 recorded 6
13 moved DUAL_WRITE
13 idle
14 closed 6
end events=14 steps=24 zxid=5 offset=6 recorded=6
",
    ),
    // a migration whose log is cut is taken back, and then there is nothing to cut
    (
        r#"{"event":"quorum","ids":[3000]}
{"event":"start","controller":3000}
{"event":"elect","controller":3000}
{"event":"turn","controller":3000}
{"event":"stop"}
{"event":"snapshot"}
{"event":"rollback"}
{"event":"snapshot"}
{"event":"check"}
"#,
        Status::Done,
        "1 done
2 done
3 elected 1 1
4 moved WAIT_FOR_BROKERS
4 looked
4 moved BECOME_CONTROLLER
4 looked
4 claimed 1
4 read 0
4 appended 2
4 appended 4
4 looked
4 read 0
4 recorded 4
4 moved DUAL_WRITE
4 idle
5 done
6 done
7 rolled-back
8 too-early
9 unmigrated
end events=9 steps=13 zxid=3 offset=-1 recorded=none
",
    ),
];

#[test]
fn a_log_is_cut_at_what_is_recorded(rt: HostRuntime) {
    let scripts = SCRIPTS;
    for (script, status, lines) in &scripts {
        assert!(rt; prints(&rt, rt.alloc(), script, status, lines));
    }
}
