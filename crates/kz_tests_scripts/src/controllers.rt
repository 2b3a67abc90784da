//! Several controllers: lost requests, one that takes over from another, and stops.
use crate::made::prints;
use kz_replay::Status;

// Scripts, how their runs end, and what they print.
const SCRIPTS: [(&str, Status, &str); 3] = [
    // the answer of a write is lost; another controller takes over, loses requests itself, and is stopped
    (
        r#"{"event":"quorum","ids":[1,2]}
{"event":"start","controller":1}
{"event":"start","controller":2}
{"event":"elect","controller":1}
{"event":"turn","controller":1}
{"event":"change","controller":1,"records":[{"kind":"Config","resourceType":4,"resourceName":"1","name":"a","value":"1"}]}
{"event":"step","controller":1}
# The write is made, and the controller can't know.
{"event":"step","controller":1,"plan":"lost-after"}
{"event":"check"}
{"event":"elect","controller":2}
{"event":"step","controller":2}
{"event":"step","controller":2}
{"event":"step","controller":2}
# The first controller is fenced at its look.
{"event":"step","controller":1}
{"event":"step","controller":1}
{"event":"change","controller":1,"records":[{"kind":"Config","resourceType":4,"resourceName":"1","name":"a","value":"2"}]}
{"event":"step","controller":2,"plan":"lost-before"}
# The log knows no sessions.
{"event":"step","controller":2,"plan":"expired"}
{"event":"step","controller":2,"plan":"expired"}
{"event":"turn","controller":2}
{"event":"check"}
{"event":"stop","controller":2}
{"event":"turn","controller":2}
{"event":"elect","controller":1}
{"event":"turn","controller":1}
{"event":"check"}
{"event":"stop"}
{"event":"step","controller":1}
{"event":"step","controller":3}
"#,
        Status::Done,
        "1 done
2 done
3 done
4 elected 1 1
5 moved WAIT_FOR_BROKERS
5 looked
5 moved BECOME_CONTROLLER
5 looked
5 claimed 1
5 read 0
5 appended 2
5 appended 4
5 looked
5 read 0
5 recorded 4
5 moved DUAL_WRITE
5 idle
6 appended 5
7 looked
9 lost
10 closed 5
11 elected 2 6
12 moved BECOME_CONTROLLER
13 looked
14 claimed 2
16 fenced-epoch 2
17 idle
18 not-leader
19 lost
21 looked
22 expired
23 looked
23 claimed 3
23 looked
23 read 18
23 recorded 6
23 moved DUAL_WRITE
23 idle
24 closed 6
25 done
26 not-running
27 elected 3 7
28 moved BECOME_CONTROLLER
28 looked
28 claimed 4
28 looked
28 read 18
28 recorded 7
28 moved DUAL_WRITE
28 idle
29 closed 7
30 done
31 not-running
32 unknown-controller
end events=29 steps=38 zxid=8 offset=7 recorded=7
",
    ),
    // a controller that is started and not elected has nothing to do; a write under a claim that another one has taken is fenced
    (
        r#"{"event":"quorum","ids":[1,2]}
{"event":"start","controller":2}
{"event":"step","controller":2,"plan":"lost-before"}
{"event":"step","controller":2}
{"event":"quorum","ids":[1]}
{"event":"elect","controller":2}
{"event":"turn","controller":2}
{"event":"start","controller":1}
{"event":"turn","controller":2}
{"event":"elect","controller":1}
{"event":"turn","controller":1}
{"event":"change","controller":2,"records":[{"kind":"NoOp"}]}
{"event":"step","controller":2,"plan":"deliver"}
{"event":"step","controller":2}
{"event":"turn","controller":2}
"#,
        Status::Done,
        "1 done
2 done
3 moved INACTIVE
4 idle
5 running 2
6 elected 1 1
7 wait-quorum 1
8 done
9 moved WAIT_FOR_BROKERS
9 looked
9 moved BECOME_CONTROLLER
9 looked
9 claimed 1
9 read 0
9 appended 2
9 appended 4
9 looked
9 read 0
9 recorded 4
9 moved DUAL_WRITE
9 idle
10 elected 2 5
11 moved BECOME_CONTROLLER
11 looked
11 claimed 2
11 looked
11 read 17
11 recorded 5
11 moved DUAL_WRITE
11 idle
12 stale 2
13 looked
14 fenced-write 0
15 idle
end events=15 steps=27 zxid=4 offset=5 recorded=5
",
    ),
    // a plan that there isn't
    (
        "{\"event\":\"stop\"}\n{\"event\":\"step\",\"controller\":1,\"plan\":\"lost\"}\n",
        Status::Script { line: 2 },
        "1 done\n",
    ),
];

#[test]
fn controllers_take_over_from_each_other(rt: HostRuntime) {
    let scripts = SCRIPTS;
    for (script, status, lines) in &scripts {
        assert!(rt; prints(&rt, rt.alloc(), script, status, lines));
    }
}
