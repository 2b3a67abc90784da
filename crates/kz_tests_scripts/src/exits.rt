//! The two ways out of a migration: it is taken back, or finalised.
use crate::made::prints;
use kz_replay::Status;

// Scripts, how their runs end, and what they print.
const SCRIPTS: [(&str, Status, &str); 5] = [
    // a migration is taken back once no controller runs and ZooKeeper has all of the metadata; a further one begins with what stands there
    (
        r#"{"event":"quorum","ids":[3000]}
{"event":"start","controller":3000}
{"event":"elect","controller":3000}
{"event":"turn","controller":3000}
{"event":"rollback"}
{"event":"change","controller":3000,"records":[{"kind":"ProducerIds","brokerId":1,"brokerEpoch":0,"next":1000}]}
{"event":"stop"}
{"event":"rollback"}
{"event":"start","controller":3000}
{"event":"elect","controller":3000}
{"event":"turn","controller":3000}
{"event":"stop"}
{"event":"rollback"}
{"event":"rollback"}
{"event":"check"}
{"event":"start","controller":3000}
{"event":"elect","controller":3000}
{"event":"turn","controller":3000}
"#,
        Status::Done,
        "1 done
2 done
3 elected 1 1
4 moved WAIT_FOR_BROKERS
4 looked
4 moved BECOME_CONTROLLER
4 looked
4 claimed 1
4 read 0
4 appended 2
4 appended 4
4 looked
4 read 0
4 recorded 4
4 moved DUAL_WRITE
4 idle
5 running 3000
6 appended 5
7 done
8 behind 4 5
9 done
10 elected 2 6
11 moved BECOME_CONTROLLER
11 looked
11 claimed 2
11 looked
11 read 17
11 recorded 6
11 moved DUAL_WRITE
11 idle
12 done
13 rolled-back
14 rolled-back
15 unmigrated
16 done
17 elected 3 1
18 moved WAIT_FOR_BROKERS
18 looked
18 moved BECOME_CONTROLLER
18 looked
18 claimed 3
18 read 17
18 appended 2
18 appended 3
18 appended 5
18 looked
18 read 17
18 recorded 5
18 moved DUAL_WRITE
18 idle
end events=18 steps=35 zxid=7 offset=5 recorded=5
",
    ),
    // a rollback in the middle of a write is refused
    (
        r#"{"event":"quorum","ids":[3000]}
{"event":"start","controller":3000}
{"event":"elect","controller":3000}
{"event":"turn","controller":3000}
{"event":"change","controller":3000,"records":[{"kind":"Config","resourceType":4,"resourceName":"1","name":"a","value":"1"},{"kind":"Config","resourceType":4,"resourceName":"2","name":"a","value":"1"},{"kind":"Config","resourceType":4,"resourceName":"3","name":"a","value":"1"},{"kind":"Config","resourceType":4,"resourceName":"4","name":"a","value":"1"},{"kind":"Config","resourceType":4,"resourceName":"5","name":"a","value":"1"},{"kind":"Config","resourceType":4,"resourceName":"6","name":"a","value":"1"},{"kind":"Config","resourceType":4,"resourceName":"7","name":"a","value":"1"},{"kind":"Config","resourceType":4,"resourceName":"8","name":"a","value":"1"},{"kind":"Config","resourceType":4,"resourceName":"9","name":"a","value":"1"},{"kind":"Config","resourceType":4,"resourceName":"10","name":"a","value":"1"},{"kind":"Config","resourceType":4,"resourceName":"11","name":"a","value":"1"},{"kind":"Config","resourceType":4,"resourceName":"12","name":"a","value":"1"},{"kind":"Config","resourceType":4,"resourceName":"13","name":"a","value":"1"},{"kind":"Config","resourceType":4,"resourceName":"14","name":"a","value":"1"},{"kind":"Config","resourceType":4,"resourceName":"15","name":"a","value":"1"},{"kind":"Config","resourceType":4,"resourceName":"16","name":"a","value":"1"},{"kind":"Config","resourceType":4,"resourceName":"17","name":"a","value":"1"},{"kind":"Config","resourceType":4,"resourceName":"18","name":"a","value":"1"},{"kind":"Config","resourceType":4,"resourceName":"19","name":"a","value":"1"},{"kind":"Config","resourceType":4,"resourceName":"20","name":"a","value":"1"},{"kind":"Config","resourceType":4,"resourceName":"21","name":"a","value":"1"},{"kind":"Config","resourceType":4,"resourceName":"22","name":"a","value":"1"},{"kind":"Config","resourceType":4,"resourceName":"23","name":"a","value":"1"},{"kind":"Config","resourceType":4,"resourceName":"24","name":"a","value":"1"},{"kind":"Config","resourceType":4,"resourceName":"25","name":"a","value":"1"},{"kind":"Config","resourceType":4,"resourceName":"26","name":"a","value":"1"},{"kind":"Config","resourceType":4,"resourceName":"27","name":"a","value":"1"},{"kind":"Config","resourceType":4,"resourceName":"28","name":"a","value":"1"},{"kind":"Config","resourceType":4,"resourceName":"29","name":"a","value":"1"},{"kind":"Config","resourceType":4,"resourceName":"30","name":"a","value":"1"},{"kind":"Config","resourceType":4,"resourceName":"31","name":"a","value":"1"},{"kind":"Config","resourceType":4,"resourceName":"32","name":"a","value":"1"},{"kind":"Config","resourceType":4,"resourceName":"33","name":"a","value":"1"},{"kind":"Config","resourceType":4,"resourceName":"34","name":"a","value":"1"},{"kind":"Config","resourceType":4,"resourceName":"35","name":"a","value":"1"},{"kind":"Config","resourceType":4,"resourceName":"36","name":"a","value":"1"},{"kind":"Config","resourceType":4,"resourceName":"37","name":"a","value":"1"},{"kind":"Config","resourceType":4,"resourceName":"38","name":"a","value":"1"},{"kind":"Config","resourceType":4,"resourceName":"39","name":"a","value":"1"},{"kind":"Config","resourceType":4,"resourceName":"40","name":"a","value":"1"},{"kind":"Config","resourceType":4,"resourceName":"41","name":"a","value":"1"},{"kind":"Config","resourceType":4,"resourceName":"42","name":"a","value":"1"},{"kind":"Config","resourceType":4,"resourceName":"43","name":"a","value":"1"},{"kind":"Config","resourceType":4,"resourceName":"44","name":"a","value":"1"},{"kind":"Config","resourceType":4,"resourceName":"45","name":"a","value":"1"},{"kind":"Config","resourceType":4,"resourceName":"46","name":"a","value":"1"},{"kind":"Config","resourceType":4,"resourceName":"47","name":"a","value":"1"},{"kind":"Config","resourceType":4,"resourceName":"48","name":"a","value":"1"},{"kind":"Config","resourceType":4,"resourceName":"49","name":"a","value":"1"},{"kind":"Config","resourceType":4,"resourceName":"50","name":"a","value":"1"},{"kind":"Config","resourceType":4,"resourceName":"51","name":"a","value":"1"},{"kind":"Config","resourceType":4,"resourceName":"52","name":"a","value":"1"},{"kind":"Config","resourceType":4,"resourceName":"53","name":"a","value":"1"},{"kind":"Config","resourceType":4,"resourceName":"54","name":"a","value":"1"},{"kind":"Config","resourceType":4,"resourceName":"55","name":"a","value":"1"},{"kind":"Config","resourceType":4,"resourceName":"56","name":"a","value":"1"},{"kind":"Config","resourceType":4,"resourceName":"57","name":"a","value":"1"},{"kind":"Config","resourceType":4,"resourceName":"58","name":"a","value":"1"},{"kind":"Config","resourceType":4,"resourceName":"59","name":"a","value":"1"},{"kind":"Config","resourceType":4,"resourceName":"60","name":"a","value":"1"},{"kind":"Config","resourceType":4,"resourceName":"61","name":"a","value":"1"},{"kind":"Config","resourceType":4,"resourceName":"62","name":"a","value":"1"},{"kind":"Config","resourceType":4,"resourceName":"63","name":"a","value":"1"},{"kind":"Config","resourceType":4,"resourceName":"64","name":"a","value":"1"},{"kind":"Config","resourceType":4,"resourceName":"65","name":"a","value":"1"}]}
{"event":"step","controller":3000}
{"event":"step","controller":3000}
{"event":"stop"}
{"event":"rollback"}
"#,
        Status::Done,
        "1 done
2 done
3 elected 1 1
4 moved WAIT_FOR_BROKERS
4 looked
4 moved BECOME_CONTROLLER
4 looked
4 claimed 1
4 read 0
4 appended 2
4 appended 4
4 looked
4 read 0
4 recorded 4
4 moved DUAL_WRITE
4 idle
5 appended 69
6 looked
7 wrote 64
8 done
9 unclosed \"/config/brokers\"
end events=9 steps=15 zxid=3 offset=69 recorded=4
",
    ),
    // a cluster that can't be translated is given back
    (
        r#"{"event":"zk","ops":[{"op":"create","path":"/brokers"},{"op":"create","path":"/brokers/topics"},{"op":"create","path":"/brokers/topics/t","text":"{\"version\":2,\"partitions\":{\"0\":[1]},\"adding_replicas\":{},\"removing_replicas\":{}}"}]}
{"event":"quorum","ids":[3000]}
{"event":"start","controller":3000}
{"event":"elect","controller":3000}
{"event":"turn","controller":3000}
{"event":"zk","ops":[{"op":"set","path":"/brokers/topics/t","text":"{}","version":-1}]}
{"event":"stop"}
{"event":"rollback"}
{"event":"zk","ops":[{"op":"set","path":"/brokers/topics/t","text":"{}","version":-1}]}
"#,
        Status::Done,
        "1 done 1
2 done
3 done
4 elected 1 1
5 moved WAIT_FOR_BROKERS
5 looked
5 moved BECOME_CONTROLLER
5 looked
5 claimed 1
5 read 2
5 untranslatable \"/brokers/topics/t\" no-topic-id
6 kraft-holds \"/brokers/topics/t\"
7 done
8 rolled-back
9 done 4
end events=9 steps=7 zxid=4 offset=-1 recorded=none
",
    ),
    // a migration is finalised, and can't be taken back then
    (
        r#"{"event":"quorum","ids":[3000]}
{"event":"finalise","controller":3001}
{"event":"finalise","controller":3000}
{"event":"start","controller":3000}
{"event":"finalise","controller":3000}
{"event":"elect","controller":3000}
{"event":"finalise","controller":3000}
{"event":"turn","controller":3000}
{"event":"change","controller":3000,"records":[{"kind":"Config","resourceType":4,"resourceName":"1","name":"a","value":"1"}]}
{"event":"finalise","controller":3000}
{"event":"step","controller":3000}
{"event":"finalise","controller":3000}
{"event":"turn","controller":3000}
{"event":"check"}
{"event":"finalise","controller":3000,"now":7}
{"event":"finalise","controller":3000}
{"event":"change","controller":3000,"records":[{"kind":"Config","resourceType":4,"resourceName":"1","name":"a","value":"2"}]}
{"event":"turn","controller":3000}
{"event":"turn","controller":3000}
{"event":"check"}
{"event":"elect","controller":3000}
{"event":"turn","controller":3000}
{"event":"rollback"}
{"event":"stop"}
{"event":"rollback"}
"#,
        Status::Done,
        "1 done
2 unknown-controller
3 not-running
4 done
5 not-leader
6 elected 1 1
7 not-migrated
8 moved WAIT_FOR_BROKERS
8 looked
8 moved BECOME_CONTROLLER
8 looked
8 claimed 1
8 read 0
8 appended 2
8 appended 4
8 looked
8 read 0
8 recorded 4
8 moved DUAL_WRITE
8 idle
9 appended 5
10 behind 4 5
11 looked
12 behind 4 5
13 recorded 5
13 idle
14 closed 5
15 appended 6
16 finalised
17 appended 7
18 moved INACTIVE
18 idle
19 idle
20 closed 5
21 elected 2 8
22 moved INACTIVE
22 idle
23 running 3000
24 done
25 finalised
end events=25 steps=21 zxid=3 offset=8 recorded=5
",
    ),
    // nothing is given back where nothing is held
    (
        r#"{"event":"rollback"}
{"event":"rollback","controller":1}
"#,
        Status::Script { line: 2 },
        "1 rolled-back
",
    ),
];

#[test]
fn a_migration_is_taken_back_or_finalised(rt: HostRuntime) {
    let scripts = SCRIPTS;
    for (script, status, lines) in &scripts {
        assert!(rt; prints(&rt, rt.alloc(), script, status, lines));
    }
}
