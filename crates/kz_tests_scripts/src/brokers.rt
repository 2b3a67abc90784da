//! Registrations of brokers, and changes of several records.
use crate::made::prints;
use kz_replay::Status;

// Scripts, how their runs end, and what they print.
const SCRIPTS: [(&str, Status, &str); 2] = [
    // the shipped example: the migration waits until both brokers are registered as ready
    (
        r#"# A cluster of two brokers in ZooKeeper mode: the migration waits until both are registered as ready for it.
{"event":"zk-open","session":1}
{"event":"zk","ops":[{"op":"create","path":"/brokers"},{"op":"create","path":"/brokers/ids"},{"op":"create","path":"/brokers/ids/1","owner":1,"text":"{}"},{"op":"create","path":"/brokers/ids/2","owner":1,"text":"{}"}]}
{"event":"zk","ops":[{"op":"create","path":"/config"},{"op":"create","path":"/config/brokers"},{"op":"create","path":"/config/brokers/1","text":"{\"version\":1,\"config\":{\"log.retention.hours\":\"72\"}}"}]}
{"event":"quorum","ids":[3000]}
{"event":"start","controller":3000}
{"event":"elect","controller":3000}
# Broker 1 isn't registered.
{"event":"turn","controller":3000}
{"event":"register","controller":3000,"broker":1,"migrating":true}
# Broker 2 is registered, but not as one that is ready to migrate.
{"event":"register","controller":3000,"broker":2,"migrating":false}
{"event":"turn","controller":3000}
{"event":"register","controller":3000,"broker":2,"migrating":true}
# Both are ready: the migration is made and committed.
{"event":"turn","controller":3000}
# A change of two records is made whole or not at all.
{"event":"change","controller":3000,"records":[{"kind":"Config","resourceType":4,"resourceName":"1","name":"log.retention.hours","value":"96"},{"kind":"Config","resourceType":4,"resourceName":"","name":"num.io.threads","value":"8"}]}
{"event":"change","controller":3000,"records":[{"kind":"Config","resourceType":4,"resourceName":"2","name":"num.io.threads","value":"4"},{"kind":"Config","resourceType":4,"resourceName":"two","name":"num.io.threads","value":"4"}]}
{"event":"turn","controller":3000}
{"event":"check"}
"#,
        Status::Done,
        "2 done 1
3 done 2
4 done 3
5 done
6 done
7 elected 1 1
9 moved WAIT_FOR_BROKERS
9 looked
9 wait-broker 1
10 appended 2
12 appended 3
13 looked
13 wait-broker 2
14 appended 4
16 looked
16 moved BECOME_CONTROLLER
16 looked
16 claimed 1
16 read 2
16 appended 5
16 appended 6
16 appended 8
16 looked
16 read 2
16 recorded 8
16 moved DUAL_WRITE
16 idle
18 appended 10
19 bad-record 1 4
20 looked
20 recorded 10
20 idle
21 closed 10
end events=16 steps=21 zxid=6 offset=10 recorded=10
",
    ),
    // who may register a broker, and when
    (
        r#"{"event":"register","controller":3000,"broker":1,"migrating":true}
{"event":"quorum","ids":[3000]}
{"event":"register","controller":3000,"broker":1,"migrating":true}
{"event":"start","controller":3000}
{"event":"register","controller":3000,"broker":1,"migrating":true}
{"event":"elect","controller":3000}
{"event":"register","controller":3000,"broker":1,"migrating":true,"now":7}
{"event":"change","controller":3000,"records":[{"kind":"Config","resourceType":4,"resourceName":"","name":"a","value":"1"}]}
{"event":"register","controller":3000,"broker":1,"migrating":1}
"#,
        Status::Script { line: 9 },
        "1 unknown-controller
2 done
3 not-running
4 done
5 not-leader
6 elected 1 1
7 appended 2
8 not-migrated
",
    ),
];

#[test]
fn brokers_are_registered(rt: HostRuntime) {
    let scripts = SCRIPTS;
    for (script, status, lines) in &scripts {
        assert!(rt; prints(&rt, rt.alloc(), script, status, lines));
    }
}
