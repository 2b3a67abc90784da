//! Sessions and multis of ZooKeeper clients.
use crate::made::prints;
use kz_replay::Status;

// Scripts, how their runs end, and what they print.
const SCRIPTS: [(&str, Status, &str); 9] = [
    // all operations are made with one transaction, or none of them
    (
        r#"{"event":"zk","ops":[{"op":"create","path":"/a"},{"op":"create","path":"/a/b"},{"op":"set","path":"/a","version":0},{"op":"check","path":"/a","version":1}]}
{"event":"zk","ops":[{"op":"create","path":"/c"},{"op":"delete","path":"/a","version":1}]}
{"event":"zk","ops":[{"op":"create","path":"/c"}]}
{"event":"zk","ops":[{"op":"create","path":"/x/y"}]}
"#,
        Status::Done,
        "1 done 1
2 refused 1 -111
3 done 2
4 refused 0 -101
end events=4 steps=0 zxid=2 offset=-1 recorded=none
",
    ),
    // a session, its znode, and its end
    (
        r#"{"event":"zk-open","session":1}
{"event":"zk-open","session":1}
{"event":"zk","ops":[{"op":"create","path":"/e","owner":1}]}
{"event":"zk","ops":[{"op":"create","path":"/e/f"}]}
{"event":"zk-expire","session":1}
{"event":"zk","ops":[{"op":"check","path":"/e","version":-1}]}
{"event":"zk-expire","session":1}
{"event":"zk","ops":[{"op":"create","path":"/e","owner":1}]}
"#,
        Status::Done,
        "1 done 1
2 known
3 done 2
4 refused 0 -108
5 done 3
6 refused 0 -101
7 unknown
8 refused 0 -112
end events=8 steps=0 zxid=3 offset=-1 recorded=none
",
    ),
    // a controller in ZooKeeper mode isn't taken for a KRaft one
    (
        r#"{"event":"zk-open","session":1}
{"event":"zk","ops":[{"op":"create","path":"/controller","owner":1,"text":"{\"version\":2,\"brokerid\":1,\"timestamp\":\"0\",\"kraftControllerEpoch\":-1}"}]}
{"event":"zk","ops":[{"op":"create","path":"/controller","owner":1,"text":"{\"kraftControllerEpoch\":0}"}]}
{"event":"zk","ops":[{"op":"create","path":"/a"},{"op":"create","path":"/migration"}]}
{"event":"zk","ops":[{"op":"create","path":"/controller_epoch","owner":1}]}
{"event":"zk","ops":[{"op":"create","path":"/controller/a"},{"op":"create","path":"/migration"}]}
{"event":"zk","ops":[{"op":"create","path":"/brokers","owner":1}]}
{"event":"zk","ops":[{"op":"create","path":"/config/brokers","owner":1}]}
{"event":"zk","ops":[{"op":"delete","path":"/controller_epoch","version":-1}]}
{"event":"zk","ops":[{"op":"check","path":"/migration","version":-1}]}
"#,
        Status::Done,
        "1 done 1
2 done 2
3 reserved \"/controller\"
4 reserved \"/migration\"
5 reserved \"/controller_epoch\"
6 reserved \"/controller/a\"
7 reserved \"/brokers\"
8 reserved \"/config/brokers\"
9 reserved \"/controller_epoch\"
10 refused 0 -101
end events=10 steps=0 zxid=2 offset=-1 recorded=none
",
    ),
    // a configuration without a version stops the migration, and nothing is appended
    (
        r#"{"event":"zk","ops":[{"op":"create","path":"/config"},{"op":"create","path":"/config/brokers"},{"op":"create","path":"/config/brokers/1","text":"{}"}]}
{"event":"quorum","ids":[3000]}
{"event":"start","controller":3000}
{"event":"elect","controller":3000}
{"event":"turn","controller":3000}
"#,
        Status::Done,
        "1 done 1
2 done
3 done
4 elected 1 1
5 moved WAIT_FOR_BROKERS
5 looked
5 moved BECOME_CONTROLLER
5 looked
5 claimed 1
5 read 2
5 untranslatable \"/config/brokers/1\" missing \"version\"
end events=5 steps=7 zxid=2 offset=1 recorded=-1
",
    ),
    // while a KRaft controller holds the tree, what is migrated is kept from clients; what is reserved is told first
    (
        r#"{"event":"quorum","ids":[3000]}
{"event":"start","controller":3000}
{"event":"elect","controller":3000}
{"event":"turn","controller":3000}
{"event":"zk","ops":[{"op":"create","path":"/config/brokers/1"},{"op":"set","path":"/migration","version":-1}]}
{"event":"zk","ops":[{"op":"check","path":"/controller","version":0},{"op":"create","path":"/config/brokers/1"}]}
{"event":"zk","ops":[{"op":"set","path":"/brokers","version":7}]}
{"event":"zk","ops":[{"op":"delete","path":"/controller","version":-1}]}
{"event":"zk","ops":[{"op":"set","path":"/controller_epoch","text":"9","version":-1}]}
{"event":"zk","ops":[{"op":"check","path":"/config/brokers","version":0},{"op":"create","path":"/a"}]}
{"event":"check"}
{"event":"turn","controller":3000}
"#,
        Status::Done,
        "1 done
2 done
3 elected 1 1
4 moved WAIT_FOR_BROKERS
4 looked
4 moved BECOME_CONTROLLER
4 looked
4 claimed 1
4 read 0
4 appended 2
4 appended 4
4 looked
4 read 0
4 recorded 4
4 moved DUAL_WRITE
4 idle
5 reserved \"/migration\"
6 kraft-holds \"/config/brokers/1\"
7 kraft-holds \"/brokers\"
8 kraft-holds \"/controller\"
9 kraft-holds \"/controller_epoch\"
10 done 3
11 closed 4
12 idle
end events=12 steps=14 zxid=3 offset=4 recorded=4
",
    ),
    // no znode has a version above the greatest, and no body is longer than the longest: here the version that is told
    (
        r#"{"event":"zk","ops":[{"op":"create","path":"/a"},{"op":"set","path":"/a","text":"x","version":1}]}
{"event":"zk","ops":[{"op":"create","path":"/a"},{"op":"set","path":"/a","text":"x","version":0},{"op":"delete","path":"/a","version":0}]}
"#,
        Status::Done,
        "1 refused 1 -103
2 refused 2 -103
end events=2 steps=0 zxid=0 offset=-1 recorded=none
",
    ),
    // lines that are none
    (
        "{\"event\":\"zk-open\",\"session\":0}\n",
        Status::Script { line: 1 },
        "",
    ),
    (
        "{\"event\":\"check\"}\n{\"event\":\"zk\",\"ops\":[{\"op\":\"create\",\"path\":\"/config//t\"}]}\n",
        Status::Script { line: 2 },
        "1 unmigrated\n",
    ),
    // the shipped example
    (
        r#"# A ZooKeeper client fills a small tree, a controller migrates it, and from then on clients are kept from it.
{"event":"zk-open","session":1}
{"event":"zk","ops":[{"op":"create","path":"/controller_epoch","text":"5"},{"op":"create","path":"/controller","owner":1,"text":"{\"version\":1,\"brokerid\":1,\"timestamp\":\"0\"}"}]}
{"event":"zk","ops":[{"op":"create","path":"/config"},{"op":"create","path":"/config/brokers"},{"op":"create","path":"/config/brokers/1","text":"{\"version\":1,\"config\":{\"log.retention.hours\":\"72\"}}"}]}

# A broker is there, and isn't registered as ready to migrate: the driver waits for it, until its session ends.
{"event":"zk","ops":[{"op":"create","path":"/brokers"},{"op":"create","path":"/brokers/ids"},{"op":"create","path":"/brokers/ids/1","owner":1,"text":"{}"}]}
{"event":"quorum","ids":[3000]}
{"event":"start","controller":3000}
{"event":"elect","controller":3000}
{"event":"turn","controller":3000}
{"event":"zk-expire","session":1}
{"event":"turn","controller":3000}
{"event":"check"}

# All operations are made, or none: the parent of the second one isn't there, so the first isn't made either.
{"event":"zk","ops":[{"op":"create","path":"/other"},{"op":"create","path":"/none/other"}]}
# What is migrated is kept from clients; this other znode isn't.
{"event":"zk","ops":[{"op":"set","path":"/config/brokers/1","text":"{}","version":-1}]}
{"event":"zk","ops":[{"op":"create","path":"/other"}]}
{"event":"check"}
"#,
        Status::Done,
        "2 done 1
3 done 2
4 done 3
7 done 4
8 done
9 done
10 elected 1 1
11 moved WAIT_FOR_BROKERS
11 looked
11 wait-broker 1
12 done 5
13 looked
13 moved BECOME_CONTROLLER
13 looked
13 claimed 6
13 read 2
13 appended 2
13 appended 3
13 appended 5
13 looked
13 read 2
13 recorded 5
13 moved DUAL_WRITE
13 idle
14 closed 5
17 refused 1 -101
19 kraft-holds \"/config/brokers/1\"
20 done 8
21 closed 5
end events=15 steps=16 zxid=8 offset=5 recorded=5
",
    ),
];

#[test]
fn clients_have_their_replies(rt: HostRuntime) {
    let alloc = rt.alloc();
    let scripts = SCRIPTS;
    for (script, status, lines) in &scripts {
        assert!(rt; prints(&rt, alloc, script, status, lines));
    }
}
