//! Loads, and what is told of them.
use crate::made::{Run, all_end};

// A header alone is loaded, and dumped again.
static HEADER: [Run; 6] = [
    Run {
        words: &["load"],
        input: r#"{}
"#,
        code: 0,
        told: "",
        out: "",
    },
    Run {
        words: &["dump-tree"],
        input: "",
        code: 0,
        told: "",
        out: r#"{"sessions":[],"zxid":1}
"#,
    },
    Run {
        words: &["dump-log"],
        input: "",
        code: 0,
        told: "",
        out: r#"{"base":-1,"end":-1,"epoch":0}
"#,
    },
    Run {
        words: &["status"],
        input: "",
        code: 0,
        told: "",
        out: r#"zxid 1
znodes 0
epoch 0
base -1
end -1
migration 0
recorded none
"#,
    },
    Run {
        words: &["render"],
        input: "",
        code: 0,
        told: "",
        out: r#"{"body":"","path":"/brokers/topics"}
{"body":"","path":"/config/brokers"}
{"body":"","path":"/config/clients"}
{"body":"","path":"/config/ips"}
{"body":"","path":"/config/topics"}
{"body":"","path":"/config/users"}
{"body":"","path":"/kafka-acl-extended/prefixed/Cluster"}
{"body":"","path":"/kafka-acl-extended/prefixed/DelegationToken"}
{"body":"","path":"/kafka-acl-extended/prefixed/Group"}
{"body":"","path":"/kafka-acl-extended/prefixed/Topic"}
{"body":"","path":"/kafka-acl-extended/prefixed/TransactionalId"}
{"body":"","path":"/kafka-acl/Cluster"}
{"body":"","path":"/kafka-acl/DelegationToken"}
{"body":"","path":"/kafka-acl/Group"}
{"body":"","path":"/kafka-acl/Topic"}
{"body":"","path":"/kafka-acl/TransactionalId"}
{"body":"","path":"/latest_producer_id_block"}
"#,
    },
    Run {
        words: &["check"],
        input: "",
        code: 0,
        told: "",
        out: r#"unmigrated
"#,
    },
];

#[test]
fn a_header_alone_is_a_tree(rt: HostRuntime) {
    assert!(rt; all_end(&rt, rt.alloc(), &HEADER));
}

// A znode before its parent is loaded nowhere, and the files can be made and loaded after it.
static ORPHAN: [Run; 5] = [
    Run {
        words: &["load"],
        input: r#"{}
{"path":"/a/b"}
"#,
        code: 2,
        told: "script line 2",
        out: "",
    },
    Run {
        words: &["init"],
        input: "",
        code: 0,
        told: "",
        out: "",
    },
    Run {
        words: &["dump-tree"],
        input: "",
        code: 0,
        told: "",
        out: r#"{"sessions":[],"zxid":0}
"#,
    },
    Run {
        words: &["load"],
        input: r#"{"sessions":[1]}
{"path":"/a"}
{"path":"/a/b","owner":1,"text":"x"}
"#,
        code: 0,
        told: "",
        out: "",
    },
    Run {
        words: &["dump-tree"],
        input: "",
        code: 0,
        told: "",
        out: r#"{"sessions":[1],"zxid":1}
{"bytes":"","czxid":1,"mzxid":1,"path":"/a","pzxid":1,"version":0}
{"bytes":"eA==","czxid":1,"mzxid":1,"owner":1,"path":"/a/b","pzxid":1,"version":0}
"#,
    },
];

#[test]
fn a_refused_load_leaves_no_znode(rt: HostRuntime) {
    assert!(rt; all_end(&rt, rt.alloc(), &ORPHAN));
}

// A tree at the greatest zxid takes no session and no claim.
static GREATEST: [Run; 2] = [
    Run {
        words: &["load"],
        input: r#"{"zxid":9223372036854775807}
"#,
        code: 0,
        told: "",
        out: "",
    },
    Run {
        words: &["replay"],
        input: r#"{"event":"zk-open","session":1}
{"event":"quorum","ids":[3000]}
{"event":"start","controller":3000}
{"event":"elect","controller":3000}
{"event":"turn","controller":3000}
"#,
        code: 0,
        told: "",
        out: r#"1 over 17
2 done
3 done
4 elected 1 1
5 moved WAIT_FOR_BROKERS
5 looked
5 moved BECOME_CONTROLLER
5 looked
5 limit "/controller_epoch"
end events=5 steps=5 zxid=9223372036854775807 offset=1 recorded=none
"#,
    },
];

#[test]
fn the_greatest_zxid_stops_sessions_and_claims(rt: HostRuntime) {
    assert!(rt; all_end(&rt, rt.alloc(), &GREATEST));
}

// Files that hold transactions are not loaded, even where no znode is left.
static TAKEN: [Run; 4] = [
    Run {
        words: &["init"],
        input: "",
        code: 0,
        told: "",
        out: "",
    },
    Run {
        words: &["replay"],
        input: r#"{"event":"zk-open","session":1}
{"event":"zk-expire","session":1}
"#,
        code: 0,
        told: "",
        out: r#"1 done 1
2 done 2
end events=2 steps=0 zxid=2 offset=-1 recorded=none
"#,
    },
    Run {
        words: &["load"],
        input: r#"{}
"#,
        code: 12,
        told: "not empty",
        out: "",
    },
    Run {
        words: &["dump-tree"],
        input: "",
        code: 0,
        told: "",
        out: r#"{"sessions":[],"zxid":2}
"#,
    },
];

#[test]
fn files_that_hold_transactions_are_not_loaded(rt: HostRuntime) {
    assert!(rt; all_end(&rt, rt.alloc(), &TAKEN));
}
