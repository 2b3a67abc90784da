//! What is told of files, and words that name no command.
use crate::made::{Run, all_end};

// Scripts with one change, and with too many; the files are not touched, so they can be made afterwards.
static GENERATED: [Run; 6] = [
    Run {
        words: &["generate", "1"],
        input: "",
        code: 0,
        told: "",
        out: r#"{"event":"quorum","ids":[3000,3001]}
{"controller":3000,"event":"start"}
{"controller":3001,"event":"start"}
{"controller":3000,"event":"elect"}
{"controller":3000,"event":"turn"}
{"controller":3000,"event":"change","records":[{"kind":"Config","name":"k","resourceName":"1","resourceType":4,"value":"1103527590"}]}
{"controller":3000,"event":"turn"}
{"event":"check"}
"#,
    },
    Run {
        words: &["generate", "0"],
        input: "",
        code: 1,
        told: "usage",
        out: "",
    },
    Run {
        words: &["generate", "01"],
        input: "",
        code: 1,
        told: "usage",
        out: "",
    },
    Run {
        words: &["generate", "100001"],
        input: "",
        code: 11,
        told: "limit 14",
        out: "",
    },
    Run {
        words: &["generate", "99999999999999999999999999"],
        input: "",
        code: 11,
        told: "limit 14",
        out: "",
    },
    Run {
        words: &["init"],
        input: "",
        code: 0,
        told: "",
        out: "",
    },
];

#[test]
fn a_count_is_a_decimal_from_one_on(rt: HostRuntime) {
    assert!(rt; all_end(&rt, rt.alloc(), &GENERATED));
}

// A migration of an empty tree, and what is told of it.
static MIGRATED: [Run; 13] = [
    Run {
        words: &["init"],
        input: "",
        code: 0,
        told: "",
        out: "",
    },
    Run {
        words: &["replay"],
        input: r#"{"event":"quorum","ids":[3000]}
{"event":"start","controller":3000}
{"event":"elect","controller":3000}
{"event":"turn","controller":3000}
{"event":"check"}
"#,
        code: 0,
        told: "",
        out: r#"1 done
2 done
3 elected 1 1
4 moved WAIT_FOR_BROKERS
4 looked
4 moved BECOME_CONTROLLER
4 looked
4 claimed 1
4 read 0
4 appended 2
4 appended 4
4 looked
4 read 0
4 recorded 4
4 moved DUAL_WRITE
4 idle
5 closed 4
end events=5 steps=13 zxid=2 offset=4 recorded=4
"#,
    },
    Run {
        words: &["status"],
        input: "",
        code: 0,
        told: "",
        out: r#"zxid 2
znodes 25
epoch 1
base -1
end 4
migration 2
recorded 4
"#,
    },
    Run {
        words: &["check"],
        input: "",
        code: 0,
        told: "",
        out: r#"closed 4
"#,
    },
    Run {
        words: &["dump-log"],
        input: "",
        code: 0,
        told: "",
        out: r#"{"base":-1,"end":4,"epoch":1}
{"epoch":1,"first":0,"records":[{"kind":"NoOp"},{"kind":"ZkMigrationState","state":1}],"time":0}
{"epoch":1,"first":2,"records":[{"kind":"BeginTransaction","name":"ZK Migration"}],"time":0}
{"epoch":1,"first":3,"records":[{"kind":"ZkMigrationState","state":2},{"kind":"EndTransaction"}],"time":0}
"#,
    },
    Run {
        words: &["render", "4"],
        input: "",
        code: 0,
        told: "",
        out: r#"{"body":"","path":"/brokers/topics"}
{"body":"","path":"/config/brokers"}
{"body":"","path":"/config/clients"}
{"body":"","path":"/config/ips"}
{"body":"","path":"/config/topics"}
{"body":"","path":"/config/users"}
{"body":"","path":"/kafka-acl-extended/prefixed/Cluster"}
{"body":"","path":"/kafka-acl-extended/prefixed/DelegationToken"}
{"body":"","path":"/kafka-acl-extended/prefixed/Group"}
{"body":"","path":"/kafka-acl-extended/prefixed/Topic"}
{"body":"","path":"/kafka-acl-extended/prefixed/TransactionalId"}
{"body":"","path":"/kafka-acl/Cluster"}
{"body":"","path":"/kafka-acl/DelegationToken"}
{"body":"","path":"/kafka-acl/Group"}
{"body":"","path":"/kafka-acl/Topic"}
{"body":"","path":"/kafka-acl/TransactionalId"}
{"body":"","path":"/latest_producer_id_block"}
"#,
    },
    Run {
        words: &["render", "5"],
        input: "",
        code: 13,
        told: "no offset -1 4",
        out: "",
    },
    Run {
        words: &["render", "3"],
        input: "",
        code: 0,
        told: "",
        out: r#"{"body":"","path":"/brokers/topics"}
{"body":"","path":"/config/brokers"}
{"body":"","path":"/config/clients"}
{"body":"","path":"/config/ips"}
{"body":"","path":"/config/topics"}
{"body":"","path":"/config/users"}
{"body":"","path":"/kafka-acl-extended/prefixed/Cluster"}
{"body":"","path":"/kafka-acl-extended/prefixed/DelegationToken"}
{"body":"","path":"/kafka-acl-extended/prefixed/Group"}
{"body":"","path":"/kafka-acl-extended/prefixed/Topic"}
{"body":"","path":"/kafka-acl-extended/prefixed/TransactionalId"}
{"body":"","path":"/kafka-acl/Cluster"}
{"body":"","path":"/kafka-acl/DelegationToken"}
{"body":"","path":"/kafka-acl/Group"}
{"body":"","path":"/kafka-acl/Topic"}
{"body":"","path":"/kafka-acl/TransactionalId"}
{"body":"","path":"/latest_producer_id_block"}
"#,
    },
    Run {
        words: &["init"],
        input: "",
        code: 12,
        told: "not empty",
        out: "",
    },
    Run {
        words: &["init", "x"],
        input: "",
        code: 1,
        told: "usage",
        out: "",
    },
    Run {
        words: &["replay"],
        input: "{}",
        code: 2,
        told: "script line 1",
        out: "",
    },
    Run {
        words: &["render", "-1"],
        input: "",
        code: 1,
        told: "usage",
        out: "",
    },
    Run {
        words: &["render", "04"],
        input: "",
        code: 1,
        told: "usage",
        out: "",
    },
];

#[test]
fn a_migration_is_told(rt: HostRuntime) {
    assert!(rt; all_end(&rt, rt.alloc(), &MIGRATED));
}

// A write that is under way.
static AHEAD: [Run; 5] = [
    Run {
        words: &["init"],
        input: "",
        code: 0,
        told: "",
        out: "",
    },
    Run {
        words: &["replay"],
        input: r#"{"event":"quorum","ids":[3000]}
{"event":"start","controller":3000}
{"event":"elect","controller":3000}
{"event":"turn","controller":3000}
{"event":"check"}
{"event":"change","controller":3000,"records":[{"kind":"Config","resourceType":4,"resourceName":"1","name":"a","value":"1"},{"kind":"Config","resourceType":4,"resourceName":"2","name":"a","value":"1"},{"kind":"Config","resourceType":4,"resourceName":"3","name":"a","value":"1"},{"kind":"Config","resourceType":4,"resourceName":"4","name":"a","value":"1"},{"kind":"Config","resourceType":4,"resourceName":"5","name":"a","value":"1"},{"kind":"Config","resourceType":4,"resourceName":"6","name":"a","value":"1"},{"kind":"Config","resourceType":4,"resourceName":"7","name":"a","value":"1"},{"kind":"Config","resourceType":4,"resourceName":"8","name":"a","value":"1"},{"kind":"Config","resourceType":4,"resourceName":"9","name":"a","value":"1"},{"kind":"Config","resourceType":4,"resourceName":"10","name":"a","value":"1"},{"kind":"Config","resourceType":4,"resourceName":"11","name":"a","value":"1"},{"kind":"Config","resourceType":4,"resourceName":"12","name":"a","value":"1"},{"kind":"Config","resourceType":4,"resourceName":"13","name":"a","value":"1"},{"kind":"Config","resourceType":4,"resourceName":"14","name":"a","value":"1"},{"kind":"Config","resourceType":4,"resourceName":"15","name":"a","value":"1"},{"kind":"Config","resourceType":4,"resourceName":"16","name":"a","value":"1"},{"kind":"Config","resourceType":4,"resourceName":"17","name":"a","value":"1"},{"kind":"Config","resourceType":4,"resourceName":"18","name":"a","value":"1"},{"kind":"Config","resourceType":4,"resourceName":"19","name":"a","value":"1"},{"kind":"Config","resourceType":4,"resourceName":"20","name":"a","value":"1"},{"kind":"Config","resourceType":4,"resourceName":"21","name":"a","value":"1"},{"kind":"Config","resourceType":4,"resourceName":"22","name":"a","value":"1"},{"kind":"Config","resourceType":4,"resourceName":"23","name":"a","value":"1"},{"kind":"Config","resourceType":4,"resourceName":"24","name":"a","value":"1"},{"kind":"Config","resourceType":4,"resourceName":"25","name":"a","value":"1"},{"kind":"Config","resourceType":4,"resourceName":"26","name":"a","value":"1"},{"kind":"Config","resourceType":4,"resourceName":"27","name":"a","value":"1"},{"kind":"Config","resourceType":4,"resourceName":"28","name":"a","value":"1"},{"kind":"Config","resourceType":4,"resourceName":"29","name":"a","value":"1"},{"kind":"Config","resourceType":4,"resourceName":"30","name":"a","value":"1"},{"kind":"Config","resourceType":4,"resourceName":"31","name":"a","value":"1"},{"kind":"Config","resourceType":4,"resourceName":"32","name":"a","value":"1"},{"kind":"Config","resourceType":4,"resourceName":"33","name":"a","value":"1"},{"kind":"Config","resourceType":4,"resourceName":"34","name":"a","value":"1"},{"kind":"Config","resourceType":4,"resourceName":"35","name":"a","value":"1"},{"kind":"Config","resourceType":4,"resourceName":"36","name":"a","value":"1"},{"kind":"Config","resourceType":4,"resourceName":"37","name":"a","value":"1"},{"kind":"Config","resourceType":4,"resourceName":"38","name":"a","value":"1"},{"kind":"Config","resourceType":4,"resourceName":"39","name":"a","value":"1"},{"kind":"Config","resourceType":4,"resourceName":"40","name":"a","value":"1"},{"kind":"Config","resourceType":4,"resourceName":"41","name":"a","value":"1"},{"kind":"Config","resourceType":4,"resourceName":"42","name":"a","value":"1"},{"kind":"Config","resourceType":4,"resourceName":"43","name":"a","value":"1"},{"kind":"Config","resourceType":4,"resourceName":"44","name":"a","value":"1"},{"kind":"Config","resourceType":4,"resourceName":"45","name":"a","value":"1"},{"kind":"Config","resourceType":4,"resourceName":"46","name":"a","value":"1"},{"kind":"Config","resourceType":4,"resourceName":"47","name":"a","value":"1"},{"kind":"Config","resourceType":4,"resourceName":"48","name":"a","value":"1"},{"kind":"Config","resourceType":4,"resourceName":"49","name":"a","value":"1"},{"kind":"Config","resourceType":4,"resourceName":"50","name":"a","value":"1"},{"kind":"Config","resourceType":4,"resourceName":"51","name":"a","value":"1"},{"kind":"Config","resourceType":4,"resourceName":"52","name":"a","value":"1"},{"kind":"Config","resourceType":4,"resourceName":"53","name":"a","value":"1"},{"kind":"Config","resourceType":4,"resourceName":"54","name":"a","value":"1"},{"kind":"Config","resourceType":4,"resourceName":"55","name":"a","value":"1"},{"kind":"Config","resourceType":4,"resourceName":"56","name":"a","value":"1"},{"kind":"Config","resourceType":4,"resourceName":"57","name":"a","value":"1"},{"kind":"Config","resourceType":4,"resourceName":"58","name":"a","value":"1"},{"kind":"Config","resourceType":4,"resourceName":"59","name":"a","value":"1"},{"kind":"Config","resourceType":4,"resourceName":"60","name":"a","value":"1"},{"kind":"Config","resourceType":4,"resourceName":"61","name":"a","value":"1"},{"kind":"Config","resourceType":4,"resourceName":"62","name":"a","value":"1"},{"kind":"Config","resourceType":4,"resourceName":"63","name":"a","value":"1"},{"kind":"Config","resourceType":4,"resourceName":"64","name":"a","value":"1"},{"kind":"Config","resourceType":4,"resourceName":"65","name":"a","value":"1"}]}
{"event":"step","controller":3000}
{"event":"step","controller":3000}
"#,
        code: 0,
        told: "",
        out: r#"1 done
2 done
3 elected 1 1
4 moved WAIT_FOR_BROKERS
4 looked
4 moved BECOME_CONTROLLER
4 looked
4 claimed 1
4 read 0
4 appended 2
4 appended 4
4 looked
4 read 0
4 recorded 4
4 moved DUAL_WRITE
4 idle
5 closed 4
6 appended 69
7 looked
8 wrote 64
end events=8 steps=15 zxid=3 offset=69 recorded=4
"#,
    },
    Run {
        words: &["check"],
        input: "",
        code: 0,
        told: "",
        out: r#"ahead 4 64
"/config/brokers/1" 69
"/config/brokers/10" 69
"/config/brokers/11" 69
"/config/brokers/12" 69
"/config/brokers/13" 69
"/config/brokers/14" 69
"/config/brokers/15" 69
"/config/brokers/16" 69
"/config/brokers/17" 69
"/config/brokers/18" 69
"/config/brokers/19" 69
"/config/brokers/2" 69
"/config/brokers/20" 69
"/config/brokers/21" 69
"/config/brokers/22" 69
"/config/brokers/23" 69
"/config/brokers/24" 69
"/config/brokers/25" 69
"/config/brokers/26" 69
"/config/brokers/27" 69
"/config/brokers/28" 69
"/config/brokers/29" 69
"/config/brokers/3" 69
"/config/brokers/30" 69
"/config/brokers/31" 69
"/config/brokers/32" 69
"/config/brokers/33" 69
"/config/brokers/34" 69
"/config/brokers/35" 69
"/config/brokers/36" 69
"/config/brokers/37" 69
"/config/brokers/38" 69
"/config/brokers/39" 69
"/config/brokers/4" 69
"/config/brokers/40" 69
"/config/brokers/41" 69
"/config/brokers/42" 69
"/config/brokers/43" 69
"/config/brokers/44" 69
"/config/brokers/45" 69
"/config/brokers/46" 69
"/config/brokers/47" 69
"/config/brokers/48" 69
"/config/brokers/49" 69
"/config/brokers/5" 69
"/config/brokers/50" 69
"/config/brokers/51" 69
"/config/brokers/52" 69
"/config/brokers/53" 69
"/config/brokers/54" 69
"/config/brokers/55" 69
"/config/brokers/56" 69
"/config/brokers/57" 69
"/config/brokers/58" 69
"/config/brokers/59" 69
"/config/brokers/6" 69
"/config/brokers/60" 69
"/config/brokers/61" 69
"/config/brokers/62" 69
"/config/brokers/63" 69
"/config/brokers/64" 69
"/config/brokers/65" 69
"/config/brokers/7" 69
"/config/brokers/8" 69
"#,
    },
    Run {
        words: &["render", "4"],
        input: "",
        code: 0,
        told: "",
        out: r#"{"body":"","path":"/brokers/topics"}
{"body":"","path":"/config/brokers"}
{"body":"","path":"/config/clients"}
{"body":"","path":"/config/ips"}
{"body":"","path":"/config/topics"}
{"body":"","path":"/config/users"}
{"body":"","path":"/kafka-acl-extended/prefixed/Cluster"}
{"body":"","path":"/kafka-acl-extended/prefixed/DelegationToken"}
{"body":"","path":"/kafka-acl-extended/prefixed/Group"}
{"body":"","path":"/kafka-acl-extended/prefixed/Topic"}
{"body":"","path":"/kafka-acl-extended/prefixed/TransactionalId"}
{"body":"","path":"/kafka-acl/Cluster"}
{"body":"","path":"/kafka-acl/DelegationToken"}
{"body":"","path":"/kafka-acl/Group"}
{"body":"","path":"/kafka-acl/Topic"}
{"body":"","path":"/kafka-acl/TransactionalId"}
{"body":"","path":"/latest_producer_id_block"}
"#,
    },
    Run {
        words: &["status"],
        input: "",
        code: 0,
        told: "",
        out: r#"zxid 3
znodes 89
epoch 1
base -1
end 69
migration 2
recorded 4
"#,
    },
];

#[test]
fn paths_that_are_ahead_are_told(rt: HostRuntime) {
    assert!(rt; all_end(&rt, rt.alloc(), &AHEAD));
}
