//! Migrations and changes of all kinds of entities.
use crate::made::prints;
use kz_replay::Status;

// Scripts, how their runs end, and what they print.
const SCRIPTS: [(&str, Status, &str); 3] = [
    // the shipped example: a cluster is migrated, and changes are written back
    (
        r#"# A small cluster in ZooKeeper mode: three brokers, a topic of three partitions with a configuration, a user with a quota
# and a credential, and two access control entries.
{"event":"zk-open","session":1}
{"event":"zk","ops":[{"op":"create","path":"/brokers"},{"op":"create","path":"/brokers/ids"},{"op":"create","path":"/brokers/ids/1","owner":1,"text":"{}"},{"op":"create","path":"/brokers/ids/2","owner":1,"text":"{}"},{"op":"create","path":"/brokers/ids/3","owner":1,"text":"{}"},{"op":"create","path":"/controller","owner":1,"text":"{\"version\":1,\"brokerid\":1,\"timestamp\":\"0\"}"},{"op":"create","path":"/controller_epoch","text":"5"}]}
{"event":"zk","ops":[{"op":"create","path":"/brokers/topics"},{"op":"create","path":"/brokers/topics/orders","text":"{\"version\":3, \"topic_id\":\"AAECAwQFBgcICQoLDA0ODw\",\"partitions\":{\"0\":[1,2],\"1\":[2,3],\"2\":[3,1]},\"adding_replicas\":{},\"removing_replicas\":{},\"note\":1}"},{"op":"create","path":"/brokers/topics/orders/partitions"},{"op":"create","path":"/brokers/topics/orders/partitions/0"},{"op":"create","path":"/brokers/topics/orders/partitions/0/state","text":"{\"controller_epoch\":5,\"leader\":1,\"version\":1,\"leader_epoch\":4,\"isr\":[1,2]}"},{"op":"create","path":"/brokers/topics/orders/partitions/1"},{"op":"create","path":"/brokers/topics/orders/partitions/1/state","text":"{\"controller_epoch\":5,\"leader\":2,\"version\":1,\"leader_epoch\":0,\"isr\":[2,3]}"},{"op":"create","path":"/brokers/topics/orders/partitions/2"},{"op":"create","path":"/brokers/topics/orders/partitions/2/state","text":"{\"controller_epoch\":5,\"leader\":3,\"version\":1,\"leader_epoch\":0,\"isr\":[3,1]}"}]}
{"event":"zk","ops":[{"op":"create","path":"/config"},{"op":"create","path":"/config/topics"},{"op":"create","path":"/config/topics/orders","text":"{\"version\":1,\"config\":{\"retention.ms\":\"86400000\"}}"},{"op":"create","path":"/config/users"},{"op":"create","path":"/config/users/alice","text":"{\"version\":1,\"config\":{\"producer_byte_rate\":\"1024.0\",\"SCRAM-SHA-256\":\"salt=c2FsdA==,stored_key=a2V5,server_key=c2Vy,iterations=4096\"}}"}]}
{"event":"zk","ops":[{"op":"create","path":"/kafka-acl"},{"op":"create","path":"/kafka-acl/Topic"},{"op":"create","path":"/kafka-acl/Topic/orders","text":"{\"version\":1,\"acls\":[{\"principal\":\"User:alice\",\"permissionType\":\"Allow\",\"operation\":\"Read\",\"host\":\"*\"},{\"principal\":\"User:alice\",\"permissionType\":\"Allow\",\"operation\":\"Write\",\"host\":\"*\"}]}"}]}
{"event":"quorum","ids":[3000]}
{"event":"start","controller":3000}
{"event":"elect","controller":3000}
# The migration waits until each broker is registered as ready for it.
{"event":"turn","controller":3000}
{"event":"register","controller":3000,"broker":1,"migrating":true}
{"event":"register","controller":3000,"broker":2,"migrating":true}
{"event":"register","controller":3000,"broker":3,"migrating":true}
# Everything is read as nine records, committed in one transaction, and written back.
{"event":"turn","controller":3000}
{"event":"check"}
# From now on clients can't change what is migrated.
{"event":"zk","ops":[{"op":"set","path":"/brokers/topics/orders","version":-1,"text":"{}"}]}
# Broker 2 falls out of sync in partition 0, and then leads it: its leader epoch rises with each stated leader.
{"event":"change","controller":3000,"records":[{"kind":"PartitionChange","partitionId":0,"topicId":"AAECAwQFBgcICQoLDA0ODw","isr":[1]}]}
{"event":"turn","controller":3000}
{"event":"change","controller":3000,"records":[{"kind":"PartitionChange","partitionId":0,"topicId":"AAECAwQFBgcICQoLDA0ODw","isr":[2],"leader":2}]}
{"event":"turn","controller":3000}
# A topic more, with its partition; a quota of a client of a user; and the entries of a resource are gone.
{"event":"change","controller":3000,"records":[{"kind":"Topic","name":"payments","topicId":"EBESExQVFhcYGRobHB0eHw"},{"kind":"Partition","partitionId":0,"topicId":"EBESExQVFhcYGRobHB0eHw","replicas":[1],"isr":[1],"removing":[],"adding":[],"leader":1,"leaderEpoch":0,"partitionEpoch":0},{"kind":"ClientQuota","entity":[{"kind":"user","name":"alice"},{"kind":"client-id","name":"billing"}],"key":"consumer_byte_rate","value":"2048.5","remove":false},{"kind":"RemoveAccessControlEntry","id":"S1JBRlRNSUcAAAAAAAAAAA"},{"kind":"RemoveAccessControlEntry","id":"S1JBRlRNSUcAAAAAAAAAAQ"}]}
{"event":"turn","controller":3000}
{"event":"check"}
"#,
        Status::Done,
        "3 done 1
4 done 2
5 done 3
6 done 4
7 done 5
8 done
9 done
10 elected 1 1
12 moved WAIT_FOR_BROKERS
12 looked
12 wait-broker 1
13 appended 2
14 appended 3
15 appended 4
17 looked
17 moved BECOME_CONTROLLER
17 looked
17 claimed 6
17 read 15
17 appended 5
17 appended 14
17 appended 16
17 looked
17 read 15
17 recorded 16
17 moved DUAL_WRITE
17 idle
18 closed 16
20 kraft-holds \"/brokers/topics/orders\"
22 appended 17
23 looked
23 recorded 17
23 idle
24 appended 18
25 looked
25 recorded 18
25 idle
27 appended 23
28 looked
28 recorded 23
28 idle
29 closed 23
end events=22 steps=25 zxid=10 offset=23 recorded=23
",
    ),
    // a topic without an id stops the migration, and nothing is appended
    (
        r#"{"event":"zk","ops":[{"op":"create","path":"/brokers"},{"op":"create","path":"/brokers/topics"},{"op":"create","path":"/brokers/topics/t","text":"{\"version\":2,\"partitions\":{\"0\":[1]},\"adding_replicas\":{},\"removing_replicas\":{}}"}]}
{"event":"quorum","ids":[3000]}
{"event":"start","controller":3000}
{"event":"elect","controller":3000}
{"event":"turn","controller":3000}
"#,
        Status::Done,
        "1 done 1
2 done
3 done
4 elected 1 1
5 moved WAIT_FOR_BROKERS
5 looked
5 moved BECOME_CONTROLLER
5 looked
5 claimed 1
5 read 2
5 untranslatable \"/brokers/topics/t\" no-topic-id
end events=5 steps=7 zxid=2 offset=1 recorded=-1
",
    ),
    // a topic is made, clients are kept from it, and records that break a rule are told
    (
        r#"{"event":"quorum","ids":[3000]}
{"event":"start","controller":3000}
{"event":"elect","controller":3000}
{"event":"turn","controller":3000}
{"event":"change","controller":3000,"records":[{"kind":"Topic","name":"t","topicId":"AAECAwQFBgcICQoLDA0ODw"},{"kind":"Partition","partitionId":0,"topicId":"AAECAwQFBgcICQoLDA0ODw","replicas":[1],"isr":[1],"removing":[],"adding":[],"leader":1,"leaderEpoch":0,"partitionEpoch":0}]}
{"event":"turn","controller":3000}
{"event":"zk","ops":[{"op":"create","path":"/brokers/topics/t"}]}
{"event":"zk","ops":[{"op":"set","path":"/migration","version":-1}]}
{"event":"change","controller":3000,"records":[{"kind":"NoOp"},{"kind":"Topic","name":"t","topicId":"EBESExQVFhcYGRobHB0eHw"}]}
{"event":"change","controller":3000,"records":[{"kind":"ZkMigrationState","state":3}]}
{"event":"change","controller":3000,"records":[{"kind":"RemoveTopic","topicId":"EBESExQVFhcYGRobHB0eHw"}]}
{"event":"change","controller":3000,"records":[{"kind":"PartitionChange","partitionId":0,"topicId":"AAECAwQFBgcICQoLDA0ODw","leader":2}]}
{"event":"change","controller":3000,"records":[{"kind":"RemoveTopic","topicId":"AAECAwQFBgcICQoLDA0ODw"}]}
{"event":"turn","controller":3000}
{"event":"check"}
"#,
        Status::Done,
        "1 done
2 done
3 elected 1 1
4 moved WAIT_FOR_BROKERS
4 looked
4 moved BECOME_CONTROLLER
4 looked
4 claimed 1
4 read 0
4 appended 2
4 appended 4
4 looked
4 read 0
4 recorded 4
4 moved DUAL_WRITE
4 idle
5 appended 6
6 looked
6 recorded 6
6 idle
7 kraft-holds \"/brokers/topics/t\"
8 reserved \"/migration\"
9 bad-record 1 2
10 bad-record 0 1
11 bad-record 0 3
12 bad-record 0 5
13 appended 7
14 looked
14 recorded 7
14 idle
15 closed 7
end events=15 steps=19 zxid=4 offset=7 recorded=7
",
    ),
];

#[test]
fn entities_are_migrated_and_changed(rt: HostRuntime) {
    let scripts = SCRIPTS;
    for (script, status, lines) in &scripts {
        assert!(rt; prints(&rt, rt.alloc(), script, status, lines));
    }
}
