//! The migration of a worked cluster of all kinds of entities.
use crate::drivers::{MIGRATING, append, create, elect, elected, has_body, new_stores, tells};
use crate::made::made;
use kz_session::MemoryTree;
use kz_tree::ZTree;
use kz_types::{Id, MetaRecord, PartitionChangeRecord, Sequence};
use std::alloc::Global;
use std::process::Abort;

/// The znodes of a cluster in ZooKeeper mode: a topic of three partitions, its configuration, a user with a quota and a
/// credential, and two access control entries.
pub static ZNODES: [(&str, &str); 20] = [
    ("/brokers", ""),
    ("/brokers/topics", ""),
    (
        "/brokers/topics/orders",
        "{\"version\":3, \"topic_id\":\"AAECAwQFBgcICQoLDA0ODw\",\"partitions\":{\"0\":[1,2],\"1\":[2,3],\"2\":[3,1]},\"adding_replicas\":{},\"removing_replicas\":{},\"note\":1}",
    ),
    ("/brokers/topics/orders/partitions", ""),
    ("/brokers/topics/orders/partitions/0", ""),
    (
        "/brokers/topics/orders/partitions/0/state",
        "{\"controller_epoch\":5,\"leader\":1,\"version\":1,\"leader_epoch\":4,\"isr\":[1,2]}",
    ),
    ("/brokers/topics/orders/partitions/1", ""),
    (
        "/brokers/topics/orders/partitions/1/state",
        "{\"controller_epoch\":5,\"leader\":2,\"version\":1,\"leader_epoch\":0,\"isr\":[2,3]}",
    ),
    ("/brokers/topics/orders/partitions/2", ""),
    (
        "/brokers/topics/orders/partitions/2/state",
        "{\"controller_epoch\":5,\"leader\":3,\"version\":1,\"leader_epoch\":0,\"isr\":[3,1]}",
    ),
    ("/config", ""),
    ("/config/topics", ""),
    (
        "/config/topics/orders",
        "{\"version\":1,\"config\":{\"retention.ms\":\"86400000\"}}",
    ),
    ("/config/users", ""),
    (
        "/config/users/alice",
        "{\"version\":1,\"config\":{\"producer_byte_rate\":\"1024.0\",\"SCRAM-SHA-256\":\"salt=c2FsdA==,stored_key=a2V5,server_key=c2Vy,iterations=4096\"}}",
    ),
    (
        "/controller",
        "{\"version\":1,\"brokerid\":1,\"timestamp\":\"0\"}",
    ),
    ("/controller_epoch", "5"),
    ("/kafka-acl", ""),
    ("/kafka-acl/Topic", ""),
    (
        "/kafka-acl/Topic/orders",
        "{\"version\":1,\"acls\":[{\"principal\":\"User:alice\",\"permissionType\":\"Allow\",\"operation\":\"Read\",\"host\":\"*\"},{\"principal\":\"User:alice\",\"permissionType\":\"Allow\",\"operation\":\"Write\",\"host\":\"*\"}]}",
    ),
];

const MIGRATION: &str = "1 moved WAIT_FOR_BROKERS
1 looked
1 moved BECOME_CONTROLLER
1 looked
1 claimed 6
1 read 15
1 appended 2
1 appended 11
1 appended 13
1 looked
1 read 15
1 recorded 13
1 moved DUAL_WRITE
1 idle
";

// What stands there after the migration.
static MIGRATED: [(&str, &str); 8] = [
    (
        "/brokers/topics/orders",
        "{\"adding_replicas\":{},\"partitions\":{\"0\":[1,2],\"1\":[2,3],\"2\":[3,1]},\"removing_replicas\":{},\"topic_id\":\"AAECAwQFBgcICQoLDA0ODw\",\"version\":3}",
    ),
    (
        "/brokers/topics/orders/partitions/0/state",
        "{\"controller_epoch\":1,\"isr\":[1,2],\"leader\":1,\"leader_epoch\":4,\"leader_recovery_state\":0,\"version\":1}",
    ),
    (
        "/config/topics/orders",
        "{\"config\":{\"retention.ms\":\"86400000\"},\"version\":1}",
    ),
    (
        "/config/users/alice",
        "{\"config\":{\"SCRAM-SHA-256\":\"salt=c2FsdA==,stored_key=a2V5,server_key=c2Vy,iterations=4096\",\"producer_byte_rate\":\"1024\"},\"version\":1}",
    ),
    (
        "/kafka-acl/Topic/orders",
        "{\"acls\":[{\"host\":\"*\",\"operation\":\"Read\",\"permissionType\":\"Allow\",\"principal\":\"User:alice\"},{\"host\":\"*\",\"operation\":\"Write\",\"permissionType\":\"Allow\",\"principal\":\"User:alice\"}],\"version\":1}",
    ),
    (
        "/controller",
        "{\"brokerid\":3000,\"kraftControllerEpoch\":1,\"timestamp\":\"8\",\"version\":2}",
    ),
    ("/latest_producer_id_block", ""),
    ("/kafka-acl-extended/prefixed/Cluster", ""),
];

// Whether the znode of a topic was written once since it was made.
fn is_written_once(tree: &MemoryTree) -> bool {
    match tree.tree().row(b"/brokers/topics/orders") {
        Some(row) => row.version == 1,
        None => false,
    }
}

// A change of partition 0: its brokers in sync, and its leader, where -2 is none that is stated.
fn change(rt: &impl Abort, alloc: Global, in_sync: i32, leader: i32) -> MetaRecord {
    let mut isr = Sequence::new(alloc);
    made(rt, isr.push(in_sync));
    MetaRecord::PartitionChange(PartitionChangeRecord {
        partition_id: 0,
        topic_id: Id {
            bytes: [0, 1, 2, 3, 4, 5, 6, 7, 8, 9, 10, 11, 12, 13, 14, 15],
        },
        isr: Some(isr),
        leader,
        replicas: None,
        removing: None,
        adding: None,
        recovery: -1,
    })
}

const STATE: &str = "/brokers/topics/orders/partitions/0/state";

#[test]
fn a_cluster_is_migrated_and_changes_are_written_back(rt: HostRuntime) {
    let alloc = rt.alloc();
    let mut stores = new_stores(&rt, alloc, &[3000], &[3000]);
    for (path, body) in &ZNODES {
        create(&rt, alloc, stores.tree.inner_mut(), path, body);
    }
    elect(&rt, &mut stores, &MIGRATING);
    let mut driver = elected(alloc, 3000, 1);
    tells(&rt, alloc, &mut driver, &mut stores, MIGRATION);
    for (path, body) in &MIGRATED {
        assert!(rt; has_body(stores.tree.inner(), path, body));
    }
    assert!(rt; is_written_once(stores.tree.inner()));
    append(&rt, &mut stores, change(&rt, alloc, 1, -2));
    let lines = "1 looked\n1 recorded 14\n1 idle\n";
    tells(&rt, alloc, &mut driver, &mut stores, lines);
    append(&rt, &mut stores, change(&rt, alloc, 2, 2));
    let lines = "1 looked\n1 recorded 15\n1 idle\n";
    tells(&rt, alloc, &mut driver, &mut stores, lines);
    assert!(rt;
        has_body(
            stores.tree.inner(),
            STATE,
            "{\"controller_epoch\":1,\"isr\":[2],\"leader\":2,\"leader_epoch\":5,\"leader_recovery_state\":0,\"version\":1}"
        )
    );
    drop(driver);
    drop(stores);
}
