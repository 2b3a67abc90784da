//! Copies of the values that own memory. That a copy is equal is proved; that it is made with ample memory is tested.
use crate::made::{body_of, list_of, made, one, put, text_of};
use kz_types::{
    AccessControlEntryRecord, AclEntry, AclRow, AssignmentRow, BatchRow, Body, ClientQuotaRecord,
    ConfigRecord, Configuration, Duplicate, Endpoint, Feature, Id, MetaRecord, NoMemory, Op, Pair,
    PartitionChangeRecord, PartitionEntry, PartitionRecord, PartitionRow, ProducerIdsRecord,
    QuotaEntities, QuotaEntity, QuotaEntry, QuotaRow, QuotaValue, RegisterBrokerRecord, Rendered,
    Row, ScramEntry, ScramPair, ScramRow, Sequence, Shared, TopicEntry, TopicRecord,
    UserScramCredentialRecord, ZPath,
};
use std::alloc::{AllocError, Global};
use std::process::Abort;

// Whether a value is copied.
fn is_copied<T: Duplicate + Drop>(alloc: Global, item: T) -> bool {
    item.copy(alloc).is_ok()
}

const ID: Id = Id { bytes: [7; 16] };

const QUOTA: QuotaValue = QuotaValue {
    whole: 12,
    micros: 500_000,
};

fn broker(rt: &impl Abort, alloc: Global) -> MetaRecord {
    let endpoint = Endpoint {
        name: text_of(rt, alloc, "PLAINTEXT"),
        host: text_of(rt, alloc, "localhost"),
        port: 9092,
        protocol: 0,
    };
    let feature = Feature {
        name: text_of(rt, alloc, "metadata.version"),
        min: 1,
        max: 7,
    };
    MetaRecord::RegisterBroker(RegisterBrokerRecord {
        broker_id: 1,
        migrating: true,
        incarnation: ID,
        broker_epoch: 0,
        endpoints: one(rt, alloc, endpoint),
        features: one(rt, alloc, feature),
        rack: Some(text_of(rt, alloc, "r")),
        fenced: true,
        in_shutdown: false,
    })
}

// A record of each kind that speaks of brokers, topics and configurations.
fn records_of_topics(rt: &impl Abort, alloc: Global) -> Sequence<MetaRecord> {
    let mut records = one(rt, alloc, broker(rt, alloc));
    let topic = TopicRecord {
        name: text_of(rt, alloc, "orders"),
        topic_id: ID,
    };
    put(rt, &mut records, MetaRecord::Topic(topic));
    let partition = PartitionRecord {
        partition_id: 0,
        topic_id: ID,
        replicas: list_of(rt, alloc, &[1, 2]),
        isr: list_of(rt, alloc, &[1]),
        removing: list_of(rt, alloc, &[]),
        adding: list_of(rt, alloc, &[2]),
        leader: 1,
        recovery: 0,
        leader_epoch: 4,
        partition_epoch: 0,
    };
    put(rt, &mut records, MetaRecord::Partition(partition));
    let change = PartitionChangeRecord {
        partition_id: 0,
        topic_id: ID,
        isr: Some(list_of(rt, alloc, &[1])),
        leader: -2,
        replicas: None,
        removing: None,
        adding: None,
        recovery: -1,
    };
    put(rt, &mut records, MetaRecord::PartitionChange(change));
    let config = ConfigRecord {
        resource_type: 4,
        resource_name: text_of(rt, alloc, "1"),
        name: text_of(rt, alloc, "a"),
        value: Some(text_of(rt, alloc, "v")),
    };
    put(rt, &mut records, MetaRecord::Config(config));
    put(rt, &mut records, MetaRecord::RemoveTopic { topic_id: ID });
    records
}

fn credential(rt: &impl Abort, alloc: Global) -> MetaRecord {
    MetaRecord::UserScramCredential(UserScramCredentialRecord {
        name: text_of(rt, alloc, "alice"),
        mechanism: 1,
        salt: body_of(rt, alloc, "salt"),
        stored_key: body_of(rt, alloc, "key"),
        server_key: body_of(rt, alloc, "server"),
        iterations: 4096,
    })
}

fn client_quota(rt: &impl Abort, alloc: Global) -> MetaRecord {
    let user = QuotaEntity {
        kind: text_of(rt, alloc, "user"),
        name: Some(text_of(rt, alloc, "alice")),
    };
    MetaRecord::ClientQuota(ClientQuotaRecord {
        entity: QuotaEntities::from_vec(one(rt, alloc, user).into_vec()),
        key: text_of(rt, alloc, "producer_byte_rate"),
        value: QUOTA,
        remove: false,
    })
}

fn access_control_entry(rt: &impl Abort, alloc: Global) -> MetaRecord {
    MetaRecord::AccessControlEntry(AccessControlEntryRecord {
        id: ID,
        resource_type: 2,
        resource_name: text_of(rt, alloc, "orders"),
        pattern_type: 3,
        principal: text_of(rt, alloc, "User:alice"),
        host: text_of(rt, alloc, "*"),
        operation: 3,
        permission: 3,
    })
}

// A record of each kind that speaks of users, quotas and entries.
fn records_of_users(rt: &impl Abort, alloc: Global) -> Sequence<MetaRecord> {
    let mut records = one(rt, alloc, credential(rt, alloc));
    let removed = MetaRecord::RemoveUserScramCredential {
        name: text_of(rt, alloc, "alice"),
        mechanism: 1,
    };
    put(rt, &mut records, removed);
    put(rt, &mut records, client_quota(rt, alloc));
    let ids = ProducerIdsRecord {
        broker_id: 1,
        broker_epoch: 0,
        next: 1000,
    };
    put(rt, &mut records, MetaRecord::ProducerIds(ids));
    put(rt, &mut records, access_control_entry(rt, alloc));
    let removed = MetaRecord::RemoveAccessControlEntry { id: ID };
    put(rt, &mut records, removed);
    records
}

// A batch with a record of each kind that speaks of the log.
fn batch(rt: &impl Abort, alloc: Global) -> BatchRow {
    let mut items = one(rt, alloc, MetaRecord::NoOp);
    put(rt, &mut items, MetaRecord::ZkMigrationState { state: 1 });
    let name = Some(text_of(rt, alloc, "ZK Migration"));
    put(rt, &mut items, MetaRecord::BeginTransaction { name });
    put(rt, &mut items, MetaRecord::EndTransaction);
    let reason = Some(text_of(rt, alloc, "none"));
    put(rt, &mut items, MetaRecord::AbortTransaction { reason });
    BatchRow {
        first: 0,
        epoch: 1,
        time: 8,
        items,
    }
}

#[test]
fn records_are_copied(rt: HostRuntime) {
    let alloc = rt.alloc();
    assert!(rt; is_copied(alloc, records_of_topics(&rt, alloc)));
    assert!(rt; is_copied(alloc, records_of_users(&rt, alloc)));
    assert!(rt; is_copied(alloc, batch(&rt, alloc)));
}

/// A member of a configuration.
pub fn pair(rt: &impl Abort, alloc: Global) -> Pair {
    Pair {
        name: text_of(rt, alloc, "a"),
        value: text_of(rt, alloc, "v"),
    }
}

// The quotas and the credential of a user.
fn quota_body(rt: &impl Abort, alloc: Global) -> Body {
    let quota = QuotaRow {
        key: text_of(rt, alloc, "producer_byte_rate"),
        value: QUOTA,
    };
    let value = ScramRow {
        salt: body_of(rt, alloc, "salt"),
        stored_key: body_of(rt, alloc, "key"),
        server_key: body_of(rt, alloc, "server"),
        iterations: 4096,
    };
    let scram = ScramPair {
        mechanism: 1,
        value,
    };
    Body::Quota {
        quotas: one(rt, alloc, quota),
        scrams: one(rt, alloc, scram),
    }
}

// A body of each kind.
fn bodies(rt: &impl Abort, alloc: Global) -> Sequence<Body> {
    let mut bodies = one(rt, alloc, quota_body(rt, alloc));
    let assignment = AssignmentRow {
        number: 0,
        replicas: list_of(rt, alloc, &[1, 2]),
        adding: list_of(rt, alloc, &[2]),
        removing: list_of(rt, alloc, &[]),
    };
    let partitions = one(rt, alloc, assignment);
    put(rt, &mut bodies, Body::Topic { id: ID, partitions });
    let state = Body::State {
        leader: 1,
        leader_epoch: 4,
        controller_epoch: 5,
        isr: list_of(rt, alloc, &[1, 2]),
        recovery: 0,
    };
    put(rt, &mut bodies, state);
    let pairs = one(rt, alloc, pair(rt, alloc));
    put(rt, &mut bodies, Body::Config { pairs });
    let row = AclRow {
        kind: 2,
        pattern: 3,
        name: text_of(rt, alloc, "orders"),
        principal: text_of(rt, alloc, "User:alice"),
        host: text_of(rt, alloc, "*"),
        operation: 3,
        permission: 3,
    };
    let rows = one(rt, alloc, row);
    put(rt, &mut bodies, Body::Acls { rows });
    let producer = Body::Producer {
        broker: -1,
        start: 0,
        end: 999,
    };
    put(rt, &mut bodies, producer);
    put(rt, &mut bodies, Body::Blank);
    bodies
}

fn path_of(rt: &impl Abort, alloc: Global) -> ZPath {
    made(rt, ZPath::new(alloc, b"/a"))
}

// An operation of each kind.
fn ops(rt: &impl Abort, alloc: Global) -> Sequence<Op> {
    let create = Op::Create {
        path: path_of(rt, alloc),
        body: body_of(rt, alloc, "{}"),
        owner: Some(1),
    };
    let mut ops = one(rt, alloc, create);
    let set = Op::Set {
        path: path_of(rt, alloc),
        body: body_of(rt, alloc, "{}"),
        version: 0,
    };
    put(rt, &mut ops, set);
    let path = path_of(rt, alloc);
    put(rt, &mut ops, Op::Delete { path, version: 1 });
    let path = path_of(rt, alloc);
    put(rt, &mut ops, Op::Check { path, version: -1 });
    ops
}

/// A znode with all its numbers.
pub fn row(rt: &impl Abort, alloc: Global) -> Row {
    Row {
        path: path_of(rt, alloc),
        body: body_of(rt, alloc, "b"),
        version: 2,
        owner: Some(1),
        czxid: 3,
        mzxid: 4,
        pzxid: 5,
    }
}

/// A znode as metadata has it.
pub fn rendered(rt: &impl Abort, alloc: Global) -> Rendered {
    Rendered {
        path: path_of(rt, alloc),
        body: body_of(rt, alloc, "b"),
    }
}

#[test]
fn operations_znodes_and_their_bodies_are_copied(rt: HostRuntime) {
    let alloc = rt.alloc();
    assert!(rt; is_copied(alloc, bodies(&rt, alloc)));
    assert!(rt; is_copied(alloc, ops(&rt, alloc)));
    assert!(rt; is_copied(alloc, row(&rt, alloc)));
    assert!(rt; is_copied(alloc, rendered(&rt, alloc)));
}

fn partition_row(rt: &impl Abort, alloc: Global) -> PartitionRow {
    PartitionRow {
        replicas: list_of(rt, alloc, &[1, 2]),
        isr: list_of(rt, alloc, &[1]),
        removing: list_of(rt, alloc, &[]),
        adding: list_of(rt, alloc, &[2]),
        leader: 1,
        recovery: 0,
        leader_epoch: 4,
        partition_epoch: 3,
        controller_epoch: 5,
    }
}

/// A configuration of one member.
pub fn configuration(rt: &impl Abort, alloc: Global) -> Configuration {
    Configuration {
        name: text_of(rt, alloc, "1"),
        pairs: one(rt, alloc, pair(rt, alloc)),
    }
}

fn topic_entry(rt: &impl Abort, alloc: Global) -> TopicEntry {
    let partition = PartitionEntry {
        number: 0,
        row: partition_row(rt, alloc),
    };
    TopicEntry {
        name: text_of(rt, alloc, "orders"),
        id: ID,
        partitions: one(rt, alloc, made(rt, Shared::new(alloc, partition))),
        pairs: one(rt, alloc, pair(rt, alloc)),
    }
}

fn quota_entry(rt: &impl Abort, alloc: Global) -> QuotaEntry {
    let quota = QuotaRow {
        key: text_of(rt, alloc, "producer_byte_rate"),
        value: QUOTA,
    };
    QuotaEntry {
        path: path_of(rt, alloc),
        quotas: one(rt, alloc, quota),
    }
}

fn scram_entry(rt: &impl Abort, alloc: Global) -> ScramEntry {
    let value = ScramRow {
        salt: body_of(rt, alloc, "salt"),
        stored_key: body_of(rt, alloc, "key"),
        server_key: body_of(rt, alloc, "server"),
        iterations: 4096,
    };
    let scram = ScramPair {
        mechanism: 2,
        value,
    };
    ScramEntry {
        name: text_of(rt, alloc, "alice"),
        scrams: one(rt, alloc, scram),
    }
}

fn acl_entry(rt: &impl Abort, alloc: Global) -> AclEntry {
    let row = AclRow {
        kind: 2,
        pattern: 3,
        name: text_of(rt, alloc, "orders"),
        principal: text_of(rt, alloc, "User:alice"),
        host: text_of(rt, alloc, "*"),
        operation: 3,
        permission: 3,
    };
    AclEntry { id: ID, row }
}

#[test]
fn entities_of_the_metadata_are_copied(rt: HostRuntime) {
    let alloc = rt.alloc();
    assert!(rt; is_copied(alloc, topic_entry(&rt, alloc)));
    assert!(rt; is_copied(alloc, quota_entry(&rt, alloc)));
    assert!(rt; is_copied(alloc, scram_entry(&rt, alloc)));
    assert!(rt; is_copied(alloc, acl_entry(&rt, alloc)));
}

#[test]
fn metadata_and_numbers_are_copied(rt: HostRuntime) {
    let alloc = rt.alloc();
    assert!(rt; is_copied(alloc, partition_row(&rt, alloc)));
    assert!(rt; is_copied(alloc, configuration(&rt, alloc)));
    assert!(rt; is_copied(alloc, 7i32));
    assert!(rt; is_copied(alloc, 7i64));
    assert!(rt; is_copied(alloc, ID));
    assert!(rt; is_copied(alloc, QUOTA));
    assert!(rt; is_copied(alloc, Some(5u8)));
    assert!(rt; NoMemory::from(AllocError) == NoMemory);
}
