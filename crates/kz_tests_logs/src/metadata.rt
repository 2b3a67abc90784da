use kz_image::{Image, valid};
use kz_types::{
    AccessControlEntryRecord, ClientQuotaRecord, ConfigRecord, Duplicate, EntityKey, Id,
    ImageFault, ImageRule, MetaRecord, PartitionChangeRecord, PartitionRecord, ProducerIdsRecord,
    QuotaEntities, QuotaEntity, QuotaValue, RegisterBrokerRecord, Sequence, Text, TopicRecord,
    UserScramCredentialRecord,
};
use std::alloc::Global;
use std::process::Abort;

// ---- records

// What a call gave, which must not have failed.
fn made<T: Drop, E: Drop>(rt: &impl Abort, outcome: Result<T, E>) -> T {
    match outcome {
        Ok(value) => value,
        Err(_) => panic!(rt; "a call failed"),
    }
}

fn text(rt: &impl Abort, alloc: Global, text: &str) -> Text {
    made(rt, Text::from_str(alloc, text))
}

fn text_if(rt: &impl Abort, alloc: Global, value: Option<&str>) -> Option<Text> {
    match value {
        Some(value) => Some(text(rt, alloc, value)),
        None => None,
    }
}

fn list(rt: &impl Abort, alloc: Global, ids: &[i32]) -> Sequence<i32> {
    Sequence::from_vec(made(rt, ids.to_vec(alloc)))
}

fn list_if(rt: &impl Abort, alloc: Global, ids: Option<&[i32]>) -> Option<Sequence<i32>> {
    match ids {
        Some(ids) => Some(list(rt, alloc, ids)),
        None => None,
    }
}

// The id whose last byte is this one.
fn id(last: u8) -> Id {
    let mut bytes = [0; 16];
    bytes[15] = last;
    Id { bytes }
}

// A record, in few words.
#[derive(Clone, Copy)]
enum Step {
    // A name and an id.
    Topic(&'static str, u8),
    // A topic's id, a number, replicas, those in sync, the leader, and the leader epoch.
    Partition(u8, i32, &'static [i32], &'static [i32], i32, i32),
    // A topic's id, a number, those in sync.
    Isr(u8, i32, &'static [i32]),
    // A topic's id, a number, those in sync where they are stated, the leader.
    Leader(u8, i32, Option<&'static [i32]>, i32),
    RemoveTopic(u8),
    // A type, a resource, a name, and a value.
    Config(i8, &'static str, &'static str, Option<&'static str>),
    // A kind and its name, a key, a whole part, and whether it is removed.
    Quota(&'static str, Option<&'static str>, &'static str, i64, bool),
    // A user, a mechanism, iterations.
    Scram(&'static str, i8, i32),
    RemoveScram(&'static str, i8),
    // An id, a type, a name, an operation.
    Acl(u8, i8, &'static str, i8),
    RemoveAcl(u8),
    // A broker, its epoch, the next id.
    Producer(i32, i64, i64),
    // A broker and its epoch.
    Broker(i32, i64),
    State(i8),
    End,
}

fn partition(
    rt: &impl Abort,
    alloc: Global,
    (topic, number, replicas, isr, leader, leader_epoch): (u8, i32, &[i32], &[i32], i32, i32),
) -> MetaRecord {
    MetaRecord::Partition(PartitionRecord {
        partition_id: number,
        topic_id: id(topic),
        replicas: list(rt, alloc, replicas),
        isr: list(rt, alloc, isr),
        removing: Sequence::new(alloc),
        adding: Sequence::new(alloc),
        leader,
        recovery: 0,
        leader_epoch,
        partition_epoch: 0,
    })
}

fn change(topic: u8, number: i32, isr: Option<Sequence<i32>>, leader: i32) -> MetaRecord {
    MetaRecord::PartitionChange(PartitionChangeRecord {
        partition_id: number,
        topic_id: id(topic),
        isr,
        leader,
        replicas: None,
        removing: None,
        adding: None,
        recovery: -1,
    })
}

fn config(
    rt: &impl Abort,
    alloc: Global,
    (resource_type, resource, name, value): (i8, &str, &str, Option<&str>),
) -> MetaRecord {
    MetaRecord::Config(ConfigRecord {
        resource_type,
        resource_name: text(rt, alloc, resource),
        name: text(rt, alloc, name),
        value: text_if(rt, alloc, value),
    })
}

fn quota(
    rt: &impl Abort,
    alloc: Global,
    (kind, name, key, whole, remove): (&str, Option<&str>, &str, i64, bool),
) -> MetaRecord {
    let mut parts = Vec::new(alloc);
    let part = QuotaEntity {
        kind: text(rt, alloc, kind),
        name: text_if(rt, alloc, name),
    };
    made(rt, parts.push(part));
    MetaRecord::ClientQuota(ClientQuotaRecord {
        entity: QuotaEntities::from_vec(parts),
        key: text(rt, alloc, key),
        value: QuotaValue { whole, micros: 0 },
        remove,
    })
}

fn scram(
    rt: &impl Abort,
    alloc: Global,
    (name, mechanism, iterations): (&str, i8, i32),
) -> MetaRecord {
    MetaRecord::UserScramCredential(UserScramCredentialRecord {
        name: text(rt, alloc, name),
        mechanism,
        salt: Sequence::new(alloc),
        stored_key: Sequence::new(alloc),
        server_key: Sequence::new(alloc),
        iterations,
    })
}

fn acl(
    rt: &impl Abort,
    alloc: Global,
    (last, resource_type, name, operation): (u8, i8, &str, i8),
) -> MetaRecord {
    MetaRecord::AccessControlEntry(AccessControlEntryRecord {
        id: id(last),
        resource_type,
        resource_name: text(rt, alloc, name),
        pattern_type: 3,
        principal: text(rt, alloc, "User:a"),
        host: text(rt, alloc, "*"),
        operation,
        permission: 3,
    })
}

fn broker(alloc: Global, broker_id: i32, broker_epoch: i64) -> MetaRecord {
    MetaRecord::RegisterBroker(RegisterBrokerRecord {
        broker_id,
        migrating: true,
        incarnation: id(0),
        broker_epoch,
        endpoints: Sequence::new(alloc),
        features: Sequence::new(alloc),
        rack: None,
        fenced: false,
        in_shutdown: false,
    })
}

fn record(rt: &impl Abort, alloc: Global, step: &Step) -> MetaRecord {
    match *step {
        Step::Topic(name, last) => MetaRecord::Topic(TopicRecord {
            name: text(rt, alloc, name),
            topic_id: id(last),
        }),
        Step::Partition(topic, number, replicas, isr, leader, epoch) => {
            partition(rt, alloc, (topic, number, replicas, isr, leader, epoch))
        }
        Step::Isr(topic, number, isr) => change(topic, number, Some(list(rt, alloc, isr)), -2),
        Step::Leader(topic, number, isr, leader) => {
            change(topic, number, list_if(rt, alloc, isr), leader)
        }
        Step::RemoveTopic(last) => MetaRecord::RemoveTopic { topic_id: id(last) },
        Step::Config(kind, resource, name, value) => {
            config(rt, alloc, (kind, resource, name, value))
        }
        Step::Quota(kind, name, key, whole, remove) => {
            quota(rt, alloc, (kind, name, key, whole, remove))
        }
        Step::Scram(name, mechanism, iterations) => {
            scram(rt, alloc, (name, mechanism, iterations))
        }
        Step::RemoveScram(name, mechanism) => MetaRecord::RemoveUserScramCredential {
            name: text(rt, alloc, name),
            mechanism,
        },
        Step::Acl(last, kind, name, operation) => acl(rt, alloc, (last, kind, name, operation)),
        Step::RemoveAcl(last) => MetaRecord::RemoveAccessControlEntry { id: id(last) },
        Step::Producer(broker_id, broker_epoch, next) => MetaRecord::ProducerIds(
            ProducerIdsRecord {
                broker_id,
                broker_epoch,
                next,
            },
        ),
        Step::Broker(broker_id, epoch) => broker(alloc, broker_id, epoch),
        Step::State(state) => MetaRecord::ZkMigrationState { state },
        Step::End => MetaRecord::EndTransaction,
    }
}

fn records(rt: &impl Abort, alloc: Global, steps: &[Step]) -> Vec<MetaRecord> {
    let mut items = Vec::new(alloc);
    for step in steps {
        made(rt, items.push(record(rt, alloc, step)));
    }
    items
}

// ---- rules

// The records that are there before each case.
static BEFORE: [Step; 5] = [
    Step::Topic("t", 1),
    Step::Partition(1, 0, &[1, 2], &[1, 2], 1, 4),
    Step::Partition(1, 1, &[1, 2], &[1, 2], 1, 2147483647),
    Step::Acl(1, 2, "t", 3),
    Step::Producer(1, 1, 2000),
];

// A record that breaks one rule, and the rule.
static ALONE: [(Step, ImageRule); 61] = [
    (Step::Broker(1, 1), ImageRule::NotAllowed),
    (Step::State(3), ImageRule::NotAllowed),
    (Step::End, ImageRule::NotAllowed),
    (Step::Topic("", 2), ImageRule::BadName),
    (Step::Topic("..", 2), ImageRule::BadName),
    (Step::Topic("a/b", 2), ImageRule::BadName),
    (Step::Topic("u", 0), ImageRule::BadName),
    (Step::Partition(0, 0, &[1], &[1], 1, 0), ImageRule::BadName),
    (Step::Isr(0, 0, &[1]), ImageRule::BadName),
    (Step::RemoveTopic(0), ImageRule::BadName),
    (Step::Config(4, "01", "a", None), ImageRule::BadName),
    (Step::Config(4, "2147483648", "a", None), ImageRule::BadName),
    (Step::Config(4, "1", "", None), ImageRule::BadName),
    (Step::Config(2, ".", "a", None), ImageRule::BadName),
    (Step::Scram("", 1, 1), ImageRule::BadName),
    (Step::Scram(".", 1, 1), ImageRule::BadName),
    (Step::RemoveScram("..", 1), ImageRule::BadName),
    (
        Step::Quota("group", Some("a"), "producer_byte_rate", 1, false),
        ImageRule::BadName,
    ),
    (
        Step::Quota("user", Some(""), "producer_byte_rate", 1, false),
        ImageRule::BadName,
    ),
    (
        Step::Quota("user", Some("."), "producer_byte_rate", 1, false),
        ImageRule::BadName,
    ),
    (
        Step::Quota("user", Some("a"), "SCRAM-SHA-256", 1, false),
        ImageRule::BadName,
    ),
    (
        Step::Quota("ip", Some("a"), "producer_byte_rate", 1, false),
        ImageRule::BadName,
    ),
    (
        Step::Quota("ip", Some("a/b"), "connection_creation_rate", 1, true),
        ImageRule::BadName,
    ),
    (
        Step::Quota("ip", Some("<default>"), "connection_creation_rate", 1, true),
        ImageRule::BadName,
    ),
    (Step::Acl(0, 2, "t", 3), ImageRule::BadName),
    (Step::Acl(2, 2, "", 3), ImageRule::BadName),
    (Step::Acl(2, 2, "a/b", 3), ImageRule::BadName),
    (Step::RemoveAcl(0), ImageRule::BadName),
    (Step::Partition(2, 0, &[1], &[1], 1, 0), ImageRule::Absent),
    (Step::Isr(2, 0, &[1]), ImageRule::Absent),
    (Step::Isr(1, 2, &[1]), ImageRule::Absent),
    (Step::RemoveTopic(2), ImageRule::Absent),
    (Step::Config(2, "u", "a", None), ImageRule::Absent),
    (Step::RemoveScram("a", 1), ImageRule::Absent),
    (Step::RemoveAcl(2), ImageRule::Absent),
    (Step::Topic("t", 2), ImageRule::Exists),
    (Step::Topic("u", 1), ImageRule::Exists),
    (Step::Partition(1, 0, &[1], &[1], 1, 0), ImageRule::Exists),
    (Step::Acl(1, 2, "u", 3), ImageRule::Exists),
    (
        Step::Partition(1, -1, &[1], &[1], 1, 0),
        ImageRule::BadValue,
    ),
    (Step::Partition(1, 2, &[], &[], -1, 0), ImageRule::BadValue),
    (
        Step::Partition(1, 2, &[1, 1], &[1], 1, 0),
        ImageRule::BadValue,
    ),
    (
        Step::Partition(1, 2, &[1, -2], &[1], 1, 0),
        ImageRule::BadValue,
    ),
    (Step::Partition(1, 2, &[1], &[2], 1, 0), ImageRule::BadValue),
    (Step::Partition(1, 2, &[1], &[1], 2, 0), ImageRule::BadValue),
    (
        Step::Partition(1, 2, &[1], &[1], 1, -1),
        ImageRule::BadValue,
    ),
    (Step::Isr(1, 0, &[1, 3]), ImageRule::BadValue),
    (Step::Leader(1, 0, None, 3), ImageRule::BadValue),
    (Step::Leader(1, 1, None, 2), ImageRule::BadValue),
    (Step::Config(3, "1", "a", None), ImageRule::BadValue),
    (Step::Scram("a", 3, 1), ImageRule::BadValue),
    (Step::Scram("a", 1, 0), ImageRule::BadValue),
    (
        Step::Quota("user", None, "producer_byte_rate", -1, false),
        ImageRule::BadValue,
    ),
    (Step::Producer(-2, 1, 3000), ImageRule::BadValue),
    (Step::Producer(1, -2, 3000), ImageRule::BadValue),
    (Step::Producer(1, 2147483648, 3000), ImageRule::BadValue),
    (Step::Producer(1, 1, 1999), ImageRule::BadValue),
    (
        Step::Producer(1, 1, 9223372036854774809),
        ImageRule::BadValue,
    ),
    (Step::Acl(2, 7, "t", 3), ImageRule::BadValue),
    (Step::Acl(2, 2, "t", 1), ImageRule::BadValue),
    (Step::Acl(2, 2, "t", 13), ImageRule::BadValue),
];

// A record that breaks two rules or more, and the one that is told.
static SEVERAL: [(Step, ImageRule); 9] = [
    (Step::Broker(-1, -1), ImageRule::NotAllowed),
    (Step::Topic("a/b", 1), ImageRule::BadName),
    (Step::Partition(0, -1, &[], &[1], 2, -1), ImageRule::BadName),
    (Step::Scram("..", 3, 0), ImageRule::BadName),
    (Step::Acl(1, 7, "a/b", 1), ImageRule::BadName),
    (
        Step::Quota("user", Some("a"), "", -1, false),
        ImageRule::BadName,
    ),
    (Step::Partition(2, -1, &[], &[1], 2, -1), ImageRule::Absent),
    (Step::Partition(1, 0, &[], &[1], 2, -1), ImageRule::Exists),
    (Step::Acl(1, 7, "t", 1), ImageRule::Exists),
];

// Records that break none.
static KEPT: [Step; 12] = [
    Step::Topic("u", 2),
    Step::Partition(2, 7, &[3, 4], &[4], -1, 0),
    Step::Isr(1, 1, &[]),
    Step::Leader(1, 0, None, -1),
    Step::Config(2, "t", "a", None),
    Step::Config(4, "", "a", None),
    Step::Scram("a b", 2, 1),
    Step::RemoveScram("a b", 2),
    Step::Quota("client-id", None, "request_percentage", 0, true),
    Step::Quota(
        "ip",
        Some("::1"),
        "connection_creation_rate",
        9223372036854775807,
        false,
    ),
    Step::RemoveAcl(1),
    Step::Producer(-1, -1, 9223372036854774808),
];

// Takes a record in, which must not fail.
fn take_one(rt: &impl Abort, alloc: Global, image: &mut Image, epoch: i32, step: &Step) {
    let item = record(rt, alloc, step);
    made(rt, image.apply(epoch, &item));
    drop(item);
}

// Takes records in, in epoch 7, which must not fail.
fn take_all(rt: &impl Abort, alloc: Global, image: &mut Image, steps: &[Step]) {
    let items = records(rt, alloc, steps);
    made(rt, image.apply_all(7, &items));
    drop(items);
}

// The metadata of these records.
fn image_of(rt: &impl Abort, alloc: Global, steps: &[Step]) -> Image {
    let mut image = Image::new(alloc);
    take_all(rt, alloc, &mut image, steps);
    image
}

// Whether these records, after those that are there, are judged like this.
fn is_judged(
    rt: &impl Abort,
    alloc: Global,
    steps: &[Step],
    verdict: Result<(), ImageFault>,
) -> bool {
    let before = image_of(rt, alloc, &BEFORE);
    let items = records(rt, alloc, steps);
    let is_judged = valid(alloc, &before, &items) == verdict;
    drop(items);
    drop(before);
    is_judged
}

// Whether a record is told to break this rule, after two that break none.
fn breaks(rt: &impl Abort, alloc: Global, step: Step, why: ImageRule) -> bool {
    let steps = [Step::Isr(1, 0, &[2]), Step::Producer(1, 1, 2000), step];
    is_judged(
        rt,
        alloc,
        &steps,
        Err(ImageFault::BadRecord { index: 2, why }),
    )
}

// The first of these that isn't told.
fn first_other(rt: &impl Abort, alloc: Global, cases: &[(Step, ImageRule)]) -> Option<usize> {
    for at in 0..cases.len() {
        let (step, why) = cases[at];
        if !breaks(rt, alloc, step, why) {
            return Some(at);
        }
    }
    None
}

#[test]
fn each_rule_is_told(rt: HostRuntime) {
    let alloc = rt.alloc();
    assert!(rt; first_other(&rt, alloc, &ALONE).is_none());
}

#[test]
fn the_first_rule_is_told(rt: HostRuntime) {
    let alloc = rt.alloc();
    assert!(rt; first_other(&rt, alloc, &SEVERAL).is_none());
}

#[test]
fn what_breaks_no_rule_is_valid(rt: HostRuntime) {
    let alloc = rt.alloc();
    assert!(rt; is_judged(&rt, alloc, &KEPT, Ok(())));
}

// Records, each after those before it: the first topic is gone, and its name and its id are free.
static ANEW: [Step; 4] = [
    Step::RemoveTopic(1),
    Step::Topic("t", 1),
    Step::Partition(1, 0, &[5], &[5], 5, 0),
    Step::Isr(1, 0, &[5]),
];

#[test]
fn each_record_is_judged_after_those_before_it(rt: HostRuntime) {
    let alloc = rt.alloc();
    assert!(rt; is_judged(&rt, alloc, &ANEW, Ok(())));
}

// Whether these records are told to break this rule at this index, where nothing is there before.
fn first_breaks(
    rt: &impl Abort,
    alloc: Global,
    steps: &[Step],
    index: usize,
    why: ImageRule,
) -> bool {
    let empty = Image::new(alloc);
    let items = records(rt, alloc, steps);
    let is_told = valid(alloc, &empty, &items) == Err(ImageFault::BadRecord { index, why });
    drop(items);
    drop(empty);
    is_told
}

#[test]
fn the_first_bad_record_is_told(rt: HostRuntime) {
    let alloc = rt.alloc();
    let topics = [Step::Topic("t", 1), Step::Topic("t", 2), Step::Topic("", 0)];
    assert!(rt; first_breaks(&rt, alloc, &topics, 1, ImageRule::Exists));
    assert!(rt; first_breaks(&rt, alloc, &[Step::RemoveTopic(1)], 0, ImageRule::Absent));
}

// ---- effects

// Whether the partition of the first topic has these in sync, and this leader and epochs of the leader, the partition and the
// controller.
fn has_row(image: &Image, number: i32, isr: &[i32], numbers: [i32; 4]) -> bool {
    match image.partition(id(1), number) {
        Some(row) => {
            row.isr.as_slice() == isr
                && [
                    row.leader,
                    row.leader_epoch,
                    row.partition_epoch,
                    row.controller_epoch,
                ] == numbers
        }
        None => false,
    }
}

#[test]
fn partitions_are_changed(rt: HostRuntime) {
    let alloc = rt.alloc();
    let mut image = image_of(&rt, alloc, &BEFORE);
    assert!(rt; has_row(&image, 0, &[1, 2], [1, 4, 0, 7]));
    take_one(&rt, alloc, &mut image, 8, &Step::Isr(1, 0, &[1]));
    assert!(rt; has_row(&image, 0, &[1], [1, 4, 1, 8]));
    take_one(
        &rt,
        alloc,
        &mut image,
        9,
        &Step::Leader(1, 0, Some(&[2]), 2),
    );
    assert!(rt; has_row(&image, 0, &[2], [2, 5, 2, 9]));
    take_one(&rt, alloc, &mut image, 9, &Step::Leader(1, 1, None, 2));
    assert!(rt; has_row(&image, 1, &[1, 2], [1, 2147483647, 0, 7]));
    assert!(rt; image.partition(id(1), 2).is_none());
    drop(image);
}

static MEMBERS: [Step; 13] = [
    Step::Config(2, "t", "b", Some("1")),
    Step::Config(2, "t", "a", Some("2")),
    Step::Config(4, "5", "c", Some("3")),
    Step::Config(4, "5", "d", None),
    Step::Quota("user", Some("a"), "producer_byte_rate", 1, false),
    Step::Quota("user", Some("a"), "consumer_byte_rate", 2, false),
    Step::Scram("a", 2, 8192),
    Step::Scram("a", 1, 4096),
    Step::RemoveScram("a", 2),
    Step::Broker(3, 2147483648),
    Step::Broker(2, 0),
    Step::State(4),
    Step::State(2),
];

// The counts of topics, of configurations, quotas, users, access control entries, and brokers.
fn counts(image: &Image) -> [usize; 6] {
    [
        image.topics().len(),
        image.broker_configs().len(),
        image.quota_entries().len(),
        image.users().len(),
        image.acls().len(),
        image.brokers().len(),
    ]
}

// Whether the topic of this name has this id.
fn has_topic(rt: &impl Abort, alloc: Global, image: &Image, name: &str, last: u8) -> bool {
    let name = text(rt, alloc, name);
    let has = image.topic(&name) == Some(id(last));
    drop(name);
    has
}

// Whether a resource has a configuration.
fn has_configs(rt: &impl Abort, alloc: Global, image: &Image, kind: i8, name: &str) -> bool {
    let name = text(rt, alloc, name);
    let has = image.configs(kind, &name).is_some();
    drop(name);
    has
}

// Whether an entity has quotas.
fn has_quotas(image: &Image, key: EntityKey) -> bool {
    let has = image.quotas(&key).is_some();
    drop(key);
    has
}

fn user(rt: &impl Abort, alloc: Global, name: &str) -> EntityKey {
    EntityKey::User {
        user: Some(text(rt, alloc, name)),
    }
}

// Whether a user has a credential by this mechanism.
fn has_scram(rt: &impl Abort, alloc: Global, image: &Image, name: &str, mechanism: i8) -> bool {
    let name = text(rt, alloc, name);
    let has = image.scram(&name, mechanism).is_some();
    drop(name);
    has
}

// A copy of the metadata, in its place.
fn copied(rt: &impl Abort, alloc: Global, image: Image) -> Image {
    let copy = made(rt, image.copy(alloc));
    drop(image);
    copy
}

// The metadata of the records that are there before each case, and of members of each kind.
fn full(rt: &impl Abort, alloc: Global) -> Image {
    let mut image = Image::new(alloc);
    take_all(rt, alloc, &mut image, &BEFORE);
    take_all(rt, alloc, &mut image, &MEMBERS);
    image
}

#[test]
fn each_kind_of_record_is_taken_in(rt: HostRuntime) {
    let alloc = rt.alloc();
    let image = copied(&rt, alloc, full(&rt, alloc));
    assert!(rt; counts(&image) == [1, 1, 1, 1, 1, 1]);
    assert!(rt; has_topic(&rt, alloc, &image, "t", 1));
    assert!(rt; image.topic_name(id(1)).is_some());
    assert!(rt; has_configs(&rt, alloc, &image, 2, "t"));
    assert!(rt; has_configs(&rt, alloc, &image, 4, "5"));
    assert!(rt; !has_configs(&rt, alloc, &image, 4, "t"));
    assert!(rt; has_quotas(&image, user(&rt, alloc, "a")));
    assert!(rt; !has_quotas(&image, user(&rt, alloc, "b")));
    assert!(rt; !has_quotas(&image, EntityKey::Producer));
    assert!(rt; has_scram(&rt, alloc, &image, "a", 1));
    assert!(rt; !has_scram(&rt, alloc, &image, "a", 2));
    assert!(rt; image.acl(id(1)).is_some());
    assert!(rt; image.next_producer() == Some(2000));
    assert!(rt; image.state() == 2);
    assert!(rt; image.is_migrating(2));
    assert!(rt; !image.is_migrating(3));
    drop(image);
}

static REMOVALS: [Step; 6] = [
    Step::RemoveTopic(1),
    Step::Config(4, "5", "c", None),
    Step::Quota("user", Some("a"), "producer_byte_rate", 1, true),
    Step::Quota("user", Some("a"), "consumer_byte_rate", 2, true),
    Step::RemoveScram("a", 1),
    Step::RemoveAcl(1),
];

#[test]
fn what_is_removed_leaves_nothing(rt: HostRuntime) {
    let alloc = rt.alloc();
    let mut image = full(&rt, alloc);
    take_all(&rt, alloc, &mut image, &REMOVALS);
    assert!(rt; counts(&image) == [0, 0, 0, 0, 0, 1]);
    take_one(&rt, alloc, &mut image, 7, &Step::Topic("t", 1));
    assert!(rt; !has_configs(&rt, alloc, &image, 2, "t"));
    assert!(rt; image.partition(id(1), 0).is_none());
    drop(image);
}
