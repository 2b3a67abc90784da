//! Metadata with a topic, and changes of it.
ghost use Rattle.std.specs.Prelude.{◌≡◌, pos, Ok};
ghost use Rattle.kz_spec_data.specs.Image.{all_applied};

use kz_image::Image;
use kz_types::{
    ConfigRecord, Duplicate, Id, MAX_BODY_BYTES, MetaRecord, PartitionChangeRecord,
    PartitionRecord, Sequence, Text, TopicRecord,
};
use std::alloc::Global;
use std::process::Abort;

const TOPIC_ID: Id = Id {
    bytes: [0, 0, 0, 0, 0, 0, 0, 0, 0, 0, 0, 0, 0, 0, 0, 7],
};

/// What a call gave, which must not have failed.
pub fn made<T: Drop, E: Drop>(rt: &impl Abort, outcome: Result<T, E>) -> T
    ensures { outcome ≡ Ok result }
{
    match outcome {
        Ok(value) => value,
        Err(_) => panic!(rt; "a call failed"),
    }
}

fn text(rt: &impl Abort, alloc: Global, text: &str) -> Text {
    made(rt, Text::from_str(alloc, text))
}

fn topic(rt: &impl Abort, alloc: Global) -> MetaRecord {
    MetaRecord::Topic(TopicRecord {
        name: text(rt, alloc, "t"),
        topic_id: TOPIC_ID,
    })
}

fn ids(rt: &impl Abort, alloc: Global, ids: &[i32]) -> Sequence<i32> {
    Sequence::from_vec(made(rt, ids.to_vec(alloc)))
}

fn partition(rt: &impl Abort, alloc: Global) -> MetaRecord {
    MetaRecord::Partition(PartitionRecord {
        partition_id: 0,
        topic_id: TOPIC_ID,
        replicas: ids(rt, alloc, &[1, 2]),
        isr: ids(rt, alloc, &[1, 2]),
        removing: Sequence::new(alloc),
        adding: Sequence::new(alloc),
        leader: 1,
        recovery: 0,
        leader_epoch: 3,
        partition_epoch: 4,
    })
}

/// The metadata of a topic with one partition.
pub fn image(rt: &impl Abort, alloc: Global) -> Image {
    let mut image = Image::new(alloc);
    made(rt, image.apply(5, &topic(rt, alloc)));
    made(rt, image.apply(5, &partition(rt, alloc)));
    image
}

/// Another leader of the partition.
pub fn another_leader() -> MetaRecord {
    MetaRecord::PartitionChange(PartitionChangeRecord {
        partition_id: 0,
        topic_id: TOPIC_ID,
        isr: None,
        leader: 2,
        replicas: None,
        removing: None,
        adding: None,
        recovery: -1,
    })
}

/// The topic is removed.
pub fn removal() -> MetaRecord {
    MetaRecord::RemoveTopic { topic_id: TOPIC_ID }
}

// A member of the configuration of a broker, with this value, or removed.
fn member_of(rt: &impl Abort, alloc: Global, broker: &str, value: Option<Text>) -> MetaRecord {
    MetaRecord::Config(ConfigRecord {
        resource_type: 4,
        resource_name: text(rt, alloc, broker),
        name: text(rt, alloc, "a"),
        value,
    })
}

/// A member of the configuration of a broker.
pub fn member(rt: &impl Abort, alloc: Global, broker: &str) -> MetaRecord {
    member_of(rt, alloc, broker, Some(text(rt, alloc, "1")))
}

/// The same member, with which the broker's znode has more bytes of data than one may have.
pub fn long_member(rt: &impl Abort, alloc: Global, broker: &str) -> MetaRecord {
    let value = Text::from_string(made(rt, "1".repeat(alloc, MAX_BODY_BYTES)));
    member_of(rt, alloc, broker, Some(value))
}

/// The same member is removed.
pub fn no_member(rt: &impl Abort, alloc: Global, broker: &str) -> MetaRecord {
    member_of(rt, alloc, broker, None)
}

/// A member of the configuration of the topic.
pub fn member_of_topic(rt: &impl Abort, alloc: Global) -> MetaRecord {
    MetaRecord::Config(ConfigRecord {
        resource_type: 2,
        resource_name: text(rt, alloc, "t"),
        name: text(rt, alloc, "a"),
        value: Some(text(rt, alloc, "1")),
    })
}

/// The metadata after records.
pub fn changed(rt: &impl Abort, alloc: Global, old: &Image, records: &[MetaRecord]) -> Image
    ensures { result ≡ all_applied (pos 5) records.now old.now }
{
    let mut new = made(rt, old.copy(alloc));
    made(rt, new.apply_all(5, records));
    new
}
