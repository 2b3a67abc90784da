//! What the metadata holds, found by a search.
ghost use Rattle.std.specs.Prelude.{◌≡◌, option_map, option_and_then, string_bytes, IfOk};
ghost use Rattle.std.specs.Fmt.{signed_decimal};
ghost use Rattle.kz_spec_data.specs.Metadata.{topic_named, partition_at, pairs_at, pairs_of_topic};
ghost use Rattle.kz_spec_data.specs.Entities.{scrams_of_user};
ghost use Rattle.kz_spec_data.specs.Translation.{broker_name};

use kz_image::{Image, partition_at};
use kz_types::{NoMemory, Pair, PartitionRow, ScramPair, Text, TopicEntry};
use std::alloc::Global;

/// The topic of a name.
pub fn topic_named<'a>(image: &'a Image, name: &[u8]) -> Option<&'a TopicEntry>
    ensures { option_map (λ t. t.now) result ≡ topic_named name.now image.entry.now }
{
    image.topics().find(name)
}

/// The partition of a number, of the topic of a name.
pub fn partition_named<'a>(image: &'a Image, name: &[u8], number: i32) -> Option<&'a PartitionRow>
    ensures { option_map (λ row. row.now) result ≡ option_and_then (λ t. partition_at number t.partitions) (topic_named name.now image.entry.now) }
{
    match image.topics().find(name) {
        Some(topic) => partition_at(topic.partitions.as_slice(), number),
        None => None,
    }
}

/// The members of a topic's configuration, none where it has none.
pub fn pairs_of_topic<'a>(image: &'a Image, name: &Text) -> &'a [Pair]
    ensures { result.now ≡ pairs_of_topic (topic_named name.now image.entry.now) }
{
    match image.topics().find(name.bytes()) {
        Some(topic) => topic.pairs.as_slice(),
        None => &[],
    }
}

// The members of the configuration of a name, none where it has none.
fn pairs_named<'a>(image: &'a Image, name: &[u8]) -> &'a [Pair]
    ensures { result.now ≡ pairs_at name.now image.entry.now.broker_configs }
{
    match image.broker_configs().find(name) {
        Some(config) => config.pairs.as_slice(),
        None => &[],
    }
}

// A broker's id in decimal.
fn decimal(alloc: Global, id: i32) -> Result<String, NoMemory>
    ensures { IfOk result (λ text. string_bytes text ≡ signed_decimal id) }
{
    Ok(format!(in alloc; "{id}")?)
}

/// The members of a broker's configuration, or of that of all brokers, none where it has none.
pub fn pairs_of_broker<'a>(
    alloc: Global,
    image: &'a Image,
    broker: Option<i32>,
) -> Result<&'a [Pair], NoMemory>
    ensures { IfOk result (λ pairs. pairs.now ≡ pairs_at (broker_name broker) image.entry.now.broker_configs) }
{
    match broker {
        Some(id) => {
            let name = decimal(alloc, id)?;
            Ok(pairs_named(image, name.as_bytes()))
        }
        None => Ok(pairs_named(image, &[])),
    }
}

/// A user's credentials, none where it has none, as the default user.
pub fn scrams_of_user<'a>(image: &'a Image, user: &Option<Text>) -> &'a [ScramPair]
    ensures { result.now ≡ scrams_of_user user.now image.entry.now }
{
    let Some(name) = user else {
        return &[];
    };
    match image.users().find(name.bytes()) {
        Some(user) => user.scrams.as_slice(),
        None => &[],
    }
}
