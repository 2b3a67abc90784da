//! The body of the znode of an entity.
ghost use Rattle.std.specs.Prelude.{◌≡◌, true, option_map, IfOk, IfSome};
ghost use Rattle.kz_types.specs.declared.key.EntityKey.TheVariants as key;
ghost use Rattle.kz_types.specs.Paths.{path_of, is_legal};
ghost use Rattle.kz_spec_data.specs.Bodies.{text_of_body};
ghost use Rattle.kz_spec_data.specs.Entities.{entity, config_body, quota_body, acl_body, quotas_at};
ghost use Rattle.kz_spec_data.specs.Lookups.{written_body};

use crate::acl_rows::{Resource, rows_of_resource};
use crate::entries::{
    pairs_of_broker, pairs_of_topic, partition_named, scrams_of_user, topic_named,
};
use crate::quota_rows::quota_body;
use crate::{block_text, quotas_at, state_body, topic_body};
use kz_body_texts::{acls_text, config_text};
use kz_image::Image;
use kz_types::{AclRow, EntityKey, NoMemory, Pair, ScramPair, Text, ZPath};
use std::alloc::Global;

// The body of a topic.
fn topic(alloc: Global, image: &Image, name: &Text) -> Result<Option<Vec<u8>>, NoMemory>
    ensures { IfOk result (λ body. option_map (λ b. b.items) body ≡ option_map text_of_body (entity image.now (key.Topic name.now))) }
{
    match topic_named(image, name.bytes()) {
        Some(topic) => {
            let text = topic_body(alloc, topic)?;
            Ok(Some(text.into_bytes()))
        }
        None => Ok(None),
    }
}

// The body of a partition's state.
fn partition(
    alloc: Global,
    image: &Image,
    topic: &Text,
    number: i32,
) -> Result<Option<Vec<u8>>, NoMemory>
    ensures { IfOk result (λ body. option_map (λ b. b.items) body ≡ option_map text_of_body (entity image.now (key.Partition topic.now number))) }
{
    match partition_named(image, topic.bytes(), number) {
        Some(row) => {
            let text = state_body(alloc, row)?;
            Ok(Some(text.into_bytes()))
        }
        None => Ok(None),
    }
}

// The body of a configuration, where it has members.
#[tactic(auto, unfolding(kz_spec_data::specs::Bodies::text_of_body))]
fn config(alloc: Global, pairs: &[Pair]) -> Result<Option<Vec<u8>>, NoMemory>
    ensures { IfOk result (λ body. option_map (λ b. b.items) body ≡ option_map text_of_body (config_body pairs.now)) }
{
    if pairs.is_empty() {
        return Ok(None);
    }
    let text = config_text(alloc, pairs)?;
    Ok(Some(text.into_bytes()))
}

// The body of these access control entries, where there are some.
#[tactic(auto, unfolding(kz_spec_data::specs::Bodies::text_of_body))]
fn entries(alloc: Global, rows: &[AclRow]) -> Result<Option<Vec<u8>>, NoMemory>
    ensures { IfOk result (λ body. option_map (λ b. b.items) body ≡ option_map text_of_body (acl_body rows.now)) }
{
    if rows.is_empty() {
        return Ok(None);
    }
    let text = acls_text(alloc, rows)?;
    Ok(Some(text.into_bytes()))
}

// The body of the access control entries of a resource.
fn resource(
    alloc: Global,
    image: &Image,
    resource: &Resource<'_>,
) -> Result<Option<Vec<u8>>, NoMemory>
    requires { is_legal (key.Acl resource.now.pattern resource.now.kind resource.now.name.now) ≡ true }
    ensures { IfOk result (λ body. option_map (λ b. b.items) body ≡ option_map text_of_body (entity image.now (key.Acl resource.now.pattern resource.now.kind resource.now.name.now))) }
{
    let rows = rows_of_resource(alloc, image, resource)?;
    entries(alloc, &rows)
}

// The body of the quotas of an entity, which has this path, and of these credentials.
fn quotas(
    alloc: Global,
    image: &Image,
    path: &ZPath,
    key: &EntityKey,
    scrams: &[ScramPair],
) -> Result<Option<Vec<u8>>, NoMemory>
    requires { path_of key.now ≡ path.now }
    ensures { IfOk result (λ body. option_map (λ b. b.items) body ≡ option_map text_of_body (quota_body (quotas_at key.now image.now) scrams.now)) }
{
    let quotas = quotas_at(image.quota_entries(), path.bytes());
    quota_body(alloc, quotas, scrams)
}

// The body of the block of producer ids.
fn producer(alloc: Global, image: &Image) -> Result<Option<Vec<u8>>, NoMemory>
    ensures { IfOk result (λ body. option_map (λ b. b.items) body ≡ option_map text_of_body (entity image.now key.Producer)) }
{
    match image.next_producer() {
        Some(start) => {
            let text = block_text(alloc, start)?;
            Ok(Some(text.into_bytes()))
        }
        None => Ok(None),
    }
}

// The body of the znode of a key, where the metadata holds something for it.
fn body_of(
    alloc: Global,
    image: &Image,
    path: &ZPath,
    key: &EntityKey,
) -> Result<Option<Vec<u8>>, NoMemory>
    requires legal { is_legal key.now ≡ true }
    requires path { path_of key.now ≡ path.now }
    ensures { IfOk result (λ body. option_map (λ b. b.items) body ≡ option_map text_of_body (entity image.now key.now)) }
{
    match key {
        EntityKey::Topic { name } => topic(alloc, image, name),
        EntityKey::Partition { topic, number } => partition(alloc, image, topic, *number),
        EntityKey::TopicConfig { name } => config(alloc, pairs_of_topic(image, name)),
        EntityKey::BrokerConfig { broker } => {
            let pairs = pairs_of_broker(alloc, image, *broker)?;
            config(alloc, pairs)
        }
        EntityKey::User { user } => quotas(alloc, image, path, key, scrams_of_user(image, user)),
        EntityKey::Client { .. } | EntityKey::UserClient { .. } | EntityKey::Ip { .. } => {
            quotas(alloc, image, path, key, &[])
        }
        EntityKey::Acl {
            pattern,
            kind,
            name,
        } => resource(
            alloc,
            image,
            &Resource {
                pattern: *pattern,
                kind: *kind,
                name,
            },
        ),
        EntityKey::Producer => producer(alloc, image),
    }
}

/// The written body of the entity of a key, where the metadata holds something for it. The path is that of the key.
pub fn written_body(
    alloc: Global,
    image: &Image,
    path: &ZPath,
    key: &Option<EntityKey>,
) -> Result<Option<Vec<u8>>, NoMemory>
    requires legal { IfSome key.now (λ k. is_legal k ≡ true) }
    requires path { IfSome key.now (λ k. path_of k ≡ path.now) }
    ensures { IfOk result (λ body. option_map (λ b. b.items) body ≡ written_body image.now key.now) }
{
    match key {
        Some(key) => body_of(alloc, image, path, key),
        None => Ok(None),
    }
}
