//! Whether a znode stands at a path without the body of an entity.
ghost use Rattle.std.specs.Prelude.{◌≡◌, ◌&&◌, ◌||◌, ◌∷◌, [], None, is_some, codes, bytes_eq, IfOk};
ghost use Rattle.kz_types.specs.Numbers.{number_in};
ghost use Rattle.kz_types.specs.PathRule.{parts};
ghost use Rattle.kz_types.specs.Paths.{are};
ghost use Rattle.kz_spec_data.specs.Metadata.{topic_named};
ghost use Rattle.kz_spec_data.specs.Lookups.{has_partition, is_parent_of_partitions, is_parent_of_clients, stands_bare};

use crate::entries::{partition_named, topic_named};
use crate::places::{Parts, cut};
use crate::quota_rows::has_quotas_below;
use kz_image::Image;
use kz_paths::is_root;
use kz_types::{EntityKey, NoMemory, ZPath, number_in};
use std::alloc::Global;

// Whether two parts are these words.
fn are(a: &str, b: &str, word: &str, next: &str) -> bool
    ensures { result ≡ are a.now b.now word.now next.now }
{
    a == word && b == next
}

// Whether the topic of a name is there.
fn has_topic(image: &Image, name: &str) -> bool
    ensures { result ≡ is_some (topic_named name.now image.now) }
{
    topic_named(image, name.as_bytes()).is_some()
}

// Whether the topic of a name has the partition of a number.
fn has_partition(image: &Image, name: &str, number: &str) -> bool
    ensures { result ≡ has_partition name.now (number_in number.now) image.now }
{
    match number_in(number.as_bytes()) {
        Some(number) => partition_named(image, name.as_bytes(), number).is_some(),
        None => false,
    }
}

// Whether these four parts are those of the parent of a topic's partitions, and the topic is there.
fn is_parent_of_partitions(image: &Image, a: &str, b: &str, c: &str, d: &str) -> bool
    ensures { result ≡ is_parent_of_partitions image.now (a.now ∷ b.now ∷ c.now ∷ d.now ∷ []) }
{
    are(a, b, "brokers", "topics") && d == "partitions" && has_topic(image, c)
}

// Whether these five parts are those of a partition's number, and the partition is there.
fn is_number_of_partition(image: &Image, a: &str, b: &str, c: &str, d: &str, e: &str) -> bool
    ensures { result ≡ is_parent_of_partitions image.now (a.now ∷ b.now ∷ c.now ∷ d.now ∷ e.now ∷ []) }
{
    are(a, b, "brokers", "topics") && d == "partitions" && has_partition(image, c, e)
}

// Whether this path, which has these four parts, is the parent of a user's clients, and a client with quotas is below it.
fn is_parent_of_clients(
    alloc: Global,
    image: &Image,
    path: &ZPath,
    a: &str,
    b: &str,
    c: &str,
    d: &str,
) -> Result<bool, NoMemory>
    ensures { IfOk result (λ there. there ≡ is_parent_of_clients image.now path.now (a.now ∷ b.now ∷ c.now ∷ d.now ∷ [])) }
{
    if are(a, b, "config", "users") && d == "clients" {
        return has_quotas_below(alloc, image, path);
    }
    Ok(false)
}

// Whether a znode of an entity's parent stands at this path.
fn is_parent(alloc: Global, image: &Image, path: &ZPath) -> Result<bool, NoMemory>
    ensures { IfOk result (λ there. there ≡ (is_parent_of_partitions image.now (parts path.now) || is_parent_of_clients image.now path.now (parts path.now))) }
{
    match cut(path.as_str()) {
        Parts::Fewer => Ok(false),
        Parts::Four(a, b, c, d) => {
            if is_parent_of_partitions(image, a, b, c, d) {
                return Ok(true);
            }
            is_parent_of_clients(alloc, image, path, a, b, c, d)
        }
        Parts::Five(a, b, c, d, e) => Ok(is_number_of_partition(image, a, b, c, d, e)),
        Parts::More => Ok(false),
    }
}

// Whether a znode stands at this path, which holds no entity.
fn stands_without_entity(alloc: Global, image: &Image, path: &ZPath) -> Result<bool, NoMemory>
    ensures { IfOk result (λ there. there ≡ stands_bare image.now path.now None) }
{
    if is_root(path.bytes()) {
        return Ok(true);
    }
    is_parent(alloc, image, path)
}

/// Whether a znode stands at a path without the body of an entity. The path holds the entity of this key, or none.
pub fn stands_bare(
    alloc: Global,
    image: &Image,
    path: &ZPath,
    key: &Option<EntityKey>,
) -> Result<bool, NoMemory>
    ensures { IfOk result (λ there. there ≡ stands_bare image.now path.now key.now) }
{
    match key {
        None => stands_without_entity(alloc, image, path),
        Some(EntityKey::User { .. }) => has_quotas_below(alloc, image, path),
        Some(EntityKey::Producer) => Ok(true),
        Some(_) => Ok(false),
    }
}
