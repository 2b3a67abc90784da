//! Laws of the keys and paths that a program holds: their names are UTF-8 and their numbers are in range, so no law asks for it. The
//! functions here are never run: what they go over is what their contracts say.
ghost use Rattle.std.specs.Prelude.{◌≡◌, true, Some, IfSome};
ghost use Rattle.kz_types.specs.declared.key.EntityKey.{EntityKey};
ghost use Rattle.kz_types.specs.PathRule.{is_path};
ghost use Rattle.kz_types.specs.Paths.{key_of, path_of, is_legal};
ghost use Rattle.kz_laws_values.specs.TextKeys.{IsText, IsSmall, HasTexts};

use kz_types::{EntityKey, Text, ZPath};

fn name(text: &Text)
    ensures { IsText text.now }
{
    let _ = text.as_str().as_bytes();
}

fn name_or_none(text: &Option<Text>)
    ensures { IfSome text.now IsText }
{
    if let Some(text) = text {
        name(text);
    }
}

fn number(_number: i32)
    ensures { IsSmall _number }
{}

fn number_or_none(broker: &Option<i32>)
    ensures { IfSome broker.now IsSmall }
{
    if let Some(broker) = broker {
        number(*broker);
    }
}

// The names of every key are UTF-8, and its numbers are in range.
fn key(key: &EntityKey)
    ensures { HasTexts key.now }
{
    match key {
        EntityKey::Topic { name: topic } => name(topic),
        EntityKey::Partition {
            topic,
            number: partition,
        } => {
            name(topic);
            number(*partition);
        }
        EntityKey::TopicConfig { name: topic } => name(topic),
        EntityKey::BrokerConfig { broker } => number_or_none(broker),
        EntityKey::Client { client } => name_or_none(client),
        EntityKey::User { user } => name_or_none(user),
        EntityKey::UserClient { user, client } => {
            name_or_none(user);
            name_or_none(client);
        }
        EntityKey::Ip { address } => name_or_none(address),
        EntityKey::Acl { name: resource, .. } => name(resource),
        EntityKey::Producer => {}
    }
}

// The bytes of every path keep the rule.
fn rule(path: &ZPath)
    ensures { is_path path.now ≡ true }
{
    let _ = path.bytes();
}

/// The path of a legal key holds this key.
pub fn held_key_has_its_path(entity: &EntityKey)
    requires { is_legal entity.now ≡ true }
    ensures { key_of (path_of entity.now) ≡ Some entity.now }
{
    key(entity);
}

/// A path that holds a key is the path of this key, which is legal.
pub fn held_path_has_its_key(path: &ZPath)
    ensures path { (entity : EntityKey) → key_of path.now ≡ Some entity → path_of entity ≡ path.now }
    ensures legal { (entity : EntityKey) → key_of path.now ≡ Some entity → is_legal entity ≡ true }
{
    rule(path);
}

/// Legal keys with one path are one key.
pub fn held_keys_have_one_path(one: &EntityKey, other: &EntityKey)
    requires one { is_legal one.now ≡ true }
    requires other { is_legal other.now ≡ true }
    ensures { path_of one.now ≡ path_of other.now → one.now ≡ other.now }
{
    key(one);
    key(other);
}
