//! Whom a quota speaks of.
ghost use Rattle.std.specs.Prelude.{◌≡◌, ◌<◌, ◌+◌, ◌&&◌, ◌∷◌, [], true, false, Some, ◌++◌, length, option_map, IfSome, MatchOption};
ghost use Rattle.kz_types.specs.declared.limits.TheConstants.{MAX_PATH_BYTES};
ghost use Rattle.kz_types.specs.PathRule.{is_path};
ghost use Rattle.kz_types.specs.Paths.{is_legal, key_of, path_of, has_path, is_among};
ghost use Rattle.kz_spec_data.specs.Credentials.{quota_keys};
ghost use Rattle.kz_spec_data.specs.ImageRules.{quota_key, has_quota};
ghost use Rattle.kz_laws_values.specs.TextKeys.{IsText, HasTexts};
ghost use Rattle.kz_image_rules.specs.QuotaKeys.{entity_of};

use crate::paths::push_named;
use kz_paths::PathBuffer;
use kz_types::{QuotaEntity, Text, is_located, is_named, keeps_rule};

/// Whom a quota speaks of. A name that is absent is the default one.
#[derive(Clone, Copy)]
pub enum QuotaKey<'a> {
    /// A user.
    User(&'a Option<Text>),
    /// A client id.
    Client(&'a Option<Text>),
    /// A user with a client id.
    UserClient(&'a Option<Text>, &'a Option<Text>),
    /// An address.
    Ip(&'a Option<Text>),
}

// Whom one part speaks of.
fn one_part(part: &QuotaEntity) -> Option<QuotaKey<'_>>
    ensures { option_map entity_of result ≡ quota_key (part.now ∷ []) }
{
    match part.kind.as_str() {
        "user" => Some(QuotaKey::User(&part.name)),
        "client-id" => Some(QuotaKey::Client(&part.name)),
        "ip" => Some(QuotaKey::Ip(&part.name)),
        _ => None,
    }
}

// Whom two parts speak of.
fn two_parts<'a>(first: &'a QuotaEntity, second: &'a QuotaEntity) -> Option<QuotaKey<'a>>
    ensures { option_map entity_of result ≡ quota_key (first.now ∷ second.now ∷ []) }
{
    if first.kind.as_str() == "user" && second.kind.as_str() == "client-id" {
        Some(QuotaKey::UserClient(&first.name, &second.name))
    } else {
        None
    }
}

/// Whom these parts speak of: a user, a client id, both, or an address.
pub fn quota_key(parts: &[QuotaEntity]) -> Option<QuotaKey<'_>>
    ensures { option_map entity_of result ≡ quota_key parts.now }
{
    match parts {
        [part] => one_part(part),
        [first, second] => two_parts(first, second),
        _ => None,
    }
}

// Whether these are the names of an entity.
#[tactic(auto, unfolding(kz_types::specs::Paths::is_legal))]
fn is_legal(key: &QuotaKey<'_>) -> bool
    ensures { result ≡ is_legal (entity_of key.now) }
{
    match *key {
        QuotaKey::User(user) => is_named(user),
        QuotaKey::Client(client) => is_named(client),
        QuotaKey::UserClient(user, client) => is_named(user) && is_named(client),
        QuotaKey::Ip(address) => is_located(address),
    }
}

// A name is UTF-8.
fn name(text: &Text)
    ensures { IsText text.now }
{
    let _ = text.as_str().as_bytes();
}

// A name that is there is UTF-8.
fn name_or_none(text: &Option<Text>)
    ensures { IfSome text.now IsText }
{
    if let Some(text) = text {
        name(text);
    }
}

// The names of an entity are UTF-8.
fn names(key: &QuotaKey<'_>)
    ensures { HasTexts (entity_of key.now) }
{
    match *key {
        QuotaKey::User(user) => name_or_none(user),
        QuotaKey::Client(client) => name_or_none(client),
        QuotaKey::Ip(address) => name_or_none(address),
        QuotaKey::UserClient(user, client) => {
            name_or_none(user);
            name_or_none(client);
        }
    }
}

// Adds the path of an entity.
#[tactic(auto, unfolding(kz_types::specs::Paths::path_of))]
fn push_path(path: &mut PathBuffer, key: &QuotaKey<'_>) -> bool
    ensures added { result ≡ true → path.new ≡ path.old ++ path_of (entity_of key.now) }
    ensures too_long { result ≡ false → MAX_PATH_BYTES < length path.old + length (path_of (entity_of key.now)) }
{
    match *key {
        QuotaKey::User(user) => push_named(path, b"/config/users/", user),
        QuotaKey::Client(client) => push_named(path, b"/config/clients/", client),
        QuotaKey::UserClient(user, client) => {
            push_named(path, b"/config/users/", user) && push_named(path, b"/clients/", client)
        }
        QuotaKey::Ip(address) => path.push(b"/config/ips/") && path.push_address(address),
    }
}

/// The path of an entity. `None`: it is longer than a path. The path of a legal entity is read as this entity's.
pub fn path_of(key: &QuotaKey<'_>) -> Option<PathBuffer>
    ensures path { MatchOption result (is_path (path_of (entity_of key.now)) ≡ false) (λ path. path ≡ path_of (entity_of key.now)) }
    ensures read { is_legal (entity_of key.now) ≡ true → key_of (path_of (entity_of key.now)) ≡ Some (entity_of key.now) }
{
    names(key);
    let mut path = PathBuffer::new();
    if push_path(&mut path, key) {
        Some(path)
    } else {
        None
    }
}

// Whether the path of an entity keeps the rule of paths.
#[tactic(auto, unfolding(kz_types::specs::Paths::has_path))]
fn has_path(key: &QuotaKey<'_>) -> bool
    ensures { result ≡ has_path (entity_of key.now) }
{
    match path_of(key) {
        Some(path) => keeps_rule(path.bytes()),
        None => false,
    }
}

// Whether an entity may have a quota of this name.
fn is_quota_name(key: &QuotaKey<'_>, name: &str) -> bool
    ensures { result ≡ is_among (quota_keys (entity_of key.now)) name.now }
{
    match *key {
        QuotaKey::User(_) | QuotaKey::Client(_) | QuotaKey::UserClient(_, _) => matches!(
            name,
            "producer_byte_rate"
                | "consumer_byte_rate"
                | "request_percentage"
                | "controller_mutation_rate"
        ),
        QuotaKey::Ip(_) => name == "connection_creation_rate",
    }
}

/// Whether these parts speak of an entity that may have a quota of this name.
pub fn has_quota(parts: &[QuotaEntity], name: &Text) -> bool
    ensures { result ≡ has_quota (quota_key parts.now) name.now }
{
    match quota_key(parts) {
        Some(key) => is_legal(&key) && has_path(&key) && is_quota_name(&key, name.as_str()),
        None => false,
    }
}
