//! The key of an entity with a quota.
ghost use Rattle.std.specs.Prelude.{◌≡◌, ◌++◌, IfOk, OnOk, option_and_then, option_to_list};
ghost use Rattle.kz_spec_data.specs.ImageRules.{quota_key};
ghost use Rattle.kz_spec_data.specs.Touched.{key_of_quota};
ghost use Rattle.kz_image_rules.specs.QuotaKeys.{entity_of};

use kz_image_rules::{QuotaKey, quota_key};
use kz_laws_values::held_key_has_its_path;
use kz_types::{Duplicate, EntityKey, NoMemory, QuotaEntity};
use std::alloc::Global;

// The entity, as a key of its own.
fn entity_of(alloc: Global, key: &QuotaKey<'_>) -> Result<EntityKey, NoMemory>
    ensures { IfOk result (λ made. made ≡ entity_of key.now) }
{
    match key {
        QuotaKey::User(user) => Ok(EntityKey::User {
            user: user.copy(alloc)?,
        }),
        QuotaKey::Client(client) => Ok(EntityKey::Client {
            client: client.copy(alloc)?,
        }),
        QuotaKey::UserClient(user, client) => Ok(EntityKey::UserClient {
            user: user.copy(alloc)?,
            client: client.copy(alloc)?,
        }),
        QuotaKey::Ip(address) => Ok(EntityKey::Ip {
            address: address.copy(alloc)?,
        }),
    }
}

// Adds a key, where it is legal.
fn push_legal(keys: &mut Vec<EntityKey>, key: EntityKey) -> Result<(), NoMemory>
    ensures { OnOk result (keys.new.items ≡ keys.old.items ++ option_to_list (key_of_quota key)) }
{
    if key.is_legal() {
        held_key_has_its_path(&key);
        keys.push(key)?;
    }
    Ok(())
}

/// Adds the key of an entity with a quota, where these parts are one.
pub(crate) fn push_key_of_quota(
    alloc: Global,
    keys: &mut Vec<EntityKey>,
    parts: &[QuotaEntity],
) -> Result<(), NoMemory>
    ensures { OnOk result (keys.new.items ≡ keys.old.items ++ option_to_list (option_and_then key_of_quota (quota_key parts.now))) }
{
    match quota_key(parts) {
        Some(key) => push_legal(keys, entity_of(alloc, &key)?),
        None => Ok(()),
    }
}
