//! The keys of resources that have a name: of topics and brokers with their configurations, and of users.
ghost use Rattle.std.specs.Prelude.{◌≡◌, ◌++◌, ◌∷◌, [], Some, pos, if◌then◌else◌, OnOk};
ghost use Rattle.std.specs.Ordering.{int_eq};
ghost use Rattle.kz_types.specs.declared.key.EntityKey.TheVariants as key;
ghost use Rattle.kz_spec_data.specs.Rendering.{broker_key};

use kz_types::{ConfigRecord, Duplicate, EntityKey, NoMemory, Text, number_in};
use std::alloc::Global;

/// The key of the configuration of a broker, or of all brokers.
pub(crate) fn broker_key(name: &Text) -> EntityKey
    ensures { result ≡ broker_key name.now }
{
    let name = name.bytes();
    if name.is_empty() {
        EntityKey::BrokerConfig { broker: None }
    } else {
        EntityKey::BrokerConfig {
            broker: number_in(name),
        }
    }
}

/// Adds the key of the configuration that a record changes: that of a topic, or of a broker.
pub(crate) fn push_key_of_config(
    alloc: Global,
    keys: &mut Vec<EntityKey>,
    change: &ConfigRecord,
) -> Result<(), NoMemory>
    ensures { OnOk result (keys.new.items ≡ keys.old.items ++ (if int_eq change.now.resource_type (pos 2) then key.TopicConfig change.now.resource_name ∷ [] else broker_key change.now.resource_name ∷ [])) }
{
    if change.resource_type == 2 {
        keys.push(EntityKey::TopicConfig {
            name: change.resource_name.copy(alloc)?,
        })?;
    } else {
        keys.push(broker_key(&change.resource_name))?;
    }
    Ok(())
}

/// Adds the key of a user.
pub(crate) fn push_key_of_user(
    alloc: Global,
    keys: &mut Vec<EntityKey>,
    name: &Text,
) -> Result<(), NoMemory>
    ensures { OnOk result (keys.new.items ≡ keys.old.items ++ key.User (Some name.now) ∷ []) }
{
    keys.push(EntityKey::User {
        user: Some(name.copy(alloc)?),
    })?;
    Ok(())
}
