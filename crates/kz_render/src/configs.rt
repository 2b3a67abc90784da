//! The znodes of brokers' configurations.
ghost use Rattle.std.specs.Prelude.{◌≡◌, ◌∷◌, ◌++◌, [], map, IfOk, OnOk};
ghost use Rattle.kz_types.specs.Paths.{path_of};
ghost use Rattle.kz_spec_data.specs.Bodies.{text_of_body};
ghost use Rattle.kz_spec_data.specs.Rendering.{broker_key, config_znode};

use crate::paths::entity_path;
use crate::push::push_znode;
use kz_body_texts::config_text;
use kz_sorted::Blocks;
use kz_types::{Configuration, EntityKey, NoMemory, Rendered, Text, ZPath, number_in};
use std::alloc::Global;

// The key of the configuration of a broker, or of all brokers.
fn broker_key(name: &Text) -> EntityKey
    ensures { result ≡ broker_key name.now }
{
    let name = name.bytes();
    if name.is_empty() {
        EntityKey::BrokerConfig { broker: None }
    } else {
        EntityKey::BrokerConfig {
            broker: number_in(name),
        }
    }
}

// The path of a broker's configuration.
#[tactic(auto, using(crate::proofs::BrokerPaths::broker_rule, crate::proofs::BrokerPaths::broker_legal))]
fn config_path(alloc: Global, name: &Text) -> Result<ZPath, NoMemory>
    ensures { IfOk result (λ path. path ≡ path_of (broker_key name.now)) }
{
    let key = broker_key(name);
    let path = entity_path(alloc, &key)?;
    Ok(path)
}

// Adds the znode of a broker's configuration.
#[tactic(auto, unfolding(kz_spec_data::specs::Bodies::text_of_body))]
fn push_config(
    alloc: Global,
    znodes: &mut Vec<Rendered>,
    config: &Configuration,
) -> Result<(), NoMemory>
    ensures { OnOk result (znodes.new.items ≡ znodes.old.items ++ config_znode config.now ∷ []) }
{
    let path = config_path(alloc, &config.name)?;
    let text = config_text(alloc, config.pairs.as_slice())?;
    push_znode(znodes, path, text.into_bytes())
}

/// Adds the znodes of all configurations of brokers.
pub fn push_configs(
    alloc: Global,
    znodes: &mut Vec<Rendered>,
    configs: &Blocks<Configuration>,
) -> Result<(), NoMemory>
    ensures { OnOk result (znodes.new.items ≡ znodes.old.items ++ map config_znode configs.now) }
{
    for config in configs.items() {
        push_config(alloc, znodes, config)?;
    }
    Ok(())
}
