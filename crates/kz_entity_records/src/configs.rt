//! The record of a member of a configuration.
ghost use Rattle.std.specs.Prelude.{◌≡◌, IfOk};
ghost use Rattle.kz_spec_data.specs.Translation.{config_record};

use kz_types::{ConfigRecord, Duplicate, MetaRecord, NoMemory, Pair, Text};
use std::alloc::Global;

/// The record that sets a member of the configuration of a resource: 2 is a topic, 4 a broker.
pub fn config_record(
    alloc: Global,
    resource: i8,
    name: &Text,
    pair: &Pair,
) -> Result<MetaRecord, NoMemory>
    ensures { IfOk result (λ made. made ≡ config_record resource name.now pair.now) }
{
    Ok(MetaRecord::Config(ConfigRecord {
        resource_type: resource,
        resource_name: name.copy(alloc)?,
        name: pair.name.copy(alloc)?,
        value: Some(pair.value.copy(alloc)?),
    }))
}
