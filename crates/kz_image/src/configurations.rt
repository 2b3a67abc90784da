//! The configurations of brokers, by rising name.
ghost use Rattle.std.specs.Prelude.{◌≡◌, IfOk, OnOk, OnErr, Some};
ghost use Rattle.kz_types.specs.Order.{bytes_cmp};
ghost use Rattle.kz_types.specs.Ordered.{Rises};
ghost use Rattle.kz_spec_data.specs.Image.{name_of_pair, pairs_at, with_member, with_pairs, configurations_after};
ghost use Rattle.kz_spec_data.specs.InOrder.{AreInOrder};

use kz_sorted::{Blocks, put, without};
use kz_types::{ConfigRecord, Configuration, Duplicate, NoMemory, Pair, Sequence, Text};
use std::alloc::Global;

fn put_pair(alloc: Global, pairs: &mut Vec<Pair>, name: &Text, value: &Text) -> Result<(), NoMemory>
    requires { Rises bytes_cmp name_of_pair pairs.old.items }
    ensures ok { OnOk result (pairs.new.items ≡ with_member name.now (Some value.now) pairs.old.items) }
    ensures err { OnErr result (pairs.new.items ≡ pairs.old.items) }
{
    let pair = Pair {
        name: name.copy(alloc)?,
        value: value.copy(alloc)?,
    };
    put(pairs, pair)
}

/// Sets or removes a member.
pub fn change_pairs(
    alloc: Global,
    pairs: &mut Vec<Pair>,
    change: &ConfigRecord,
) -> Result<(), NoMemory>
    requires { Rises bytes_cmp name_of_pair pairs.old.items }
    ensures ok { OnOk result (pairs.new.items ≡ with_member change.now.name change.now.value pairs.old.items) }
    ensures err { OnErr result (pairs.new.items ≡ pairs.old.items) }
{
    match &change.value {
        Some(value) => put_pair(alloc, pairs, &change.name, value),
        None => {
            without(pairs, change.name.bytes());
            Ok(())
        }
    }
}

// A copy of the members of a configuration. One that isn't there has none.
fn pairs_of(
    alloc: Global,
    configs: &Blocks<Configuration>,
    name: &Text,
) -> Result<Vec<Pair>, NoMemory>
    ensures { IfOk result (λ pairs. pairs.items ≡ pairs_at name.now configs.now) }
{
    match configs.find(name.bytes()) {
        Some(config) => Ok(config.pairs.copy(alloc)?.into_vec()),
        None => Ok(Vec::new(alloc)),
    }
}

// Puts a configuration with these members in the place of the one of its name. One without members isn't kept.
fn put_pairs(
    alloc: Global,
    configs: &mut Blocks<Configuration>,
    name: &Text,
    pairs: Vec<Pair>,
) -> Result<(), NoMemory>
    ensures ok { OnOk result (configs.new ≡ with_pairs name.now pairs.items configs.old) }
    ensures err { OnErr result (configs.new ≡ configs.old) }
{
    if pairs.len() == 0 {
        return configs.without(name.bytes());
    }
    let config = Configuration {
        name: name.copy(alloc)?,
        pairs: Sequence::from_vec(pairs),
    };
    configs.put(config)
}

/// Sets or removes a member of a configuration. At `Err` nothing has changed.
pub fn configure(
    alloc: Global,
    configs: &mut Blocks<Configuration>,
    change: &ConfigRecord,
) -> Result<(), NoMemory>
    requires { AreInOrder configs.old }
    ensures ok { OnOk result (configs.new ≡ configurations_after change.now configs.old) }
    ensures err { OnErr result (configs.new ≡ configs.old) }
{
    let mut pairs = pairs_of(alloc, configs, &change.resource_name)?;
    change_pairs(alloc, &mut pairs, change)?;
    put_pairs(alloc, configs, &change.resource_name, pairs)
}
