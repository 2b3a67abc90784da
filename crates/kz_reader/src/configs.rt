//! The records of a configuration.
ghost use Rattle.std.specs.Prelude.{◌≡◌, pos, IfOk, map};
ghost use Rattle.kz_types.specs.declared.key.EntityKey.TheVariants.{Topic};
ghost use Rattle.kz_types.specs.Order.{bytes_cmp};
ghost use Rattle.kz_types.specs.Ordered.{Rises};
ghost use Rattle.kz_spec_data.specs.Tree.{path_of_row};
ghost use Rattle.kz_spec_data.specs.Translation.{row_of, broker_name, config_record, config_records, records_of_config, records_if_there};

use crate::found::topic_row;
use crate::numbers::number_text;
use kz_entity_records::config_record;
use kz_types::{
    Body, BodyFault, Duplicate, MetaRecord, NoMemory, Pair, ReadWhy, Row, Sequence, Text,
};
use std::alloc::Global;

/// The code of a topic as a resource.
const TOPIC: i8 = 2;

/// The code of a broker as a resource.
const BROKER: i8 = 4;

// The name of a broker in a record: empty for all brokers.
fn broker_name(alloc: Global, broker: Option<i32>) -> Result<Text, NoMemory>
    ensures { IfOk result (λ name. name ≡ broker_name broker) }
{
    match broker {
        Some(id) => Ok(Text::from_string(number_text(alloc, id)?)),
        None => Ok(Text::from_str(alloc, "")?),
    }
}

fn member_records(
    alloc: Global,
    resource: i8,
    name: &Text,
    pairs: &[Pair],
) -> Result<Sequence<MetaRecord>, NoMemory>
    ensures { IfOk result (λ records. records ≡ map (config_record resource name.now) pairs.now) }
{
    let mut records = Sequence::new(alloc);
    for pair in pairs {
        records.push(config_record(alloc, resource, name, pair)?)?;
    }
    Ok(records)
}

// The members rise, so an empty name comes first.
fn config_records(
    alloc: Global,
    resource: i8,
    name: &Text,
    pairs: &[Pair],
) -> Result<Result<Sequence<MetaRecord>, ReadWhy>, NoMemory>
    ensures { IfOk result (λ records. records ≡ config_records resource name.now pairs.now) }
{
    match pairs {
        [first, ..] if first.name.bytes().is_empty() => {
            let name = first.name.copy(alloc)?;
            Ok(Err(ReadWhy::Body(BodyFault::UnknownKey { name })))
        }
        _ => Ok(Ok(member_records(alloc, resource, name, pairs)?)),
    }
}

// The records of the configuration of a resource with this name, or why there are none.
fn records_of_config(
    alloc: Global,
    resource: i8,
    name: &Text,
    read: Result<Body, BodyFault>,
) -> Result<Result<Sequence<MetaRecord>, ReadWhy>, NoMemory>
    ensures { IfOk result (λ records. records ≡ records_of_config resource name.now read) }
{
    match read {
        Ok(Body::Config { pairs }) => config_records(alloc, resource, name, pairs.as_slice()),
        Ok(_) => Ok(Ok(Sequence::new(alloc))),
        Err(fault) => Ok(Err(ReadWhy::Body(fault))),
    }
}

/// The records of the configuration of a broker, or of all, or why there are none.
pub fn records_of_broker(
    alloc: Global,
    broker: Option<i32>,
    read: Result<Body, BodyFault>,
) -> Result<Result<Sequence<MetaRecord>, ReadWhy>, NoMemory>
    ensures { IfOk result (λ records. records ≡ records_of_config (pos 4) (broker_name broker) read) }
{
    let name = broker_name(alloc, broker)?;
    records_of_config(alloc, BROKER, &name, read)
}

/// The records of the configuration of a topic, or why there are none. That of a topic without a znode is left over from
/// a topic that was removed.
pub fn records_if_there(
    alloc: Global,
    rows: &[Row],
    name: &Text,
    read: Result<Body, BodyFault>,
) -> Result<Result<Sequence<MetaRecord>, ReadWhy>, NoMemory>
    requires { Rises bytes_cmp path_of_row rows.now }
    ensures { IfOk result (λ records. records ≡ records_if_there (row_of (Topic name.now) rows.now) name.now read) }
{
    match topic_row(alloc, rows, name.as_str())? {
        Some(_) => records_of_config(alloc, TOPIC, name, read),
        None => Ok(Ok(Sequence::new(alloc))),
    }
}
