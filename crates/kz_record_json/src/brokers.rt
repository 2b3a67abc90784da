//! Records of brokers and what they take, as a script writes them.
ghost use Rattle.std.specs.Prelude.{◌≡◌, IfOk, OnOk, map, codes};
ghost use Rattle.serde_json.specs.Data.{array};
ghost use Rattle.serde_json.specs.View.{view, members_view, items_view, items_of};
ghost use Rattle.kz_spec_data.specs.LineFields.{all_of, list_of, field};
ghost use Rattle.kz_spec_data.specs.BrokerRecords.{endpoint_of, feature_of, register_broker_of, config_of, producer_ids_of};
ghost use Rattle.kz_spec_data.specs.WrittenRecords.{endpoint_members, endpoint_data, feature_members, feature_data, with_endpoints, with_features, register_broker_members, config_members, producer_ids_members};

use kz_record_fields::{
    int8_at, int16_at, int32_at, int64_at, kind_member, member_count, nullable_text, put_flag,
    put_id, put_text, put_text_or_null, put_whole, text_member, text_or_null_at, uint16_at,
    uuid_at,
};
use kz_types::{
    ConfigRecord, Endpoint, Feature, MetaRecord, NoMemory, ProducerIdsRecord, RegisterBrokerRecord,
    Sequence, Text,
};
use serde_json::{Map, Value};
use std::alloc::Global;

fn endpoint_of(alloc: Global, value: &Value) -> Result<Option<Endpoint>, NoMemory>
    ensures { IfOk result (λ made. made ≡ endpoint_of (view value.now)) }
{
    if member_count(value) != 4 {
        return Ok(None);
    }
    let Some(name) = text_member(value, "name") else {
        return Ok(None);
    };
    let Some(host) = text_member(value, "host") else {
        return Ok(None);
    };
    let Some(port) = uint16_at(value, "port") else {
        return Ok(None);
    };
    let Some(protocol) = int16_at(value, "protocol") else {
        return Ok(None);
    };
    Ok(Some(Endpoint {
        name: Text::from_str(alloc, name)?,
        host: Text::from_str(alloc, host)?,
        port,
        protocol,
    }))
}

// The endpoints of a list, or `None` where one of its items is none.
fn endpoints_in(alloc: Global, values: &[Value]) -> Result<Option<Sequence<Endpoint>>, NoMemory>
    ensures { IfOk result (λ made. made ≡ all_of endpoint_of (items_view values.now)) }
{
    let mut endpoints = Sequence::new(alloc);
    for value in values {
        match endpoint_of(alloc, value)? {
            Some(endpoint) => endpoints.push(endpoint)?,
            None => return Ok(None),
        }
    }
    Ok(Some(endpoints))
}

// The member `endpoints`.
fn endpoints_at(alloc: Global, value: &Value) -> Result<Option<Sequence<Endpoint>>, NoMemory>
    ensures { IfOk result (λ made. made ≡ field (codes "endpoints") (list_of endpoint_of) (view value.now)) }
{
    match value.get("endpoints").and_then(Value::as_array) {
        Some(values) => endpoints_in(alloc, values),
        None => Ok(None),
    }
}

fn feature_of(alloc: Global, value: &Value) -> Result<Option<Feature>, NoMemory>
    ensures { IfOk result (λ made. made ≡ feature_of (view value.now)) }
{
    if member_count(value) != 3 {
        return Ok(None);
    }
    let Some(name) = text_member(value, "name") else {
        return Ok(None);
    };
    let Some(min) = int16_at(value, "min") else {
        return Ok(None);
    };
    let Some(max) = int16_at(value, "max") else {
        return Ok(None);
    };
    Ok(Some(Feature {
        name: Text::from_str(alloc, name)?,
        min,
        max,
    }))
}

// The features of a list, or `None` where one of its items is none.
fn features_in(alloc: Global, values: &[Value]) -> Result<Option<Sequence<Feature>>, NoMemory>
    ensures { IfOk result (λ made. made ≡ all_of feature_of (items_view values.now)) }
{
    let mut features = Sequence::new(alloc);
    for value in values {
        match feature_of(alloc, value)? {
            Some(feature) => features.push(feature)?,
            None => return Ok(None),
        }
    }
    Ok(Some(features))
}

// The member `features`.
fn features_at(alloc: Global, value: &Value) -> Result<Option<Sequence<Feature>>, NoMemory>
    ensures { IfOk result (λ made. made ≡ field (codes "features") (list_of feature_of) (view value.now)) }
{
    match value.get("features").and_then(Value::as_array) {
        Some(values) => features_in(alloc, values),
        None => Ok(None),
    }
}

/// The `RegisterBroker` that a value is, or `None` where it is none.
pub fn register_broker_of(alloc: Global, value: &Value) -> Result<Option<MetaRecord>, NoMemory>
    ensures { IfOk result (λ made. made ≡ register_broker_of (view value.now)) }
{
    if member_count(value) != 10 {
        return Ok(None);
    }
    let Some(broker_id) = int32_at(value, "brokerId") else {
        return Ok(None);
    };
    let Some(migrating) = value.get("migrating").and_then(Value::as_bool) else {
        return Ok(None);
    };
    let Some(incarnation) = uuid_at(value, "incarnation") else {
        return Ok(None);
    };
    let Some(broker_epoch) = int64_at(value, "brokerEpoch") else {
        return Ok(None);
    };
    let Some(endpoints) = endpoints_at(alloc, value)? else {
        return Ok(None);
    };
    let Some(features) = features_at(alloc, value)? else {
        return Ok(None);
    };
    let Some(rack) = text_or_null_at(value, "rack") else {
        return Ok(None);
    };
    let Some(fenced) = value.get("fenced").and_then(Value::as_bool) else {
        return Ok(None);
    };
    let Some(in_shutdown) = value.get("inShutdown").and_then(Value::as_bool) else {
        return Ok(None);
    };
    Ok(Some(MetaRecord::RegisterBroker(RegisterBrokerRecord {
        broker_id,
        migrating,
        incarnation,
        broker_epoch,
        endpoints,
        features,
        rack: nullable_text(alloc, rack)?,
        fenced,
        in_shutdown,
    })))
}

/// The `Config` that a value is, or `None` where it is none.
pub fn config_of(alloc: Global, value: &Value) -> Result<Option<MetaRecord>, NoMemory>
    ensures { IfOk result (λ made. made ≡ config_of (view value.now)) }
{
    if member_count(value) != 5 {
        return Ok(None);
    }
    let Some(resource_type) = int8_at(value, "resourceType") else {
        return Ok(None);
    };
    let Some(resource_name) = text_member(value, "resourceName") else {
        return Ok(None);
    };
    let Some(name) = text_member(value, "name") else {
        return Ok(None);
    };
    let Some(set_to) = text_or_null_at(value, "value") else {
        return Ok(None);
    };
    Ok(Some(MetaRecord::Config(ConfigRecord {
        resource_type,
        resource_name: Text::from_str(alloc, resource_name)?,
        name: Text::from_str(alloc, name)?,
        value: nullable_text(alloc, set_to)?,
    })))
}

/// The `ProducerIds` that a value is, or `None` where it is none.
pub fn producer_ids_of(value: &Value) -> Option<MetaRecord>
    ensures { result ≡ producer_ids_of (view value.now) }
{
    if member_count(value) != 4 {
        return None;
    }
    let broker_id = int32_at(value, "brokerId")?;
    let broker_epoch = int64_at(value, "brokerEpoch")?;
    let next = int64_at(value, "next")?;
    Some(MetaRecord::ProducerIds(ProducerIdsRecord {
        broker_id,
        broker_epoch,
        next,
    }))
}

fn endpoint_value(alloc: Global, endpoint: &Endpoint) -> Result<Value, NoMemory>
    ensures { IfOk result (λ value. view value ≡ endpoint_data endpoint.now) }
{
    let mut members: Map<String, Value> = Map::new(alloc);
    put_text(&mut members, alloc, "name", endpoint.name.as_str())?;
    put_text(&mut members, alloc, "host", endpoint.host.as_str())?;
    put_whole(&mut members, alloc, "port", endpoint.port as i64)?;
    put_whole(&mut members, alloc, "protocol", endpoint.protocol as i64)?;
    Ok(Value::Object(members))
}

fn endpoint_values(alloc: Global, endpoints: &[Endpoint]) -> Result<Value, NoMemory>
    ensures { IfOk result (λ value. view value ≡ array (items_of (map endpoint_data endpoints.now))) }
{
    let mut values = Vec::new(alloc);
    for endpoint in endpoints {
        values.push(endpoint_value(alloc, endpoint)?)?;
    }
    Ok(Value::Array(values))
}

fn feature_value(alloc: Global, feature: &Feature) -> Result<Value, NoMemory>
    ensures { IfOk result (λ value. view value ≡ feature_data feature.now) }
{
    let mut members: Map<String, Value> = Map::new(alloc);
    put_text(&mut members, alloc, "name", feature.name.as_str())?;
    put_whole(&mut members, alloc, "min", feature.min as i64)?;
    put_whole(&mut members, alloc, "max", feature.max as i64)?;
    Ok(Value::Object(members))
}

fn feature_values(alloc: Global, features: &[Feature]) -> Result<Value, NoMemory>
    ensures { IfOk result (λ value. view value ≡ array (items_of (map feature_data features.now))) }
{
    let mut values = Vec::new(alloc);
    for feature in features {
        values.push(feature_value(alloc, feature)?)?;
    }
    Ok(Value::Array(values))
}

fn put_endpoints(
    members: &mut Map<String, Value>,
    alloc: Global,
    endpoints: &[Endpoint],
) -> Result<(), NoMemory>
    ensures { OnOk result (members_view members.new.entries ≡ with_endpoints endpoints.now (members_view members.old.entries)) }
{
    let values = endpoint_values(alloc, endpoints)?;
    serde_json::put(members, alloc, "endpoints", values)?;
    Ok(())
}

fn put_features(
    members: &mut Map<String, Value>,
    alloc: Global,
    features: &[Feature],
) -> Result<(), NoMemory>
    ensures { OnOk result (members_view members.new.entries ≡ with_features features.now (members_view members.old.entries)) }
{
    let values = feature_values(alloc, features)?;
    serde_json::put(members, alloc, "features", values)?;
    Ok(())
}

/// The members of a `RegisterBroker`.
pub fn register_broker_members(
    alloc: Global,
    broker: &RegisterBrokerRecord,
) -> Result<Map<String, Value>, NoMemory>
    ensures { IfOk result (λ members. members_view members.entries ≡ register_broker_members broker.now) }
{
    let mut members = kind_member(alloc, "RegisterBroker")?;
    put_whole(&mut members, alloc, "brokerId", broker.broker_id as i64)?;
    put_flag(&mut members, alloc, "migrating", broker.migrating)?;
    put_id(&mut members, alloc, "incarnation", &broker.incarnation)?;
    put_whole(&mut members, alloc, "brokerEpoch", broker.broker_epoch)?;
    put_endpoints(&mut members, alloc, broker.endpoints.as_slice())?;
    put_features(&mut members, alloc, broker.features.as_slice())?;
    put_text_or_null(&mut members, alloc, "rack", &broker.rack)?;
    put_flag(&mut members, alloc, "fenced", broker.fenced)?;
    put_flag(&mut members, alloc, "inShutdown", broker.in_shutdown)?;
    Ok(members)
}

/// The members of a `Config`.
pub fn config_members(alloc: Global, config: &ConfigRecord) -> Result<Map<String, Value>, NoMemory>
    ensures { IfOk result (λ members. members_view members.entries ≡ config_members config.now) }
{
    let mut members = kind_member(alloc, "Config")?;
    put_whole(
        &mut members,
        alloc,
        "resourceType",
        config.resource_type as i64,
    )?;
    put_text(
        &mut members,
        alloc,
        "resourceName",
        config.resource_name.as_str(),
    )?;
    put_text(&mut members, alloc, "name", config.name.as_str())?;
    put_text_or_null(&mut members, alloc, "value", &config.value)?;
    Ok(members)
}

/// The members of a `ProducerIds`.
pub fn producer_ids_members(
    alloc: Global,
    ids: &ProducerIdsRecord,
) -> Result<Map<String, Value>, NoMemory>
    ensures { IfOk result (λ members. members_view members.entries ≡ producer_ids_members ids.now) }
{
    let mut members = kind_member(alloc, "ProducerIds")?;
    put_whole(&mut members, alloc, "brokerId", ids.broker_id as i64)?;
    put_whole(&mut members, alloc, "brokerEpoch", ids.broker_epoch)?;
    put_whole(&mut members, alloc, "next", ids.next)?;
    Ok(members)
}
