//! Each record that a program holds is read from what is written of it, and so is each operation and each event that is lawful:
//! its texts are UTF-8, its paths keep their rule, and its numbers are in their ranges. The functions here are never run: what
//! they go over is what their contracts say.
ghost use Rattle.std.specs.Prelude.{◌≡◌, ◌≤◌, true, Some, All, length};
ghost use Rattle.base64.specs.GeneralPurpose.{IsBytes};
ghost use Rattle.kz_types.specs.Numbers.{are_distinct};
ghost use Rattle.kz_spec_data.specs.Ops.{op_of};
ghost use Rattle.kz_spec_data.specs.RecordLines.{record_of};
ghost use Rattle.kz_spec_data.specs.Events.{line_event};
ghost use Rattle.kz_spec_data.specs.WrittenRecords.{record_data};
ghost use Rattle.kz_spec_data.specs.Written.{op_data, written_event};
ghost use Rattle.kz_laws_values.specs.Ranges.{IsLong};
ghost use Rattle.kz_laws_values.specs.Readable.{IsText};
ghost use Rattle.kz_laws_lines.specs.Writable.{IsId, IsIdOrNone, IsTime, IsSession, IsVersion, IsTextOrNull, Each, IsInt8, IsInt16, IsInt32, AreIntsOrNull, IsUuid, IsTopic, IsPartition, IsPartitionChange, IsEndpoint, IsFeature, IsRegisterBroker, IsConfigRecord, IsProducerIds, IsUserScramCredential, IsEntity, IsClientQuota, IsAccessControlEntry, IsRecord, IsPath, IsOwner, IsOp, IsEvent};
ghost use Rattle.kz_laws_lines.specs.Lawful.{IsNotNegative, IsNotNegativeOrNone, IsPositive, IsVersionOrAny, IsLawfulOwner, IsLawfulOp, IsLawfulEvent};

use kz_types::{
    AccessControlEntryRecord, ClientQuotaRecord, ConfigRecord, Endpoint, Event, Feature, Id,
    MetaRecord, Op, PartitionChangeRecord, PartitionRecord, ProducerIdsRecord, QuotaEntity,
    RegisterBrokerRecord, Sequence, Text, TopicRecord, UserScramCredentialRecord, ZPath,
};

// ---- fields

fn int8(_number: i8)
    ensures { IsInt8 _number }
{}

fn int16(_number: i16)
    ensures { IsInt16 _number }
{}

fn port(_number: u16)
    ensures { _number ≤ 65535 }
{}

fn int32(_number: i32)
    ensures { IsInt32 _number }
{}

fn int64(_number: i64)
    ensures { IsLong _number }
{}

fn bytes(list: &[u8])
    ensures { IsBytes list.now }
{
    let _ = list.len();
}

fn sixteen(_bytes: &[u8; 16])
    ensures { length _bytes.now ≡ 16 }
{}

fn uuid(id: &Id)
    ensures { IsUuid id.now }
{
    sixteen(&id.bytes);
    bytes(&id.bytes);
}

fn text(text: &Text)
    ensures { IsText text.now }
{
    let _ = text.as_str();
}

fn nullable_text(field: &Option<Text>)
    ensures { IsTextOrNull field.now }
{
    if let Some(some) = field {
        text(some);
    }
}

fn ints(numbers: &[i32])
    ensures { Each IsInt32 numbers.now }
{
    if let [first, rest @ ..] = numbers {
        int32(*first);
        ints(rest);
    }
}

fn nullable_ints(field: &Option<Sequence<i32>>)
    ensures { AreIntsOrNull field.now }
{
    if let Some(list) = field {
        ints(list.as_slice());
    }
}

// ---- records

fn topic(r: &TopicRecord)
    ensures { IsTopic r.now }
{
    text(&r.name);
    uuid(&r.topic_id);
}

fn partition(r: &PartitionRecord)
    ensures { IsPartition r.now }
{
    int32(r.partition_id);
    uuid(&r.topic_id);
    ints(r.replicas.as_slice());
    ints(r.isr.as_slice());
    ints(r.removing.as_slice());
    ints(r.adding.as_slice());
    int32(r.leader);
    int8(r.recovery);
    int32(r.leader_epoch);
    int32(r.partition_epoch);
}

fn partition_change(r: &PartitionChangeRecord)
    ensures { IsPartitionChange r.now }
{
    int32(r.partition_id);
    uuid(&r.topic_id);
    nullable_ints(&r.isr);
    int32(r.leader);
    nullable_ints(&r.replicas);
    nullable_ints(&r.removing);
    nullable_ints(&r.adding);
    int8(r.recovery);
}

fn endpoint(r: &Endpoint)
    ensures { IsEndpoint r.now }
{
    text(&r.name);
    text(&r.host);
    port(r.port);
    int16(r.protocol);
}

fn endpoints(items: &[Endpoint])
    ensures { Each IsEndpoint items.now }
{
    if let [first, rest @ ..] = items {
        endpoint(first);
        endpoints(rest);
    }
}

fn feature(r: &Feature)
    ensures { IsFeature r.now }
{
    text(&r.name);
    int16(r.min);
    int16(r.max);
}

fn features(items: &[Feature])
    ensures { Each IsFeature items.now }
{
    if let [first, rest @ ..] = items {
        feature(first);
        features(rest);
    }
}

fn register_broker(r: &RegisterBrokerRecord)
    ensures { IsRegisterBroker r.now }
{
    int32(r.broker_id);
    uuid(&r.incarnation);
    int64(r.broker_epoch);
    endpoints(r.endpoints.as_slice());
    features(r.features.as_slice());
    nullable_text(&r.rack);
}

fn config(r: &ConfigRecord)
    ensures { IsConfigRecord r.now }
{
    int8(r.resource_type);
    text(&r.resource_name);
    text(&r.name);
    nullable_text(&r.value);
}

fn producer_ids(r: &ProducerIdsRecord)
    ensures { IsProducerIds r.now }
{
    int32(r.broker_id);
    int64(r.broker_epoch);
    int64(r.next);
}

fn user_scram_credential(r: &UserScramCredentialRecord)
    ensures { IsUserScramCredential r.now }
{
    text(&r.name);
    int8(r.mechanism);
    bytes(r.salt.as_slice());
    bytes(r.stored_key.as_slice());
    bytes(r.server_key.as_slice());
    int32(r.iterations);
}

fn entity(r: &QuotaEntity)
    ensures { IsEntity r.now }
{
    text(&r.kind);
    nullable_text(&r.name);
}

fn entities(parts: &[QuotaEntity])
    ensures { Each IsEntity parts.now }
{
    if let [first, rest @ ..] = parts {
        entity(first);
        entities(rest);
    }
}

fn client_quota(r: &ClientQuotaRecord)
    ensures { IsClientQuota r.now }
{
    entities(r.entity.as_slice());
    text(&r.key);
    int64(r.value.whole);
    int32(r.value.micros);
}

fn access_control_entry(r: &AccessControlEntryRecord)
    ensures { IsAccessControlEntry r.now }
{
    uuid(&r.id);
    int8(r.resource_type);
    text(&r.resource_name);
    int8(r.pattern_type);
    text(&r.principal);
    text(&r.host);
    int8(r.operation);
    int8(r.permission);
}

// Every record has fields of their types.
fn record(r: &MetaRecord)
    ensures { IsRecord r.now }
{
    match r {
        MetaRecord::RegisterBroker(fields) => register_broker(fields),
        MetaRecord::Topic(fields) => topic(fields),
        MetaRecord::Partition(fields) => partition(fields),
        MetaRecord::Config(fields) => config(fields),
        MetaRecord::PartitionChange(fields) => partition_change(fields),
        MetaRecord::RemoveTopic { topic_id } => uuid(topic_id),
        MetaRecord::UserScramCredential(fields) => user_scram_credential(fields),
        MetaRecord::ClientQuota(fields) => client_quota(fields),
        MetaRecord::ProducerIds(fields) => producer_ids(fields),
        MetaRecord::AccessControlEntry(fields) => access_control_entry(fields),
        MetaRecord::RemoveAccessControlEntry { id } => uuid(id),
        MetaRecord::NoOp => {}
        MetaRecord::ZkMigrationState { state } => int8(*state),
        MetaRecord::RemoveUserScramCredential { name, mechanism } => {
            text(name);
            int8(*mechanism);
        }
        MetaRecord::BeginTransaction { name } => nullable_text(name),
        MetaRecord::EndTransaction => {}
        MetaRecord::AbortTransaction { reason } => nullable_text(reason),
    }
}

fn records(items: &[MetaRecord])
    ensures { Each IsRecord items.now }
{
    if let [first, rest @ ..] = items {
        record(first);
        records(rest);
    }
}

// ---- operations

fn path(path: &ZPath)
    ensures { IsPath path.now }
{
    let _ = path.bytes();
}

fn session(_session: i64)
    requires { IsPositive _session }
    ensures { IsSession _session }
{}

fn owner(field: &Option<i64>)
    requires { IsLawfulOwner field.now }
    ensures { IsOwner field.now }
{
    if let Some(some) = field {
        session(*some);
    }
}

fn version(_version: i32)
    requires { IsVersionOrAny _version }
    ensures { IsVersion _version }
{}

// Every lawful operation has fields of their types.
fn operation(o: &Op)
    requires { IsLawfulOp o.now }
    ensures { IsOp o.now }
{
    match o {
        Op::Create {
            path: at,
            body,
            owner: whose,
        } => {
            path(at);
            bytes(body.as_slice());
            owner(whose);
        }
        Op::Set {
            path: at,
            body,
            version: of,
        } => {
            path(at);
            bytes(body.as_slice());
            version(*of);
        }
        Op::Delete {
            path: at,
            version: of,
        } => {
            path(at);
            version(*of);
        }
        Op::Check {
            path: at,
            version: of,
        } => {
            path(at);
            version(*of);
        }
    }
}

fn operations(items: &[Op])
    requires { All IsLawfulOp items.now }
    ensures { Each IsOp items.now }
{
    if let [first, rest @ ..] = items {
        operation(first);
        operations(rest);
    }
}

// ---- events

fn id(_id: i32)
    requires { IsNotNegative _id }
    ensures { IsId _id }
{}

fn time(_now: i64)
    requires { IsNotNegative _now }
    ensures { IsTime _now }
{}

fn id_or_none(field: &Option<i32>)
    requires { IsNotNegativeOrNone field.now }
    ensures { IsIdOrNone field.now }
{
    if let Some(some) = field {
        id(*some);
    }
}

fn ids(items: &[i32])
    requires { All IsNotNegative items.now }
    ensures { Each IsId items.now }
{
    if let [first, rest @ ..] = items {
        id(*first);
        ids(rest);
    }
}

// Distinct controllers are declared.
fn quorum(items: &[i32])
    requires lawful { All IsNotNegative items.now }
    requires distinct { are_distinct items.now ≡ true }
    ensures { IsEvent (Event.Quorum items.now) }
{
    ids(items);
}

fn change(controller: i32, items: &[MetaRecord], now: i64)
    requires controller { IsNotNegative controller }
    requires records { 1 ≤ length items.now }
    requires now { IsNotNegative now }
    ensures { IsEvent (Event.Change controller items.now now) }
{
    id(controller);
    records(items);
    time(now);
}

fn multi(items: &[Op])
    requires some { 1 ≤ length items.now }
    requires lawful { All IsLawfulOp items.now }
    ensures { IsEvent (Event.Zk items.now) }
{
    operations(items);
}

// Every lawful event is one that a line can be.
fn event(e: &Event)
    requires { IsLawfulEvent e.now }
    ensures { IsEvent e.now }
{
    match e {
        Event::Quorum { ids: declared } => quorum(declared.as_slice()),
        Event::Start { controller } => id(*controller),
        Event::Stop { controller } => id_or_none(controller),
        Event::Elect { controller, now } => {
            id(*controller);
            time(*now);
        }
        Event::Step {
            controller,
            now,
            plan: _,
        } => {
            id(*controller);
            time(*now);
        }
        Event::Turn { controller, now } => {
            id(*controller);
            time(*now);
        }
        Event::Register {
            controller,
            broker,
            migrating: _,
            now,
        } => {
            id(*controller);
            id(*broker);
            time(*now);
        }
        Event::Change {
            controller,
            records: items,
            now,
        } => change(*controller, items.as_slice(), *now),
        Event::Finalise { controller, now } => {
            id(*controller);
            time(*now);
        }
        Event::Rollback => {}
        Event::Snapshot => {}
        Event::Check => {}
        Event::ZkOpen { session: opened } => session(*opened),
        Event::ZkExpire { session: expired } => session(*expired),
        Event::Zk { ops } => multi(ops.as_slice()),
    }
}

// ---- the laws

/// A record that a program holds is read from what is written of it.
pub fn held_record_is_read(r: &MetaRecord)
    ensures { record_of (record_data r.now) ≡ Some r.now }
{
    record(r);
}

/// An operation that a program holds is read from what is written of it, where it is lawful.
pub fn held_operation_is_read(o: &Op)
    requires { IsLawfulOp o.now }
    ensures { op_of (op_data o.now) ≡ Some o.now }
{
    operation(o);
}

/// An event that a program holds is read from the line that is written of it, where it is lawful.
pub fn held_event_is_read(e: &Event)
    requires { IsLawfulEvent e.now }
    ensures { line_event (written_event e.now) ≡ Some e.now }
{
    event(e);
}
