//! Events, written as lines.
ghost use Rattle.std.specs.Prelude.{◌≡◌, IfOk, OnOk, MatchOption, map, true, false, codes, string_bytes};
ghost use Rattle.std.specs.Str.{is_utf8};
ghost use Rattle.serde_json.specs.Data.{boolean, object, array, put};
ghost use Rattle.serde_json.specs.View.{view, members_view, items_of};
ghost use Rattle.serde_json.specs.Written.{compact_text, has_float};
ghost use Rattle.kz_spec_data.specs.Members.{with_whole};
ghost use Rattle.kz_spec_data.specs.WrittenRecords.{record_data};
ghost use Rattle.kz_spec_data.specs.Written.{event_members, controller_members, with_now, with_plan, with_body, with_owner, op_members, op_data, members_of_event, written_event};

use kz_record_fields::{ints_value, put_bytes, put_text, put_whole};
use kz_record_json::write_item;
use kz_types::{Event, MetaRecord, NoMemory, Op, Plan, ZPath};
use serde_json::{Map, Value};
use std::alloc::Global;

fn event_members(alloc: Global, name: &str) -> Result<Map<String, Value>, NoMemory>
    ensures { IfOk result (λ members. members_view members.entries ≡ event_members name.now) }
{
    let mut members: Map<String, Value> = Map::new(alloc);
    put_text(&mut members, alloc, "event", name)?;
    Ok(members)
}

fn controller_members(
    alloc: Global,
    name: &str,
    controller: i32,
) -> Result<Map<String, Value>, NoMemory>
    ensures { IfOk result (λ members. members_view members.entries ≡ controller_members name.now controller) }
{
    let mut members = event_members(alloc, name)?;
    put_whole(&mut members, alloc, "controller", controller as i64)?;
    Ok(members)
}

// Puts `now`, unless it is 0.
fn put_now(members: &mut Map<String, Value>, alloc: Global, now: i64) -> Result<(), NoMemory>
    ensures { OnOk result (members_view members.new.entries ≡ with_now now (members_view members.old.entries)) }
{
    if now == 0 {
        return Ok(());
    }
    put_whole(members, alloc, "now", now)
}

fn timed_members(
    alloc: Global,
    name: &str,
    controller: i32,
    now: i64,
) -> Result<Map<String, Value>, NoMemory>
    ensures { IfOk result (λ members. members_view members.entries ≡ with_now now (controller_members name.now controller)) }
{
    let mut members = controller_members(alloc, name, controller)?;
    put_now(&mut members, alloc, now)?;
    Ok(members)
}

fn stop_members(alloc: Global, controller: Option<i32>) -> Result<Map<String, Value>, NoMemory>
    ensures { IfOk result (λ members. members_view members.entries ≡ members_of_event (Event.Stop controller)) }
{
    match controller {
        None => event_members(alloc, "stop"),
        Some(controller) => controller_members(alloc, "stop", controller),
    }
}

// Puts the plan of a step, unless the request is delivered.
fn put_plan(members: &mut Map<String, Value>, alloc: Global, plan: Plan) -> Result<(), NoMemory>
    ensures { OnOk result (members_view members.new.entries ≡ with_plan plan (members_view members.old.entries)) }
{
    match plan {
        Plan::Deliver => Ok(()),
        Plan::LostBefore => put_text(members, alloc, "plan", "lost-before"),
        Plan::LostAfter => put_text(members, alloc, "plan", "lost-after"),
        Plan::Expired => put_text(members, alloc, "plan", "expired"),
    }
}

fn step_members(
    alloc: Global,
    controller: i32,
    now: i64,
    plan: Plan,
) -> Result<Map<String, Value>, NoMemory>
    ensures { IfOk result (λ members. members_view members.entries ≡ with_plan plan (with_now now (controller_members (codes "step") controller))) }
{
    let mut members = timed_members(alloc, "step", controller, now)?;
    put_plan(&mut members, alloc, plan)?;
    Ok(members)
}

fn session_members(alloc: Global, name: &str, session: i64) -> Result<Map<String, Value>, NoMemory>
    ensures { IfOk result (λ members. members_view members.entries ≡ with_whole (codes "session") session (event_members name.now)) }
{
    let mut members = event_members(alloc, name)?;
    put_whole(&mut members, alloc, "session", session)?;
    Ok(members)
}

fn record_values(alloc: Global, records: &[MetaRecord]) -> Result<Value, NoMemory>
    ensures { IfOk result (λ value. view value ≡ array (items_of (map record_data records.now))) }
{
    let mut values = Vec::new(alloc);
    for record in records {
        values.push(write_item(alloc, record)?)?;
    }
    Ok(Value::Array(values))
}

// The text that a body is, where it is UTF-8.
fn text_of(body: &[u8]) -> Option<&str>
    ensures { MatchOption result (is_utf8 body.now ≡ false) (λ text. (text.now ≡ body.now) × (is_utf8 body.now ≡ true)) }
{
    match str::from_utf8(body) {
        Ok(text) => Some(text),
        Err(_) => None,
    }
}

// Puts a body, unless it is empty.
fn put_body(members: &mut Map<String, Value>, alloc: Global, body: &[u8]) -> Result<(), NoMemory>
    ensures { OnOk result (members_view members.new.entries ≡ with_body body.now (members_view members.old.entries)) }
{
    if body.is_empty() {
        return Ok(());
    }
    match text_of(body) {
        Some(text) => put_text(members, alloc, "text", text),
        None => put_bytes(members, alloc, "bytes", body),
    }
}

// Puts an owner, if there is one.
fn put_owner(
    members: &mut Map<String, Value>,
    alloc: Global,
    owner: Option<i64>,
) -> Result<(), NoMemory>
    ensures { OnOk result (members_view members.new.entries ≡ with_owner owner (members_view members.old.entries)) }
{
    match owner {
        Some(session) => put_whole(members, alloc, "owner", session),
        None => Ok(()),
    }
}

fn op_members(alloc: Global, name: &str, path: &ZPath) -> Result<Map<String, Value>, NoMemory>
    ensures { IfOk result (λ members. members_view members.entries ≡ op_members name.now path.now) }
{
    let mut members: Map<String, Value> = Map::new(alloc);
    put_text(&mut members, alloc, "op", name)?;
    put_text(&mut members, alloc, "path", path.as_str())?;
    Ok(members)
}

fn create_members(
    alloc: Global,
    path: &ZPath,
    body: &[u8],
    owner: Option<i64>,
) -> Result<Map<String, Value>, NoMemory>
    ensures { IfOk result (λ members. members_view members.entries ≡ with_owner owner (with_body body.now (op_members (codes "create") path.now))) }
{
    let mut members = op_members(alloc, "create", path)?;
    put_body(&mut members, alloc, body)?;
    put_owner(&mut members, alloc, owner)?;
    Ok(members)
}

fn set_members(
    alloc: Global,
    path: &ZPath,
    body: &[u8],
    version: i32,
) -> Result<Map<String, Value>, NoMemory>
    ensures { IfOk result (λ members. members_view members.entries ≡ with_whole (codes "version") version (with_body body.now (op_members (codes "set") path.now))) }
{
    let mut members = op_members(alloc, "set", path)?;
    put_body(&mut members, alloc, body)?;
    put_whole(&mut members, alloc, "version", version as i64)?;
    Ok(members)
}

// The members of an operation on a znode of this version.
fn versioned_members(
    alloc: Global,
    name: &str,
    path: &ZPath,
    version: i32,
) -> Result<Map<String, Value>, NoMemory>
    ensures { IfOk result (λ members. members_view members.entries ≡ with_whole (codes "version") version (op_members name.now path.now)) }
{
    let mut members = op_members(alloc, name, path)?;
    put_whole(&mut members, alloc, "version", version as i64)?;
    Ok(members)
}

fn op_value(alloc: Global, op: &Op) -> Result<Value, NoMemory>
    ensures { IfOk result (λ value. view value ≡ op_data op.now) }
{
    match op {
        Op::Create { path, body, owner } => {
            let members = create_members(alloc, path, body.as_slice(), *owner)?;
            Ok(Value::Object(members))
        }
        Op::Set {
            path,
            body,
            version,
        } => {
            let members = set_members(alloc, path, body.as_slice(), *version)?;
            Ok(Value::Object(members))
        }
        Op::Delete { path, version } => {
            let members = versioned_members(alloc, "delete", path, *version)?;
            Ok(Value::Object(members))
        }
        Op::Check { path, version } => {
            let members = versioned_members(alloc, "check", path, *version)?;
            Ok(Value::Object(members))
        }
    }
}

fn op_values(alloc: Global, ops: &[Op]) -> Result<Value, NoMemory>
    ensures { IfOk result (λ value. view value ≡ array (items_of (map op_data ops.now))) }
{
    let mut values = Vec::new(alloc);
    for op in ops {
        values.push(op_value(alloc, op)?)?;
    }
    Ok(Value::Array(values))
}

// The members of an event with a list of this name.
fn list_members(
    alloc: Global,
    event: &str,
    name: &str,
    list: Value,
) -> Result<Map<String, Value>, NoMemory>
    ensures { IfOk result (λ members. members_view members.entries ≡ put name.now (view list) (event_members event.now)) }
{
    let mut members = event_members(alloc, event)?;
    serde_json::put(&mut members, alloc, name, list)?;
    Ok(members)
}

fn change_members(
    alloc: Global,
    controller: i32,
    records: Value,
    now: i64,
) -> Result<Map<String, Value>, NoMemory>
    ensures { IfOk result (λ members. members_view members.entries ≡ put (codes "records") (view records) (with_now now (controller_members (codes "change") controller))) }
{
    let mut members = timed_members(alloc, "change", controller, now)?;
    serde_json::put(&mut members, alloc, "records", records)?;
    Ok(members)
}

fn register_members(
    alloc: Global,
    controller: i32,
    broker: i32,
    migrating: bool,
    now: i64,
) -> Result<Map<String, Value>, NoMemory>
    ensures { IfOk result (λ members. members_view members.entries ≡ put (codes "migrating") (boolean migrating) (with_whole (codes "broker") broker (with_now now (controller_members (codes "register") controller)))) }
{
    let mut members = timed_members(alloc, "register", controller, now)?;
    put_whole(&mut members, alloc, "broker", broker as i64)?;
    serde_json::put(&mut members, alloc, "migrating", Value::Bool(migrating))?;
    Ok(members)
}

fn members_of_event(alloc: Global, event: &Event) -> Result<Map<String, Value>, NoMemory>
    ensures { IfOk result (λ members. members_view members.entries ≡ members_of_event event.now) }
{
    match event {
        Event::Quorum { ids } => {
            let ids = ints_value(alloc, ids.as_slice())?;
            list_members(alloc, "quorum", "ids", ids)
        }
        Event::Start { controller } => controller_members(alloc, "start", *controller),
        Event::Stop { controller } => stop_members(alloc, *controller),
        Event::Elect { controller, now } => timed_members(alloc, "elect", *controller, *now),
        Event::Step {
            controller,
            now,
            plan,
        } => step_members(alloc, *controller, *now, *plan),
        Event::Turn { controller, now } => timed_members(alloc, "turn", *controller, *now),
        Event::Change {
            controller,
            records,
            now,
        } => {
            let records = record_values(alloc, records.as_slice())?;
            change_members(alloc, *controller, records, *now)
        }
        Event::Register {
            controller,
            broker,
            migrating,
            now,
        } => register_members(alloc, *controller, *broker, *migrating, *now),
        Event::Finalise { controller, now } => timed_members(alloc, "finalise", *controller, *now),
        Event::Rollback => event_members(alloc, "rollback"),
        Event::Snapshot => event_members(alloc, "snapshot"),
        Event::Check => event_members(alloc, "check"),
        Event::ZkOpen { session } => session_members(alloc, "zk-open", *session),
        Event::ZkExpire { session } => session_members(alloc, "zk-expire", *session),
        Event::Zk { ops } => {
            let ops = op_values(alloc, ops.as_slice())?;
            list_members(alloc, "zk", "ops", ops)
        }
    }
}

fn event_value(alloc: Global, event: &Event) -> Result<Value, NoMemory>
    ensures { IfOk result (λ value. view value ≡ object (members_of_event event.now)) }
{
    Ok(Value::Object(members_of_event(alloc, event)?))
}

// The text of a value without floats.
fn value_text(alloc: Global, value: &Value) -> Result<Vec<u8>, NoMemory>
    requires { has_float (view value.now) ≡ false }
    ensures { IfOk result (λ text. text.items ≡ compact_text (view value.now)) }
{
    Ok(value.to_vec(alloc)?)
}

/// The line of an event, without its end: compact JSON, with the members of an object in the order of their names'
/// bytes. `now` is left out where it is 0, the plan of a step where the request is delivered, and the body of an operation
/// where it is empty; a body that isn't UTF-8 is written in base64.
#[tactic(auto, unfolding(kz_spec_data::specs::Written::written_event), using(crate::proofs::Plain::event_no_float))]
pub fn write_event(alloc: Global, event: &Event) -> Result<Vec<u8>, NoMemory>
    ensures { IfOk result (λ line. line.items ≡ written_event event.now) }
{
    let value = event_value(alloc, event)?;
    value_text(alloc, &value)
}
