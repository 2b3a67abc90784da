//! The events that lines are.
ghost use Rattle.std.specs.Prelude.{◌≡◌, IfOk, None, Some, Err, option_map, codes};
ghost use Rattle.serde_json.specs.View.{view, items_view};
ghost use Rattle.serde_json.specs.Find.{get};
ghost use Rattle.kz_spec_data.specs.Json.{count_with};
ghost use Rattle.kz_spec_data.specs.Events.{controller_of, now_of, timed_count, ids_in, distinct_ids, quorum_of, start_of, stop_by, stop_of, elect_of, turn_of, plan_named, plan_by, step_of, records_in, change_of, register_of, finalise_of, rollback_of, snapshot_of, check_of, session_of, open_of, expire_of, ops_in, zk_of, event_of, line_event};

use crate::numbers::{id_of, time_of};
use crate::ops::op_of;
use kz_body_parts::{are_distinct, read_json};
use kz_record_fields::{member_count, session_in, text_member};
use kz_record_json::{LineFault, record_of};
use kz_types::{Event, MetaRecord, NoMemory, Op, Plan, Sequence};
use serde_json::Value;
use std::alloc::Global;

fn controller_of(value: &Value) -> Option<i32>
    ensures { result ≡ controller_of (view value.now) }
{
    id_of(value.get("controller")?)
}

fn now_of(value: &Value) -> Option<i64>
    ensures { result ≡ now_of (view value.now) }
{
    time_of(value.get("now"))
}

// How many members there are with one that may be absent, where there are so many others.
fn count_with(member: Option<&Value>, others: u8) -> usize
    ensures { result ≡ count_with (option_map (λ v. view v.now) member.entry) others }
{
    match member {
        Some(_) => others as usize + 1,
        None => others as usize,
    }
}

// How many members there are with `now`, which may be absent, where there are so many others.
fn timed_count(others: u8, value: &Value) -> usize
    ensures { result ≡ timed_count others (view value.now) }
{
    count_with(value.get("now"), others)
}

// The ids of a list, or `None` where one of them is none.
fn ids_in(alloc: Global, values: &[Value]) -> Result<Option<Sequence<i32>>, NoMemory>
    ensures { IfOk result (λ ids. ids ≡ ids_in (items_view values.now)) }
{
    let mut ids = Sequence::new(alloc);
    for value in values {
        match id_of(value) {
            Some(id) => ids.push(id)?,
            None => return Ok(None),
        }
    }
    Ok(Some(ids))
}

// The ids, or `None` where one of them stands twice.
fn distinct_ids(ids: Sequence<i32>) -> Option<Sequence<i32>>
    ensures { result ≡ distinct_ids ids }
{
    if are_distinct(ids.as_slice()) {
        Some(ids)
    } else {
        None
    }
}

fn quorum_of(alloc: Global, value: &Value) -> Result<Option<Event>, NoMemory>
    ensures { IfOk result (λ event. event ≡ quorum_of (view value.now)) }
{
    if member_count(value) != 2 {
        return Ok(None);
    }
    let Some(values) = value.get("ids").and_then(Value::as_array) else {
        return Ok(None);
    };
    let Some(ids) = ids_in(alloc, values)? else {
        return Ok(None);
    };
    match distinct_ids(ids) {
        Some(ids) => Ok(Some(Event::Quorum { ids })),
        None => Ok(None),
    }
}

fn start_of(value: &Value) -> Option<Event>
    ensures { result ≡ start_of (view value.now) }
{
    if member_count(value) != 2 {
        return None;
    }
    let controller = controller_of(value)?;
    Some(Event::Start { controller })
}

// `stop`, of the controller that is named, or of all.
fn stop_by(named: Option<&Value>) -> Option<Event>
    ensures { result ≡ stop_by (option_map (λ v. view v.now) named.entry) }
{
    match named {
        None => Some(Event::Stop { controller: None }),
        Some(value) => {
            let controller = id_of(value)?;
            Some(Event::Stop {
                controller: Some(controller),
            })
        }
    }
}

fn stop_of(value: &Value) -> Option<Event>
    ensures { result ≡ stop_of (view value.now) }
{
    let named = value.get("controller");
    if member_count(value) != count_with(named, 1) {
        return None;
    }
    stop_by(named)
}

fn elect_of(value: &Value) -> Option<Event>
    ensures { result ≡ elect_of (view value.now) }
{
    if member_count(value) != timed_count(2, value) {
        return None;
    }
    let controller = controller_of(value)?;
    let now = now_of(value)?;
    Some(Event::Elect { controller, now })
}

fn turn_of(value: &Value) -> Option<Event>
    ensures { result ≡ turn_of (view value.now) }
{
    if member_count(value) != timed_count(2, value) {
        return None;
    }
    let controller = controller_of(value)?;
    let now = now_of(value)?;
    Some(Event::Turn { controller, now })
}

fn plan_named(name: &str) -> Option<Plan>
    ensures { result ≡ plan_named name.now }
{
    match name {
        "deliver" => Some(Plan::Deliver),
        "lost-before" => Some(Plan::LostBefore),
        "lost-after" => Some(Plan::LostAfter),
        "expired" => Some(Plan::Expired),
        _ => None,
    }
}

// The plan of a step, which may be absent.
fn plan_by(value: Option<&Value>) -> Option<Plan>
    ensures { result ≡ plan_by (option_map (λ v. view v.now) value.entry) }
{
    match value {
        None => Some(Plan::Deliver),
        Some(value) => plan_named(value.as_str()?),
    }
}

// How many members a step has with `now` and `plan`, which may be absent.
fn step_count(value: &Value) -> usize
    ensures { result ≡ count_with (get (codes "plan") (view value.now)) (timed_count 2 (view value.now)) }
{
    let mut count = 2;
    if value.get("now").is_some() {
        count += 1;
    }
    if value.get("plan").is_some() {
        count += 1;
    }
    count
}

fn step_of(value: &Value) -> Option<Event>
    ensures { result ≡ step_of (view value.now) }
{
    if member_count(value) != step_count(value) {
        return None;
    }
    let controller = controller_of(value)?;
    let now = now_of(value)?;
    let plan = plan_by(value.get("plan"))?;
    Some(Event::Step {
        controller,
        now,
        plan,
    })
}

// The records of a list, or `None` where one of them is none.
fn records_in(alloc: Global, values: &[Value]) -> Result<Option<Sequence<MetaRecord>>, NoMemory>
    ensures { IfOk result (λ records. records ≡ records_in (items_view values.now)) }
{
    let mut records = Sequence::new(alloc);
    for value in values {
        match record_of(alloc, value)? {
            Some(record) => records.push(record)?,
            None => return Ok(None),
        }
    }
    Ok(Some(records))
}

fn change_of(alloc: Global, value: &Value) -> Result<Option<Event>, NoMemory>
    ensures { IfOk result (λ event. event ≡ change_of (view value.now)) }
{
    if member_count(value) != timed_count(3, value) {
        return Ok(None);
    }
    let Some(controller) = controller_of(value) else {
        return Ok(None);
    };
    let Some(now) = now_of(value) else {
        return Ok(None);
    };
    let Some(values) = value.get("records").and_then(Value::as_array) else {
        return Ok(None);
    };
    match records_in(alloc, values)? {
        Some(records) if records.len() > 0 => Ok(Some(Event::Change {
            controller,
            records,
            now,
        })),
        _ => Ok(None),
    }
}

fn register_of(value: &Value) -> Option<Event>
    ensures { result ≡ register_of (view value.now) }
{
    if member_count(value) != timed_count(4, value) {
        return None;
    }
    let controller = controller_of(value)?;
    let broker = id_of(value.get("broker")?)?;
    let migrating = value.get("migrating")?.as_bool()?;
    let now = now_of(value)?;
    Some(Event::Register {
        controller,
        broker,
        migrating,
        now,
    })
}

fn finalise_of(value: &Value) -> Option<Event>
    ensures { result ≡ finalise_of (view value.now) }
{
    if member_count(value) != timed_count(2, value) {
        return None;
    }
    let controller = controller_of(value)?;
    let now = now_of(value)?;
    Some(Event::Finalise { controller, now })
}

fn rollback_of(value: &Value) -> Option<Event>
    ensures { result ≡ rollback_of (view value.now) }
{
    if member_count(value) == 1 {
        Some(Event::Rollback)
    } else {
        None
    }
}

fn snapshot_of(value: &Value) -> Option<Event>
    ensures { result ≡ snapshot_of (view value.now) }
{
    if member_count(value) == 1 {
        Some(Event::Snapshot)
    } else {
        None
    }
}

fn check_of(value: &Value) -> Option<Event>
    ensures { result ≡ check_of (view value.now) }
{
    if member_count(value) == 1 {
        Some(Event::Check)
    } else {
        None
    }
}

fn session_of(value: &Value) -> Option<i64>
    ensures { result ≡ session_of (view value.now) }
{
    session_in(value.get("session")?)
}

fn open_of(value: &Value) -> Option<Event>
    ensures { result ≡ open_of (view value.now) }
{
    if member_count(value) != 2 {
        return None;
    }
    let session = session_of(value)?;
    Some(Event::ZkOpen { session })
}

fn expire_of(value: &Value) -> Option<Event>
    ensures { result ≡ expire_of (view value.now) }
{
    if member_count(value) != 2 {
        return None;
    }
    let session = session_of(value)?;
    Some(Event::ZkExpire { session })
}

// The operations of a list, or `None` where one of them is none.
fn ops_in(alloc: Global, values: &[Value]) -> Result<Option<Sequence<Op>>, NoMemory>
    ensures { IfOk result (λ ops. ops ≡ ops_in (items_view values.now)) }
{
    let mut ops = Sequence::new(alloc);
    for value in values {
        match op_of(alloc, value)? {
            Some(op) => ops.push(op)?,
            None => return Ok(None),
        }
    }
    Ok(Some(ops))
}

fn zk_of(alloc: Global, value: &Value) -> Result<Option<Event>, NoMemory>
    ensures { IfOk result (λ event. event ≡ zk_of (view value.now)) }
{
    if member_count(value) != 2 {
        return Ok(None);
    }
    let Some(values) = value.get("ops").and_then(Value::as_array) else {
        return Ok(None);
    };
    match ops_in(alloc, values)? {
        Some(ops) if ops.len() > 0 => Ok(Some(Event::Zk { ops })),
        _ => Ok(None),
    }
}

fn event_of(alloc: Global, value: &Value) -> Result<Option<Event>, NoMemory>
    ensures { IfOk result (λ event. event ≡ event_of (view value.now)) }
{
    let Some(name) = text_member(value, "event") else {
        return Ok(None);
    };
    match name {
        "quorum" => quorum_of(alloc, value),
        "start" => Ok(start_of(value)),
        "stop" => Ok(stop_of(value)),
        "elect" => Ok(elect_of(value)),
        "step" => Ok(step_of(value)),
        "turn" => Ok(turn_of(value)),
        "register" => Ok(register_of(value)),
        "change" => change_of(alloc, value),
        "finalise" => Ok(finalise_of(value)),
        "rollback" => Ok(rollback_of(value)),
        "snapshot" => Ok(snapshot_of(value)),
        "check" => Ok(check_of(value)),
        "zk-open" => Ok(open_of(value)),
        "zk-expire" => Ok(expire_of(value)),
        "zk" => zk_of(alloc, value),
        _ => Ok(None),
    }
}

#[tactic(auto, unfolding(kz_spec_data::specs::Events::line_event))]
fn line_event(alloc: Global, line: &[u8]) -> Result<Option<Event>, NoMemory>
    ensures { IfOk result (λ event. event ≡ line_event line.now) }
{
    match read_json(alloc, line)? {
        Some(value) => event_of(alloc, &value),
        None => Ok(None),
    }
}

/// The event that a line of a script is. Lines have JSON objects, with the event's name as `event` and exactly its
/// members.
///
/// `BadLine`: the line is no event, as an empty line and a comment aren't. `NoMemory`: memory ran out.
pub fn read_event(alloc: Global, line: &[u8]) -> Result<Event, LineFault>
    ensures ok { IfOk result (λ event. line_event line.now ≡ Some event) }
    ensures bad { result ≡ Err LineFault.BadLine → line_event line.now ≡ None }
{
    match line_event(alloc, line) {
        Ok(Some(event)) => Ok(event),
        Ok(None) => Err(LineFault::BadLine),
        Err(NoMemory) => Err(LineFault::NoMemory),
    }
}
