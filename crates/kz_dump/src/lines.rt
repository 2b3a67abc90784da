//! Lines that tell what stands in a tree, in a log and in a rendering.
ghost use Rattle.std.specs.Prelude.{◌≡◌, ◌++◌, IfOk, OnOk, map, false, codes};
ghost use Rattle.serde_json.specs.Data.{array, no_members, put};
ghost use Rattle.serde_json.specs.View.{view, members_view, items_of};
ghost use Rattle.serde_json.specs.Written.{has_float};
ghost use Rattle.kz_spec_data.specs.Members.{whole_data, with_text, with_whole, with_bytes};
ghost use Rattle.kz_spec_data.specs.Written.{with_owner};
ghost use Rattle.kz_spec_data.specs.WrittenRecords.{record_data};
ghost use Rattle.kz_spec_machine.specs.Dumps.{line_of, tree_head_data, row_data, log_head_data, batch_data, tree_head_line, row_line, log_head_line, batch_line, rendered_line};

use crate::quoted::push_quoted;
use kz_record_fields::{put_bytes, put_text, put_whole};
use kz_record_json::write_item;
use kz_tree::Tree;
use kz_types::{BatchRow, MetaRecord, NoMemory, Rendered, Row};
use serde_json::{Map, Value};
use std::alloc::Global;

// The line of a value without floats.
fn value_line(alloc: Global, value: &Value) -> Result<Vec<u8>, NoMemory>
    requires { has_float (view value.now) ≡ false }
    ensures { IfOk result (λ line. line.items ≡ line_of (view value.now)) }
{
    let mut line = value.to_vec(alloc)?;
    line.push(b'\n')?;
    Ok(line)
}

// ---- a tree

fn session_values(alloc: Global, sessions: &[i64]) -> Result<Value, NoMemory>
    ensures { IfOk result (λ value. view value ≡ array (items_of (map whole_data sessions.now))) }
{
    let mut values = Vec::new(alloc);
    for session in sessions {
        values.push(Value::from(*session))?;
    }
    Ok(Value::Array(values))
}

fn tree_head_value(alloc: Global, sessions: &[i64], zxid: i64) -> Result<Value, NoMemory>
    ensures { IfOk result (λ value. view value ≡ tree_head_data sessions.now zxid) }
{
    let sessions = session_values(alloc, sessions)?;
    let mut members: Map<String, Value> = Map::new(alloc);
    serde_json::put(&mut members, alloc, "sessions", sessions)?;
    put_whole(&mut members, alloc, "zxid", zxid)?;
    Ok(Value::Object(members))
}

/// The first line of a tree's dump: its live sessions and its last zxid. All lines here are compact JSON, with the members
/// of an object in the order of their names' bytes, and a line feed.
///
/// `NoMemory`: memory ran out, as for each of these.
#[tactic(auto, unfolding(kz_spec_machine::specs::Dumps::tree_head_line))]
pub fn tree_head(alloc: Global, tree: &Tree) -> Result<Vec<u8>, NoMemory>
    ensures { IfOk result (λ line. line.items ≡ tree_head_line tree.now.sessions tree.now.zxid) }
{
    let value = tree_head_value(alloc, tree.sessions(), tree.last_zxid())?;
    value_line(alloc, &value)
}

// Puts an owner, if there is one.
fn put_owner(
    members: &mut Map<String, Value>,
    alloc: Global,
    owner: Option<i64>,
) -> Result<(), NoMemory>
    ensures { OnOk result (members_view members.new.entries ≡ with_owner owner (members_view members.old.entries)) }
{
    match owner {
        Some(session) => put_whole(members, alloc, "owner", session),
        None => Ok(()),
    }
}

// The members of a znode up to its owner.
fn owned_members(alloc: Global, row: &Row) -> Result<Map<String, Value>, NoMemory>
    ensures { IfOk result (λ members. members_view members.entries ≡ with_owner row.now.owner
        (with_whole (codes "mzxid") row.now.mzxid (with_whole (codes "czxid") row.now.czxid (with_bytes (codes "bytes") row.now.body no_members)))) }
{
    let mut members: Map<String, Value> = Map::new(alloc);
    put_bytes(&mut members, alloc, "bytes", row.body.as_slice())?;
    put_whole(&mut members, alloc, "czxid", row.czxid)?;
    put_whole(&mut members, alloc, "mzxid", row.mzxid)?;
    put_owner(&mut members, alloc, row.owner)?;
    Ok(members)
}

fn row_value(alloc: Global, row: &Row) -> Result<Value, NoMemory>
    ensures { IfOk result (λ value. view value ≡ row_data row.now) }
{
    let mut members = owned_members(alloc, row)?;
    put_text(&mut members, alloc, "path", row.path.as_str())?;
    put_whole(&mut members, alloc, "pzxid", row.pzxid)?;
    put_whole(&mut members, alloc, "version", row.version as i64)?;
    Ok(Value::Object(members))
}

/// The line of a znode in a tree's dump: its body in base64 as `bytes`, its path, its version, its owner where it has one,
/// and the transactions that made it, that set its body last, and that made or deleted a child last.
#[tactic(auto, unfolding(kz_spec_machine::specs::Dumps::row_line))]
pub fn row_line(alloc: Global, row: &Row) -> Result<Vec<u8>, NoMemory>
    ensures { IfOk result (λ line. line.items ≡ row_line row.now) }
{
    let value = row_value(alloc, row)?;
    value_line(alloc, &value)
}

// ---- a log

fn log_head_value(alloc: Global, base: i64, end: i64, epoch: i32) -> Result<Value, NoMemory>
    ensures { IfOk result (λ value. view value ≡ log_head_data base end epoch) }
{
    let mut members: Map<String, Value> = Map::new(alloc);
    put_whole(&mut members, alloc, "base", base)?;
    put_whole(&mut members, alloc, "end", end)?;
    put_whole(&mut members, alloc, "epoch", epoch as i64)?;
    Ok(Value::Object(members))
}

/// The first line of a log's dump: its base, the offset of its last record, and its epoch.
#[tactic(auto, unfolding(kz_spec_machine::specs::Dumps::log_head_line))]
pub fn log_head(alloc: Global, base: i64, end: i64, epoch: i32) -> Result<Vec<u8>, NoMemory>
    ensures { IfOk result (λ line. line.items ≡ log_head_line base end epoch) }
{
    let value = log_head_value(alloc, base, end, epoch)?;
    value_line(alloc, &value)
}

fn record_values(alloc: Global, records: &[MetaRecord]) -> Result<Value, NoMemory>
    ensures { IfOk result (λ value. view value ≡ array (items_of (map record_data records.now))) }
{
    let mut values = Vec::new(alloc);
    for record in records {
        values.push(write_item(alloc, record)?)?;
    }
    Ok(Value::Array(values))
}

fn batch_value(alloc: Global, batch: &BatchRow) -> Result<Value, NoMemory>
    ensures { IfOk result (λ value. view value ≡ batch_data batch.now) }
{
    let records = record_values(alloc, batch.items.as_slice())?;
    let mut members: Map<String, Value> = Map::new(alloc);
    put_whole(&mut members, alloc, "epoch", batch.epoch as i64)?;
    put_whole(&mut members, alloc, "first", batch.first)?;
    serde_json::put(&mut members, alloc, "records", records)?;
    put_whole(&mut members, alloc, "time", batch.time)?;
    Ok(Value::Object(members))
}

/// The line of a batch in a log's dump: its epoch, the offset of its first record, its records as lines of scripts have
/// them, and its time.
#[tactic(auto, unfolding(kz_spec_machine::specs::Dumps::batch_line))]
pub fn batch_line(alloc: Global, batch: &BatchRow) -> Result<Vec<u8>, NoMemory>
    ensures { IfOk result (λ line. line.items ≡ batch_line batch.now) }
{
    let value = batch_value(alloc, batch)?;
    value_line(alloc, &value)
}

// ---- a rendering

/// The line of a znode that is rendered: its body, which is written as a text as it is, and its path.
#[tactic(auto, using(crate::proofs::RenderedLines::rendered_added))]
pub fn render_line(alloc: Global, row: &Rendered) -> Result<Vec<u8>, NoMemory>
    ensures { IfOk result (λ line. line.items ≡ rendered_line row.now) }
{
    let mut line = Vec::new(alloc);
    line.extend_from_slice(b"{\"body\":")?;
    push_quoted(&mut line, row.body.as_slice())?;
    line.extend_from_slice(b",\"path\":")?;
    push_quoted(&mut line, row.path.bytes())?;
    line.extend_from_slice(b"}\n")?;
    Ok(line)
}
