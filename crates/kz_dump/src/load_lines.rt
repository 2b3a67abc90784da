//! What the lines of a tree that is loaded say.
ghost use Rattle.std.specs.Prelude.{◌≡◌, [], IfOk, None, Some, Err, option_map, pos, codes};
ghost use Rattle.serde_json.specs.View.{view, items_view};
ghost use Rattle.kz_spec_data.specs.LineFields.{int64, all_of, list_of, tagged_member};
ghost use Rattle.kz_spec_machine.specs.LoadLines.{head_of, owner_of, znode_made, znode_count, znode_fields, znode_of, load_line_of, load_line};

use kz_body_parts::read_json;
use kz_record_fields::{bodied_count, body_in, member_count, path_in, tagged_count, tagged_int32};
use kz_record_json::LineFault;
use kz_spec_machine::LoadLine;
use kz_types::{NoMemory, Row, Sequence, ZPath};
use serde_json::Value;
use std::alloc::Global;

// A whole number of 64 bits with a sign.
fn int64(value: &Value) -> Option<i64>
    ensures { result ≡ int64 (view value.now) }
{
    value.as_i64()
}

// A whole number of 64 bits that may be absent, and what it is by default.
fn tagged_int64(value: &Value, name: &str, default: i64) -> Option<i64>
    ensures { result ≡ tagged_member name.now default int64 (view value.now) }
{
    match value.get(name) {
        Some(member) => int64(member),
        None => Some(default),
    }
}

// ---- the first line

// The sessions of a list, or `None` where one of its items is none.
fn sessions_in(alloc: Global, values: &[Value]) -> Result<Option<Sequence<i64>>, NoMemory>
    ensures { IfOk result (λ sessions. sessions ≡ all_of int64 (items_view values.now)) }
{
    let mut sessions = Sequence::new(alloc);
    for value in values {
        match int64(value) {
            Some(session) => sessions.push(session)?,
            None => return Ok(None),
        }
    }
    Ok(Some(sessions))
}

fn sessions_of(alloc: Global, value: &Value) -> Result<Option<Sequence<i64>>, NoMemory>
    ensures { IfOk result (λ sessions. sessions ≡ list_of int64 (view value.now)) }
{
    match value.as_array() {
        Some(values) => sessions_in(alloc, values),
        None => Ok(None),
    }
}

// The member `sessions`, by default none.
fn tagged_sessions(alloc: Global, value: &Value) -> Result<Option<Sequence<i64>>, NoMemory>
    ensures { IfOk result (λ sessions. sessions ≡ tagged_member (codes "sessions") [] (list_of int64) (view value.now)) }
{
    match value.get("sessions") {
        Some(member) => sessions_of(alloc, member),
        None => Ok(Some(Sequence::new(alloc))),
    }
}

fn head_of(alloc: Global, value: &Value) -> Result<Option<LoadLine>, NoMemory>
    ensures { IfOk result (λ said. said ≡ head_of (view value.now)) }
{
    let others = tagged_count(value, "sessions", 0);
    if !value.is_object() || member_count(value) != tagged_count(value, "zxid", others) {
        return Ok(None);
    }
    let Some(zxid) = tagged_int64(value, "zxid", 1) else {
        return Ok(None);
    };
    match tagged_sessions(alloc, value)? {
        Some(sessions) => Ok(Some(LoadLine::Head { zxid, sessions })),
        None => Ok(None),
    }
}

// ---- a znode

// An owner that may be absent.
fn owner_of(value: Option<&Value>) -> Option<Option<i64>>
    ensures { result ≡ owner_of (option_map (λ v. view v.now) value.entry) }
{
    match value {
        None => Some(None),
        Some(value) => match int64(value) {
            Some(session) => Some(Some(session)),
            None => None,
        },
    }
}

// A znode, where its czxid is known: its mzxid and its pzxid are the czxid where they are absent.
fn znode_made(
    path: ZPath,
    body: Sequence<u8>,
    owner: Option<i64>,
    czxid: i64,
    value: &Value,
) -> Option<LoadLine>
    ensures { result ≡ znode_made path body owner czxid (view value.now) }
{
    let version = tagged_int32(value, "version", 0)?;
    let mzxid = tagged_int64(value, "mzxid", czxid)?;
    let pzxid = tagged_int64(value, "pzxid", czxid)?;
    Some(LoadLine::Znode(Row {
        path,
        body,
        version,
        owner,
        czxid,
        mzxid,
        pzxid,
    }))
}

// How many members a line has with those of a znode that are there.
fn znode_count(value: &Value) -> usize
    ensures { result ≡ znode_count (view value.now) }
{
    let mut count = tagged_count(value, "pzxid", 1);
    count = tagged_count(value, "mzxid", count);
    count = tagged_count(value, "czxid", count);
    count = tagged_count(value, "owner", count);
    count = tagged_count(value, "version", count);
    bodied_count(count as u8, value)
}

fn znode_fields(alloc: Global, value: &Value) -> Result<Option<LoadLine>, NoMemory>
    ensures { IfOk result (λ said. said ≡ znode_fields (view value.now)) }
{
    let Some(path) = path_in(alloc, value)? else {
        return Ok(None);
    };
    let Some(body) = body_in(alloc, value)? else {
        return Ok(None);
    };
    let Some(owner) = owner_of(value.get("owner")) else {
        return Ok(None);
    };
    let Some(czxid) = tagged_int64(value, "czxid", 1) else {
        return Ok(None);
    };
    Ok(znode_made(path, body, owner, czxid, value))
}

fn znode_of(alloc: Global, value: &Value) -> Result<Option<LoadLine>, NoMemory>
    ensures { IfOk result (λ said. said ≡ znode_of (view value.now)) }
{
    if member_count(value) != znode_count(value) {
        return Ok(None);
    }
    znode_fields(alloc, value)
}

// ---- a line

// A line with a path is a znode, any other the first line.
fn load_line_of(alloc: Global, value: &Value) -> Result<Option<LoadLine>, NoMemory>
    ensures { IfOk result (λ said. said ≡ load_line_of (view value.now)) }
{
    if value.get("path").is_some() {
        znode_of(alloc, value)
    } else {
        head_of(alloc, value)
    }
}

#[tactic(auto, unfolding(kz_spec_machine::specs::LoadLines::load_line))]
fn load_line(alloc: Global, line: &[u8]) -> Result<Option<LoadLine>, NoMemory>
    ensures { IfOk result (λ said. said ≡ load_line line.now) }
{
    match read_json(alloc, line)? {
        Some(value) => load_line_of(alloc, &value),
        None => Ok(None),
    }
}

/// What a line of a tree that is loaded says. A line is a JSON object with exactly these members, of which only `path` has
/// to be there, and where it is absent the line is the first one:
///
/// - the first line: `zxid`, by default 1, and `sessions`, by default none;
/// - a znode: `path`; `text`, or `bytes` in base64, by default an empty body; `version`, by default 0; `owner`, by default
///   none; `czxid`, by default 1; `mzxid` and `pzxid`, by default the czxid.
///
/// `BadLine`: the line is none of these, as an empty line and a comment aren't. `NoMemory`: memory ran out.
pub fn read_row_line(alloc: Global, line: &[u8]) -> Result<LoadLine, LineFault>
    ensures ok { IfOk result (λ said. load_line line.now ≡ Some said) }
    ensures bad { result ≡ Err LineFault.BadLine → load_line line.now ≡ None }
{
    match load_line(alloc, line) {
        Ok(Some(said)) => Ok(said),
        Ok(None) => Err(LineFault::BadLine),
        Err(NoMemory) => Err(LineFault::NoMemory),
    }
}
