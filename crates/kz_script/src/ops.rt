//! Operations of a ZooKeeper multi, as a script writes them.
ghost use Rattle.std.specs.Prelude.{◌≡◌, IfOk, option_map};
ghost use Rattle.serde_json.specs.View.{view};
ghost use Rattle.kz_spec_data.specs.Ops.{version_in, owner_by, create_of, set_of, delete_of, check_of, op_of};

use kz_record_fields::{bodied_count, body_in, member_count, path_in, session_in, text_member};
use kz_types::{MAX_VERSION, NoMemory, Op};
use serde_json::Value;
use std::alloc::Global;

// The member `version`: -1 is any.
fn version_in(value: &Value) -> Option<i32>
    ensures { result ≡ version_in (view value.now) }
{
    let version = value.get("version")?.as_i64()?;
    if -1 <= version && version <= MAX_VERSION as i64 {
        Some(version as i32)
    } else {
        None
    }
}

// An owner that may be absent.
fn owner_by(value: Option<&Value>) -> Option<Option<i64>>
    ensures { result ≡ owner_by (option_map (λ v. view v.now) value.entry) }
{
    match value {
        None => Some(None),
        Some(value) => match session_in(value) {
            Some(session) => Some(Some(session)),
            None => None,
        },
    }
}

fn create_of(alloc: Global, value: &Value) -> Result<Option<Op>, NoMemory>
    ensures { IfOk result (λ op. op ≡ create_of (view value.now)) }
{
    let owner = value.get("owner");
    let mut count = bodied_count(2, value);
    if owner.is_some() {
        count += 1;
    }
    if member_count(value) != count {
        return Ok(None);
    }
    let Some(path) = path_in(alloc, value)? else {
        return Ok(None);
    };
    let Some(body) = body_in(alloc, value)? else {
        return Ok(None);
    };
    match owner_by(owner) {
        Some(owner) => Ok(Some(Op::Create { path, body, owner })),
        None => Ok(None),
    }
}

fn set_of(alloc: Global, value: &Value) -> Result<Option<Op>, NoMemory>
    ensures { IfOk result (λ op. op ≡ set_of (view value.now)) }
{
    if member_count(value) != bodied_count(3, value) {
        return Ok(None);
    }
    let Some(path) = path_in(alloc, value)? else {
        return Ok(None);
    };
    let Some(body) = body_in(alloc, value)? else {
        return Ok(None);
    };
    match version_in(value) {
        Some(version) => Ok(Some(Op::Set {
            path,
            body,
            version,
        })),
        None => Ok(None),
    }
}

fn delete_of(alloc: Global, value: &Value) -> Result<Option<Op>, NoMemory>
    ensures { IfOk result (λ op. op ≡ delete_of (view value.now)) }
{
    if member_count(value) != 3 {
        return Ok(None);
    }
    let Some(path) = path_in(alloc, value)? else {
        return Ok(None);
    };
    match version_in(value) {
        Some(version) => Ok(Some(Op::Delete { path, version })),
        None => Ok(None),
    }
}

fn check_of(alloc: Global, value: &Value) -> Result<Option<Op>, NoMemory>
    ensures { IfOk result (λ op. op ≡ check_of (view value.now)) }
{
    if member_count(value) != 3 {
        return Ok(None);
    }
    let Some(path) = path_in(alloc, value)? else {
        return Ok(None);
    };
    match version_in(value) {
        Some(version) => Ok(Some(Op::Check { path, version })),
        None => Ok(None),
    }
}

/// The operation that a JSON value is, or `None` where it is none.
#[tactic(auto, unfolding(kz_spec_data::specs::Ops::op_of))]
pub fn op_of(alloc: Global, value: &Value) -> Result<Option<Op>, NoMemory>
    ensures { IfOk result (λ op. op ≡ op_of (view value.now)) }
{
    let Some(name) = text_member(value, "op") else {
        return Ok(None);
    };
    match name {
        "create" => create_of(alloc, value),
        "set" => set_of(alloc, value),
        "delete" => delete_of(alloc, value),
        "check" => check_of(alloc, value),
        _ => Ok(None),
    }
}
