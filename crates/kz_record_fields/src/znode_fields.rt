//! The members of a znode.
ghost use Rattle.std.specs.Prelude.{◌≡◌, IfOk, Some, None};
ghost use Rattle.serde_json.specs.View.{view};
ghost use Rattle.kz_spec_data.specs.Ops.{session_in, path_in, body_by, body_in, bodied_count};

use crate::{bytes, text_member};
use kz_types::{MAX_LONG, NoMemory, PathFault, Sequence, ZPath};
use serde_json::Value;
use std::alloc::Global;

/// A session: a whole number from 1 to the greatest of 64 bits; `None` for all else.
pub fn session_in(value: &Value) -> Option<i64>
    ensures { result ≡ session_in (view value.now) }
{
    let number = value.as_u64()?;
    if 1 <= number && number <= MAX_LONG as u64 {
        Some(number as i64)
    } else {
        None
    }
}

/// The member `path`, a path by the rule; `None` where it is none.
pub fn path_in(alloc: Global, value: &Value) -> Result<Option<ZPath>, NoMemory>
    ensures { IfOk result (λ path. path ≡ path_in (view value.now)) }
{
    let Some(text) = text_member(value, "path") else {
        return Ok(None);
    };
    match ZPath::new(alloc, text.as_bytes()) {
        Ok(path) => Ok(Some(path)),
        Err(PathFault::BadName { .. }) => Ok(None),
        Err(PathFault::NoMemory) => Err(NoMemory),
    }
}

// A body that is a text.
fn text_body(alloc: Global, value: &Value) -> Result<Option<Sequence<u8>>, NoMemory>
    ensures { IfOk result (λ body. body ≡ body_by (Some (view value.now)) None) }
{
    let Some(text) = value.as_str() else {
        return Ok(None);
    };
    Ok(Some(Sequence::from_vec(Vec::from_slice(alloc, text.as_bytes())?)))
}

/// The body: `text`, or `bytes` in base64 with its padding; empty where both are absent. `None` where there are both, or
/// where the one that is there can't be read.
pub fn body_in(alloc: Global, value: &Value) -> Result<Option<Sequence<u8>>, NoMemory>
    ensures { IfOk result (λ body. body ≡ body_in (view value.now)) }
{
    match (value.get("text"), value.get("bytes")) {
        (None, None) => Ok(Some(Sequence::new(alloc))),
        (Some(text), None) => text_body(alloc, text),
        (None, Some(coded)) => bytes(alloc, coded),
        (Some(_), Some(_)) => Ok(None),
    }
}

/// How many members there are with a body, where there are so many others.
pub fn bodied_count(others: u8, value: &Value) -> usize
    ensures { result ≡ bodied_count others (view value.now) }
{
    let mut count = others as usize;
    if value.get("bytes").is_some() {
        count += 1;
    }
    if value.get("text").is_some() {
        count += 1;
    }
    count
}
