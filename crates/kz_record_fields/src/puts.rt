//! Members of objects that are written.
ghost use Rattle.std.specs.Prelude.{◌≡◌, IfOk, OnOk, string_bytes};
ghost use Rattle.base64.specs.Engines.{standard};
ghost use Rattle.base64.specs.GeneralPurpose.{encode_of};
ghost use Rattle.serde_json.specs.Data.{string};
ghost use Rattle.serde_json.specs.View.{view, members_view};
ghost use Rattle.kz_types.specs.Ids.{id_text};
ghost use Rattle.kz_spec_data.specs.Members.{text_or_null_data, ints_data, with_text, with_whole, with_text_or_null, with_flag, with_id, with_bytes, with_ints, with_tagged_whole, with_tagged_ints, with_tagged_text};
ghost use Rattle.kz_spec_data.specs.WrittenRecords.{kind_member};

use base64::engine::general_purpose::{STANDARD, URL_SAFE_NO_PAD};
use kz_types::{Id, NoMemory, Sequence, Text};
use serde_json::{Map, Value};
use std::alloc::Global;

/// Puts a member that is a text.
pub fn put_text(
    members: &mut Map<String, Value>,
    alloc: Global,
    name: &str,
    text: &str,
) -> Result<(), NoMemory>
    ensures { OnOk result (members_view members.new.entries ≡ with_text name.now text.now (members_view members.old.entries)) }
{
    let value = Value::String(String::from_str(alloc, text)?);
    serde_json::put(members, alloc, name, value)?;
    Ok(())
}

/// Puts a member that is a whole number.
pub fn put_whole(
    members: &mut Map<String, Value>,
    alloc: Global,
    name: &str,
    number: i64,
) -> Result<(), NoMemory>
    ensures { OnOk result (members_view members.new.entries ≡ with_whole name.now number (members_view members.old.entries)) }
{
    serde_json::put(members, alloc, name, Value::from(number))?;
    Ok(())
}

fn text_or_null_value(alloc: Global, text: &Option<Text>) -> Result<Value, NoMemory>
    ensures { IfOk result (λ value. view value ≡ text_or_null_data text.now) }
{
    match text {
        Some(text) => Ok(Value::String(String::from_str(alloc, text.as_str())?)),
        None => Ok(Value::Null),
    }
}

/// Puts a member that is a text or null.
pub fn put_text_or_null(
    members: &mut Map<String, Value>,
    alloc: Global,
    name: &str,
    text: &Option<Text>,
) -> Result<(), NoMemory>
    ensures { OnOk result (members_view members.new.entries ≡ with_text_or_null name.now text.now (members_view members.old.entries)) }
{
    let value = text_or_null_value(alloc, text)?;
    serde_json::put(members, alloc, name, value)?;
    Ok(())
}

/// Puts a member that is true or false.
pub fn put_flag(
    members: &mut Map<String, Value>,
    alloc: Global,
    name: &str,
    flag: bool,
) -> Result<(), NoMemory>
    ensures { OnOk result (members_view members.new.entries ≡ with_flag name.now flag (members_view members.old.entries)) }
{
    serde_json::put(members, alloc, name, Value::Bool(flag))?;
    Ok(())
}

// The text of an id, as a JSON string.
fn id_value(alloc: Global, id: &Id) -> Result<Value, NoMemory>
    ensures { IfOk result (λ value. view value ≡ string (id_text id.now.bytes)) }
{
    Ok(Value::String(URL_SAFE_NO_PAD.encode(alloc, &id.bytes)?))
}

/// Puts a member that is an id.
pub fn put_id(
    members: &mut Map<String, Value>,
    alloc: Global,
    name: &str,
    id: &Id,
) -> Result<(), NoMemory>
    ensures { OnOk result (members_view members.new.entries ≡ with_id name.now id.now (members_view members.old.entries)) }
{
    let value = id_value(alloc, id)?;
    serde_json::put(members, alloc, name, value)?;
    Ok(())
}

// Bytes in base64 with its padding.
fn encoded(alloc: Global, bytes: &[u8]) -> Result<String, NoMemory>
    ensures { IfOk result (λ text. string_bytes text ≡ encode_of standard bytes.now) }
{
    Ok(STANDARD.encode(alloc, bytes)?)
}

/// Puts a member that is bytes in base64.
pub fn put_bytes(
    members: &mut Map<String, Value>,
    alloc: Global,
    name: &str,
    bytes: &[u8],
) -> Result<(), NoMemory>
    ensures { OnOk result (members_view members.new.entries ≡ with_bytes name.now bytes.now (members_view members.old.entries)) }
{
    let text = encoded(alloc, bytes)?;
    put_text(members, alloc, name, text.as_str())
}

/// A list of whole numbers.
pub fn ints_value(alloc: Global, numbers: &[i32]) -> Result<Value, NoMemory>
    ensures { IfOk result (λ value. view value ≡ ints_data numbers.now) }
{
    let mut values = Vec::new(alloc);
    for number in numbers {
        values.push(Value::from(*number as i64))?;
    }
    Ok(Value::Array(values))
}

/// Puts a member that is a list of whole numbers.
pub fn put_ints(
    members: &mut Map<String, Value>,
    alloc: Global,
    name: &str,
    numbers: &[i32],
) -> Result<(), NoMemory>
    ensures { OnOk result (members_view members.new.entries ≡ with_ints name.now numbers.now (members_view members.old.entries)) }
{
    let value = ints_value(alloc, numbers)?;
    serde_json::put(members, alloc, name, value)?;
    Ok(())
}

/// Puts a tagged whole number, unless it is the default.
#[tactic(auto, unfolding(kz_spec_data::specs::Members::with_tagged_whole))]
pub fn put_tagged_whole(
    members: &mut Map<String, Value>,
    alloc: Global,
    name: &str,
    default: i64,
    number: i64,
) -> Result<(), NoMemory>
    ensures { OnOk result (members_view members.new.entries ≡ with_tagged_whole name.now default number (members_view members.old.entries)) }
{
    if number == default {
        return Ok(());
    }
    put_whole(members, alloc, name, number)
}

/// Puts a tagged list of whole numbers, unless it is null.
#[tactic(auto, unfolding(kz_spec_data::specs::Members::with_tagged_ints))]
pub fn put_tagged_ints(
    members: &mut Map<String, Value>,
    alloc: Global,
    name: &str,
    numbers: &Option<Sequence<i32>>,
) -> Result<(), NoMemory>
    ensures { OnOk result (members_view members.new.entries ≡ with_tagged_ints name.now numbers.now (members_view members.old.entries)) }
{
    match numbers {
        Some(numbers) => put_ints(members, alloc, name, numbers.as_slice()),
        None => Ok(()),
    }
}

/// Puts a tagged text, unless it is null.
#[tactic(auto, unfolding(kz_spec_data::specs::Members::with_tagged_text))]
pub fn put_tagged_text(
    members: &mut Map<String, Value>,
    alloc: Global,
    name: &str,
    text: &Option<Text>,
) -> Result<(), NoMemory>
    ensures { OnOk result (members_view members.new.entries ≡ with_tagged_text name.now text.now (members_view members.old.entries)) }
{
    match text {
        Some(text) => put_text(members, alloc, name, text.as_str()),
        None => Ok(()),
    }
}

/// The member `kind` alone.
pub fn kind_member(alloc: Global, name: &str) -> Result<Map<String, Value>, NoMemory>
    ensures { IfOk result (λ members. members_view members.entries ≡ kind_member name.now) }
{
    let mut members: Map<String, Value> = Map::new(alloc);
    put_text(&mut members, alloc, "kind", name)?;
    Ok(members)
}
