//! Cases of bodies of entities.
ghost use Rattle.std.specs.Prelude.{◌≡◌};
ghost use Rattle.kz_types.specs.Quotas.{is_quota};
ghost use Rattle.kz_spec_data.specs.Bodies.{is_of_kind};
ghost use Rattle.kz_json.specs.Entries.{are_quotas, keeps_quotas};

use kz_case_fields::{body_value, given, key_at, key_value};
use kz_json::{read_body, write_body};
use kz_record_fields::{bytes_at, put_text, put_text_or_null, text_member};
use kz_script::body_text;
use kz_types::{Body, BodyFault, EntityKey, NoMemory, QuotaRow, QuotaValue, Text};
use serde_json::{Map, Value};
use std::alloc::Global;

// Whether a quota is in its range.
fn is_quota(value: &QuotaValue) -> bool
    ensures { result ≡ is_quota value.now }
{
    0 <= value.whole && 0 <= value.micros && value.micros <= 999_999
}

fn are_quotas(rows: &[QuotaRow]) -> bool
    ensures { result ≡ are_quotas rows.now }
{
    rows.iter().all(|row| is_quota(&row.value))
}

// Whether each quota of a body is in its range.
fn keeps_quotas(body: &Body) -> bool
    ensures { result ≡ keeps_quotas body.now }
{
    match body {
        Body::Quota { quotas, .. } => are_quotas(quotas.as_slice()),
        _ => true,
    }
}

// Whether a body is of its entity's kind.
#[tactic(auto, unfolding(kz_spec_data::specs::Bodies::is_of_kind))]
fn is_of_kind(key: &EntityKey, body: &Body) -> bool
    ensures { result ≡ is_of_kind key.now body.now }
{
    match key {
        EntityKey::Topic { .. } => matches!(body, Body::Topic { .. }),
        EntityKey::Partition { .. } => matches!(body, Body::State { .. }),
        EntityKey::TopicConfig { .. } | EntityKey::BrokerConfig { .. } => matches!(
            body,
            Body::Config { .. }
        ),
        EntityKey::Acl { .. } => matches!(body, Body::Acls { .. }),
        EntityKey::Producer => matches!(body, Body::Producer { .. } | Body::Blank),
        _ => matches!(body, Body::Quota { .. }),
    }
}

// The text that is written for a body, or `None` where it isn't its entity's or a quota is out of its range.
fn written_text(alloc: Global, key: &EntityKey, body: &Body) -> Result<Option<Text>, NoMemory> {
    if !is_of_kind(key, body) || !keeps_quotas(body) {
        return Ok(None);
    }
    let Ok(text) = write_body(alloc, key, body) else {
        return Err(NoMemory);
    };
    Text::new(alloc, &text)
}

// The members that each answer to a body begins with: the call, the bytes in base64, and the key.
fn asked(alloc: Global, key: &EntityKey, bytes: &str) -> Result<Map<String, Value>, NoMemory> {
    let mut members = given(alloc, "body", "bytes", bytes)?;
    let key = key_value(alloc, key)?;
    serde_json::put(&mut members, alloc, "key", key)?;
    Ok(members)
}

// The answer where the bytes are a body, with the text that is written for it where the case tells it.
fn ok_case(
    alloc: Global,
    key: &EntityKey,
    bytes: &str,
    body: &Body,
    is_told: bool,
) -> Result<Value, NoMemory> {
    let mut members = asked(alloc, key, bytes)?;
    let fields = body_value(alloc, body)?;
    serde_json::put(&mut members, alloc, "ok", fields)?;
    if is_told {
        let text = written_text(alloc, key, body)?;
        put_text_or_null(&mut members, alloc, "written", &text)?;
    }
    Ok(Value::Object(members))
}

// The answer where the bytes are no body.
fn fault_case(
    alloc: Global,
    key: &EntityKey,
    bytes: &str,
    fault: &BodyFault,
) -> Result<Value, NoMemory> {
    let mut members = asked(alloc, key, bytes)?;
    let Some(fault) = body_text(alloc, fault)? else {
        return Err(NoMemory);
    };
    put_text(&mut members, alloc, "fault", fault.as_str())?;
    Ok(Value::Object(members))
}

// The answer to the body of an entity, given in base64 and as bytes.
fn answer(
    alloc: Global,
    key: &EntityKey,
    text: &str,
    bytes: &[u8],
    is_told: bool,
) -> Result<Value, NoMemory> {
    match read_body(alloc, key, bytes) {
        Ok(body) => ok_case(alloc, key, text, &body, is_told),
        Err(fault) => fault_case(alloc, key, text, &fault),
    }
}

/// What bytes in base64 say as the body of an entity: `ok`, and `written`, the text that is written for it, where the
/// case tells it; or `fault`, as a line of a reply has it.
pub fn body_case(alloc: Global, case: &Value) -> Result<Option<Value>, NoMemory> {
    let Some(text) = text_member(case, "bytes") else {
        return Ok(None);
    };
    let Some(bytes) = bytes_at(alloc, case, "bytes")? else {
        return Ok(None);
    };
    let Some(key) = key_at(alloc, case, "key")? else {
        return Ok(None);
    };
    let is_told = case.get("written").is_some();
    Ok(Some(answer(alloc, &key, text, bytes.as_slice(), is_told)?))
}
