//! Cases of names, ids and quotas.
ghost use Rattle.std.specs.Prelude.{◌≡◌, IfOk, OnOk, Ok, Err, true, option_map};
ghost use Rattle.serde_json.specs.View.{view, members_view};
ghost use Rattle.kz_types.specs.Ids.{id_of};
ghost use Rattle.kz_types.specs.Paths.{part_for_name};
ghost use Rattle.kz_types.specs.Quotas.{is_quota};
ghost use Rattle.kz_spec_data.specs.Quotas.{quota_of};
ghost use Rattle.kz_spec_data.specs.Json.{by_name};
ghost use Rattle.kz_case_fields.specs.Texts.{hex, text_of};
ghost use Rattle.kz_case_answers.specs.Answers.{name_forms, sanitise_answer, restore_answer, id_answer, quota_answer, quota_members};

use kz_body_parts::QuotaText;
use kz_case_fields::{given, hex_text};
use kz_path::{restore, sanitise};
use kz_record_fields::{put_text, put_text_or_null, put_whole, text_member};
use kz_types::{Id, NoMemory, QuotaFault, QuotaValue, Text};
use serde_json::{Map, Value};
use std::alloc::Global;

// The text that bytes are.
#[tactic(auto, using(kz_case_fields::proofs::Digits::is_text, kz_case_fields::proofs::Digits::is_no_text))]
fn text_of(alloc: Global, bytes: &[u8]) -> Result<Option<Text>, NoMemory>
    ensures { IfOk result (λ text. text ≡ text_of bytes.now) }
{
    match Text::new(alloc, bytes)? {
        Some(text) => Ok(Some(text)),
        None => Ok(None),
    }
}

// The part of a path that a name is written as.
fn part_of(alloc: Global, name: &str) -> Result<Option<Text>, NoMemory>
    ensures { IfOk result (λ part. part ≡ text_of (part_for_name name.now)) }
{
    let part = sanitise(alloc, &Text::from_str(alloc, name)?)?;
    text_of(alloc, &part)
}

// The answer to the name of a client or user: the part of a path that it is written as.
fn sanitise_case(alloc: Global, case: &Value) -> Result<Option<Value>, NoMemory>
    ensures { IfOk result (λ answer. option_map view answer ≡ sanitise_answer (view case.now)) }
{
    let Some(name) = text_member(case, "name") else {
        return Ok(None);
    };
    let Some(part) = part_of(alloc, name)? else {
        return Ok(None);
    };
    let mut members = given(alloc, "sanitise", "name", name)?;
    put_text(&mut members, alloc, "part", part.as_str())?;
    Ok(Some(Value::Object(members)))
}

// The answer to a part of a path: the name that is written as it, or null.
fn restore_case(alloc: Global, case: &Value) -> Result<Option<Value>, NoMemory>
    ensures { IfOk result (λ answer. option_map view answer ≡ restore_answer (view case.now)) }
{
    let Some(part) = text_member(case, "part") else {
        return Ok(None);
    };
    let name = restore(alloc, part.as_bytes())?;
    let mut members = given(alloc, "restore", "part", part)?;
    put_text_or_null(&mut members, alloc, "name", &name)?;
    Ok(Some(Value::Object(members)))
}

// The bytes of the id that a text is, in hexadecimal.
fn id_bytes(alloc: Global, text: &str) -> Result<Option<Text>, NoMemory>
    ensures { IfOk result (λ bytes. bytes ≡ option_map hex (id_of text.now)) }
{
    match Id::read(text.as_bytes()) {
        Some(id) => Ok(Some(hex_text(alloc, &id.bytes)?)),
        None => Ok(None),
    }
}

// The answer to the text of an id: its bytes in hexadecimal, or null.
fn id_case(alloc: Global, case: &Value) -> Result<Option<Value>, NoMemory>
    ensures { IfOk result (λ answer. option_map view answer ≡ id_answer (view case.now)) }
{
    let Some(text) = text_member(case, "text") else {
        return Ok(None);
    };
    let bytes = id_bytes(alloc, text)?;
    let mut members = given(alloc, "id", "text", text)?;
    put_text_or_null(&mut members, alloc, "hex", &bytes)?;
    Ok(Some(Value::Object(members)))
}

// Puts the numbers of a quota, and the text that is written for it.
fn put_quota(
    members: &mut Map<String, Value>,
    alloc: Global,
    quota: &QuotaValue,
) -> Result<(), NoMemory>
    requires { is_quota quota.now ≡ true }
    ensures { OnOk result (members_view members.new.entries ≡ quota_members (Ok quota.now) (members_view members.old.entries)) }
{
    put_whole(members, alloc, "whole", quota.whole)?;
    put_whole(members, alloc, "micros", quota.micros as i64)?;
    let written = quota.text(alloc)?;
    put_text(members, alloc, "written", written.as_str())
}

// Puts why a text is no quota.
fn put_fault(
    members: &mut Map<String, Value>,
    alloc: Global,
    fault: QuotaFault,
) -> Result<(), NoMemory>
    ensures { OnOk result (members_view members.new.entries ≡ quota_members (Err fault) (members_view members.old.entries)) }
{
    match fault {
        QuotaFault::NotNumber { at } => {
            put_text(members, alloc, "fault", "NotNumber")?;
            serde_json::put(members, alloc, "at", Value::from(at))?;
            Ok(())
        }
        QuotaFault::TooFine => put_text(members, alloc, "fault", "TooFine"),
        QuotaFault::TooLarge => put_text(members, alloc, "fault", "TooLarge"),
    }
}

// Puts what a text is as a quota: its numbers and the text that is written for it, or the fault.
fn put_reading(members: &mut Map<String, Value>, alloc: Global, text: &str) -> Result<(), NoMemory>
    ensures { OnOk result (members_view members.new.entries ≡ quota_members (quota_of text.now) (members_view members.old.entries)) }
{
    match QuotaValue::read(text.as_bytes()) {
        Ok(quota) => put_quota(members, alloc, &quota),
        Err(fault) => put_fault(members, alloc, fault),
    }
}

// The answer to the text of a quota.
fn quota_case(alloc: Global, case: &Value) -> Result<Option<Value>, NoMemory>
    ensures { IfOk result (λ answer. option_map view answer ≡ quota_answer (view case.now)) }
{
    let Some(text) = text_member(case, "text") else {
        return Ok(None);
    };
    let mut members = given(alloc, "quota", "text", text)?;
    put_reading(&mut members, alloc, text)?;
    Ok(Some(Value::Object(members)))
}

/// The answer to a case of this call, which gives a name, a part of a path, or the text of an id or a quota; `None` where
/// it gives none of these.
#[tactic(auto, unfolding(crate::specs::Answers::name_forms))]
pub fn name_case(alloc: Global, call: &str, case: &Value) -> Result<Option<Value>, NoMemory>
    ensures { IfOk result (λ answer. option_map view answer ≡ by_name name_forms call.now (view case.now)) }
{
    match call {
        "sanitise" => sanitise_case(alloc, case),
        "restore" => restore_case(alloc, case),
        "id" => id_case(alloc, case),
        "quota" => quota_case(alloc, case),
        _ => Ok(None),
    }
}
