//! Members of JSON values.
ghost use Rattle.std.specs.Prelude.{◌≡◌, option_map};
ghost use Rattle.serde_json.specs.View.{view};
ghost use Rattle.kz_spec_data.specs.Json.{member_count, text_or_null, text_member};
ghost use Rattle.kz_spec_data.specs.LineFields.{field};

use serde_json::Value;

/// How many members an object has; what is no object has none.
pub fn member_count(value: &Value) -> usize
    ensures { result ≡ member_count (view value.now) }
{
    match value.as_object() {
        Some(members) => members.len(),
        None => 0,
    }
}

/// The text that a value is, or that it is null; `None` where it is neither.
pub fn text_or_null(value: &Value) -> Option<Option<&str>>
    ensures { option_map (λ o. option_map (λ t. t.now) o) result ≡ text_or_null (view value.now) }
{
    match value {
        Value::Null => Some(None),
        Value::String(text) => Some(Some(text.as_str())),
        _ => None,
    }
}

/// The member of this name that is a text.
pub fn text_member<'a>(value: &'a Value, name: &str) -> Option<&'a str>
    ensures { option_map (λ t. t.now) result ≡ text_member name.now (view value.now) }
{
    value.get(name).and_then(Value::as_str)
}

/// The member of this name, a text or null.
pub fn text_or_null_at<'a>(value: &'a Value, name: &str) -> Option<Option<&'a str>>
    ensures { option_map (λ o. option_map (λ t. t.now) o) result ≡ field name.now text_or_null (view value.now) }
{
    text_or_null(value.get(name)?)
}
