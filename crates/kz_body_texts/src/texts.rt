//! Pieces of JSON texts, added to a text.
ghost use Rattle.std.specs.Prelude.{◌≡◌, ◌+◌, ◌++◌, ◌∷◌, [], ◌<◌, OnOk, IfOk, false, string_bytes, decimal};
ghost use Rattle.serde_json.specs.Data.{string};
ghost use Rattle.serde_json.specs.View.{view};
ghost use Rattle.serde_json.specs.Written.{compact_text, comma_if, has_float};
ghost use Rattle.kz_spec_data.specs.Bodies.{whole_data, brokers_data};

use kz_types::NoMemory;
use serde_json::Value;
use std::alloc::Global;

/// Adds an ASCII character.
pub fn push_sign(text: &mut String, sign: u8) -> Result<(), NoMemory>
    requires { sign < 128 }
    ensures { OnOk result (string_bytes text.new ≡ string_bytes text.old ++ sign ∷ []) }
{
    text.push(sign as char)?;
    Ok(())
}

// Adds the digits of a number.
#[tactic(auto, using(std::proofs::lemmas::Fmt::decimal_digit, std::proofs::lemmas::Fmt::decimal_step))]
fn push_decimal(text: &mut String, number: u32) -> Result<(), NoMemory>
    ensures { OnOk result (string_bytes text.new ≡ string_bytes text.old ++ decimal number) }
{
    if number < 10 {
        return push_sign(text, b'0' + number as u8);
    }
    push_decimal(text, number / 10)?;
    push_sign(text, b'0' + (number % 10) as u8)
}

/// Adds a whole number.
pub fn push_whole(text: &mut String, number: i32) -> Result<(), NoMemory>
    ensures { OnOk result (string_bytes text.new ≡ string_bytes text.old ++ compact_text (whole_data number)) }
{
    if number < 0 {
        push_sign(text, b'-')?;
    }
    push_decimal(text, number.unsigned_abs())
}

/// Adds a comma, where something stands before.
pub fn push_comma(text: &mut String, later: bool) -> Result<(), NoMemory>
    ensures { OnOk result (string_bytes text.new ≡ string_bytes text.old ++ comma_if later) }
{
    if later {
        return push_sign(text, b',');
    }
    Ok(())
}

// Adds a broker of a list, after a comma where another stands before it.
fn push_item(text: &mut String, later: bool, id: i32) -> Result<(), NoMemory>
    ensures { OnOk result (string_bytes text.new ≡ string_bytes text.old ++ (comma_if later ++ compact_text (whole_data id))) }
{
    push_comma(text, later)?;
    push_whole(text, id)
}

/// Adds a list of brokers.
pub fn push_brokers(text: &mut String, ids: &[i32]) -> Result<(), NoMemory>
    ensures { OnOk result (string_bytes text.new ≡ string_bytes text.old ++ compact_text (brokers_data ids.now)) }
{
    push_sign(text, b'[')?;
    let mut later = false;
    for id in ids {
        push_item(text, later, *id)?;
        later = true;
    }
    push_sign(text, b']')
}

/// Adds a list of brokers, after the text of its member's name.
pub fn push_brokers_of(text: &mut String, before: &str, ids: &[i32]) -> Result<(), NoMemory>
    ensures { OnOk result (string_bytes text.new ≡ string_bytes text.old ++ (before.now ++ compact_text (brokers_data ids.now))) }
{
    text.push_str(before)?;
    push_brokers(text, ids)
}

/// Adds a whole number, after the text of its member's name.
pub fn push_whole_of(text: &mut String, before: &str, number: i32) -> Result<(), NoMemory>
    ensures { OnOk result (string_bytes text.new ≡ string_bytes text.old ++ (before.now ++ compact_text (whole_data number))) }
{
    text.push_str(before)?;
    push_whole(text, number)
}

/// A text as a JSON value.
pub fn text_value(alloc: Global, text: &str) -> Result<Value, NoMemory>
    ensures { IfOk result (λ value. view value ≡ string text.now) }
{
    Ok(Value::String(String::from_str(alloc, text)?))
}

/// The text of a value without floats.
pub fn value_text(alloc: Global, value: &Value) -> Result<String, NoMemory>
    requires { has_float (view value.now) ≡ false }
    ensures { IfOk result (λ text. string_bytes text ≡ compact_text (view value.now)) }
{
    Ok(value.to_string(alloc)?)
}
