//! The texts of a configuration's pairs.
ghost use Rattle.std.specs.Prelude.{◌≡◌, ◌++◌, ◌∷◌, [], true, OnOk, string_bytes};
ghost use Rattle.std.specs.Ordering.{nat_cmp, is_lt};
ghost use Rattle.std.specs.Cmp.Lexicographic.{slice_cmp};
ghost use Rattle.json.specs.Print.{quoted};
ghost use Rattle.serde_json.specs.Data.{object};
ghost use Rattle.serde_json.specs.Written.{compact_text, comma_if};
ghost use Rattle.kz_body_texts.specs.Texts.{is_plain, are_plain, rise_above, texts_in_order};

use crate::texts::{push_comma, push_sign, text_value, value_text};
use kz_types::{NoMemory, Pair};
use std::alloc::Global;

// Whether a byte stands for itself in a JSON string.
fn is_plain(byte: u8) -> bool
    ensures { result ≡ is_plain byte }
{
    byte > 31 && byte != b'"' && byte != b'\\'
}

// Whether each of the bytes stands for itself in a JSON string.
fn are_plain(bytes: &[u8]) -> bool
    ensures { result ≡ are_plain bytes.now }
{
    for byte in bytes {
        if !is_plain(*byte) {
            return false;
        }
    }
    true
}

// Adds a JSON string of a text that needs no escape.
fn push_plain(text: &mut String, value: &str) -> Result<(), NoMemory>
    requires { are_plain value.now ≡ true }
    ensures { OnOk result (string_bytes text.new ≡ string_bytes text.old ++ quoted value.now) }
{
    push_sign(text, b'"')?;
    text.push_str(value)?;
    text.push_str("\"")?;
    Ok(())
}

// Adds a JSON string.
fn push_quoted(alloc: Global, text: &mut String, value: &str) -> Result<(), NoMemory>
    ensures { OnOk result (string_bytes text.new ≡ string_bytes text.old ++ quoted value.now) }
{
    if are_plain(value.as_bytes()) {
        return push_plain(text, value);
    }
    let value = text_value(alloc, value)?;
    let written = value_text(alloc, &value)?;
    text.push_str(written.as_str())?;
    Ok(())
}

// Adds the name of a member and its colon.
fn push_name(alloc: Global, text: &mut String, later: bool, name: &str) -> Result<(), NoMemory>
    ensures { OnOk result (string_bytes text.new ≡ string_bytes text.old ++ (comma_if later ++ (quoted name.now ++ 58 ∷ []))) }
{
    push_comma(text, later)?;
    push_quoted(alloc, text, name)?;
    text.push_str(":")?;
    Ok(())
}

/// Adds an object of the names and values, in the order of the pairs.
pub fn push_pairs(alloc: Global, text: &mut String, pairs: &[Pair]) -> Result<(), NoMemory>
    ensures { OnOk result (string_bytes text.new ≡ string_bytes text.old ++ compact_text (object (texts_in_order pairs.now))) }
{
    push_sign(text, b'{')?;
    let mut later = false;
    for pair in pairs {
        let name = pair.name.as_str();
        let value = pair.value.as_str();
        push_name(alloc, text, later, name)?;
        push_quoted(alloc, text, value)?;
        later = true;
    }
    push_sign(text, b'}')
}

// Whether a name stands before another in byte order.
fn is_below(name: &[u8], other: &[u8]) -> bool
    ensures { result ≡ is_lt (slice_cmp nat_cmp name.now other.now) }
{
    name.cmp(other).is_lt()
}

/// Whether the names rise in byte order and none is empty.
pub fn names_rise(pairs: &[Pair]) -> bool
    ensures { result ≡ rise_above [] pairs.now }
{
    let mut last: &[u8] = b"";
    for pair in pairs {
        let name = pair.name.bytes();
        if !is_below(last, name) {
            return false;
        }
        last = name;
    }
    true
}
