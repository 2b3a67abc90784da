//! Client ids and names of users as parts of a path.
ghost use Rattle.std.specs.Prelude.{◌≡◌, ◌++◌, ◌&&◌, ◌<◌, ◌≤◌, [], true, false, IfOk, OnOk, length, bytes_eq, is_some};
ghost use Rattle.std.specs.Str.{is_utf8};
ghost use Rattle.kz_types.specs.Paths.{hex_digit, hex_value, sanitised_byte, part_for_name, is_plain, bytes_of_part, name_of_part};

use kz_paths::PathBuffer;
use kz_types::{MAX_PATH_BYTES, NoMemory, Text, is_text};
use std::alloc::Global;

/// An upper-case hexadecimal digit.
fn hex_digit(value: u8) -> u8
    requires { value < 16 }
    ensures { result ≡ hex_digit value }
{
    if value < 10 {
        b'0' + value
    } else {
        b'A' - 10 + value
    }
}

/// The value of an upper-case hexadecimal digit, and 0 of another byte.
fn hex_value(digit: u8) -> u8
    ensures value { result ≡ hex_value digit }
    ensures bound { result < 16 }
{
    match digit {
        b'0'..=b'9' => digit - b'0',
        b'A'..=b'F' => digit - b'A' + 10,
        _ => 0,
    }
}

/// Whether a byte stands for itself: a letter, a digit, `.`, `_`, `-` or `~`.
fn is_plain(byte: u8) -> bool
    ensures { result ≡ is_plain byte }
{
    matches!(byte, b'A'..=b'Z' | b'a'..=b'z' | b'0'..=b'9' | b'.' | b'_' | b'-' | b'~')
}

/// Adds a byte as it stands, or as `%` and its two digits.
fn push_sanitised(out: &mut Vec<u8>, byte: u8) -> Result<(), NoMemory>
    ensures { OnOk result (out.new.items ≡ out.old.items ++ sanitised_byte byte) }
{
    if is_plain(byte) {
        out.push(byte)?;
        return Ok(());
    }
    out.push(b'%')?;
    out.push(hex_digit(byte / 16))?;
    out.push(hex_digit(byte % 16))?;
    Ok(())
}

/// The part that the bytes of a name are written as.
fn sanitise_bytes(alloc: Global, name: &[u8]) -> Result<Vec<u8>, NoMemory>
    ensures { IfOk result (λ part. part.items ≡ part_for_name name.now) }
{
    let mut part = Vec::new(alloc);
    for at in 0..name.len() {
        push_sanitised(&mut part, name[at])?;
    }
    Ok(part)
}

/// The bytes that a part's plain bytes and escapes stand for.
fn unescape(alloc: Global, part: &[u8]) -> Result<Vec<u8>, NoMemory>
    ensures { IfOk result (λ bytes. bytes.items ≡ bytes_of_part part.now) }
{
    let mut bytes = Vec::new(alloc);
    let mut at = 0;
    while at < part.len() {
        if part[at] == b'%' && 2 < part.len() - at {
            bytes.push(hex_value(part[at + 1]) * 16 + hex_value(part[at + 2]))?;
            at += 3;
        } else {
            bytes.push(part[at])?;
            at += 1;
        }
    }
    Ok(bytes)
}

/// The part of a path that a client id or a user's name is written as: each byte that isn't a letter, a digit, `.`,
/// `_`, `-` or `~` is `%` and two upper-case hexadecimal digits.
pub fn sanitise(alloc: Global, name: &Text) -> Result<Vec<u8>, NoMemory>
    ensures { IfOk result (λ part. part.items ≡ part_for_name name.now) }
{
    sanitise_bytes(alloc, name.bytes())
}

/// Puts the bytes that a part's plain bytes and escapes stand for into an empty buffer. `false`: they are more than a path
/// has.
fn unescape_into(buffer: &mut PathBuffer, part: &[u8]) -> bool
    requires { buffer.old ≡ [] }
    ensures put { result ≡ true → buffer.new ≡ bytes_of_part part.now }
    ensures too_long { result ≡ false → MAX_PATH_BYTES < length (bytes_of_part part.now) }
{
    let mut at = 0;
    while at < part.len() {
        if part[at] == b'%' && 2 < part.len() - at {
            if !buffer.push(&[hex_value(part[at + 1]) * 16 + hex_value(part[at + 2])]) {
                return false;
            }
            at += 3;
        } else {
            if !buffer.push(&[part[at]]) {
                return false;
            }
            at += 1;
        }
    }
    true
}

/// Whether the name of these bytes is written as this part.
fn is_written_as(bytes: &[u8], part: &[u8]) -> bool
    requires { length part.now ≤ MAX_PATH_BYTES }
    ensures { result ≡ bytes_eq (part_for_name bytes.now) part.now }
{
    let mut again = PathBuffer::new();
    if !again.push_sanitised(bytes) {
        return false;
    }
    again.bytes() == part
}

/// Whether a name is written as this part, which is at most as long as a path. It takes no memory.
#[tactic(auto, unfolding(kz_types::specs::Paths::name_of_part))]
pub fn may_be_name(part: &[u8]) -> bool
    requires { length part.now ≤ MAX_PATH_BYTES }
    ensures { result ≡ is_some (name_of_part part.now) }
{
    let mut bytes = PathBuffer::new();
    if !unescape_into(&mut bytes, part) {
        return false;
    }
    is_written_as(bytes.bytes(), part) && is_text(bytes.bytes())
}

/// The name that is written as this part. `None` exactly where no name is: an escape of a plain byte, in lower case or
/// cut, a byte that needs an escape, and bytes that aren't UTF-8.
pub fn restore(alloc: Global, part: &[u8]) -> Result<Option<Text>, NoMemory>
    ensures { IfOk result (λ name. name ≡ name_of_part part.now) }
{
    let bytes = unescape(alloc, part)?;
    let again = sanitise_bytes(alloc, &bytes)?;
    if again.as_slice() != part {
        return Ok(None);
    }
    Text::new(alloc, &bytes)
}
