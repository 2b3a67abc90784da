//! Bytes as JSON strings.
ghost use Rattle.std.specs.Prelude.{◌≡◌, ◌++◌, ◌<◌, ◌/◌, ◌%◌, [], ◌∷◌, OnOk};
ghost use Rattle.std.specs.Char.{digit_char};
ghost use Rattle.std.specs.List.{flat_map};
ghost use Rattle.json.specs.Print.{escape_letter, escape_byte, quoted};

use kz_types::NoMemory;

// The letter of a byte's short escape, or 0 where it has none.
fn escape_letter(byte: u8) -> u8
    ensures { result ≡ escape_letter byte }
{
    match byte {
        b'"' | b'\\' => byte,
        8 => b'b',
        12 => b'f',
        b'\n' => b'n',
        b'\r' => b'r',
        b'\t' => b't',
        _ => 0,
    }
}

// The character of a hexadecimal digit.
fn digit(value: u8) -> u8
    requires { value < 16 }
    ensures { result ≡ digit_char value }
{
    if value < 10 { b'0' + value } else { 87 + value }
}

// Adds the escape of a control character by its number.
fn push_number(out: &mut Vec<u8>, byte: u8) -> Result<(), NoMemory>
    ensures { OnOk result (out.new.items ≡ out.old.items ++ 92 ∷ 117 ∷ 48 ∷ 48 ∷ digit_char (byte / 16) ∷ digit_char (byte % 16) ∷ []) }
{
    let text = [b'\\', b'u', b'0', b'0', digit(byte / 16), digit(byte % 16)];
    out.extend_from_slice(&text)?;
    Ok(())
}

// Adds a byte as a JSON string has it.
#[tactic(auto, unfolding(json::specs::Print::escape_byte))]
fn push_escaped(out: &mut Vec<u8>, byte: u8) -> Result<(), NoMemory>
    ensures { OnOk result (out.new.items ≡ out.old.items ++ escape_byte byte) }
{
    let letter = escape_letter(byte);
    if letter > 0 {
        out.extend_from_slice(&[b'\\', letter])?;
        return Ok(());
    }
    if byte < 32 {
        return push_number(out, byte);
    }
    out.push(byte)?;
    Ok(())
}

// Adds the bytes of a text as a JSON string has them.
fn push_all(out: &mut Vec<u8>, text: &[u8]) -> Result<(), NoMemory>
    ensures { OnOk result (out.new.items ≡ out.old.items ++ flat_map escape_byte text.now) }
{
    for byte in text {
        push_escaped(out, *byte)?;
    }
    Ok(())
}

/// Adds a text as a JSON string. The text need not be UTF-8: its bytes from 128 on stand as they are.
///
/// `NoMemory`: memory ran out; a part may have been added.
pub(crate) fn push_quoted(out: &mut Vec<u8>, text: &[u8]) -> Result<(), NoMemory>
    ensures { OnOk result (out.new.items ≡ out.old.items ++ quoted text.now) }
{
    out.push(b'"')?;
    push_all(out, text)?;
    out.push(b'"')?;
    Ok(())
}
