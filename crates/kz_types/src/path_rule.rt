//! The rule of paths.
ghost use Rattle.std.specs.Prelude.{◌≡◌, ◌&&◌, ◌==◌, false, true, slice_index, MatchOption};
ghost use Rattle.std.specs.List.{list_all};
ghost use Rattle.std.specs.Str.{is_utf8};
ghost use Rattle.std.specs.Int.{is_in_range};
ghost use Rattle.kz_types.specs.PathRule.{parts, is_shown, is_part, is_path, BeginsPath};
ghost use Rattle.kz_types.specs.Faults.{IsFaultPlace};
ghost use Rattle.kz_types.specs.Places.{IsTextPlace, IsFormPlace};

use crate::limits::MAX_PATH_BYTES;

/// Whether a byte is no control character and no slash.
fn is_shown(byte: u8) -> bool
    ensures { result ≡ is_shown byte }
{
    32 <= byte && byte != 127 && byte != b'/'
}

/// Whether no byte is a control character or a slash.
fn are_shown(part: &[u8]) -> bool
    ensures { result ≡ list_all is_shown part.now }
{
    part.iter().all(|b| is_shown(*b))
}

/// Whether bytes may stand between two slashes.
pub fn may_be_part(part: &[u8]) -> bool
    ensures { result ≡ is_part part.now }
{
    if part.is_empty() || part == b".".as_slice() || part == b"..".as_slice() {
        return false;
    }
    are_shown(part)
}

/// Whether bytes may stand between two slashes, of which it is known whether each may be shown.
fn shown_may_be_part(part: &[u8], shown: bool) -> bool
    requires { shown ≡ list_all is_shown part.now }
    ensures { result ≡ is_part part.now }
{
    if part.len() > 2 {
        return shown;
    }
    may_be_part(part)
}

// Whether both hold.
fn are_both(one: bool, other: bool) -> bool
    ensures { result ≡ (one && other) }
{
    one & other
}

/// Whether a slash stands before each part, and each part is one of the rule. Each byte is looked at once.
fn has_parts(bytes: &[u8]) -> bool
    ensures { result ≡ ((slice_index bytes.now 0 == 47) && list_all is_part (parts bytes.now)) }
{
    if bytes.len() < 1 || bytes[0] != b'/' {
        return false;
    }
    let mut start = 1;
    let mut shown = true;
    for at in 1..bytes.len() {
        let byte = bytes[at];
        if byte == b'/' {
            if !shown_may_be_part(&bytes[start..at], shown) {
                return false;
            }
            start = at + 1;
            shown = true;
        } else {
            shown = are_both(shown, is_shown(byte));
        }
    }
    shown_may_be_part(&bytes[start..], shown)
}

// The text that bytes are, where they are UTF-8.
fn text_of(bytes: &[u8]) -> Option<&str>
    ensures { MatchOption result (is_utf8 bytes.now ≡ false) (λ text. (text.now ≡ bytes.now) × (is_utf8 bytes.now ≡ true)) }
{
    match str::from_utf8(bytes) {
        Ok(text) => Some(text),
        Err(_) => None,
    }
}

/// Whether bytes are UTF-8.
pub fn is_text(bytes: &[u8]) -> bool
    ensures { result ≡ is_utf8 bytes.now }
{
    text_of(bytes).is_some()
}

/// The text of a path, where bytes are one.
#[tactic(auto, unfolding(crate::specs::PathRule::is_path, crate::specs::PathRule::has_path_form))]
pub(crate) fn path_text(bytes: &[u8]) -> Option<&str>
    ensures { MatchOption result (is_path bytes.now ≡ false) (λ text. (text.now ≡ bytes.now) × (is_path bytes.now ≡ true)) }
{
    let text = text_of(bytes)?;
    if has_parts(bytes) && bytes.len() <= MAX_PATH_BYTES {
        Some(text)
    } else {
        None
    }
}

/// Whether bytes keep the rule of paths.
pub fn keeps_rule(bytes: &[u8]) -> bool
    ensures { result ≡ is_path bytes.now }
{
    path_text(bytes).is_some()
}

/// Whether a character of several bytes begins with a byte.
fn begins_character(byte: u8) -> bool
    ensures { result ≡ is_in_range 0xC2 0xF4 byte }
{
    0xC2 <= byte && byte <= 0xF4
}

/// How many bytes a text begins with.
fn text_place(bytes: &[u8]) -> usize
    ensures { IsTextPlace bytes.now result }
{
    match str::from_utf8(bytes) {
        Ok(_) => bytes.len(),
        Err(error) => {
            let valid = error.valid_up_to();
            match error.error_len() {
                None => bytes.len(),
                Some(count) => if begins_character(bytes[valid]) {
                    valid + count
                } else {
                    valid
                },
            }
        }
    }
}

/// How many bytes the form of a path begins with, whether or not they are UTF-8.
fn form_place(bytes: &[u8]) -> usize
    ensures { IsFormPlace bytes.now result }
{
    if bytes.is_empty() || bytes[0] != b'/' {
        return 0;
    }
    let mut start = 1;
    for at in 1..bytes.len() {
        let byte = bytes[at];
        if byte == b'/' {
            if !may_be_part(&bytes[start..at]) {
                return at;
            }
            start = at + 1;
        } else if !is_shown(byte) {
            return at;
        }
    }
    bytes.len()
}

/// Where bytes that are no path are at fault.
pub fn fault_place(bytes: &[u8]) -> usize
    ensures { IsFaultPlace BeginsPath bytes.now result }
{
    form_place(&bytes[..text_place(bytes)])
}
