//! Where a text stops being UTF-8.
ghost use Rattle.std.specs.Prelude.{◌≡◌, ◌<◌, ◌≤◌, length, true, false, MatchOption, IfSome};
ghost use Rattle.std.specs.Str.{IsUtf8, is_utf8};
ghost use Rattle.std.specs.Str.Lossy.{utf8_error_len};
ghost use Rattle.kz_spec_data.specs.Fields.{char_size, text_beginning_length, text_fault};

// How many bytes a character has that begins with this byte; 0 where none does.
fn char_size(byte: u8) -> usize
    ensures { result ≡ char_size byte }
{
    if byte < 128 {
        1
    } else if byte < 194 {
        0
    } else if byte < 224 {
        2
    } else if byte < 240 {
        3
    } else if byte < 245 {
        4
    } else {
        0
    }
}

// Of bytes that begin with no character: how many of them a text of this length may begin with.
fn possible(bytes: &[u8], error_len: Option<usize>) -> usize
    requires some { 0 < length bytes.now }
    requires error { error_len ≡ utf8_error_len bytes.now }
    requires within { IfSome error_len (λ k. k ≤ length bytes.now) }
    ensures value { result ≡ text_beginning_length bytes.now }
    ensures bound { result ≤ length bytes.now }
{
    let size = char_size(bytes[0]);
    if 1 <= size && size <= bytes.len() {
        error_len.unwrap_or(0)
    } else {
        0
    }
}

/// The first byte at which no text of this length goes on; none where the bytes are UTF-8.
pub fn text_fault(bytes: &[u8]) -> Option<usize>
    ensures place { MatchOption result (IsUtf8 bytes.now × (is_utf8 bytes.now ≡ true)) (λ at. (is_utf8 bytes.now ≡ false) × (at ≡ text_fault bytes.now)) }
    ensures bound { IfSome result (λ at. at ≤ length bytes.now) }
{
    match str::from_utf8(bytes) {
        Ok(_) => None,
        Err(error) => {
            let valid = error.valid_up_to();
            let error_len = error.error_len();
            let (_, rest) = bytes.split_at(valid);
            let more = possible(rest, error_len);
            Some(valid + more)
        }
    }
}
