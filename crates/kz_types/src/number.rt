//! Decimals.
ghost use Rattle.std.specs.Prelude.{◌≡◌, ◌≤◌, IfSome};
ghost use Rattle.kz_types.specs.declared.limits.TheConstants.{MAX_NUMBER};
ghost use Rattle.kz_types.specs.Numbers.{canonical, digits_up_to, number_in};

use crate::limits::MAX_NUMBER;

/// The number that digits write, with or without zeros in front. `None` where a byte is no digit and where the number is
/// above `most`.
pub fn digits_up_to(text: &[u8], most: u64) -> Option<u64>
    ensures value { result ≡ digits_up_to most text.now }
    ensures bound { IfSome result (λ n. n ≤ most) }
{
    let mut number: u64 = 0;
    for at in 0..text.len() {
        let byte = text[at];
        if byte < b'0' || b'9' < byte {
            return None;
        }
        let next = number as u128 * 10 + (byte - b'0') as u128;
        if next > most as u128 {
            return None;
        }
        number = next as u64;
    }
    Some(number)
}

/// The number of 0 to [`MAX_NUMBER`] whose decimal text this is: without a sign and without leading zeros.
pub fn canonical(text: &[u8]) -> Option<u64>
    ensures value { result ≡ canonical text.now }
    ensures bound { IfSome result (λ n. n ≤ MAX_NUMBER) }
{
    if text.len() < 1 {
        return None;
    }
    if 1 < text.len() && text[0] == b'0' {
        return None;
    }
    digits_up_to(text, MAX_NUMBER)
}

/// The same, as a signed number.
pub fn number_in(text: &[u8]) -> Option<i32>
    ensures { result ≡ number_in text.now }
{
    match canonical(text) {
        Some(number) => Some(number as i32),
        None => None,
    }
}
