//! The order of strings of bytes, and whether two are the same: eight bytes are compared at a time.
#![tactic(auto)]

ghost use Rattle.std.specs.Prelude.{◌≡◌, ◌≤◌, length, take, drop, bytes_eq, nat_eq};
ghost use Rattle.std.specs.Ordering.{ordering_then};
ghost use Rattle.std.specs.List.{starts_with};
ghost use Rattle.kz_types.specs.Order.{bytes_cmp};
ghost use Rattle.kz_order.specs.Numbers.{number_of};

use std::cmp::Ordering;

// The first eight bytes as one number, the first of them the highest.
#[inline]
fn first_number(bytes: &[u8]) -> u64
    requires { 8 ≤ length bytes.now }
    ensures { result ≡ number_of (take 8 bytes.now) }
{
    match bytes {
        [a, b, c, d, e, f, g, h, ..] => u64::from_be_bytes([*a, *b, *c, *d, *e, *f, *g, *h]),
        _ => unreachable!(),
    }
}

// The order of two strings of bytes by their first eight alone.
#[inline]
fn compare_first(one: &[u8], other: &[u8]) -> Ordering
    requires one { 8 ≤ length one.now }
    requires other { 8 ≤ length other.now }
    ensures { bytes_cmp one.now other.now ≡ ordering_then result (bytes_cmp (drop 8 one.now) (drop 8 other.now)) }
{
    let number = first_number(one);
    number.cmp(&first_number(other))
}

// The order of two strings of bytes, which are compared byte by byte.
#[inline]
fn compare_bytes(one: &[u8], other: &[u8]) -> Ordering
    ensures { result ≡ bytes_cmp one.now other.now }
{
    let mut left = one;
    let mut right = other;
    while let [a, left_rest @ ..] = left {
        let [b, right_rest @ ..] = right else {
            return Ordering::Greater;
        };
        if *a != *b {
            return a.cmp(b);
        }
        left = left_rest;
        right = right_rest;
    }
    if right.is_empty() {
        Ordering::Equal
    } else {
        Ordering::Less
    }
}

/// The order of two strings of bytes: by the first byte at which they differ, and what is the front of another comes before it.
pub fn compare(one: &[u8], other: &[u8]) -> Ordering
    ensures { result ≡ bytes_cmp one.now other.now }
{
    let mut left = one;
    let mut right = other;
    while 8 <= left.len() && 8 <= right.len() {
        match compare_first(left, right) {
            Ordering::Less => return Ordering::Less,
            Ordering::Equal => {
                left = &left[8..];
                right = &right[8..];
            }
            Ordering::Greater => return Ordering::Greater,
        }
    }
    compare_bytes(left, right)
}

/// Whether two strings of bytes are the same.
pub fn are_equal(one: &[u8], other: &[u8]) -> bool
    ensures { result ≡ bytes_eq one.now other.now }
{
    one.len() == other.len() && compare(one, other).is_eq()
}

/// Whether a string of bytes begins with another.
pub fn begins_with(text: &[u8], front: &[u8]) -> bool
    ensures { result ≡ starts_with nat_eq text.now front.now }
{
    front.len() <= text.len() && compare(front, &text[..front.len()]).is_eq()
}
