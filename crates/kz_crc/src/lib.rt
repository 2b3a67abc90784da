//! The checksum CRC-32C.
#![tactic(auto)]

ghost use Rattle.std.specs.Prelude.{◌≡◌, ℕ, List, ◌∷◌, ◌++◌};
ghost use Rattle.kz_spec_data.specs.Checksum.{crc32c, after_bits, after_bytes};

mod tables;

use tables::{
    after_eight, after_five, after_four, after_one, after_seven, after_six, after_three, after_two,
};

// The state after one byte.
#[inline]
fn with_byte(state: u32, byte: u8) -> u32
    ensures { (rest : List ℕ) → after_bytes result rest ≡ after_bytes state (byte ∷ rest) }
{
    after_one((state % 256) as u8 ^ byte) ^ (state / 256)
}

// The state after eight bytes: each acts on the result by a table of its own.
#[inline]
fn with_eight(state: u32, a: u8, b: u8, c: u8, d: u8, e: u8, f: u8, g: u8, h: u8) -> u32
    ensures { (rest : List ℕ) → after_bytes result rest ≡ after_bytes state (a ∷ b ∷ c ∷ d ∷ e ∷ f ∷ g ∷ h ∷ rest) }
{
    after_eight((state % 256) as u8 ^ a)
        ^ after_seven((state / 256 % 256) as u8 ^ b)
        ^ after_six((state / 65536 % 256) as u8 ^ c)
        ^ after_five((state / 16777216 % 256) as u8 ^ d)
        ^ after_four(e)
        ^ after_three(f)
        ^ after_two(g)
        ^ after_one(h)
}

// The state after these bytes.
fn with_bytes(start: u32, bytes: &[u8]) -> u32
    ensures { result ≡ after_bytes start bytes.now }
{
    let mut state = start;
    let mut left = bytes;
    while let [a, b, c, d, e, f, g, h, rest @ ..] = left {
        state = with_eight(state, *a, *b, *c, *d, *e, *f, *g, *h);
        left = rest;
    }
    for byte in left {
        state = with_byte(state, *byte);
    }
    state
}

/// The CRC-32C (Castagnoli) of these bytes, as iSCSI (RFC 3720) and Kafka's record batches have it: the reflected
/// polynomial 82F63B78, from all ones on, with all bits turned at the end.
pub fn crc32c(bytes: &[u8]) -> u32
    ensures { result ≡ crc32c bytes.now }
{
    with_bytes(0xFFFFFFFF, bytes) ^ 0xFFFFFFFF
}

/// The sum of some bytes followed by these, where the sum of those bytes is given.
pub fn crc32c_add(sum: u32, bytes: &[u8]) -> u32
    ensures { (front : List ℕ) → sum ≡ crc32c front → result ≡ crc32c (front ++ bytes.now) }
{
    with_bytes(sum ^ 0xFFFFFFFF, bytes) ^ 0xFFFFFFFF
}
