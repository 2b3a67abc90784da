//! The parts of a path.
ghost use Rattle.std.specs.Prelude.{◌≡◌, ◌<◌, ◌≤◌, ◌∷◌, [], ◌==◌, MatchOption, length, slice_index, true, false};
ghost use Rattle.std.specs.List.{AllWithin, slice_split};
ghost use Rattle.kz_types.specs.PathRule.{parts, is_path};
ghost use Rattle.kz_path.specs.Cut.{IsCut, AreWithin};

use kz_types::MAX_PATH_BYTES;

/// The parts of a path, up to six.
#[derive(Clone, Copy)]
pub enum Parts<'a> {
    One(&'a str),
    Two(&'a str, &'a str),
    Three(&'a str, &'a str, &'a str),
    Four(&'a str, &'a str, &'a str, &'a str),
    Five(&'a str, &'a str, &'a str, &'a str, &'a str),
    Six(&'a str, &'a str, &'a str, &'a str, &'a str, &'a str),
    More,
}

// The place of the first slash, or the length of the bytes where there is none.
#[inline]
fn slash_place(bytes: &[u8]) -> usize
    ensures within { result ≤ length bytes.now }
    ensures none { AllWithin (λ b. (b == 47) ≡ false) bytes.now 0 result }
    ensures slash { result < length bytes.now → slice_index bytes.now result ≡ 47 }
{
    for at in 0..bytes.len() {
        if bytes[at] == b'/' {
            return at;
        }
    }
    bytes.len()
}

/// What stands before the first slash, and what after it.
fn first_part(text: &str) -> (&str, Option<&str>)
    ensures { MatchOption result.1
        (slice_split (λ b. b == 47) text.now ≡ result.0.now ∷ [])
        (λ rest. slice_split (λ b. b == 47) text.now ≡ result.0.now ∷ slice_split (λ b. b == 47) rest.now) }
{
    let at = slash_place(text.as_bytes());
    if at == text.len() {
        return (text, None);
    }
    (&text[..at], Some(&text[at + 1..]))
}

/// The parts of what stands after a path's first slash.
fn cut_rest(rest: &str) -> Parts<'_>
    ensures { IsCut (slice_split (λ b. b == 47) rest.now) result }
{
    let (a, rest) = first_part(rest);
    let Some(rest) = rest else {
        return Parts::One(a);
    };
    let (b, rest) = first_part(rest);
    let Some(rest) = rest else {
        return Parts::Two(a, b);
    };
    let (c, rest) = first_part(rest);
    let Some(rest) = rest else {
        return Parts::Three(a, b, c);
    };
    let (d, rest) = first_part(rest);
    let Some(rest) = rest else {
        return Parts::Four(a, b, c, d);
    };
    let (e, rest) = first_part(rest);
    let Some(rest) = rest else {
        return Parts::Five(a, b, c, d, e);
    };
    let (f, rest) = first_part(rest);
    match rest {
        Some(_) => Parts::More,
        None => Parts::Six(a, b, c, d, e, f),
    }
}

/// The parts of a path.
pub fn cut(path: &str) -> Parts<'_>
    requires { is_path path.now ≡ true }
    ensures parts { IsCut (parts path.now) result }
    ensures within { AreWithin MAX_PATH_BYTES result }
{
    let (_, rest) = first_part(path);
    match rest {
        Some(rest) => cut_rest(rest),
        None => unreachable!(),
    }
}
