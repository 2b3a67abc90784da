//! The parts of a path that may be a parent of entities.
ghost use Rattle.std.specs.Prelude.{◌≡◌, ◌∷◌, [], ◌==◌, MatchOption, true};
ghost use Rattle.std.specs.List.{slice_split};
ghost use Rattle.kz_types.specs.PathRule.{parts, is_path};
ghost use Rattle.kz_render.specs.Places.{IsCut};

/// The parts of a path, where there are four or five.
#[derive(Clone, Copy)]
pub enum Parts<'a> {
    /// There are one to three.
    Fewer,
    /// These four.
    Four(&'a str, &'a str, &'a str, &'a str),
    /// These five.
    Five(&'a str, &'a str, &'a str, &'a str, &'a str),
    /// There are six or more.
    More,
}

// What stands before the first slash, and what after it.
fn first_part(text: &str) -> (&str, Option<&str>)
    ensures { MatchOption result.1
        (slice_split (λ b. b == 47) text.now ≡ result.0.now ∷ [])
        (λ rest. slice_split (λ b. b == 47) text.now ≡ result.0.now ∷ slice_split (λ b. b == 47) rest.now) }
{
    match text.split_once('/') {
        Some((part, rest)) => (part, Some(rest)),
        None => (text, None),
    }
}

// The parts of what stands after a path's first slash.
fn cut_rest(rest: &str) -> Parts<'_>
    ensures { IsCut (slice_split (λ b. b == 47) rest.now) result }
{
    let (a, rest) = first_part(rest);
    let Some(rest) = rest else {
        return Parts::Fewer;
    };
    let (b, rest) = first_part(rest);
    let Some(rest) = rest else {
        return Parts::Fewer;
    };
    let (c, rest) = first_part(rest);
    let Some(rest) = rest else {
        return Parts::Fewer;
    };
    let (d, rest) = first_part(rest);
    let Some(rest) = rest else {
        return Parts::Four(a, b, c, d);
    };
    let (e, rest) = first_part(rest);
    match rest {
        Some(_) => Parts::More,
        None => Parts::Five(a, b, c, d, e),
    }
}

/// The parts of a path.
pub fn cut(path: &str) -> Parts<'_>
    requires { is_path path.now ≡ true }
    ensures { IsCut (parts path.now) result }
{
    let (_, rest) = first_part(path);
    match rest {
        Some(rest) => cut_rest(rest),
        None => unreachable!(),
    }
}
