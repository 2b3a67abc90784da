//! Numbers of variable size: seven bits a byte, the lowest first.
ghost use Rattle.std.specs.Prelude.{◌≡◌, ℕ, ◌+◌, ◌<◌, ◌≤◌, ◌^◌, length, MatchResult, IfOk, Ok, Err};
ghost use Rattle.kz_spec_data.specs.Fields.{groups_at};
ghost use Rattle.kz_bytes.specs.Groups.{limit};

use kz_types::ByteFault;

/// What was read: the number, the place after it, and the bytes from there on.
#[derive(Clone, Copy)]
pub struct Number<'a> {
    pub number: u64,
    pub at: usize,
    pub left: &'a [u8],
}

/// The number at the front of bytes that begin at this place: at most `more` bytes from 128 on, then one below `last`.
#[tactic(auto, unfolding(kz_spec_data::specs::Fields::groups_at, crate::specs::Groups::limit))]
pub fn read_groups(at: usize, bytes: &[u8], more: u8, last: u8) -> Result<Number<'_>, ByteFault>
    requires fits { limit more last ≤ 2 ^ 64 }
    requires some { 0 < last }
    requires place { at + length bytes.now < 2 ^ 64 }
    ensures read { MatchResult result (λ x. groups_at more last at bytes.now ≡ Ok (x.number, record { at = x.at; left = x.left.now })) (λ e. groups_at more last at bytes.now ≡ Err e) }
    ensures bound { IfOk result (λ x. x.number < limit more last) }
    ensures place { IfOk result (λ x. x.at + length x.left.now ≡ at + length bytes.now) }
{
    match bytes {
        [] => Err(ByteFault::Short { at }),
        [byte, rest @ ..] => {
            if more == 0 {
                if *byte < last {
                    Ok(Number {
                        number: *byte as u64,
                        at: at + 1,
                        left: rest,
                    })
                } else {
                    Err(ByteFault::Overlong { at })
                }
            } else if *byte < 128 {
                Ok(Number {
                    number: *byte as u64,
                    at: at + 1,
                    left: rest,
                })
            } else {
                let high = read_groups(at + 1, rest, more - 1, last)?;
                Ok(Number {
                    number: (*byte as u64 - 128) + 128 * high.number,
                    at: high.at,
                    left: high.left,
                })
            }
        }
    }
}
