//! Quotas as texts: reading and writing them.

ghost use Rattle.std.specs.Prelude.{◌≡◌, ◌+◌, ◌*◌, ◌-◌, ◌^◌, ◌<◌, ◌≤◌, ◌%◌, ℕ, true, List, [], ◌∷◌, ◌++◌, length, min, ℤ, pos, neg_ℤ, ◌-ℤ◌, ◌⊎◌, if◌then◌else◌, Ok, Err, Some, option_map, IfOk, MatchResult};
ghost use Rattle.std.specs.List.{list_all, prefix_len};
ghost use Rattle.kz_types.specs.Numbers.{is_digit, number_of};
ghost use Rattle.kz_types.specs.Quotas.{is_quota};
ghost use Rattle.kz_spec_data.specs.Quotas.{digits_at, after_digits, exponent_of, after_letter, after_decimals, after_whole, numeral_of, in_millionths, quota_of_millionths, quota_of_numeral, quota_of, without_end_zeros, last_digits, quota_text};

use kz_types::{MAX_LONG, NoMemory, QuotaFault, QuotaValue, Text};
use std::alloc::Global;
use std::marker::Model;

/// Numbers of millionths are told apart below this one: from here on they are too large for a quota.
const MOST_MILLIONTHS: u128 = 10_000_000_000_000_000_000_000_000;

/// Exponents are told apart below this one: no text has as many digits.
const MOST_EXPONENT: u128 = 100_000_000_000_000_000_000;

/// Decimal digits in ASCII, which contracts see as the list of their bytes.
#[derive(Drop)]
struct Digits<'a> {
    text: &'a [u8],
}

impl<'a> Model for Digits<'a> {
    ghost use Rattle.std.specs.Prelude.{◌≡◌, ℕ, true, List};
    ghost use Rattle.std.specs.List.{list_all};
    ghost use Rattle.kz_types.specs.Numbers.{is_digit};

    ghost Value = { List ℕ };

    ghost view = { λ d. d.text.now };

    ghost invariant = { λ d. list_all is_digit d.text.now ≡ true };
}

impl<'a> Digits<'a> {
    /// How many there are.
    fn len(&self) -> usize
        ensures { result ≡ length self.now }
    {
        self.text.len()
    }

    /// The number that they write, or [`MOST_EXPONENT`] where it is greater.
    fn number(&self) -> u128
        ensures { result ≡ min (number_of self.now) MOST_EXPONENT }
    {
        let mut number: u128 = 0;
        for at in 0..self.text.len() {
            number = (number * 10 + (self.text[at] - b'0') as u128).min(MOST_EXPONENT);
        }
        number
    }

    /// Without the zeros at their end.
    fn without_end_zeros(&self) -> Digits<'a>
        ensures { result ≡ without_end_zeros self.now }
    {
        let mut count = self.text.len();
        while 0 < count && self.text[count - 1] == b'0' {
            count -= 1;
        }
        Digits {
            text: &self.text[..count],
        }
    }

    /// Lends them as a text.
    fn as_str(&self) -> &str
        ensures { result.now ≡ self.now }
    {
        match str::from_utf8(self.text) {
            Ok(text) => text,
            Err(_) => unreachable!(),
        }
    }
}

/// The last digit of a number.
fn last_digit(number: u32) -> u8
    ensures { result ≡ 48 + number % 10 }
{
    b'0' + (number % 10) as u8
}

/// The last six digits of a number.
fn six_digits(number: u32) -> [u8; 6]
    ensures { result ≡ last_digits 6 number }
{
    let tens = number / 10;
    let hundreds = tens / 10;
    let thousands = hundreds / 10;
    let ten_thousands = thousands / 10;
    let hundred_thousands = ten_thousands / 10;
    [
        last_digit(hundred_thousands),
        last_digit(ten_thousands),
        last_digit(thousands),
        last_digit(hundreds),
        last_digit(tens),
        last_digit(number),
    ]
}

/// An exponent of ten, which contracts see as its number.
#[derive(Drop)]
struct Exponent<'a> {
    negative: bool,
    digits: Digits<'a>,
}

impl<'a> Model for Exponent<'a> {
    ghost use Rattle.std.specs.Prelude.{ℤ, pos, neg_ℤ, if◌then◌else◌};
    ghost use Rattle.kz_types.specs.Numbers.{number_of};

    ghost Value = { ℤ };

    ghost view = { λ e. if e.negative then neg_ℤ (pos (number_of e.digits)) else pos (number_of e.digits) };
}

impl<'a> Exponent<'a> {
    /// No power of ten.
    fn none() -> Exponent<'a>
        ensures { result ≡ pos 0 }
    {
        Exponent {
            negative: false,
            digits: Digits { text: &[] },
        }
    }

    /// The powers of ten by which it raises and lowers a number. One of them is 0.
    fn powers(&self) -> (u128, u128)
        ensures { ((e : ℕ) × (self.now ≡ pos e) × (result.0 ≡ min e MOST_EXPONENT) × (result.1 ≡ 0))
            ⊎ ((e : ℕ) × (self.now ≡ neg_ℤ (pos e)) × (result.0 ≡ 0) × (result.1 ≡ min e MOST_EXPONENT)) }
    {
        let size = self.digits.number();
        if self.negative { (0, size) } else { (size, 0) }
    }
}

/// What a quota's text says: digits, decimals after a point, and an exponent of ten.
#[derive(Drop)]
struct Numeral<'a> {
    whole: Digits<'a>,
    decimals: Digits<'a>,
    exponent: Exponent<'a>,
}

impl<'a> Model for Numeral<'a> {
    ghost use Rattle.kz_spec_data.specs.Quotas.{Numeral};

    ghost Value = { Numeral };

    ghost view = { λ n. record { whole = n.whole; decimals = n.decimals; exponent = n.exponent } };
}

/// How many digits a text begins with.
fn count_digits(text: &[u8]) -> usize
    ensures { result ≡ prefix_len is_digit text.now }
{
    text.iter().take_while(|b| matches!(b, b'0'..=b'9')).count()
}

/// The digits that a text begins with, and what follows them.
fn split_digits(text: &[u8]) -> (Digits<'_>, &[u8])
    ensures digits { result.0 ≡ digits_at text.now }
    ensures after { result.1.now ≡ after_digits text.now }
    ensures lengths { length result.0 + length result.1.now ≡ length text.now }
{
    let (digits, after) = text.split_at(count_digits(text));
    (Digits { text: digits }, after)
}

/// The exponent of these digits, which stand at `at` and end the text. `Err`: the place of the first byte that is no
/// digit, or of the end where there is none.
fn read_exponent(at: usize, negative: bool, text: &[u8]) -> Result<Exponent<'_>, usize>
    requires { at + length text.now < 2 ^ 64 }
    ensures { (whole decimals : List ℕ) → MatchResult result
        (λ exponent. exponent_of whole decimals (if negative then neg_ℤ else (λ z. z)) at text.now ≡ Ok (record { whole = whole; decimals = decimals; exponent = exponent }))
        (λ fault. exponent_of whole decimals (if negative then neg_ℤ else (λ z. z)) at text.now ≡ Err fault) }
{
    let (digits, after) = split_digits(text);
    if text.is_empty() || !after.is_empty() {
        return Err(at + digits.len());
    }
    Ok(Exponent { negative, digits })
}

/// The exponent after an `E`, where a sign may stand.
fn read_signed(at: usize, text: &[u8]) -> Result<Exponent<'_>, usize>
    requires { at + length text.now < 2 ^ 64 }
    ensures { (whole decimals : List ℕ) → MatchResult result
        (λ exponent. after_letter whole decimals at text.now ≡ Ok (record { whole = whole; decimals = decimals; exponent = exponent }))
        (λ fault. after_letter whole decimals at text.now ≡ Err fault) }
{
    let Some((sign, rest)) = text.split_first() else {
        return Err(at);
    };
    if *sign == b'+' {
        return read_exponent(at + 1, false, rest);
    }
    if *sign == b'-' {
        return read_exponent(at + 1, true, rest);
    }
    read_exponent(at, false, text)
}

/// The exponent after the digits and decimals: none where the text ends, else an `E` or `e` stands before it.
fn read_end(at: usize, text: &[u8]) -> Result<Exponent<'_>, usize>
    requires { at + length text.now < 2 ^ 64 }
    ensures { (whole decimals : List ℕ) → MatchResult result
        (λ exponent. after_decimals whole decimals at text.now ≡ Ok (record { whole = whole; decimals = decimals; exponent = exponent }))
        (λ fault. after_decimals whole decimals at text.now ≡ Err fault) }
{
    match text.split_first() {
        None => Ok(Exponent::none()),
        Some((b'E' | b'e', rest)) => read_signed(at + 1, rest),
        Some(_) => Err(at),
    }
}

/// The decimals after the digits and what follows them: none where no point stands there, else at least one. `Err`: the
/// place after a point where there is none.
fn read_decimals(at: usize, text: &[u8]) -> Result<(Digits<'_>, &[u8]), usize>
    requires { at + length text.now < 2 ^ 64 }
    ensures { (whole : List ℕ) → MatchResult result
        (λ parts. (length parts.1.now ≤ length text.now) × (after_whole whole at text.now ≡ after_decimals whole parts.0 (at + length text.now - length parts.1.now) parts.1.now))
        (λ fault. after_whole whole at text.now ≡ Err fault) }
{
    match text.split_first() {
        Some((b'.', rest)) => {
            let (decimals, after) = split_digits(rest);
            if decimals.len() == 0 {
                return Err(at + 1);
            }
            Ok((decimals, after))
        }
        _ => Ok((Digits { text: &[] }, text)),
    }
}

/// What a text says. `Err`: the place of the first byte at which no quota goes on, or of the end.
fn read_numeral(text: &[u8]) -> Result<Numeral<'_>, usize>
    ensures { result ≡ numeral_of text.now }
{
    let (whole, after) = split_digits(text);
    if whole.len() == 0 {
        return Err(0);
    }
    let (decimals, after) = read_decimals(whole.len(), after)?;
    let exponent = read_end(text.len() - after.len(), after)?;
    Ok(Numeral {
        whole,
        decimals,
        exponent,
    })
}

/// A number times a power of ten, or [`MOST_MILLIONTHS`] where that is greater.
fn raised(number: u128, power: u128) -> u128
    requires { number ≤ MOST_MILLIONTHS }
    ensures { result ≡ min (number * 10 ^ power) MOST_MILLIONTHS }
{
    if number == 0 {
        return 0;
    }
    let mut raised = number;
    for _ in 0..power {
        if MOST_MILLIONTHS <= raised {
            return MOST_MILLIONTHS;
        }
        raised *= 10;
    }
    raised.min(MOST_MILLIONTHS)
}

/// The digits of a number as far as its last that isn't 0, and how many zeros follow.
#[derive(Clone, Copy)]
struct Significant {
    /// What those digits write, or [`MOST_MILLIONTHS`] where that is greater.
    number: u128,
    zeros: u128,
}

impl Significant {
    /// With one more digit.
    fn with_digit(self, digit: u8) -> Significant
        requires small { self.number ≤ MOST_MILLIONTHS }
        requires few { self.zeros < 2 ^ 100 }
        requires low { 48 ≤ digit }
        requires high { digit ≤ 57 }
        ensures small { result.number ≤ MOST_MILLIONTHS }
        ensures significant { (digits : List ℕ) → self.number ≡ min (number_of (without_end_zeros digits)) MOST_MILLIONTHS
            → length (without_end_zeros digits) + self.zeros ≡ length digits
            → (result.number ≡ min (number_of (without_end_zeros (digits ++ digit ∷ []))) MOST_MILLIONTHS)
            × (length (without_end_zeros (digits ++ digit ∷ [])) + result.zeros ≡ length (digits ++ digit ∷ [])) }
    {
        if digit == b'0' {
            return Significant {
                number: self.number,
                zeros: self.zeros + 1,
            };
        }
        let number = raised(self.number, self.zeros + 1) + (digit - b'0') as u128;
        Significant {
            number: number.min(MOST_MILLIONTHS),
            zeros: 0,
        }
    }

    /// Of the digits of a numeral.
    fn of(whole: &Digits<'_>, decimals: &Digits<'_>) -> Significant
        ensures small { result.number ≤ MOST_MILLIONTHS }
        ensures few { result.zeros < 2 ^ 66 }
        ensures digits { list_all is_digit (whole.now ++ decimals.now) ≡ true }
        ensures number { result.number ≡ min (number_of (without_end_zeros (whole.now ++ decimals.now))) MOST_MILLIONTHS }
        ensures zeros { length (without_end_zeros (whole.now ++ decimals.now)) + result.zeros ≡ length (whole.now ++ decimals.now) }
    {
        let mut significant = Significant {
            number: 0,
            zeros: 0,
        };
        for at in 0..whole.text.len() {
            significant = significant.with_digit(whole.text[at]);
        }
        for at in 0..decimals.text.len() {
            significant = significant.with_digit(decimals.text[at]);
        }
        significant
    }

    /// The number of all digits, raised and lowered by powers of ten. `None` where that is no whole number, and
    /// [`MOST_MILLIONTHS`] where it is greater.
    fn scaled(self, up: u128, down: u128) -> Option<u128>
        requires small { self.number ≤ MOST_MILLIONTHS }
        requires few { self.zeros + up < 2 ^ 100 }
        ensures { (digits : List ℕ) → list_all is_digit digits ≡ true
            → self.number ≡ min (number_of (without_end_zeros digits)) MOST_MILLIONTHS
            → length (without_end_zeros digits) + self.zeros ≡ length digits
            → result ≡ option_map (λ n. min n MOST_MILLIONTHS) (in_millionths (number_of digits) (pos up -ℤ pos down)) }
    {
        if self.number == 0 {
            return Some(0);
        }
        let up = self.zeros + up;
        if up < down {
            return None;
        }
        Some(raised(self.number, up - down))
    }
}

/// The quota of so many millionths.
fn quota_of_millionths(millionths: u128) -> Result<QuotaValue, QuotaFault>
    ensures value { result ≡ quota_of_millionths (Some millionths) }
    ensures range { IfOk result (λ quota. is_quota quota ≡ true) }
{
    let whole = millionths / 1_000_000;
    if whole > MAX_LONG as u128 {
        return Err(QuotaFault::TooLarge);
    }
    Ok(QuotaValue {
        whole: whole as i64,
        micros: (millionths % 1_000_000) as i32,
    })
}

impl<'a> Numeral<'a> {
    /// The quota of what a text says.
    fn value(&self) -> Result<QuotaValue, QuotaFault>
        ensures value { result ≡ quota_of_numeral (Ok self.now) }
        ensures range { IfOk result (λ quota. is_quota quota ≡ true) }
    {
        let significant = Significant::of(&self.whole, &self.decimals);
        let (up, down) = self.exponent.powers();
        match significant.scaled(up + 6, down + self.decimals.len() as u128) {
            Some(millionths) => quota_of_millionths(millionths),
            None => Err(QuotaFault::TooFine),
        }
    }
}

/// Reading and writing the text of a quota.
pub trait QuotaText: Sized {
    /// Which values are written.
    ghost is_written: { Self → Type 0 };

    /// The quota that a text is.
    fn read(text: &[u8]) -> Result<Self, QuotaFault>;

    /// The text of a quota.
    fn text(&self, alloc: Global) -> Result<Text, NoMemory>
        requires { is_written self.now };
}

impl QuotaText for QuotaValue {
    ghost is_written = { λ q. is_quota q ≡ true };

    /// The quota that a text is: digits, then perhaps a point and decimals, and then perhaps `E` or `e`, a sign and
    /// digits for a power of ten. It needs no memory, and takes texts of any length.
    ///
    /// `NotNumber`: no such text goes on at that byte, or it ends there too early. `TooFine`: its value is no whole
    /// number of millionths. `TooLarge`: its whole part is above [`MAX_LONG`].
    #[tactic(auto, unfolding(kz_spec_data::specs::Quotas::quota_of))]
    fn read(text: &[u8]) -> Result<QuotaValue, QuotaFault>
        ensures value { result ≡ quota_of text.now }
        ensures range { IfOk result (λ quota. is_quota quota ≡ true) }
    {
        match read_numeral(text) {
            Ok(numeral) => numeral.value(),
            Err(at) => Err(QuotaFault::NotNumber { at }),
        }
    }

    /// The text of a quota: its whole part and, where there are millionths, a point and decimals without zeros at their
    /// end.
    fn text(&self, alloc: Global) -> Result<Text, NoMemory>
        requires { is_quota self.now ≡ true }
        ensures text { IfOk result (λ text. text ≡ quota_text self.now) }
        ensures reads_back { quota_of (quota_text self.now) ≡ Ok self.now }
    {
        let whole = self.whole.unsigned_abs();
        let micros = self.micros.unsigned_abs();
        if micros == 0 {
            return Ok(Text::from_string(format!(in alloc; "{whole}")?));
        }
        let digits = six_digits(micros);
        let decimals = Digits { text: &digits }.without_end_zeros();
        let decimals = decimals.as_str();
        Ok(Text::from_string(format!(in alloc; "{whole}.{decimals}")?))
    }
}
