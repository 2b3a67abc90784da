//! The texts of a topic's partitions.
ghost use Rattle.std.specs.Prelude.{◌≡◌, ◌++◌, ◌∷◌, [], ◌&&◌, OnOk, string_bytes, pos, nat_lt};
ghost use Rattle.std.specs.Ordering.{int_eq};
ghost use Rattle.std.specs.Fmt.{signed_decimal};
ghost use Rattle.json.specs.Print.{quoted};
ghost use Rattle.serde_json.specs.Data.{object};
ghost use Rattle.serde_json.specs.Written.{compact_text, comma_if};
ghost use Rattle.kz_body_texts.specs.Texts.{are_digits, in_order};

use crate::texts::{push_brokers, push_comma, push_sign, push_whole};
use kz_types::{AssignmentRow, NoMemory};

// Whether a partition's number is its place and has one digit.
fn is_digit(row: &AssignmentRow, place: usize) -> bool
    ensures { result ≡ (nat_lt place 10 && int_eq row.now.number (pos place)) }
{
    place < 10 && row.number == place as i32
}

/// Whether the partitions' numbers are their places and have one digit.
pub fn are_digits(rows: &[AssignmentRow]) -> bool
    ensures { result ≡ are_digits 0 rows.now }
{
    for place in 0..rows.len() {
        if !is_digit(&rows[place], place) {
            return false;
        }
    }
    true
}

// Adds the name of a partition's member and its colon.
fn push_name(text: &mut String, later: bool, number: i32) -> Result<(), NoMemory>
    ensures { OnOk result (string_bytes text.new ≡ string_bytes text.old ++ (comma_if later ++ (quoted (signed_decimal number) ++ 58 ∷ []))) }
{
    push_comma(text, later)?;
    push_sign(text, b'"')?;
    push_whole(text, number)?;
    text.push_str("\":")?;
    Ok(())
}

/// Adds an object of the partitions' replicas, in the order of the partitions.
pub fn push_rows(text: &mut String, rows: &[AssignmentRow]) -> Result<(), NoMemory>
    ensures { OnOk result (string_bytes text.new ≡ string_bytes text.old ++ compact_text (object (in_order rows.now))) }
{
    push_sign(text, b'{')?;
    let mut later = false;
    for row in rows {
        push_name(text, later, row.number)?;
        push_brokers(text, row.replicas.as_slice())?;
        later = true;
    }
    push_sign(text, b'}')
}
