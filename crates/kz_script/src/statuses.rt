//! How a run tells how it ended.
ghost use Rattle.std.specs.Prelude.{◌≡◌, ◌<◌, IfOk};
ghost use Rattle.kz_spec_data.specs.Statuses.{hex_digit, hex_sum, log_why_text, status_code, status_text};

use crate::replies::quoted;
use kz_types::{BatchFault, LogWhy, NoMemory, Status};
use std::alloc::Global;

/// The exit code of the process: 0 where the run is done.
pub fn status_code(status: &Status) -> u8
    ensures { result ≡ status_code status.now }
{
    match status {
        Status::Done => 0,
        Status::Usage => 1,
        Status::Script { .. } => 2,
        Status::ReadFault => 3,
        Status::WriteFault => 4,
        Status::TreeFault => 5,
        Status::LogFault => 6,
        Status::TreeDamaged { .. } => 7,
        Status::LogDamaged { .. } => 8,
        Status::Disagrees { .. } => 9,
        Status::NoMemory => 10,
        Status::Limit { .. } => 11,
        Status::NotEmpty => 12,
        Status::NoOffset { .. } => 13,
    }
}

fn hex_digit(n: u8) -> u8
    requires { n < 16 }
    ensures { result ≡ hex_digit n }
{
    if n < 10 { 48 + n } else { 97 + (n - 10) }
}

// A sum, as eight lower-case hexadecimal digits.
fn hex_sum(sum: u32) -> [u8; 8]
    ensures { result ≡ hex_sum sum }
{
    let [a, b, c, d] = sum.to_be_bytes();
    [
        hex_digit(a / 16),
        hex_digit(a % 16),
        hex_digit(b / 16),
        hex_digit(b % 16),
        hex_digit(c / 16),
        hex_digit(c % 16),
        hex_digit(d / 16),
        hex_digit(d % 16),
    ]
}

// Why a log's file is damaged.
fn log_why_text(alloc: Global, why: LogWhy) -> Result<Vec<u8>, NoMemory>
    ensures { IfOk result (λ text. text.items ≡ log_why_text why) }
{
    let word = match why {
        LogWhy::Header => "header",
        LogWhy::Malformed => "malformed",
        LogWhy::Batch(BatchFault::BadCrc { stored, computed }) => {
            let mut text = format!(in alloc; "crc ")?.into_bytes();
            text.extend_from_slice(&hex_sum(stored))?;
            text.push(b' ')?;
            text.extend_from_slice(&hex_sum(computed))?;
            return Ok(text);
        }
        LogWhy::Batch(_) => "batch",
        LogWhy::Value(_) => "value",
        LogWhy::Sequence => "sequence",
        LogWhy::Sum => "sum",
    };
    Ok(format!(in alloc; "{word}")?.into_bytes())
}

// The text of a log's file that is damaged.
fn damaged_text(alloc: Global, at: u64, why: LogWhy) -> Result<Vec<u8>, NoMemory>
    ensures { IfOk result (λ text. text.items ≡ status_text (Status.LogDamaged at why)) }
{
    let mut text = format!(in alloc; "log damaged at {at} ")?.into_bytes();
    text.extend_from_slice(&log_why_text(alloc, why)?)?;
    Ok(text)
}

/// The text on standard error, without a line feed: empty where the run is done.
pub fn status_text(alloc: Global, status: &Status) -> Result<Vec<u8>, NoMemory>
    ensures { IfOk result (λ text. text.items ≡ status_text status.now) }
{
    let text = match status {
        Status::Done => format!(in alloc; ""),
        Status::Usage => format!(in alloc; "usage"),
        Status::Script { line } => format!(in alloc; "script line {line}"),
        Status::ReadFault => format!(in alloc; "read fault"),
        Status::WriteFault => format!(in alloc; "write fault"),
        Status::TreeFault => format!(in alloc; "tree fault"),
        Status::LogFault => format!(in alloc; "log fault"),
        Status::TreeDamaged { at } => format!(in alloc; "tree damaged at {at}"),
        Status::LogDamaged { at, why } => return damaged_text(alloc, *at, *why),
        Status::Disagrees { path } => {
            let path = quoted(alloc, path.as_str())?;
            format!(in alloc; "disagrees {path}")
        }
        Status::NoMemory => format!(in alloc; "no memory"),
        Status::Limit { which, .. } => format!(in alloc; "limit {which}"),
        Status::NotEmpty => format!(in alloc; "not empty"),
        Status::NoOffset { base, end } => format!(in alloc; "no offset {base} {end}"),
    };
    Ok(text?.into_bytes())
}
