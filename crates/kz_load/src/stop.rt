//! Why a load stops.
ghost use Rattle.std.specs.Prelude.{◌≡◌};
ghost use Rattle.kz_spec_machine.specs.Loading.{greatest_of};
ghost use Rattle.kz_load.specs.Stops.{stop_of, stop_status};

use kz_tree::LoadFault;
use kz_types::{Limit, MAX_BODY_BYTES, MAX_INPUT_BYTES, MAX_LINE_BYTES, MAX_ZNODES, Status};

/// Why a load stops.
#[derive(Clone, Copy, Debug, PartialEq, Eq)]
pub enum LoadStop {
    /// This line, counted from 1, is no line of a tree there, or breaks a rule of a load. An input without a line lacks its first.
    BadLine { line: u64 },
    /// A znode would pass the limit of this number.
    Limit { number: u8 },
    /// A line has too many bytes.
    LongLine,
    /// The input has too many bytes.
    LongInput,
    /// The source failed.
    ReadFault,
    /// Memory ran out.
    NoMemory,
}

/// Why a load stops at this line, where the check of its tree gives this fault.
pub(crate) fn stop_of(line: u64, fault: LoadFault) -> LoadStop
    ensures { result ≡ stop_of line fault }
{
    match fault {
        LoadFault::Broken => LoadStop::BadLine { line },
        LoadFault::Limit { number } => LoadStop::Limit { number },
        LoadFault::NoMemory => LoadStop::NoMemory,
    }
}

fn greatest_of(number: u8) -> u64
    ensures { result ≡ greatest_of number }
{
    if number == Limit::BodyBytes.number() {
        MAX_BODY_BYTES as u64
    } else {
        MAX_ZNODES as u64
    }
}

/// The status of a load that stops for this reason.
pub fn stop_status(stop: LoadStop) -> Status
    ensures { result ≡ stop_status stop }
{
    match stop {
        LoadStop::BadLine { line } => Status::Script { line },
        LoadStop::Limit { number } => Status::Limit {
            which: number,
            number: greatest_of(number),
        },
        LoadStop::LongLine => Status::Limit {
            which: Limit::LineBytes.number(),
            number: MAX_LINE_BYTES as u64,
        },
        LoadStop::LongInput => Status::Limit {
            which: Limit::InputBytes.number(),
            number: MAX_INPUT_BYTES,
        },
        LoadStop::ReadFault => Status::ReadFault,
        LoadStop::NoMemory => Status::NoMemory,
    }
}
