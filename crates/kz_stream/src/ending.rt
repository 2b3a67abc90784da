//! How a run ends before the end of its input.
ghost use Rattle.std.specs.Prelude.{◌≡◌, []};
ghost use Rattle.kz_types.specs.declared.limits.TheConstants.{MAX_FILE_BYTES};
ghost use Rattle.kz_types.specs.Limits.{number_of_limit};
ghost use Rattle.kz_types.specs.declared.outside.Status.TheVariants as status;
ghost use Rattle.kz_spec_machine.specs.Output.{limit_status};
ghost use Rattle.kz_stream.specs.Endings.{status_of, failure_status, stop_status};

use crate::Failure;
use kz_types::{Limit, MAX_FILE_BYTES, MAX_INPUT_BYTES, MAX_LINE_BYTES, MAX_RECORDS, Status};
use std::alloc::Global;

/// Why a run ends at a place of its input.
#[derive(Clone, Copy, Debug, PartialEq, Eq)]
pub enum Ending {
    /// This line, counted from 1, is no event.
    BadLine { line: u64 },
    /// A line has too many bytes.
    LongLine,
    /// The input has too many bytes.
    LongInput,
    /// A step of a driver would pass the limit of the log that has this number, or a rollback that of the tree.
    StoreLimit { number: u8 },
}

/// What a run does after something is printed.
#[derive(Clone, Copy, Debug, PartialEq, Eq)]
pub enum Next {
    /// It goes on.
    GoesOn,
    /// Its input ends it.
    Ends(Ending),
    /// It ends, since an event failed.
    Fails(Failure),
}

/// Why a run goes no further.
#[derive(Clone, Copy, Debug, PartialEq, Eq)]
pub enum Stop {
    /// Its input ends it.
    Ends(Ending),
    /// An event failed, or memory ran out.
    Fails(Failure),
    /// The sink failed.
    SinkFailed,
}

/// What is printed for a part of the input, and what the run does then.
#[derive(Drop)]
pub struct Printed {
    pub text: Vec<u8>,
    pub next: Next,
}

impl Printed {
    /// Nothing is printed.
    pub fn nothing(alloc: Global, next: Next) -> Printed
        ensures text { result.text.items ≡ [] }
        ensures next { result.next ≡ next }
    {
        Printed {
            text: Vec::new(alloc),
            next,
        }
    }
}

fn limit_status(number: u8) -> Status
    ensures { result ≡ limit_status number }
{
    if number == Limit::Records.number() {
        Status::Limit {
            which: number,
            number: MAX_RECORDS as u64,
        }
    } else {
        Status::Limit {
            which: number,
            number: 9_223_372_036_854_775_807,
        }
    }
}

fn status_of(ending: Ending) -> Status
    ensures { result ≡ status_of ending }
{
    match ending {
        Ending::BadLine { line } => Status::Script { line },
        Ending::LongLine => Status::Limit {
            which: Limit::LineBytes.number(),
            number: MAX_LINE_BYTES as u64,
        },
        Ending::LongInput => Status::Limit {
            which: Limit::InputBytes.number(),
            number: MAX_INPUT_BYTES,
        },
        Ending::StoreLimit { number } => limit_status(number),
    }
}

fn file_limit(limit: Limit) -> Status
    ensures { result ≡ status.Limit (number_of_limit limit) MAX_FILE_BYTES }
{
    Status::Limit {
        which: limit.number(),
        number: MAX_FILE_BYTES,
    }
}

fn failure_status(failure: Failure) -> Status
    ensures { result ≡ failure_status failure }
{
    match failure {
        Failure::TreeDisk => Status::TreeFault,
        Failure::LogDisk => Status::LogFault,
        Failure::TreeFull => file_limit(Limit::TreeFileBytes),
        Failure::LogFull => file_limit(Limit::LogFileBytes),
        Failure::NoMemory => Status::NoMemory,
    }
}

/// The status of a run that stops for this reason.
pub fn stop_status(stop: Stop) -> Status
    ensures { result ≡ stop_status stop }
{
    match stop {
        Stop::Ends(ending) => status_of(ending),
        Stop::Fails(failure) => failure_status(failure),
        Stop::SinkFailed => Status::WriteFault,
    }
}
