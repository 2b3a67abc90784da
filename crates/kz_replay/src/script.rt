//! The command that generates a script.
ghost use Rattle.kz_commands.specs.Outside.{outside};
ghost use Rattle.kz_replay.specs.Commands.{IsAllowed};
ghost use Rattle.kz_replay.specs.Generates.{Generates};

use kz_generator::generate;
use kz_io::Sink;
use kz_output::OutputFault;
use kz_types::{Limit, MAX_GENERATED, Status};
use std::alloc::Global;

/// Writes the script with so many changes, or refuses more than are allowed.
pub(crate) fn write_script<K: Sink>(alloc: Global, changes: Option<u64>, out: &mut K) -> Status
    requires { IsAllowed changes }
    ensures { Generates changes (outside K.taken K.faults K.last_failed out.old) (outside K.taken K.faults K.last_failed out.new) result }
{
    let Some(changes) = changes else {
        return Status::Limit {
            which: Limit::Generated.number(),
            number: MAX_GENERATED,
        };
    };
    match generate(alloc, changes, out) {
        Ok(()) => Status::Done,
        Err(OutputFault::SinkFailed) => Status::WriteFault,
        Err(OutputFault::NoMemory) => Status::NoMemory,
    }
}
