//! The bound on the steps of a turn.
ghost use Rattle.std.specs.Prelude.{◌≡◌, ◌<◌, length, Some, IfOk, slice_get};
ghost use Rattle.kz_spec_machine.specs.Driver.{Driver as DriverValue};
ghost use Rattle.kz_spec_machine.specs.Machine.{work};
ghost use Rattle.kz_world_parts.specs.EventDisks.{disks_in};
ghost use Rattle.kz_world_parts.specs.Worlds.{world_of, world_of_parts, AreKept};
ghost use Rattle.kz_world.specs.Bounds.{ReadsForBound};

use crate::turns::turn_start;
use kz_log::MetaLog;
use kz_tree::ZTree;
use kz_types::LogFault;
use kz_world_parts::{EventFault, Parts};
use std::alloc::Global;

/// Why the bound on the steps of a turn isn't told.
#[derive(Clone, Copy, Debug, PartialEq, Eq)]
pub enum WorkFault {
    /// The log can't be read, since its disk failed in an earlier request.
    Log(LogFault),
    /// Memory ran out.
    NoMemory,
}

/// The most steps of a turn of the driver at this place. The log is read. A bound of 2^64 and more, for which the znodes would
/// have to take more bytes than there are addresses, is answered as out of memory.
pub fn bound_at<T: ZTree, L: MetaLog>(
    alloc: Global,
    parts: &mut Parts<T, L>,
    at: usize,
) -> Result<u64, WorkFault>
    requires within { at < length parts.old.drivers.items }
    requires kept { AreKept L.log parts.old }
    ensures ok { (d : DriverValue) → slice_get parts.old.drivers.items at ≡ Some d → IfOk result (λ most. most ≡ work (world_of T.tree L.log parts.old).shared d) }
    ensures kept { AreKept L.log parts.new }
    ensures world { world_of T.tree L.log parts.new ≡ world_of T.tree L.log parts.old }
    ensures disks { ReadsForBound result (disks_in T.disk L.disk (world_of_parts parts.old)) (disks_in T.disk L.disk (world_of_parts parts.new)) }
{
    let start = match turn_start(alloc, parts, at) {
        Ok(start) => start,
        Err(EventFault::Log(fault)) => return Err(WorkFault::Log(fault)),
        Err(EventFault::Tree(_)) => unreachable!(),
        Err(EventFault::NoMemory) => return Err(WorkFault::NoMemory),
    };
    let Ok(most) = start.most_steps(alloc, parts.view.image()) else {
        return Err(WorkFault::NoMemory);
    };
    match u64::try_from(most) {
        Ok(most) => Ok(most),
        Err(_) => Err(WorkFault::NoMemory),
    }
}
