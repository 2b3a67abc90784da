//! The command that runs a script.
ghost use Rattle.std.specs.Prelude.{◌≢◌};
ghost use Rattle.kz_commands.specs.Outside.{outside};
ghost use Rattle.kz_replay.specs.Replays.{Replays};
ghost use Rattle.kz_commands.specs.Stops.{contents};
ghost use Rattle.kz_replay.specs.Stops.{ReplayStops};

use crate::machine::Replayer;
use crate::pump::pump;
use kz_commands::open;
use kz_disk::Disk;
use kz_io::{Sink, Source};
use kz_stream::Stream;
use kz_types::Status;
use kz_world::World;
use std::alloc::Global;

/// Runs a script on the tree and the log of two files.
pub(crate) fn replay<S: Source, K: Sink, D: Disk, E: Disk>(
    alloc: Global,
    input: &mut S,
    out: &mut K,
    tree: D,
    log: E,
) -> (Status, D, E)
    ensures ran { result.0 ≢ Status.Usage }
    ensures replays { Replays (outside S.left S.faults S.last_failed input.old) (outside S.left S.faults S.last_failed input.new)
        (outside K.taken K.faults K.last_failed out.old) (outside K.taken K.faults K.last_failed out.new)
        (outside D.told D.faults D.last_failed tree) (outside D.told D.faults D.last_failed result.1)
        (outside E.told E.faults E.last_failed log) (outside E.told E.faults E.last_failed result.2) result.0 }
    ensures stop { ReplayStops (S.left input.old) (K.taken out.old) (K.taken out.new) (contents D.told D.may_leave D.syncs tree) (contents D.told D.may_leave D.syncs result.1)
        (contents E.told E.may_leave E.syncs log) (contents E.told E.may_leave E.syncs result.2) }
{
    let (tree, log) = match open(alloc, tree, log) {
        Ok(stores) => stores,
        Err(refused) => return refused,
    };
    let world = World::new(alloc, tree, log);
    let (status, machine) = pump(Stream::new(alloc, Replayer { world }), input, out);
    let (tree, log) = machine.world.into_parts();
    (status, tree.into_disk_at_exit(), log.into_disk_at_exit())
}
