//! Reading the log.
ghost use Rattle.std.specs.Prelude.{◌≡◌, OnOk};
ghost use Rattle.kz_spec_data.specs.Log.{begun_of, end_of, image_of};
ghost use Rattle.kz_world_parts.specs.Stores.{ReadsLog};
ghost use Rattle.kz_world_parts.specs.EventDisks.{disks_in};
ghost use Rattle.kz_world_parts.specs.Worlds.{world_of, world_of_parts, AreKept};

use crate::faults::EventFault;
use crate::parts::Parts;
use kz_counted_view::read_to_end;
use kz_log::MetaLog;
use kz_tree::ZTree;
use kz_types::LogFault;

/// Brings the world's view to the log's end.
pub fn read<T: ZTree, L: MetaLog>(parts: &mut Parts<T, L>) -> Result<(), EventFault>
    requires { AreKept L.log parts.old }
    ensures end { OnOk result (parts.new.view.position ≡ end_of (L.log parts.old.log.inner)) }
    ensures image { OnOk result (parts.new.view.image ≡ image_of (L.log parts.old.log.inner)) }
    ensures begun { OnOk result (parts.new.view.begun ≡ begun_of (L.log parts.old.log.inner)) }
    ensures kept { AreKept L.log parts.new }
    ensures world { world_of T.tree L.log parts.new ≡ world_of T.tree L.log parts.old }
    ensures same { L.log parts.new.log.inner ≡ L.log parts.old.log.inner }
    ensures disks { ReadsLog result (disks_in T.disk L.disk (world_of_parts parts.old)) (disks_in T.disk L.disk (world_of_parts parts.new)) }
{
    match read_to_end(&mut parts.view, parts.log.inner_mut()) {
        Ok(()) => Ok(()),
        Err(LogFault::NoMemory) => Err(EventFault::NoMemory),
        Err(LogFault::Down) => Err(EventFault::Log(LogFault::Down)),
        Err(_) => unreachable!(),
    }
}
