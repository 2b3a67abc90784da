//! A migration that is taken back.
ghost use Rattle.std.specs.Prelude.{◌≡◌, IfOk, IfErr};
ghost use Rattle.kz_types.specs.declared.machine.Event.TheVariants as event;
ghost use Rattle.kz_spec_machine.specs.Failures.{IsLeft};
ghost use Rattle.kz_world_parts.specs.Disks.{payloads_of};
ghost use Rattle.kz_world_parts.specs.EventDisks.{disks_in, ResultDisks};
ghost use Rattle.kz_world_parts.specs.Faults.{answer_of_fault};
ghost use Rattle.kz_world_parts.specs.EventStops.{EventLeaves};
ghost use Rattle.kz_world_parts.specs.Worlds.{world_of, world_of_parts, IsDone, AreKept};

use kz_exit::rollback;
use kz_log::MetaLog;
use kz_tree::ZTree;
use kz_types::Answer;
use kz_world_parts::{CountedView, EventFault, Parts, after_exit, least_running};
use std::alloc::Global;

/// Takes the migration back. Refused, it changes nothing. The log is reset first, and the world's view begins anew, as the log
/// does: where the tree's store then fails, or memory runs out, the log may be reset already, and a repeated rollback goes on.
pub fn roll_back<T: ZTree, L: MetaLog>(
    alloc: Global,
    parts: &mut Parts<T, L>,
) -> Result<Answer, EventFault>
    requires { AreKept L.log parts.old }
    ensures ok { IfOk result (IsDone (world_of T.tree L.log parts.old) event.Rollback (world_of T.tree L.log parts.new)) }
    ensures kept { AreKept L.log parts.new }
    ensures err { IfErr result (λ fault. IsLeft (world_of T.tree L.log parts.old) event.Rollback (answer_of_fault fault) (world_of T.tree L.log parts.new)) }
    ensures disks { ResultDisks (world_of T.tree L.log parts.old) event.Rollback (payloads_of T.payload_bytes L.payload_bytes) result (disks_in T.disk L.disk (world_of_parts parts.old)) (disks_in T.disk L.disk (world_of_parts parts.new)) }
    ensures stop { EventLeaves (world_of T.tree L.log parts.old) event.Rollback result (disks_in T.disk L.disk (world_of_parts parts.old)) (T.left parts.new.tree.inner) (L.left parts.new.log.inner) }
{
    if let Some(id) = least_running(&parts.drivers) {
        return Ok(Answer::Running { id });
    }
    parts.view = CountedView::new(alloc);
    after_exit(rollback(alloc, parts.tree.inner_mut(), parts.log.inner_mut()))
}
