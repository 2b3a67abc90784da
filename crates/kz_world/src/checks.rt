//! A check.
ghost use Rattle.std.specs.Prelude.{◌≡◌, false, IfOk, OnErr};
ghost use Rattle.kz_types.specs.declared.machine.Event.TheVariants as event;
ghost use Rattle.kz_spec_machine.specs.Verdicts.{verdict};
ghost use Rattle.kz_world_parts.specs.Stores.{ReadsLog};
ghost use Rattle.kz_world_parts.specs.EventDisks.{disks_in};
ghost use Rattle.kz_world_parts.specs.EventStops.{EventLeaves};
ghost use Rattle.kz_world_parts.specs.Worlds.{world_of, world_of_parts, IsDone, AreKept};

use kz_log::MetaLog;
use kz_tree::{Tree, ZTree};
use kz_types::{Answer, NoMemory, Verdict};
use kz_verdict::verdict;
use kz_world_parts::{EventFault, Parts, read, read_whole};
use std::alloc::Global;

// How the tree and a log that isn't down agree.
fn verdict_over<L: MetaLog>(alloc: Global, tree: &Tree, log: &mut L) -> Result<Verdict, NoMemory>
    requires { (L.disk log.old).down ≡ false }
    ensures ok { IfOk result (λ told. told ≡ verdict tree.now (L.log log.old)) }
    ensures same { L.log log.new ≡ L.log log.old }
    ensures disk { L.disk log.new ≡ L.disk log.old }
{
    verdict(alloc, tree, &read_whole(log)?)
}

/// Tells how the tree and the log agree. It changes neither.
#[tactic(auto, unfolding(kz_spec_machine::specs::Machine::next))]
pub fn compare<T: ZTree, L: MetaLog>(
    alloc: Global,
    parts: &mut Parts<T, L>,
) -> Result<Answer, EventFault>
    requires { AreKept L.log parts.old }
    ensures ok { IfOk result (IsDone (world_of T.tree L.log parts.old) event.Check (world_of T.tree L.log parts.new)) }
    ensures kept { AreKept L.log parts.new }
    ensures err { OnErr result (world_of T.tree L.log parts.new ≡ world_of T.tree L.log parts.old) }
    ensures disks { ReadsLog result (disks_in T.disk L.disk (world_of_parts parts.old)) (disks_in T.disk L.disk (world_of_parts parts.new)) }
    ensures stop { EventLeaves (world_of T.tree L.log parts.old) event.Check result (disks_in T.disk L.disk (world_of_parts parts.old)) (T.left parts.new.tree.inner) (L.left parts.new.log.inner) }
{
    match read(parts) {
        Ok(()) => {}
        Err(fault) => return Err(fault),
    }
    match verdict_over(alloc, parts.tree.inner().tree(), parts.log.inner_mut()) {
        Ok(verdict) => Ok(Answer::Check(verdict)),
        Err(NoMemory) => Err(EventFault::NoMemory),
    }
}
