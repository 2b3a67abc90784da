//! A snapshot of the log.
ghost use Rattle.std.specs.Prelude.{◌≡◌, [], ◌∷◌, Some, false, IfOk, OnErr};
ghost use Rattle.kz_types.specs.declared.machine.Answer.TheVariants as answer;
ghost use Rattle.kz_types.specs.declared.machine.Event.TheVariants as event;
ghost use Rattle.kz_spec_data.specs.Tree.{migration_record};
ghost use Rattle.kz_spec_data.specs.Log.{image_of, is_migrated_log};
ghost use Rattle.kz_spec_machine.specs.Machine.{cut_world, pair_of, snapshot_offset};
ghost use Rattle.kz_world_parts.specs.Disks.{payloads_of};
ghost use Rattle.kz_world_parts.specs.EventDisks.{disks_in, CutsLog, ResultDisks};
ghost use Rattle.kz_world_parts.specs.EventStops.{EventLeaves, FailureLeaves};
ghost use Rattle.kz_world_parts.specs.Worlds.{world_of, world_of_parts, IsDone, AreKept};

use kz_log::{LogRows, MetaLog};
use kz_tree::{Tree, ZTree};
use kz_types::{Answer, MIGRATION, NoMemory, Recorded};
use kz_world_parts::{EventFault, Parts, after_log_fault, read, read_whole};
use std::alloc::Global;

// Whether the migration is committed. The world's view is at the log's end.
fn is_migrated<T: ZTree, L: MetaLog>(parts: &Parts<T, L>) -> bool
    requires { parts.now.view.image ≡ image_of (L.log parts.now.log.inner) }
    ensures { result ≡ is_migrated_log (L.log parts.now.log.inner) }
{
    MIGRATION <= parts.view.image().state()
}

// What is recorded of a migration, where the log may be cut there.
fn offset_within(
    alloc: Global,
    recorded: Option<Recorded>,
    rows: &LogRows,
) -> Result<Option<i64>, NoMemory>
    ensures { IfOk result (λ at. at ≡ snapshot_offset recorded rows.now) }
{
    let Some(recorded) = recorded else {
        return Ok(None);
    };
    if recorded.offset < 0 {
        return Ok(None);
    }
    if rows.may_be_base(alloc, recorded.offset)? {
        Ok(Some(recorded.offset))
    } else {
        Ok(None)
    }
}

// The offset that the tree records, where a log that isn't down may be cut there.
fn offset_of<L: MetaLog>(alloc: Global, tree: &Tree, log: &mut L) -> Result<Option<i64>, NoMemory>
    requires { (L.disk log.old).down ≡ false }
    ensures ok { IfOk result (λ at. at ≡ snapshot_offset (migration_record tree.now) (L.log log.old)) }
    ensures same { L.log log.new ≡ L.log log.old }
    ensures disk { L.disk log.new ≡ L.disk log.old }
{
    let recorded = tree.recorded()?;
    offset_within(alloc, recorded, &read_whole(log)?)
}

// Cuts the log at the offset at which it may be cut. At `Err` nothing has changed but the disk.
fn cut<T: ZTree, L: MetaLog>(parts: &mut Parts<T, L>, offset: i64) -> Result<Answer, EventFault>
    requires kept { AreKept L.log parts.old }
    requires recorded { snapshot_offset (migration_record (T.tree parts.old.tree.inner)) (L.log parts.old.log.inner) ≡ Some offset }
    ensures ok { IfOk result (λ told. (world_of T.tree L.log parts.new ≡ cut_world (world_of T.tree L.log parts.old)) × (told ≡ answer.Done)) }
    ensures kept { AreKept L.log parts.new }
    ensures err { OnErr result (world_of T.tree L.log parts.new ≡ world_of T.tree L.log parts.old) }
    ensures disks { CutsLog (L.log parts.old.log.inner) (Some offset) (payloads_of T.payload_bytes L.payload_bytes) result (disks_in T.disk L.disk (world_of_parts parts.old)) (disks_in T.disk L.disk (world_of_parts parts.new)) }
    ensures stop { FailureLeaves (world_of T.tree L.log parts.old) (pair_of (cut_world (world_of T.tree L.log parts.old)).shared ∷ []) result (disks_in T.disk L.disk (world_of_parts parts.old)) (T.left parts.new.tree.inner) (L.left parts.new.log.inner) }
{
    match parts.log.inner_mut().snapshot(offset) {
        Ok(()) => Ok(Answer::Done),
        Err(fault) => after_log_fault(fault),
    }
}

/// Cuts the log at the offset that is recorded: up to it, the log is its metadata alone from then on. It is too early where the
/// migration isn't committed, or no offset is recorded. Refused, and where memory runs out or the log's store fails, it changes
/// nothing. The log is read whole.
#[tactic(auto, unfolding(kz_spec_machine::specs::Machine::next))]
pub fn snapshot<T: ZTree, L: MetaLog>(
    alloc: Global,
    parts: &mut Parts<T, L>,
) -> Result<Answer, EventFault>
    requires { AreKept L.log parts.old }
    ensures ok { IfOk result (IsDone (world_of T.tree L.log parts.old) event.Snapshot (world_of T.tree L.log parts.new)) }
    ensures kept { AreKept L.log parts.new }
    ensures err { OnErr result (world_of T.tree L.log parts.new ≡ world_of T.tree L.log parts.old) }
    ensures disks { ResultDisks (world_of T.tree L.log parts.old) event.Snapshot (payloads_of T.payload_bytes L.payload_bytes) result (disks_in T.disk L.disk (world_of_parts parts.old)) (disks_in T.disk L.disk (world_of_parts parts.new)) }
    ensures stop { EventLeaves (world_of T.tree L.log parts.old) event.Snapshot result (disks_in T.disk L.disk (world_of_parts parts.old)) (T.left parts.new.tree.inner) (L.left parts.new.log.inner) }
{
    match read(parts) {
        Ok(()) => {}
        Err(fault) => return Err(fault),
    }
    if !is_migrated(parts) {
        return Ok(Answer::TooEarly);
    }
    match offset_of(alloc, parts.tree.inner().tree(), parts.log.inner_mut()) {
        Ok(Some(offset)) => cut(parts, offset),
        Ok(None) => Ok(Answer::TooEarly),
        Err(NoMemory) => Err(EventFault::NoMemory),
    }
}
