//! The end of a migration, after which no controller writes to ZooKeeper.
ghost use Rattle.std.specs.Prelude.{◌≡◌, false, IfOk, IfSome, OnErr};
ghost use Rattle.kz_types.specs.declared.machine.Event.TheVariants as event;
ghost use Rattle.kz_spec_data.specs.Log.{end_of, image_of};
ghost use Rattle.kz_spec_machine.specs.Failures.{is_failure};
ghost use Rattle.kz_spec_machine.specs.Machine.{driver_of, dual_write_refusal, is_dual_write, rest_refusal, unless};
ghost use Rattle.kz_world_parts.specs.Disks.{payloads_of};
ghost use Rattle.kz_world_parts.specs.EventDisks.{disks_in, ResultDisks};
ghost use Rattle.kz_world_parts.specs.Refusals.{end_refusal};
ghost use Rattle.kz_world_parts.specs.EventStops.{EventLeaves};
ghost use Rattle.kz_world_parts.specs.Worlds.{world_of, world_of_parts, IsDone, AreKept};

use kz_exit::{ExitFault, may_finalise};
use kz_log::MetaLog;
use kz_tree::ZTree;
use kz_types::{Answer, DriverState, MIGRATION, MetaRecord, NoMemory, POST_MIGRATION};
use kz_world_parts::{EventFault, Parts, append, leader_refusal, place_of, read};

// A driver in this state isn't in dual write.
fn state_refusal(state: DriverState) -> Option<Answer>
    ensures refusal { result ≡ unless (is_dual_write state) (Answer.NotDualWrite state) }
    ensures no_failure { IfSome result (λ answer. is_failure answer ≡ false) }
{
    match state {
        DriverState::DualWrite => None,
        _ => Some(Answer::NotDualWrite { state }),
    }
}

// The controller's driver is in another state than dual write.
fn dual_write_refusal<T: ZTree, L: MetaLog>(parts: &Parts<T, L>, id: i32) -> Option<Answer>
    ensures refusal { result ≡ dual_write_refusal (driver_of id parts.now.drivers.items) }
    ensures no_failure { IfSome result (λ answer. is_failure answer ≡ false) }
{
    match place_of(&parts.drivers, id) {
        Some(at) => state_refusal(parts.drivers[at].state()),
        None => None,
    }
}

// ZooKeeper doesn't have all of the metadata.
fn rest_refusal<T: ZTree, L: MetaLog>(parts: &Parts<T, L>) -> Result<Option<Answer>, NoMemory>
    ensures refusal { IfOk result (λ refusal. refusal ≡ rest_refusal (T.tree parts.now.tree.inner) (end_of (L.log parts.now.log.inner))) }
    ensures no_failure { IfOk result (λ refusal. IfSome refusal (λ answer. is_failure answer ≡ false)) }
{
    match may_finalise(parts.tree.inner().tree(), parts.log.inner().end()) {
        Ok(()) => Ok(None),
        Err(ExitFault::Unclosed { path }) => Ok(Some(Answer::Unclosed { path })),
        Err(ExitFault::Behind { recorded, end }) => Ok(Some(Answer::Behind { recorded, end })),
        Err(ExitFault::NoMemory) => Err(NoMemory),
        Err(_) => unreachable!(),
    }
}

// The migration isn't committed, or is finalised already; the controller isn't in dual write; or ZooKeeper doesn't have all of
// the metadata. The world's view is at the log's end.
fn end_refusal<T: ZTree, L: MetaLog>(
    parts: &Parts<T, L>,
    id: i32,
) -> Result<Option<Answer>, NoMemory>
    requires { parts.now.view.image ≡ image_of (L.log parts.now.log.inner) }
    ensures refusal { IfOk result (λ refusal. refusal ≡ end_refusal (world_of T.tree L.log parts.now) id) }
    ensures no_failure { IfOk result (λ refusal. IfSome refusal (λ answer. is_failure answer ≡ false)) }
{
    let state = parts.view.image().state();
    if state < MIGRATION {
        return Ok(Some(Answer::NotMigrated));
    }
    if state == POST_MIGRATION {
        return Ok(Some(Answer::Finalised));
    }
    match dual_write_refusal(parts, id) {
        Some(refusal) => Ok(Some(refusal)),
        None => rest_refusal(parts),
    }
}

/// Asks a controller to finalise the migration. Refused, and where memory runs out or the log's store fails, it changes nothing.
#[tactic(auto, unfolding(kz_spec_machine::specs::Machine::next))]
pub fn finalise<T: ZTree, L: MetaLog>(
    parts: &mut Parts<T, L>,
    id: i32,
    now: i64,
) -> Result<Answer, EventFault>
    requires { AreKept L.log parts.old }
    ensures ok { IfOk result (IsDone (world_of T.tree L.log parts.old) (event.Finalise id now) (world_of T.tree L.log parts.new)) }
    ensures kept { AreKept L.log parts.new }
    ensures err { OnErr result (world_of T.tree L.log parts.new ≡ world_of T.tree L.log parts.old) }
    ensures disks { ResultDisks (world_of T.tree L.log parts.old) (event.Finalise id now) (payloads_of T.payload_bytes L.payload_bytes) result (disks_in T.disk L.disk (world_of_parts parts.old)) (disks_in T.disk L.disk (world_of_parts parts.new)) }
    ensures stop { EventLeaves (world_of T.tree L.log parts.old) (event.Finalise id now) result (disks_in T.disk L.disk (world_of_parts parts.old)) (T.left parts.new.tree.inner) (L.left parts.new.log.inner) }
{
    if let Some(refusal) = leader_refusal(parts, id) {
        return Ok(refusal);
    }
    match read(parts) {
        Ok(()) => {}
        Err(fault) => return Err(fault),
    }
    match end_refusal(parts, id) {
        Ok(None) => append(
            parts,
            &[MetaRecord::ZkMigrationState {
                state: POST_MIGRATION,
            }],
            now,
        ),
        Ok(Some(refusal)) => Ok(refusal),
        Err(NoMemory) => Err(EventFault::NoMemory),
    }
}
