//! The steps of a turn.
ghost use Rattle.std.specs.Prelude.{◌≡◌, ◌++◌, ◌∷◌, [], true, List, ◌+◌, ◌^◌, ◌≤◌, ◌<◌, nat_lt, length, IfOk, OnErr};
ghost use Rattle.std.specs.List.{list_any};
ghost use Rattle.kz_types.specs.declared.machine.Reply.{Reply as ReplyValue};
ghost use Rattle.kz_spec_data.specs.Log.{IsViewOf};
ghost use Rattle.kz_spec_machine.specs.Machine.{ends};
ghost use Rattle.kz_spec_machine.specs.Failures.{is_failed_step};
ghost use Rattle.kz_driver.specs.Disks.{disks_of, payloads_of};
ghost use Rattle.kz_driver.specs.Steps.{shared_over, KeepsViews};
ghost use Rattle.kz_world_parts.specs.Pairs.{IsSoundPair};
ghost use Rattle.kz_world_parts.specs.TurnDisks.{TurnDisks};
ghost use Rattle.kz_world_parts.specs.TurnStops.{AreUp, LeavesOneOf, last_step_pairs};
ghost use Rattle.kz_world_parts.specs.Steps.{TurnEnds};
ghost use Rattle.kz_world_parts.specs.Bounds.{IsKnown};
ghost use Rattle.kz_world_parts.specs.Starts.{most_from};

use crate::TurnStart;
use crate::single_step::step;
use kz_driver::{Driver, Peers};
use kz_log::{LogWire, MetaLog, View};
use kz_tree::{Wire, ZTree};
use kz_types::{NoMemory, Plan, Reply};
use std::alloc::Global;

// Whether a turn ends with this reply.
fn ends(reply: &Reply) -> bool
    ensures { result ≡ ends reply.now }
{
    match reply {
        Reply::Idle => true,
        Reply::WaitQuorum { .. } => true,
        Reply::WaitBroker { .. } => true,
        Reply::Moved(_) => false,
        Reply::Looked => false,
        Reply::Claimed { .. } => false,
        Reply::Read { .. } => false,
        Reply::Appended { .. } => false,
        Reply::Wrote { .. } => false,
        Reply::Recorded { .. } => false,
        Reply::FencedEpoch { .. } => true,
        Reply::FencedWrite { .. } => true,
        Reply::Stale { .. } => true,
        Reply::Untranslatable { .. } => true,
        Reply::Limit { .. } => true,
        Reply::Lost => false,
        Reply::Expired => false,
        Reply::TreeFailed(_) => true,
        Reply::LogFailed(_) => true,
        Reply::NoMemory => true,
    }
}

// Puts a reply in the last place but one.
fn put(replies: &mut Vec<Reply>, reply: Reply)
    requires { 2 ≤ length replies.old.items }
    ensures { (made : List ReplyValue) (kept next : ReplyValue) → replies.old.items ≡ made ++ kept ∷ next ∷ [] → replies.new.items ≡ made ++ reply ∷ next ∷ [] }
{
    let at = replies.len() - 2;
    replies[at] = reply;
}

// The replies without the last.
fn without_last(replies: Vec<Reply>) -> Vec<Reply>
    ensures { (made : List ReplyValue) (last : ReplyValue) → replies.items ≡ made ++ last ∷ [] → result.items ≡ made }
{
    let mut replies = replies;
    replies.pop();
    replies
}

// So many steps every turn may have.
const LEAST_STEPS: u128 = 20;

/// What a turn knows of the bound on its steps.
#[derive(Clone, Copy)]
pub enum StepBound {
    /// It is so many, or more.
    AtLeast(u128),
    /// It is so many.
    Exactly(u128),
}

// Whether a turn may have a further step after so many. Its bound is computed where what is known of it allows no step after the
// further one, and once: before that, a lesser number is taken for which nothing is translated or rendered. At `Err` there is no
// memory for the bound, and the turn may have a further step.
fn may_step(
    alloc: Global,
    start: &TurnStart,
    latest: &View,
    done: u128,
    known: &mut StepBound,
) -> Result<bool, NoMemory>
    requires { IsKnown (most_from start.now latest.now.image) done known.old }
    ensures may { IfOk result (λ may. may ≡ nat_lt done (most_from start.now latest.now.image)) }
    ensures known { IfOk result (λ may. may ≡ true → (done + 1 < 2 ^ 128) × IsKnown (most_from start.now latest.now.image) (done + 1) known.new) }
    ensures err { OnErr result (done < most_from start.now latest.now.image) }
{
    let least = match *known {
        StepBound::AtLeast(least) => least,
        StepBound::Exactly(bound) => return Ok(done < bound),
    };
    if done < least - 1 {
        return Ok(true);
    }
    let least = start.least_steps();
    if done < least - 1 {
        *known = StepBound::AtLeast(least);
        return Ok(true);
    }
    let bound = start.most_steps(alloc, latest.image())?;
    *known = StepBound::Exactly(bound);
    Ok(done < bound)
}

/// At most as many steps of a driver, beside the latest view of the log, as the bound allows that its start and the metadata of that
/// view give, up to and with the first whose reply ends the turn. The bound is computed only where a turn comes near a number of steps
/// that it has in any case. Where a step fails or is out of memory, its reply tells so after those of the steps before; where a disk
/// failed in it, a stop leaves the tree and the log from before it, or those that it would have made. At `Err` there is no memory for
/// a reply, and nothing has changed.
pub fn turn<T: ZTree, L: MetaLog>(
    alloc: Global,
    tree: &mut Wire<T>,
    log: &mut LogWire<L>,
    driver: &mut Driver,
    peers: &Peers,
    now: i64,
    start: &TurnStart,
    latest: &View,
) -> Result<Vec<Reply>, NoMemory>
    requires view { IsViewOf (L.log log.old.inner) driver.old.view }
    requires latest { IsViewOf (L.log log.old.inner) latest.now }
    requires delivers { (tree.old.plan ≡ Plan.Deliver) × (log.old.plan ≡ Plan.Deliver) }
    ensures ends { IsSoundPair (shared_over T.tree L.log peers.now.declared tree.old log.old) now driver.old → IfOk result (λ replies.
        TurnEnds (most_from start.now latest.now.image) (shared_over T.tree L.log peers.now.declared tree.old log.old) peers.now.running now driver.old replies.items (shared_over T.tree L.log peers.now.declared tree.new log.new) driver.new) }
    ensures views { KeepsViews (L.log log.old.inner) (L.log log.new.inner) driver.old.id driver.new }
    ensures delivers { (tree.new.plan ≡ Plan.Deliver) × (log.new.plan ≡ Plan.Deliver) }
    ensures disks { IsSoundPair (shared_over T.tree L.log peers.now.declared tree.old log.old) now driver.old → IfOk result (λ replies.
        TurnDisks (shared_over T.tree L.log peers.now.declared tree.old log.old) peers.now.running now driver.old (payloads_of T.payload_bytes L.payload_bytes) replies.items
        (disks_of (T.disk tree.old.inner) (L.disk log.old.inner)) (disks_of (T.disk tree.new.inner) (L.disk log.new.inner))) }
    ensures stop { IsSoundPair (shared_over T.tree L.log peers.now.declared tree.old log.old) now driver.old → AreUp (disks_of (T.disk tree.old.inner) (L.disk log.old.inner)) → IfOk result (λ replies.
        list_any is_failed_step replies.items ≡ true
        → LeavesOneOf (last_step_pairs replies.items (shared_over T.tree L.log peers.now.declared tree.old log.old) peers.now.running now driver.old) (T.left tree.new.inner) (L.left log.new.inner)) }
    ensures err { OnErr result ((driver.new ≡ driver.old) × (tree.new ≡ tree.old) × (log.new ≡ log.old)) }
{
    let mut replies = Vec::new(alloc);
    // the last place is kept for a step that is out of memory
    replies.push(Reply::NoMemory)?;
    let mut known = StepBound::AtLeast(LEAST_STEPS);
    let mut done: u128 = 0;
    'steps: loop {
        let Ok(may) = may_step(alloc, start, latest, done, &mut known) else {
            return Ok(replies);
        };
        if !may {
            return Ok(without_last(replies));
        }
        let Ok(()) = replies.push(Reply::NoMemory) else {
            return Ok(replies);
        };
        let reply = step(tree, log, driver, peers, now, Plan::Deliver, latest);
        let last = ends(&reply);
        put(&mut replies, reply);
        if last {
            return Ok(without_last(replies));
        }
        done += 1;
    }
}
