//! The machine.
ghost use Rattle.std.specs.Prelude.{◌≡◌, ◌⊎◌, ◌∷◌, [], true, false, Some, is_some, IfOk, IfErr, OnErr};
ghost use Rattle.kz_spec_data.specs.Tree.{migration_record};
ghost use Rattle.kz_spec_data.specs.Log.{end_of};
ghost use Rattle.kz_spec_machine.specs.Driver.{Driver as DriverValue};
ghost use Rattle.kz_spec_machine.specs.Machine.{next, driver_of, is_rollback, work};
ghost use Rattle.kz_spec_machine.specs.Sound.{Sound, IsLawful};
ghost use Rattle.kz_world_parts.specs.TurnStops.{AreUp, LeavesOneOf, failure_pairs};
ghost use Rattle.kz_world_parts.specs.Fences.{IsOfFenced, TellsFence};
ghost use Rattle.kz_spec_machine.specs.Failures.{is_failure, IsLeft};
ghost use Rattle.kz_world_parts.specs.Disks.{payloads_of};
ghost use Rattle.kz_world_parts.specs.EventDisks.{disks_in, ResultDisks, EventDisks};
ghost use Rattle.kz_world_parts.specs.Faults.{answer_of_fault};
ghost use Rattle.kz_world_parts.specs.EventStops.{EventLeaves};
ghost use Rattle.kz_world_parts.specs.Worlds.{WorldOver, world_of, plain_world, world_of_parts, AreKept, IsOutcome};
ghost use Rattle.kz_world.specs.Bounds.{ReadsForBound};

use crate::bound::{WorkFault, bound_at};
use crate::change::change;
use crate::checks::compare;
use crate::client::ask;
use crate::election::elect;
use crate::finalisation::finalise;
use crate::registration::register;
use crate::rollback::roll_back;
use crate::sessions::{expire, open};
use crate::single_steps::step_of;
use crate::snapshot::snapshot;
use crate::turns::turn_of;
use kz_log::{LogWire, MetaLog};
use kz_session::ZSessions;
use kz_tree::Wire;
use kz_types::{Answer, Event, NoMemory, Recorded, Sequence};
use kz_world_parts::{CountedView, EventFault, Parts, answered, declare, place_of, start, stop};
use std::alloc::Global;
use std::marker::Model;

/// A store of a tree, a store of a log, and the drivers of the controllers that run.
#[derive(Drop)]
pub struct World<T: ZSessions, L: MetaLog> {
    alloc: Global,
    parts: Parts<T, L>,
}

impl<T: ZSessions, L: MetaLog> Model for World<T, L> {
    ghost Value = { WorldOver T L };

    ghost view = { λ w. world_of_parts w.parts };

    ghost invariant = { λ w. AreKept L.log w.parts };
}

// Whether the event is a rollback, which alone answers a fault after it has changed a store.
fn is_rollback(event: &Event) -> bool
    ensures { result ≡ is_rollback event.now }
{
    matches!(event, Event::Rollback)
}

// What an event other than a rollback does to these parts. A step that fails, or is out of memory, is told by the last reply of its turn. At `Err`
// nothing has changed but the disks.
fn happen<T: ZSessions, L: MetaLog>(
    alloc: Global,
    parts: &mut Parts<T, L>,
    event: &Event,
) -> Result<Answer, EventFault>
    requires kept { AreKept L.log parts.old }
    requires lawful { IsLawful event.now }
    requires forward { is_rollback event.now ≡ false }
    ensures ok { Sound (world_of T.tree L.log parts.old) → IfOk result (IsOutcome (world_of T.tree L.log parts.old) event.now (world_of T.tree L.log parts.new)) }
    ensures kept { AreKept L.log parts.new }
    ensures err { OnErr result (world_of T.tree L.log parts.new ≡ world_of T.tree L.log parts.old) }
    ensures disks { Sound (world_of T.tree L.log parts.old) → ResultDisks (world_of T.tree L.log parts.old) event.now (payloads_of T.payload_bytes L.payload_bytes) result (disks_in T.disk L.disk (world_of_parts parts.old)) (disks_in T.disk L.disk (world_of_parts parts.new)) }
    ensures stop { Sound (world_of T.tree L.log parts.old) → EventLeaves (world_of T.tree L.log parts.old) event.now result (disks_in T.disk L.disk (world_of_parts parts.old)) (T.left parts.new.tree.inner) (L.left parts.new.log.inner) }
{
    match event {
        Event::Quorum { ids } => Ok(declare(alloc, parts, ids)?),
        Event::Start { controller } => Ok(start(alloc, parts, *controller)?),
        Event::Stop { controller } => Ok(stop(parts, *controller)),
        Event::Elect { controller, now } => elect(alloc, parts, *controller, *now),
        Event::Step {
            controller,
            now,
            plan,
        } => step_of(alloc, parts, *controller, *now, *plan),
        Event::Turn { controller, now } => turn_of(alloc, parts, *controller, *now),
        Event::Change {
            controller,
            records,
            now,
        } => change(alloc, parts, *controller, records.as_slice(), *now),
        Event::Register {
            controller,
            broker,
            migrating,
            now,
        } => register(alloc, parts, *controller, *broker, *migrating, *now),
        Event::Finalise { controller, now } => finalise(parts, *controller, *now),
        Event::Rollback => unreachable!(),
        Event::Snapshot => snapshot(alloc, parts),
        Event::Check => compare(alloc, parts),
        Event::ZkOpen { session } => open(parts, *session),
        Event::ZkExpire { session } => expire(parts, *session),
        Event::Zk { ops } => ask(alloc, parts, ops.as_slice()),
    }
}

// What an event does to these parts. At `Err` nothing has changed but the disks, or a rollback has reset the log.
fn let_happen<T: ZSessions, L: MetaLog>(
    alloc: Global,
    parts: &mut Parts<T, L>,
    event: &Event,
) -> Result<Answer, EventFault>
    requires kept { AreKept L.log parts.old }
    requires lawful { IsLawful event.now }
    ensures ok { Sound (world_of T.tree L.log parts.old) → IfOk result (IsOutcome (world_of T.tree L.log parts.old) event.now (world_of T.tree L.log parts.new)) }
    ensures kept { AreKept L.log parts.new }
    ensures err { IfErr result (λ fault. IsLeft (world_of T.tree L.log parts.old) event.now (answer_of_fault fault) (world_of T.tree L.log parts.new)) }
    ensures disks { Sound (world_of T.tree L.log parts.old) → ResultDisks (world_of T.tree L.log parts.old) event.now (payloads_of T.payload_bytes L.payload_bytes) result (disks_in T.disk L.disk (world_of_parts parts.old)) (disks_in T.disk L.disk (world_of_parts parts.new)) }
    ensures stop { Sound (world_of T.tree L.log parts.old) → EventLeaves (world_of T.tree L.log parts.old) event.now result (disks_in T.disk L.disk (world_of_parts parts.old)) (T.left parts.new.tree.inner) (L.left parts.new.log.inner) }
{
    if is_rollback(event) {
        roll_back(alloc, parts)
    } else {
        happen(alloc, parts, event)
    }
}

impl<T: ZSessions, L: MetaLog> World<T, L> {
    /// A world over these stores, with no controller declared and none running. It takes no memory.
    pub fn new(alloc: Global, tree: T, log: L) -> World<T, L>
        ensures { result ≡ record { tree = tree; log = log; declared = []; drivers = [] } }
    {
        World {
            alloc,
            parts: Parts {
                declared: Sequence::new(alloc),
                tree: Wire::new(tree),
                log: LogWire::new(log),
                view: CountedView::new(alloc),
                drivers: Vec::new(alloc),
            },
        }
    }

    /// Lets an event happen, and answers it. A refused event leaves the world as it was, but for a rollback whose multi passes the
    /// limit on transactions: it answers `TreeFailed` with that limit, and has reset the log. The event is one that a line of a script
    /// may give: its ids, times and sessions are in range.
    ///
    /// An event fails with `TreeFailed` or `LogFailed` where the disk below that store failed in this request or in an earlier
    /// one, or the store's file would pass its limit, and with `NoMemory`. It then leaves the world as it was, but for a turn
    /// whose step fails: the last reply of `Turn` tells the failure after the replies of the steps before it, and the world is
    /// as these left it. A rollback whose tree fails leaves the log reset, one that runs out of memory may, and a
    /// repeated one goes on. A request that the tree or the log refuses is an answer. Where neither store was down before, a stop
    /// after a failure finds the tree and the log from before the event, or those after one of its requests; after a turn, those
    /// from before its last step, or that step's.
    ///
    /// What follows is about a world that is sound, as every world of a run from the empty one is. An event keeps it
    /// sound. A step or a turn of a controller that another one has taken over from leaves the tree and the log.
    pub fn event(&mut self, event: &Event) -> Answer
        requires { IsLawful event.now }
        ensures next { Sound (plain_world T.tree L.log self.old) → is_failure result ≡ false → next (plain_world T.tree L.log self.old) event.now ≡ (plain_world T.tree L.log self.new, result) }
        ensures failed { Sound (plain_world T.tree L.log self.old) → is_failure result ≡ true → IsLeft (plain_world T.tree L.log self.old) event.now result (plain_world T.tree L.log self.new) }
        ensures sound { Sound (plain_world T.tree L.log self.old) → Sound (plain_world T.tree L.log self.new) }
        ensures disks { Sound (plain_world T.tree L.log self.old) → EventDisks (plain_world T.tree L.log self.old) event.now (payloads_of T.payload_bytes L.payload_bytes) result (disks_in T.disk L.disk self.old) (disks_in T.disk L.disk self.new) }
        ensures fenced { Sound (plain_world T.tree L.log self.old) → IsOfFenced (plain_world T.tree L.log self.old) event.now ⊎ TellsFence result → (plain_world T.tree L.log self.new).shared ≡ (plain_world T.tree L.log self.old).shared }
        ensures stop { Sound (plain_world T.tree L.log self.old) → AreUp (disks_in T.disk L.disk self.old) → is_failure result ≡ true
            → LeavesOneOf (failure_pairs (plain_world T.tree L.log self.old) event.now result) (T.left self.new.tree) (L.left self.new.log) }
    {
        answered(let_happen(self.alloc, &mut self.parts, event))
    }

    /// Whether this controller runs.
    pub fn runs(&self, id: i32) -> bool
        ensures { result ≡ is_some (driver_of id self.now.drivers) }
    {
        place_of(&self.parts.drivers, id).is_some()
    }

    /// The most steps of a turn of this controller, which has to run. A turn of a world whose base znodes no client deletes ends by
    /// itself within them. The log is read, and all metadata is rendered, or, before the migration, all znodes are translated.
    ///
    /// `Log` tells that the log's disk failed in an earlier request. A bound of 2^64 and more is answered `NoMemory`: its znodes
    /// would take more bytes than there are addresses.
    pub fn work(&mut self, id: i32) -> Result<u64, WorkFault>
        requires { is_some (driver_of id self.old.drivers) ≡ true }
        ensures ok { (d : DriverValue) → driver_of id self.old.drivers ≡ Some d → IfOk result (λ most. most ≡ work (plain_world T.tree L.log self.old).shared d) }
        ensures same { plain_world T.tree L.log self.new ≡ plain_world T.tree L.log self.old }
        ensures disks { ReadsForBound result (disks_in T.disk L.disk self.old) (disks_in T.disk L.disk self.new) }
    {
        match place_of(&self.parts.drivers, id) {
            Some(at) => bound_at(self.alloc, &mut self.parts, at),
            None => unreachable!(),
        }
    }

    /// The last transaction of the tree, 0 before the first.
    pub fn zxid(&self) -> i64
        ensures { result ≡ (plain_world T.tree L.log self.now).shared.tree.zxid }
    {
        self.parts.tree.inner().tree().last_zxid()
    }

    /// The last offset of the log, -1 where it is empty.
    pub fn end(&self) -> i64
        ensures { result ≡ end_of (plain_world T.tree L.log self.now).shared.log }
    {
        self.parts.log.inner().end()
    }

    /// What `/migration` records, where it is there and can be read.
    pub fn recorded(&self) -> Result<Option<Recorded>, NoMemory>
        ensures { IfOk result (λ told. told ≡ migration_record (plain_world T.tree L.log self.now).shared.tree) }
    {
        self.parts.tree.inner().tree().recorded()
    }

    /// Gives the two stores back, without memory.
    pub fn into_parts(self) -> (T, L)
        ensures tree { result.0 ≡ self.tree }
        ensures log { result.1 ≡ self.log }
    {
        let World { alloc: _, parts } = self;
        let Parts {
            declared: _,
            tree,
            log,
            view: _,
            drivers: _,
        } = parts;
        (tree.into_inner(), log.into_inner())
    }
}
