//! The driver of a controller.
ghost use Rattle.std.specs.Prelude.{◌≡◌, ◌≤ℤ◌, pos, IfSome};
ghost use Rattle.kz_spec_data.specs.Log.{IsViewOf};
ghost use Rattle.kz_spec_machine.specs.Driver.{Driver as DriverValue, state_of, new_driver, elected_driver};
ghost use Rattle.kz_stages.specs.Disks.{disks_of, payloads_of};
ghost use Rattle.kz_stages.specs.Drivers.{IsKept, after_uninitialized, after_broker_comm};
ghost use Rattle.kz_stages.specs.Rows.{driver_of, stage_of};
ghost use Rattle.kz_driver.specs.Steps.{shared_over, plan_over, made_request, IsStep, LeavesAll, KeepsViews, StepDisks, StopLeaves, Connections, IsFenced, StepFacts, StepEnd, reply_of_fault, GoesOnAfter, target_offset, remaining_ops};

use kz_log::{LogWire, MetaLog, View, views_stay};
use kz_requests::StepFault;
use kz_stages::{
    DriverRow, Peers, Stage, append_records, begin_migration, claim, go_on_without_answer,
    list_brokers, read_control_znodes, read_log_for_brokers, read_log_for_resync,
    read_log_in_dual_write, scan_for_migration, scan_for_resync, wait_for_quorum, write,
};
use kz_tree::{Wire, ZTree};
use kz_types::{DriverState, Op, Plan, Reply};
use std::alloc::Global;
use std::marker::Model;

/// The migration driver of a controller (KIP-866).
pub struct Driver {
    alloc: Global,
    row: DriverRow,
}

// Written out, so that it is proved here once: a derived one is proved in each crate that holds a driver.
impl Drop for Driver {
    fn drop(self) {
        let Driver {
            alloc: _,
            row: _row,
        } = self;
    }
}

impl Model for Driver {
    ghost Value = { DriverValue };

    ghost view = { λ d. driver_of d.row };

    ghost invariant = { λ d. IsKept d.row.epoch d.row.view (stage_of d.row.stage) };
}

impl Driver {
    /// The driver of this controller, before its first step: it was never elected and knows nothing.
    pub fn new(alloc: Global, id: i32) -> Self
        ensures { result ≡ new_driver id }
    {
        Driver {
            alloc,
            row: DriverRow {
                id,
                epoch: None,
                claim: None,
                stage: Stage::Uninitialized,
                view: View::new(alloc),
                recorded: None,
            },
        }
    }

    /// The id of its controller.
    pub fn id(&self) -> i32
        ensures { result ≡ self.now.id }
    {
        self.row.id
    }

    /// Its epoch, where it was elected and hasn't resigned.
    pub fn epoch(&self) -> Option<i32>
        ensures epoch { result ≡ self.now.epoch }
        ensures elected { IfSome result (λ epoch. pos 1 ≤ℤ epoch) }
    {
        self.row.epoch
    }

    /// The data version of `/controller_epoch` that it made, where it has claimed the tree.
    pub fn claim(&self) -> Option<i32>
        ensures { result ≡ self.now.claim }
    {
        self.row.claim
    }

    /// The offset that it recorded last, where it has recorded one.
    pub fn recorded(&self) -> Option<i64>
        ensures { result ≡ self.now.recorded }
    {
        self.row.recorded
    }

    /// Its state.
    pub fn state(&self) -> DriverState
        ensures { result ≡ state_of self.now.stage }
    {
        match &self.row.stage {
            Stage::Uninitialized => DriverState::Uninitialized,
            Stage::Inactive => DriverState::Inactive,
            Stage::WaitForControllerQuorum => DriverState::WaitForControllerQuorum,
            Stage::WaitForBrokers => DriverState::WaitForBrokers,
            Stage::ListBrokers => DriverState::WaitForBrokers,
            Stage::ReadControlZnodes => DriverState::BecomeController,
            Stage::ClaimLeadership { .. } => DriverState::BecomeController,
            Stage::ScanForMigration { .. } => DriverState::ZkMigration,
            Stage::BeginMigration { .. } => DriverState::ZkMigration,
            Stage::AppendRecords { .. } => DriverState::ZkMigration,
            Stage::ReadLogForResync => DriverState::SyncKraftToZk,
            Stage::ScanForResync { .. } => DriverState::SyncKraftToZk,
            Stage::WriteResync { .. } => DriverState::SyncKraftToZk,
            Stage::KraftControllerToBrokerComm => DriverState::KraftControllerToBrokerComm,
            Stage::DualWrite => DriverState::DualWrite,
            Stage::WriteDelta { .. } => DriverState::DualWrite,
        }
    }

    /// The offset of its target, which its writes record at their end, where it has one.
    pub fn target(&self) -> Option<i64>
        ensures { result ≡ target_offset self.now.stage }
    {
        match &self.row.stage {
            Stage::ScanForResync { target, .. } => Some(target.offset),
            Stage::WriteResync { remaining } => Some(remaining.target().offset),
            Stage::WriteDelta { remaining } => Some(remaining.target().offset),
            _ => None,
        }
    }

    /// Lends the operations that it has still to write.
    pub fn remaining(&self) -> &[Op]
        ensures { result.now ≡ remaining_ops self.now.stage }
    {
        match &self.row.stage {
            Stage::WriteResync { remaining } => remaining.ops(),
            Stage::WriteDelta { remaining } => remaining.ops(),
            _ => &[],
        }
    }

    /// Its controller is elected with this epoch. What it knows of the log stays.
    pub fn elected(&mut self, epoch: i32)
        requires { pos 1 ≤ℤ epoch }
        ensures { self.new ≡ elected_driver epoch self.old }
    {
        self.row.epoch = Some(epoch);
        self.row.claim = None;
        self.row.stage = Stage::WaitForControllerQuorum;
    }

    /// Lends what it knows of the log.
    pub fn view(&self) -> &View
        ensures { result.now ≡ self.now.view }
    {
        &self.row.view
    }

    /// One step: at most one request of the tree or the log, and what follows its answer, or where none comes. A refusal of the
    /// tree or the log is an answer, which the reply tells. `TreeFailed` and `LogFailed`: the disk below that store failed, in
    /// this step or in an earlier request, or its file is full; nothing has changed but the disks, and where a disk failed in
    /// this step, a stop leaves the tree or the log from before, or the one that the step would have made. `NoMemory` comes in
    /// no step of UNINITIALIZED, INACTIVE and KRAFT_CONTROLLER_TO_BROKER_COMM, and changes nothing. The plans of both
    /// connections are spent, whether a request was made or not.
    pub fn step<T: ZTree, L: MetaLog>(
        &mut self,
        tree: &mut Wire<T>,
        log: &mut LogWire<L>,
        peers: &Peers,
        now: i64,
    ) -> Reply
        requires { IsViewOf (L.log log.old.inner) self.old.view }
        ensures step { IsStep (plan_over tree.old log.old (made_request (shared_over T.tree L.log peers.now.declared tree.old log.old) now self.old self.old.stage)) (shared_over T.tree L.log peers.now.declared tree.old log.old) peers.now.running now self.old result
            (shared_over T.tree L.log peers.now.declared tree.new log.new) self.new }
        ensures failed { LeavesAll result (shared_over T.tree L.log peers.now.declared tree.old log.old) self.old (shared_over T.tree L.log peers.now.declared tree.new log.new) self.new }
        ensures views { KeepsViews (L.log log.old.inner) (L.log log.new.inner) self.old.id self.new }
        ensures disks { StepDisks (shared_over T.tree L.log peers.now.declared tree.old log.old) now self.old (payloads_of T.payload_bytes L.payload_bytes) (plan_over tree.old log.old (made_request (shared_over T.tree L.log peers.now.declared tree.old log.old) now self.old self.old.stage)) result
            (disks_of (T.disk tree.old.inner) (L.disk log.old.inner)) (disks_of (T.disk tree.new.inner) (L.disk log.new.inner)) }
        ensures stop { StopLeaves (plan_over tree.old log.old (made_request (shared_over T.tree L.log peers.now.declared tree.old log.old) now self.old self.old.stage)) (shared_over T.tree L.log peers.now.declared tree.old log.old) peers.now.running now self.old result (T.left tree.new.inner) (L.left log.new.inner) }
        ensures connections { Connections (made_request (shared_over T.tree L.log peers.now.declared tree.old log.old) now self.old self.old.stage) result tree.old tree.new log.old log.new }
        ensures fenced { IsFenced (shared_over T.tree L.log peers.now.declared tree.old log.old) self.old result (shared_over T.tree L.log peers.now.declared tree.new log.new) }
    {
        views_stay();
        let latest = View::new(self.alloc);
        self.step_beside(tree, log, peers, now, &latest)
    }

    /// One step, as `step` makes it. Where it reads the log and the latest view of it stands at its end, the metadata are those of that
    /// view, and no record is applied.
    pub fn step_beside<T: ZTree, L: MetaLog>(
        &mut self,
        tree: &mut Wire<T>,
        log: &mut LogWire<L>,
        peers: &Peers,
        now: i64,
        latest: &View,
    ) -> Reply
        requires view { IsViewOf (L.log log.old.inner) self.old.view }
        requires latest { IsViewOf (L.log log.old.inner) latest.now }
        ensures step { IsStep (plan_over tree.old log.old (made_request (shared_over T.tree L.log peers.now.declared tree.old log.old) now self.old self.old.stage)) (shared_over T.tree L.log peers.now.declared tree.old log.old) peers.now.running now self.old result
            (shared_over T.tree L.log peers.now.declared tree.new log.new) self.new }
        ensures failed { LeavesAll result (shared_over T.tree L.log peers.now.declared tree.old log.old) self.old (shared_over T.tree L.log peers.now.declared tree.new log.new) self.new }
        ensures views { KeepsViews (L.log log.old.inner) (L.log log.new.inner) self.old.id self.new }
        ensures disks { StepDisks (shared_over T.tree L.log peers.now.declared tree.old log.old) now self.old (payloads_of T.payload_bytes L.payload_bytes) (plan_over tree.old log.old (made_request (shared_over T.tree L.log peers.now.declared tree.old log.old) now self.old self.old.stage)) result
            (disks_of (T.disk tree.old.inner) (L.disk log.old.inner)) (disks_of (T.disk tree.new.inner) (L.disk log.new.inner)) }
        ensures stop { StopLeaves (plan_over tree.old log.old (made_request (shared_over T.tree L.log peers.now.declared tree.old log.old) now self.old self.old.stage)) (shared_over T.tree L.log peers.now.declared tree.old log.old) peers.now.running now self.old result (T.left tree.new.inner) (L.left log.new.inner) }
        ensures connections { Connections (made_request (shared_over T.tree L.log peers.now.declared tree.old log.old) now self.old self.old.stage) result tree.old tree.new log.old log.new }
        ensures fenced { IsFenced (shared_over T.tree L.log peers.now.declared tree.old log.old) self.old result (shared_over T.tree L.log peers.now.declared tree.new log.new) }
    {
        make_step(self.alloc, &mut self.row, tree, log, latest, peers, now)
    }
}

// One step of the driver with these parts. Its parts are kept.
fn make_step<T: ZTree, L: MetaLog>(
    alloc: Global,
    row: &mut DriverRow,
    tree: &mut Wire<T>,
    log: &mut LogWire<L>,
    latest: &View,
    peers: &Peers,
    now: i64,
) -> Reply
    requires kept { IsKept row.old.epoch row.old.view (stage_of row.old.stage) }
    requires view { IsViewOf (L.log log.old.inner) row.old.view }
    requires latest { IsViewOf (L.log log.old.inner) latest.now }
    ensures end { StepEnd T.tree L.log T.disk L.disk T.left L.left (payloads_of T.payload_bytes L.payload_bytes) peers.now.declared peers.now.running now (driver_of row.old) (driver_of row.new) result
        (plan_over tree.old log.old (made_request (shared_over T.tree L.log peers.now.declared tree.old log.old) now (driver_of row.old) (stage_of row.old.stage))) tree.old tree.new log.old log.new }
    ensures kept { IsKept row.new.epoch row.new.view (stage_of row.new.stage) }
{
    let outcome = step_row(alloc, row, tree, log, latest, peers, now);
    tree.plan(Plan::Deliver);
    log.plan(Plan::Deliver);
    match outcome {
        Ok(reply) => reply,
        Err(fault) => after_fault(row, fault),
    }
}

// The reply to a request without an answer, and the driver after it. Its parts are kept.
fn after_fault(row: &mut DriverRow, fault: StepFault) -> Reply
    requires { IsKept row.old.epoch row.old.view (stage_of row.old.stage) }
    ensures told { result ≡ reply_of_fault fault }
    ensures driver { GoesOnAfter fault (driver_of row.old) (driver_of row.new) }
    ensures view { row.new.view ≡ row.old.view }
    ensures kept { IsKept row.new.epoch row.new.view (stage_of row.new.stage) }
    ensures id { row.new.id ≡ row.old.id }
{
    match fault {
        StepFault::Lost => {
            go_on_without_answer(row);
            Reply::Lost
        }
        StepFault::Expired => {
            go_on_without_answer(row);
            Reply::Expired
        }
        StepFault::Tree(fault) => Reply::TreeFailed(fault),
        StepFault::Log(fault) => Reply::LogFailed(fault),
        StepFault::NoMemory => Reply::NoMemory,
    }
}

// UNINITIALIZED
fn become_inactive(row: &mut DriverRow) -> Reply
    ensures driver { after_uninitialized (driver_of row.old) ≡ (driver_of row.new, result) }
    ensures id { row.new.id ≡ row.old.id }
{
    row.stage = Stage::Inactive;
    Reply::Moved(DriverState::Inactive)
}

// KRAFT_CONTROLLER_TO_BROKER_COMM
fn inform_brokers(row: &mut DriverRow) -> Reply
    ensures driver { after_broker_comm (driver_of row.old) ≡ (driver_of row.new, result) }
    ensures id { row.new.id ≡ row.old.id }
{
    row.stage = Stage::DualWrite;
    Reply::Moved(DriverState::DualWrite)
}

// One step of the driver with these parts, but for what follows where its request isn't answered.
fn step_row<T: ZTree, L: MetaLog>(
    alloc: Global,
    row: &mut DriverRow,
    tree: &mut Wire<T>,
    log: &mut LogWire<L>,
    latest: &View,
    peers: &Peers,
    now: i64,
) -> Result<Reply, StepFault>
    requires kept { IsKept row.old.epoch row.old.view (stage_of row.old.stage) }
    requires view { IsViewOf (L.log log.old.inner) row.old.view }
    requires latest { IsViewOf (L.log log.old.inner) latest.now }
    ensures facts { StepFacts (shared_over T.tree L.log peers.now.declared tree.old log.old) (shared_over T.tree L.log peers.now.declared tree.new log.new) peers.now.running now (driver_of row.old) (driver_of row.new) (plan_over tree.old log.old (made_request (shared_over T.tree L.log peers.now.declared tree.old log.old) now (driver_of row.old) (stage_of row.old.stage))) result (payloads_of T.payload_bytes L.payload_bytes)
        (disks_of (T.disk tree.old.inner) (L.disk log.old.inner)) (disks_of (T.disk tree.new.inner) (L.disk log.new.inner)) (T.left tree.new.inner) (L.left log.new.inner)
        tree.old.faults tree.new.faults log.old.faults log.new.faults }
    ensures kept { IsKept row.new.epoch row.new.view (stage_of row.new.stage) }
    ensures views { KeepsViews (L.log log.old.inner) (L.log log.new.inner) row.old.id (driver_of row.new) }
{
    match &row.stage {
        Stage::Uninitialized => Ok(become_inactive(row)),
        Stage::Inactive => Ok(Reply::Idle),
        Stage::WaitForControllerQuorum => wait_for_quorum(row, log, latest, peers),
        Stage::WaitForBrokers => read_log_for_brokers(row, log, latest),
        Stage::ListBrokers => list_brokers(row, tree),
        Stage::ReadControlZnodes => read_control_znodes(alloc, row, tree),
        Stage::ClaimLeadership { .. } => claim(alloc, row, tree, now),
        Stage::ScanForMigration { .. } => scan_for_migration(row, tree),
        Stage::BeginMigration { .. } => begin_migration(alloc, row, log, now),
        Stage::AppendRecords { .. } => append_records(alloc, row, log, now),
        Stage::ReadLogForResync => read_log_for_resync(alloc, row, log, latest),
        Stage::ScanForResync { .. } => scan_for_resync(alloc, row, tree),
        Stage::WriteResync { .. } => write(alloc, row, tree),
        Stage::KraftControllerToBrokerComm => Ok(inform_brokers(row)),
        Stage::DualWrite => read_log_in_dual_write(alloc, row, log, latest),
        Stage::WriteDelta { .. } => write(alloc, row, tree),
    }
}
