//! What a script asks of the machine, and what it answers.
use crate::{LogFault, MetaRecord, Op, Plan, ReadWhy, Sequence, TreeFault, ZPath};

/// The states of a migration driver.
/// The names are those of KIP-866.
#[derive(Clone, Copy, Debug, PartialEq, Eq)]
pub enum DriverState {
    /// It has just been started. Its first step makes it inactive.
    Uninitialized,
    /// Its controller isn't elected, or has resigned. It does nothing.
    Inactive,
    /// It is elected. It waits until each declared controller runs, unless the log shows a committed migration.
    WaitForControllerQuorum,
    /// It waits until each broker below `/brokers/ids` is registered in the log as ready to migrate.
    WaitForBrokers,
    /// It looks at the control znodes, and claims ZooKeeper.
    BecomeController,
    /// It reads the migrated area, and appends what it translates to as one transaction of the log.
    ZkMigration,
    /// It reads the log, and makes the migrated area the rendering of the metadata at the log's end.
    SyncKraftToZk,
    /// ZooKeeper is as the metadata was. In Kafka the brokers are told now. Here nothing is sent, and the next step
    /// goes on.
    KraftControllerToBrokerComm,
    /// It writes each change of the metadata to ZooKeeper, too.
    DualWrite,
}

/// What `/migration` records: which controller wrote the tree last, and up to which offset of the log.
#[derive(Clone, Copy, Debug, PartialEq, Eq)]
pub struct Recorded {
    /// The controller's id.
    pub id: i32,
    /// The controller's epoch.
    pub controller_epoch: i32,
    /// The offset, or -1 before the first.
    pub offset: i64,
    /// The epoch of the log there, or -1 before the first offset.
    pub epoch: i32,
}

/// What a step of a driver answers.
#[derive(Drop)]
pub enum Reply {
    /// There is nothing to do.
    Idle,
    /// A declared controller isn't running.
    WaitQuorum { id: i32 },
    /// A broker isn't registered as migrating.
    WaitBroker { id: i32 },
    /// The driver is in this state now.
    Moved(DriverState),
    /// The driver has looked at the log or the tree.
    Looked,
    /// The driver has claimed the tree: `/controller_epoch` holds this number.
    Claimed { zk_epoch: i32 },
    /// The driver has read a page of so many znodes.
    Read { rows: usize },
    /// The driver has appended records up to this offset.
    Appended { offset: i64 },
    /// The driver has written so many operations, and has more to write.
    Wrote { ops: usize },
    /// The driver has written the tree up to this offset, and recorded it.
    Recorded { offset: i64 },
    /// Another controller of this higher epoch holds the tree.
    FencedEpoch { epoch: i32 },
    /// Another controller has claimed the tree since this claim.
    FencedWrite { claim: i32 },
    /// Another controller of this epoch leads the log.
    Stale { epoch: i32 },
    /// This znode can't be translated.
    Untranslatable { path: ZPath, why: ReadWhy },
    /// A limit of this znode would be passed.
    Limit { path: ZPath },
    /// The request or its answer was lost.
    Lost,
    /// The session had expired, so the request wasn't taken.
    Expired,
    /// The tree's store failed.
    TreeFailed(TreeFault),
    /// The log's store failed.
    LogFailed(LogFault),
    /// Memory ran out.
    NoMemory,
}

/// A path at which the tree is ahead of its recorded offset, and the first later batch end at which it agrees.
#[derive(Drop)]
pub struct AheadPath {
    /// The path.
    pub path: ZPath,
    /// The batch end.
    pub offset: i64,
}

/// How the tree and the log agree.
#[derive(Drop)]
pub enum Verdict {
    /// The log isn't migrated.
    Unmigrated,
    /// No offset is recorded.
    Unrecorded,
    /// The tree is as rendered at the recorded offset, with no write since.
    Closed {
        offset: i64,
    },
    /// A write is under way: these paths differ from the recorded offset.
    Ahead {
        offset: i64,
        paths: Sequence<AheadPath>,
    },
    /// The tree agrees with no batch end at this path.
    Disagrees {
        path: ZPath,
    },
}

/// What a line of a script asks for. Ids are at least 0, and `now` is a time of at least 0.
/// `now` counts milliseconds since the beginning of 1970 in UTC, as Kafka's timestamps do. It is the time of the batch
/// that an event appends, and of `/controller` where a turn claims ZooKeeper. Nothing else depends on it.
#[derive(Drop)]
pub enum Event {
    /// Declares the controllers.
    Quorum {
        ids: Sequence<i32>,
    },
    /// Starts a controller.
    Start {
        controller: i32,
    },
    /// Stops a controller, or all of them where none is named.
    Stop {
        controller: Option<i32>,
    },
    /// Elects a controller as the leader of the log.
    Elect {
        controller: i32,
        now: i64,
    },
    /// Lets a controller's driver make steps until it waits or rests.
    Turn {
        controller: i32,
        now: i64,
    },
    /// Lets a controller's driver make one step, whose request fares by this plan.
    Step {
        controller: i32,
        now: i64,
        plan: Plan,
    },
    /// Asks a controller to append these records, of which there is at least one.
    Change {
        controller: i32,
        records: Sequence<MetaRecord>,
        now: i64,
    },
    /// Asks a controller to register a broker, which is ready to migrate or isn't.
    Register {
        controller: i32,
        broker: i32,
        migrating: bool,
        now: i64,
    },
    /// Asks a controller to finalise the migration: ZooKeeper is written no more from then on.
    Finalise {
        controller: i32,
        now: i64,
    },
    /// Takes the migration back: the log is reset, and ZooKeeper is given back.
    Rollback,
    /// Cuts the log at the offset that is recorded: up to it, the log is its metadata alone from then on.
    Snapshot,
    /// Compares the tree with the log.
    Check,
    /// A ZooKeeper session begins. Sessions are at least 1.
    ZkOpen {
        session: i64,
    },
    /// A ZooKeeper session ends, and its ephemeral znodes with it.
    ZkExpire {
        session: i64,
    },
    /// A multi of a ZooKeeper client, of at least one operation.
    Zk {
        ops: Sequence<Op>,
    },
}

/// What the machine answers an event.
#[derive(Drop)]
pub enum Answer {
    /// It is done.
    Done,
    /// It is done, with this transaction of the tree.
    DoneAt { zxid: i64 },
    /// The controller leads with this epoch, and the log ends at this offset.
    Elected { epoch: i32, offset: i64 },
    /// The reply of a step.
    Step(Reply),
    /// The replies of a turn's steps.
    Turn(Sequence<Reply>),
    /// The records are in the log, up to this offset.
    Appended { offset: i64 },
    /// The migration is taken back.
    RolledBack,
    /// How the tree and the log agree.
    Check(Verdict),
    /// This controller runs, the least one.
    Running { id: i32 },
    /// The controller isn't declared.
    UnknownController,
    /// The controller runs already.
    AlreadyRunning,
    /// The controller doesn't run.
    NotRunning,
    /// The controller was never elected, or has resigned.
    NotLeader,
    /// The log has this epoch, and the controller another.
    Stale { epoch: i32 },
    /// A transaction of the log has been open since this offset.
    InTransaction { offset: i64 },
    /// The migration isn't committed.
    NotMigrated,
    /// The migration is over.
    Finalised,
    /// The controller's driver is in this state, and not in dual write.
    NotDualWrite { state: DriverState },
    /// The tree isn't closed: this znode was written, or its children were, after what is recorded.
    Unclosed { path: ZPath },
    /// This offset is recorded, and the log ends at another.
    Behind { recorded: i64, end: i64 },
    /// The log can't be cut at what is recorded.
    TooEarly,
    /// The record at this index breaks the rule of this number.
    BadRecord { index: usize, why: u8 },
    /// The limit of this number would be passed.
    Over { number: u8 },
    /// The session is live already.
    Known,
    /// The session isn't live.
    Unknown,
    /// This znode is kept for controllers.
    Reserved { path: ZPath },
    /// This znode is kept from ZooKeeper clients while a KRaft controller holds the tree.
    KraftHolds { path: ZPath },
    /// The operation at this index is refused with ZooKeeper's code.
    Refused { index: usize, code: i32 },
    /// The operation at this index would pass the limit of this number.
    OverOp { index: usize, number: u8 },
    /// The tree's store failed.
    TreeFailed(TreeFault),
    /// The log's store failed.
    LogFailed(LogFault),
    /// Memory ran out.
    NoMemory,
}
