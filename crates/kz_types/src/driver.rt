//! How far a migration driver has come.
use crate::{MetaRecord, Op, Recorded, Row, Sequence};

/// What a controller saw before its claim: the control znodes, and which base znodes are there, in path order.
#[derive(Drop)]
pub struct ClaimSeen {
    /// `/controller`
    pub control: Option<Row>,
    /// `/controller_epoch`
    pub epoch: Option<Row>,
    /// `/migration`
    pub migration: Option<Row>,
    /// The five base znodes.
    pub bases: [bool; 5],
}

/// The state of a driver with its part, and what the driver holds there.
#[derive(Drop)]
pub enum Stage {
    /// UNINITIALIZED
    Uninitialized,
    /// INACTIVE
    Inactive,
    /// WAIT_FOR_CONTROLLER_QUORUM
    WaitForControllerQuorum,
    /// WAIT_FOR_BROKERS, before the log is read
    WaitForBrokers,
    /// WAIT_FOR_BROKERS, before the brokers are listed
    ListBrokers,
    /// BECOME_CONTROLLER, before the look
    ReadControlZnodes,
    /// BECOME_CONTROLLER, before the claim
    ClaimLeadership {
        seen: ClaimSeen,
    },
    /// ZK_MIGRATION, reading: the znodes read so far
    ScanForMigration {
        rows: Sequence<Row>,
    },
    /// ZK_MIGRATION, beginning: all znodes
    BeginMigration {
        rows: Sequence<Row>,
    },
    /// ZK_MIGRATION, filling and, where there are none, ending: the records that are still to be appended
    AppendRecords {
        records: Sequence<MetaRecord>,
    },
    /// SYNC_KRAFT_TO_ZK, before the log is read
    ReadLogForResync,
    /// SYNC_KRAFT_TO_ZK, reading: what will be recorded, and the znodes read so far
    ScanForResync {
        target: Recorded,
        rows: Sequence<Row>,
    },
    /// SYNC_KRAFT_TO_ZK, writing: what will be recorded, and the operations that are still to be written
    WriteResync {
        target: Recorded,
        ops: Sequence<Op>,
    },
    /// KRAFT_CONTROLLER_TO_BROKER_COMM
    KraftControllerToBrokerComm,
    /// DUAL_WRITE, no write under way
    DualWrite,
    /// DUAL_WRITE, writing: what will be recorded, and the operations that are still to be written
    WriteDelta {
        target: Recorded,
        ops: Sequence<Op>,
    },
}
