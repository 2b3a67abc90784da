//! What a driver is and knows, and what every state does with it.
ghost use Rattle.std.specs.Prelude.{◌≡◌, OnOk, OnErr, true, false};
ghost use Rattle.std.specs.Ordering.{int_eq};
ghost use Rattle.kz_types.specs.declared.codes.TheConstants.{POST_MIGRATION};
ghost use Rattle.kz_spec_data.specs.Requests.{Done, ReadsDisk};
ghost use Rattle.kz_spec_data.specs.Log.{IsViewOf};
ghost use Rattle.kz_spec_machine.specs.Driver.{driver_at_log_end, epoch_or_zero, resigned_driver, begins_again, views_migrated};
ghost use Rattle.kz_requests.specs.Fares.{Fares};
ghost use Rattle.kz_requests.specs.Disks.{LogDisk};
ghost use Rattle.kz_stages.specs.Rows.{driver_of};

use kz_log::{LogWire, MetaLog, View};
use kz_requests::{StepFault, read};
use kz_resync::{Remaining, Rest, Scan};
use kz_types::{ClaimSeen, MIGRATION, MetaRecord, POST_MIGRATION, Recorded};

/// The state of a driver with its part, and what the driver holds there.
#[derive(Drop)]
pub enum Stage {
    /// UNINITIALIZED
    Uninitialized,
    /// INACTIVE
    Inactive,
    /// WAIT_FOR_CONTROLLER_QUORUM
    WaitForControllerQuorum,
    /// WAIT_FOR_BROKERS, before the log is read
    WaitForBrokers,
    /// WAIT_FOR_BROKERS, before the brokers are listed
    ListBrokers,
    /// BECOME_CONTROLLER, before the look
    ReadControlZnodes,
    /// BECOME_CONTROLLER, before the claim
    ClaimLeadership { seen: ClaimSeen },
    /// ZK_MIGRATION, reading
    ScanForMigration { scan: Scan },
    /// ZK_MIGRATION, beginning: all znodes are read
    BeginMigration { scan: Scan },
    /// ZK_MIGRATION, filling and, where no record is left, ending
    AppendRecords { records: Rest<MetaRecord> },
    /// SYNC_KRAFT_TO_ZK, before the log is read
    ReadLogForResync,
    /// SYNC_KRAFT_TO_ZK, reading: what will be recorded, and the znodes that are read
    ScanForResync { target: Recorded, scan: Scan },
    /// SYNC_KRAFT_TO_ZK, writing
    WriteResync { remaining: Remaining },
    /// KRAFT_CONTROLLER_TO_BROKER_COMM
    KraftControllerToBrokerComm,
    /// DUAL_WRITE, no write under way
    DualWrite,
    /// DUAL_WRITE, writing
    WriteDelta { remaining: Remaining },
}

/// The parts of a driver.
#[derive(Drop)]
pub struct DriverRow {
    /// The id of its controller.
    pub id: i32,
    /// Its epoch, where it was elected and hasn't resigned.
    pub epoch: Option<i32>,
    /// The data version of `/controller_epoch` that it made.
    pub claim: Option<i32>,
    /// Its state, with its part.
    pub stage: Stage,
    /// What it knows of the log.
    pub view: View,
    /// The offset that it recorded last.
    pub recorded: Option<i64>,
}

/// The driver has no epoch and no claim from now on, and does nothing until it is elected anew.
pub fn resign(row: &mut DriverRow)
    ensures driver { driver_of row.new ≡ resigned_driver (driver_of row.old) }
    ensures id { row.new.id ≡ row.old.id }
{
    row.epoch = None;
    row.claim = None;
    row.stage = Stage::Inactive;
}

/// The driver has no claim, and reads the control znodes next.
pub fn begin_again(row: &mut DriverRow)
    ensures driver { driver_of row.new ≡ begins_again (driver_of row.old) }
    ensures id { row.new.id ≡ row.old.id }
{
    row.claim = None;
    row.stage = Stage::ReadControlZnodes;
}

/// Whether the log says that the migration is over.
pub fn is_finalised(row: &DriverRow) -> bool
    ensures { result ≡ int_eq row.now.view.image.state POST_MIGRATION }
{
    row.view.image().state() == POST_MIGRATION
}

/// The epoch of a driver, 0 where it has none.
pub fn epoch_of(row: &DriverRow) -> i32
    ensures { result ≡ epoch_or_zero row.now.epoch }
{
    row.epoch.unwrap_or(0)
}

/// Whether the driver has read that the migration is committed.
pub fn views_migrated(row: &DriverRow) -> bool
    ensures { result ≡ views_migrated (driver_of row.now) }
{
    row.view.image().state() >= MIGRATION
}

/// Reads the log to its end. Where the latest view of the log stands there, its metadata are shared. At `Err` the driver is as it
/// was.
pub fn read_log<L: MetaLog>(
    row: &mut DriverRow,
    log: &mut LogWire<L>,
    latest: &View,
) -> Result<(), StepFault>
    requires view { IsViewOf (L.log log.old.inner) row.old.view }
    requires latest { IsViewOf (L.log log.old.inner) latest.now }
    ensures ok { OnOk result (driver_of row.new ≡ driver_at_log_end (L.log log.old.inner) (driver_of row.old)) }
    ensures view { IsViewOf (L.log log.new.inner) row.new.view }
    ensures err { OnErr result (row.new ≡ row.old) }
    ensures same { L.log log.new.inner ≡ L.log log.old.inner }
    ensures fares { Fares true false result log.old log.new }
    ensures disk { LogDisk ReadsDisk Done log.old.plan result (L.disk log.old.inner) (L.disk log.new.inner) }
    ensures id { row.new.id ≡ row.old.id }
{
    read(&mut row.view, log, latest)
}
