//! WAIT_FOR_CONTROLLER_QUORUM
ghost use Rattle.std.specs.Prelude.{◌≡◌, true, false, IfOk, OnErr};
ghost use Rattle.kz_spec_data.specs.Requests.{Done, ReadsDisk};
ghost use Rattle.kz_spec_data.specs.Log.{IsViewOf};
ghost use Rattle.kz_spec_machine.specs.Driver.{driver_at_log_end, after_quorum};
ghost use Rattle.kz_requests.specs.Fares.{Fares};
ghost use Rattle.kz_requests.specs.Disks.{LogDisk};
ghost use Rattle.kz_stages.specs.Rows.{driver_of};

use crate::peers::Peers;
use crate::row::{DriverRow, Stage, is_finalised, read_log, resign};
use kz_log::{LogWire, MetaLog, View};
use kz_ready::missing_controller;
use kz_requests::StepFault;
use kz_types::{DriverState, MIGRATION, Reply};

// What follows the read of the log.
fn after_quorum(row: &mut DriverRow, peers: &Peers) -> Reply
    ensures view { row.new.view ≡ row.old.view }
    ensures driver { after_quorum peers.now.declared peers.now.running (driver_of row.old) ≡ (driver_of row.new, result) }
    ensures id { row.new.id ≡ row.old.id }
{
    if is_finalised(row) {
        resign(row);
        return Reply::Moved(DriverState::Inactive);
    }
    if row.view.image().state() == MIGRATION {
        row.stage = Stage::ReadControlZnodes;
        return Reply::Moved(DriverState::BecomeController);
    }
    match missing_controller(peers.declared.as_slice(), peers.running.as_slice()) {
        Some(id) => Reply::WaitQuorum { id },
        None => {
            row.stage = Stage::WaitForBrokers;
            Reply::Moved(DriverState::WaitForBrokers)
        }
    }
}

/// Reads the log, beside the latest view of it, and goes on where it is migrated or all declared controllers run. At `Err` the
/// driver is as it was.
pub fn wait_for_quorum<L: MetaLog>(
    row: &mut DriverRow,
    log: &mut LogWire<L>,
    latest: &View,
    peers: &Peers,
) -> Result<Reply, StepFault>
    requires view { IsViewOf (L.log log.old.inner) row.old.view }
    requires latest { IsViewOf (L.log log.old.inner) latest.now }
    ensures ok { IfOk result (λ told. after_quorum peers.now.declared peers.now.running (driver_at_log_end (L.log log.old.inner) (driver_of row.old)) ≡ (driver_of row.new, told)) }
    ensures view { IsViewOf (L.log log.new.inner) row.new.view }
    ensures err { OnErr result (row.new ≡ row.old) }
    ensures same { L.log log.new.inner ≡ L.log log.old.inner }
    ensures fares { Fares true false result log.old log.new }
    ensures disk { LogDisk ReadsDisk Done log.old.plan result (L.disk log.old.inner) (L.disk log.new.inner) }
    ensures id { row.new.id ≡ row.old.id }
{
    read_log(row, log, latest)?;
    Ok(after_quorum(row, peers))
}
