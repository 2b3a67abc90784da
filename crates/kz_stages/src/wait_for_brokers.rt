//! WAIT_FOR_BROKERS: the log is read, and then the brokers are listed.
ghost use Rattle.std.specs.Prelude.{◌≡◌, true, false, IfOk, OnErr};
ghost use Rattle.kz_types.specs.declared.driver.Stage.TheVariants as stage;
ghost use Rattle.kz_types.specs.declared.machine.Reply.TheVariants as reply;
ghost use Rattle.kz_spec_data.specs.Requests.{Done, ReadsDisk};
ghost use Rattle.kz_spec_data.specs.Tree.{broker_ids};
ghost use Rattle.kz_spec_data.specs.Log.{IsViewOf};
ghost use Rattle.kz_spec_machine.specs.Driver.{driver_at_log_end, after_brokers, missing_broker, unless_finalised, at_stage};
ghost use Rattle.kz_requests.specs.Fares.{Fares};
ghost use Rattle.kz_requests.specs.Disks.{LogDisk, TreeDisk};
ghost use Rattle.kz_stages.specs.Rows.{driver_of};

use crate::row::{DriverRow, Stage, is_finalised, read_log, resign};
use kz_log::{LogWire, MetaLog, View};
use kz_ready::missing_broker;
use kz_requests::{StepFault, broker_ids};
use kz_tree::{Wire, ZTree};
use kz_types::{DriverState, Reply};

// What follows the read of the log.
fn after_log(row: &mut DriverRow) -> Reply
    ensures view { row.new.view ≡ row.old.view }
    ensures driver { unless_finalised (driver_of row.old) (at_stage stage.ListBrokers (driver_of row.old), reply.Looked) ≡ (driver_of row.new, result) }
    ensures id { row.new.id ≡ row.old.id }
{
    if is_finalised(row) {
        resign(row);
        return Reply::Moved(DriverState::Inactive);
    }
    row.stage = Stage::ListBrokers;
    Reply::Looked
}

/// Reads the log, beside the latest view of it. At `Err` the driver is as it was.
pub fn read_log_for_brokers<L: MetaLog>(
    row: &mut DriverRow,
    log: &mut LogWire<L>,
    latest: &View,
) -> Result<Reply, StepFault>
    requires view { IsViewOf (L.log log.old.inner) row.old.view }
    requires latest { IsViewOf (L.log log.old.inner) latest.now }
    ensures ok { IfOk result (λ told. unless_finalised (driver_at_log_end (L.log log.old.inner) (driver_of row.old)) (at_stage stage.ListBrokers (driver_at_log_end (L.log log.old.inner) (driver_of row.old)), reply.Looked) ≡ (driver_of row.new, told)) }
    ensures view { IsViewOf (L.log log.new.inner) row.new.view }
    ensures err { OnErr result (row.new ≡ row.old) }
    ensures same { L.log log.new.inner ≡ L.log log.old.inner }
    ensures fares { Fares true false result log.old log.new }
    ensures disk { LogDisk ReadsDisk Done log.old.plan result (L.disk log.old.inner) (L.disk log.new.inner) }
    ensures id { row.new.id ≡ row.old.id }
{
    read_log(row, log, latest)?;
    Ok(after_log(row))
}

/// Lists the brokers, and goes on where each is registered as ready to migrate. At `Err` the driver is as it was.
pub fn list_brokers<T: ZTree>(row: &mut DriverRow, tree: &mut Wire<T>) -> Result<Reply, StepFault>
    ensures ok { IfOk result (λ told. after_brokers (missing_broker (broker_ids (T.tree tree.old.inner)) row.old.view.image) (driver_of row.old) ≡ (driver_of row.new, told)) }
    ensures view { row.new.view ≡ row.old.view }
    ensures err { OnErr result (row.new ≡ row.old) }
    ensures same { T.tree tree.new.inner ≡ T.tree tree.old.inner }
    ensures fares { Fares false false result tree.old tree.new }
    ensures disk { TreeDisk ReadsDisk Done tree.old.plan result (T.disk tree.old.inner) (T.disk tree.new.inner) }
    ensures id { row.new.id ≡ row.old.id }
{
    let ids = broker_ids(tree)?;
    match missing_broker(&ids, row.view.image()) {
        Some(id) => {
            row.stage = Stage::WaitForBrokers;
            Ok(Reply::WaitBroker { id })
        }
        None => {
            row.stage = Stage::ReadControlZnodes;
            Ok(Reply::Moved(DriverState::BecomeController))
        }
    }
}
