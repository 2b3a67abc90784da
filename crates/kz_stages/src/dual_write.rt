//! DUAL_WRITE, no write under way: the log is read, and what has changed is to be written.
ghost use Rattle.std.specs.Prelude.{◌≡◌, true, false, IfOk, OnOk, OnErr};
ghost use Rattle.kz_types.specs.declared.driver.Stage.TheVariants as stage;
ghost use Rattle.kz_spec_data.specs.Requests.{Done, ReadsDisk};
ghost use Rattle.kz_spec_data.specs.Log.{Log, IsViewOf, read_view};
ghost use Rattle.kz_spec_machine.specs.Driver.{at_stage, target_of, driver_at_log_end, is_recorded_at, after_rest};
ghost use Rattle.kz_view_delta.specs.Reads.{WasRead};
ghost use Rattle.kz_stages.specs.Drivers.{IsElected, IsKept};
ghost use Rattle.kz_requests.specs.Fares.{Fares};
ghost use Rattle.kz_requests.specs.Disks.{LogDisk};
ghost use Rattle.kz_stages.specs.declared.row.Stage.TheVariants as held;
ghost use Rattle.kz_stages.specs.Rows.{driver_of, stage_of};

use crate::row::{DriverRow, Stage, resign};
use crate::sync_kraft_to_zk::target_of;
use kz_image::Feed;
use kz_log::{LogWire, MetaLog, View};
use kz_requests::StepFault;
use kz_resync::Remaining;
use kz_types::{DriverState, NoMemory, Op, POST_MIGRATION, Reply};
use kz_view_delta::{delta, read_to_end};
use std::alloc::Global;

// Whether this offset was recorded last.
fn is_recorded_at(recorded: Option<i64>, offset: i64) -> bool
    ensures { result ≡ is_recorded_at recorded offset }
{
    match recorded {
        Some(last) => last == offset,
        None => false,
    }
}

// The driver that has read the log will write these operations.
fn begin_delta(row: &mut DriverRow, view: View, ops: Vec<Op>)
    ensures driver { (l : Log) → view ≡ read_view l row.old.view → at_stage (stage.WriteDelta (target_of (driver_at_log_end l (driver_of row.old))) ops.items) (driver_at_log_end l (driver_of row.old)) ≡ driver_of row.new }
    ensures view { row.new.view ≡ view }
    ensures kept { IsElected row.old.epoch → IsKept row.new.epoch row.new.view (stage_of row.new.stage) }
    ensures id { row.new.id ≡ row.old.id }
{
    row.view = view;
    row.stage = Stage::WriteDelta {
        remaining: Remaining::new(ops, target_of(row)),
    };
}

// What follows a read of the log to its end. At `Err` nothing has changed.
fn after_log_in_dual_write(
    alloc: Global,
    row: &mut DriverRow,
    feed: &Feed,
    view: View,
) -> Result<Reply, NoMemory>
    requires { WasRead row.old.view feed.now view }
    ensures ok { (l : Log) → view ≡ read_view l row.old.view → IfOk result (λ told. after_rest row.old.view.image (driver_at_log_end l (driver_of row.old)) ≡ (driver_of row.new, told)) }
    ensures view { OnOk result (row.new.view ≡ view) }
    ensures kept { IsKept row.old.epoch row.old.view (stage_of row.old.stage) → row.old.stage ≡ held.DualWrite → IsKept row.new.epoch row.new.view (stage_of row.new.stage) }
    ensures err { OnErr result (row.new ≡ row.old) }
    ensures id { row.new.id ≡ row.old.id }
{
    if view.image().state() == POST_MIGRATION {
        row.view = view;
        resign(row);
        return Ok(Reply::Moved(DriverState::Inactive));
    }
    if is_recorded_at(row.recorded, view.position()) {
        row.view = view;
        return Ok(Reply::Idle);
    }
    let ops = delta(alloc, &row.view, feed, &view)?;
    begin_delta(row, view, ops);
    Ok(Reply::Looked)
}

/// DUAL_WRITE, no write under way: the log is read beside the latest view of it. At `Err` nothing has changed.
pub fn read_log_in_dual_write<L: MetaLog>(
    alloc: Global,
    row: &mut DriverRow,
    log: &mut LogWire<L>,
    latest: &View,
) -> Result<Reply, StepFault>
    requires view { IsViewOf (L.log log.old.inner) row.old.view }
    requires latest { IsViewOf (L.log log.old.inner) latest.now }
    ensures ok { IfOk result (λ told. after_rest row.old.view.image (driver_at_log_end (L.log log.old.inner) (driver_of row.old)) ≡ (driver_of row.new, told)) }
    ensures kept { IsKept row.old.epoch row.old.view (stage_of row.old.stage) → row.old.stage ≡ held.DualWrite → IsKept row.new.epoch row.new.view (stage_of row.new.stage) }
    ensures view { IsViewOf (L.log log.new.inner) row.new.view }
    ensures err { OnErr result (row.new ≡ row.old) }
    ensures same { L.log log.new.inner ≡ L.log log.old.inner }
    ensures fares { Fares true false result log.old log.new }
    ensures disk { LogDisk ReadsDisk Done log.old.plan result (L.disk log.old.inner) (L.disk log.new.inner) }
    ensures id { row.new.id ≡ row.old.id }
{
    let (view, feed) = read_to_end(alloc, &row.view, log, latest)?;
    Ok(after_log_in_dual_write(alloc, row, &feed, view)?)
}
