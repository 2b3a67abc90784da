//! SYNC_KRAFT_TO_ZK: the log is read, the migrated area is read page by page, and what differs from the rendering of the
//! metadata is written.
ghost use Rattle.std.specs.Prelude.{◌≡◌, ◌++◌, true, false, List, IfOk, OnOk, OnErr, map};
ghost use Rattle.kz_types.specs.declared.limits.TheConstants.{MAX_SCAN_ROWS};
ghost use Rattle.kz_types.specs.declared.tree.Row.{Row as RowValue};
ghost use Rattle.kz_types.specs.declared.machine.Recorded.{Recorded as RecordedValue};
ghost use Rattle.kz_types.specs.declared.driver.Stage.TheVariants as stage;
ghost use Rattle.kz_types.specs.Order.{bytes_cmp};
ghost use Rattle.kz_types.specs.Ordered.{Rises};
ghost use Rattle.kz_spec_data.specs.Requests.{Done, ReadsDisk};
ghost use Rattle.kz_spec_data.specs.Tree.{scan, rendered_row, path_of_row};
ghost use Rattle.kz_spec_data.specs.Log.{IsViewOf};
ghost use Rattle.kz_spec_data.specs.Rendering.{render};
ghost use Rattle.kz_spec_data.specs.Difference.{diff};
ghost use Rattle.kz_spec_machine.specs.Driver.{target_of, driver_at_log_end, after_log, last_path, after_page};
ghost use Rattle.kz_requests.specs.Fares.{Fares};
ghost use Rattle.kz_requests.specs.Disks.{LogDisk, TreeDisk};
ghost use Rattle.kz_stages.specs.declared.row.Stage.TheVariants as held;
ghost use Rattle.kz_stages.specs.Drivers.{IsElected, IsKept, HasRisen};
ghost use Rattle.kz_stages.specs.Rows.{driver_of, stage_of};

use crate::row::{DriverRow, Stage, is_finalised, read_log, resign};
use crate::zk_migration::next_page;
use kz_image::Image;
use kz_log::{LogWire, MetaLog, View};
use kz_render::render;
use kz_requests::StepFault;
use kz_resync::{Remaining, Scan};
use kz_tree::{Wire, ZTree};
use kz_types::{
    DriverState, Duplicate, MAX_SCAN_ROWS, NoMemory, Op, Recorded, Rendered, Reply, Row,
};
use kz_writer::diff_renderings;
use std::alloc::Global;
use std::mem;

// ---- the log

/// What will be recorded after a read of the log: its end, and the epoch of the last batch that was read, or the driver's
/// own where none was.
pub fn target_of(row: &DriverRow) -> Recorded
    ensures { result ≡ target_of (driver_of row.now) }
{
    let own = row.epoch.unwrap_or(0);
    let read = row.view.epoch();
    Recorded {
        id: row.id,
        controller_epoch: own,
        offset: row.view.position(),
        epoch: if read == 0 { own } else { read },
    }
}

// What follows the read of the log.
fn after_log(alloc: Global, row: &mut DriverRow) -> Reply
    ensures ok { after_log (driver_of row.old) ≡ (driver_of row.new, result) }
    ensures view { row.new.view ≡ row.old.view }
    ensures kept { IsElected row.old.epoch → IsKept row.new.epoch row.new.view (stage_of row.new.stage) }
    ensures id { row.new.id ≡ row.old.id }
{
    if is_finalised(row) {
        resign(row);
        return Reply::Moved(DriverState::Inactive);
    }
    row.stage = Stage::ScanForResync {
        target: target_of(row),
        scan: Scan::new(alloc),
    };
    Reply::Looked
}

/// Reads the log, whose end is the target, beside the latest view of it. At `Err` the driver is as it was.
pub fn read_log_for_resync<L: MetaLog>(
    alloc: Global,
    row: &mut DriverRow,
    log: &mut LogWire<L>,
    latest: &View,
) -> Result<Reply, StepFault>
    requires view { IsViewOf (L.log log.old.inner) row.old.view }
    requires latest { IsViewOf (L.log log.old.inner) latest.now }
    ensures ok { IfOk result (λ told. after_log (driver_at_log_end (L.log log.old.inner) (driver_of row.old)) ≡ (driver_of row.new, told)) }
    ensures kept { IsKept row.old.epoch row.old.view (stage_of row.old.stage) → row.old.stage ≡ held.ReadLogForResync → IsKept row.new.epoch row.new.view (stage_of row.new.stage) }
    ensures view { IsViewOf (L.log log.new.inner) row.new.view }
    ensures err { OnErr result (row.new ≡ row.old) }
    ensures same { L.log log.new.inner ≡ L.log log.old.inner }
    ensures fares { Fares true false result log.old log.new }
    ensures disk { LogDisk ReadsDisk Done log.old.plan result (L.disk log.old.inner) (L.disk log.new.inner) }
    ensures id { row.new.id ≡ row.old.id }
{
    read_log(row, log, latest)?;
    Ok(after_log(alloc, row))
}

// ---- reading

// The path and body of a znode.
fn rendered_row(alloc: Global, row: &Row) -> Result<Rendered, NoMemory>
    ensures { IfOk result (λ made. made ≡ rendered_row row.now) }
{
    Ok(Rendered {
        path: row.path.copy(alloc)?,
        body: row.body.copy(alloc)?,
    })
}

// The paths and bodies of further znodes.
fn push_rendered(alloc: Global, made: &mut Vec<Rendered>, rows: &[Row]) -> Result<(), NoMemory>
    ensures { OnOk result (made.new.items ≡ made.old.items ++ map rendered_row rows.now) }
{
    for row in rows {
        made.push(rendered_row(alloc, row)?)?;
    }
    Ok(())
}

// The paths and bodies of znodes and those after them.
fn all_rendered(alloc: Global, rows: &[Row], page: &[Row]) -> Result<Vec<Rendered>, NoMemory>
    ensures { IfOk result (λ made. made.items ≡ map rendered_row (rows.now ++ page.now)) }
{
    let mut made = Vec::new(alloc);
    push_rendered(alloc, &mut made, rows)?;
    push_rendered(alloc, &mut made, page)?;
    Ok(made)
}

// What is to be written where these are all znodes of the area.
#[tactic(auto, using(crate::proofs::Pages::rendered_rise))]
fn ops_to(alloc: Global, rows: &[Row], page: &[Row], image: &Image) -> Result<Vec<Op>, NoMemory>
    requires { Rises bytes_cmp path_of_row (rows.now ++ page.now) }
    ensures { IfOk result (λ ops. ops.items ≡ diff (map rendered_row (rows.now ++ page.now)) (render image.now)) }
{
    let have = all_rendered(alloc, rows, page)?;
    let want = render(alloc, image)?;
    diff_renderings(alloc, &have, &want)
}

// The driver that goes on with a page more. At `Err` nothing has changed.
fn take_page(row: &mut DriverRow, page: Vec<Row>) -> Result<(), NoMemory>
    requires { (target : RecordedValue) (rows : List RowValue) → row.old.stage ≡ held.ScanForResync target rows → Rises bytes_cmp path_of_row (rows ++ page.items) }
    ensures ok { (target : RecordedValue) (rows : List RowValue) → row.old.stage ≡ held.ScanForResync target rows → OnOk result (
        driver_of row.new ≡ record (driver_of row.old) { stage = stage.ScanForResync target (rows ++ page.items) }) }
    ensures rising { (target : RecordedValue) (rows : List RowValue) → row.old.stage ≡ held.ScanForResync target rows → OnOk result (HasRisen (stage_of row.new.stage)) }
    ensures err { OnErr result (row.new ≡ row.old) }
    ensures id { row.new.id ≡ row.old.id }
{
    match mem::replace(&mut row.stage, Stage::ReadControlZnodes) {
        Stage::ScanForResync { target, scan } => {
            let mut pages = scan;
            let taken = pages.take(page);
            row.stage = Stage::ScanForResync {
                target,
                scan: pages,
            };
            taken?;
        }
        other => row.stage = other,
    }
    Ok(())
}

// The driver that has read all znodes of the area, with this last page, and writes what differs. At `Err` nothing has changed.
fn end_scan(alloc: Global, row: &mut DriverRow, page: &[Row]) -> Result<(), NoMemory>
    requires { (target : RecordedValue) (rows : List RowValue) → row.old.stage ≡ held.ScanForResync target rows → Rises bytes_cmp path_of_row (rows ++ page.now) }
    ensures ok { (target : RecordedValue) (rows : List RowValue) → row.old.stage ≡ held.ScanForResync target rows → OnOk result (
        driver_of row.new ≡ record (driver_of row.old) { stage = stage.WriteResync target (diff (map rendered_row (rows ++ page.now)) (render row.old.view.image)) }) }
    ensures rising { (target : RecordedValue) (rows : List RowValue) → row.old.stage ≡ held.ScanForResync target rows → OnOk result (HasRisen (stage_of row.new.stage)) }
    ensures err { OnErr result (row.new ≡ row.old) }
    ensures id { row.new.id ≡ row.old.id }
{
    let Stage::ScanForResync { target, scan } = &row.stage else {
        return Ok(());
    };
    let ops = ops_to(alloc, scan.rows(), page, row.view.image())?;
    row.stage = Stage::WriteResync {
        remaining: Remaining::new(ops, *target),
    };
    Ok(())
}

// The driver after a page, which is the last one or not. At `Err` nothing has changed.
fn after_page(alloc: Global, row: &mut DriverRow, page: Vec<Row>) -> Result<Reply, NoMemory>
    requires { (target : RecordedValue) (rows : List RowValue) → row.old.stage ≡ held.ScanForResync target rows → Rises bytes_cmp path_of_row (rows ++ page.items) }
    ensures ok { (target : RecordedValue) (rows : List RowValue) → row.old.stage ≡ held.ScanForResync target rows → IfOk result (λ told.
        after_page rows page.items (λ all. stage.ScanForResync target all) (λ all. stage.WriteResync target (diff (map rendered_row all) (render row.old.view.image))) (driver_of row.old) ≡ (driver_of row.new, told)) }
    ensures rising { (target : RecordedValue) (rows : List RowValue) → row.old.stage ≡ held.ScanForResync target rows → OnOk result (HasRisen (stage_of row.new.stage)) }
    ensures err { OnErr result (row.new ≡ row.old) }
    ensures id { row.new.id ≡ row.old.id }
{
    let rows = page.len();
    if rows < MAX_SCAN_ROWS {
        end_scan(alloc, row, &page)?;
        return Ok(Reply::Read { rows });
    }
    take_page(row, page)?;
    Ok(Reply::Read { rows })
}

/// Reads the next page of the migrated area; after the last one, what differs is to be written. At `Err` the driver is as it
/// was.
pub fn scan_for_resync<T: ZTree>(
    alloc: Global,
    row: &mut DriverRow,
    tree: &mut Wire<T>,
) -> Result<Reply, StepFault>
    requires { (target : RecordedValue) (rows : List RowValue) → row.old.stage ≡ held.ScanForResync target rows → Rises bytes_cmp path_of_row rows }
    ensures ok { (target : RecordedValue) (rows : List RowValue) → row.old.stage ≡ held.ScanForResync target rows → IfOk result (λ told.
        after_page rows (scan (T.tree tree.old.inner) (last_path rows) MAX_SCAN_ROWS) (λ all. stage.ScanForResync target all) (λ all. stage.WriteResync target (diff (map rendered_row all) (render row.old.view.image))) (driver_of row.old) ≡ (driver_of row.new, told)) }
    ensures rising { (target : RecordedValue) (rows : List RowValue) → row.old.stage ≡ held.ScanForResync target rows → HasRisen (stage_of row.new.stage) }
    ensures err { OnErr result (row.new ≡ row.old) }
    ensures same { T.tree tree.new.inner ≡ T.tree tree.old.inner }
    ensures fares { (target : RecordedValue) (rows : List RowValue) → row.old.stage ≡ held.ScanForResync target rows → Fares false false result tree.old tree.new }
    ensures disk { (target : RecordedValue) (rows : List RowValue) → row.old.stage ≡ held.ScanForResync target rows → TreeDisk ReadsDisk Done tree.old.plan result (T.disk tree.old.inner) (T.disk tree.new.inner) }
    ensures id { row.new.id ≡ row.old.id }
{
    let Stage::ScanForResync { scan, .. } = &row.stage else {
        return Ok(Reply::Idle);
    };
    let page = next_page(tree, scan)?;
    Ok(after_page(alloc, row, page)?)
}
