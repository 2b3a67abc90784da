//! ZK_MIGRATION: the znodes are read page by page, translated, and appended in a transaction.
ghost use Rattle.std.specs.Prelude.{◌≡◌, ◌++◌, ◌∷◌, [], ◌<◌, ◌≤ℤ◌, true, false, pos, List, ℤ, IfOk, OnErr, IsErrOf, Result, if◌then◌else◌, length, nat_lt};
ghost use Rattle.kz_types.specs.declared.limits.TheConstants.{MAX_SCAN_ROWS};
ghost use Rattle.kz_types.specs.declared.tree.Row.{Row as RowValue};
ghost use Rattle.kz_types.specs.declared.record.MetaRecord.{MetaRecord as MetaRecordValue};
ghost use Rattle.kz_types.specs.declared.driver.Stage.TheVariants as stage;
ghost use Rattle.kz_types.specs.declared.fault.LogFault.{LogFault as LogFaultValue};
ghost use Rattle.kz_types.specs.Order.{bytes_cmp};
ghost use Rattle.kz_types.specs.Ordered.{Rises};
ghost use Rattle.kz_spec_data.specs.Requests.{Append, Done, Either, IsTaken, ChangesDisk, ReadsDisk};
ghost use Rattle.kz_spec_data.specs.Tree.{Tree, scan, path_of_row};
ghost use Rattle.kz_spec_data.specs.Log.{Log, View as ViewValue, IsViewOf, append};
ghost use Rattle.kz_spec_data.specs.Translation.{translate};
ghost use Rattle.kz_spec_machine.specs.Driver.{epoch_or_zero, last_path, after_page, begin_record, commit_records, next_records, after_records, after_append, after_translation, is_limit, reaches};
ghost use Rattle.kz_requests.specs.Fares.{Fares, IsAfterRequest};
ghost use Rattle.kz_requests.specs.Appends.{IsAppendAnswer, log_after};
ghost use Rattle.kz_requests.specs.Disks.{answer_of_made, LogDisk, TreeDisk};
ghost use Rattle.kz_stages.specs.declared.row.Stage.TheVariants as held;
ghost use Rattle.kz_stages.specs.Drivers.{HasRisen, shared_of};
ghost use Rattle.kz_stages.specs.Migrations.{IsBegun, BeginFares, BeginDisk, BeginStop};
ghost use Rattle.kz_stages.specs.Rows.{driver_of, stage_of, KnowsSame};

use crate::row::{DriverRow, Stage, epoch_of, resign};
use kz_log::{LogWire, MetaLog};
use kz_reader::{ReadFault, translate};
use kz_requests::{StepFault, append, page};
use kz_resync::{Rest, Scan};
use kz_tree::{Wire, ZTree};
use kz_types::{
    LogFault, MAX_APPEND_RECORDS, MAX_SCAN_ROWS, MIGRATION, MetaRecord, NoMemory, Reply, Row, Text,
};
use std::alloc::Global;
use std::mem;

// ---- reading

/// The next page after the znodes that are read.
#[tactic(auto, using(crate::proofs::Pages::joined_rise))]
pub fn next_page<T: ZTree>(tree: &mut Wire<T>, pages: &Scan) -> Result<Vec<Row>, StepFault>
    requires { Rises bytes_cmp path_of_row pages.now }
    ensures page { IfOk result (λ page. page.items ≡ scan (T.tree tree.old.inner) (last_path pages.now) MAX_SCAN_ROWS) }
    ensures rising { IfOk result (λ page. Rises bytes_cmp path_of_row (pages.now ++ page.items)) }
    ensures same { T.tree tree.new.inner ≡ T.tree tree.old.inner }
    ensures fares { Fares false false result tree.old tree.new }
    ensures disk { TreeDisk ReadsDisk Done tree.old.plan result (T.disk tree.old.inner) (T.disk tree.new.inner) }
{
    page(tree, pages.last_path(), MAX_SCAN_ROWS)
}

// Reads the next page after the znodes that are read, and answers how many znodes it has, and whether it is the last one. At
// `Err` the znodes are as they were.
fn add_page<T: ZTree>(pages: &mut Scan, tree: &mut Wire<T>) -> Result<(usize, bool), StepFault>
    requires { Rises bytes_cmp path_of_row pages.old }
    ensures rising { Rises bytes_cmp path_of_row pages.new }
    ensures rows { IfOk result (λ read. pages.new ≡ pages.old ++ scan (T.tree tree.old.inner) (last_path pages.old) MAX_SCAN_ROWS) }
    ensures count { IfOk result (λ read. read.0 ≡ length (scan (T.tree tree.old.inner) (last_path pages.old) MAX_SCAN_ROWS)) }
    ensures last { IfOk result (λ read. read.1 ≡ nat_lt (length (scan (T.tree tree.old.inner) (last_path pages.old) MAX_SCAN_ROWS)) MAX_SCAN_ROWS) }
    ensures err { OnErr result (pages.new ≡ pages.old) }
    ensures same { T.tree tree.new.inner ≡ T.tree tree.old.inner }
    ensures fares { Fares false false result tree.old tree.new }
    ensures disk { TreeDisk ReadsDisk Done tree.old.plan result (T.disk tree.old.inner) (T.disk tree.new.inner) }
{
    let page = next_page(tree, pages)?;
    let count = page.len();
    let is_last = pages.take(page)?;
    Ok((count, is_last))
}

/// Reads the next page of the migrated area. At `Err` the driver is as it was.
pub fn scan_for_migration<T: ZTree>(
    row: &mut DriverRow,
    tree: &mut Wire<T>,
) -> Result<Reply, StepFault>
    requires { (rows : List RowValue) → row.old.stage ≡ held.ScanForMigration rows → Rises bytes_cmp path_of_row rows }
    ensures ok { (rows : List RowValue) → row.old.stage ≡ held.ScanForMigration rows → IfOk result (λ told.
        after_page rows (scan (T.tree tree.old.inner) (last_path rows) MAX_SCAN_ROWS) (λ all. stage.ScanForMigration all) (λ all. stage.BeginMigration all) (driver_of row.old) ≡ (driver_of row.new, told)) }
    ensures rising { (rows : List RowValue) → row.old.stage ≡ held.ScanForMigration rows → HasRisen (stage_of row.new.stage) }
    ensures view { row.new.view ≡ row.old.view }
    ensures err { OnErr result (row.new ≡ row.old) }
    ensures same { T.tree tree.new.inner ≡ T.tree tree.old.inner }
    ensures fares { (rows : List RowValue) → row.old.stage ≡ held.ScanForMigration rows → Fares false false result tree.old tree.new }
    ensures disk { (rows : List RowValue) → row.old.stage ≡ held.ScanForMigration rows → TreeDisk ReadsDisk Done tree.old.plan result (T.disk tree.old.inner) (T.disk tree.new.inner) }
    ensures id { row.new.id ≡ row.old.id }
{
    match mem::replace(&mut row.stage, Stage::ReadControlZnodes) {
        Stage::ScanForMigration { scan } => {
            let mut pages = scan;
            let read = add_page(&mut pages, tree);
            match read {
                Ok((count, true)) => {
                    row.stage = Stage::BeginMigration { scan: pages };
                    Ok(Reply::Read { rows: count })
                }
                Ok((count, false)) => {
                    row.stage = Stage::ScanForMigration { scan: pages };
                    Ok(Reply::Read { rows: count })
                }
                Err(fault) => {
                    row.stage = Stage::ScanForMigration { scan: pages };
                    Err(fault)
                }
            }
        }
        other => {
            row.stage = other;
            Ok(Reply::Idle)
        }
    }
}

// ---- appends

// A driver appends records, and is told the last offset or the refusal.
fn append_batch<L: MetaLog>(
    log: &mut LogWire<L>,
    driver: &DriverRow,
    now: i64,
    items: &[MetaRecord],
) -> Result<Result<i64, LogFault>, StepFault>
    requires some { 0 < length items.now }
    requires elected { pos 1 ≤ℤ epoch_or_zero driver.now.epoch }
    ensures said { IfOk result (IsAppendAnswer (append (L.log log.old.inner) (epoch_or_zero driver.now.epoch) now items.now)) }
    ensures log { IsAfterRequest (reaches log.old.plan true) (log_after (append (L.log log.old.inner) (epoch_or_zero driver.now.epoch) now items.now) (L.log log.old.inner)) (L.log log.old.inner) result (L.log log.new.inner) }
    ensures views { (v : ViewValue) → IsViewOf (L.log log.old.inner) v → IsViewOf (L.log log.new.inner) v }
    ensures fares { Fares true (is_limit (append (L.log log.old.inner) (epoch_or_zero driver.now.epoch) now items.now)) result log.old log.new }
    ensures disk { LogDisk (ChangesDisk (IsTaken (append (L.log log.old.inner) (epoch_or_zero driver.now.epoch) now items.now)) (L.payload_bytes (L.log log.old.inner) (Append (epoch_or_zero driver.now.epoch) now items.now)))
        (answer_of_made (append (L.log log.old.inner) (epoch_or_zero driver.now.epoch) now items.now)) log.old.plan result (L.disk log.old.inner) (L.disk log.new.inner) }
    ensures stop { IsErrOf result (StepFault.Log LogFault.Failed) → Either (L.log log.old.inner)
        (if reaches log.old.plan true then log_after (append (L.log log.old.inner) (epoch_or_zero driver.now.epoch) now items.now) (L.log log.old.inner) else L.log log.old.inner) (L.left log.new.inner) }
{
    append(log, epoch_of(driver), now, items)
}

// The driver after an append: at this stage, or where it was, or resigned where another controller leads.
fn after_append(row: &mut DriverRow, next: Stage, said: Result<i64, LogFault>) -> Reply
    ensures view { row.new.view ≡ row.old.view }
    ensures driver { (r : Result Log LogFaultValue) → IsAppendAnswer r said → after_append (stage_of next) (driver_of row.old) r ≡ (driver_of row.new, result) }
    ensures id { row.new.id ≡ row.old.id }
{
    match said {
        Ok(offset) => {
            row.stage = next;
            Reply::Appended { offset }
        }
        Err(LogFault::Stale { epoch }) => {
            resign(row);
            Reply::Stale { epoch }
        }
        Err(fault) => Reply::LogFailed(fault),
    }
}

// ---- beginning

// The record that begins the migration's transaction.
fn begin_records(alloc: Global) -> Result<Vec<MetaRecord>, NoMemory>
    ensures { IfOk result (λ records. records.items ≡ begin_record ∷ []) }
{
    let mut records = Vec::new(alloc);
    records.push(MetaRecord::BeginTransaction {
        name: Some(Text::from_str(alloc, "ZK Migration")?),
    })?;
    Ok(records)
}

// Begins the transaction of these records. At `Err` the driver is as it was.
fn begin_with<L: MetaLog>(
    alloc: Global,
    row: &mut DriverRow,
    log: &mut LogWire<L>,
    now: i64,
    records: Vec<MetaRecord>,
) -> Result<Reply, StepFault>
    requires { pos 1 ≤ℤ epoch_or_zero row.old.epoch }
    ensures driver { IfOk result (λ told. after_append (stage.AppendRecords records.items) (driver_of row.old) (append (L.log log.old.inner) (epoch_or_zero row.old.epoch) now (begin_record ∷ [])) ≡ (driver_of row.new, told)) }
    ensures log { IsAfterRequest (reaches log.old.plan true) (log_after (append (L.log log.old.inner) (epoch_or_zero row.old.epoch) now (begin_record ∷ [])) (L.log log.old.inner)) (L.log log.old.inner) result (L.log log.new.inner) }
    ensures view { row.new.view ≡ row.old.view }
    ensures views { (v : ViewValue) → IsViewOf (L.log log.old.inner) v → IsViewOf (L.log log.new.inner) v }
    ensures err { OnErr result (row.new ≡ row.old) }
    ensures fares { Fares true (is_limit (append (L.log log.old.inner) (epoch_or_zero row.old.epoch) now (begin_record ∷ []))) result log.old log.new }
    ensures disk { LogDisk (ChangesDisk (IsTaken (append (L.log log.old.inner) (epoch_or_zero row.old.epoch) now (begin_record ∷ []))) (L.payload_bytes (L.log log.old.inner) (Append (epoch_or_zero row.old.epoch) now (begin_record ∷ []))))
        (answer_of_made (append (L.log log.old.inner) (epoch_or_zero row.old.epoch) now (begin_record ∷ []))) log.old.plan result (L.disk log.old.inner) (L.disk log.new.inner) }
    ensures stop { IsErrOf result (StepFault.Log LogFault.Failed) → Either (L.log log.old.inner)
        (if reaches log.old.plan true then log_after (append (L.log log.old.inner) (epoch_or_zero row.old.epoch) now (begin_record ∷ [])) (L.log log.old.inner) else L.log log.old.inner) (L.left log.new.inner) }
    ensures id { row.new.id ≡ row.old.id }
{
    let first = begin_records(alloc)?;
    let said = append_batch(log, row, now, &first)?;
    let next = Stage::AppendRecords {
        records: Rest::new(records),
    };
    Ok(after_append(row, next, said))
}

/// Translates the znodes, and begins the transaction where they can be translated. At `Err` the driver is as it was.
pub fn begin_migration<L: MetaLog>(
    alloc: Global,
    row: &mut DriverRow,
    log: &mut LogWire<L>,
    now: i64,
) -> Result<Reply, StepFault>
    requires elected { pos 1 ≤ℤ epoch_or_zero row.old.epoch }
    requires risen { (rows : List RowValue) → row.old.stage ≡ held.BeginMigration rows → Rises bytes_cmp path_of_row rows }
    ensures driver { (rows : List RowValue) → row.old.stage ≡ held.BeginMigration rows → (t : Tree) (ids : List ℤ) → IfOk result (λ told.
        after_translation (shared_of t (L.log log.old.inner) ids) now (driver_of row.old) (translate rows) ≡ (driver_of row.new, told)) }
    ensures log { (rows : List RowValue) → row.old.stage ≡ held.BeginMigration rows → IsBegun (reaches log.old.plan true) (L.log log.old.inner) (epoch_or_zero row.old.epoch) now (translate rows) result (L.log log.new.inner) }
    ensures same { KnowsSame row.new row.old }
    ensures views { (v : ViewValue) → IsViewOf (L.log log.old.inner) v → IsViewOf (L.log log.new.inner) v }
    ensures err { OnErr result (row.new ≡ row.old) }
    ensures fares { (rows : List RowValue) → row.old.stage ≡ held.BeginMigration rows → BeginFares (L.log log.old.inner) (epoch_or_zero row.old.epoch) now (translate rows) result log.old log.new }
    ensures disk { (rows : List RowValue) → row.old.stage ≡ held.BeginMigration rows → BeginDisk L.payload_bytes (L.log log.old.inner) (epoch_or_zero row.old.epoch) now (translate rows) log.old.plan result (L.disk log.old.inner) (L.disk log.new.inner) }
    ensures stop { (rows : List RowValue) → row.old.stage ≡ held.BeginMigration rows → IsErrOf result (StepFault.Log LogFault.Failed) → BeginStop (reaches log.old.plan true) (L.log log.old.inner) (epoch_or_zero row.old.epoch) now (translate rows) (L.left log.new.inner) }
{
    let Stage::BeginMigration { scan } = &row.stage else {
        return Ok(Reply::Idle);
    };
    match translate(alloc, scan.rows()) {
        Ok(records) => begin_with(alloc, row, log, now, records),
        Err(ReadFault::Untranslatable { path, why }) => {
            row.stage = Stage::ScanForMigration {
                scan: Scan::new(alloc),
            };
            Ok(Reply::Untranslatable { path, why })
        }
        Err(ReadFault::NoMemory) => Err(StepFault::NoMemory),
    }
}

// ---- filling and ending

// The records that commit the migration.
fn commit_records(alloc: Global) -> Result<Vec<MetaRecord>, NoMemory>
    ensures { IfOk result (λ records. records.items ≡ commit_records) }
{
    let mut records = Vec::new(alloc);
    records.push(MetaRecord::ZkMigrationState { state: MIGRATION })?;
    records.push(MetaRecord::EndTransaction)?;
    Ok(records)
}

// The first records, as many as a batch has.
fn first_records(records: &[MetaRecord]) -> &[MetaRecord]
    requires { 0 < length records.now }
    ensures { result.now ≡ next_records records.entry.now }
{
    &records[..records.len().min(MAX_APPEND_RECORDS)]
}

// Appends the next batch, of these records or, where there are none, of those that commit.
fn append_next_batch<L: MetaLog>(
    alloc: Global,
    log: &mut LogWire<L>,
    driver: &DriverRow,
    now: i64,
    records: &[MetaRecord],
) -> Result<Result<i64, LogFault>, StepFault>
    requires { pos 1 ≤ℤ epoch_or_zero driver.now.epoch }
    ensures said { IfOk result (IsAppendAnswer (append (L.log log.old.inner) (epoch_or_zero driver.now.epoch) now (next_records records.now))) }
    ensures log { IsAfterRequest (reaches log.old.plan true) (log_after (append (L.log log.old.inner) (epoch_or_zero driver.now.epoch) now (next_records records.now)) (L.log log.old.inner)) (L.log log.old.inner) result (L.log log.new.inner) }
    ensures views { (v : ViewValue) → IsViewOf (L.log log.old.inner) v → IsViewOf (L.log log.new.inner) v }
    ensures fares { Fares true (is_limit (append (L.log log.old.inner) (epoch_or_zero driver.now.epoch) now (next_records records.now))) result log.old log.new }
    ensures disk { LogDisk (ChangesDisk (IsTaken (append (L.log log.old.inner) (epoch_or_zero driver.now.epoch) now (next_records records.now))) (L.payload_bytes (L.log log.old.inner) (Append (epoch_or_zero driver.now.epoch) now (next_records records.now))))
        (answer_of_made (append (L.log log.old.inner) (epoch_or_zero driver.now.epoch) now (next_records records.now))) log.old.plan result (L.disk log.old.inner) (L.disk log.new.inner) }
    ensures stop { IsErrOf result (StepFault.Log LogFault.Failed) → Either (L.log log.old.inner)
        (if reaches log.old.plan true then log_after (append (L.log log.old.inner) (epoch_or_zero driver.now.epoch) now (next_records records.now)) (L.log log.old.inner) else L.log log.old.inner) (L.left log.new.inner) }
{
    if records.is_empty() {
        let last = commit_records(alloc)?;
        append_batch(log, driver, now, &last)
    } else {
        append_batch(log, driver, now, first_records(records))
    }
}

// The stage after a batch of its records is appended.
fn later_batch(old: Stage) -> Stage
    ensures { (records : List MetaRecordValue) → old ≡ held.AppendRecords records → stage_of result ≡ after_records records }
{
    match old {
        Stage::AppendRecords { records } => {
            let mut rest = records;
            if rest.as_slice().is_empty() {
                return Stage::ReadLogForResync;
            }
            rest.finish(MAX_APPEND_RECORDS);
            Stage::AppendRecords { records: rest }
        }
        other => other,
    }
}

// The driver after a batch.
fn after_batch(row: &mut DriverRow, said: Result<i64, LogFault>) -> Reply
    ensures view { row.new.view ≡ row.old.view }
    ensures driver { (records : List MetaRecordValue) → row.old.stage ≡ held.AppendRecords records → (r : Result Log LogFaultValue) → IsAppendAnswer r said → after_append (after_records records) (driver_of row.old) r ≡ (driver_of row.new, result) }
    ensures id { row.new.id ≡ row.old.id }
{
    match said {
        Ok(offset) => {
            row.stage = later_batch(mem::replace(&mut row.stage, Stage::ReadLogForResync));
            Reply::Appended { offset }
        }
        Err(LogFault::Stale { epoch }) => {
            resign(row);
            Reply::Stale { epoch }
        }
        Err(fault) => Reply::LogFailed(fault),
    }
}

/// Appends the next batch, or the one that commits. At `Err` the driver is as it was.
pub fn append_records<L: MetaLog>(
    alloc: Global,
    row: &mut DriverRow,
    log: &mut LogWire<L>,
    now: i64,
) -> Result<Reply, StepFault>
    requires { pos 1 ≤ℤ epoch_or_zero row.old.epoch }
    ensures driver { (records : List MetaRecordValue) → row.old.stage ≡ held.AppendRecords records → IfOk result (λ told.
        after_append (after_records records) (driver_of row.old) (append (L.log log.old.inner) (epoch_or_zero row.old.epoch) now (next_records records)) ≡ (driver_of row.new, told)) }
    ensures log { (records : List MetaRecordValue) → row.old.stage ≡ held.AppendRecords records → IsAfterRequest (reaches log.old.plan true) (log_after (append (L.log log.old.inner) (epoch_or_zero row.old.epoch) now (next_records records)) (L.log log.old.inner)) (L.log log.old.inner) result (L.log log.new.inner) }
    ensures same { KnowsSame row.new row.old }
    ensures views { (v : ViewValue) → IsViewOf (L.log log.old.inner) v → IsViewOf (L.log log.new.inner) v }
    ensures err { OnErr result (row.new ≡ row.old) }
    ensures fares { (records : List MetaRecordValue) → row.old.stage ≡ held.AppendRecords records → Fares true (is_limit (append (L.log log.old.inner) (epoch_or_zero row.old.epoch) now (next_records records))) result log.old log.new }
    ensures disk { (records : List MetaRecordValue) → row.old.stage ≡ held.AppendRecords records → LogDisk (ChangesDisk (IsTaken (append (L.log log.old.inner) (epoch_or_zero row.old.epoch) now (next_records records))) (L.payload_bytes (L.log log.old.inner) (Append (epoch_or_zero row.old.epoch) now (next_records records))))
        (answer_of_made (append (L.log log.old.inner) (epoch_or_zero row.old.epoch) now (next_records records))) log.old.plan result (L.disk log.old.inner) (L.disk log.new.inner) }
    ensures stop { (records : List MetaRecordValue) → row.old.stage ≡ held.AppendRecords records → IsErrOf result (StepFault.Log LogFault.Failed) → Either (L.log log.old.inner)
        (if reaches log.old.plan true then log_after (append (L.log log.old.inner) (epoch_or_zero row.old.epoch) now (next_records records)) (L.log log.old.inner) else L.log log.old.inner) (L.left log.new.inner) }
{
    let Stage::AppendRecords { records } = &row.stage else {
        return Ok(Reply::Idle);
    };
    let said = append_next_batch(alloc, log, row, now, records.as_slice())?;
    Ok(after_batch(row, said))
}
