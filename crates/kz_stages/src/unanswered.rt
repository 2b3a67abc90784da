//! What follows where a request isn't answered.
ghost use Rattle.std.specs.Prelude.{◌≡◌, ◌≢◌, ℤ};
ghost use Rattle.kz_spec_machine.specs.Driver.{Shared, nothing, request_at, without_answer};
ghost use Rattle.kz_stages.specs.Drivers.{IsKept};
ghost use Rattle.kz_stages.specs.Rows.{driver_of, stage_of};

use crate::row::{DriverRow, Stage, begin_again, resign};

/// The driver whose request, if it made one, or its answer was lost, or whose session had expired: after a read of the log it
/// is as it was; after an append it resigns; without the list of brokers it reads the log again; and after any other request
/// of the tree it has no claim, and reads the control znodes.
pub fn go_on_without_answer(row: &mut DriverRow)
    requires { IsKept row.old.epoch row.old.view (stage_of row.old.stage) }
    ensures driver { (s : Shared) (now : ℤ) → request_at s now (driver_of row.old) (stage_of row.old.stage) ≢ nothing
        → driver_of row.new ≡ without_answer (request_at s now (driver_of row.old) (stage_of row.old.stage)) (driver_of row.old) }
    ensures view { row.new.view ≡ row.old.view }
    ensures kept { IsKept row.new.epoch row.new.view (stage_of row.new.stage) }
    ensures id { row.new.id ≡ row.old.id }
{
    match &row.stage {
        Stage::ListBrokers => row.stage = Stage::WaitForBrokers,
        Stage::BeginMigration { .. } => resign(row),
        Stage::AppendRecords { .. } => resign(row),
        Stage::ReadControlZnodes => begin_again(row),
        Stage::ClaimLeadership { .. } => begin_again(row),
        Stage::ScanForMigration { .. } => begin_again(row),
        Stage::ScanForResync { .. } => begin_again(row),
        Stage::WriteResync { .. } => begin_again(row),
        Stage::WriteDelta { .. } => begin_again(row),
        _ => {}
    }
}
