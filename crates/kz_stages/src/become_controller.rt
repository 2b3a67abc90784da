//! BECOME_CONTROLLER: the control and base znodes are read, and then the tree is claimed.
ghost use Rattle.std.specs.Prelude.{◌≡◌, ◌∷◌, ◌<◌, ℕ, false, IfOk, OnErr, IsErrOf, Err, if◌then◌else◌, is_some, map, length};
ghost use Rattle.kz_types.specs.declared.driver.ClaimSeen.{ClaimSeen as ClaimSeenValue};
ghost use Rattle.kz_types.specs.declared.fault.TreeFault.TheVariants.{Limit};
ghost use Rattle.kz_types.specs.Paths.{base_paths};
ghost use Rattle.kz_spec_data.specs.Control.{control_path, epoch_path, migration_path};
ghost use Rattle.kz_spec_data.specs.Requests.{Multi, Done, Either, IsTaken, ChangesDisk, ReadsDisk};
ghost use Rattle.kz_spec_data.specs.Tree.{Tree as TreeValue, look, multi};
ghost use Rattle.kz_spec_machine.specs.Driver.{epoch_or_zero, seen_in, after_look, views_migrated, claim_ops, reaches};
ghost use Rattle.kz_fence.specs.Checks.{claim_fault, CanRise, CanClaim};
ghost use Rattle.kz_requests.specs.Fares.{Fares, IsAfterRequest, tree_after};
ghost use Rattle.kz_requests.specs.Disks.{answer_of_made, TreeDisk};
ghost use Rattle.kz_stages.specs.declared.row.Stage.TheVariants as held;
ghost use Rattle.kz_stages.specs.Checks.{bad_epoch_reply, after_check, StageCanClaim};
ghost use Rattle.kz_stages.specs.Claims.{claimer_of, claim_outcome, after_claim_outcome};
ghost use Rattle.kz_stages.specs.Rows.{driver_of, stage_of};

use crate::row::{DriverRow, Stage, begin_again, epoch_of, resign, views_migrated};
use kz_fence::{ClaimFault, Claimer, check_claim, claim_ops, claimed_number, claimed_version};
use kz_paths::{control_and_base_paths, epoch_path};
use kz_requests::{StepFault, multi, path_at, rows_at};
use kz_resync::Scan;
use kz_tree::{Wire, ZTree};
use kz_types::{
    BodyFault, ClaimSeen, DriverState, NoMemory, Op, ReadWhy, Reply, Row, Text, TreeFault,
};
use std::alloc::Global;

/// What the driver says of itself in a claim at a time.
pub fn claimer_of(driver: &DriverRow, now: i64) -> Claimer
    ensures { result ≡ claimer_of (driver_of driver.now) now }
{
    Claimer {
        id: driver.id,
        epoch: epoch_of(driver),
        now,
        migrated: views_migrated(driver),
    }
}

// ---- the look

// Which of these znodes are there.
fn are_there(rows: &[Option<Row>]) -> [bool; 5]
    requires { length rows.now ≡ 5 }
    ensures { result ≡ map is_some rows.now }
{
    [
        rows[0].is_some(),
        rows[1].is_some(),
        rows[2].is_some(),
        rows[3].is_some(),
        rows[4].is_some(),
    ]
}

// What is seen where these are the control and base znodes.
fn seen_of(mut rows: Vec<Option<Row>>) -> ClaimSeen
    requires { length rows.items ≡ 8 }
    ensures { (t : TreeValue) → rows.items ≡ look t (control_path ∷ epoch_path ∷ migration_path ∷ base_paths) → result ≡ seen_in t }
{
    let control = rows.remove(0);
    let epoch = rows.remove(0);
    let migration = rows.remove(0);
    ClaimSeen {
        control,
        epoch,
        migration,
        bases: are_there(&rows),
    }
}

// The control and base znodes as they stand.
fn look<T: ZTree>(alloc: Global, tree: &mut Wire<T>) -> Result<ClaimSeen, StepFault>
    ensures ok { IfOk result (λ seen. seen ≡ seen_in (T.tree tree.old.inner)) }
    ensures same { T.tree tree.new.inner ≡ T.tree tree.old.inner }
    ensures fares { Fares false false result tree.old tree.new }
    ensures disk { TreeDisk ReadsDisk Done tree.old.plan result (T.disk tree.old.inner) (T.disk tree.new.inner) }
{
    let paths = control_and_base_paths(alloc)?;
    let rows = rows_at(tree, &paths)?;
    Ok(seen_of(rows))
}

// What is told of a body of `/controller_epoch` that is no number.
fn bad_epoch_reply(alloc: Global) -> Result<Reply, NoMemory>
    ensures { IfOk result (λ told. told ≡ bad_epoch_reply) }
{
    Ok(Reply::Untranslatable {
        path: epoch_path(alloc)?,
        why: ReadWhy::Body(BodyFault::BadField {
            field: Text::from_str(alloc, "controller_epoch")?,
        }),
    })
}

// The driver that goes on to its claim, or what stands against it. At `Err` nothing has changed.
fn after_look(alloc: Global, row: &mut DriverRow, seen: ClaimSeen) -> Result<Reply, NoMemory>
    ensures ok { IfOk result (λ told. after_check (claim_fault seen (epoch_or_zero row.old.epoch) (views_migrated (driver_of row.old))) seen (driver_of row.old) ≡ (driver_of row.new, told)) }
    ensures can { row.old.stage ≡ held.ReadControlZnodes → IfOk result (λ told. StageCanClaim row.new.epoch row.new.view (stage_of row.new.stage)) }
    ensures view { row.new.view ≡ row.old.view }
    ensures err { OnErr result (row.new ≡ row.old) }
    ensures id { row.new.id ≡ row.old.id }
{
    // The check asks for no time.
    match check_claim(alloc, &seen, &claimer_of(row, 0)) {
        Ok(()) => {
            row.stage = Stage::ClaimLeadership { seen };
            Ok(Reply::Looked)
        }
        Err(ClaimFault::HigherEpoch { epoch }) => {
            resign(row);
            Ok(Reply::FencedEpoch { epoch })
        }
        Err(ClaimFault::BadEpochBody) => Ok(bad_epoch_reply(alloc)?),
        Err(ClaimFault::Limit { path }) => Ok(Reply::Limit { path }),
        Err(ClaimFault::NoMemory) => Err(NoMemory),
    }
}

/// Reads the control and base znodes. At `Err` the driver is as it was.
pub fn read_control_znodes<T: ZTree>(
    alloc: Global,
    row: &mut DriverRow,
    tree: &mut Wire<T>,
) -> Result<Reply, StepFault>
    ensures ok { IfOk result (λ told. after_look (seen_in (T.tree tree.old.inner)) (driver_of row.old) ≡ (driver_of row.new, told)) }
    ensures can { row.old.stage ≡ held.ReadControlZnodes → IfOk result (λ told. StageCanClaim row.new.epoch row.new.view (stage_of row.new.stage)) }
    ensures view { row.new.view ≡ row.old.view }
    ensures err { OnErr result (row.new ≡ row.old) }
    ensures same { T.tree tree.new.inner ≡ T.tree tree.old.inner }
    ensures fares { Fares false false result tree.old tree.new }
    ensures disk { TreeDisk ReadsDisk Done tree.old.plan result (T.disk tree.old.inner) (T.disk tree.new.inner) }
    ensures id { row.new.id ≡ row.old.id }
{
    let seen = look(alloc, tree)?;
    Ok(after_look(alloc, row, seen)?)
}

// ---- the claim

/// What became of a claim.
#[derive(Drop)]
pub enum ClaimOutcome {
    /// The tree is claimed: the number and the data version of `/controller_epoch`.
    Done { number: i32, version: i32 },
    /// The tree wasn't as it was seen.
    Refused,
    /// The driver stays as it is, and tells why.
    Stopped { told: Reply },
}

// What became of a claim that this fault stops.
fn outcome_of_fault(alloc: Global, ops: &[Op], fault: TreeFault) -> Result<ClaimOutcome, NoMemory>
    requires { (index number : ℕ) → fault ≡ Limit index number → index < length ops.now }
    ensures { (seen : ClaimSeenValue) → IfOk result (λ claimed. claimed ≡ claim_outcome seen ops.now (Err fault)) }
{
    match fault {
        TreeFault::Refused { .. } => Ok(ClaimOutcome::Refused),
        TreeFault::Limit { index, .. } => Ok(ClaimOutcome::Stopped {
            told: Reply::Limit {
                path: path_at(alloc, ops, index)?,
            },
        }),
        other => Ok(ClaimOutcome::Stopped {
            told: Reply::TreeFailed(other),
        }),
    }
}

// The operations of a claim of what was seen. The check at the look found nothing against it, so it isn't refused.
fn ops_of_claim(
    alloc: Global,
    driver: &DriverRow,
    seen: &ClaimSeen,
    now: i64,
) -> Result<Vec<Op>, NoMemory>
    requires { CanClaim seen.now (epoch_or_zero driver.now.epoch) (views_migrated (driver_of driver.now)) }
    ensures { IfOk result (λ ops. ops.items ≡ claim_ops seen.now (driver_of driver.now) now) }
{
    match claim_ops(alloc, seen, &claimer_of(driver, now)) {
        Ok(ops) => Ok(ops),
        Err(ClaimFault::NoMemory) => Err(NoMemory),
        Err(_) => unreachable!(),
    }
}

// Asks the tree for a claim with these operations.
fn ask_claim<T: ZTree>(
    alloc: Global,
    seen: &ClaimSeen,
    ops: &[Op],
    tree: &mut Wire<T>,
) -> Result<ClaimOutcome, StepFault>
    requires can { CanRise seen.now.epoch }
    requires some { 0 < length ops.now }
    ensures said { IfOk result (λ claimed. claimed ≡ claim_outcome seen.now ops.now (multi (T.tree tree.old.inner) ops.now)) }
    ensures tree { IsAfterRequest (reaches tree.old.plan false) (tree_after (multi (T.tree tree.old.inner) ops.now) (T.tree tree.old.inner)) (T.tree tree.old.inner) result (T.tree tree.new.inner) }
    ensures fares { Fares false false result tree.old tree.new }
    ensures disk { TreeDisk (ChangesDisk (IsTaken (multi (T.tree tree.old.inner) ops.now)) (T.payload_bytes (T.tree tree.old.inner) (Multi ops.now)))
        (answer_of_made (multi (T.tree tree.old.inner) ops.now)) tree.old.plan result (T.disk tree.old.inner) (T.disk tree.new.inner) }
    ensures stop { IsErrOf result (StepFault.Tree TreeFault.Device) → Either (T.tree tree.old.inner)
        (if reaches tree.old.plan false then tree_after (multi (T.tree tree.old.inner) ops.now) (T.tree tree.old.inner) else T.tree tree.old.inner) (T.left tree.new.inner) }
{
    let number = claimed_number(alloc, seen.epoch.as_ref())?;
    let version = claimed_version(seen.epoch.as_ref());
    match multi(tree, ops)? {
        None => Ok(ClaimOutcome::Done { number, version }),
        Some(fault) => Ok(outcome_of_fault(alloc, ops, fault)?),
    }
}

// The driver after a claim.
fn after_claim(alloc: Global, row: &mut DriverRow, claimed: ClaimOutcome) -> Reply
    ensures view { row.new.view ≡ row.old.view }
    ensures driver { after_claim_outcome claimed (driver_of row.old) ≡ (driver_of row.new, result) }
    ensures id { row.new.id ≡ row.old.id }
{
    match claimed {
        ClaimOutcome::Done { number, version } => {
            row.claim = Some(version);
            row.stage = if views_migrated(row) {
                Stage::ReadLogForResync
            } else {
                Stage::ScanForMigration {
                    scan: Scan::new(alloc),
                }
            };
            Reply::Claimed { zk_epoch: number }
        }
        ClaimOutcome::Refused => {
            begin_again(row);
            Reply::Moved(DriverState::BecomeController)
        }
        ClaimOutcome::Stopped { told } => told,
    }
}

// Makes the claim of what was seen.
fn try_claim<T: ZTree>(
    alloc: Global,
    driver: &DriverRow,
    seen: &ClaimSeen,
    tree: &mut Wire<T>,
    now: i64,
) -> Result<ClaimOutcome, StepFault>
    requires { CanClaim seen.now (epoch_or_zero driver.now.epoch) (views_migrated (driver_of driver.now)) }
    ensures said { IfOk result (λ claimed. claimed ≡ claim_outcome seen.now (claim_ops seen.now (driver_of driver.now) now) (multi (T.tree tree.old.inner) (claim_ops seen.now (driver_of driver.now) now))) }
    ensures tree { IsAfterRequest (reaches tree.old.plan false) (tree_after (multi (T.tree tree.old.inner) (claim_ops seen.now (driver_of driver.now) now)) (T.tree tree.old.inner)) (T.tree tree.old.inner) result (T.tree tree.new.inner) }
    ensures fares { Fares false false result tree.old tree.new }
    ensures disk { TreeDisk (ChangesDisk (IsTaken (multi (T.tree tree.old.inner) (claim_ops seen.now (driver_of driver.now) now))) (T.payload_bytes (T.tree tree.old.inner) (Multi (claim_ops seen.now (driver_of driver.now) now))))
        (answer_of_made (multi (T.tree tree.old.inner) (claim_ops seen.now (driver_of driver.now) now))) tree.old.plan result (T.disk tree.old.inner) (T.disk tree.new.inner) }
    ensures stop { IsErrOf result (StepFault.Tree TreeFault.Device) → Either (T.tree tree.old.inner)
        (if reaches tree.old.plan false then tree_after (multi (T.tree tree.old.inner) (claim_ops seen.now (driver_of driver.now) now)) (T.tree tree.old.inner) else T.tree tree.old.inner) (T.left tree.new.inner) }
{
    let ops = ops_of_claim(alloc, driver, seen, now)?;
    ask_claim(alloc, seen, &ops, tree)
}

/// Claims the tree as it was seen. At `Err` the driver is as it was.
pub fn claim<T: ZTree>(
    alloc: Global,
    row: &mut DriverRow,
    tree: &mut Wire<T>,
    now: i64,
) -> Result<Reply, StepFault>
    requires { (seen : ClaimSeenValue) → row.old.stage ≡ held.ClaimLeadership seen → CanClaim seen (epoch_or_zero row.old.epoch) (views_migrated (driver_of row.old)) }
    ensures driver { (seen : ClaimSeenValue) → row.old.stage ≡ held.ClaimLeadership seen → IfOk result (λ told.
        after_claim_outcome (claim_outcome seen (claim_ops seen (driver_of row.old) now) (multi (T.tree tree.old.inner) (claim_ops seen (driver_of row.old) now))) (driver_of row.old) ≡ (driver_of row.new, told)) }
    ensures tree { (seen : ClaimSeenValue) → row.old.stage ≡ held.ClaimLeadership seen → IsAfterRequest (reaches tree.old.plan false) (tree_after (multi (T.tree tree.old.inner) (claim_ops seen (driver_of row.old) now)) (T.tree tree.old.inner)) (T.tree tree.old.inner) result (T.tree tree.new.inner) }
    ensures view { row.new.view ≡ row.old.view }
    ensures err { OnErr result (row.new ≡ row.old) }
    ensures fares { (seen : ClaimSeenValue) → row.old.stage ≡ held.ClaimLeadership seen → Fares false false result tree.old tree.new }
    ensures disk { (seen : ClaimSeenValue) → row.old.stage ≡ held.ClaimLeadership seen → TreeDisk (ChangesDisk (IsTaken (multi (T.tree tree.old.inner) (claim_ops seen (driver_of row.old) now))) (T.payload_bytes (T.tree tree.old.inner) (Multi (claim_ops seen (driver_of row.old) now))))
        (answer_of_made (multi (T.tree tree.old.inner) (claim_ops seen (driver_of row.old) now))) tree.old.plan result (T.disk tree.old.inner) (T.disk tree.new.inner) }
    ensures stop { (seen : ClaimSeenValue) → row.old.stage ≡ held.ClaimLeadership seen → IsErrOf result (StepFault.Tree TreeFault.Device) → Either (T.tree tree.old.inner)
        (if reaches tree.old.plan false then tree_after (multi (T.tree tree.old.inner) (claim_ops seen (driver_of row.old) now)) (T.tree tree.old.inner) else T.tree tree.old.inner) (T.left tree.new.inner) }
    ensures id { row.new.id ≡ row.old.id }
{
    let Stage::ClaimLeadership { seen } = &row.stage else {
        return Ok(Reply::Idle);
    };
    let claimed = try_claim(alloc, row, seen, tree, now)?;
    Ok(after_claim(alloc, row, claimed))
}
