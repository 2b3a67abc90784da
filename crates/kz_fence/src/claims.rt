//! The multi of a claim.
ghost use Rattle.std.specs.Prelude.{◌≡◌, ◌++◌, IfOk, OnOk, IfErr, length, option_map, ◌≤ℤ◌};
ghost use Rattle.kz_types.specs.declared.limits.TheConstants.{MAX_VERSION};
ghost use Rattle.kz_types.specs.Paths.{base_paths};
ghost use Rattle.kz_spec_machine.specs.Driver.{claimed_number, claimed_version, epoch_op, control_ops, migration_ops, base_op, base_ops};
ghost use Rattle.kz_fence.specs.Checks.{claim_fault, CanRise, CanClaim, IsClaimFault};
ghost use Rattle.kz_fence.specs.Claims.{claim_ops_by};

use crate::checks::{ClaimFault, check_claim};
use crate::claimer::Claimer;
use kz_paths::{base_paths, control_path, epoch_path, migration_path};
use kz_state::{read_epoch, write_control, write_epoch, write_migration};
use kz_types::{BodyFault, ClaimSeen, Duplicate, NoMemory, Op, Recorded, Row, Sequence, ZPath};
use std::alloc::Global;

/// The number that a claim writes to `/controller_epoch`, which was seen like this.
pub fn claimed_number(alloc: Global, row: Option<&Row>) -> Result<i32, NoMemory>
    requires { claimed_number (option_map (λ r. r.now) row) ≤ℤ MAX_VERSION }
    ensures { IfOk result (λ number. number ≡ claimed_number (option_map (λ r. r.now) row.entry)) }
{
    match row {
        None => Ok(1),
        Some(row) => match read_epoch(alloc, row.body.as_slice()) {
            Ok(number) => Ok(number + 1),
            Err(BodyFault::NoMemory) => Err(NoMemory),
            Err(_) => Ok(1),
        },
    }
}

/// The data version that a claim gives `/controller_epoch`, which was seen like this.
pub fn claimed_version(row: Option<&Row>) -> i32
    requires { claimed_version (option_map (λ r. r.now) row) ≤ℤ MAX_VERSION }
    ensures { result ≡ claimed_version (option_map (λ r. r.now) row.entry) }
{
    match row {
        None => 0,
        Some(row) => row.version + 1,
    }
}

// The operation that raises the number of `/controller_epoch`.
fn epoch_op(alloc: Global, row: Option<&Row>, number: i32) -> Result<Op, NoMemory>
    requires { number ≡ claimed_number (option_map (λ r. r.now) row) }
    ensures { IfOk result (λ op. op ≡ epoch_op (option_map (λ r. r.now) row.entry)) }
{
    let path = epoch_path(alloc)?;
    let body = Sequence::from_vec(write_epoch(alloc, number)?);
    match row {
        None => Ok(Op::Create {
            path,
            body,
            owner: None,
        }),
        Some(row) => Ok(Op::Set {
            path,
            body,
            version: row.version,
        }),
    }
}

// The operations that make `/controller` this controller's.
fn push_control(
    alloc: Global,
    ops: &mut Vec<Op>,
    row: Option<&Row>,
    body: Vec<u8>,
) -> Result<(), NoMemory>
    ensures { OnOk result (ops.new.items ≡ ops.old.items ++ control_ops (option_map (λ r. r.now) row.entry) body.items) }
{
    if let Some(held) = row {
        ops.push(Op::Delete {
            path: control_path(alloc)?,
            version: held.version,
        })?;
    }
    ops.push(Op::Create {
        path: control_path(alloc)?,
        body: Sequence::from_vec(body),
        owner: None,
    })?;
    Ok(())
}

// The operation that records no offset yet, unless the log is migrated.
fn push_migration(
    alloc: Global,
    ops: &mut Vec<Op>,
    migrated: bool,
    row: Option<&Row>,
    body: Vec<u8>,
) -> Result<(), NoMemory>
    ensures { OnOk result (ops.new.items ≡ ops.old.items ++ migration_ops migrated (option_map (λ r. r.now) row.entry) body.items) }
{
    if migrated {
        return Ok(());
    }
    let path = migration_path(alloc)?;
    let body = Sequence::from_vec(body);
    match row {
        None => ops.push(Op::Create {
            path,
            body,
            owner: None,
        })?,
        Some(_) => ops.push(Op::Set {
            path,
            body,
            version: -1,
        })?,
    }
    Ok(())
}

fn push_base(alloc: Global, ops: &mut Vec<Op>, is_there: bool, path: &ZPath) -> Result<(), NoMemory>
    ensures { OnOk result (ops.new.items ≡ ops.old.items ++ base_op is_there path.now) }
{
    if !is_there {
        ops.push(Op::Create {
            path: path.copy(alloc)?,
            body: Sequence::new(alloc),
            owner: None,
        })?;
    }
    Ok(())
}

// The base znodes that are missing.
fn push_bases(alloc: Global, ops: &mut Vec<Op>, bases: &[bool]) -> Result<(), NoMemory>
    requires { length bases.now ≡ 5 }
    ensures { OnOk result (ops.new.items ≡ ops.old.items ++ base_ops bases.now base_paths) }
{
    let paths = base_paths(alloc)?;
    for (place, path) in paths.iter().enumerate() {
        push_base(alloc, ops, bases[place], path)?;
    }
    Ok(())
}

// The multi of a claim against which nothing stands.
fn ops_of_claim(alloc: Global, seen: &ClaimSeen, own: &Claimer) -> Result<Vec<Op>, NoMemory>
    requires { CanRise seen.now.epoch }
    ensures { IfOk result (λ ops. ops.items ≡ claim_ops_by seen.now own.entry.now) }
{
    let number = claimed_number(alloc, seen.epoch.as_ref())?;
    let control = write_control(alloc, own.id, own.epoch, own.now)?;
    let unrecorded = Recorded {
        id: own.id,
        controller_epoch: own.epoch,
        offset: -1,
        epoch: -1,
    };
    let recorded = write_migration(alloc, &unrecorded)?;
    let mut ops = Vec::new(alloc);
    ops.push(epoch_op(alloc, seen.epoch.as_ref(), number)?)?;
    push_control(alloc, &mut ops, seen.control.as_ref(), control)?;
    push_migration(
        alloc,
        &mut ops,
        own.migrated,
        seen.migration.as_ref(),
        recorded,
    )?;
    push_bases(alloc, &mut ops, &seen.bases)?;
    Ok(ops)
}

/// The multi of a claim of what was seen: the number of `/controller_epoch` rises, at the version that was seen;
/// `/controller` is this controller's; nothing is recorded yet, where it knows of no migration; and the base znodes stand.
/// It is refused where something stands against the claim, as [`check_claim`] tells.
pub fn claim_ops(alloc: Global, seen: &ClaimSeen, own: &Claimer) -> Result<Vec<Op>, ClaimFault>
    ensures ok { IfOk result (λ ops. ops.items ≡ claim_ops_by seen.now own.entry.now) }
    ensures can { OnOk result (CanClaim seen.now own.entry.now.epoch own.entry.now.migrated) }
    ensures err { IfErr result (IsClaimFault (claim_fault seen.now own.entry.now.epoch own.entry.now.migrated)) }
{
    check_claim(alloc, seen, own)?;
    Ok(ops_of_claim(alloc, seen, own)?)
}
