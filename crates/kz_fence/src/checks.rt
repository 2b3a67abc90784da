//! What stands against a claim.
ghost use Rattle.std.specs.Prelude.{◌≡◌, None, OnOk, IfErr, option_map};
ghost use Rattle.kz_spec_machine.specs.Driver.{shown_by};
ghost use Rattle.kz_fence.specs.Checks.{fault_of_control, fault_of_epoch, fault_of_record, claim_fault, CanRise, CanClaim, IsClaimFault};

use crate::claimer::Claimer;
use kz_paths::{epoch_path, migration_path};
use kz_state::{read_control, read_epoch};
use kz_types::{BodyFault, ClaimSeen, MAX_VERSION, NoMemory, Row, ZPath};
use std::alloc::Global;

/// Why a controller doesn't claim the tree.
#[derive(Drop)]
pub enum ClaimFault {
    /// Another controller holds it, whose epoch is higher.
    HigherEpoch { epoch: i32 },
    /// The number of `/controller_epoch` can't be read.
    BadEpochBody,
    /// The number or the data version of this znode can't rise.
    Limit { path: ZPath },
    /// Memory ran out.
    NoMemory,
}

impl From<NoMemory> for ClaimFault {
    ghost use Rattle.std.specs.Prelude.{◌≡◌};
    ghost use Rattle.kz_fence.specs.declared.checks.ClaimFault.{ClaimFault};

    ghost from_gives = { λ _ fault. fault ≡ ClaimFault.NoMemory };

    fn from(_: NoMemory) -> ClaimFault {
        ClaimFault::NoMemory
    }
}

// Whether no controller of a higher epoch holds `/controller`.
fn check_control(alloc: Global, row: Option<&Row>, own: &Claimer) -> Result<(), ClaimFault>
    ensures ok { OnOk result (fault_of_control (shown_by (option_map (λ r. r.now) row.entry)) own.entry.now.epoch ≡ None) }
    ensures err { IfErr result (IsClaimFault (fault_of_control (shown_by (option_map (λ r. r.now) row.entry)) own.entry.now.epoch)) }
{
    let Some(row) = row else {
        return Ok(());
    };
    match read_control(alloc, row.body.as_slice()) {
        Ok(Some(shown)) if own.epoch < shown => Err(ClaimFault::HigherEpoch { epoch: shown }),
        Ok(_) => Ok(()),
        Err(NoMemory) => Err(ClaimFault::NoMemory),
    }
}

// Whether the number and the data version of `/controller_epoch` can rise.
fn check_epoch(alloc: Global, row: Option<&Row>) -> Result<(), ClaimFault>
    ensures ok { OnOk result (fault_of_epoch (option_map (λ r. r.now) row.entry) ≡ None) }
    ensures rises { OnOk result (CanRise (option_map (λ r. r.now) row.entry)) }
    ensures err { IfErr result (IsClaimFault (fault_of_epoch (option_map (λ r. r.now) row.entry))) }
{
    let Some(row) = row else {
        return Ok(());
    };
    match read_epoch(alloc, row.body.as_slice()) {
        Ok(number) => if number == MAX_VERSION || row.version == MAX_VERSION {
            Err(ClaimFault::Limit {
                path: epoch_path(alloc)?,
            })
        } else {
            Ok(())
        },
        Err(BodyFault::NoMemory) => Err(ClaimFault::NoMemory),
        Err(_) => Err(ClaimFault::BadEpochBody),
    }
}

// Whether `/migration` can be set, or needn't be.
fn check_record(alloc: Global, row: Option<&Row>, migrated: bool) -> Result<(), ClaimFault>
    ensures ok { OnOk result (fault_of_record (option_map (λ r. r.now) row.entry) migrated ≡ None) }
    ensures err { IfErr result (IsClaimFault (fault_of_record (option_map (λ r. r.now) row.entry) migrated)) }
{
    match row {
        Some(row) if row.version == MAX_VERSION && !migrated => Err(ClaimFault::Limit {
            path: migration_path(alloc)?,
        }),
        _ => Ok(()),
    }
}

/// Whether a controller may claim what it saw. `HigherEpoch`, where `/controller` shows an epoch above its own;
/// `BadEpochBody`, where the number of `/controller_epoch` can't be read; `Limit`, where that number or its data version, or
/// the data version of `/migration`, which a claim sets unless the log is migrated, can't rise. The first of these is told.
/// The time doesn't matter.
#[tactic(auto, using(crate::proofs::Faults::first_told, crate::proofs::Faults::later_told, crate::proofs::Faults::none_told))]
pub fn check_claim(alloc: Global, seen: &ClaimSeen, own: &Claimer) -> Result<(), ClaimFault>
    ensures ok { OnOk result (CanClaim seen.now own.entry.now.epoch own.entry.now.migrated) }
    ensures err { IfErr result (IsClaimFault (claim_fault seen.now own.entry.now.epoch own.entry.now.migrated)) }
{
    check_control(alloc, seen.control.as_ref(), own)?;
    check_epoch(alloc, seen.epoch.as_ref())?;
    check_record(alloc, seen.migration.as_ref(), own.migrated)
}
