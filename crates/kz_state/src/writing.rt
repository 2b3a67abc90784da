//! The bodies that a controller writes.
ghost use Rattle.std.specs.Prelude.{◌≡◌, ◌≤◌, ◌≤ℤ◌, pos, negsuc, IfOk, string_bytes};
ghost use Rattle.serde_json.specs.View.{view};
ghost use Rattle.kz_spec_data.specs.Control.{written_epoch, control_data, written_control, recorded_data, written_recorded};

use kz_types::{NoMemory, Recorded};
use serde_json::{Value, json};
use std::alloc::{AllocError, Global};

/// The body of `/controller_epoch` for a controller epoch: its decimal text.
pub fn write_epoch(alloc: Global, epoch: i32) -> Result<Vec<u8>, NoMemory>
    ensures { IfOk result (λ body. body.items ≡ written_epoch epoch) }
{
    let text = format!(in alloc; "{epoch}")?;
    Ok(text.into_bytes())
}

fn control_value(alloc: Global, id: i32, epoch: i32, now: i64) -> Result<Value, AllocError>
    ensures { IfOk result (λ value. view value ≡ control_data id epoch now) }
{
    let timestamp = format!(in alloc; "{now}")?;
    json!(in alloc; {
        "version": 2,
        "brokerid": id,
        "timestamp": timestamp,
        "kraftControllerEpoch": epoch
    })
}

#[tactic(auto, using(crate::proofs::Floats::control_has_no_float), unfolding(kz_spec_data::specs::Control::written_control))]
fn text_of_control(alloc: Global, id: i32, epoch: i32, now: i64) -> Result<String, AllocError>
    ensures { IfOk result (λ text. string_bytes text ≡ written_control id epoch now) }
{
    control_value(alloc, id, epoch, now)?.to_string(alloc)
}

/// The body of `/controller` that the KRaft controller of this id and controller epoch writes at a time in
/// milliseconds.
pub fn write_control(alloc: Global, id: i32, epoch: i32, now: i64) -> Result<Vec<u8>, NoMemory>
    ensures { IfOk result (λ body. body.items ≡ written_control id epoch now) }
{
    let text = text_of_control(alloc, id, epoch, now)?;
    Ok(text.into_bytes())
}

fn recorded_value(alloc: Global, recorded: &Recorded) -> Result<Value, AllocError>
    ensures { IfOk result (λ value. view value ≡ recorded_data recorded.now) }
{
    json!(in alloc; {
        "version": 0,
        "kraft_controller_id": recorded.id,
        "kraft_controller_epoch": recorded.controller_epoch,
        "kraft_metadata_offset": recorded.offset,
        "kraft_metadata_epoch": recorded.epoch
    })
}

#[tactic(auto, using(crate::proofs::Floats::recorded_has_no_float), unfolding(kz_spec_data::specs::Control::written_recorded))]
fn text_of_recorded(alloc: Global, recorded: &Recorded) -> Result<String, AllocError>
    ensures { IfOk result (λ text. string_bytes text ≡ written_recorded recorded.now) }
{
    recorded_value(alloc, recorded)?.to_string(alloc)
}

/// The body of `/migration` that records this.
pub fn write_migration(alloc: Global, recorded: &Recorded) -> Result<Vec<u8>, NoMemory>
    ensures { IfOk result (λ body. body.items ≡ written_recorded recorded.now) }
{
    let text = text_of_recorded(alloc, recorded)?;
    Ok(text.into_bytes())
}
