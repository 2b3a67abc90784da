//! The bodies that are read.
ghost use Rattle.std.specs.Prelude.{◌≡◌, ◌≢◌, IfOk, IfErr, Ok, Err, Some, option_map};
ghost use Rattle.kz_types.specs.declared.fault.BodyFault.{BodyFault};
ghost use Rattle.serde_json.specs.View.{view};
ghost use Rattle.kz_spec_data.specs.Control.{read_epoch, shown_epoch, read_recorded, recorded_in, recorded_or_fault};
ghost use Rattle.kz_state.specs.Faults.{IsFaultOf};

use kz_body_parts::{bad_field, number, number_field, read_json, whole_field};
use kz_types::{BodyFault, MAX_LONG, NoMemory, Recorded, number_in};
use serde_json::Value;
use std::alloc::Global;

/// The number that the body of `/controller_epoch` holds: a canonical decimal of 0 to 2,147,483,647. `BadField`, with the
/// field `controller_epoch`, exactly where it is none; no other fault but `NoMemory` comes.
pub fn read_epoch(alloc: Global, body: &[u8]) -> Result<i32, BodyFault>
    ensures ok { IfOk result (λ epoch. read_epoch body.now ≡ Ok epoch) }
    ensures err { IfErr result (IsFaultOf (read_epoch body.now)) }
{
    match number_in(body) {
        Some(epoch) => Ok(epoch),
        None => Err(bad_field(alloc, "controller_epoch")),
    }
}

/// The epoch that the body of `/controller` shows, where a KRaft controller holds it: the number of its member
/// `kraftControllerEpoch`, from 0 to 2,147,483,647. `None` exactly where it has none.
#[tactic(auto, unfolding(kz_spec_data::specs::Control::shown_epoch))]
pub fn read_control(alloc: Global, body: &[u8]) -> Result<Option<i32>, NoMemory>
    ensures { IfOk result (λ epoch. epoch ≡ shown_epoch body.now) }
{
    let Some(value) = read_json(alloc, body)? else {
        return Ok(None);
    };
    let Some(epoch) = value.get("kraftControllerEpoch") else {
        return Ok(None);
    };
    Ok(number(epoch, 0))
}

fn recorded_in(alloc: Global, value: &Value) -> Result<Recorded, BodyFault>
    ensures { result ≢ Err BodyFault.NoMemory → result ≡ recorded_in (view value.now) }
{
    match whole_field(alloc, value, "version", 0, 0) {
        Ok(_) => (),
        Err(fault) => return Err(fault),
    }
    let controller_epoch = match number_field(alloc, value, "kraft_controller_epoch", 0) {
        Ok(epoch) => epoch,
        Err(fault) => return Err(fault),
    };
    let id = match number_field(alloc, value, "kraft_controller_id", 0) {
        Ok(id) => id,
        Err(fault) => return Err(fault),
    };
    let epoch = match number_field(alloc, value, "kraft_metadata_epoch", -1) {
        Ok(epoch) => epoch,
        Err(fault) => return Err(fault),
    };
    let offset = match whole_field(alloc, value, "kraft_metadata_offset", -1, MAX_LONG) {
        Ok(offset) => offset,
        Err(fault) => return Err(fault),
    };
    Ok(Recorded {
        id,
        controller_epoch,
        offset,
        epoch,
    })
}

/// What the body of `/migration` records.
///
/// `NotJson` where it is no JSON object. Its members are read in the order `version`, `kraft_controller_epoch`,
/// `kraft_controller_id`, `kraft_metadata_epoch`, `kraft_metadata_offset`; the first that isn't there is `Missing`, and the
/// first that is no whole number in its range `BadField`. No other fault but `NoMemory` comes.
#[tactic(auto, unfolding(kz_spec_data::specs::Control::read_recorded))]
pub fn read_migration(alloc: Global, body: &[u8]) -> Result<Recorded, BodyFault>
    ensures ok { IfOk result (λ recorded. read_recorded body.now ≡ Ok recorded) }
    ensures err { IfErr result (IsFaultOf (read_recorded body.now)) }
{
    let Ok(read) = read_json(alloc, body) else {
        return Err(BodyFault::NoMemory);
    };
    let Some(value) = read else {
        return Err(BodyFault::NotJson);
    };
    if !value.is_object() {
        return Err(BodyFault::NotJson);
    }
    recorded_in(alloc, &value)
}
