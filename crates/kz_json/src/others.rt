//! States of partitions and blocks of producer ids.
ghost use Rattle.std.specs.Prelude.{◌≡◌, ◌≢◌, IfOk, IfSome, Ok, Err, codes, pos, negsuc, option_map, ◌≤ℤ◌};
ghost use Rattle.serde_json.specs.Find.{get};
ghost use Rattle.serde_json.specs.View.{view};
ghost use Rattle.kz_types.specs.declared.fault.BodyFault.{BodyFault};
ghost use Rattle.kz_spec_data.specs.Bodies.{field, brokers_of, optional, whole, state_of_data, producer_of_data, digits_number, digits_of_data};

use crate::brokers::brokers_of;
use kz_body_parts::{bad_field, missing, number_field, whole, whole_field};
use kz_types::{Body, BodyFault, NoMemory, Sequence, digits_up_to};
use serde_json::Value;
use std::alloc::Global;

/// A member that is a list of brokers.
fn brokers_field(alloc: Global, value: &Value, name: &str) -> Result<Sequence<i32>, BodyFault>
    ensures { result ≢ Err BodyFault.NoMemory → result ≡ field name.now brokers_of (view value.now) }
{
    let Some(member) = value.get(name) else {
        return Err(missing(alloc, name));
    };
    match brokers_of(alloc, member) {
        Ok(Some(ids)) => Ok(ids),
        Ok(None) => Err(bad_field(alloc, name)),
        Err(NoMemory) => Err(BodyFault::NoMemory),
    }
}

/// The state of recovery, 0 where it is absent.
fn recovery(alloc: Global, value: &Value) -> Result<i8, BodyFault>
    ensures { result ≢ Err BodyFault.NoMemory → result ≡ optional (codes "leader_recovery_state") (pos 0) (whole (pos 0) (pos 1)) (get (codes "leader_recovery_state") (view value.now)) }
{
    let Some(member) = value.get("leader_recovery_state") else {
        return Ok(0);
    };
    match whole(member, 0, 1) {
        Some(state) => Ok(state as i8),
        None => Err(bad_field(alloc, "leader_recovery_state")),
    }
}

/// What the state of a partition says.
pub fn state_of(alloc: Global, value: &Value) -> Result<Body, BodyFault>
    ensures { result ≢ Err BodyFault.NoMemory → result ≡ state_of_data (view value.now) }
{
    match whole_field(alloc, value, "version", 1, 1) {
        Ok(_) => (),
        Err(fault) => return Err(fault),
    }
    let leader = match number_field(alloc, value, "leader", -2) {
        Ok(leader) => leader,
        Err(fault) => return Err(fault),
    };
    let leader_epoch = match number_field(alloc, value, "leader_epoch", 0) {
        Ok(epoch) => epoch,
        Err(fault) => return Err(fault),
    };
    let controller_epoch = match number_field(alloc, value, "controller_epoch", 0) {
        Ok(epoch) => epoch,
        Err(fault) => return Err(fault),
    };
    let isr = match brokers_field(alloc, value, "isr") {
        Ok(isr) => isr,
        Err(fault) => return Err(fault),
    };
    match recovery(alloc, value) {
        Ok(recovery) => Ok(Body::State {
            leader,
            leader_epoch,
            controller_epoch,
            isr,
            recovery,
        }),
        Err(fault) => Err(fault),
    }
}

/// The number of one or more digits, up to the greatest of 64 bits with a sign.
fn digits_number(text: &str) -> Option<i64>
    ensures { result ≡ digits_number text.now }
{
    if text.len() == 0 {
        return None;
    }
    match digits_up_to(text.as_bytes(), 9_223_372_036_854_775_807) {
        Some(number) => Some(number as i64),
        None => None,
    }
}

/// A member that is a text of digits.
fn digits_field(alloc: Global, value: &Value, name: &str) -> Result<i64, BodyFault>
    ensures { result ≢ Err BodyFault.NoMemory → result ≡ field name.now digits_of_data (view value.now) }
{
    let Some(member) = value.get(name) else {
        return Err(missing(alloc, name));
    };
    let Some(text) = member.as_str() else {
        return Err(bad_field(alloc, name));
    };
    match digits_number(text) {
        Some(number) => Ok(number),
        None => Err(bad_field(alloc, name)),
    }
}

/// What the block of producer ids says.
pub fn producer_of(alloc: Global, value: &Value) -> Result<Body, BodyFault>
    ensures { result ≢ Err BodyFault.NoMemory → result ≡ producer_of_data (view value.now) }
{
    match whole_field(alloc, value, "version", 1, 1) {
        Ok(_) => (),
        Err(fault) => return Err(fault),
    }
    let broker = match number_field(alloc, value, "broker", -1) {
        Ok(broker) => broker,
        Err(fault) => return Err(fault),
    };
    let start = match digits_field(alloc, value, "block_start") {
        Ok(start) => start,
        Err(fault) => return Err(fault),
    };
    match digits_field(alloc, value, "block_end") {
        Ok(end) => Ok(Body::Producer { broker, start, end }),
        Err(fault) => Err(fault),
    }
}
