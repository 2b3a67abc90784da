//! Members that must be there, and their faults.
ghost use Rattle.std.specs.Prelude.{◌≡◌, ◌≢◌, IfOk, Err, ◌≤ℤ◌};
ghost use Rattle.serde_json.specs.View.{view};
ghost use Rattle.kz_types.specs.declared.fault.BodyFault.{BodyFault};
ghost use Rattle.kz_types.specs.declared.fault.BodyFault.TheVariants.{Missing, BadField};
ghost use Rattle.kz_spec_data.specs.Bodies.{whole, greatest, field};

use crate::values::{number, whole};
use kz_types::{BodyFault, NoMemory, Text};
use serde_json::Value;
use std::alloc::Global;

/// The fault of a member that isn't there; `NoMemory` where memory ran out.
pub fn missing(alloc: Global, field: &str) -> BodyFault
    ensures { result ≢ BodyFault.NoMemory → result ≡ Missing field.now }
{
    match Text::from_str(alloc, field) {
        Ok(field) => BodyFault::Missing { field },
        Err(NoMemory) => BodyFault::NoMemory,
    }
}

/// The fault of a member whose value isn't of its form; `NoMemory` where memory ran out.
pub fn bad_field(alloc: Global, field: &str) -> BodyFault
    ensures { result ≢ BodyFault.NoMemory → result ≡ BadField field.now }
{
    match Text::from_str(alloc, field) {
        Ok(field) => BodyFault::BadField { field },
        Err(NoMemory) => BodyFault::NoMemory,
    }
}

/// The member `name`, a whole number from `low` to `high`.
///
/// `Missing`: there is no such member. `BadField`: it is no such number. `NoMemory`: memory ran out.
pub fn whole_field(
    alloc: Global,
    value: &Value,
    name: &str,
    low: i64,
    high: i64,
) -> Result<i64, BodyFault>
    ensures value { result ≢ Err BodyFault.NoMemory → result ≡ field name.now (whole low high) (view value.now) }
    ensures bound { IfOk result (λ number. (low ≤ℤ number) × (number ≤ℤ high)) }
{
    let Some(member) = value.get(name) else {
        return Err(missing(alloc, name));
    };
    match whole(member, low, high) {
        Some(number) => Ok(number),
        None => Err(bad_field(alloc, name)),
    }
}

/// The member `name`, a whole number from `low` to the greatest of 32 bits.
///
/// `Missing`: there is no such member. `BadField`: it is no such number. `NoMemory`: memory ran out.
pub fn number_field(alloc: Global, value: &Value, name: &str, low: i32) -> Result<i32, BodyFault>
    ensures { result ≢ Err BodyFault.NoMemory → result ≡ field name.now (whole low greatest) (view value.now) }
{
    let Some(member) = value.get(name) else {
        return Err(missing(alloc, name));
    };
    match number(member, low) {
        Some(number) => Ok(number),
        None => Err(bad_field(alloc, name)),
    }
}
