//! JSON values.
ghost use Rattle.std.specs.Prelude.{◌≡◌, IfOk, IfSome, option_map, negsuc, ◌≤ℤ◌};
ghost use Rattle.serde_json.specs.View.{view};
ghost use Rattle.kz_spec_data.specs.Bodies.{json_of, whole, greatest};

use kz_types::{MAX_NUMBER, NoMemory};
use serde_json::Value;
use std::alloc::Global;

/// The JSON value that a text is, or `None` where it is none: it isn't UTF-8, or no JSON. Of two members of an object with
/// one name, the last counts.
pub fn read_json(alloc: Global, bytes: &[u8]) -> Result<Option<Value>, NoMemory>
    ensures { IfOk result (λ value. option_map view value ≡ json_of bytes.now) }
{
    match Value::from_slice(alloc, bytes) {
        Ok(value) => Ok(Some(value)),
        Err(error) => {
            if error.is_memory() {
                Err(NoMemory)
            } else {
                Ok(None)
            }
        }
    }
}

/// The whole number from `low` to `high` that a value is, or `None` where it is none. A number with a point or an exponent
/// is none.
pub fn whole(value: &Value, low: i64, high: i64) -> Option<i64>
    ensures value { result ≡ whole low high (view value.now) }
    ensures bound { IfSome result (λ number. (low ≤ℤ number) × (number ≤ℤ high)) }
{
    let number = value.as_i64()?;
    if low <= number && number <= high {
        Some(number)
    } else {
        None
    }
}

/// The whole number from `low` to [`MAX_NUMBER`] that a value is, or `None` where it is none.
pub fn number(value: &Value, low: i32) -> Option<i32>
    ensures { result ≡ whole low greatest (view value.now) }
{
    match whole(value, low as i64, MAX_NUMBER as i64) {
        Some(number) => Some(number as i32),
        None => None,
    }
}
