//! Ids and times of lines.
ghost use Rattle.std.specs.Prelude.{◌≡◌, option_map};
ghost use Rattle.serde_json.specs.View.{view};
ghost use Rattle.kz_spec_data.specs.Events.{id_of, time_of};

use kz_types::{MAX_LONG, MAX_NUMBER};
use serde_json::Value;

/// The id of a controller or a broker.
pub fn id_of(value: &Value) -> Option<i32>
    ensures { result ≡ id_of (view value.now) }
{
    let number = value.as_u64()?;
    if number <= MAX_NUMBER {
        Some(number as i32)
    } else {
        None
    }
}

/// A time; where it is absent, 0.
pub fn time_of(value: Option<&Value>) -> Option<i64>
    ensures { result ≡ time_of (option_map (λ v. view v.now) value.entry) }
{
    match value {
        None => Some(0),
        Some(value) => {
            let number = value.as_u64()?;
            if number <= MAX_LONG as u64 {
                Some(number as i64)
            } else {
                None
            }
        }
    }
}
