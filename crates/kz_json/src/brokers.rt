//! Lists of brokers in bodies.
ghost use Rattle.std.specs.Prelude.{◌≡◌, IfOk};
ghost use Rattle.serde_json.specs.View.{view, items_view};
ghost use Rattle.kz_spec_data.specs.Bodies.{brokers_in, brokers_of};

use kz_body_parts::number;
use kz_types::{NoMemory, Sequence};
use serde_json::Value;
use std::alloc::Global;

/// The ids of brokers, from 0 on.
pub fn brokers_in(alloc: Global, values: &[Value]) -> Result<Option<Sequence<i32>>, NoMemory>
    ensures { IfOk result (λ ids. ids ≡ brokers_in (items_view values.now)) }
{
    let mut ids = Sequence::new(alloc);
    for value in values {
        match number(value, 0) {
            Some(id) => ids.push(id)?,
            None => return Ok(None),
        }
    }
    Ok(Some(ids))
}

/// The ids of a list of brokers.
pub fn brokers_of(alloc: Global, value: &Value) -> Result<Option<Sequence<i32>>, NoMemory>
    ensures { IfOk result (λ ids. ids ≡ brokers_of (view value.now)) }
{
    match value.as_array() {
        Some(values) => brokers_in(alloc, values),
        None => Ok(None),
    }
}
