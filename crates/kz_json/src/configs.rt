//! Configurations.
ghost use Rattle.std.specs.Prelude.{◌≡◌, ◌≢◌, IfOk, Ok, Err, codes, pos};
ghost use Rattle.serde_json.specs.View.{view, members_view};
ghost use Rattle.kz_types.specs.declared.fault.BodyFault.{BodyFault};
ghost use Rattle.kz_spec_data.specs.Bodies.{field, whole, texts_in, texts_of, pairs_of, config_of};

use kz_body_parts::{bad_field, missing, whole_field};
use kz_types::{Body, BodyFault, NoMemory, Pair, Sequence, Text};
use serde_json::{Map, Value};
use std::alloc::Global;

/// The names and values of members, by rising name. `None` where one is no text.
fn texts_in(alloc: Global, members: &Map<String, Value>) -> Result<Option<Sequence<Pair>>, NoMemory>
    ensures { IfOk result (λ pairs. pairs ≡ texts_in (members_view members.now.entries)) }
{
    let mut pairs = Sequence::new(alloc);
    for (name, member) in members.iter() {
        let Some(text) = member.as_str() else {
            return Ok(None);
        };
        let name = Text::from_str(alloc, name)?;
        let value = Text::from_str(alloc, text)?;
        pairs.push(Pair { name, value })?;
    }
    Ok(Some(pairs))
}

/// The names and values of an object of texts, by rising name.
fn texts_of(alloc: Global, value: &Value) -> Result<Option<Sequence<Pair>>, NoMemory>
    ensures { IfOk result (λ pairs. pairs ≡ texts_of (view value.now)) }
{
    match value.as_object() {
        Some(members) => texts_in(alloc, members),
        None => Ok(None),
    }
}

/// The names and values of a configuration, by rising name.
pub fn pairs_of(alloc: Global, value: &Value) -> Result<Sequence<Pair>, BodyFault>
    ensures { result ≢ Err BodyFault.NoMemory → result ≡ pairs_of (view value.now) }
{
    match whole_field(alloc, value, "version", 1, 1) {
        Ok(_) => (),
        Err(fault) => return Err(fault),
    }
    let Some(member) = value.get("config") else {
        return Err(missing(alloc, "config"));
    };
    match texts_of(alloc, member) {
        Ok(Some(pairs)) => Ok(pairs),
        Ok(None) => Err(bad_field(alloc, "config")),
        Err(NoMemory) => Err(BodyFault::NoMemory),
    }
}

/// What the configuration of a topic or a broker says.
pub fn config_of(alloc: Global, value: &Value) -> Result<Body, BodyFault>
    ensures { result ≢ Err BodyFault.NoMemory → result ≡ config_of (view value.now) }
{
    match pairs_of(alloc, value) {
        Ok(pairs) => Ok(Body::Config { pairs }),
        Err(fault) => Err(fault),
    }
}
