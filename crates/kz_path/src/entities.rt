//! Whether a path holds an entity.
ghost use Rattle.std.specs.Prelude.{◌≡◌, ◌≤◌, length, is_some, option_map};
ghost use Rattle.kz_types.specs.Numbers.{number_in};
ghost use Rattle.kz_types.specs.Paths.{key_of, key_of_three, key_of_four, key_of_five, key_of_six, topic_of, address_of, name_of_part, default_or};

use crate::cut::{Parts, cut};
use crate::keys::{DEFAULT, are, broker_of, resource_type_of};
use crate::names::may_be_name;
use kz_types::{MAX_PATH_BYTES, ZPath, may_be_part, may_be_topic, number_in};

/// Whether a part is the default's or a name's.
pub fn holds_name(part: &str) -> bool
    requires { length part.now ≤ MAX_PATH_BYTES }
    ensures { result ≡ is_some (default_or name_of_part part.now) }
{
    if part == DEFAULT {
        return true;
    }
    may_be_name(part.as_bytes())
}

/// Whether a part is the default's or an address.
fn holds_address(part: &str) -> bool
    ensures { result ≡ is_some (default_or address_of part.now) }
{
    if part == DEFAULT {
        return true;
    }
    may_be_part(part.as_bytes())
}

/// Whether three parts hold an entity.
fn holds_of_three(a: &str, b: &str, c: &str) -> bool
    requires { length c.now ≤ MAX_PATH_BYTES }
    ensures { result ≡ is_some (key_of_three a.now b.now c.now) }
{
    if are(a, b, "brokers", "topics") {
        return may_be_topic(c.as_bytes());
    }
    if are(a, b, "config", "topics") {
        return may_be_topic(c.as_bytes());
    }
    if are(a, b, "config", "brokers") {
        return broker_of(c).is_some();
    }
    if are(a, b, "config", "clients") {
        return holds_name(c);
    }
    if are(a, b, "config", "users") {
        return holds_name(c);
    }
    if are(a, b, "config", "ips") {
        return holds_address(c);
    }
    if a == "kafka-acl" {
        return resource_type_of(b).is_some();
    }
    false
}

/// Whether four parts hold an entity.
fn holds_of_four(a: &str, b: &str, c: &str, d: &str) -> bool
    ensures { result ≡ is_some (key_of_four a.now b.now c.now d.now) }
{
    if are(a, b, "kafka-acl-extended", "prefixed") {
        return resource_type_of(c).is_some();
    }
    false
}

/// Whether five parts hold an entity.
fn holds_of_five(a: &str, b: &str, c: &str, d: &str, e: &str) -> bool
    requires user { length c.now ≤ MAX_PATH_BYTES }
    requires client { length e.now ≤ MAX_PATH_BYTES }
    ensures { result ≡ is_some (key_of_five a.now b.now c.now d.now e.now) }
{
    if are(a, b, "config", "users") && d == "clients" {
        return holds_name(c) && holds_name(e);
    }
    false
}

/// Whether six parts hold an entity.
fn holds_of_six(a: &str, b: &str, c: &str, d: &str, e: &str, f: &str) -> bool
    ensures { result ≡ is_some (key_of_six a.now b.now c.now d.now e.now f.now) }
{
    if are(a, b, "brokers", "topics") && are(d, f, "partitions", "state") {
        return may_be_topic(c.as_bytes()) && number_in(e.as_bytes()).is_some();
    }
    false
}

/// Whether a path holds an entity.
#[tactic(auto, unfolding(kz_types::specs::Paths::key_of))]
pub fn holds_entity(path: &ZPath) -> bool
    ensures { result ≡ is_some (key_of path.now) }
{
    match cut(path.as_str()) {
        Parts::One(a) => a == "latest_producer_id_block",
        Parts::Two(_, _) => false,
        Parts::Three(a, b, c) => holds_of_three(a, b, c),
        Parts::Four(a, b, c, d) => holds_of_four(a, b, c, d),
        Parts::Five(a, b, c, d, e) => holds_of_five(a, b, c, d, e),
        Parts::Six(a, b, c, d, e, f) => holds_of_six(a, b, c, d, e, f),
        Parts::More => false,
    }
}
