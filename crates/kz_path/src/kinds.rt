//! What a path is to the migration.
ghost use Rattle.std.specs.Prelude.{◌≡◌, ◌≤◌, ◌||◌, ◌&&◌, bytes_eq, is_some, codes, length, false};
ghost use Rattle.kz_types.specs.Numbers.{canonical};
ghost use Rattle.kz_types.specs.Paths.{are, default_or, name_of_part, is_topic_name, is_scaffold_of_parts, kind_of, key_of};
ghost use Rattle.kz_types.specs.PathRule.{parts};

use crate::cut::{Parts, cut};
use crate::entities::{holds_entity, holds_name};
use crate::keys::are;
use kz_paths::{is_base, is_below_control, is_control, is_migrated, is_root};
use kz_types::{Kind, MAX_PATH_BYTES, ZPath, canonical, may_be_topic};

/// Whether four parts are a parent of entities.
fn is_scaffold_of_four(a: &str, b: &str, c: &str, d: &str) -> bool
    requires { length c.now ≤ MAX_PATH_BYTES }
    ensures { result ≡ (are a.now b.now (codes "brokers") (codes "topics") && is_topic_name c.now && bytes_eq d.now (codes "partitions"))
        || (are a.now b.now (codes "config") (codes "users") && is_some (default_or name_of_part c.now) && bytes_eq d.now (codes "clients")) }
{
    if are(a, b, "brokers", "topics") && may_be_topic(c.as_bytes()) && d == "partitions" {
        return true;
    }
    are(a, b, "config", "users") && holds_name(c) && d == "clients"
}

/// Whether five parts are a parent of entities.
fn is_scaffold_of_five(a: &str, b: &str, c: &str, d: &str, e: &str) -> bool
    ensures { result ≡ (are a.now b.now (codes "brokers") (codes "topics") && is_topic_name c.now && bytes_eq d.now (codes "partitions") && is_some (canonical e.now)) }
{
    are(a, b, "brokers", "topics")
        && may_be_topic(c.as_bytes())
        && d == "partitions"
        && canonical(e.as_bytes()).is_some()
}

/// Whether a path is a parent of entities below a root.
fn is_scaffold(path: &ZPath) -> bool
    ensures { result ≡ is_scaffold_of_parts (parts path.now) }
{
    match cut(path.as_str()) {
        Parts::One(_) => false,
        Parts::Two(_, _) => false,
        Parts::Three(_, _, _) => false,
        Parts::Four(a, b, c, d) => is_scaffold_of_four(a, b, c, d),
        Parts::Five(a, b, c, d, e) => is_scaffold_of_five(a, b, c, d, e),
        Parts::Six(_, _, _, _, _, _) => false,
        Parts::More => false,
    }
}

/// What a path that holds no entity is to the migration.
#[tactic(auto, unfolding(kz_types::specs::Paths::kind_of))]
fn kind_without_key(path: &ZPath) -> Kind
    requires { is_some (key_of path.now) ≡ false }
    ensures { result ≡ kind_of path.now }
{
    let text = path.bytes();
    if is_root(text) || is_scaffold(path) {
        return Kind::Scaffold;
    }
    if is_migrated(text) {
        return Kind::Stray;
    }
    if is_base(text) {
        return Kind::Base;
    }
    if is_control(text) {
        return Kind::Control;
    }
    if is_below_control(text) {
        return Kind::Reserved;
    }
    Kind::Outside
}

/// What a path is to the migration.
#[tactic(auto, unfolding(kz_types::specs::Paths::kind_of))]
pub fn kind(path: &ZPath) -> Kind
    ensures { result ≡ kind_of path.now }
{
    if holds_entity(path) {
        Kind::Entity
    } else {
        kind_without_key(path)
    }
}
