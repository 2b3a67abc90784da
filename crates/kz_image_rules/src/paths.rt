//! Paths of entities, gathered of names that are lent.
ghost use Rattle.std.specs.Prelude.{◌≡◌, ◌<◌, ◌+◌, true, false, Some, ◌++◌, length};
ghost use Rattle.kz_types.specs.declared.limits.TheConstants.{MAX_PATH_BYTES};
ghost use Rattle.kz_types.specs.declared.key.EntityKey.TheVariants as key;
ghost use Rattle.kz_types.specs.Paths.{part_for_name, part_or_default, path_of, has_path};

use kz_paths::PathBuffer;
use kz_types::{Text, keeps_rule};

/// Adds the beginning of a path and the part of the default, or of a name. `false`: they make it longer than a path.
pub fn push_named(path: &mut PathBuffer, front: &[u8], name: &Option<Text>) -> bool
    ensures added { result ≡ true → path.new ≡ path.old ++ (front.now ++ part_or_default part_for_name name.now) }
    ensures too_long { result ≡ false → MAX_PATH_BYTES < length path.old + length (front.now ++ part_or_default part_for_name name.now) }
{
    path.push(front) && path.push_name(name)
}

// Adds the path of a user.
#[tactic(auto, unfolding(kz_types::specs::Paths::path_of))]
fn push_user(path: &mut PathBuffer, name: &[u8]) -> bool
    ensures added { result ≡ true → path.new ≡ path.old ++ path_of (key.User (Some name.now)) }
    ensures too_long { result ≡ false → MAX_PATH_BYTES < length path.old + length (path_of (key.User (Some name.now))) }
{
    path.push(b"/config/users/") && path.push_sanitised(name)
}

/// Whether the path of a user keeps the rule of paths.
#[tactic(auto, unfolding(kz_types::specs::Paths::has_path))]
pub fn has_user_path(name: &[u8]) -> bool
    ensures { result ≡ has_path (key.User (Some name.now)) }
{
    let mut path = PathBuffer::new();
    push_user(&mut path, name) && keeps_rule(path.bytes())
}

/// Whether the path of a resource's access control entries keeps the rule of paths.
#[tactic(auto, unfolding(kz_types::specs::Paths::has_path, kz_types::specs::Paths::path_of))]
pub fn has_acl_path(pattern: i8, kind: i8, name: &[u8]) -> bool
    ensures { result ≡ has_path (key.Acl pattern kind name.now) }
{
    let mut path = PathBuffer::new();
    path.push_acl(pattern, kind, name) && keeps_rule(path.bytes())
}
