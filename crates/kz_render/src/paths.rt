//! Paths of entities and of their parents.
ghost use Rattle.std.specs.Prelude.{◌≡◌, ◌++◌, IfOk, true};
ghost use Rattle.kz_types.specs.Paths.{path_of, is_legal, has_path};
ghost use Rattle.kz_types.specs.PathRule.{is_path};

use kz_path::path_of;
use kz_types::{EntityKey, NoMemory, PathFault, Text, ZPath};
use std::alloc::Global;

/// The path of an entity that has one.
#[tactic(auto, unfolding(kz_types::specs::Paths::has_path))]
pub fn entity_path(alloc: Global, key: &EntityKey) -> Result<ZPath, NoMemory>
    requires legal { is_legal key.now ≡ true }
    requires rule { has_path key.now ≡ true }
    ensures { IfOk result (λ path. path ≡ path_of key.now) }
{
    match path_of(alloc, key) {
        Ok(path) => Ok(path),
        Err(PathFault::NoMemory) => Err(NoMemory),
        Err(PathFault::BadName { .. }) => unreachable!(),
    }
}

/// The path that goes on from this one.
pub fn path_after(alloc: Global, path: &ZPath, rest: &str) -> Result<ZPath, NoMemory>
    requires { is_path (path.now ++ rest.now) ≡ true }
    ensures { IfOk result (λ made. made ≡ path.now ++ rest.now) }
{
    let path = path.as_str();
    let mut text = String::with_capacity(alloc, path.len().saturating_add(rest.len()))?;
    text.push_str(path)?;
    text.push_str(rest)?;
    Ok(ZPath::from_text(Text::from_string(text)))
}
