//! The data of one znode.
ghost use Rattle.std.specs.Prelude.{◌≡◌, option_map, IfOk};
ghost use Rattle.kz_types.specs.Paths.{key_of};
ghost use Rattle.kz_spec_data.specs.Rendering.{body_at_path};
ghost use Rattle.kz_spec_data.specs.Lookups.{body_at, no_data_if, stands_bare};

use crate::bare::stands_bare;
use crate::bodies::written_body;
use kz_image::Image;
use kz_laws_values::held_path_has_its_key;
use kz_laws_znodes::rendered_at;
use kz_path::key_of;
use kz_types::{EntityKey, NoMemory, ZPath};
use std::alloc::Global;

// No data, where a znode stands at a path without the body of an entity.
fn no_data(
    alloc: Global,
    image: &Image,
    path: &ZPath,
    key: &Option<EntityKey>,
) -> Result<Option<Vec<u8>>, NoMemory>
    ensures { IfOk result (λ body. option_map (λ b. b.items) body ≡ no_data_if (stands_bare image.now path.now key.now)) }
{
    if stands_bare(alloc, image, path, key)? {
        return Ok(Some(Vec::new(alloc)));
    }
    Ok(None)
}

// What the look-ups find at a path.
fn body_at(alloc: Global, image: &Image, path: &ZPath) -> Result<Option<Vec<u8>>, NoMemory>
    ensures { IfOk result (λ body. option_map (λ b. b.items) body ≡ body_at image.now path.now) }
{
    held_path_has_its_key(path);
    let key = key_of(alloc, path)?;
    match written_body(alloc, image, path, &key)? {
        Some(body) => Ok(Some(body)),
        None => no_data(alloc, image, path, &key),
    }
}

/// The data that a path is rendered with, where it is rendered. No other znode is rendered for it. What the metadata holds for the path is
/// found by a search, but for the access control entries of a resource: all entries are gone over for these. `NoMemory` is the only
/// error.
pub fn render_one(alloc: Global, image: &Image, path: &ZPath) -> Result<Option<Vec<u8>>, NoMemory>
    ensures { IfOk result (λ body. option_map (λ b. b.items) body ≡ body_at_path image.now path.now) }
{
    rendered_at();
    image.is_held();
    let _rule = path.bytes();
    body_at(alloc, image, path)
}
