//! The keys of the resources of access control entries.
ghost use Rattle.std.specs.Prelude.{◌≡◌, ◌++◌, ◌∷◌, [], option_map, option_to_list, OnOk};
ghost use Rattle.kz_spec_data.specs.Metadata.{acl_of};
ghost use Rattle.kz_spec_data.specs.Rendering.{acl_key};
ghost use Rattle.kz_spec_data.specs.Touched.{keys_of_entry};

use kz_image::Image;
use kz_types::{AclRow, Duplicate, EntityKey, Id, NoMemory};
use std::alloc::Global;

/// Adds the key of the resource of an access control entry.
pub(crate) fn push_key_of_resource(
    alloc: Global,
    keys: &mut Vec<EntityKey>,
    row: &AclRow,
) -> Result<(), NoMemory>
    ensures { OnOk result (keys.new.items ≡ keys.old.items ++ acl_key row.now ∷ []) }
{
    keys.push(EntityKey::Acl {
        pattern: row.pattern,
        kind: row.kind,
        name: row.name.copy(alloc)?,
    })?;
    Ok(())
}

// Adds the key of the resource that an entry has in this metadata, where it is there.
fn push_resource(
    alloc: Global,
    keys: &mut Vec<EntityKey>,
    image: &Image,
    id: Id,
) -> Result<(), NoMemory>
    ensures { OnOk result (keys.new.items ≡ keys.old.items ++ option_to_list (option_map acl_key (acl_of id image.now))) }
{
    match image.acl(id) {
        Some(row) => push_key_of_resource(alloc, keys, row),
        None => Ok(()),
    }
}

/// Adds the keys of the resources of an access control entry, before and after.
pub(crate) fn push_keys_of_entry(
    alloc: Global,
    keys: &mut Vec<EntityKey>,
    old: &Image,
    new: &Image,
    id: Id,
) -> Result<(), NoMemory>
    ensures { OnOk result (keys.new.items ≡ keys.old.items ++ keys_of_entry old.now new.now id) }
{
    push_resource(alloc, keys, old, id)?;
    push_resource(alloc, keys, new, id)
}
