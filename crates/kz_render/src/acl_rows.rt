//! The access control entries of one resource.
ghost use Rattle.std.specs.Prelude.{◌≡◌, ◌&&◌, ◌++◌, true, map, IfOk, OnOk, bytes_eq, if◌then◌else◌, [], ◌∷◌};
ghost use Rattle.std.specs.Ordering.{int_eq};
ghost use Rattle.std.specs.List.{filter};
ghost use Rattle.kz_types.specs.Paths.{is_legal};
ghost use Rattle.kz_types.specs.declared.key.EntityKey.TheVariants as key;
ghost use Rattle.kz_spec_data.specs.Entities.{rows_of_resource};
ghost use Rattle.kz_render.specs.Resources.{is_at, rows_at};

use kz_image::Image;
use kz_laws_znodes::held_name_is_text;
use kz_types::{AclEntry, AclRow, Duplicate, NoMemory, Text};
use std::alloc::Global;

/// A resource: its pattern, the code of its type, and its name.
#[derive(Clone, Copy)]
pub struct Resource<'a> {
    pub pattern: i8,
    pub kind: i8,
    pub name: &'a Text,
}

// Whether an entry is one of a resource.
fn is_at(resource: &Resource<'_>, row: &AclRow) -> bool
    ensures { result ≡ is_at resource.now.pattern resource.now.kind resource.now.name.now row.now }
{
    row.pattern == resource.pattern
        && row.kind == resource.kind
        && row.name.bytes() == resource.name.bytes()
}

// Adds an entry, where it is one of a resource.
fn push_at(
    alloc: Global,
    rows: &mut Vec<AclRow>,
    resource: &Resource<'_>,
    row: &AclRow,
) -> Result<(), NoMemory>
    ensures { OnOk result (rows.new.items ≡ rows.old.items ++ (if is_at resource.now.pattern resource.now.kind resource.now.name.now row.now then row.now ∷ [] else [])) }
{
    if is_at(resource, row) {
        rows.push(row.copy(alloc)?)?;
    }
    Ok(())
}

// Those of these entries that are of a resource, in the order in which they stand.
fn rows_at(
    alloc: Global,
    entries: &[&AclEntry],
    resource: &Resource<'_>,
) -> Result<Vec<AclRow>, NoMemory>
    ensures { IfOk result (λ rows. rows.items ≡ rows_at resource.now.pattern resource.now.kind resource.now.name.now (map (λ a. a.now) entries.now)) }
{
    let mut rows = Vec::new(alloc);
    for entry in entries {
        push_at(alloc, &mut rows, resource, &entry.row)?;
    }
    Ok(rows)
}

/// The entries of the resource of a key, by rising id. It looks at no entry of another name.
pub fn rows_of_resource(
    alloc: Global,
    image: &Image,
    resource: &Resource<'_>,
) -> Result<Vec<AclRow>, NoMemory>
    requires { is_legal (key.Acl resource.now.pattern resource.now.kind resource.now.name.now) ≡ true }
    ensures { IfOk result (λ rows. rows.items ≡ rows_of_resource (key.Acl resource.now.pattern resource.now.kind resource.now.name.now) image.now.acls) }
{
    image.is_held();
    held_name_is_text(resource.name);
    let named = image.acls_named(alloc, resource.name)?;
    rows_at(alloc, &named, resource)
}
