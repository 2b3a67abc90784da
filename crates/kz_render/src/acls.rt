//! The znodes of access control entries.
ghost use Rattle.std.specs.Prelude.{◌≡◌, ◌∷◌, ◌++◌, [], All, map, OnOk};
ghost use Rattle.kz_spec_data.specs.Bodies.{text_of_body};
ghost use Rattle.kz_spec_data.specs.Legal.{IsAcl};
ghost use Rattle.kz_spec_data.specs.Rendering.{acl_znode};
ghost use Rattle.kz_render.specs.Gathered.{resource_znode, PutAlike};

use crate::push::push_znode;
use crate::resources::{Resource, resources};
use kz_body_texts::acls_text;
use kz_sorted::Blocks;
use kz_types::{AclEntry, Duplicate, NoMemory, Rendered};
use std::alloc::Global;

// Adds the znode of a resource.
#[tactic(auto, unfolding(kz_spec_data::specs::Bodies::text_of_body))]
fn push_resource(
    alloc: Global,
    znodes: &mut Vec<Rendered>,
    resource: &Resource,
) -> Result<(), NoMemory>
    ensures { OnOk result (znodes.new.items ≡ znodes.old.items ++ resource_znode resource.now ∷ []) }
{
    let path = resource.path.copy(alloc)?;
    let text = acls_text(alloc, resource.rows.as_slice())?;
    push_znode(znodes, path, text.into_bytes())
}

// Adds the znodes of resources.
fn push_resources(
    alloc: Global,
    znodes: &mut Vec<Rendered>,
    resources: &[Resource],
) -> Result<(), NoMemory>
    ensures { OnOk result (znodes.new.items ≡ znodes.old.items ++ map resource_znode resources.now) }
{
    for resource in resources {
        push_resource(alloc, znodes, resource)?;
    }
    Ok(())
}

/// Adds the znodes of the resources that have access control entries, each once.
pub fn push_acls(
    alloc: Global,
    znodes: &mut Vec<Rendered>,
    entries: &Blocks<AclEntry>,
) -> Result<(), NoMemory>
    requires { All IsAcl entries.now }
    ensures { OnOk result (PutAlike znodes.new.items (znodes.old.items ++ map (acl_znode entries.now) entries.now)) }
{
    let resources = resources(alloc, entries)?;
    push_resources(alloc, znodes, &resources)?;
    Ok(())
}
