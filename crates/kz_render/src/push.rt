//! Znodes added to a list.
ghost use Rattle.std.specs.Prelude.{◌≡◌, ◌∷◌, ◌++◌, [], OnOk};
ghost use Rattle.kz_spec_data.specs.Rendering.{bare};

use kz_types::{NoMemory, Rendered, Sequence, ZPath};
use std::alloc::Global;

/// Adds a znode with this data.
pub fn push_znode(znodes: &mut Vec<Rendered>, path: ZPath, body: Vec<u8>) -> Result<(), NoMemory>
    ensures { OnOk result (znodes.new.items ≡ znodes.old.items ++ record { path = path; body = body.items } ∷ []) }
{
    znodes.push(Rendered {
        path,
        body: Sequence::from_vec(body),
    })?;
    Ok(())
}

/// Adds a znode without data.
pub fn push_bare(alloc: Global, znodes: &mut Vec<Rendered>, path: ZPath) -> Result<(), NoMemory>
    ensures { OnOk result (znodes.new.items ≡ znodes.old.items ++ bare path ∷ []) }
{
    znodes.push(Rendered {
        path,
        body: Sequence::new(alloc),
    })?;
    Ok(())
}
