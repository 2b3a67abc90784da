//! The znodes below which each entity has its place.
ghost use Rattle.std.specs.Prelude.{◌≡◌, IfOk, map};
ghost use Rattle.kz_types.specs.Paths.{roots};
ghost use Rattle.kz_types.specs.Order.{bytes_cmp};
ghost use Rattle.kz_types.specs.Ordered.{Rises};
ghost use Rattle.kz_spec_data.specs.Tree.{path_of_rendered};
ghost use Rattle.kz_spec_data.specs.Rendering.{bare};

use crate::push::push_bare;
use kz_paths::root_paths;
use kz_types::{NoMemory, Rendered, ZPath};
use std::alloc::Global;

// These znodes, without data.
fn bare_znodes(alloc: Global, paths: Vec<ZPath>) -> Result<Vec<Rendered>, NoMemory>
    ensures { IfOk result (λ znodes. znodes.items ≡ map bare paths.items) }
{
    let mut znodes = Vec::new(alloc);
    for path in paths {
        push_bare(alloc, &mut znodes, path)?;
    }
    Ok(znodes)
}

/// The 17 roots, without data, in path order.
pub fn bare_roots(alloc: Global) -> Result<Vec<Rendered>, NoMemory>
    ensures roots { IfOk result (λ znodes. znodes.items ≡ map bare roots) }
    ensures rising { IfOk result (λ znodes. Rises bytes_cmp path_of_rendered znodes.items) }
{
    let paths = root_paths(alloc)?;
    let znodes = bare_znodes(alloc, paths)?;
    Ok(znodes)
}
