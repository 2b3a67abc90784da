//! The limits of a rendering, by its counts.
ghost use Rattle.std.specs.Prelude.{◌≡◌, List, option_map};
ghost use Rattle.kz_types.specs.declared.tree.Rendered.{Rendered};
ghost use Rattle.kz_spec_data.specs.Rendering.{excess_of};
ghost use Rattle.kz_counted_view.specs.Counting.{counts_of, limit_of_counts};

use crate::counts::Counts;
use kz_types::{Limit, MAX_BODIES_BYTES, MAX_ZNODES};

// The number of the first limit that these counts pass.
fn limit_of_counts(counts: Counts) -> Option<u8>
    ensures { result ≡ limit_of_counts counts }
{
    if counts.long > 0 {
        Some(Limit::BodyBytes.number())
    } else if counts.znodes > MAX_ZNODES {
        Some(Limit::MigratedZnodes.number())
    } else if counts.bytes > MAX_BODIES_BYTES {
        Some(Limit::BodiesBytes.number())
    } else {
        None
    }
}

/// The number of the first limit that znodes of these counts pass, if any: that of one znode's data, of znodes, of all data.
pub fn passed_limit(counts: Counts) -> Option<u8>
    ensures { (znodes : List Rendered) → counts ≡ counts_of znodes → result ≡ option_map (λ passed. passed.number) (excess_of znodes) }
{
    limit_of_counts(counts)
}
