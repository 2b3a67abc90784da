//! The bodies of znodes, asked for by path.
ghost use Rattle.std.specs.Prelude.{◌≡◌, ◌≤◌, ◌+◌, ℕ, List, option_map, IfOk};
ghost use Rattle.kz_types.specs.declared.tree.Rendered.{Rendered};
ghost use Rattle.kz_types.specs.Order.{bytes_cmp};
ghost use Rattle.kz_types.specs.Ordered.{find, Rises};

use crate::memory::NoMemory;
use crate::path::ZPath;

/// What answers for the bodies of some znodes, one at a time: a tree, or metadata that is rendered as far as it is asked for.
pub trait Bodies {
    /// The znodes.
    ghost znodes: { Self → List Rendered };

    /// How many bodies have been made or read.
    ghost count: { Self → ℕ };

    /// The body of the znode at a path, or `None` where there is none.
    fn body(&mut self, path: &ZPath) -> Result<Option<Vec<u8>>, NoMemory>
        ensures ok { IfOk result (λ found. option_map (λ b. b.items) found ≡ option_map (λ r. r.body) (find bytes_cmp (λ (r : Rendered). r.path) path.now (znodes self.old))) }
        ensures same { znodes self.new ≡ znodes self.old }
        ensures counts { (count self.old ≤ count self.new) × (count self.new ≤ count self.old + 1) };

    /// The paths of the znodes rise.
    ghost rises: { (s : Self) → Rises bytes_cmp (λ (r : Rendered). r.path) (znodes s) };
}
