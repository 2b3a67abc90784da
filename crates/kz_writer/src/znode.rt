//! What has a path and a body.
ghost use Rattle.std.specs.Prelude.{◌≡◌, refl};
ghost use Rattle.kz_types.specs.declared.tree.Rendered.{Rendered};
ghost use Rattle.kz_spec_data.specs.Tree.{rendered_row};

use kz_sorted::Keyed;
use kz_types::{Rendered, Row, ZPath};

/// What has a path, which is its key, and a body.
pub trait Znode: Keyed {
    /// The path and the body.
    ghost rendered: { Self → Rendered };

    /// Lends the path.
    fn path(&self) -> &ZPath
        ensures { result.now ≡ (rendered self.entry.now).path };

    /// Lends the body.
    fn body(&self) -> &[u8]
        ensures { result.now ≡ (rendered self.entry.now).body };

    /// The path is the key.
    ghost path_is_key: { (z : Self) → (rendered z).path ≡ Self.key z };
}

impl Znode for Row {
    ghost rendered = { rendered_row };

    ghost path_is_key = { λ z. refl };

    fn path(&self) -> &ZPath {
        &self.path
    }

    fn body(&self) -> &[u8] {
        self.body.as_slice()
    }
}

impl Znode for Rendered {
    ghost rendered = { λ r. r };

    ghost path_is_key = { λ z. refl };

    fn path(&self) -> &ZPath {
        &self.path
    }

    fn body(&self) -> &[u8] {
        self.body.as_slice()
    }
}
