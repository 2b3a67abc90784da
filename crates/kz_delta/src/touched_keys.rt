//! Keys that are touched.
ghost use Rattle.std.specs.Prelude.{◌≡◌, true, All};
ghost use Rattle.kz_types.specs.Paths.{is_legal, path_of};
ghost use Rattle.kz_types.specs.Order.{bytes_cmp};
ghost use Rattle.kz_types.specs.Ordered.{Rises};

use kz_types::EntityKey;
use std::marker::Model;

/// The keys of entities that a feed touches: legal ones, by the rising path of their znode, each once.
#[derive(Drop)]
pub struct Touched {
    pub(crate) keys: Vec<EntityKey>,
}

impl Model for Touched {
    ghost use Rattle.std.specs.Prelude.{List, ◌≡◌, true, All};
    ghost use Rattle.kz_types.specs.declared.key.EntityKey.{EntityKey as EntityKeyValue};
    ghost use Rattle.kz_types.specs.Paths.{is_legal, path_of};
    ghost use Rattle.kz_types.specs.Order.{bytes_cmp};
    ghost use Rattle.kz_types.specs.Ordered.{Rises};

    ghost Value = { List EntityKeyValue };

    ghost view = { λ t. t.keys.items };

    ghost invariant = { λ t. Rises bytes_cmp path_of t.keys.items × All (λ k. is_legal k ≡ true) t.keys.items };
}

impl Touched {
    /// Lends the keys.
    pub fn keys(&self) -> &[EntityKey]
        ensures keys { result.now ≡ self.now }
        ensures rise { Rises bytes_cmp path_of self.now }
        ensures legal { All (λ k. is_legal k ≡ true) self.now }
    {
        &self.keys
    }
}
