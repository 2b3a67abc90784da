//! The limit of all data together, at its last byte.
ghost use Rattle.std.specs.Prelude.{◌≡◌, List, [], ◌∷◌, ◌++◌, All, length, Some, None, codes};
ghost use Rattle.kz_types.specs.declared.tree.Rendered.{Rendered};
ghost use Rattle.kz_spec_data.specs.Rendering.{excess_of};

/// Of 64 znodes with 1,048,575 bytes each and a last one, the data together is 67,108,864 bytes where the last has 64, and
/// keeps the limits. With one byte more it passes the sixth.
pub fn all_data_has_at_most_67108864_bytes()
    ensures kept { (znodes : List Rendered) (last : Rendered) → length znodes ≡ 64 → All (λ znode. length znode.body ≡ 1048575) znodes
        → length last.body ≡ 64 → excess_of (znodes ++ last ∷ []) ≡ None }
    ensures over { (znodes : List Rendered) (last : Rendered) → length znodes ≡ 64 → All (λ znode. length znode.body ≡ 1048575) znodes
        → length last.body ≡ 65 → excess_of (znodes ++ last ∷ []) ≡ Some (record { number = 6; path = codes "/brokers/topics" }) }
{}
