//! Laws by example: the operations between two renderings.
#![tactic(auto, unfolding(crate::proofs::ZnodesOnLiterals::znodes_on_literals))]

ghost use Rattle.std.specs.Prelude.{◌≡◌, [], ◌∷◌, None, negsuc, codes};
ghost use Rattle.std.specs.List.{repeat};
ghost use Rattle.kz_types.specs.declared.tree.Op.TheVariants.{Create, Set, Delete};
ghost use Rattle.kz_spec_data.specs.Difference.{diff, chunk, after_chunk, op_size};
ghost use Rattle.kz_spec_data.specs.ZnodeExamples.{znode_with};

/// Deletes come first, by falling path, then creates and sets by rising path, which is that of bytes: `-` and `.` stand
/// before `/`. Equal znodes are left alone.
pub fn worked_difference()
    ensures operations { diff (znode_with (codes "/a") (codes "x") ∷ znode_with (codes "/a-b") [] ∷ znode_with (codes "/a/b") [] ∷ znode_with (codes "/c") [] ∷ [])
        (znode_with (codes "/a") (codes "y") ∷ znode_with (codes "/a.b") [] ∷ znode_with (codes "/a/b") [] ∷ znode_with (codes "/d") (codes "z") ∷ [])
        ≡ Delete (codes "/c") (negsuc 0) ∷ Delete (codes "/a-b") (negsuc 0) ∷ Set (codes "/a") (codes "y") (negsuc 0) ∷ Create (codes "/a.b") [] None ∷ Create (codes "/d") (codes "z") None ∷ [] }
    ensures equal { diff (znode_with (codes "/a") (codes "x") ∷ []) (znode_with (codes "/a") (codes "x") ∷ []) ≡ [] }
    ensures all_of_it { diff (znode_with (codes "/a") [] ∷ znode_with (codes "/a/b") [] ∷ []) [] ≡ Delete (codes "/a/b") (negsuc 0) ∷ Delete (codes "/a") (negsuc 0) ∷ [] }
{}

/// A write has at most 64 operations. Each counts 32 bytes beside its path and its body.
pub fn worked_chunk()
    ensures first { chunk (repeat 65 (Delete (codes "/a") (negsuc 0) ∷ [])) ≡ repeat 64 (Delete (codes "/a") (negsuc 0) ∷ []) }
    ensures rest { after_chunk (repeat 65 (Delete (codes "/a") (negsuc 0) ∷ [])) ≡ Delete (codes "/a") (negsuc 0) ∷ [] }
    ensures none { chunk [] ≡ [] }
    ensures size { op_size (Create (codes "/a") (codes "xyz") None) ≡ 37 }
{}
