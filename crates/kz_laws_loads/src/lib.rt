//! Laws of trees that are loaded: a run may begin with each of them.
//!
//! A law is the contract of a function that does nothing.
#![tactic(auto)]

ghost use Rattle.std.specs.Prelude.{◌≡◌, true, ℕ, ℤ, List, Ok, All};
ghost use Rattle.kz_types.specs.declared.tree.Row.{Row};
ghost use Rattle.kz_spec_data.specs.Tree.{Tree};
ghost use Rattle.kz_spec_data.specs.Log.{empty_log};
ghost use Rattle.kz_spec_data.specs.Loads.{is_load};
ghost use Rattle.kz_spec_machine.specs.Sound.{IsNotRoot};
ghost use Rattle.kz_spec_machine.specs.Openings.{IsSoundPair};
ghost use Rattle.kz_spec_machine.specs.Loading.{tree_with, loaded};
ghost use Rattle.kz_laws_loads.specs.Loads.{IsLoadOf};

/// A tree that keeps the rules of a load, and in which no znode has the root's empty path, is with an empty log a pair with
/// which a run may begin.
pub fn loaded_pair_is_sound()
    ensures { (zxid : ℤ) (sessions : List ℤ) (rows : List Row) → is_load zxid sessions rows ≡ true → All IsNotRoot rows → IsSoundPair (tree_with zxid sessions rows) empty_log }
{}

/// The tree of an input of a load keeps the rules of a load, and each of its paths is one by the rule of paths. So a run may
/// begin with it and an empty log.
pub fn loaded_input_is_sound()
    ensures load { (input : List ℕ) (t : Tree) → loaded input ≡ Ok t → IsLoadOf t }
    ensures pair { (input : List ℕ) (t : Tree) → loaded input ≡ Ok t → IsSoundPair t empty_log }
{}
