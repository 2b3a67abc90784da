//! Laws of the definitions. Each stands on a function that does nothing.
//!
//! `A` is the type of the items and `K` that of the keys. First come the laws, and then examples.
ghost use Rattle.std.specs.Prelude.{◌≡◌, ℕ, [], ◌∷◌, Some, None, ◌==◌, codes};
ghost use Rattle.std.specs.Ordering.{nat_cmp, int_cmp};
ghost use Rattle.kz_types.specs.Order.{TotalOrder, bytes_cmp};
ghost use Rattle.kz_types.specs.Ordered.{find, put, without, all_put};
ghost use Rattle.kz_types.specs.Difference.{difference, drop_key, make, alter};
ghost use Rattle.kz_types.specs.OrderedLaws.{PutIsFound, PutLeavesOthers, WithoutIsNotFound, WithoutLeavesOthers, AllPutFindsLast, PutRises, WithoutRises, AllPutRises, FoundHasTheKey, ItemIsFound, NothingBelowTheFirst, SameItems, FoundInEither, JoinedRises, GreatestIsPutLast, MappedIsFound, MappedRises, PlaceOfItem, PlaceInGap, BinarySearchTellsPlace};
ghost use Rattle.kz_types.specs.DifferenceLaws.{DifferenceLeads, PartLeavesRest, NoDifference, DueExactly, DueOnce, EditsInOrder, CoveredDifference};

/// Numbers, signed numbers and byte strings are totally ordered.
pub fn total_orders()
    ensures numbers { TotalOrder nat_cmp }
    ensures signed_numbers { TotalOrder int_cmp }
    ensures byte_strings { TotalOrder bytes_cmp }
{}

/// After a put, the item is found under its key, and under each other key what was found before.
pub fn look_up_after_put<A, K>()
    ensures found { PutIsFound A K }
    ensures others { PutLeavesOthers A K }
    ensures of_many { AllPutFindsLast A K }
{}

/// After an item was taken out, nothing is found under its key, and under each other key what was found before.
pub fn look_up_after_without<A, K>()
    ensures gone { WithoutIsNotFound A K }
    ensures others { WithoutLeavesOthers A K }
{}

/// A list that rises still does after each change.
pub fn order_is_kept<A, K>()
    ensures put { PutRises A K }
    ensures without { WithoutRises A K }
    ensures all_put { AllPutRises A K }
{}

/// What is found is the list's item with the key; in a list that rises each item is found, and nothing below the first.
pub fn found_item<A, K>()
    ensures key { FoundHasTheKey A K }
    ensures each { ItemIsFound A K }
    ensures below { NothingBelowTheFirst A K }
{}

/// Two lists that rise and find the same under each key are equal.
pub fn same_items<A, K>()
    ensures { SameItems A K }
{}

/// Lists joined end to end.
pub fn joined_lists<A, K>()
    ensures found { FoundInEither A K }
    ensures rises { JoinedRises A K }
    ensures put_last { GreatestIsPutLast A K }
{}

/// What a list that rises finds, and becomes, at the place of a key.
pub fn place_of_key<A, K>()
    ensures item { PlaceOfItem A K }
    ensures gap { PlaceInGap A K }
    ensures searched { BinarySearchTellsPlace A K }
{}

/// A list whose items are changed but keep their keys.
pub fn mapped_list<A, B, K>()
    ensures found { MappedIsFound A B K }
    ensures rises { MappedRises A B K }
{}

/// The difference of two lists makes the second of the first. Once some of its edits are applied, in their order, the difference is the rest of them.
pub fn difference_leads<A, K>()
    ensures whole { DifferenceLeads A K }
    ensures part { PartLeavesRest A K }
    ensures none { NoDifference A K }
{}

/// Which edits the difference has, and in which order.
pub fn edits_of_difference<A, K>()
    ensures due { DueExactly A K }
    ensures once { DueOnce A K }
    ensures order { EditsInOrder A K }
{}

/// The difference of two lists is that of their items under the keys at which they may differ.
pub fn covered_difference<A, K>()
    ensures { CoveredDifference A K }
{}

/// An item is put at its place.
pub fn put_at_its_place()
    ensures { put nat_cmp (λ x. x) 2 (1 ∷ 3 ∷ []) ≡ 1 ∷ 2 ∷ 3 ∷ [] }
{}

/// Byte strings are put by their bytes, and not by their parts between slashes: `-` is below `/`.
pub fn path_put_by_bytes()
    ensures { put bytes_cmp (λ x. x) (codes "/a-b") (codes "/a" ∷ codes "/a/b" ∷ []) ≡ codes "/a" ∷ codes "/a-b" ∷ codes "/a/b" ∷ [] }
{}

/// An item is found by its key.
pub fn found_by_key()
    ensures found { find nat_cmp (λ (x : ℕ × ℕ). x.0) 2 ((1, 5) ∷ (2, 6) ∷ []) ≡ Some (2, 6) }
    ensures absent { find nat_cmp (λ (x : ℕ × ℕ). x.0) 3 ((1, 5) ∷ (2, 6) ∷ []) ≡ None }
{}

/// Only the item with the key is taken out.
pub fn taken_out()
    ensures { without nat_cmp (λ (x : ℕ × ℕ). x.0) 2 ((1, 5) ∷ (2, 6) ∷ (3, 7) ∷ []) ≡ (1, 5) ∷ (3, 7) ∷ [] }
{}

/// Of two items with one key, the later one stands.
pub fn later_one_stands()
    ensures { all_put nat_cmp (λ (x : ℕ × ℕ). x.0) ((2, 6) ∷ (1, 5) ∷ (2, 7) ∷ []) [] ≡ (1, 5) ∷ (2, 7) ∷ [] }
{}

/// The difference drops 4 and then 1, alters 2, makes 3, and leaves 5 as it is.
pub fn difference_of_pairs()
    ensures { difference nat_cmp (λ (x : ℕ × ℕ). x.0) (λ x y. x.1 == y.1) ((1, 5) ∷ (2, 6) ∷ (4, 0) ∷ (5, 8) ∷ []) ((2, 7) ∷ (3, 1) ∷ (5, 8) ∷ []) ≡ drop_key 4 ∷ drop_key 1 ∷ alter (2, 7) ∷ make (3, 1) ∷ [] }
{}
