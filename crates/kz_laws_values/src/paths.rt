//! Laws of the definitions of paths: a name is read from the part that it is written as, a legal key is read from its path,
//! a path that holds a key is the path of it, and legal keys with one path are one key. Bytes have one place of a fault.
//!
//! Each law is the contract of a function that does nothing, or that only goes over a value which a program holds.

ghost use Rattle.std.specs.Prelude.{◌≡◌, ◌++◌, ℕ, ◌+◌, ◌<◌, ◌≤◌, true, List, Some, length, take};
ghost use Rattle.std.specs.Str.{is_utf8};
ghost use Rattle.kz_types.specs.declared.key.EntityKey.{EntityKey};
ghost use Rattle.kz_types.specs.PathRule.{is_path, has_path_form, BeginsPath};
ghost use Rattle.kz_types.specs.Faults.{IsFaultPlace};
ghost use Rattle.kz_types.specs.Paths.{part_for_name, name_of_part, key_of, path_of, is_legal};
ghost use Rattle.kz_laws_values.specs.TextKeys.{HasTexts};

/// A name that is UTF-8 is read from the part that it is written as, and a part is what the name that is read from it is written as.
pub fn names_are_restored()
    ensures read { (name : List ℕ) → is_utf8 name ≡ true → name_of_part (part_for_name name) ≡ Some name }
    ensures written { (part name : List ℕ) → name_of_part part ≡ Some name → part_for_name name ≡ part }
{}

/// The path of a legal key holds this key, where its names are UTF-8 and its numbers are at most [`MAX_NUMBER`](kz_types::MAX_NUMBER).
pub fn path_holds_its_key()
    ensures { (key : EntityKey) → is_legal key ≡ true → HasTexts key → key_of (path_of key) ≡ Some key }
{}

/// A path that holds a key is the path of this key. The key is legal, its names are UTF-8, and its numbers are at most [`MAX_NUMBER`](kz_types::MAX_NUMBER).
pub fn key_has_its_path()
    ensures path { (path : List ℕ) (key : EntityKey) → is_path path ≡ true → key_of path ≡ Some key → path_of key ≡ path }
    ensures legal { (path : List ℕ) (key : EntityKey) → is_path path ≡ true → key_of path ≡ Some key → is_legal key ≡ true }
    ensures texts { (path : List ℕ) (key : EntityKey) → is_path path ≡ true → key_of path ≡ Some key → HasTexts key }
{}

/// Legal keys with one path are one key, where their names are UTF-8 and their numbers are at most [`MAX_NUMBER`](kz_types::MAX_NUMBER).
pub fn keys_have_one_path()
    ensures { (key other : EntityKey) → is_legal key ≡ true → HasTexts key → is_legal other ≡ true → HasTexts other → path_of key ≡ path_of other → key ≡ other }
{}

/// The place of a fault is the first byte with which no path goes on, whatever its length: some path begins with the bytes before
/// the place, none begins with these and the byte there, and bytes have one such place. Bytes with a path's form are at fault, if they
/// are too many, at their length.
pub fn fault_is_the_first_byte()
    ensures one { (bytes : List ℕ) (at other : ℕ) → IsFaultPlace BeginsPath bytes at → IsFaultPlace BeginsPath bytes other → at ≡ other }
    ensures before { (bytes : List ℕ) (at n : ℕ) → IsFaultPlace BeginsPath bytes at → n ≤ at → BeginsPath (take n bytes) }
    ensures after { (bytes more : List ℕ) (at n : ℕ) → IsFaultPlace BeginsPath bytes at → at < n → at < length bytes → has_path_form (take n bytes ++ more) ≡ true → ⊥ }
    ensures too_many { (bytes : List ℕ) → has_path_form bytes ≡ true → IsFaultPlace BeginsPath bytes (length bytes) }
{}
