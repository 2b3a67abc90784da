//! Lists in the order of their keys.
ghost use Rattle.std.specs.Prelude.{◌≡◌, ◌≤◌, length, option_map, OnOk, OnErr};
ghost use Rattle.std.specs.List.{AllWithin};
ghost use Rattle.std.specs.declared.cmp.Ordering.TheVariants.{Less};
ghost use Rattle.kz_types.specs.Order.{bytes_cmp};
ghost use Rattle.kz_types.specs.Ordered.{find as find_in, put as put_in, without as without_in, Rises};
ghost use Rattle.kz_types.specs.Spot.{IsSpot};

use crate::Keyed;
use kz_order::compare;
use kz_types::NoMemory;
use std::cmp::Ordering;

// The place of the item with this key, or, where there is none, that of the first item with a greater key, found by halves
// between two places.
fn spot_between<T: Keyed>(items: &[T], key: &[u8], from: usize, to: usize) -> Result<usize, usize>
    requires rises { Rises bytes_cmp T.key items.now }
    requires order { from ≤ to }
    requires within { to ≤ length items.now }
    requires below { AllWithin (λ y. bytes_cmp (T.key y) key.now ≡ Less) items.now 0 from }
    requires above { AllWithin (λ y. bytes_cmp key.now (T.key y) ≡ Less) items.now to (length items.now) }
    ensures { IsSpot bytes_cmp T.key key.now items.now result }
{
    let mut low = from;
    let mut high = to;
    while low < high {
        let middle = low + (high - low) / 2;
        match compare(items[middle].key(), key) {
            Ordering::Less => low = middle + 1,
            Ordering::Equal => return Ok(middle),
            Ordering::Greater => high = middle,
        }
    }
    Err(low)
}

// The same where all items before a place are below the key. The item at that place is tried first.
fn spot_from<T: Keyed>(items: &[T], key: &[u8], from: usize) -> Result<usize, usize>
    requires rises { Rises bytes_cmp T.key items.now }
    requires within { from ≤ length items.now }
    requires below { AllWithin (λ y. bytes_cmp (T.key y) key.now ≡ Less) items.now 0 from }
    ensures { IsSpot bytes_cmp T.key key.now items.now result }
{
    if from == items.len() {
        return Err(from);
    }
    match compare(items[from].key(), key) {
        Ordering::Less => spot_between(items, key, from + 1, items.len()),
        Ordering::Equal => Ok(from),
        Ordering::Greater => Err(from),
    }
}

/// The place of the item with this key, or, where there is none, that of the first item with a greater key. A guess of that
/// place, or of the one before it, costs two comparisons at most. Any other guess costs no more than one and a search by halves.
pub fn spot_near<T: Keyed>(items: &[T], key: &[u8], guess: usize) -> Result<usize, usize>
    requires { Rises bytes_cmp T.key items.now }
    ensures { IsSpot bytes_cmp T.key key.now items.now result }
{
    if items.len() <= guess {
        return spot_between(items, key, 0, items.len());
    }
    match compare(items[guess].key(), key) {
        Ordering::Less => spot_from(items, key, guess + 1),
        Ordering::Equal => Ok(guess),
        Ordering::Greater => spot_between(items, key, 0, guess),
    }
}

/// The place of the item with this key, or, where there is none, that of the first item with a greater key. A key after that of
/// the last item costs one comparison, so that a list that is made in its order isn't searched.
pub fn spot<T: Keyed>(items: &[T], key: &[u8]) -> Result<usize, usize>
    requires { Rises bytes_cmp T.key items.now }
    ensures { IsSpot bytes_cmp T.key key.now items.now result }
{
    spot_near(items, key, items.len().saturating_sub(1))
}

/// The item with this key, if there is one, and its place, or that of the last item below the key. As a guess this place is right
/// for the next key of the list.
pub fn find_near<'a, T: Keyed>(items: &'a [T], key: &[u8], guess: usize) -> (Option<&'a T>, usize)
    requires { Rises bytes_cmp T.key items.now }
    ensures { option_map (λ item. item.now) result.0 ≡ find_in bytes_cmp T.key key.now items.entry.now }
{
    match spot_near(items, key, guess) {
        Ok(at) => (Some(&items[at]), at),
        Err(at) => (None, at.saturating_sub(1)),
    }
}

/// The item with this key, if there is one.
pub fn find<'a, T: Keyed>(items: &'a [T], key: &[u8]) -> Option<&'a T>
    requires { Rises bytes_cmp T.key items.now }
    ensures { option_map (λ item. item.now) result ≡ find_in bytes_cmp T.key key.now items.entry.now }
{
    match spot(items, key) {
        Ok(place) => Some(&items[place]),
        Err(_) => None,
    }
}

/// The list with this item at its place, instead of the one with its key. A guess of the place is tried first. At `Err` the list is
/// as it was.
pub fn put_near<T: Keyed + Drop>(items: &mut Vec<T>, item: T, guess: usize) -> Result<(), NoMemory>
    requires { Rises bytes_cmp T.key items.old.items }
    ensures ok { OnOk result (items.new.items ≡ put_in bytes_cmp T.key item items.old.items) }
    ensures err { OnErr result (items.new.items ≡ items.old.items) }
{
    match spot_near(items, item.key(), guess) {
        Ok(place) => items[place] = item,
        Err(place) => items.insert(place, item)?,
    }
    Ok(())
}

/// The list with this item at its place, instead of the one with its key. At `Err` the list is as it was.
pub fn put<T: Keyed + Drop>(items: &mut Vec<T>, item: T) -> Result<(), NoMemory>
    requires { Rises bytes_cmp T.key items.old.items }
    ensures ok { OnOk result (items.new.items ≡ put_in bytes_cmp T.key item items.old.items) }
    ensures err { OnErr result (items.new.items ≡ items.old.items) }
{
    let last = items.len().saturating_sub(1);
    put_near(items, item, last)
}

/// The list without the item of this key.
pub fn without<T: Keyed + Drop>(items: &mut Vec<T>, key: &[u8])
    requires { Rises bytes_cmp T.key items.old.items }
    ensures { items.new.items ≡ without_in bytes_cmp T.key key.now items.old.items }
{
    if let Ok(place) = spot(items, key) {
        let _removed = items.remove(place);
    }
}
