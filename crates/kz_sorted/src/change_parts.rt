//! Changes of one part among the others.
ghost use Rattle.std.specs.Prelude.{◌≡◌, ◌<◌, length, OnOk, OnErr};
ghost use Rattle.kz_types.specs.Order.{bytes_cmp};
ghost use Rattle.kz_types.specs.Ordered.{put as put_in, without as without_in, AllBelow};
ghost use Rattle.kz_sorted.specs.BlockLists.{items_of, AreParts, IsBlockFor};

use crate::part::Part;
use crate::search::part_for;
use crate::{Keyed, Near};
use kz_types::{NoMemory, Shared};
use std::alloc::Global;

// Puts an item that comes after all others: it begins a part. At `Err`, memory ran out, and the list is as it was.
fn append_part<T: Keyed + Drop>(
    alloc: Global,
    parts: &mut Vec<Part<T>>,
    near: &Near,
    item: Shared<T>,
) -> Result<(), NoMemory>
    requires parts { AreParts bytes_cmp T.key parts.old.items }
    requires after { AllBelow bytes_cmp T.key (items_of parts.old.items) (T.key item) }
    ensures ok { OnOk result (items_of parts.new.items ≡ put_in bytes_cmp T.key item (items_of parts.old.items)) }
    ensures err { OnErr result (items_of parts.new.items ≡ items_of parts.old.items) }
    ensures kept { AreParts bytes_cmp T.key parts.new.items }
{
    let mut part = Part::new();
    part.put(alloc, near, item)?;
    parts.push(part)?;
    Ok(())
}

// Puts an item into a part. At `Err`, memory ran out, and the items are as they were.
fn put_in_part<T: Keyed + Drop>(
    alloc: Global,
    parts: &mut Vec<Part<T>>,
    place: usize,
    near: &Near,
    item: Shared<T>,
) -> Result<(), NoMemory>
    requires parts { AreParts bytes_cmp T.key parts.old.items }
    requires within { place < length parts.old.items }
    requires part { IsBlockFor bytes_cmp T.key (T.key item) parts.old.items place }
    ensures ok { OnOk result (items_of parts.new.items ≡ put_in bytes_cmp T.key item (items_of parts.old.items)) }
    ensures err { OnErr result (items_of parts.new.items ≡ items_of parts.old.items) }
    ensures kept { AreParts bytes_cmp T.key parts.new.items }
{
    parts[place].put(alloc, near, item)
}

// Two parts in place of one of several blocks. The items stay as they are, also at `Err`: memory ran out then.
fn cut_part<T: Keyed + Drop>(
    alloc: Global,
    parts: &mut Vec<Part<T>>,
    place: usize,
) -> Result<(), NoMemory>
    requires parts { AreParts bytes_cmp T.key parts.old.items }
    requires within { place < length parts.old.items }
    ensures items { items_of parts.new.items ≡ items_of parts.old.items }
    ensures kept { AreParts bytes_cmp T.key parts.new.items }
    ensures some { 0 < length parts.new.items }
{
    if let Some((first, second)) = parts[place].in_two(alloc)? {
        parts.insert(place, first)?;
        parts[place + 1] = second;
    }
    Ok(())
}

/// Puts an item at its place, instead of the one with its key. A part that has no room for it is cut before, but an item after all
/// others begins a part. At `Err`, memory ran out, and the items are as they were.
pub fn put_in_parts<T: Keyed + Drop>(
    alloc: Global,
    parts: &mut Vec<Part<T>>,
    near: &Near,
    item: Shared<T>,
) -> Result<(), NoMemory>
    requires { AreParts bytes_cmp T.key parts.old.items }
    ensures ok { OnOk result (items_of parts.new.items ≡ put_in bytes_cmp T.key item (items_of parts.old.items)) }
    ensures err { OnErr result (items_of parts.new.items ≡ items_of parts.old.items) }
    ensures kept { AreParts bytes_cmp T.key parts.new.items }
{
    if parts.is_empty() {
        return append_part(alloc, parts, near, item);
    }
    let place = part_for(parts, item.key(), near.part());
    if parts[place].has_room(near, item.key()) {
        return put_in_part(alloc, parts, place, near, item);
    }
    if place + 1 == parts.len() && parts[place].is_before(item.key()) {
        return append_part(alloc, parts, near, item);
    }
    cut_part(alloc, parts, place)?;
    let place = part_for(parts, item.key(), near.part());
    put_in_part(alloc, parts, place, near, item)
}

/// Takes the item of this key out, and its part, where nothing else is in it. At `Err`, memory ran out, and the items are as they
/// were.
pub fn remove_in_parts<T: Keyed + Drop>(
    alloc: Global,
    parts: &mut Vec<Part<T>>,
    near: &Near,
    key: &[u8],
) -> Result<(), NoMemory>
    requires { AreParts bytes_cmp T.key parts.old.items }
    ensures ok { OnOk result (items_of parts.new.items ≡ without_in bytes_cmp T.key key.now (items_of parts.old.items)) }
    ensures err { OnErr result (items_of parts.new.items ≡ items_of parts.old.items) }
    ensures kept { AreParts bytes_cmp T.key parts.new.items }
{
    if parts.is_empty() {
        return Ok(());
    }
    let place = part_for(parts, key, near.part());
    parts[place].without(alloc, near, key)?;
    if parts[place].is_empty() {
        let _removed = parts.remove(place);
    }
    Ok(())
}
