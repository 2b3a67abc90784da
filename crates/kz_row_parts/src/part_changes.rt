//! Changes of parts of znodes and of their numbers.
ghost use Rattle.std.specs.Prelude.{◌≡◌, ◌<◌, ◌≤◌, [], true, length, slice_index_or, OnOk, OnErr};
ghost use Rattle.std.specs.List.{list_all};
ghost use Rattle.kz_types.specs.Order.{bytes_cmp};
ghost use Rattle.kz_sorted.specs.BlockLists.{items_of, IsBlockFor};
ghost use Rattle.kz_spec_data.specs.Loads.{is_before};
ghost use Rattle.kz_spec_data.specs.Tree.{path_of_row, put_row, without_row};
ghost use Rattle.kz_row_parts.specs.Numbered.{AreNumberedParts};

use crate::changes::{with_one_more, with_two, without_one};
use crate::numbered::NumberedRows;
use crate::part::{Part, part_for};
use kz_row_numbers::Segments;
use kz_types::{NoMemory, Row};
use std::alloc::Global;

// Puts a znode after all others, into a part of its own. The other parts keep their numbers.
fn append_part(
    alloc: Global,
    parts: &mut Vec<Part>,
    segments: &mut Segments,
    row: Row,
) -> Result<(), NoMemory>
    requires numbered { AreNumberedParts parts.old.items segments.old }
    requires last { list_all (is_before row.path) (items_of parts.old.items) ≡ true }
    ensures ok { OnOk result (items_of parts.new.items ≡ put_row row (items_of parts.old.items)) }
    ensures err { OnErr result (items_of parts.new.items ≡ items_of parts.old.items) }
    ensures kept { AreNumberedParts parts.new.items segments.new }
{
    let mut rows = NumberedRows::new(alloc);
    rows.put(row)?;
    let changed = with_one_more(alloc, segments, rows.numbers())?;
    let part = Part::new(alloc, rows)?;
    parts.push(part)?;
    *segments = changed;
    Ok(())
}

// Two parts in place of one, where it has two blocks or more. The znodes stay, and the other parts keep their numbers.
fn cut_in_two(
    alloc: Global,
    parts: &mut Vec<Part>,
    segments: &mut Segments,
    place: usize,
) -> Result<(), NoMemory>
    requires numbered { AreNumberedParts parts.old.items segments.old }
    requires within { place < length parts.old.items }
    ensures same { items_of parts.new.items ≡ items_of parts.old.items }
    ensures some { length parts.old.items ≤ length parts.new.items }
    ensures kept { AreNumberedParts parts.new.items segments.new }
{
    let Some((first, second)) = parts[place].rows().in_two()? else {
        return Ok(());
    };
    let changed = with_two(alloc, segments, place, first.numbers(), second.numbers())?;
    let second = Part::new(alloc, second)?;
    let first = Part::new(alloc, first)?;
    parts.insert(place, first)?;
    parts[place + 1] = second;
    *segments = changed;
    Ok(())
}

// Puts a znode into a part. The other parts keep their numbers.
fn put_in_part(
    alloc: Global,
    parts: &mut Vec<Part>,
    segments: &mut Segments,
    place: usize,
    row: Row,
) -> Result<(), NoMemory>
    requires numbered { AreNumberedParts parts.old.items segments.old }
    requires within { place < length parts.old.items }
    requires part { IsBlockFor bytes_cmp path_of_row row.path parts.old.items place }
    ensures ok { OnOk result (items_of parts.new.items ≡ put_row row (items_of parts.old.items)) }
    ensures err { OnErr result (items_of parts.new.items ≡ items_of parts.old.items) }
    ensures kept { AreNumberedParts parts.new.items segments.new }
{
    parts[place].put(alloc, row)?;
    segments.set(place, parts[place].rows().numbers());
    Ok(())
}

/// Puts a znode at its place, instead of the one with its path. At `Err`, memory ran out, and the znodes are as they were.
pub fn put(
    alloc: Global,
    parts: &mut Vec<Part>,
    segments: &mut Segments,
    near: usize,
    row: Row,
) -> Result<(), NoMemory>
    requires { AreNumberedParts parts.old.items segments.old }
    ensures ok { OnOk result (items_of parts.new.items ≡ put_row row (items_of parts.old.items)) }
    ensures err { OnErr result (items_of parts.new.items ≡ items_of parts.old.items) }
    ensures kept { AreNumberedParts parts.new.items segments.new }
{
    if parts.is_empty() {
        return append_part(alloc, parts, segments, row);
    }
    let place = part_for(parts, row.path.bytes(), near);
    if parts[place].rows().has_room(row.path.bytes()) {
        return put_in_part(alloc, parts, segments, place, row);
    }
    cut_in_two(alloc, parts, segments, place)?;
    let place = part_for(parts, row.path.bytes(), place);
    put_in_part(alloc, parts, segments, place, row)
}

// Puts a znode after all others, into the last part. It searches for no place.
fn append_to_part(
    alloc: Global,
    parts: &mut Vec<Part>,
    segments: &mut Segments,
    place: usize,
    row: Row,
) -> Result<(), NoMemory>
    requires numbered { AreNumberedParts parts.old.items segments.old }
    requires within { place < length parts.old.items }
    requires part { IsBlockFor bytes_cmp path_of_row row.path parts.old.items place }
    requires last { list_all (is_before row.path) (slice_index_or parts.old.items place []) ≡ true }
    ensures ok { OnOk result (items_of parts.new.items ≡ put_row row (items_of parts.old.items)) }
    ensures err { OnErr result (items_of parts.new.items ≡ items_of parts.old.items) }
    ensures kept { AreNumberedParts parts.new.items segments.new }
{
    parts[place].append(alloc, row)?;
    segments.set(place, parts[place].rows().numbers());
    Ok(())
}

/// Puts a znode after all others. It searches for no place. At `Err`, memory ran out, and the znodes are as they were.
pub fn append(
    alloc: Global,
    parts: &mut Vec<Part>,
    segments: &mut Segments,
    row: Row,
) -> Result<(), NoMemory>
    requires numbered { AreNumberedParts parts.old.items segments.old }
    requires last { list_all (is_before row.path) (items_of parts.old.items) ≡ true }
    ensures ok { OnOk result (items_of parts.new.items ≡ put_row row (items_of parts.old.items)) }
    ensures err { OnErr result (items_of parts.new.items ≡ items_of parts.old.items) }
    ensures kept { AreNumberedParts parts.new.items segments.new }
{
    if parts.is_empty() {
        return append_part(alloc, parts, segments, row);
    }
    let place = parts.len() - 1;
    if parts[place].rows().has_room_at_end() {
        return append_to_part(alloc, parts, segments, place, row);
    }
    append_part(alloc, parts, segments, row)
}

// Takes the one znode of a part out, and the part with it.
fn take_part(
    alloc: Global,
    parts: &mut Vec<Part>,
    segments: &mut Segments,
    place: usize,
    path: &[u8],
) -> Result<(), NoMemory>
    requires numbered { AreNumberedParts parts.old.items segments.old }
    requires within { place < length parts.old.items }
    requires part { IsBlockFor bytes_cmp path_of_row path.now parts.old.items place }
    requires gone { without_row path.now (slice_index_or parts.old.items place []) ≡ [] }
    ensures ok { OnOk result (items_of parts.new.items ≡ without_row path.now (items_of parts.old.items)) }
    ensures err { OnErr result (items_of parts.new.items ≡ items_of parts.old.items) }
    ensures kept { AreNumberedParts parts.new.items segments.new }
{
    let changed = without_one(alloc, segments, place)?;
    let _taken = parts.remove(place);
    *segments = changed;
    Ok(())
}

// Takes one of several znodes of a part out.
fn take_from_part(
    alloc: Global,
    parts: &mut Vec<Part>,
    segments: &mut Segments,
    place: usize,
    path: &[u8],
) -> Result<(), NoMemory>
    requires numbered { AreNumberedParts parts.old.items segments.old }
    requires within { place < length parts.old.items }
    requires part { IsBlockFor bytes_cmp path_of_row path.now parts.old.items place }
    requires left { 0 < length (without_row path.now (slice_index_or parts.old.items place [])) }
    ensures ok { OnOk result (items_of parts.new.items ≡ without_row path.now (items_of parts.old.items)) }
    ensures err { OnErr result (items_of parts.new.items ≡ items_of parts.old.items) }
    ensures kept { AreNumberedParts parts.new.items segments.new }
{
    parts[place].take_out(alloc, path)?;
    segments.set(place, parts[place].rows().numbers());
    Ok(())
}

/// Takes the znode of a path out, where there is one. At `Err`, memory ran out, and the znodes are as they were.
pub fn take_out(
    alloc: Global,
    parts: &mut Vec<Part>,
    segments: &mut Segments,
    near: usize,
    path: &[u8],
) -> Result<(), NoMemory>
    requires { AreNumberedParts parts.old.items segments.old }
    ensures ok { OnOk result (items_of parts.new.items ≡ without_row path.now (items_of parts.old.items)) }
    ensures err { OnErr result (items_of parts.new.items ≡ items_of parts.old.items) }
    ensures kept { AreNumberedParts parts.new.items segments.new }
{
    if parts.is_empty() {
        return Ok(());
    }
    let place = part_for(parts, path, near);
    if parts[place].rows().find(path).is_none() {
        return Ok(());
    }
    if segments.at(place).rows == 1 {
        return take_part(alloc, parts, segments, place, path);
    }
    take_from_part(alloc, parts, segments, place, path)
}
