//! Changes of blocks of znodes and of their numbers.
ghost use Rattle.std.specs.Prelude.{◌≡◌, ◌≢◌, ◌<◌, ◌≤◌, [], ◌∷◌, ◌++◌, None, ◌+◌, length, slice_index_or, set, insert, remove, IfOk, OnOk, OnErr, IsTrue, IsFalse};
ghost use Rattle.kz_types.specs.Order.{bytes_cmp};
ghost use Rattle.kz_types.specs.Ordered.{AllBelow};
ghost use Rattle.kz_sorted.specs.BlockLists.{items_of, AreBlocks, IsBlockFor, IsOneChanged};
ghost use Rattle.kz_sorted.specs.declared.limits.TheConstants.{MAX_BLOCK_ITEMS};
ghost use Rattle.kz_spec_data.specs.Tree.{path_of_row, row_at, put_row, without_row};
ghost use Rattle.kz_row_parts.specs.Kept.{AreRows};
ghost use Rattle.kz_row_parts.specs.Numbered.{numbers_of, AreNumbered, FitsIn};

use crate::numbers::{numbers_of, numbers_of_row, numbers_with, segments_of};
use kz_row_numbers::{Numbers, Segments, join};
use kz_sorted::{
    Block, HALF_BLOCK_ITEMS, Keyed, MAX_BLOCK_ITEMS, Near, Shared, block_for, put_first,
    put_in_block, remove_from_block,
};
use kz_types::{NoMemory, Row};
use std::alloc::Global;

// Puts the first znode of all.
fn put_first_row(
    alloc: Global,
    blocks: &mut Vec<Block<Row>>,
    segments: &mut Segments,
    row: Shared<Row>,
) -> Result<(), NoMemory>
    requires numbered { AreNumbered blocks.old.items segments.old }
    requires none { length blocks.old.items ≡ 0 }
    ensures ok { OnOk result (items_of blocks.new.items ≡ put_row row (items_of blocks.old.items)) }
    ensures err { OnErr result (items_of blocks.new.items ≡ items_of blocks.old.items) }
    ensures kept { AreNumbered blocks.new.items segments.new }
{
    let mut changed = Vec::new(alloc);
    put_first(alloc, &mut changed, row)?;
    *segments = segments_of(alloc, &changed)?;
    *blocks = changed;
    Ok(())
}

// Takes the numbers of a block anew. It looks at each of its znodes.
fn number_anew(blocks: &[Block<Row>], segments: &mut Segments, place: usize)
    requires block { place < length blocks.now }
    requires numbers { place < length segments.old }
    ensures { segments.new ≡ set segments.old place (numbers_of (slice_index_or blocks.now place [])) }
{
    segments.set(place, numbers_of(blocks[place].items()));
}

/// Whether a znode of this path can be put into a block, which then has no more znodes than a block may have: there is room for
/// one more, or it replaces one.
pub fn fits_in(block: &Block<Row>, path: &[u8], guess: usize) -> bool
    requires { AreRows block.now }
    ensures fits { IsTrue result → FitsIn path.now block.now }
    ensures full { IsFalse result → MAX_BLOCK_ITEMS ≤ length block.now }
{
    block.items().len() < MAX_BLOCK_ITEMS || block.has_key(path, guess)
}

// Puts a znode into a block in which it fits. No other block changes, and no number yet.
fn put_fitting(
    alloc: Global,
    blocks: &mut Vec<Block<Row>>,
    place: usize,
    row: Shared<Row>,
    guess: usize,
) -> Result<(), NoMemory>
    requires blocks { AreBlocks bytes_cmp path_of_row blocks.old.items }
    requires within { place < length blocks.old.items }
    requires block { IsBlockFor bytes_cmp path_of_row row.path blocks.old.items place }
    requires fits { FitsIn row.path (slice_index_or blocks.old.items place []) }
    ensures ok { OnOk result (items_of blocks.new.items ≡ put_row row (items_of blocks.old.items)) }
    ensures err { OnErr result (items_of blocks.new.items ≡ items_of blocks.old.items) }
    ensures kept { AreBlocks bytes_cmp path_of_row blocks.new.items }
    ensures one { IsOneChanged place blocks.old.items blocks.new.items }
{
    blocks[place].put(alloc, row, guess)
}

// Puts a znode into a block in which it fits.
fn put_in_one(
    alloc: Global,
    blocks: &mut Vec<Block<Row>>,
    segments: &mut Segments,
    place: usize,
    row: Shared<Row>,
    guess: usize,
) -> Result<(), NoMemory>
    requires numbered { AreNumbered blocks.old.items segments.old }
    requires within { place < length blocks.old.items }
    requires block { IsBlockFor bytes_cmp path_of_row row.path blocks.old.items place }
    requires fits { FitsIn row.path (slice_index_or blocks.old.items place []) }
    ensures ok { OnOk result (items_of blocks.new.items ≡ put_row row (items_of blocks.old.items)) }
    ensures err { OnErr result (items_of blocks.new.items ≡ items_of blocks.old.items) }
    ensures kept { AreNumbered blocks.new.items segments.new }
{
    let (replaced, _) = blocks[place].find(row.key(), guess);
    let numbers = numbers_with(segments.at(place), replaced, row.get());
    put_fitting(alloc, blocks, place, row, guess)?;
    match numbers {
        Some(numbers) => segments.set(place, numbers),
        None => number_anew(blocks, segments, place),
    }
    Ok(())
}

/// The numbers with two in the place of one.
pub fn with_two(
    alloc: Global,
    segments: &Segments,
    place: usize,
    first: Numbers,
    second: Numbers,
) -> Result<Segments, NoMemory>
    requires { place < length segments.now }
    ensures { IfOk result (λ made. made ≡ set (insert segments.now place first) (place + 1) second) }
{
    let mut numbers = segments.numbers(alloc)?;
    numbers.insert(place, first)?;
    numbers[place + 1] = second;
    Segments::of(alloc, numbers)
}

/// The numbers and these at the end.
pub fn with_one_more(
    alloc: Global,
    segments: &Segments,
    last: Numbers,
) -> Result<Segments, NoMemory>
    ensures { IfOk result (λ made. made ≡ segments.now ++ last ∷ []) }
{
    let mut numbers = segments.numbers(alloc)?;
    numbers.push(last)?;
    Segments::of(alloc, numbers)
}

/// The numbers without those at a place.
pub fn without_one(alloc: Global, segments: &Segments, place: usize) -> Result<Segments, NoMemory>
    requires { place < length segments.now }
    ensures { IfOk result (λ made. made ≡ remove segments.now place) }
{
    let mut numbers = segments.numbers(alloc)?;
    let _gone = numbers.remove(place);
    Segments::of(alloc, numbers)
}

// Puts a znode into a full block. Two blocks of half its size come in its place. The other blocks keep their numbers.
fn put_in_two(
    alloc: Global,
    blocks: &mut Vec<Block<Row>>,
    segments: &mut Segments,
    place: usize,
    row: Shared<Row>,
    guess: usize,
) -> Result<(), NoMemory>
    requires numbered { AreNumbered blocks.old.items segments.old }
    requires within { place < length blocks.old.items }
    requires block { IsBlockFor bytes_cmp path_of_row row.path blocks.old.items place }
    requires full { length (slice_index_or blocks.old.items place []) ≡ MAX_BLOCK_ITEMS }
    ensures ok { OnOk result (items_of blocks.new.items ≡ put_row row (items_of blocks.old.items)) }
    ensures err { OnErr result (items_of blocks.new.items ≡ items_of blocks.old.items) }
    ensures kept { AreNumbered blocks.new.items segments.new }
{
    let mut rows = blocks[place].items_with(alloc, row, guess)?;
    let rest = rows.split_off(HALF_BLOCK_ITEMS)?;
    let changed = with_two(alloc, segments, place, numbers_of(&rows), numbers_of(&rest))?;
    let second = Block::new(alloc, rest)?;
    let first = Block::new(alloc, rows)?;
    blocks.insert(place, first)?;
    blocks[place + 1] = second;
    *segments = changed;
    Ok(())
}

/// Puts a znode at its place, instead of the one with its path. At `Err`, memory ran out, and the znodes are as they were.
pub fn put(
    alloc: Global,
    blocks: &mut Vec<Block<Row>>,
    segments: &mut Segments,
    near: &Near,
    row: Shared<Row>,
) -> Result<(), NoMemory>
    requires { AreNumbered blocks.old.items segments.old }
    ensures ok { OnOk result (items_of blocks.new.items ≡ put_row row (items_of blocks.old.items)) }
    ensures err { OnErr result (items_of blocks.new.items ≡ items_of blocks.old.items) }
    ensures kept { AreNumbered blocks.new.items segments.new }
{
    if blocks.is_empty() {
        return put_first_row(alloc, blocks, segments, row);
    }
    let place = block_for(blocks, row.key(), near.block());
    if fits_in(&blocks[place], row.key(), near.item()) {
        return put_in_one(alloc, blocks, segments, place, row, near.item());
    }
    put_in_two(alloc, blocks, segments, place, row, near.item())
}

// Puts a znode after all others, into the last block, which has room for one more. It looks at no other znode but the last.
fn append_to_block(
    alloc: Global,
    blocks: &mut Vec<Block<Row>>,
    segments: &mut Segments,
    place: usize,
    row: Shared<Row>,
) -> Result<(), NoMemory>
    requires numbered { AreNumbered blocks.old.items segments.old }
    requires within { place < length blocks.old.items }
    requires block { IsBlockFor bytes_cmp path_of_row row.path blocks.old.items place }
    requires room { length (slice_index_or blocks.old.items place []) < MAX_BLOCK_ITEMS }
    requires last { AllBelow bytes_cmp path_of_row (items_of blocks.old.items) row.path }
    ensures ok { OnOk result (items_of blocks.new.items ≡ put_row row (items_of blocks.old.items)) }
    ensures err { OnErr result (items_of blocks.new.items ≡ items_of blocks.old.items) }
    ensures kept { AreNumbered blocks.new.items segments.new }
{
    let numbers = join(segments.at(place), numbers_of_row(row.get()));
    let guess = blocks[place].items().len().saturating_sub(1);
    put_in_block(alloc, blocks, place, row, guess)?;
    segments.set(place, numbers);
    Ok(())
}

// Puts a znode after all others, into a block of its own. The other blocks keep their numbers.
fn append_block(
    alloc: Global,
    blocks: &mut Vec<Block<Row>>,
    segments: &mut Segments,
    row: Shared<Row>,
) -> Result<(), NoMemory>
    requires numbered { AreNumbered blocks.old.items segments.old }
    requires last { AllBelow bytes_cmp path_of_row (items_of blocks.old.items) row.path }
    ensures ok { OnOk result (items_of blocks.new.items ≡ put_row row (items_of blocks.old.items)) }
    ensures err { OnErr result (items_of blocks.new.items ≡ items_of blocks.old.items) }
    ensures kept { AreNumbered blocks.new.items segments.new }
{
    let mut rows = Vec::new(alloc);
    rows.push(row)?;
    let changed = with_one_more(alloc, segments, numbers_of(&rows))?;
    let block = Block::new(alloc, rows)?;
    blocks.push(block)?;
    *segments = changed;
    Ok(())
}

/// Puts a znode after all others. It searches for no place. At `Err`, memory ran out, and the znodes are as they were.
pub fn append(
    alloc: Global,
    blocks: &mut Vec<Block<Row>>,
    segments: &mut Segments,
    row: Shared<Row>,
) -> Result<(), NoMemory>
    requires numbered { AreNumbered blocks.old.items segments.old }
    requires last { AllBelow bytes_cmp path_of_row (items_of blocks.old.items) row.path }
    ensures ok { OnOk result (items_of blocks.new.items ≡ put_row row (items_of blocks.old.items)) }
    ensures err { OnErr result (items_of blocks.new.items ≡ items_of blocks.old.items) }
    ensures kept { AreNumbered blocks.new.items segments.new }
{
    if blocks.is_empty() {
        return append_block(alloc, blocks, segments, row);
    }
    let place = blocks.len() - 1;
    if blocks[place].items().len() < MAX_BLOCK_ITEMS {
        return append_to_block(alloc, blocks, segments, place, row);
    }
    append_block(alloc, blocks, segments, row)
}

// Takes the one znode of a block out, and the block with it.
fn take_block(
    alloc: Global,
    blocks: &mut Vec<Block<Row>>,
    segments: &mut Segments,
    place: usize,
    path: &[u8],
) -> Result<(), NoMemory>
    requires numbered { AreNumbered blocks.old.items segments.old }
    requires within { place < length blocks.old.items }
    requires block { IsBlockFor bytes_cmp path_of_row path.now blocks.old.items place }
    requires found { row_at path.now (slice_index_or blocks.old.items place []) ≢ None }
    requires one { length (slice_index_or blocks.old.items place []) ≡ 1 }
    ensures ok { OnOk result (items_of blocks.new.items ≡ without_row path.now (items_of blocks.old.items)) }
    ensures err { OnErr result (items_of blocks.new.items ≡ items_of blocks.old.items) }
    ensures kept { AreNumbered blocks.new.items segments.new }
{
    let changed = without_one(alloc, segments, place)?;
    let _taken = blocks.remove(place);
    *segments = changed;
    Ok(())
}

// Takes one of several znodes of a block out.
fn take_from_block(
    alloc: Global,
    blocks: &mut Vec<Block<Row>>,
    segments: &mut Segments,
    place: usize,
    path: &[u8],
) -> Result<(), NoMemory>
    requires numbered { AreNumbered blocks.old.items segments.old }
    requires within { place < length blocks.old.items }
    requires block { IsBlockFor bytes_cmp path_of_row path.now blocks.old.items place }
    requires several { 1 < length (slice_index_or blocks.old.items place []) }
    ensures ok { OnOk result (items_of blocks.new.items ≡ without_row path.now (items_of blocks.old.items)) }
    ensures err { OnErr result (items_of blocks.new.items ≡ items_of blocks.old.items) }
    ensures kept { AreNumbered blocks.new.items segments.new }
{
    remove_from_block(alloc, blocks, place, path)?;
    number_anew(blocks, segments, place);
    Ok(())
}

/// Takes the znode of a path out, where there is one. At `Err`, memory ran out, and the znodes are as they were.
pub fn take_out(
    alloc: Global,
    blocks: &mut Vec<Block<Row>>,
    segments: &mut Segments,
    near: &Near,
    path: &[u8],
) -> Result<(), NoMemory>
    requires { AreNumbered blocks.old.items segments.old }
    ensures ok { OnOk result (items_of blocks.new.items ≡ without_row path.now (items_of blocks.old.items)) }
    ensures err { OnErr result (items_of blocks.new.items ≡ items_of blocks.old.items) }
    ensures kept { AreNumbered blocks.new.items segments.new }
{
    if blocks.is_empty() {
        return Ok(());
    }
    let place = block_for(blocks, path, near.block());
    let (found, _) = blocks[place].find(path, near.item());
    if found.is_none() {
        return Ok(());
    }
    if blocks[place].items().len() == 1 {
        return take_block(alloc, blocks, segments, place, path);
    }
    take_from_block(alloc, blocks, segments, place, path)
}
