//! Changes of one block among the others.
ghost use Rattle.std.specs.Prelude.{◌≡◌, ◌≢◌, ◌<◌, [], None, length, slice_index_or, OnOk, OnErr};
ghost use Rattle.kz_types.specs.Order.{bytes_cmp};
ghost use Rattle.kz_types.specs.Ordered.{find as find_in, put as put_in, without as without_in, AllBelow};
ghost use Rattle.kz_sorted.specs.BlockLists.{items_of, AreBlocks, IsBlockFor, IsOneChanged};

use crate::block::Block;
use crate::limits::{HALF_BLOCK_ITEMS, MAX_BLOCK_ITEMS};
use crate::search::block_for;
use crate::{Keyed, Near};
use kz_types::{NoMemory, Shared};
use std::alloc::Global;

// Puts an item that comes after all others: it begins a block. At `Err`, memory ran out, and the list is as it was.
fn append_block<T: Keyed + Drop>(
    alloc: Global,
    blocks: &mut Vec<Block<T>>,
    item: Shared<T>,
) -> Result<(), NoMemory>
    requires blocks { AreBlocks bytes_cmp T.key blocks.old.items }
    requires after { AllBelow bytes_cmp T.key (items_of blocks.old.items) (T.key item) }
    ensures ok { OnOk result (items_of blocks.new.items ≡ put_in bytes_cmp T.key item (items_of blocks.old.items)) }
    ensures err { OnErr result (items_of blocks.new.items ≡ items_of blocks.old.items) }
    ensures kept { AreBlocks bytes_cmp T.key blocks.new.items }
{
    let mut items = Vec::new(alloc);
    items.push(item)?;
    blocks.push(Block::new(alloc, items)?)?;
    Ok(())
}

/// Puts the first item of all. At `Err`, memory ran out, and the list is as it was.
pub fn put_first<T: Keyed + Drop>(
    alloc: Global,
    blocks: &mut Vec<Block<T>>,
    item: Shared<T>,
) -> Result<(), NoMemory>
    requires { length blocks.old.items ≡ 0 }
    ensures ok { OnOk result (items_of blocks.new.items ≡ put_in bytes_cmp T.key item (items_of blocks.old.items)) }
    ensures err { OnErr result (items_of blocks.new.items ≡ items_of blocks.old.items) }
    ensures kept { AreBlocks bytes_cmp T.key blocks.new.items }
{
    append_block(alloc, blocks, item)
}

/// Puts an item into a block that has room for one more. No other block changes. At `Err`, memory ran out, and the list is as it was.
pub fn put_in_block<T: Keyed + Drop>(
    alloc: Global,
    blocks: &mut Vec<Block<T>>,
    place: usize,
    item: Shared<T>,
    guess: usize,
) -> Result<(), NoMemory>
    requires blocks { AreBlocks bytes_cmp T.key blocks.old.items }
    requires within { place < length blocks.old.items }
    requires block { IsBlockFor bytes_cmp T.key (T.key item) blocks.old.items place }
    requires room { length (slice_index_or blocks.old.items place []) < MAX_BLOCK_ITEMS }
    ensures ok { OnOk result (items_of blocks.new.items ≡ put_in bytes_cmp T.key item (items_of blocks.old.items)) }
    ensures err { OnErr result (items_of blocks.new.items ≡ items_of blocks.old.items) }
    ensures kept { AreBlocks bytes_cmp T.key blocks.new.items }
    ensures one { IsOneChanged place blocks.old.items blocks.new.items }
{
    blocks[place].put(alloc, item, guess)
}

// Puts an item instead of the one with its key. No other block changes, and each has as many items as before. At `Err`, memory ran
// out, and the list is as it was.
fn replace_in_block<T: Keyed + Drop>(
    alloc: Global,
    blocks: &mut Vec<Block<T>>,
    place: usize,
    item: Shared<T>,
    guess: usize,
) -> Result<(), NoMemory>
    requires blocks { AreBlocks bytes_cmp T.key blocks.old.items }
    requires within { place < length blocks.old.items }
    requires block { IsBlockFor bytes_cmp T.key (T.key item) blocks.old.items place }
    requires found { find_in bytes_cmp T.key (T.key item) (slice_index_or blocks.old.items place []) ≢ None }
    ensures ok { OnOk result (items_of blocks.new.items ≡ put_in bytes_cmp T.key item (items_of blocks.old.items)) }
    ensures err { OnErr result (items_of blocks.new.items ≡ items_of blocks.old.items) }
    ensures kept { AreBlocks bytes_cmp T.key blocks.new.items }
{
    blocks[place].put(alloc, item, guess)
}

// Puts a further item into a full block. Two blocks of half its size come in its place, so that at `Err` nothing has to be undone.
fn put_in_full_block<T: Keyed + Drop>(
    alloc: Global,
    blocks: &mut Vec<Block<T>>,
    place: usize,
    item: Shared<T>,
    guess: usize,
) -> Result<(), NoMemory>
    requires blocks { AreBlocks bytes_cmp T.key blocks.old.items }
    requires within { place < length blocks.old.items }
    requires block { IsBlockFor bytes_cmp T.key (T.key item) blocks.old.items place }
    requires full { length (slice_index_or blocks.old.items place []) ≡ MAX_BLOCK_ITEMS }
    ensures ok { OnOk result (items_of blocks.new.items ≡ put_in bytes_cmp T.key item (items_of blocks.old.items)) }
    ensures err { OnErr result (items_of blocks.new.items ≡ items_of blocks.old.items) }
    ensures kept { AreBlocks bytes_cmp T.key blocks.new.items }
{
    let mut items = blocks[place].items_with(alloc, item, guess)?;
    let rest = items.split_off(HALF_BLOCK_ITEMS)?;
    let second = Block::new(alloc, rest)?;
    let first = Block::new(alloc, items)?;
    blocks.insert(place, first)?;
    blocks[place + 1] = second;
    Ok(())
}

/// Puts an item at its place, instead of the one with its key. At `Err`, memory ran out, and the items are as they were.
pub fn put_item<T: Keyed + Drop>(
    alloc: Global,
    blocks: &mut Vec<Block<T>>,
    near: &Near,
    item: Shared<T>,
) -> Result<(), NoMemory>
    requires { AreBlocks bytes_cmp T.key blocks.old.items }
    ensures ok { OnOk result (items_of blocks.new.items ≡ put_in bytes_cmp T.key item (items_of blocks.old.items)) }
    ensures err { OnErr result (items_of blocks.new.items ≡ items_of blocks.old.items) }
    ensures kept { AreBlocks bytes_cmp T.key blocks.new.items }
{
    if blocks.is_empty() {
        return put_first(alloc, blocks, item);
    }
    let place = block_for(blocks, item.key(), near.block());
    if blocks[place].items().len() < MAX_BLOCK_ITEMS {
        return put_in_block(alloc, blocks, place, item, near.item());
    }
    if blocks[place].has_key(item.key(), near.item()) {
        return replace_in_block(alloc, blocks, place, item, near.item());
    }
    if place + 1 == blocks.len() && blocks[place].is_before(item.key()) {
        return append_block(alloc, blocks, item);
    }
    put_in_full_block(alloc, blocks, place, item, near.item())
}

// Takes the one item of a block out, and the block with it.
fn remove_block<T: Keyed + Drop>(blocks: &mut Vec<Block<T>>, place: usize, key: &[u8])
    requires blocks { AreBlocks bytes_cmp T.key blocks.old.items }
    requires within { place < length blocks.old.items }
    requires block { IsBlockFor bytes_cmp T.key key.now blocks.old.items place }
    requires found { find_in bytes_cmp T.key key.now (slice_index_or blocks.old.items place []) ≢ None }
    requires one { length (slice_index_or blocks.old.items place []) ≡ 1 }
    ensures items { items_of blocks.new.items ≡ without_in bytes_cmp T.key key.now (items_of blocks.old.items) }
    ensures kept { AreBlocks bytes_cmp T.key blocks.new.items }
{
    let _removed = blocks.remove(place);
}

/// Takes one of several items of a block out. No other block changes. At `Err`, memory ran out, and the list is as it was.
pub fn remove_from_block<T: Keyed + Drop>(
    alloc: Global,
    blocks: &mut Vec<Block<T>>,
    place: usize,
    key: &[u8],
) -> Result<(), NoMemory>
    requires blocks { AreBlocks bytes_cmp T.key blocks.old.items }
    requires within { place < length blocks.old.items }
    requires block { IsBlockFor bytes_cmp T.key key.now blocks.old.items place }
    requires several { 1 < length (slice_index_or blocks.old.items place []) }
    ensures ok { OnOk result (items_of blocks.new.items ≡ without_in bytes_cmp T.key key.now (items_of blocks.old.items)) }
    ensures err { OnErr result (items_of blocks.new.items ≡ items_of blocks.old.items) }
    ensures kept { AreBlocks bytes_cmp T.key blocks.new.items }
    ensures one { IsOneChanged place blocks.old.items blocks.new.items }
{
    blocks[place].remove(alloc, key)
}

/// Takes the item of this key out. At `Err`, memory ran out, and the items are as they were.
pub fn remove_item<T: Keyed + Drop>(
    alloc: Global,
    blocks: &mut Vec<Block<T>>,
    near: &Near,
    key: &[u8],
) -> Result<(), NoMemory>
    requires { AreBlocks bytes_cmp T.key blocks.old.items }
    ensures ok { OnOk result (items_of blocks.new.items ≡ without_in bytes_cmp T.key key.now (items_of blocks.old.items)) }
    ensures err { OnErr result (items_of blocks.new.items ≡ items_of blocks.old.items) }
    ensures kept { AreBlocks bytes_cmp T.key blocks.new.items }
{
    if blocks.is_empty() {
        return Ok(());
    }
    let place = block_for(blocks, key, near.block());
    let (found, _) = blocks[place].find(key, near.item());
    if found.is_none() {
        return Ok(());
    }
    if blocks[place].items().len() == 1 {
        remove_block(blocks, place, key);
        return Ok(());
    }
    remove_from_block(alloc, blocks, place, key)
}
