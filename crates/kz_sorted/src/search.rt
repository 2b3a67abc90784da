//! The block and the part in which a key stands.
ghost use Rattle.std.specs.Prelude.{◌<◌, length};
ghost use Rattle.kz_types.specs.Order.{bytes_cmp};
ghost use Rattle.kz_sorted.specs.BlockLists.{AreBlocks, AreParts, IsBlockFor};

use crate::block::Block;
use crate::part::Part;
use crate::{Keyed, spot_near};

/// The place of the block in which the item of this key stands or would stand. A guess of it is tried first. Then the first keys
/// of blocks are compared by halves.
pub fn block_for<T: Keyed>(blocks: &[Block<T>], key: &[u8], guess: usize) -> usize
    requires { AreBlocks bytes_cmp T.key blocks.now }
    ensures block { IsBlockFor bytes_cmp T.key key.now blocks.now result }
    ensures within { 0 < length blocks.now → result < length blocks.now }
{
    match spot_near(blocks, key, guess) {
        Ok(place) => place,
        Err(place) => place.saturating_sub(1),
    }
}

/// The place of the part in which the item of this key stands or would stand, found as `block_for` finds a block.
pub fn part_for<T: Keyed>(parts: &[Part<T>], key: &[u8], guess: usize) -> usize
    requires { AreParts bytes_cmp T.key parts.now }
    ensures part { IsBlockFor bytes_cmp T.key key.now parts.now result }
    ensures within { 0 < length parts.now → result < length parts.now }
{
    match spot_near(parts, key, guess) {
        Ok(place) => place,
        Err(place) => place.saturating_sub(1),
    }
}
