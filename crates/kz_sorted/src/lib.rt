//! Lists that rise by a key: look-ups and changes by halves, lists put into the order of their keys, and lists that are kept as
//! shared parts of shared blocks, so that a copy costs a pointer, and a change after it a pointer for each part, the pointers of
//! one part and those of one block.
#![tactic(auto)]

mod block;
mod block_items;
mod blocks;
mod change;
mod change_parts;
mod items;
mod keyed;
mod limits;
mod near;
mod part;
mod search;
mod shared_blocks;
mod shared_parts;
mod sorted;
mod sorting;

pub use block::Block;
pub use block_items::items_after;
pub use blocks::Blocks;
pub use change::{put_first, put_in_block, remove_from_block};
pub use items::Items;
pub use keyed::Keyed;
pub use kz_types::Shared;
pub use limits::{HALF_BLOCK_ITEMS, MAX_BLOCK_ITEMS, MAX_PART_BLOCKS};
pub use near::Near;
pub use search::block_for;
pub use sorted::{find, find_near, put, put_near, spot, spot_near, without};
pub use sorting::{put_all, sort};
