//! The sizes of blocks and of parts.

/// The most items of a block. The pointers to them take 960 bytes: a piece of 1,024 bytes or more costs the allocator of a common
/// C library more, since it joins its small free pieces first.
pub const MAX_BLOCK_ITEMS: usize = 120;

/// The items that the first of two blocks has, where the two come in place of a full one.
pub const HALF_BLOCK_ITEMS: usize = MAX_BLOCK_ITEMS / 2;

/// The most blocks of a part. The numbers of a tree's blocks, of 24 bytes each, take 960 bytes, too.
pub const MAX_PART_BLOCKS: usize = 40;
