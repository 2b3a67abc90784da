//! Where the last look-up ended.
use std::cell::Cell;

/// The place of the part and of the block in which the last look-up in a list ended, and the place in that block. The next look-up
/// begins there, since keys are mostly sought one after another. The places say nothing of the list: wrong ones cost time
/// alone. A list of blocks without parts has no use for the place of the part.
#[derive(Drop)]
pub struct Near {
    part: Cell<usize>,
    block: Cell<usize>,
    item: Cell<usize>,
}

impl Near {
    /// The begin of a list.
    pub fn new() -> Self {
        Near {
            part: Cell::new(0),
            block: Cell::new(0),
            item: Cell::new(0),
        }
    }

    /// The place of the part.
    pub fn part(&self) -> usize {
        self.part.get()
    }

    /// The place of the block.
    pub fn block(&self) -> usize {
        self.block.get()
    }

    /// The place in the block.
    pub fn item(&self) -> usize {
        self.item.get()
    }

    /// Notes in which part a look-up ended.
    pub fn set_part(&self, part: usize) {
        self.part.set(part);
    }

    /// Notes where a look-up ended.
    pub fn set(&self, block: usize, item: usize) {
        self.block.set(block);
        self.item.set(item);
    }
}
