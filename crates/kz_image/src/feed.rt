//! What a reader of the metadata log is given.
ghost use Rattle.std.specs.Prelude.{◌≡◌, IfOk};

use crate::Image;
use kz_types::{BatchRow, Duplicate, NoMemory, Sequence};
use std::alloc::Global;

/// What a reader of the metadata log is given: batches, and, where it was too far after to go on with these alone, the
/// metadata before them.
#[derive(Drop)]
pub struct Feed {
    /// Where the reader begins anew: the metadata that the batches go on from, and the offset up to which it is, which is that
    /// of the last record that it has.
    pub base: Option<(i64, Image)>,
    /// The batches, in the order of the log.
    pub batches: Sequence<BatchRow>,
    /// The offset of the last record, or the one that the batches go on from where there is none.
    pub end: i64,
}

fn base_copy(alloc: Global, base: &Option<(i64, Image)>) -> Result<Option<(i64, Image)>, NoMemory>
    ensures { IfOk result (λ made. made ≡ base.now) }
{
    match base {
        Some((offset, image)) => Ok(Some((*offset, image.copy(alloc)?))),
        None => Ok(None),
    }
}

impl Duplicate for Feed {
    fn copy(&self, alloc: Global) -> Result<Self, NoMemory> {
        Ok(Feed {
            base: base_copy(alloc, &self.base)?,
            batches: self.batches.copy(alloc)?,
            end: self.end,
        })
    }
}
