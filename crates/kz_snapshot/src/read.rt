//! The metadata that the batches of a snapshot make.
ghost use Rattle.std.specs.Prelude.{◌≡◌, map, IfOk, OnOk};
ghost use Rattle.kz_spec_data.specs.Metadata.{empty_image};
ghost use Rattle.kz_spec_data.specs.SnapshotRecords.{in_epoch, image_after};
ghost use Rattle.kz_spec_data.specs.SnapshotBatches.{records_of_batches};

use kz_image::Image;
use kz_types::{BatchRow, NoMemory};
use std::alloc::Global;

// Takes in the records of a batch.
fn take_in(image: &mut Image, batch: &BatchRow) -> Result<(), NoMemory>
    ensures { OnOk result (image.new ≡ image_after (map (in_epoch batch.now.epoch) batch.now.items) image.old) }
{
    image.apply_all(batch.epoch, batch.items.as_slice())?;
    Ok(())
}

/// The metadata that the records of batches make, one after another, each in its batch's epoch.
pub fn from_rows(alloc: Global, rows: &[BatchRow]) -> Result<Image, NoMemory>
    ensures { IfOk result (λ image. image ≡ image_after (records_of_batches rows.now) empty_image) }
{
    let mut image = Image::new(alloc);
    for row in rows {
        take_in(&mut image, row)?;
    }
    Ok(image)
}
