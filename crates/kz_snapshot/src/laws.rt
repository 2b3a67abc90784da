//! A law of snapshots of metadata that a program holds.
ghost use Rattle.std.specs.Prelude.{◌≡◌};
ghost use Rattle.kz_spec_data.specs.Metadata.{empty_image};
ghost use Rattle.kz_spec_data.specs.SnapshotRecords.{image_after};
ghost use Rattle.kz_spec_data.specs.SnapshotBatches.{snapshot_batches, records_of_batches};

use kz_image::Image;

/// The batches of a snapshot make the metadata again: what `from_rows` makes of the rows that `to_rows` answers is the metadata
/// that they are of.
pub fn rows_return(image: &Image, _epoch: i32)
    ensures { image_after (records_of_batches (snapshot_batches _epoch image.now)) empty_image ≡ image.now }
{
    image.is_held();
}
