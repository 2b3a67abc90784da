//! Whether the lengths and counts of records and batches fit their fields, as writers ask for.
ghost use Rattle.std.specs.Prelude.{map};
ghost use Rattle.std.specs.Bool.{OnTrue};
ghost use Rattle.kz_spec_data.specs.Records.{LengthsFit};
ghost use Rattle.kz_spec_data.specs.Batches.{BatchFits};

use kz_batch::batch_size;
use kz_codec::value_size;
use kz_types::MetaRecord;

/// Whether a record has fewer than 2 ^ 32 bytes. Its lengths and counts fit their fields then.
pub fn lengths_fit(meta: &MetaRecord) -> bool
    ensures { OnTrue result (LengthsFit meta.now) }
{
    value_size(meta) <= u32::MAX as u128
}

/// Whether a batch of these values has fewer than 2 ^ 31 bytes. Its lengths and counts fit their fields then.
pub fn batch_fits(values: &[Vec<u8>]) -> bool
    ensures { OnTrue result (BatchFits (map (λ v. v.items) values.now)) }
{
    batch_size(values) <= i32::MAX as u128
}
