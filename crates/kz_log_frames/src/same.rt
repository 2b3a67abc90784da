//! Whether the records of batches are others, byte for byte.
ghost use Rattle.std.specs.Prelude.{◌≡◌, ◌++◌, false, List, map, bytes_eq, MatchOption, IfOk};
ghost use Rattle.std.specs.List.{All};
ghost use Rattle.kz_types.specs.declared.log.EpochRecord.{EpochRecord as EpochRecordValue};
ghost use Rattle.kz_spec_data.specs.Records.{bytes_of_record};
ghost use Rattle.kz_spec_data.specs.SnapshotRecords.{in_epoch};
ghost use Rattle.kz_spec_data.specs.SnapshotBatches.{records_of_batches};
ghost use Rattle.kz_spec_data.specs.LogFile.{same_records};
ghost use Rattle.kz_log_frames.specs.Pieces.{IsShortRecord, HaveShortRecords};

use crate::payload::short_value;
use kz_codec::value_size;
use kz_types::{BatchRow, EpochRecord, MetaRecord, NoMemory};
use std::alloc::Global;

// Whether two records have the same bytes.
fn same_item(alloc: Global, one: &MetaRecord, other: &MetaRecord) -> Result<bool, NoMemory>
    requires { IsShortRecord one.now }
    ensures { IfOk result (λ same. same ≡ bytes_eq (bytes_of_record one.now) (bytes_of_record other.now)) }
{
    if value_size(one) != value_size(other) {
        return Ok(false);
    }
    let one_bytes = short_value(alloc, one)?;
    let other_bytes = short_value(alloc, other)?;
    Ok(one_bytes.as_slice() == other_bytes.as_slice())
}

// The records that are left of others after those of a batch in this epoch. `None`: one differs.
fn after_batch<'a>(
    alloc: Global,
    epoch: i32,
    items: &[MetaRecord],
    others: &'a [EpochRecord],
) -> Result<Option<&'a [EpochRecord]>, NoMemory>
    requires { All IsShortRecord items.now }
    ensures { IfOk result (λ left. (more : List EpochRecordValue) → MatchOption left
        (same_records (map (in_epoch epoch) items.now ++ more) others.now ≡ false)
        (λ rest. same_records (map (in_epoch epoch) items.now ++ more) others.now ≡ same_records more rest.now)) }
{
    let mut rest = others;
    for item in items {
        let Some((first, later)) = rest.split_first() else {
            return Ok(None);
        };
        if epoch != first.epoch {
            return Ok(None);
        }
        if !same_item(alloc, item, &first.item)? {
            return Ok(None);
        }
        rest = later;
    }
    Ok(Some(rest))
}

/// Whether the records of batches are these: the same epochs, and the same records byte for byte.
pub(crate) fn same_rows(
    alloc: Global,
    rows: &[BatchRow],
    others: &[EpochRecord],
) -> Result<bool, NoMemory>
    requires { HaveShortRecords rows.now }
    ensures { IfOk result (λ same. same ≡ same_records (records_of_batches rows.now) others.now) }
{
    let mut rest = others;
    for row in rows {
        match after_batch(alloc, row.epoch, row.items.as_slice(), rest)? {
            Some(later) => rest = later,
            None => return Ok(false),
        }
    }
    Ok(rest.is_empty())
}
