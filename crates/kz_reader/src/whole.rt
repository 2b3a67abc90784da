//! The records of all znodes.
ghost use Rattle.std.specs.Prelude.{◌≡◌, IfOk, IfErr, Ok, Err, MatchOption};
ghost use Rattle.kz_types.specs.declared.limits.TheConstants.{MAX_EPOCH};
ghost use Rattle.kz_types.specs.Order.{bytes_cmp};
ghost use Rattle.kz_types.specs.Ordered.{Rises};
ghost use Rattle.kz_spec_data.specs.Tree.{path_of_row};
ghost use Rattle.kz_spec_data.specs.Image.{all_applied, empty_image};
ghost use Rattle.kz_spec_data.specs.Rendering.{render, excess};
ghost use Rattle.kz_spec_data.specs.Translation.{records_unless_excess, translate};
ghost use Rattle.kz_types.specs.declared.fault.ReadWhy.TheVariants.{Over};
ghost use Rattle.kz_reader.specs.Faults.{IsReadFault};

use crate::fault::ReadFault;
use crate::reading::all_records;
use kz_image::Image;
use kz_render::{Excess, first_excess, render, whole_path};
use kz_types::{MAX_RECORDS, MetaRecord, NoMemory, ReadWhy, Rendered, Row};
use std::alloc::Global;

/// The records beside the translated ones that the limit leaves room for.
const FURTHER_RECORDS: usize = 4;

// The znodes of the metadata that these records make.
fn rendered(alloc: Global, records: &[MetaRecord]) -> Result<Vec<Rendered>, NoMemory>
    ensures { IfOk result (λ znodes. znodes.items ≡ render (all_applied MAX_EPOCH records.now empty_image)) }
{
    let mut image = Image::new(alloc);
    image.apply_all(i32::MAX, records)?;
    Ok(render(alloc, &image)?)
}

// The first limit that these records pass, with what they make of the empty metadata.
#[tactic(auto, unfolding(kz_spec_data::specs::Rendering::render))]
fn passed_limit(alloc: Global, records: &[MetaRecord]) -> Result<Option<Excess>, NoMemory>
    ensures { IfOk result (λ told. MatchOption told
        (records_unless_excess (excess (all_applied MAX_EPOCH records.now empty_image)) records.now ≡ Ok records.now)
        (λ e. records_unless_excess (excess (all_applied MAX_EPOCH records.now empty_image)) records.now ≡ Err (record { path = e.path; why = Over e.number }))) }
{
    let znodes = rendered(alloc, records)?;
    match first_excess(alloc, &znodes)? {
        Some(excess) => Ok(Some(excess)),
        None if records.len() > MAX_RECORDS - FURTHER_RECORDS => Ok(Some(Excess {
            number: 7,
            path: whole_path(alloc)?,
        })),
        None => Ok(None),
    }
}

/// The records of the znodes of the migrated area, which are given in path order: topics with their partitions, the
/// configurations of topics and brokers, quotas and credentials, access control entries with new ids, and the block of
/// producer ids after the last that was given out.
///
/// The leader and the replicas in sync of a partition are those of its state, with its data version as the partition's
/// epoch; where it has no state, its first replica leads. The configuration of a topic and the state of a partition
/// that aren't there are passed over.
///
/// # Errors
///
/// `Untranslatable` names the first znode that can't be translated, and why: one that isn't migrated though it stands in
/// the migrated area, a body that can't be read or doesn't fit its partition, or a topic with the id of an earlier one.
/// Where each can be, it names the first limit that all of them pass: 2, 3 and 6 of the znodes that the records would be
/// rendered as, and 7 where the log would have no room for them. `NoMemory`, at any time: memory ran out.
#[tactic(auto, unfolding(kz_spec_data::specs::Translation::translate))]
pub fn translate(alloc: Global, rows: &[Row]) -> Result<Vec<MetaRecord>, ReadFault>
    requires rising { Rises bytes_cmp path_of_row rows.now }
    ensures ok { IfOk result (λ records. translate rows.now ≡ Ok records.items) }
    ensures err { IfErr result (IsReadFault (translate rows.now)) }
{
    let records = all_records(alloc, rows)?;
    match passed_limit(alloc, &records) {
        Ok(Some(Excess { number, path })) => Err(ReadFault::Untranslatable {
            path,
            why: ReadWhy::Over { number },
        }),
        Ok(None) => Ok(records),
        Err(NoMemory) => Err(ReadFault::NoMemory),
    }
}
