//! Why an event is refused. A refusal tells of no failure, and takes no memory, unless the metadata has to be read.
ghost use Rattle.std.specs.Prelude.{◌≡◌, pos, false, ◌≤ℤ◌, Some, None, IfNone, IfSome, IfOk, IfErr};
ghost use Rattle.kz_spec_data.specs.Image.{all_applied, first_bad, rule_number};
ghost use Rattle.kz_spec_data.specs.Rendering.{excess};
ghost use Rattle.kz_spec_machine.specs.Machine.{quorum_refusal, start_refusal, stop_refusal, running_refusal, epoch_refusal, driver_refusal, driver_of, leader_refusal, over_excess, bad_record};
ghost use Rattle.kz_spec_machine.specs.Failures.{is_failure};
ghost use Rattle.kz_world_parts.specs.Refusals.{records_refusal};
ghost use Rattle.kz_world_parts.specs.Worlds.{world_of};

use crate::drivers::{is_one_of, is_running, least_running, place_of};
use crate::parts::Parts;
use kz_counted_view::{CountedImage, CountedView};
use kz_image::{Image, valid};
use kz_log::MetaLog;
use kz_tree::ZTree;
use kz_types::{
    Answer, ImageFault, ImageRule, Limit, MAX_CHANGE_RECORDS, MAX_CONTROLLERS, MIGRATION,
    MetaRecord, NoMemory,
};
use std::alloc::Global;

/// A controller runs, or the declared ones would be too many.
pub fn quorum_refusal<T: ZTree, L: MetaLog>(parts: &Parts<T, L>, ids: &[i32]) -> Option<Answer>
    ensures refusal { result ≡ quorum_refusal (world_of T.tree L.log parts.now) ids.now }
    ensures no_failure { IfSome result (λ answer. is_failure answer ≡ false) }
{
    match least_running(&parts.drivers) {
        Some(id) => Some(Answer::Running { id }),
        None if ids.len() > MAX_CONTROLLERS => Some(Answer::Over {
            number: Limit::Controllers.number(),
        }),
        None => None,
    }
}

/// The controller isn't declared, or runs already.
pub fn start_refusal<T: ZTree, L: MetaLog>(parts: &Parts<T, L>, id: i32) -> Option<Answer>
    ensures refusal { result ≡ start_refusal (world_of T.tree L.log parts.now) id }
    ensures no_failure { IfSome result (λ answer. is_failure answer ≡ false) }
{
    if !is_one_of(parts.declared.as_slice(), id) {
        Some(Answer::UnknownController)
    } else if is_running(&parts.drivers, id) {
        Some(Answer::AlreadyRunning)
    } else {
        None
    }
}

/// The controller isn't declared, or doesn't run.
pub fn running_refusal<T: ZTree, L: MetaLog>(parts: &Parts<T, L>, id: i32) -> Option<Answer>
    ensures refusal { result ≡ running_refusal (world_of T.tree L.log parts.now) id }
    ensures no_failure { IfSome result (λ answer. is_failure answer ≡ false) }
{
    if !is_one_of(parts.declared.as_slice(), id) {
        Some(Answer::UnknownController)
    } else if !is_running(&parts.drivers, id) {
        Some(Answer::NotRunning)
    } else {
        None
    }
}

/// The controller that is named, if one is, isn't declared, or doesn't run.
pub fn stop_refusal<T: ZTree, L: MetaLog>(
    parts: &Parts<T, L>,
    controller: Option<i32>,
) -> Option<Answer>
    ensures refusal { result ≡ stop_refusal (world_of T.tree L.log parts.now) controller }
    ensures no_failure { IfSome result (λ answer. is_failure answer ≡ false) }
{
    match controller {
        Some(id) => running_refusal(parts, id),
        None => None,
    }
}

// A driver of this epoch doesn't lead a log of that epoch.
fn epoch_refusal(epoch: i32, driver: Option<i32>) -> Option<Answer>
    requires { IfSome driver (λ e. pos 1 ≤ℤ e) }
    ensures refusal { result ≡ epoch_refusal epoch driver }
    ensures no_failure { IfSome result (λ answer. is_failure answer ≡ false) }
    ensures elected { IfNone result (pos 1 ≤ℤ epoch) }
{
    match driver {
        Some(own) if own == epoch => None,
        Some(_) => Some(Answer::Stale { epoch }),
        None => Some(Answer::NotLeader),
    }
}

// The driver of a controller doesn't lead the log.
fn driver_refusal<T: ZTree, L: MetaLog>(parts: &Parts<T, L>, id: i32) -> Option<Answer>
    ensures refusal { result ≡ driver_refusal (L.log parts.now.log.inner).epoch (driver_of id parts.now.drivers.items) }
    ensures no_failure { IfSome result (λ answer. is_failure answer ≡ false) }
    ensures elected { IfNone result (pos 1 ≤ℤ (L.log parts.now.log.inner).epoch) }
{
    match place_of(&parts.drivers, id) {
        Some(at) => epoch_refusal(parts.log.inner().epoch(), parts.drivers[at].epoch()),
        None => Some(Answer::NotLeader),
    }
}

/// The controller isn't declared, doesn't run, or doesn't lead the log.
pub fn leader_refusal<T: ZTree, L: MetaLog>(parts: &Parts<T, L>, id: i32) -> Option<Answer>
    ensures refusal { result ≡ leader_refusal (world_of T.tree L.log parts.now) id }
    ensures no_failure { IfSome result (λ answer. is_failure answer ≡ false) }
    ensures elected { IfNone result (pos 1 ≤ℤ (L.log parts.now.log.inner).epoch) }
{
    match running_refusal(parts, id) {
        Some(refusal) => Some(refusal),
        None => driver_refusal(parts, id),
    }
}

// The number of a rule of the metadata.
fn rule_number(rule: ImageRule) -> u8
    ensures { result ≡ rule_number rule }
{
    match rule {
        ImageRule::NotAllowed => 1,
        ImageRule::Exists => 2,
        ImageRule::Absent => 3,
        ImageRule::BadName => 4,
        ImageRule::BadValue => 5,
    }
}

// A record breaks a rule of the metadata.
fn bad_record(
    alloc: Global,
    image: &Image,
    records: &[MetaRecord],
) -> Result<Option<Answer>, NoMemory>
    ensures refusal { IfOk result (λ refusal. refusal ≡ bad_record (first_bad 0 records.now image.now)) }
    ensures no_failure { IfOk result (λ refusal. IfSome refusal (λ answer. is_failure answer ≡ false)) }
{
    match valid(alloc, image, records) {
        Ok(()) => Ok(None),
        Err(ImageFault::BadRecord { index, why }) => Ok(Some(Answer::BadRecord {
            index,
            why: rule_number(why),
        })),
        Err(ImageFault::NoMemory) => Err(NoMemory),
    }
}

// The metadata once these records are applied, where it passes no limit.
fn excess_refusal(
    epoch: i32,
    view: &mut CountedView,
    records: &[MetaRecord],
) -> Result<Result<CountedImage, Answer>, NoMemory>
    ensures refusal { IfOk result (λ judged. IfErr judged (λ answer. over_excess (excess (all_applied epoch records.now view.old.image)) ≡ Some answer)) }
    ensures no_failure { IfOk result (λ judged. IfErr judged (λ answer. is_failure answer ≡ false)) }
    ensures accepted { IfOk result (λ judged. IfOk judged (λ made. (over_excess (excess (all_applied epoch records.now view.old.image)) ≡ None) × (made ≡ all_applied epoch records.now view.old.image))) }
    ensures same { view.new ≡ view.old }
{
    let made = view.after(epoch, records)?;
    match made.limit()? {
        Some(number) => Ok(Err(Answer::Over { number })),
        None => Ok(Ok(made)),
    }
}

/// The metadata once these records are applied in a log of this epoch; or why they are refused: the migration isn't committed in the
/// metadata of this view, the records are too many, one of them breaks a rule, or the metadata would pass a limit. `NoMemory` is the
/// only error.
pub fn records_refusal(
    alloc: Global,
    epoch: i32,
    view: &mut CountedView,
    records: &[MetaRecord],
) -> Result<Result<CountedImage, Answer>, NoMemory>
    ensures refusal { IfOk result (λ judged. IfErr judged (λ answer. records_refusal epoch view.old.image records.now ≡ Some answer)) }
    ensures no_failure { IfOk result (λ judged. IfErr judged (λ answer. is_failure answer ≡ false)) }
    ensures accepted { IfOk result (λ judged. IfOk judged (λ made. (records_refusal epoch view.old.image records.now ≡ None) × (made ≡ all_applied epoch records.now view.old.image))) }
    ensures same { view.new ≡ view.old }
{
    if view.image().state() < MIGRATION {
        return Ok(Err(Answer::NotMigrated));
    }
    if records.len() > MAX_CHANGE_RECORDS {
        return Ok(Err(Answer::Over {
            number: Limit::ChangeRecords.number(),
        }));
    }
    match bad_record(alloc, view.image(), records)? {
        Some(refusal) => Ok(Err(refusal)),
        None => excess_refusal(epoch, view, records),
    }
}
