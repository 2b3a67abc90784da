//! Which records the metadata accepts.
ghost use Rattle.std.specs.Prelude.{◌≡◌};
ghost use Rattle.kz_spec_data.specs.ImageRules.{is_kept_back, broken_rule, rule_against};

use crate::Image;
use crate::presence::{lacks, repeats};
use crate::values::is_misvalued;
use kz_image_rules::is_misnamed;
use kz_types::{ImageRule, MetaRecord};

/// The first rule that a record of the log breaks: by what it names, by what has to be there or mustn't, and by its
/// values, in this order.
#[tactic(auto, unfolding(kz_spec_data::specs::ImageRules::broken_rule))]
pub fn broken(image: &Image, item: &MetaRecord) -> Option<ImageRule>
    ensures { result ≡ broken_rule image.now item.now }
{
    if is_misnamed(item) {
        return Some(ImageRule::BadName);
    }
    if lacks(image, item) {
        return Some(ImageRule::Absent);
    }
    if repeats(image, item) {
        return Some(ImageRule::Exists);
    }
    if is_misvalued(image, item) {
        return Some(ImageRule::BadValue);
    }
    None
}

// Whether no controller may be asked for a record.
fn is_kept_back(item: &MetaRecord) -> bool
    ensures { result ≡ is_kept_back item.now }
{
    matches!(
        item,
        MetaRecord::RegisterBroker(_)
            | MetaRecord::ZkMigrationState { state: _ }
            | MetaRecord::BeginTransaction { name: _ }
            | MetaRecord::EndTransaction
            | MetaRecord::AbortTransaction { reason: _ }
    )
}

/// The first rule that a record breaks which a controller is asked for.
pub fn refused(image: &Image, item: &MetaRecord) -> Option<ImageRule>
    ensures { result ≡ rule_against image.now item.now }
{
    if is_kept_back(item) {
        return Some(ImageRule::NotAllowed);
    }
    broken(image, item)
}
