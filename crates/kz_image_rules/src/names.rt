//! Names in records.
ghost use Rattle.std.specs.Prelude.{◌≡◌, ◌&&◌, ◌||◌, not};
ghost use Rattle.kz_types.specs.Paths.{is_pattern, is_resource_type};
ghost use Rattle.kz_types.specs.declared.record.MetaRecord.TheVariants as meta;
ghost use Rattle.kz_spec_data.specs.ImageRules.{is_empty, is_zero, is_broker_name, is_dots, is_mechanism, is_user, are_codes, is_resource, is_misnamed};

use crate::paths::{has_acl_path, has_user_path};
use crate::quota_keys::has_quota;
use kz_order::are_equal;
use kz_types::{ConfigRecord, Id, MetaRecord, Text, canonical, may_be_part, may_be_topic};

// Whether an id is the one that stands for none.
fn is_zero(id: &Id) -> bool
    ensures { result ≡ is_zero id.now }
{
    are_equal(&id.bytes, &[0; 16])
}

// Whether a text is empty.
fn is_empty(text: &Text) -> bool
    ensures { result ≡ is_empty text.now }
{
    text.bytes().is_empty()
}

// Empty for all brokers, or the decimal of an id.
fn is_broker_name(name: &str) -> bool
    ensures { result ≡ is_broker_name name.now }
{
    name.is_empty() || canonical(name.as_bytes()).is_some()
}

// Whether a name is one that no part of a path may be.
fn is_dots(name: &str) -> bool
    ensures { result ≡ is_dots name.now }
{
    name == "." || name == ".."
}

/// Whether a code is that of a mechanism of credentials.
pub fn is_mechanism(mechanism: i8) -> bool
    ensures { result ≡ is_mechanism mechanism }
{
    mechanism == 1 || mechanism == 2
}

// Whether a user's credential may be kept, by whichever mechanism.
fn is_user(name: &Text) -> bool
    ensures { result ≡ is_user name.now }
{
    !is_empty(name) && !is_dots(name.as_str()) && has_user_path(name.bytes())
}

/// Whether codes are those of a type of resource and of a pattern.
pub fn are_codes(kind: i8, pattern: i8) -> bool
    ensures { result ≡ are_codes kind pattern }
{
    2 <= kind && kind <= 6 && 3 <= pattern && pattern <= 4
}

// Whether a resource's access control entries may be kept.
fn is_resource(kind: i8, pattern: i8, name: &Text) -> bool
    ensures { result ≡ is_resource kind pattern name.now }
{
    may_be_part(name.bytes())
        && (!are_codes(kind, pattern) || has_acl_path(pattern, kind, name.bytes()))
}

// Whether a configuration's resource or member can't have its name.
fn is_config_misnamed(change: &ConfigRecord) -> bool
    ensures { result ≡ is_misnamed (meta.Config change.now) }
{
    is_empty(&change.name)
        || (change.resource_type == 2 && !may_be_topic(change.resource_name.bytes()))
        || (change.resource_type == 4 && !is_broker_name(change.resource_name.as_str()))
}

/// Whether a record names something that can't be.
pub fn is_misnamed(item: &MetaRecord) -> bool
    ensures { result ≡ is_misnamed item.now }
{
    match item {
        MetaRecord::Topic(change) => {
            !may_be_topic(change.name.bytes()) || is_zero(&change.topic_id)
        }
        MetaRecord::Partition(change) => is_zero(&change.topic_id),
        MetaRecord::PartitionChange(change) => is_zero(&change.topic_id),
        MetaRecord::RemoveTopic { topic_id } => is_zero(topic_id),
        MetaRecord::Config(change) => is_config_misnamed(change),
        MetaRecord::UserScramCredential(change) => !is_user(&change.name),
        MetaRecord::RemoveUserScramCredential { name, mechanism: _ } => !is_user(name),
        MetaRecord::ClientQuota(change) => !has_quota(change.entity.as_slice(), &change.key),
        MetaRecord::AccessControlEntry(change) => {
            is_zero(&change.id)
                || !is_resource(
                    change.resource_type,
                    change.pattern_type,
                    &change.resource_name,
                )
        }
        MetaRecord::RemoveAccessControlEntry { id } => is_zero(id),
        MetaRecord::RegisterBroker(_)
        | MetaRecord::ProducerIds(_)
        | MetaRecord::NoOp
        | MetaRecord::ZkMigrationState { state: _ }
        | MetaRecord::BeginTransaction { name: _ }
        | MetaRecord::EndTransaction
        | MetaRecord::AbortTransaction { reason: _ } => false,
    }
}
