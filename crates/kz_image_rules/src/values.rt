//! Values in records.
ghost use Rattle.std.specs.Prelude.{◌≡◌};
ghost use Rattle.kz_types.specs.Quotas.{is_quota};
ghost use Rattle.kz_types.specs.declared.record.MetaRecord.TheVariants as meta;
ghost use Rattle.kz_spec_data.specs.ImageRules.{is_below_next, is_epoch_or_none, is_operation, is_permission, is_misvalued};
ghost use Rattle.kz_spec_data.specs.Metadata.{Image as ImageValue};

use crate::names::{are_codes, is_mechanism};
use crate::partitions::{is_epoch, makes_row};
use kz_types::{
    AccessControlEntryRecord, ConfigRecord, PartitionRecord, ProducerIdsRecord, QuotaValue,
    RegisterBrokerRecord, UserScramCredentialRecord,
};

/// Whether a broker's id is negative or its epoch out of range.
pub fn is_broker_misvalued(change: &RegisterBrokerRecord) -> bool
    ensures { (i : ImageValue) → result ≡ is_misvalued i (meta.RegisterBroker change.now) }
{
    change.broker_id < 0 || !is_epoch(change.broker_epoch)
}

/// Whether a partition that is made has a value that it can't have.
pub fn is_partition_misvalued(change: &PartitionRecord) -> bool
    ensures { (i : ImageValue) → result ≡ is_misvalued i (meta.Partition change.now) }
{
    change.partition_id < 0 || !makes_row(change)
}

/// Whether a configuration is one of no type of resource that has some.
pub fn is_config_misvalued(change: &ConfigRecord) -> bool
    ensures { (i : ImageValue) → result ≡ is_misvalued i (meta.Config change.now) }
{
    change.resource_type != 2 && change.resource_type != 4
}

/// Whether a credential has a value that it can't have.
pub fn is_credential_misvalued(change: &UserScramCredentialRecord) -> bool
    ensures { (i : ImageValue) → result ≡ is_misvalued i (meta.UserScramCredential change.now) }
{
    !is_mechanism(change.mechanism) || change.iterations < 1
}

/// Whether a quota is one.
pub fn is_quota(value: &QuotaValue) -> bool
    ensures { result ≡ is_quota value.now }
{
    0 <= value.whole && 0 <= value.micros && value.micros <= 999999
}

// Whether an epoch is in range, or -1.
fn is_epoch_or_none(epoch: i64) -> bool
    ensures { result ≡ is_epoch_or_none epoch }
{
    epoch == -1 || is_epoch(epoch)
}

// Whether a next id is below the present one.
fn is_below_next(next: i64, present: Option<i64>) -> bool
    ensures { result ≡ is_below_next next present }
{
    match present {
        Some(present) => next < present,
        None => false,
    }
}

/// Whether a block of producer ids has a value that it can't have, where this is the present next id.
pub fn is_block_misvalued(change: &ProducerIdsRecord, present: Option<i64>) -> bool
    ensures { (i : ImageValue) → i.next_producer ≡ present → result ≡ is_misvalued i (meta.ProducerIds change.now) }
{
    change.broker_id < -1
        || !is_epoch_or_none(change.broker_epoch)
        || change.next < 0
        || is_below_next(change.next, present)
        || 9223372036854774808 < change.next
}

// Whether a code is that of an operation.
fn is_operation(operation: i8) -> bool
    ensures { result ≡ is_operation operation }
{
    2 <= operation && operation <= 12
}

// Whether a code is that of a permission.
fn is_permission(permission: i8) -> bool
    ensures { result ≡ is_permission permission }
{
    permission == 2 || permission == 3
}

/// Whether an access control entry has a value that it can't have.
pub fn is_entry_misvalued(change: &AccessControlEntryRecord) -> bool
    ensures { (i : ImageValue) → result ≡ is_misvalued i (meta.AccessControlEntry change.now) }
{
    !are_codes(change.resource_type, change.pattern_type)
        || !is_operation(change.operation)
        || !is_permission(change.permission)
}
