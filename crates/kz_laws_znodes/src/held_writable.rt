//! What the records that a program holds give to the metadata is in the ranges of its types. The functions here do nothing but go over a
//! record: what they go over is what their contracts say.
ghost use Rattle.std.specs.Prelude.{◌≡◌, ◌≤ℤ◌, pos, length, All, IfSome};
ghost use Rattle.base64.specs.GeneralPurpose.{IsBytes};
ghost use Rattle.kz_types.specs.declared.record.MetaRecord.TheVariants as meta;
ghost use Rattle.kz_laws_znodes.specs.Writable.{IsText, FitsInt, IsEntityWritable, IsRecordWritable};

use kz_types::{
    AccessControlEntryRecord, ClientQuotaRecord, ConfigRecord, PartitionChangeRecord,
    PartitionRecord, QuotaEntity, QuotaValue, Sequence, Text, TopicRecord,
    UserScramCredentialRecord,
};

// ---- fields

fn int(_number: i32)
    ensures { FitsInt _number }
{}

fn ints(numbers: &[i32])
    ensures { All FitsInt numbers.now }
{
    for item in numbers {
        int(*item);
    }
}

fn ints_or_none(numbers: &Option<Sequence<i32>>)
    ensures { IfSome numbers.now (All FitsInt) }
{
    if let Some(numbers) = numbers {
        ints(numbers.as_slice());
    }
}

fn bytes(list: &[u8])
    ensures { IsBytes list.now }
{
    let _ = list.len();
}

fn sixteen(_bytes: &[u8; 16])
    ensures { length _bytes.now ≡ 16 }
{}

/// A name that a program holds is a text.
pub fn held_name_is_text(text: &Text)
    ensures { IsText text.now }
{
    let _ = text.as_str();
}

fn name_or_none(text: &Option<Text>)
    ensures { IfSome text.now IsText }
{
    if let Some(text) = text {
        held_name_is_text(text);
    }
}

fn whole(_number: i64, value: &QuotaValue)
    requires { value.now.whole ≡ _number }
    ensures { value.now.whole ≤ℤ pos 9223372036854775807 }
{}

fn entity(part: &QuotaEntity)
    ensures { IsEntityWritable part.now }
{
    name_or_none(&part.name);
}

fn entities(parts: &[QuotaEntity])
    ensures { All IsEntityWritable parts.now }
{
    for part in parts {
        entity(part);
    }
}

// ---- records

/// The name of a topic is a text, and its id has 16 bytes.
pub fn held_topic_is_writable(change: &TopicRecord)
    ensures { IsRecordWritable (meta.Topic change.now) }
{
    held_name_is_text(&change.name);
    sixteen(&change.topic_id.bytes);
    bytes(&change.topic_id.bytes);
}

/// The number of a partition and those of its brokers fit 32 bits.
pub fn held_partition_is_writable(change: &PartitionRecord)
    ensures { IsRecordWritable (meta.Partition change.now) }
{
    int(change.partition_id);
    ints(change.replicas.as_slice());
}

/// The same of a change of a partition.
pub fn held_partition_change_is_writable(change: &PartitionChangeRecord)
    ensures { IsRecordWritable (meta.PartitionChange change.now) }
{
    int(change.partition_id);
    ints_or_none(&change.replicas);
}

/// The name and the value of a member are texts.
pub fn held_config_is_writable(change: &ConfigRecord)
    ensures { IsRecordWritable (meta.Config change.now) }
{
    held_name_is_text(&change.name);
    name_or_none(&change.value);
}

/// The name of a user is a text, and the credential is of bytes.
pub fn held_credential_is_writable(change: &UserScramCredentialRecord)
    ensures { IsRecordWritable (meta.UserScramCredential change.now) }
{
    held_name_is_text(&change.name);
    bytes(change.salt.as_slice());
    bytes(change.stored_key.as_slice());
    bytes(change.server_key.as_slice());
    int(change.iterations);
}

/// The names of an entity with a quota are texts, and the whole part of the quota fits 64 bits.
pub fn held_quota_is_writable(change: &ClientQuotaRecord)
    ensures { IsRecordWritable (meta.ClientQuota change.now) }
{
    entities(change.entity.as_slice());
    whole(change.value.whole, &change.value);
}

/// The names of an access control entry are texts.
pub fn held_entry_is_writable(change: &AccessControlEntryRecord)
    ensures { IsRecordWritable (meta.AccessControlEntry change.now) }
{
    held_name_is_text(&change.resource_name);
    held_name_is_text(&change.principal);
    held_name_is_text(&change.host);
}
