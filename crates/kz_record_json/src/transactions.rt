//! Records of the migration and of transactions of the log, as a script writes them.
ghost use Rattle.std.specs.Prelude.{◌≡◌, IfOk, codes};
ghost use Rattle.serde_json.specs.View.{view, members_view};
ghost use Rattle.kz_spec_data.specs.LogRecords.{no_op_of, zk_migration_state_of, begin_transaction_of, end_transaction_of, abort_transaction_of};
ghost use Rattle.kz_spec_data.specs.Members.{with_whole, with_tagged_text};
ghost use Rattle.kz_spec_data.specs.WrittenRecords.{kind_member};

use kz_record_fields::{
    int8_at, kind_member, member_count, nullable_text, put_tagged_text, put_whole, tagged_count,
    tagged_text,
};
use kz_types::{MetaRecord, NoMemory, Text};
use serde_json::{Map, Value};
use std::alloc::Global;

/// The `NoOp` that a value is, or `None` where it is none.
pub fn no_op_of(value: &Value) -> Option<MetaRecord>
    ensures { result ≡ no_op_of (view value.now) }
{
    if member_count(value) == 1 {
        Some(MetaRecord::NoOp)
    } else {
        None
    }
}

/// The `ZkMigrationState` that a value is, or `None` where it is none.
pub fn zk_migration_state_of(value: &Value) -> Option<MetaRecord>
    ensures { result ≡ zk_migration_state_of (view value.now) }
{
    if member_count(value) != 2 {
        return None;
    }
    let state = int8_at(value, "state")?;
    Some(MetaRecord::ZkMigrationState { state })
}

/// The `BeginTransaction` that a value is, or `None` where it is none.
pub fn begin_transaction_of(alloc: Global, value: &Value) -> Result<Option<MetaRecord>, NoMemory>
    ensures { IfOk result (λ made. made ≡ begin_transaction_of (view value.now)) }
{
    if member_count(value) != tagged_count(value, "name", 1) {
        return Ok(None);
    }
    match tagged_text(value, "name") {
        Some(name) => Ok(Some(MetaRecord::BeginTransaction {
            name: nullable_text(alloc, name)?,
        })),
        None => Ok(None),
    }
}

/// The `EndTransaction` that a value is, or `None` where it is none.
pub fn end_transaction_of(value: &Value) -> Option<MetaRecord>
    ensures { result ≡ end_transaction_of (view value.now) }
{
    if member_count(value) == 1 {
        Some(MetaRecord::EndTransaction)
    } else {
        None
    }
}

/// The `AbortTransaction` that a value is, or `None` where it is none.
pub fn abort_transaction_of(alloc: Global, value: &Value) -> Result<Option<MetaRecord>, NoMemory>
    ensures { IfOk result (λ made. made ≡ abort_transaction_of (view value.now)) }
{
    if member_count(value) != tagged_count(value, "reason", 1) {
        return Ok(None);
    }
    match tagged_text(value, "reason") {
        Some(reason) => Ok(Some(MetaRecord::AbortTransaction {
            reason: nullable_text(alloc, reason)?,
        })),
        None => Ok(None),
    }
}

/// The members of a `ZkMigrationState`.
pub fn zk_migration_state_members(alloc: Global, state: i8) -> Result<Map<String, Value>, NoMemory>
    ensures { IfOk result (λ members. members_view members.entries ≡ with_whole (codes "state") state (kind_member (codes "ZkMigrationState"))) }
{
    let mut members = kind_member(alloc, "ZkMigrationState")?;
    put_whole(&mut members, alloc, "state", state as i64)?;
    Ok(members)
}

/// The members of a `BeginTransaction`.
pub fn begin_transaction_members(
    alloc: Global,
    name: &Option<Text>,
) -> Result<Map<String, Value>, NoMemory>
    ensures { IfOk result (λ members. members_view members.entries ≡ with_tagged_text (codes "name") name.now (kind_member (codes "BeginTransaction"))) }
{
    let mut members = kind_member(alloc, "BeginTransaction")?;
    put_tagged_text(&mut members, alloc, "name", name)?;
    Ok(members)
}

/// The members of an `AbortTransaction`.
pub fn abort_transaction_members(
    alloc: Global,
    reason: &Option<Text>,
) -> Result<Map<String, Value>, NoMemory>
    ensures { IfOk result (λ members. members_view members.entries ≡ with_tagged_text (codes "reason") reason.now (kind_member (codes "AbortTransaction"))) }
{
    let mut members = kind_member(alloc, "AbortTransaction")?;
    put_tagged_text(&mut members, alloc, "reason", reason)?;
    Ok(members)
}
