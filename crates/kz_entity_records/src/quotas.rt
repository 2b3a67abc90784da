//! The records of quotas and credentials.
ghost use Rattle.std.specs.Prelude.{◌≡◌, [], ◌∷◌, IfOk, OnOk, ◌++◌};
ghost use Rattle.kz_spec_data.specs.Translation.{quota_entity, quota_record, scram_record};

use kz_types::{
    ClientQuotaRecord, Duplicate, EntityKey, MetaRecord, NoMemory, QuotaEntities, QuotaEntity,
    QuotaRow, ScramPair, Text, UserScramCredentialRecord,
};
use std::alloc::Global;

// Adds a part of whom a quota speaks of.
fn push_part(
    alloc: Global,
    parts: &mut Vec<QuotaEntity>,
    kind: &str,
    name: &Option<Text>,
) -> Result<(), NoMemory>
    ensures { OnOk result (parts.new.items ≡ parts.old.items ++ record { kind = kind.now; name = name.now } ∷ []) }
{
    parts.push(QuotaEntity {
        kind: Text::from_str(alloc, kind)?,
        name: name.copy(alloc)?,
    })?;
    Ok(())
}

// Whom the quotas of an entity speak of, in order.
fn parts_of(alloc: Global, key: &EntityKey) -> Result<Vec<QuotaEntity>, NoMemory>
    ensures { IfOk result (λ parts. parts.items ≡ quota_entity key.now) }
{
    let mut parts = Vec::new(alloc);
    match key {
        EntityKey::Client { client } => push_part(alloc, &mut parts, "client-id", client)?,
        EntityKey::User { user } => push_part(alloc, &mut parts, "user", user)?,
        EntityKey::UserClient { user, client } => {
            push_part(alloc, &mut parts, "user", user)?;
            push_part(alloc, &mut parts, "client-id", client)?;
        }
        EntityKey::Ip { address } => push_part(alloc, &mut parts, "ip", address)?,
        _ => {}
    }
    Ok(parts)
}

// Whom the quotas of an entity speak of.
fn quota_entity(alloc: Global, key: &EntityKey) -> Result<QuotaEntities, NoMemory>
    ensures { IfOk result (λ entity. entity ≡ quota_entity key.now) }
{
    Ok(QuotaEntities::from_vec(parts_of(alloc, key)?))
}

/// The record that sets a quota of an entity.
pub fn quota_record(
    alloc: Global,
    key: &EntityKey,
    quota: &QuotaRow,
) -> Result<MetaRecord, NoMemory>
    ensures { IfOk result (λ made. made ≡ quota_record key.now quota.now) }
{
    Ok(MetaRecord::ClientQuota(ClientQuotaRecord {
        entity: quota_entity(alloc, key)?,
        key: quota.key.copy(alloc)?,
        value: quota.value,
        remove: false,
    }))
}

/// The record that sets a credential of a user.
pub fn scram_record(alloc: Global, name: &Text, scram: &ScramPair) -> Result<MetaRecord, NoMemory>
    ensures { IfOk result (λ made. made ≡ scram_record name.now scram.now) }
{
    Ok(MetaRecord::UserScramCredential(UserScramCredentialRecord {
        name: name.copy(alloc)?,
        mechanism: scram.mechanism,
        salt: scram.value.salt.copy(alloc)?,
        stored_key: scram.value.stored_key.copy(alloc)?,
        server_key: scram.value.server_key.copy(alloc)?,
        iterations: scram.value.iterations,
    }))
}
