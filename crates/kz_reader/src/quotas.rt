//! The records of quotas and credentials.
ghost use Rattle.std.specs.Prelude.{◌≡◌, IfOk, OnOk, map, ◌++◌};
ghost use Rattle.kz_spec_data.specs.Translation.{quota_record, scram_record, scram_records, records_of_quotas};

use kz_entity_records::{quota_record, scram_record};
use kz_types::{
    Body, BodyFault, EntityKey, MetaRecord, NoMemory, QuotaRow, ReadWhy, ScramPair, Sequence, Text,
};
use std::alloc::Global;

// Adds the records of quotas.
fn push_quotas(
    alloc: Global,
    records: &mut Sequence<MetaRecord>,
    key: &EntityKey,
    quotas: &[QuotaRow],
) -> Result<(), NoMemory>
    ensures { OnOk result (records.new ≡ records.old ++ map (quota_record key.now) quotas.now) }
{
    for quota in quotas {
        records.push(quota_record(alloc, key, quota)?)?;
    }
    Ok(())
}

// The records of the credentials of a user with a name.
fn records_of_scrams(
    alloc: Global,
    name: &Text,
    scrams: &[ScramPair],
) -> Result<Sequence<MetaRecord>, NoMemory>
    ensures { IfOk result (λ records. records ≡ map (scram_record name.now) scrams.now) }
{
    let mut records = Sequence::new(alloc);
    for scram in scrams {
        records.push(scram_record(alloc, name, scram)?)?;
    }
    Ok(records)
}

// Only a user with a name has credentials.
fn scram_records(
    alloc: Global,
    key: &EntityKey,
    scrams: &[ScramPair],
) -> Result<Sequence<MetaRecord>, NoMemory>
    ensures { IfOk result (λ records. records ≡ scram_records key.now scrams.now) }
{
    match key {
        EntityKey::User { user: Some(name) } => records_of_scrams(alloc, name, scrams),
        _ => Ok(Sequence::new(alloc)),
    }
}

// The names of mechanisms come before those of quotas.
fn both_records(
    alloc: Global,
    key: &EntityKey,
    quotas: &[QuotaRow],
    scrams: &[ScramPair],
) -> Result<Sequence<MetaRecord>, NoMemory>
    ensures { IfOk result (λ records. records ≡ scram_records key.now scrams.now ++ map (quota_record key.now) quotas.now) }
{
    let mut records = scram_records(alloc, key, scrams)?;
    push_quotas(alloc, &mut records, key, quotas)?;
    Ok(records)
}

/// The records of the quotas and credentials of an entity, or why there are none.
pub fn records_of_quotas(
    alloc: Global,
    key: &EntityKey,
    read: Result<Body, BodyFault>,
) -> Result<Result<Sequence<MetaRecord>, ReadWhy>, NoMemory>
    ensures { IfOk result (λ records. records ≡ records_of_quotas key.now read) }
{
    match read {
        Ok(Body::Quota { quotas, scrams }) => Ok(Ok(both_records(
            alloc,
            key,
            quotas.as_slice(),
            scrams.as_slice(),
        )?)),
        Ok(_) => Ok(Ok(Sequence::new(alloc))),
        Err(fault) => Ok(Err(ReadWhy::Body(fault))),
    }
}
