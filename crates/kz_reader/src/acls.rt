//! The records of access control entries.
ghost use Rattle.std.specs.Prelude.{◌≡◌, ◌+◌, ◌<◌, ◌≤◌, ◌^◌, IfOk, length, take};
ghost use Rattle.kz_spec_data.specs.Translation.{migrated_id, acl_record, acl_records, records_of_acls};
ghost use Rattle.kz_reader.specs.Seen.{HasSeen};

use crate::seen::Seen;
use kz_types::{
    AccessControlEntryRecord, AclRow, Body, BodyFault, Duplicate, Id, MetaRecord, NoMemory,
    ReadWhy, Row, Sequence,
};
use std::alloc::Global;

/// The first half of the ids of migrated entries.
const FRONT: [u8; 8] = *b"KRAFTMIG";

/// The id of a migrated entry: `KRAFTMIG` and its number, from 0 on over all znodes.
fn migrated_id(number: u64) -> Id
    ensures { result ≡ migrated_id number }
{
    let mut bytes = [0; 16];
    bytes[..8].copy_from_slice(&FRONT);
    bytes[8..].copy_from_slice(&number.to_be_bytes());
    Id { bytes }
}

fn acl_record(alloc: Global, number: u64, row: &AclRow) -> Result<MetaRecord, NoMemory>
    ensures { IfOk result (λ made. made ≡ acl_record number row.now) }
{
    Ok(MetaRecord::AccessControlEntry(AccessControlEntryRecord {
        id: migrated_id(number),
        resource_type: row.kind,
        resource_name: row.name.copy(alloc)?,
        pattern_type: row.pattern,
        principal: row.principal.copy(alloc)?,
        host: row.host.copy(alloc)?,
        operation: row.operation,
        permission: row.permission,
    }))
}

// The records of entries, numbered from this number on.
fn acl_records(alloc: Global, first: u64, rows: &[AclRow]) -> Result<Sequence<MetaRecord>, NoMemory>
    requires { first + length rows.now < 2 ^ 64 }
    ensures { IfOk result (λ records. records ≡ acl_records first rows.now) }
{
    let mut records = Sequence::new(alloc);
    for index in 0..rows.len() {
        records.push(acl_record(alloc, first + index as u64, &rows[index])?)?;
    }
    Ok(records)
}

/// The records of access control entries, or why there are none. They are numbered after those of the znodes that were
/// read.
pub fn records_of_acls(
    alloc: Global,
    rows: &[Row],
    seen: &Seen,
    read: Result<Body, BodyFault>,
) -> Result<Result<Sequence<MetaRecord>, ReadWhy>, NoMemory>
    requires seen { HasSeen rows.now seen.now }
    requires few { seen.now.entries < 2 ^ 63 }
    ensures { IfOk result (λ records. records ≡ records_of_acls (take seen.now.done rows.now) read) }
{
    match read {
        Ok(Body::Acls { rows: entries }) => Ok(Ok(acl_records(
            alloc,
            seen.entries as u64,
            entries.as_slice(),
        )?)),
        Ok(_) => Ok(Ok(Sequence::new(alloc))),
        Err(fault) => Ok(Err(ReadWhy::Body(fault))),
    }
}
