//! Whole values.
ghost use Rattle.std.specs.Prelude.{◌≡◌};
ghost use Rattle.kz_spec_data.specs.Records.{Gives, version_of, fields_at, record_at, record_of};

use crate::fields::uvarint;
use crate::records::{
    read_access_control_entry, read_client_quota, read_config, read_id_alone,
    read_name_and_mechanism, read_partition, read_partition_change, read_producer_ids,
    read_register_broker, read_state_alone, read_topic, read_user_scram_credential,
};
use crate::tags::{is_done, no_tags, text_tag};
use kz_bytes::Reader;
use kz_types::{CodecFault, MetaRecord};
use std::alloc::Global;

// The version of the record of this key.
fn version_of(key: u32) -> Option<u32>
    ensures { result ≡ version_of key }
{
    match key {
        0 => Some(2),
        14 => Some(64),
        2 | 3 | 4 | 5 | 9 | 11 | 15 | 18 | 19 | 20 | 21 | 22 | 23 | 24 | 25 => Some(0),
        _ => None,
    }
}

// The fields of the record of this key.
#[tactic(auto, unfolding(kz_spec_data::specs::Records::fields_at))]
fn read_fields(alloc: Global, key: u32, reader: &mut Reader) -> Result<MetaRecord, CodecFault>
    ensures { Gives (λ x. (x, reader.new)) result (fields_at key reader.old) }
{
    match key {
        0 => Ok(MetaRecord::RegisterBroker(read_register_broker(alloc, reader)?)),
        2 => Ok(MetaRecord::Topic(read_topic(alloc, reader)?)),
        3 => Ok(MetaRecord::Partition(read_partition(alloc, reader)?)),
        4 => Ok(MetaRecord::Config(read_config(alloc, reader)?)),
        5 => Ok(MetaRecord::PartitionChange(read_partition_change(alloc, reader)?)),
        9 => Ok(MetaRecord::RemoveTopic {
            topic_id: read_id_alone(reader)?,
        }),
        11 => Ok(MetaRecord::UserScramCredential(read_user_scram_credential(alloc, reader)?)),
        14 => Ok(MetaRecord::ClientQuota(read_client_quota(alloc, reader)?)),
        15 => Ok(MetaRecord::ProducerIds(read_producer_ids(reader)?)),
        18 => Ok(MetaRecord::AccessControlEntry(read_access_control_entry(alloc, reader)?)),
        19 => Ok(MetaRecord::RemoveAccessControlEntry {
            id: read_id_alone(reader)?,
        }),
        20 => {
            no_tags(reader)?;
            Ok(MetaRecord::NoOp)
        }
        21 => Ok(MetaRecord::ZkMigrationState {
            state: read_state_alone(reader)?,
        }),
        22 => {
            let (name, mechanism) = read_name_and_mechanism(alloc, reader)?;
            Ok(MetaRecord::RemoveUserScramCredential { name, mechanism })
        }
        23 => Ok(MetaRecord::BeginTransaction {
            name: text_tag(alloc, reader)?,
        }),
        24 => {
            no_tags(reader)?;
            Ok(MetaRecord::EndTransaction)
        }
        25 => Ok(MetaRecord::AbortTransaction {
            reason: text_tag(alloc, reader)?,
        }),
        _ => Err(CodecFault::UnknownKey { key }),
    }
}

// A record at the front.
#[tactic(auto, unfolding(kz_spec_data::specs::Records::record_at))]
fn read_record(alloc: Global, reader: &mut Reader) -> Result<MetaRecord, CodecFault>
    ensures { Gives (λ x. (x, reader.new)) result (record_at reader.old) }
{
    let at = reader.at();
    let frame = uvarint(reader)?;
    if frame != 1 {
        return Err(CodecFault::BadField { at });
    }
    let key = uvarint(reader)?;
    let Some(version) = version_of(key) else {
        return Err(CodecFault::UnknownKey { key });
    };
    let stated = uvarint(reader)?;
    if stated != version {
        return Err(CodecFault::UnknownVersion {
            key,
            version: stated,
        });
    }
    read_fields(alloc, key, reader)
}

/// The record that these bytes spell.
///
/// The bytes are a frame version 1, the record's key and version, its fields and a tagged section, as Kafka's metadata
/// log has them (KIP-631). Unknown tags are passed over, and numbers may have more bytes than they need. Every other
/// deviation is a fault: the first in the order of the bytes.
#[tactic(auto, unfolding(kz_spec_data::specs::Records::record_of))]
pub fn read_value(alloc: Global, bytes: &[u8]) -> Result<MetaRecord, CodecFault>
    ensures { Gives (λ r. r) result (record_of bytes.now) }
{
    let mut reader = Reader::new(bytes);
    let record = read_record(alloc, &mut reader)?;
    let at = reader.at();
    if !is_done(&mut reader) {
        return Err(CodecFault::Rest { at });
    }
    Ok(record)
}
