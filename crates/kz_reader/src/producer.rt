//! The record of the block of producer ids.
ghost use Rattle.std.specs.Prelude.{◌≡◌, [], ◌∷◌, pos, negsuc, ◌+ℤ◌, int_lt, IfOk, Ok, if◌then◌else◌, codes};
ghost use Rattle.kz_types.specs.declared.record.MetaRecord.TheVariants.{ProducerIds};
ghost use Rattle.kz_spec_data.specs.Translation.{max_block_end, bad_field, records_of_producer};

use kz_types::{Body, BodyFault, MetaRecord, NoMemory, ProducerIdsRecord, ReadWhy, Sequence, Text};
use std::alloc::Global;

/// The greatest end of a block: after it begins the last block that there is.
const MAX_BLOCK_END: i64 = 9_223_372_036_854_774_807;

// The record of a block that ends here.
fn block_records(alloc: Global, end: i64) -> Result<Result<Sequence<MetaRecord>, ReadWhy>, NoMemory>
    ensures { IfOk result (λ records. records ≡ (if int_lt max_block_end end then bad_field (codes "block_end")
        else Ok (ProducerIds (record { broker_id = negsuc 0; broker_epoch = negsuc 0; next = end +ℤ pos 1 }) ∷ []))) }
{
    if end > MAX_BLOCK_END {
        let field = Text::from_str(alloc, "block_end")?;
        return Ok(Err(ReadWhy::Body(BodyFault::BadField { field })));
    }
    let mut records = Sequence::new(alloc);
    records.push(MetaRecord::ProducerIds(ProducerIdsRecord {
        broker_id: -1,
        broker_epoch: -1,
        next: end + 1,
    }))?;
    Ok(Ok(records))
}

/// The record of the block of producer ids, or why there is none.
pub fn records_of_producer(
    alloc: Global,
    read: Result<Body, BodyFault>,
) -> Result<Result<Sequence<MetaRecord>, ReadWhy>, NoMemory>
    ensures { IfOk result (λ records. records ≡ records_of_producer read) }
{
    match read {
        Ok(Body::Producer { end, .. }) => block_records(alloc, end),
        Ok(_) => Ok(Ok(Sequence::new(alloc))),
        Err(fault) => Ok(Err(ReadWhy::Body(fault))),
    }
}
