//! The markers of metadata transactions (KIP-868).
ghost use Rattle.std.specs.Prelude.{◌≡◌};
ghost use Rattle.kz_spec_data.specs.Settlement.{is_begin, is_end, is_abort, closes};

use kz_types::MetaRecord;

/// Whether a transaction begins here.
pub fn is_begin(item: &MetaRecord) -> bool
    ensures { result ≡ is_begin item.now }
{
    matches!(item, MetaRecord::BeginTransaction { name: _ })
}

/// Whether this is the End of a transaction.
pub fn is_end(item: &MetaRecord) -> bool
    ensures { result ≡ is_end item.now }
{
    matches!(item, MetaRecord::EndTransaction)
}

/// Whether this is the Abort of a transaction.
pub fn is_abort(item: &MetaRecord) -> bool
    ensures { result ≡ is_abort item.now }
{
    matches!(item, MetaRecord::AbortTransaction { reason: _ })
}

/// Whether a transaction ends here, by an End or an Abort.
pub fn closes(item: &MetaRecord) -> bool
    ensures { result ≡ closes item.now }
{
    is_end(item) || is_abort(item)
}

/// A marker of a transaction.
#[derive(Clone, Copy)]
pub enum Marker {
    Begin,
    End,
    Abort,
}
