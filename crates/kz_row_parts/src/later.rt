//! Znodes that were written after a transaction.
ghost use Rattle.std.specs.Prelude.{◌≡◌, option_map};
ghost use Rattle.std.specs.List.{filter};
ghost use Rattle.kz_types.specs.Paths.{is_migrated};
ghost use Rattle.kz_spec_data.specs.Tree.{is_later, first_row};

use crate::migrated::is_migrated;
use kz_sorted::Shared;
use kz_types::Row;

fn is_later(zxid: i64, row: &Row) -> bool
    ensures { result ≡ is_later zxid row.now }
{
    row.mzxid > zxid || row.pzxid > zxid
}

/// The first of these znodes that is migrated and was written after a transaction, or whose children were.
pub fn first_later(rows: &[Shared<Row>], zxid: i64) -> Option<&Row>
    ensures { option_map (λ row. row.now) result ≡ first_row (filter (is_later zxid) (filter (λ row. is_migrated row.path) rows.now)) }
{
    for row in rows {
        let row = row.get();
        if is_later(zxid, row) && is_migrated(row.path.bytes()) {
            return Some(row);
        }
    }
    None
}
