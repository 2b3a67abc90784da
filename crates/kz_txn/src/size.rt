//! How many bytes a transaction has.
ghost use Rattle.std.specs.Prelude.{◌≡◌, ◌+◌, ◌*◌, ◌≤◌, ◌^◌, length};
ghost use Rattle.kz_spec_data.specs.Forms.{items_written};
ghost use Rattle.kz_spec_data.specs.Transactions.{byte_field, sessions, op, row, list_of, txn_written};

use kz_spec_data::Txn;
use kz_types::{Op, Row};

// A length, and so many bytes.
fn bytes_size(v: &[u8]) -> u128
    ensures size { result ≡ length (byte_field.written v.now) }
    ensures bound { result ≤ 2 ^ 63 + 4 }
{
    4 + v.len() as u128
}

// A kind byte, its fields, and 8 bytes of an owner or 4 of a version.
fn op_size(o: &Op) -> u128
    ensures size { result ≡ length (op.written o.now) }
    ensures bound { result ≤ 2 ^ 64 + 17 }
{
    match o {
        Op::Create { path, body, .. } => {
            9 + bytes_size(path.bytes()) + bytes_size(body.as_slice())
        }
        Op::Set { path, body, .. } => { 5 + bytes_size(path.bytes()) + bytes_size(body.as_slice()) }
        Op::Delete { path, .. } => 5 + bytes_size(path.bytes()),
        Op::Check { path, .. } => 5 + bytes_size(path.bytes()),
    }
}

// The bytes of operations, without their count.
fn all_ops_size(items: &[Op]) -> u128
    ensures size { result ≡ length (items_written op.written items.now) }
    ensures bound { result ≤ length items.now * (2 ^ 64 + 17) }
{
    let mut size: u128 = 0;
    for item in items {
        size += op_size(item);
    }
    size
}

fn ops_size(items: &[Op]) -> u128
    ensures size { result ≡ length ((list_of op).written items.now) }
    ensures bound { result ≤ 4 + 2 ^ 63 * (2 ^ 64 + 17) }
{
    4 + all_ops_size(items)
}

/// How many bytes `put_row` would append for a znode, whether or not its lengths fit their fields. It takes no memory.
pub fn row_size(r: &Row) -> u128
    ensures size { result ≡ length (row.written r.now) }
    ensures bound { result ≤ 2 ^ 64 + 44 }
{
    bytes_size(r.path.bytes()) + bytes_size(r.body.as_slice()) + 36
}

// The bytes of znodes, without their count.
fn all_rows_size(items: &[Row]) -> u128
    ensures size { result ≡ length (items_written row.written items.now) }
    ensures bound { result ≤ length items.now * (2 ^ 64 + 44) }
{
    let mut size: u128 = 0;
    for item in items {
        size += row_size(item);
    }
    size
}

fn rows_size(items: &[Row]) -> u128
    ensures size { result ≡ length ((list_of row).written items.now) }
    ensures bound { result ≤ 4 + 2 ^ 63 * (2 ^ 64 + 44) }
{
    4 + all_rows_size(items)
}

fn sessions_size(items: &[i64]) -> u128
    ensures size { result ≡ length (sessions.written items.now) }
    ensures bound { result ≤ 2 ^ 67 }
{
    4 + 8 * items.len() as u128
}

/// How many bytes `write_txn` would write for a transaction, whether or not its lengths fit their fields. It takes no memory.
#[tactic(auto, unfolding(kz_spec_data::specs::Transactions::txn_written))]
pub fn txn_size(t: &Txn) -> u128
    ensures { result ≡ length (txn_written t.now) }
{
    match t {
        Txn::Multi { ops, .. } => 9 + ops_size(ops.as_slice()),
        Txn::LoadRows { rows, .. } => 2 + rows_size(rows.as_slice()),
        Txn::LoadEnd { sessions, .. } => 9 + sessions_size(sessions.as_slice()),
        Txn::Begin { .. } => 17,
        Txn::End { .. } => 17,
    }
}
