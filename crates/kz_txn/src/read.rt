//! Transactions, read from bytes.
ghost use Rattle.std.specs.Prelude.{◌≡◌, ◌≤◌, ◌<◌, ◌^◌, pos};
ghost use Rattle.kz_spec_data.specs.Forms.{items_at};
ghost use Rattle.kz_spec_data.specs.Transactions.{op_at, op, row, list_of, sessions, sessions_at, fields_at, txn_of};
ghost use Rattle.kz_txn.specs.Reads.{Gives, txn_at};

use crate::TxnFault;
use crate::fields::{
    MAX_SESSION, bytes, count, flag, int32, int64, next_byte, owner, path, session, within,
};
use kz_bytes::Reader;
use kz_spec_data::Txn;
use kz_types::{Op, Row, Sequence};
use std::alloc::Global;

// ---- operations

fn read_create(alloc: Global, reader: &mut Reader) -> Result<Op, TxnFault>
    ensures { Gives (λ x. (x, reader.new)) result (op_at (1, reader.old)) }
{
    let path = path(alloc, reader)?;
    let body = bytes(alloc, reader)?;
    let owner = owner(reader)?;
    Ok(Op::Create { path, body, owner })
}

fn read_set(alloc: Global, reader: &mut Reader) -> Result<Op, TxnFault>
    ensures { Gives (λ x. (x, reader.new)) result (op_at (2, reader.old)) }
{
    let path = path(alloc, reader)?;
    let version = int32(reader)?;
    let body = bytes(alloc, reader)?;
    Ok(Op::Set {
        path,
        body,
        version,
    })
}

fn read_delete(alloc: Global, reader: &mut Reader) -> Result<Op, TxnFault>
    ensures { Gives (λ x. (x, reader.new)) result (op_at (3, reader.old)) }
{
    let path = path(alloc, reader)?;
    let version = int32(reader)?;
    Ok(Op::Delete { path, version })
}

fn read_check(alloc: Global, reader: &mut Reader) -> Result<Op, TxnFault>
    ensures { Gives (λ x. (x, reader.new)) result (op_at (4, reader.old)) }
{
    let path = path(alloc, reader)?;
    let version = int32(reader)?;
    Ok(Op::Check { path, version })
}

// An operation of a multi: its kind byte and its fields.
fn read_op(alloc: Global, reader: &mut Reader) -> Result<Op, TxnFault>
    ensures { Gives (λ x. (x, reader.new)) result (op.read reader.old) }
{
    let kind = within(reader, 1, 1, 4)?;
    match kind {
        1 => read_create(alloc, reader),
        2 => read_set(alloc, reader),
        3 => read_delete(alloc, reader),
        _ => read_check(alloc, reader),
    }
}

// So many operations. The list grows with what is read, whatever the count.
fn read_ops(alloc: Global, reader: &mut Reader, count: u32) -> Result<Sequence<Op>, TxnFault>
    ensures { Gives (λ x. (x, reader.new)) result (items_at op.read count reader.old) }
{
    let mut items = Vec::new(alloc);
    for _ in 0..count {
        let item = read_op(alloc, reader)?;
        let Ok(()) = items.push(item) else {
            return Err(TxnFault::NoMemory);
        };
    }
    Ok(Sequence::from_vec(items))
}

fn ops(alloc: Global, reader: &mut Reader) -> Result<Sequence<Op>, TxnFault>
    ensures { Gives (λ x. (x, reader.new)) result ((list_of op).read reader.old) }
{
    let count = count(reader)?;
    read_ops(alloc, reader, count)
}

// ---- znodes that are loaded

fn read_row(alloc: Global, reader: &mut Reader) -> Result<Row, TxnFault>
    ensures { Gives (λ x. (x, reader.new)) result (row.read reader.old) }
{
    let path = path(alloc, reader)?;
    let body = bytes(alloc, reader)?;
    let version = int32(reader)?;
    let owner = owner(reader)?;
    let czxid = int64(reader)?;
    let mzxid = int64(reader)?;
    let pzxid = int64(reader)?;
    Ok(Row {
        path,
        body,
        version,
        owner,
        czxid,
        mzxid,
        pzxid,
    })
}

// So many znodes. The list grows with what is read, whatever the count.
fn read_rows(alloc: Global, reader: &mut Reader, count: u32) -> Result<Sequence<Row>, TxnFault>
    ensures { Gives (λ x. (x, reader.new)) result (items_at row.read count reader.old) }
{
    let mut items = Vec::new(alloc);
    for _ in 0..count {
        let item = read_row(alloc, reader)?;
        let Ok(()) = items.push(item) else {
            return Err(TxnFault::NoMemory);
        };
    }
    Ok(Sequence::from_vec(items))
}

fn rows(alloc: Global, reader: &mut Reader) -> Result<Sequence<Row>, TxnFault>
    ensures { Gives (λ x. (x, reader.new)) result ((list_of row).read reader.old) }
{
    let count = count(reader)?;
    read_rows(alloc, reader, count)
}

// ---- sessions

// A session as it is held.
fn held(number: u64) -> i64
    requires { number < 2 ^ 63 }
    ensures { result ≡ pos number }
{
    number as i64
}

// So many sessions that rise. The list grows with what is read, whatever the count.
fn read_sessions(alloc: Global, reader: &mut Reader, count: u32) -> Result<Sequence<i64>, TxnFault>
    ensures { Gives (λ x. (x, reader.new)) result (sessions_at count 1 reader.old) }
{
    let mut items = Vec::new(alloc);
    let mut least = 1;
    for i in 0..count {
        let most = MAX_SESSION - (count - (i + 1)) as u64;
        let number = within(reader, 8, least, most)?;
        let Ok(()) = items.push(held(number)) else {
            return Err(TxnFault::NoMemory);
        };
        least = number + 1;
    }
    Ok(Sequence::from_vec(items))
}

fn sessions(alloc: Global, reader: &mut Reader) -> Result<Sequence<i64>, TxnFault>
    ensures { Gives (λ x. (x, reader.new)) result (sessions.read reader.old) }
{
    let count = count(reader)?;
    read_sessions(alloc, reader, count)
}

// ---- transactions

fn read_multi(alloc: Global, reader: &mut Reader) -> Result<Txn, TxnFault>
    ensures { Gives (λ x. (x, reader.new)) result (fields_at (1, reader.old)) }
{
    let zxid = int64(reader)?;
    let ops = ops(alloc, reader)?;
    Ok(Txn::Multi { zxid, ops })
}

fn read_load_rows(alloc: Global, reader: &mut Reader) -> Result<Txn, TxnFault>
    ensures { Gives (λ x. (x, reader.new)) result (fields_at (2, reader.old)) }
{
    let first = flag(reader)?;
    let rows = rows(alloc, reader)?;
    Ok(Txn::LoadRows { first, rows })
}

fn read_load_end(alloc: Global, reader: &mut Reader) -> Result<Txn, TxnFault>
    ensures { Gives (λ x. (x, reader.new)) result (fields_at (3, reader.old)) }
{
    let zxid = int64(reader)?;
    let sessions = sessions(alloc, reader)?;
    Ok(Txn::LoadEnd { zxid, sessions })
}

fn read_begin(reader: &mut Reader) -> Result<Txn, TxnFault>
    ensures { Gives (λ x. (x, reader.new)) result (fields_at (4, reader.old)) }
{
    let zxid = int64(reader)?;
    let session = session(reader)?;
    Ok(Txn::Begin { zxid, session })
}

fn read_end(reader: &mut Reader) -> Result<Txn, TxnFault>
    ensures { Gives (λ x. (x, reader.new)) result (fields_at (5, reader.old)) }
{
    let zxid = int64(reader)?;
    let session = session(reader)?;
    Ok(Txn::End { zxid, session })
}

// The fields of a transaction of this kind.
fn read_fields(alloc: Global, kind: u64, reader: &mut Reader) -> Result<Txn, TxnFault>
    requires { (1 ≤ kind) × (kind ≤ 5) }
    ensures { Gives (λ x. (x, reader.new)) result (fields_at (kind, reader.old)) }
{
    match kind {
        1 => read_multi(alloc, reader),
        2 => read_load_rows(alloc, reader),
        3 => read_load_end(alloc, reader),
        4 => read_begin(reader),
        _ => read_end(reader),
    }
}

// A transaction that stands next: its kind byte and its fields.
fn read_next(alloc: Global, reader: &mut Reader) -> Result<Txn, TxnFault>
    ensures { Gives (λ x. (x, reader.new)) result (txn_at reader.old) }
{
    let kind = within(reader, 1, 1, 5)?;
    read_fields(alloc, kind, reader)
}

/// The transaction that these bytes are.
///
/// The bytes are a kind byte and its fields, as the page on files has them, and nothing after them. `Malformed` tells the
/// first byte with which no transaction goes on, or the number of bytes where they end too early. A path is judged once its
/// bytes are taken, by the rule of [`ZPath`](kz_types::ZPath). A list takes memory for the items that were read, whatever
/// count stands before them.
#[tactic(auto, unfolding(kz_spec_data::specs::Transactions::txn_of))]
pub fn read_txn(alloc: Global, bytes: &[u8]) -> Result<Txn, TxnFault>
    ensures { Gives (λ x. x) result (txn_of bytes.now) }
{
    let mut reader = Reader::new(bytes);
    let txn = read_next(alloc, &mut reader)?;
    let at = reader.at();
    match next_byte(&mut reader) {
        None => Ok(txn),
        Some(_) => Err(TxnFault::Malformed { at }),
    }
}
