//! Transactions, written to bytes.
ghost use Rattle.std.specs.Prelude.{◌≡◌, ◌<◌, ◌^◌, [], ◌∷◌, ◌++◌, length, OnOk, IfOk};
ghost use Rattle.std.specs.Int.{w32, w64, to_be_bytes};
ghost use Rattle.kz_spec_data.specs.Forms.{items_written, AllFit};
ghost use Rattle.kz_spec_data.specs.Transactions.{int, byte_field, path, owner, flag, session, sessions, create, set, at_version, op, row, list_of, multi, load_rows, load_end, txn_written, TxnFits};

use kz_bytes::{put_i32, put_i64};
use kz_spec_data::Txn;
use kz_types::{NoMemory, Op, Row, Sequence, ZPath};
use std::alloc::Global;

// ---- fields

fn put_byte(out: &mut Vec<u8>, byte: u8) -> Result<(), NoMemory>
    ensures { OnOk result (out.new.items ≡ out.old.items ++ byte ∷ []) }
{
    out.push(byte)?;
    Ok(())
}

fn put_flag(out: &mut Vec<u8>, v: bool) -> Result<(), NoMemory>
    ensures { OnOk result (out.new.items ≡ out.old.items ++ flag.written v) }
{
    out.push(if v { 1 } else { 0 })?;
    Ok(())
}

fn put_count(out: &mut Vec<u8>, count: usize) -> Result<(), NoMemory>
    requires { count < 2 ^ 32 }
    ensures { OnOk result (out.new.items ≡ out.old.items ++ to_be_bytes w32 count) }
{
    let bytes = (count as u32).to_be_bytes();
    out.extend_from_slice(&bytes)?;
    Ok(())
}

fn put_bytes(out: &mut Vec<u8>, v: &[u8]) -> Result<(), NoMemory>
    requires { length v.now < 2 ^ 32 }
    ensures { OnOk result (out.new.items ≡ out.old.items ++ byte_field.written v.now) }
{
    put_count(out, v.len())?;
    out.extend_from_slice(v)?;
    Ok(())
}

fn put_path(out: &mut Vec<u8>, v: &ZPath) -> Result<(), NoMemory>
    requires { path.fits v.now }
    ensures { OnOk result (out.new.items ≡ out.old.items ++ path.written v.now) }
{
    put_bytes(out, v.bytes())
}

fn put_owner(out: &mut Vec<u8>, v: Option<i64>) -> Result<(), NoMemory>
    ensures { OnOk result (out.new.items ≡ out.old.items ++ owner.written v) }
{
    match v {
        None => put_i64(out, 0),
        Some(session) => put_i64(out, session),
    }
}

// ---- operations

fn put_create(
    out: &mut Vec<u8>,
    p: &ZPath,
    body: &Sequence<u8>,
    o: Option<i64>,
) -> Result<(), NoMemory>
    requires { create.fits (p.now, (body.now, o)) }
    ensures { OnOk result (out.new.items ≡ out.old.items ++ (1 ∷ create.written (p.now, (body.now, o)))) }
{
    put_byte(out, 1)?;
    put_path(out, p)?;
    put_bytes(out, body.as_slice())?;
    put_owner(out, o)?;
    Ok(())
}

fn put_set(out: &mut Vec<u8>, p: &ZPath, version: i32, body: &Sequence<u8>) -> Result<(), NoMemory>
    requires { set.fits (p.now, (version, body.now)) }
    ensures { OnOk result (out.new.items ≡ out.old.items ++ (2 ∷ set.written (p.now, (version, body.now)))) }
{
    put_byte(out, 2)?;
    put_path(out, p)?;
    put_i32(out, version)?;
    put_bytes(out, body.as_slice())?;
    Ok(())
}

// A delete or a check, by its kind byte.
fn put_at_version(out: &mut Vec<u8>, kind: u8, p: &ZPath, version: i32) -> Result<(), NoMemory>
    requires { at_version.fits (p.now, version) }
    ensures { OnOk result (out.new.items ≡ out.old.items ++ (kind ∷ at_version.written (p.now, version))) }
{
    put_byte(out, kind)?;
    put_path(out, p)?;
    put_i32(out, version)?;
    Ok(())
}

fn put_op(out: &mut Vec<u8>, o: &Op) -> Result<(), NoMemory>
    requires { op.fits o.now }
    ensures { OnOk result (out.new.items ≡ out.old.items ++ op.written o.now) }
{
    match o {
        Op::Create { path, body, owner } => put_create(out, path, body, *owner),
        Op::Set {
            path,
            body,
            version,
        } => put_set(out, path, *version, body),
        Op::Delete { path, version } => put_at_version(out, 3, path, *version),
        Op::Check { path, version } => put_at_version(out, 4, path, *version),
    }
}

fn push_ops(out: &mut Vec<u8>, items: &[Op]) -> Result<(), NoMemory>
    requires { AllFit op.fits items.now }
    ensures { OnOk result (out.new.items ≡ out.old.items ++ items_written op.written items.now) }
{
    for item in items {
        put_op(out, item)?;
    }
    Ok(())
}

fn put_ops(out: &mut Vec<u8>, items: &[Op]) -> Result<(), NoMemory>
    requires { (list_of op).fits items.now }
    ensures { OnOk result (out.new.items ≡ out.old.items ++ (list_of op).written items.now) }
{
    put_count(out, items.len())?;
    push_ops(out, items)?;
    Ok(())
}

// ---- znodes that are loaded

/// Appends a znode of a transaction that loads some. Each length has to fit its field of 32 bits. `NoMemory`: memory ran out.
pub fn put_row(out: &mut Vec<u8>, r: &Row) -> Result<(), NoMemory>
    requires { row.fits r.now }
    ensures { OnOk result (out.new.items ≡ out.old.items ++ row.written r.now) }
{
    put_path(out, &r.path)?;
    put_bytes(out, r.body.as_slice())?;
    put_i32(out, r.version)?;
    put_owner(out, r.owner)?;
    put_i64(out, r.czxid)?;
    put_i64(out, r.mzxid)?;
    put_i64(out, r.pzxid)?;
    Ok(())
}

fn push_rows(out: &mut Vec<u8>, items: &[Row]) -> Result<(), NoMemory>
    requires { AllFit row.fits items.now }
    ensures { OnOk result (out.new.items ≡ out.old.items ++ items_written row.written items.now) }
{
    for item in items {
        put_row(out, item)?;
    }
    Ok(())
}

// ---- sessions

fn push_sessions(out: &mut Vec<u8>, items: &[i64]) -> Result<(), NoMemory>
    ensures { OnOk result (out.new.items ≡ out.old.items ++ items_written session.written items.now) }
{
    for item in items {
        put_i64(out, *item)?;
    }
    Ok(())
}

fn put_sessions(out: &mut Vec<u8>, items: &[i64]) -> Result<(), NoMemory>
    requires { length items.now < 2 ^ 32 }
    ensures { OnOk result (out.new.items ≡ out.old.items ++ sessions.written items.now) }
{
    put_count(out, items.len())?;
    push_sessions(out, items)?;
    Ok(())
}

// ---- transactions

fn put_multi(out: &mut Vec<u8>, zxid: i64, ops: &[Op]) -> Result<(), NoMemory>
    requires { (list_of op).fits ops.now }
    ensures { OnOk result (out.new.items ≡ out.old.items ++ (1 ∷ multi.written (zxid, ops.now))) }
{
    put_byte(out, 1)?;
    put_i64(out, zxid)?;
    put_ops(out, ops)?;
    Ok(())
}

/// Appends what stands before the znodes of a transaction that loads some: its kind byte, whether it is the first of its load, and
/// the count of the znodes, each of which `put_row` appends after it. `NoMemory`: memory ran out.
pub fn put_load_rows_head(out: &mut Vec<u8>, first: bool, count: usize) -> Result<(), NoMemory>
    requires { count < 2 ^ 32 }
    ensures { OnOk result (out.new.items ≡ out.old.items ++ (2 ∷ (flag.written first ++ to_be_bytes w32 count))) }
{
    put_byte(out, 2)?;
    put_flag(out, first)?;
    put_count(out, count)?;
    Ok(())
}

fn put_load_rows(out: &mut Vec<u8>, first: bool, rows: &[Row]) -> Result<(), NoMemory>
    requires { (list_of row).fits rows.now }
    ensures { OnOk result (out.new.items ≡ out.old.items ++ (2 ∷ load_rows.written (first, rows.now))) }
{
    put_load_rows_head(out, first, rows.len())?;
    push_rows(out, rows)?;
    Ok(())
}

fn put_load_end(out: &mut Vec<u8>, zxid: i64, live: &[i64]) -> Result<(), NoMemory>
    requires { length live.now < 2 ^ 32 }
    ensures { OnOk result (out.new.items ≡ out.old.items ++ (3 ∷ load_end.written (zxid, live.now))) }
{
    put_byte(out, 3)?;
    put_i64(out, zxid)?;
    put_sessions(out, live)?;
    Ok(())
}

// The beginning or the end of a session, by its kind byte.
fn put_move(out: &mut Vec<u8>, kind: u8, zxid: i64, live: i64) -> Result<(), NoMemory>
    ensures { OnOk result (out.new.items ≡ out.old.items ++ (kind ∷ ((int w64).written zxid ++ session.written live))) }
{
    put_byte(out, kind)?;
    put_i64(out, zxid)?;
    put_i64(out, live)?;
    Ok(())
}

#[tactic(auto, unfolding(kz_spec_data::specs::Transactions::txn_written))]
fn put_txn(out: &mut Vec<u8>, t: &Txn) -> Result<(), NoMemory>
    requires { TxnFits t.now }
    ensures { OnOk result (out.new.items ≡ out.old.items ++ txn_written t.now) }
{
    match t {
        Txn::Multi { zxid, ops } => put_multi(out, *zxid, ops.as_slice()),
        Txn::LoadRows { first, rows } => put_load_rows(out, *first, rows.as_slice()),
        Txn::LoadEnd { zxid, sessions } => put_load_end(out, *zxid, sessions.as_slice()),
        Txn::Begin { zxid, session } => put_move(out, 4, *zxid, *session),
        Txn::End { zxid, session } => put_move(out, 5, *zxid, *session),
    }
}

/// The bytes of a transaction: its kind byte and its fields, numbers with the highest byte first.
///
/// Each length and count has to fit its field of 32 bits. Sessions and owners are at least 1, and the sessions of the end of
/// a load rise. `NoMemory`: memory ran out.
pub fn write_txn(alloc: Global, t: &Txn) -> Result<Vec<u8>, NoMemory>
    requires { TxnFits t.now }
    ensures { IfOk result (λ bytes. bytes.items ≡ txn_written t.now) }
{
    let mut out = Vec::new(alloc);
    put_txn(&mut out, t)?;
    Ok(out)
}
