//! Taking the payloads of frames into what is held.
ghost use Rattle.std.specs.Prelude.{◌≡◌, ◌≤ℤ◌, ◌+ℤ◌, ◌++◌, pos, if◌then◌else◌, IfOk, OnOk};
ghost use Rattle.std.specs.Ordering.{int_eq};
ghost use Rattle.kz_spec_data.specs.Tree.{multi, begin_session, end_session};
ghost use Rattle.kz_spec_data.specs.TreeFile.{stored_next, with_load, load_with_rows, stored_by_load, after_txn, after_reading};
ghost use Rattle.kz_spec_data.specs.Transactions.{txn_of};
ghost use Rattle.kz_tree_store.specs.Held.{load_of, stored, ArePositive};
ghost use Rattle.kz_tree_store.specs.Taken.{Says, BeginsFromOne};

use crate::fault::FrameFault;
use crate::held::{Held, Loading};
use crate::loads::loaded_tree;
use kz_spec_data::Txn;
use kz_tree::MultiFault;
use kz_txn::{TxnFault, read_txn};
use kz_types::{MoveFault, NoMemory, Op, Row};
use std::alloc::Global;

// Whether a zxid is the one after another.
fn is_next(zxid: i64, last: i64) -> bool
    ensures { result ≡ int_eq zxid (last +ℤ pos 1) }
{
    zxid as i128 == last as i128 + 1
}

// Takes a multi.
fn take_multi(held: &mut Held, zxid: i64, ops: &[Op]) -> Result<(), FrameFault>
    ensures { Says (λ done. stored held.new) result (stored_next zxid held.old.tree (multi held.old.tree ops.now)) }
{
    if !is_next(zxid, held.tree.last_zxid()) {
        return Err(FrameFault::Damaged);
    }
    match held.tree.prepare(ops) {
        Ok(prepared) => {
            held.tree.commit(prepared);
            held.load = Loading::Over;
            Ok(())
        }
        Err(MultiFault::Refused { .. }) => Err(FrameFault::Damaged),
        Err(MultiFault::Limit { .. }) => Err(FrameFault::Damaged),
        Err(MultiFault::NoMemory) => Err(FrameFault::NoMemory),
    }
}

// Takes the begin of a session.
fn take_begin(held: &mut Held, zxid: i64, session: i64) -> Result<(), FrameFault>
    requires { pos 1 ≤ℤ session }
    ensures { Says (λ done. stored held.new) result (stored_next zxid held.old.tree (begin_session held.old.tree session)) }
{
    if !is_next(zxid, held.tree.last_zxid()) {
        return Err(FrameFault::Damaged);
    }
    match held.tree.prepare_begin(session) {
        Ok(prepared) => {
            held.tree.commit(prepared);
            held.load = Loading::Over;
            Ok(())
        }
        Err(MoveFault::Known) => Err(FrameFault::Damaged),
        Err(MoveFault::Unknown) => Err(FrameFault::Damaged),
        Err(MoveFault::Limit { .. }) => Err(FrameFault::Damaged),
        Err(MoveFault::NoMemory) => Err(FrameFault::NoMemory),
    }
}

// Takes the end of a session.
fn take_end(held: &mut Held, zxid: i64, session: i64) -> Result<(), FrameFault>
    ensures { Says (λ done. stored held.new) result (stored_next zxid held.old.tree (end_session held.old.tree session)) }
{
    if !is_next(zxid, held.tree.last_zxid()) {
        return Err(FrameFault::Damaged);
    }
    match held.tree.prepare_end(session) {
        Ok(prepared) => {
            held.tree.commit(prepared);
            held.load = Loading::Over;
            Ok(())
        }
        Err(MoveFault::Known) => Err(FrameFault::Damaged),
        Err(MoveFault::Unknown) => Err(FrameFault::Damaged),
        Err(MoveFault::Limit { .. }) => Err(FrameFault::Damaged),
        Err(MoveFault::NoMemory) => Err(FrameFault::NoMemory),
    }
}

// Znodes of a load, and further ones, with which it begins anew or goes on.
fn rows_after(first: bool, mut before: Vec<Row>, mut rows: Vec<Row>) -> Result<Vec<Row>, NoMemory>
    ensures { IfOk result (λ all. all.items ≡ (if first then rows.items else before.items ++ rows.items)) }
{
    if first {
        return Ok(rows);
    }
    match before.append(&mut rows) {
        Ok(()) => Ok(before),
        Err(_) => Err(NoMemory),
    }
}

// A load after a frame with these znodes.
fn load_after(load: Loading, first: bool, rows: Vec<Row>) -> Result<Loading, FrameFault>
    ensures { Says load_of result (load_with_rows first rows.items (load_of load)) }
{
    match load {
        Loading::Fresh => if first {
            Ok(Loading::UnderWay(rows))
        } else {
            Err(FrameFault::Damaged)
        },
        Loading::UnderWay(before) => match rows_after(first, before, rows) {
            Ok(rows) => Ok(Loading::UnderWay(rows)),
            Err(NoMemory) => Err(FrameFault::NoMemory),
        },
        Loading::Over => Err(FrameFault::Damaged),
    }
}

// The tree of a load that has ended.
fn tree_after(alloc: Global, load: Loading, zxid: i64, sessions: &[i64]) -> Result<Held, FrameFault>
    ensures { Says stored result (stored_by_load zxid sessions.now (load_of load)) }
{
    match load {
        Loading::Fresh => Err(FrameFault::Damaged),
        Loading::UnderWay(rows) => match loaded_tree(alloc, zxid, sessions, rows) {
            Ok(tree) => Ok(Held {
                tree,
                load: Loading::Over,
            }),
            Err(fault) => Err(fault),
        },
        Loading::Over => Err(FrameFault::Damaged),
    }
}

// Takes znodes of a load.
fn take_rows(held: &mut Held, first: bool, rows: Vec<Row>) -> Result<(), FrameFault>
    ensures { Says (λ done. stored held.new) result (with_load held.old.tree (load_with_rows first rows.items (load_of held.old.load))) }
{
    match load_after(
        std::mem::replace(&mut held.load, Loading::Over),
        first,
        rows,
    ) {
        Ok(load) => {
            held.load = load;
            Ok(())
        }
        Err(fault) => Err(fault),
    }
}

// Takes the end of a load.
fn take_load_end(
    alloc: Global,
    held: &mut Held,
    zxid: i64,
    sessions: &[i64],
) -> Result<(), FrameFault>
    ensures { Says (λ done. stored held.new) result (stored_by_load zxid sessions.now (load_of held.old.load)) }
{
    match tree_after(
        alloc,
        std::mem::replace(&mut held.load, Loading::Over),
        zxid,
        sessions,
    ) {
        Ok(made) => {
            *held = made;
            Ok(())
        }
        Err(fault) => Err(fault),
    }
}

// Takes a transaction.
#[tactic(auto, unfolding(kz_spec_data::specs::TreeFile::after_txn))]
fn take_txn(alloc: Global, held: &mut Held, txn: Txn) -> Result<(), FrameFault>
    requires { BeginsFromOne txn }
    ensures { Says (λ done. stored held.new) result (after_txn (stored held.old) txn) }
{
    match txn {
        Txn::Multi { zxid, ops } => take_multi(held, zxid, ops.as_slice()),
        Txn::LoadRows { first, rows } => take_rows(held, first, rows.into_vec()),
        Txn::LoadEnd { zxid, sessions } => take_load_end(alloc, held, zxid, sessions.as_slice()),
        Txn::Begin { zxid, session } => take_begin(held, zxid, session),
        Txn::End { zxid, session } => take_end(held, zxid, session),
    }
}

/// Takes what a frame's payload makes of what is held.
pub(crate) fn take_payload(alloc: Global, held: &mut Held, payload: &[u8]) -> Result<(), FrameFault>
    requires { ArePositive held.old.tree.sessions }
    ensures says { Says (λ done. stored held.new) result (after_reading (stored held.old) (txn_of payload.now)) }
    ensures positive { OnOk result (ArePositive held.new.tree.sessions) }
{
    match read_txn(alloc, payload) {
        Ok(txn) => take_txn(alloc, held, txn),
        Err(TxnFault::Malformed { .. }) => Err(FrameFault::Damaged),
        Err(TxnFault::NoMemory) => Err(FrameFault::NoMemory),
    }
}
