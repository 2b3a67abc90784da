//! The transactions of a tree's changes.
ghost use Rattle.std.specs.Prelude.{◌≡◌, ◌+ℤ◌, ◌≤ℤ◌, ◌<ℤ◌, pos, List, ◌++◌, true, None, Ok, IfOk};
ghost use Rattle.kz_types.specs.declared.limits.TheConstants.{MAX_LONG};
ghost use Rattle.kz_spec_data.specs.Tree.{Tree as TreeValue, multi, begin_session, end_session};
ghost use Rattle.kz_types.specs.declared.tree.Row.{Row as RowValue};
ghost use Rattle.kz_spec_data.specs.declared.files.Txn.TheVariants.{LoadRows, LoadEnd};
ghost use Rattle.kz_spec_data.specs.Loads.{is_header};
ghost use Rattle.kz_tree_store.specs.LoadCalls.{KeepRules};
ghost use Rattle.kz_spec_data.specs.Requests.{Multi, BeginSession, EndSession};
ghost use Rattle.kz_tree_store.specs.Held.{ArePositive};
ghost use Rattle.kz_tree_store.specs.Changes.{FitsIfFew};
ghost use Rattle.kz_tree_store.specs.Payloads.{txn_of_change};

use crate::payload::{are_ops_held, are_rows_held, are_sessions_held};
use kz_spec_data::Txn;
use kz_tree::Tree;
use kz_types::{NoMemory, Op, Row, Sequence, copy_all};
use std::alloc::Global;

// The zxid after a tree's last one, where there is one.
fn next_zxid(tree: &Tree) -> i64
    requires { tree.now.zxid <ℤ MAX_LONG }
    ensures { result ≡ tree.now.zxid +ℤ pos 1 }
{
    tree.last_zxid() + 1
}

/// The transaction of operations that a tree takes.
pub(crate) fn multi_txn(alloc: Global, tree: &Tree, ops: &[Op]) -> Result<Txn, NoMemory>
    requires positive { ArePositive tree.now.sessions }
    requires taken { (new : TreeValue) × (multi tree.now ops.now ≡ Ok new) }
    ensures txn { IfOk result (λ t. t ≡ txn_of_change tree.now (Multi ops.now)) }
    ensures fits { IfOk result FitsIfFew }
{
    are_ops_held(ops);
    let copies = copy_all(alloc, ops)?;
    Ok(Txn::Multi {
        zxid: next_zxid(tree),
        ops: Sequence::from_vec(copies),
    })
}

/// The transaction of a session that begins on a tree.
pub(crate) fn begin_txn(tree: &Tree, session: i64) -> Txn
    requires positive { pos 1 ≤ℤ session }
    requires taken { (new : TreeValue) × (begin_session tree.now session ≡ Ok new) }
    ensures txn { result ≡ txn_of_change tree.now (BeginSession session) }
    ensures fits { FitsIfFew result }
{
    Txn::Begin {
        zxid: next_zxid(tree),
        session,
    }
}

/// The transaction of a session that ends on a tree.
pub(crate) fn end_txn(tree: &Tree, session: i64) -> Txn
    requires positive { ArePositive tree.now.sessions }
    requires taken { (new : TreeValue) × (end_session tree.now session ≡ Ok new) }
    ensures txn { result ≡ txn_of_change tree.now (EndSession session) }
    ensures fits { FitsIfFew result }
{
    Txn::End {
        zxid: next_zxid(tree),
        session,
    }
}

/// The transaction of znodes of a load.
pub(crate) fn load_rows_txn(alloc: Global, first: bool, rows: &[Row]) -> Result<Txn, NoMemory>
    requires { (before : List RowValue) × KeepRules None (before ++ rows.now) }
    ensures txn { IfOk result (λ t. t ≡ LoadRows first rows.now) }
    ensures fits { IfOk result FitsIfFew }
{
    are_rows_held(rows);
    let copies = copy_all(alloc, rows)?;
    Ok(Txn::LoadRows {
        first,
        rows: Sequence::from_vec(copies),
    })
}

/// The transaction of the end of a load.
pub(crate) fn load_end_txn(alloc: Global, zxid: i64, sessions: &[i64]) -> Result<Txn, NoMemory>
    requires { is_header zxid sessions.now ≡ true }
    ensures txn { IfOk result (λ t. t ≡ LoadEnd zxid sessions.now) }
    ensures fits { IfOk result FitsIfFew }
{
    are_sessions_held(sessions);
    let copies = copy_all(alloc, sessions)?;
    Ok(Txn::LoadEnd {
        zxid,
        sessions: Sequence::from_vec(copies),
    })
}
