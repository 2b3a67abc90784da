//! What operations make of znodes.
ghost use Rattle.std.specs.Prelude.{◌≡◌, ◌<ℤ◌, IfOk, OnOk, IfErr, Ok, Some, None, []};
ghost use Rattle.kz_types.specs.declared.limits.TheConstants.{MAX_VERSION};
ghost use Rattle.kz_spec_data.specs.Tree.{set_row, created_row, after_op, after_ops, op_refusal, rows_unless_refused};
ghost use Rattle.kz_tree.specs.Kept.{AreRows};
ghost use Rattle.kz_tree.specs.Refusals.{IsMultiFaultOf, meaning};

use crate::faults::MultiFault;
use crate::refusals::{Refusal, op_refusal};
use kz_tree_rows::{Rows, parent_of};
use kz_types::{Duplicate, NoMemory, Op, Row, Sequence, ZPath};
use std::alloc::Global;

fn created_row(
    alloc: Global,
    path: &ZPath,
    body: &Sequence<u8>,
    owner: Option<i64>,
    zxid: i64,
) -> Result<Row, NoMemory>
    ensures { IfOk result (λ row. row ≡ created_row zxid path.now body.now owner) }
{
    Ok(Row {
        path: path.copy(alloc)?,
        body: body.copy(alloc)?,
        version: 0,
        owner,
        czxid: zxid,
        mzxid: zxid,
        pzxid: zxid,
    })
}

fn set_row(alloc: Global, row: &Row, body: &Sequence<u8>, zxid: i64) -> Result<Row, NoMemory>
    requires { row.now.version <ℤ MAX_VERSION }
    ensures { IfOk result (λ made. made ≡ set_row zxid body.now row.now) }
{
    Ok(Row {
        path: row.path.copy(alloc)?,
        body: body.copy(alloc)?,
        version: row.version + 1,
        owner: row.owner,
        czxid: row.czxid,
        mzxid: zxid,
        pzxid: row.pzxid,
    })
}

// What an operation that isn't refused makes of these znodes.
fn apply(
    alloc: Global,
    sessions: &[i64],
    rows: &mut Rows,
    op: &Op,
    zxid: i64,
) -> Result<(), NoMemory>
    requires { op_refusal sessions.now op.now rows.old ≡ None }
    ensures { OnOk result (rows.new ≡ after_op zxid op.now rows.old) }
{
    match op {
        Op::Create { path, body, owner } => {
            let row = created_row(alloc, path, body, *owner, zxid)?;
            rows.touch(alloc, parent_of(path.bytes()), zxid)?;
            rows.put(row)
        }
        Op::Set { path, body, .. } => {
            let Some(row) = rows.find(path.bytes()) else {
                return Ok(());
            };
            let row = set_row(alloc, row, body, zxid)?;
            rows.replace(row)
        }
        Op::Delete { path, .. } => {
            rows.touch(alloc, parent_of(path.bytes()), zxid)?;
            rows.take_out(path.bytes())
        }
        Op::Check { .. } => Ok(()),
    }
}

fn fault_of(index: usize, refusal: Refusal) -> MultiFault
    ensures { IsMultiFaultOf (rows_unless_refused index (Some (meaning refusal)) (Ok [])) result }
{
    match refusal {
        Refusal::Code(code) => MultiFault::Refused { index, code },
        Refusal::Limit(number) => MultiFault::Limit { index, number },
    }
}

/// The znodes after these operations, one after another, or the first that is refused, with its index.
pub fn after_ops(
    alloc: Global,
    sessions: &[i64],
    zxid: i64,
    ops: &[Op],
    mut rows: Rows,
) -> Result<Rows, MultiFault>
    requires { AreRows rows }
    ensures ok { IfOk result (λ made. after_ops sessions.now zxid 0 ops.now rows ≡ Ok made) }
    ensures rise { IfOk result (λ made. AreRows made) }
    ensures err { IfErr result (IsMultiFaultOf (after_ops sessions.now zxid 0 ops.now rows)) }
{
    for (index, op) in ops.iter().enumerate() {
        let Ok(refusal) = op_refusal(alloc, sessions, op, &rows) else {
            return Err(MultiFault::NoMemory);
        };
        if let Some(refusal) = refusal {
            return Err(fault_of(index, refusal));
        }
        let Ok(()) = apply(alloc, sessions, &mut rows, op, zxid) else {
            return Err(MultiFault::NoMemory);
        };
    }
    Ok(rows)
}
