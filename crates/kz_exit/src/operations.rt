//! The operations that give ZooKeeper the cluster again.
ghost use Rattle.std.specs.Prelude.{◌≡◌, ◌++◌, is_some, IfOk, OnOk};
ghost use Rattle.kz_spec_data.specs.Control.{control_path, migration_path};
ghost use Rattle.kz_spec_data.specs.Tree.{row_at};
ghost use Rattle.kz_spec_machine.specs.Machine.{deleted_if, exit_ops, is_held_tree};

use kz_paths::{CONTROL_TEXT, MIGRATION_TEXT, control_path, migration_path};
use kz_state::read_control;
use kz_tree::Tree;
use kz_types::{NoMemory, Op};
use std::alloc::Global;

// Whether a KRaft controller holds the tree.
fn is_held_tree(alloc: Global, tree: &Tree) -> Result<bool, NoMemory>
    ensures { IfOk result (λ holds. holds ≡ is_held_tree tree.now) }
{
    match tree.row(CONTROL_TEXT.as_bytes()) {
        Some(row) => Ok(read_control(alloc, row.body.as_slice())?.is_some()),
        None => Ok(false),
    }
}

// Whether `/migration` is there.
fn has_migration(tree: &Tree) -> bool
    ensures { result ≡ is_some (row_at migration_path tree.now.rows) }
{
    tree.row(MIGRATION_TEXT.as_bytes()).is_some()
}

// The operation that deletes `/controller`, where a KRaft controller holds it.
fn push_control(alloc: Global, ops: &mut Vec<Op>, is_held: bool) -> Result<(), NoMemory>
    ensures { OnOk result (ops.new.items ≡ ops.old.items ++ deleted_if is_held control_path) }
{
    if is_held {
        ops.push(Op::Delete {
            path: control_path(alloc)?,
            version: -1,
        })?;
    }
    Ok(())
}

// The operation that deletes `/migration`, where it is there.
fn push_migration(alloc: Global, ops: &mut Vec<Op>, is_there: bool) -> Result<(), NoMemory>
    ensures { OnOk result (ops.new.items ≡ ops.old.items ++ deleted_if is_there migration_path) }
{
    if is_there {
        ops.push(Op::Delete {
            path: migration_path(alloc)?,
            version: -1,
        })?;
    }
    Ok(())
}

/// The operations that give ZooKeeper the cluster again: `/controller` is deleted where a KRaft controller holds it, and then
/// `/migration` where it is there, at any data version. There may be none.
pub fn exit_ops(alloc: Global, tree: &Tree) -> Result<Vec<Op>, NoMemory>
    ensures { IfOk result (λ ops. ops.items ≡ exit_ops tree.now) }
{
    let mut ops = Vec::new(alloc);
    push_control(alloc, &mut ops, is_held_tree(alloc, tree)?)?;
    push_migration(alloc, &mut ops, has_migration(tree))?;
    Ok(ops)
}
