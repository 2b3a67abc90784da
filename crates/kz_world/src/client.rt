//! Multis of ZooKeeper clients.
ghost use Rattle.std.specs.Prelude.{◌≡◌, ◌&&◌, ◌||◌, is_some, false, None, IfOk, IfSome, OnErr};
ghost use Rattle.std.specs.Str.{bytes_eq};
ghost use Rattle.kz_types.specs.Paths.{base_paths, is_among, is_migrated};
ghost use Rattle.kz_types.specs.declared.machine.Event.TheVariants as event;
ghost use Rattle.kz_spec_data.specs.Control.{control_path, epoch_path, shown_epoch};
ghost use Rattle.kz_spec_machine.specs.Machine.{is_reserved, is_held, is_held_path, is_held_tree, first_told, client_refusal};
ghost use Rattle.kz_spec_machine.specs.Failures.{is_failure};
ghost use Rattle.kz_world_parts.specs.Disks.{payloads_of};
ghost use Rattle.kz_world_parts.specs.EventDisks.{disks_in, ResultDisks};
ghost use Rattle.kz_world_parts.specs.EventStops.{EventLeaves};
ghost use Rattle.kz_world_parts.specs.Worlds.{world_of, world_of_parts, IsDone, AreKept};

use kz_log::MetaLog;
use kz_paths::{
    CONTROL_TEXT, is_base, is_below_control, is_controller_path, is_epoch_path, is_migrated,
    is_migration_path,
};
use kz_requests::path_of_op;
use kz_state::read_control;
use kz_tree::{Tree, ZTree};
use kz_types::{Answer, Duplicate, NoMemory, Op, ZPath};
use kz_world_parts::{EventFault, Parts, after_tree_fault};
use std::alloc::Global;

// Whether a KRaft controller's body is given to `/controller`.
fn takes_control(alloc: Global, path: &[u8], body: &[u8]) -> Result<bool, NoMemory>
    ensures { IfOk result (λ takes. takes ≡ (bytes_eq path.now control_path && is_some (shown_epoch body.now))) }
{
    if is_controller_path(path) {
        Ok(read_control(alloc, body)?.is_some())
    } else {
        Ok(false)
    }
}

// Whether a znode that ends with a session may not have this path.
fn must_last(path: &[u8]) -> bool
    ensures { result ≡ (bytes_eq path.now epoch_path || is_migrated path.now || is_among base_paths path.now) }
{
    is_epoch_path(path) || is_migrated(path) || is_base(path)
}

// Whether no client may do this.
fn is_reserved(alloc: Global, op: &Op) -> Result<bool, NoMemory>
    ensures { IfOk result (λ reserved. reserved ≡ is_reserved op.now) }
{
    match op {
        Op::Create { path, body, owner } => {
            if is_migration_path(path.bytes()) {
                return Ok(true);
            }
            if owner.is_some() && must_last(path.bytes()) {
                return Ok(true);
            }
            if is_below_control(path.bytes()) {
                return Ok(true);
            }
            takes_control(alloc, path.bytes(), body.as_slice())
        }
        Op::Set { path, body, .. } => {
            if is_migration_path(path.bytes()) {
                return Ok(true);
            }
            takes_control(alloc, path.bytes(), body.as_slice())
        }
        Op::Delete { path, .. } => {
            Ok(is_migration_path(path.bytes()) || is_epoch_path(path.bytes()))
        }
        Op::Check { .. } => Ok(false),
    }
}

// Whether the path is kept from clients while a KRaft controller holds the tree.
fn is_held_path(path: &[u8]) -> bool
    ensures { result ≡ is_held_path path.now }
{
    is_migrated(path) || is_base(path) || is_controller_path(path) || is_epoch_path(path)
}

// Whether no client may do this while a KRaft controller holds the tree.
fn is_held(op: &Op) -> bool
    ensures { result ≡ is_held op.now }
{
    match op {
        Op::Create { path, .. } => is_held_path(path.bytes()),
        Op::Set { path, .. } => is_held_path(path.bytes()),
        Op::Delete { path, .. } => is_held_path(path.bytes()),
        Op::Check { .. } => false,
    }
}

// The path of the first operation that no client may do.
fn first_reserved(alloc: Global, ops: &[Op]) -> Result<Option<ZPath>, NoMemory>
    ensures { IfOk result (λ path. path ≡ first_told is_reserved ops.now) }
{
    for op in ops {
        if is_reserved(alloc, op)? {
            return Ok(Some(path_of_op(op).copy(alloc)?));
        }
    }
    Ok(None)
}

// The path of the first operation that no client may do while a KRaft controller holds the tree.
fn first_held(alloc: Global, ops: &[Op]) -> Result<Option<ZPath>, NoMemory>
    ensures { IfOk result (λ path. path ≡ first_told is_held ops.now) }
{
    for op in ops {
        if is_held(op) {
            return Ok(Some(path_of_op(op).copy(alloc)?));
        }
    }
    Ok(None)
}

// Whether a KRaft controller holds the tree.
fn is_held_tree(alloc: Global, tree: &Tree) -> Result<bool, NoMemory>
    ensures { IfOk result (λ holds. holds ≡ is_held_tree tree.now) }
{
    match tree.row(CONTROL_TEXT.as_bytes()) {
        Some(row) => Ok(read_control(alloc, row.body.as_slice())?.is_some()),
        None => Ok(false),
    }
}

// An operation is reserved, or held while a KRaft controller holds the tree.
fn client_refusal(alloc: Global, tree: &Tree, ops: &[Op]) -> Result<Option<Answer>, NoMemory>
    ensures refusal { IfOk result (λ refusal. refusal ≡ client_refusal tree.now ops.now) }
    ensures no_failure { IfOk result (λ refusal. IfSome refusal (λ answer. is_failure answer ≡ false)) }
{
    if let Some(path) = first_reserved(alloc, ops)? {
        return Ok(Some(Answer::Reserved { path }));
    }
    if !is_held_tree(alloc, tree)? {
        return Ok(None);
    }
    match first_held(alloc, ops)? {
        Some(path) => Ok(Some(Answer::KraftHolds { path })),
        None => Ok(None),
    }
}

// The tree's store is asked for a multi that no rule of clients refuses.
#[tactic(auto, unfolding(kz_spec_machine::specs::Machine::next))]
fn ask_tree<T: ZTree, L: MetaLog>(parts: &mut Parts<T, L>, ops: &[Op]) -> Result<Answer, EventFault>
    requires kept { AreKept L.log parts.old }
    requires taken { client_refusal (T.tree parts.old.tree.inner) ops.now ≡ None }
    ensures ok { IfOk result (IsDone (world_of T.tree L.log parts.old) (event.Zk ops.now) (world_of T.tree L.log parts.new)) }
    ensures kept { AreKept L.log parts.new }
    ensures err { OnErr result (world_of T.tree L.log parts.new ≡ world_of T.tree L.log parts.old) }
    ensures disks { ResultDisks (world_of T.tree L.log parts.old) (event.Zk ops.now) (payloads_of T.payload_bytes L.payload_bytes) result (disks_in T.disk L.disk (world_of_parts parts.old)) (disks_in T.disk L.disk (world_of_parts parts.new)) }
    ensures stop { EventLeaves (world_of T.tree L.log parts.old) (event.Zk ops.now) result (disks_in T.disk L.disk (world_of_parts parts.old)) (T.left parts.new.tree.inner) (L.left parts.new.log.inner) }
{
    match parts.tree.inner_mut().multi(ops) {
        Ok(zxid) => Ok(Answer::DoneAt { zxid }),
        Err(fault) => after_tree_fault(fault),
    }
}

/// A client's multi. What is kept for controllers is refused before the tree is asked. Refused, and where memory runs out
/// or the store fails, the world is as it was.
#[tactic(auto, unfolding(kz_spec_machine::specs::Machine::next))]
pub fn ask<T: ZTree, L: MetaLog>(
    alloc: Global,
    parts: &mut Parts<T, L>,
    ops: &[Op],
) -> Result<Answer, EventFault>
    requires { AreKept L.log parts.old }
    ensures ok { IfOk result (IsDone (world_of T.tree L.log parts.old) (event.Zk ops.now) (world_of T.tree L.log parts.new)) }
    ensures kept { AreKept L.log parts.new }
    ensures err { OnErr result (world_of T.tree L.log parts.new ≡ world_of T.tree L.log parts.old) }
    ensures disks { ResultDisks (world_of T.tree L.log parts.old) (event.Zk ops.now) (payloads_of T.payload_bytes L.payload_bytes) result (disks_in T.disk L.disk (world_of_parts parts.old)) (disks_in T.disk L.disk (world_of_parts parts.new)) }
    ensures stop { EventLeaves (world_of T.tree L.log parts.old) (event.Zk ops.now) result (disks_in T.disk L.disk (world_of_parts parts.old)) (T.left parts.new.tree.inner) (L.left parts.new.log.inner) }
{
    match client_refusal(alloc, parts.tree.inner().tree(), ops) {
        Ok(Some(refusal)) => Ok(refusal),
        Ok(None) => ask_tree(parts, ops),
        Err(NoMemory) => Err(EventFault::NoMemory),
    }
}
