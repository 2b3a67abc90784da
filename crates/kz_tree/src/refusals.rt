//! Why an operation is refused.
ghost use Rattle.std.specs.Prelude.{◌≡◌, ◌≢◌, [], option_map, nat_le, IfOk};
ghost use Rattle.kz_types.specs.declared.limits.TheConstants.{MAX_ZNODES};
ghost use Rattle.kz_spec_data.specs.Tree.{may_own, row_at, is_root, has_parent, is_ephemeral, fits_version, count_beside, limit_beside, create_refusal, set_refusal, delete_refusal, check_refusal, op_refusal};
ghost use Rattle.kz_tree.specs.Refusals.{meaning};

use kz_tree_rows::{Rows, has_children, is_migrated, parent_of};
use kz_types::{
    BAD_VERSION, Limit, MAX_BODY_BYTES, MAX_VERSION, MAX_ZNODES, NO_CHILDREN_FOR_EPHEMERALS,
    NO_NODE, NODE_EXISTS, NOT_EMPTY, NoMemory, Op, Row, SESSION_EXPIRED,
};
use std::alloc::Global;

/// Why an operation is refused: ZooKeeper's code, or the number of a limit.
#[derive(Clone, Copy, Debug, PartialEq, Eq)]
pub enum Refusal {
    Code(i32),
    Limit(u8),
}

/// Whether the owner, if there is one, is a live session.
pub fn may_own(owner: Option<i64>, sessions: &[i64]) -> bool
    ensures { result ≡ may_own owner sessions.now }
{
    match owner {
        None => true,
        Some(session) => sessions.contains(&session),
    }
}

/// Whether a path is that of the root, which is empty.
pub fn is_root(path: &[u8]) -> bool
    ensures { result ≡ is_root path.now }
{
    path.is_empty()
}

// Whether the parent of a path is there.
fn has_parent(path: &[u8], rows: &Rows) -> bool
    ensures { result ≡ has_parent path.now rows.now }
{
    let parent = parent_of(path);
    is_root(parent) || rows.find(parent).is_some()
}

/// Whether a znode is there and ends with a session.
pub fn is_ephemeral(row: Option<&Row>) -> bool
    ensures { result ≡ is_ephemeral (option_map (λ r. r.now) row.entry) }
{
    match row {
        None => false,
        Some(row) => row.owner.is_some(),
    }
}

fn fits_version(version: i32, row: &Row) -> bool
    ensures { result ≡ fits_version version row.now }
{
    version == -1 || version == row.version
}

/// Whether there are as many znodes beside a path as there may be.
pub fn is_full_beside(path: &[u8], rows: &Rows) -> bool
    ensures { result ≡ nat_le MAX_ZNODES (count_beside path.now rows.now) }
{
    rows.count_beside(path) >= MAX_ZNODES
}

/// The number of the limit on znodes beside a path.
pub fn limit_beside(path: &[u8]) -> u8
    ensures { result ≡ limit_beside path.now }
{
    if is_migrated(path) {
        Limit::MigratedZnodes.number()
    } else {
        Limit::OtherZnodes.number()
    }
}

fn create_refusal(
    sessions: &[i64],
    path: &[u8],
    body: &[u8],
    owner: Option<i64>,
    rows: &Rows,
) -> Option<Refusal>
    ensures { option_map meaning result ≡ create_refusal sessions.now path.now body.now owner rows.now }
{
    if !may_own(owner, sessions) {
        return Some(Refusal::Code(SESSION_EXPIRED));
    }
    if !has_parent(path, rows) {
        return Some(Refusal::Code(NO_NODE));
    }
    if rows.find(path).is_some() {
        return Some(Refusal::Code(NODE_EXISTS));
    }
    if is_ephemeral(rows.find(parent_of(path))) {
        return Some(Refusal::Code(NO_CHILDREN_FOR_EPHEMERALS));
    }
    if body.len() > MAX_BODY_BYTES {
        return Some(Refusal::Limit(Limit::BodyBytes.number()));
    }
    if is_full_beside(path, rows) {
        return Some(Refusal::Limit(limit_beside(path)));
    }
    None
}

fn set_refusal(body: &[u8], version: i32, row: Option<&Row>) -> Option<Refusal>
    ensures { option_map meaning result ≡ set_refusal body.now version (option_map (λ r. r.now) row.entry) }
{
    let Some(row) = row else {
        return Some(Refusal::Code(NO_NODE));
    };
    if !fits_version(version, row) {
        return Some(Refusal::Code(BAD_VERSION));
    }
    if body.len() > MAX_BODY_BYTES {
        return Some(Refusal::Limit(Limit::BodyBytes.number()));
    }
    if row.version == MAX_VERSION {
        return Some(Refusal::Limit(Limit::Version.number()));
    }
    None
}

fn delete_refusal(
    alloc: Global,
    path: &[u8],
    version: i32,
    rows: &Rows,
) -> Result<Option<Refusal>, NoMemory>
    requires { path.now ≢ [] }
    ensures { IfOk result (λ refusal. option_map meaning refusal ≡ delete_refusal path.now version rows.now (row_at path.now rows.now)) }
{
    let Some(row) = rows.find(path) else {
        return Ok(Some(Refusal::Code(NO_NODE)));
    };
    if !fits_version(version, row) {
        return Ok(Some(Refusal::Code(BAD_VERSION)));
    }
    if has_children(alloc, path, rows)? {
        return Ok(Some(Refusal::Code(NOT_EMPTY)));
    }
    Ok(None)
}

fn check_refusal(version: i32, row: Option<&Row>) -> Option<Refusal>
    ensures { option_map meaning result ≡ check_refusal version (option_map (λ r. r.now) row.entry) }
{
    let Some(row) = row else {
        return Some(Refusal::Code(NO_NODE));
    };
    if !fits_version(version, row) {
        return Some(Refusal::Code(BAD_VERSION));
    }
    None
}

/// Why an operation is refused on these znodes, where it is.
pub fn op_refusal(
    alloc: Global,
    sessions: &[i64],
    op: &Op,
    rows: &Rows,
) -> Result<Option<Refusal>, NoMemory>
    ensures { IfOk result (λ refusal. option_map meaning refusal ≡ op_refusal sessions.now op.now rows.now) }
{
    match op {
        Op::Create { path, body, owner } => Ok(create_refusal(
            sessions,
            path.bytes(),
            body.as_slice(),
            *owner,
            rows,
        )),
        Op::Set {
            path,
            body,
            version,
        } => Ok(set_refusal(body.as_slice(), *version, rows.find(path.bytes()))),
        Op::Delete { path, version } => delete_refusal(alloc, path.bytes(), *version, rows),
        Op::Check { path, version } => Ok(check_refusal(*version, rows.find(path.bytes()))),
    }
}
