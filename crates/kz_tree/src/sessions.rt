//! What the begin and the end of a session make of a tree.
ghost use Rattle.std.specs.Prelude.{◌≡◌, not, IfOk, OnOk};
ghost use Rattle.std.specs.Ordering.{int_cmp};
ghost use Rattle.std.specs.List.{filter};
ghost use Rattle.kz_types.specs.Ordered.{put, without};
ghost use Rattle.kz_spec_data.specs.Tree.{is_live, is_owned, without_owned};
ghost use Rattle.kz_tree.specs.Kept.{AreRows, AreSessions};

use kz_tree_rows::{Rows, parent_of};
use kz_types::{Duplicate, NoMemory, Row, copy_all};
use std::alloc::Global;

/// Whether a session is live.
pub fn is_live(sessions: &[i64], session: i64) -> bool
    ensures { result ≡ is_live session sessions.now }
{
    sessions.contains(&session)
}

// Puts a session at its place.
fn put_session(sessions: &mut Vec<i64>, session: i64) -> Result<(), NoMemory>
    requires { AreSessions sessions.old.items }
    ensures ok { OnOk result (sessions.new.items ≡ put int_cmp (λ s. s) session sessions.old.items) }
    ensures rise { OnOk result (AreSessions sessions.new.items) }
{
    match sessions.as_slice().binary_search(&session) {
        Ok(at) => sessions[at] = session,
        Err(at) => sessions.insert(at, session)?,
    }
    Ok(())
}

// Takes a session out.
fn take_session(sessions: &mut Vec<i64>, session: i64)
    requires { AreSessions sessions.old.items }
    ensures value { sessions.new.items ≡ without int_cmp (λ s. s) session sessions.old.items }
    ensures rise { AreSessions sessions.new.items }
{
    if let Ok(at) = sessions.as_slice().binary_search(&session) {
        sessions.remove(at);
    }
}

/// The sessions with one more.
pub fn with_session(alloc: Global, sessions: &[i64], session: i64) -> Result<Vec<i64>, NoMemory>
    requires { AreSessions sessions.now }
    ensures value { IfOk result (λ made. made.items ≡ put int_cmp (λ s. s) session sessions.now) }
    ensures rise { IfOk result (λ made. AreSessions made.items) }
{
    let mut made = copy_all(alloc, sessions)?;
    put_session(&mut made, session)?;
    Ok(made)
}

/// The sessions without one.
pub fn without_session(alloc: Global, sessions: &[i64], session: i64) -> Result<Vec<i64>, NoMemory>
    requires { AreSessions sessions.now }
    ensures value { IfOk result (λ made. made.items ≡ without int_cmp (λ s. s) session sessions.now) }
    ensures rise { IfOk result (λ made. AreSessions made.items) }
{
    let mut made = copy_all(alloc, sessions)?;
    take_session(&mut made, session);
    Ok(made)
}

fn is_owned(session: i64, row: &Row) -> bool
    ensures { result ≡ is_owned session row.now }
{
    match row.owner {
        None => false,
        Some(owner) => owner == session,
    }
}

// The znodes without those that end with a session. It looks at the ephemeral ones alone.
fn without_ended(alloc: Global, rows: &Rows, session: i64) -> Result<Rows, NoMemory>
    ensures value { IfOk result (λ made. made ≡ filter (λ row. not (is_owned session row)) rows.now) }
    ensures rise { IfOk result (λ made. AreRows made) }
{
    let mut made = rows.copy(alloc)?;
    for row in rows.ephemeral() {
        if is_owned(session, row) {
            made.take_out(row.path.bytes())?;
        }
    }
    Ok(made)
}

/// The znodes without those that end with a session; their parents show it. It looks at the ephemeral ones and at these
/// parents alone, and copies only what changes.
pub fn without_owned(alloc: Global, rows: &Rows, session: i64, zxid: i64) -> Result<Rows, NoMemory>
    ensures value { IfOk result (λ made. made ≡ without_owned zxid session rows.now) }
    ensures rise { IfOk result (λ made. AreRows made) }
{
    let mut made = without_ended(alloc, rows, session)?;
    for row in rows.ephemeral() {
        if is_owned(session, row) {
            made.touch(alloc, parent_of(row.path.bytes()), zxid)?;
        }
    }
    Ok(made)
}
