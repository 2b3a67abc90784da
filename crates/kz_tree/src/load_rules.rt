//! The rules and limits of a tree that is loaded.
ghost use Rattle.std.specs.Prelude.{◌≡◌, ◌&&◌, ◌||◌, not, pos, int_le, is_none, None, IfOk, IfErr, OnOk};
ghost use Rattle.std.specs.List.{list_all};
ghost use Rattle.kz_types.specs.declared.limits.TheConstants.{MAX_VERSION};
ghost use Rattle.kz_types.specs.Paths.{kind_of};
ghost use Rattle.kz_spec_data.specs.Tree.{row_at, has_parent, is_ephemeral, parent_of};
ghost use Rattle.kz_spec_data.specs.Loads.{rise_from, is_header, is_before, are_zxids, is_lasting, is_reserved, is_loadable, row_refusal};
ghost use Rattle.kz_tree.specs.Loads.{IsRowFaultOf};

use crate::load::LoadFault;
use crate::refusals::{is_full_beside, is_root, limit_beside, may_own};
use kz_path::kind;
use kz_paths::{is_base, is_controller_path, is_epoch_path, is_migration_path};
use kz_state::read_control;
use kz_tree_rows::{Rows, is_migrated, parent_of};
use kz_types::{Kind, Limit, MAX_BODY_BYTES, MAX_LONG, MAX_VERSION, NoMemory, Row, ZPath};
use std::alloc::Global;

// Whether sessions are at least 1 and rise.
fn do_rise(sessions: &[i64]) -> bool
    ensures { result ≡ rise_from (pos 1) sessions.now }
{
    let mut last = 0;
    for session in sessions {
        if *session <= last {
            return false;
        }
        last = *session;
    }
    true
}

/// Whether a load may have this last zxid and these live sessions.
pub fn is_header(zxid: i64, sessions: &[i64]) -> bool
    ensures { result ≡ is_header zxid sessions.now }
{
    0 <= zxid && zxid <= MAX_LONG && do_rise(sessions)
}

// Whether the parent of a path is there and ends with no session. It is looked for once. In a load it mostly stands near the end.
fn has_lasting_parent(path: &[u8], rows: &Rows) -> bool
    ensures { result ≡ (has_parent path.now rows.now && not (is_ephemeral (row_at (parent_of path.now) rows.now))) }
{
    let parent = parent_of(path);
    match rows.find_near_end(parent) {
        Some(row) => row.owner.is_none(),
        None => is_root(parent),
    }
}

// Whether a path comes after the paths of all znodes, and its parent is there and ends with no session.
fn is_next(path: &ZPath, rows: &Rows) -> bool
    ensures { result ≡ (list_all (is_before path.now) rows.now && has_parent path.now rows.now && not (is_ephemeral (row_at (parent_of path.now) rows.now))) }
{
    rows.are_before(path.bytes()) && has_lasting_parent(path.bytes(), rows)
}

// Whether a znode was made at 1 or later, and was set and got or lost children no earlier.
fn is_made_first(row: &Row) -> bool
    ensures { result ≡ (int_le (pos 1) row.now.czxid && int_le row.now.czxid row.now.mzxid && int_le row.now.czxid row.now.pzxid) }
{
    1 <= row.czxid && row.czxid <= row.mzxid && row.czxid <= row.pzxid
}

// Whether a znode's zxids are 1 to the last one, and it was made first.
fn are_zxids(zxid: i64, row: &Row) -> bool
    ensures { result ≡ are_zxids zxid row.now }
{
    is_made_first(row) && row.mzxid <= zxid && row.pzxid <= zxid
}

// Whether a data version is in range.
fn is_version(version: i32) -> bool
    ensures { result ≡ (int_le (pos 0) version && int_le version MAX_VERSION) }
{
    0 <= version && version <= MAX_VERSION
}

// Whether a path is below a control znode. One of the migrated area isn't, whatever its parts are.
fn is_reserved(path: &ZPath) -> bool
    ensures { result ≡ is_reserved (kind_of path.now) }
{
    if is_migrated(path.bytes()) {
        return false;
    }
    match kind(path) {
        Kind::Reserved => true,
        Kind::Entity => false,
        Kind::Scaffold => false,
        Kind::Stray => false,
        Kind::Base => false,
        Kind::Control => false,
        Kind::Outside => false,
    }
}

// Whether a znode may not end with a session: one of the migrated area, a base path, or one by which controllers find
// each other.
fn is_lasting(alloc: Global, row: &Row) -> Result<bool, NoMemory>
    ensures { IfOk result (λ lasting. lasting ≡ is_lasting row.now) }
{
    let path = row.path.bytes();
    if is_migrated(path) || is_base(path) || is_epoch_path(path) || is_migration_path(path) {
        return Ok(true);
    }
    if !is_controller_path(path) {
        return Ok(false);
    }
    Ok(read_control(alloc, row.body.as_slice())?.is_some())
}

// Whether a znode has no owner, or may have one.
fn may_be_owned(alloc: Global, row: &Row) -> Result<bool, NoMemory>
    ensures { IfOk result (λ may. may ≡ (is_none row.now.owner || not (is_lasting row.now))) }
{
    if row.owner.is_none() {
        return Ok(true);
    }
    Ok(!is_lasting(alloc, row)?)
}

// Whether a znode keeps the rules, after those before it.
#[tactic(auto, unfolding(kz_spec_data::specs::Loads::is_loadable))]
fn is_loadable(
    alloc: Global,
    zxid: i64,
    sessions: &[i64],
    rows: &Rows,
    row: &Row,
) -> Result<bool, NoMemory>
    ensures { IfOk result (λ keeps. keeps ≡ is_loadable zxid sessions.now rows.now row.now) }
{
    if !is_next(&row.path, rows) {
        return Ok(false);
    }
    if !is_version(row.version) || !are_zxids(zxid, row) {
        return Ok(false);
    }
    if !may_own(row.owner, sessions) || is_reserved(&row.path) {
        return Ok(false);
    }
    may_be_owned(alloc, row)
}

/// Whether a znode keeps the rules and limits, after those before it, or what it breaks.
pub fn admit(
    alloc: Global,
    zxid: i64,
    sessions: &[i64],
    rows: &Rows,
    row: &Row,
) -> Result<(), LoadFault>
    ensures ok { OnOk result (row_refusal zxid sessions.now rows.now row.now ≡ None) }
    ensures err { IfErr result (IsRowFaultOf (row_refusal zxid sessions.now rows.now row.now)) }
{
    let Ok(loadable) = is_loadable(alloc, zxid, sessions, rows, row) else {
        return Err(LoadFault::NoMemory);
    };
    if !loadable {
        return Err(LoadFault::Broken);
    }
    if row.body.len() > MAX_BODY_BYTES {
        return Err(LoadFault::Limit {
            number: Limit::BodyBytes.number(),
        });
    }
    if is_full_beside(row.path.bytes(), rows) {
        return Err(LoadFault::Limit {
            number: limit_beside(row.path.bytes()),
        });
    }
    Ok(())
}
