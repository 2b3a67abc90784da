//! What is kept of the znodes that were read, for those that come later.
ghost use Rattle.std.specs.Prelude.{◌≡◌, ◌<◌, ℕ, Some, None, List, IfOk, OnOk, length, slice_index_or, if◌then◌else◌};
ghost use Rattle.std.specs.Ordering.{nat_cmp, is_eq};
ghost use Rattle.std.specs.BTreeMap.{get};
ghost use Rattle.kz_types.specs.declared.tree.Row.{Row as RowValue};
ghost use Rattle.kz_reader.specs.Seen.{IsReadOfIfAny, AreReadAt};
ghost use Rattle.kz_reader.specs.Known.{IsKnown};

use crate::assignments::Assignments;
use crate::bodies::{EntityRead, read_of_row};
use kz_types::{NoMemory, Row};
use std::alloc::Global;
use std::collections::BTreeMap;

/// What is kept of the znodes that were read, for those that come later.
#[derive(Drop)]
pub struct Known {
    /// The assignments of the topic that was read last, or looked up after it.
    pub last: Option<Assignments>,
    /// The states of partitions that were read with their topic, by the places of their znodes. Each is taken when its own
    /// znode is read.
    pub states: BTreeMap<usize, EntityRead>,
}

impl Known {
    /// Nothing was read.
    pub fn new(alloc: Global) -> Known
        ensures { (rows : List RowValue) → IsKnown rows result }
    {
        Known {
            last: None,
            states: BTreeMap::new(alloc),
        }
    }
}

// Puts what was read at a place.
fn put_state(
    states: &mut BTreeMap<usize, EntityRead>,
    place: usize,
    read: EntityRead,
) -> Result<(), NoMemory>
    ensures { OnOk result ((p : ℕ) → get nat_cmp states.new p ≡ (if is_eq (nat_cmp place p) then Some read else get nat_cmp states.old p)) }
{
    states.insert(place, read)?;
    Ok(())
}

// Takes what was read at a place.
fn take_state(states: &mut BTreeMap<usize, EntityRead>, place: usize) -> Option<EntityRead>
    ensures taken { result ≡ get nat_cmp states.old place }
    ensures others { (p : ℕ) → get nat_cmp states.new p ≡ (if is_eq (nat_cmp place p) then None else get nat_cmp states.old p) }
{
    states.remove(&place)
}

/// Keeps what was read of the znode at a place, where anything was.
pub fn keep_state(
    rows: &[Row],
    states: &mut BTreeMap<usize, EntityRead>,
    place: usize,
    row: &Row,
    read: Option<EntityRead>,
) -> Result<(), NoMemory>
    requires within { place < length rows.now }
    requires row { row.now ≡ slice_index_or rows.now place row.now }
    requires read { IsReadOfIfAny row.now read }
    requires states { AreReadAt rows.now states.old }
    ensures { OnOk result (AreReadAt rows.now states.new) }
{
    match read {
        Some(read) => put_state(states, place, read),
        None => Ok(()),
    }
}

/// What the znode at a place says, where it is an entity's. What was read of it before is taken.
pub fn read_at(
    alloc: Global,
    rows: &[Row],
    states: &mut BTreeMap<usize, EntityRead>,
    place: usize,
    row: &Row,
) -> Result<Option<EntityRead>, NoMemory>
    requires row { row.now ≡ slice_index_or rows.now place row.now }
    requires states { AreReadAt rows.now states.old }
    ensures read { IfOk result (IsReadOfIfAny row.now) }
    ensures states { OnOk result (AreReadAt rows.now states.new) }
{
    match take_state(states, place) {
        Some(read) => Ok(Some(read)),
        None => read_of_row(alloc, row),
    }
}
