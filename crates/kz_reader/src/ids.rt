//! The ids of topics.
ghost use Rattle.std.specs.Prelude.{◌≡◌, OnOk, ◌||◌, List, ℕ};
ghost use Rattle.kz_types.specs.declared.id.Id.{Id as IdValue};
ghost use Rattle.kz_spec_data.specs.Metadata.{same_id};
ghost use Rattle.kz_reader.specs.Seen.{is_among, is_this};

use kz_types::{Id, NoMemory};
use std::collections::BTreeSet;

/// Whether an id is among these.
pub fn is_among(ids: &BTreeSet<[u8; 16]>, id: Id) -> bool
    ensures { result ≡ is_among ids.now id }
{
    ids.contains(&id.bytes)
}

// Adds an id.
fn add(ids: &mut BTreeSet<[u8; 16]>, id: Id) -> Result<(), NoMemory>
    ensures { OnOk result ((other : IdValue) → is_among ids.new other ≡ (is_among ids.old other || same_id other id)) }
{
    ids.insert(id.bytes)?;
    Ok(())
}

/// Adds an id, where there is one.
pub fn add_if_any(ids: &mut BTreeSet<[u8; 16]>, id: Option<Id>) -> Result<(), NoMemory>
    ensures { OnOk result ((other : IdValue) → is_among ids.new other ≡ (is_among ids.old other || is_this other id)) }
{
    match id {
        Some(id) => add(ids, id),
        None => Ok(()),
    }
}
