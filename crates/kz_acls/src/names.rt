//! The ids of the access control entries of a name.
ghost use Rattle.std.specs.Prelude.{◌≡◌, [], None, option_map, IfOk, OnOk, OnErr};
ghost use Rattle.kz_types.specs.Order.{bytes_cmp};
ghost use Rattle.kz_types.specs.Ordered.{find as find_in, put as put_in, without as without_in, Rises};
ghost use Rattle.kz_acls.specs.Names.{id_of, ids_at, with_ids};

use kz_sorted::{Blocks, Keyed, put, without};
use kz_types::{Duplicate, Id, NoMemory, Sequence, Text, copy_all};
use std::alloc::Global;

/// The id of an entry.
#[derive(Clone, Copy)]
pub struct EntryId {
    pub id: Id,
}

impl Keyed for EntryId {
    ghost key = { λ i. i.id.bytes };

    fn key(&self) -> &[u8] {
        &self.id.bytes
    }
}

impl Duplicate for EntryId {
    fn copy(&self, _alloc: Global) -> Result<Self, NoMemory> {
        Ok(*self)
    }
}

/// The ids of the entries whose resource has this name, rising.
#[derive(Drop)]
pub struct NamedIds {
    pub name: Text,
    pub ids: Sequence<EntryId>,
}

impl Keyed for NamedIds {
    ghost key = { λ n. n.name };

    fn key(&self) -> &[u8] {
        self.name.bytes()
    }
}

/// The ids under a name.
pub fn ids_at<'a>(names: &'a Blocks<NamedIds>, name: &[u8]) -> &'a [EntryId]
    ensures { result.now ≡ ids_at name.now names.entry.now }
{
    match names.find(name) {
        Some(named) => named.ids.as_slice(),
        None => &[],
    }
}

// Puts these ids under a name. A name without ids isn't kept.
fn set_ids(
    alloc: Global,
    names: &mut Blocks<NamedIds>,
    name: &Text,
    ids: Vec<EntryId>,
) -> Result<(), NoMemory>
    ensures ok { OnOk result (names.new ≡ with_ids name.now ids.items names.old) }
    ensures err { OnErr result (names.new ≡ names.old) }
{
    if ids.len() == 0 {
        return names.without(name.bytes());
    }
    let named = NamedIds {
        name: name.copy(alloc)?,
        ids: Sequence::from_vec(ids),
    };
    names.put(named)
}

/// Puts an id under a name. At `Err` nothing has changed.
pub fn put_id(
    alloc: Global,
    names: &mut Blocks<NamedIds>,
    name: &Text,
    id: Id,
) -> Result<(), NoMemory>
    requires { Rises bytes_cmp id_of (ids_at name.now names.old) }
    ensures ok { OnOk result (names.new ≡ with_ids name.now (put_in bytes_cmp id_of (record { id = id }) (ids_at name.now names.old)) names.old) }
    ensures err { OnErr result (names.new ≡ names.old) }
{
    let mut ids = copy_all(alloc, ids_at(names, name.bytes()))?;
    put(&mut ids, EntryId { id })?;
    set_ids(alloc, names, name, ids)
}

/// Takes an id out that stands under a name. At `Err` nothing has changed.
pub fn take_id(
    alloc: Global,
    names: &mut Blocks<NamedIds>,
    name: &Text,
    id: Id,
) -> Result<(), NoMemory>
    requires { Rises bytes_cmp id_of (ids_at name.now names.old) }
    ensures ok { OnOk result (names.new ≡ with_ids name.now (without_in bytes_cmp id_of id.bytes (ids_at name.now names.old)) names.old) }
    ensures err { OnErr result (names.new ≡ names.old) }
{
    let mut ids = copy_all(alloc, ids_at(names, name.bytes()))?;
    without(&mut ids, &id.bytes);
    set_ids(alloc, names, name, ids)
}
