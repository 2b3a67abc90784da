//! Access control entries.
ghost use Rattle.std.specs.Prelude.{◌≡◌, ◌++◌, [], None, map, bytes_eq, IfOk, OnOk, OnErr};
ghost use Rattle.std.specs.List.{filter};
ghost use Rattle.kz_types.specs.Order.{bytes_cmp};
ghost use Rattle.kz_types.specs.Ordered.{find as find_in, put as put_in, without as without_in, Rises};
ghost use Rattle.kz_spec_data.specs.Metadata.{id_of_acl};
ghost use Rattle.kz_acls.specs.Names.{entry_named};

use crate::names::{EntryId, NamedIds, ids_at, put_id, take_id};
use kz_order::are_equal;
use kz_sorted::Blocks;
use kz_types::{AclEntry, Duplicate, Id, NoMemory, Text};
use std::alloc::Global;
use std::marker::Model;

/// Access control entries by rising id, as contracts see them, and the ids of those of each name: a look-up by the name of a
/// resource looks at no entry of another name. A copy costs two pointers. There may be ids of entries that aren't there, where
/// memory ran out.
#[derive(Drop)]
pub struct AclList {
    entries: Blocks<AclEntry>,
    names: Blocks<NamedIds>,
}

impl Model for AclList {
    ghost use Rattle.std.specs.Prelude.{List};
    ghost use Rattle.kz_types.specs.declared.image.AclEntry.{AclEntry};
    ghost use Rattle.kz_acls.specs.Names.{AreNamed};

    ghost Value = { List AclEntry };

    ghost view = { λ l. l.entries };

    ghost invariant = { λ l. AreNamed l.names l.entries };
}

// Adds the entry of an id, where it is there and its resource has this name.
fn push_named<'a>(
    found: &mut Vec<&'a AclEntry>,
    entries: &'a Blocks<AclEntry>,
    name: &[u8],
    id: &EntryId,
) -> Result<(), NoMemory>
    ensures { OnOk result (map (λ a. a.now) found.new.items ≡ map (λ a. a.now) found.old.items ++ entry_named name.now entries.entry.now id.now) }
{
    if let Some(entry) = entries.find(&id.id.bytes) {
        if are_equal(entry.row.name.bytes(), name) {
            found.push(entry)?;
        }
    }
    Ok(())
}

impl AclList {
    /// No entries. It takes no memory.
    pub fn new(alloc: Global) -> AclList
        ensures { result ≡ [] }
    {
        AclList {
            entries: Blocks::new(alloc),
            names: Blocks::new(alloc),
        }
    }

    /// Lends the entries, by rising id.
    pub fn entries(&self) -> &Blocks<AclEntry>
        ensures { result.now ≡ self.now }
    {
        &self.entries
    }

    /// The entries of the resources of a name, by rising id. It looks at no other entry. Memory for the references is taken from
    /// this allocator; at `Err` it ran out.
    pub fn named(&self, alloc: Global, name: &[u8]) -> Result<Vec<&AclEntry>, NoMemory>
        ensures { IfOk result (λ found. map (λ a. a.now) found.items ≡ filter (λ a. bytes_eq a.row.name name.now) self.now) }
    {
        let mut found = Vec::new(alloc);
        let ids = ids_at(&self.names, name);
        for id in ids {
            push_named(&mut found, &self.entries, name, id)?;
        }
        Ok(found)
    }

    /// Puts an entry at its place, instead of the one with its id. At `Err` the entries are as they were.
    pub fn put(&mut self, alloc: Global, entry: AclEntry) -> Result<(), NoMemory>
        ensures ok { OnOk result (self.new ≡ put_in bytes_cmp id_of_acl entry self.old) }
        ensures err { OnErr result (self.new ≡ self.old) }
    {
        // Where memory runs out after this, the id stays. No look-up finds an entry by it.
        put_id(alloc, &mut self.names, &entry.row.name, entry.id)?;
        self.entries.put(entry)?;
        Ok(())
    }

    /// Takes the entry of an id out, where there is one. At `Err` the entries are as they were.
    pub fn without(&mut self, alloc: Global, id: Id) -> Result<(), NoMemory>
        ensures ok { OnOk result (self.new ≡ without_in bytes_cmp id_of_acl id.bytes self.old) }
        ensures err { OnErr result (self.new ≡ self.old) }
    {
        let Some(entry) = self.entries.find(&id.bytes) else {
            return Ok(());
        };
        let mut names = self.names.copy(alloc)?;
        take_id(alloc, &mut names, &entry.row.name, id)?;
        self.entries.without(&id.bytes)?;
        self.names = names;
        Ok(())
    }
}

impl Duplicate for AclList {
    // The same entries in the same blocks.
    fn copy(&self, alloc: Global) -> Result<Self, NoMemory> {
        Ok(AclList {
            entries: self.entries.copy(alloc)?,
            names: self.names.copy(alloc)?,
        })
    }
}
