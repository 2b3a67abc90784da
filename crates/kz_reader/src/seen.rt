//! What is known of the znodes that were read.
ghost use Rattle.std.specs.Prelude.{◌≡◌, ◌+◌, ◌<◌, ◌^◌, List, OnOk, length, take, slice_index_or};
ghost use Rattle.std.specs.Result.{result_ok};
ghost use Rattle.kz_types.specs.declared.tree.Row.{Row as RowValue};
ghost use Rattle.kz_spec_data.specs.Translation.{body_of_row, is_taken};
ghost use Rattle.kz_reader.specs.Seen.{note_of, HasSeen};

use crate::ids::{add_if_any, is_among};
use kz_types::{Body, BodyFault, Id, NoMemory, Row};
use std::alloc::Global;
use std::collections::BTreeSet;

/// What a znode adds to what is known.
#[derive(Clone, Copy)]
pub struct Note {
    /// The id, where it is a topic.
    pub id: Option<Id>,
    /// How many access control entries it has.
    pub entries: usize,
}

/// What is known of the znodes that were read.
#[derive(Drop)]
pub struct Seen {
    /// How many were read.
    pub done: usize,
    /// The ids of their topics.
    pub ids: BTreeSet<[u8; 16]>,
    /// How many access control entries they have.
    pub entries: usize,
}

/// What the body of a znode adds.
pub fn note_of(read: &Result<Body, BodyFault>) -> Note
    ensures { result ≡ note_of (result_ok read.now) }
{
    match read {
        Ok(Body::Topic { id, .. }) => Note {
            id: Some(*id),
            entries: 0,
        },
        Ok(Body::Acls { rows }) => Note {
            id: None,
            entries: rows.len(),
        },
        _ => Note {
            id: None,
            entries: 0,
        },
    }
}

impl Seen {
    /// Nothing was read.
    pub fn new(alloc: Global) -> Seen
        ensures start { result.done ≡ 0 }
        ensures none { result.entries ≡ 0 }
        ensures seen { (rows : List RowValue) → HasSeen rows result }
    {
        Seen {
            done: 0,
            ids: BTreeSet::new(alloc),
            entries: 0,
        }
    }

    /// Whether a topic among the znodes that were read has this id.
    pub fn is_taken(&self, rows: &[Row], id: Id) -> bool
        requires { HasSeen rows.now self.now }
        ensures { result ≡ is_taken id (take self.now.done rows.now) }
    {
        is_among(&self.ids, id)
    }

    /// One znode more was read, which stands after the others.
    pub fn add(&mut self, rows: &[Row], row: &Row, note: Note) -> Result<(), NoMemory>
        requires seen { HasSeen rows.now self.old }
        requires within { self.old.done < length rows.now }
        requires row { row.now ≡ slice_index_or rows.now self.old.done row.now }
        requires note { note ≡ note_of (body_of_row row.now) }
        requires few { self.old.entries + note.entries < 2 ^ 64 }
        ensures done { OnOk result (self.new.done ≡ self.old.done + 1) }
        ensures entries { OnOk result (self.new.entries ≡ self.old.entries + note.entries) }
        ensures seen { OnOk result (HasSeen rows.now self.new) }
    {
        add_if_any(&mut self.ids, note.id)?;
        self.entries += note.entries;
        self.done += 1;
        Ok(())
    }
}
