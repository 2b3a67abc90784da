//! The records of all znodes, one znode after another.
ghost use Rattle.std.specs.Prelude.{◌≡◌, ◌+◌, ◌<◌, ◌++◌, length, IfOk, IfErr, OnOk, OnErr, Ok, Err, slice_index_or, take, List};
ghost use Rattle.kz_types.specs.declared.tree.Row.{Row as RowValue};
ghost use Rattle.kz_types.specs.Order.{bytes_cmp};
ghost use Rattle.kz_types.specs.Ordered.{Rises};
ghost use Rattle.kz_spec_data.specs.Tree.{path_of_row};
ghost use Rattle.kz_spec_data.specs.Translation.{body_of_row, row_records, all_records};
ghost use Rattle.kz_reader.specs.Seen.{note_of};
ghost use Rattle.kz_reader.specs.Faults.{IsReadFault, IsReading};

use crate::fault::ReadFault;
use crate::known::Known;
use crate::rows::{RowRead, read_row};
use crate::seen::{Note, Seen};
use kz_types::{Duplicate, MetaRecord, NoMemory, ReadWhy, Row, Sequence, ZPath};
use std::alloc::Global;

/// The records of the znodes that were read, and what is known of them.
#[derive(Drop)]
pub struct Reading {
    pub records: Vec<MetaRecord>,
    pub seen: Seen,
    /// What is kept for the znodes that come later.
    pub known: Known,
}

// The znode of this path can't be translated.
fn untranslatable(alloc: Global, path: &ZPath, why: ReadWhy) -> ReadFault
    ensures { IsReadFault (Err (record { path = path.now; why = why })) result }
{
    match path.copy(alloc) {
        Ok(path) => ReadFault::Untranslatable { path, why },
        Err(NoMemory) => ReadFault::NoMemory,
    }
}

impl Reading {
    // Nothing was read.
    fn new(alloc: Global) -> Reading
        ensures done { result.seen.done ≡ 0 }
        ensures reading { (rows : List RowValue) → IsReading rows result }
    {
        Reading {
            records: Vec::new(alloc),
            seen: Seen::new(alloc),
            known: Known::new(alloc),
        }
    }

    // Keeps what a znode gave, which stands after those that were read.
    fn keep(
        &mut self,
        rows: &[Row],
        row: &Row,
        note: Note,
        more: Sequence<MetaRecord>,
    ) -> Result<(), NoMemory>
        requires reading { IsReading rows.now self.old }
        requires within { self.old.seen.done < length rows.now }
        requires row { row.now ≡ slice_index_or rows.now self.old.seen.done row.now }
        requires note { note ≡ note_of (body_of_row row.now) }
        requires more { Ok more ≡ row_records rows.now (take self.old.seen.done rows.now) row.now }
        ensures done { OnOk result (self.new.seen.done ≡ self.old.seen.done + 1) }
        ensures reading { OnOk result (IsReading rows.now self.new) }
    {
        let mut more = more.into_vec();
        self.records.append(&mut more)?;
        self.seen.add(rows, row, note)?;
        Ok(())
    }

    // Reads one znode more.
    fn read_next(&mut self, alloc: Global, rows: &[Row]) -> Result<(), ReadFault>
        requires rising { Rises bytes_cmp path_of_row rows.now }
        requires reading { IsReading rows.now self.old }
        requires within { self.old.seen.done < length rows.now }
        ensures done { OnOk result (self.new.seen.done ≡ self.old.seen.done + 1) }
        ensures reading { OnOk result (IsReading rows.now self.new) }
        ensures err { IfErr result (IsReadFault (all_records rows.now)) }
    {
        let row = &rows[self.seen.done];
        match read_row(alloc, rows, &self.seen, &mut self.known, row) {
            Ok(
                RowRead {
                    note,
                    records: Ok(more),
                },
            ) => match self.keep(rows, row, note, more) {
                Ok(()) => Ok(()),
                Err(NoMemory) => Err(ReadFault::NoMemory),
            },
            Ok(
                RowRead {
                    records: Err(why),
                    ..
                },
            ) => Err(untranslatable(alloc, &row.path, why)),
            Err(NoMemory) => Err(ReadFault::NoMemory),
        }
    }
}

/// The records of these znodes, or the first that can't be translated.
pub fn all_records(alloc: Global, rows: &[Row]) -> Result<Vec<MetaRecord>, ReadFault>
    requires { Rises bytes_cmp path_of_row rows.now }
    ensures ok { IfOk result (λ made. all_records rows.now ≡ Ok made.items) }
    ensures err { IfErr result (IsReadFault (all_records rows.now)) }
{
    let mut reading = Reading::new(alloc);
    while reading.seen.done < rows.len() {
        reading.read_next(alloc, rows)?;
    }
    Ok(reading.records)
}
