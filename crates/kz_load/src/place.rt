//! Where a load stands between two lines.
ghost use Rattle.std.specs.Prelude.{◌≡◌, ◌+◌, ◌<◌, ◌^◌, [], ◌∷◌, true, List, IfOk, IfErr, OnOk, Ok};
ghost use Rattle.kz_spec_data.specs.Lines.{Item, line};
ghost use Rattle.kz_spec_data.specs.Loads.{is_load};
ghost use Rattle.kz_load.specs.Kept.{number_of};
ghost use Rattle.kz_load.specs.Stops.{IsLineStop};
ghost use Rattle.kz_load.specs.Pending.{load_of_lines};

use crate::part::Part;
use crate::stop::LoadStop;
use kz_dump::read_row_line;
use kz_record_json::LineFault;
use kz_spec_machine::LoadLine;
use kz_tree::LoadCheck;
use std::alloc::Global;

/// Where a load stands between two lines.
#[derive(Drop)]
pub enum Place {
    /// Before the first.
    Start,
    /// After the first, or later.
    After(Part),
}

impl Place {
    // The number of the next line, counted from 1.
    fn number(&self) -> u64
        ensures { result ≡ number_of self.now }
    {
        match self {
            Place::Start => 1,
            Place::After(part) => part.number,
        }
    }

    /// Goes over a line. A load that has stopped goes over no more.
    pub fn advance(&mut self, alloc: Global, text: &[u8]) -> Result<(), LoadStop>
        requires room { number_of self.old + 1 < 2 ^ 64 }
        ensures ok { OnOk result ((is : List Item) → load_of_lines self.old (line text.now ∷ is) ≡ load_of_lines self.new is) }
        ensures number { OnOk result (number_of self.new ≡ number_of self.old + 1) }
        ensures stop { IfErr result (λ stop. (is : List Item) → IsLineStop (load_of_lines self.old (line text.now ∷ is)) stop) }
    {
        let line = self.number();
        let said = match read_row_line(alloc, text) {
            Ok(said) => said,
            Err(LineFault::BadLine) => return Err(LoadStop::BadLine { line }),
            Err(LineFault::NoMemory) => return Err(LoadStop::NoMemory),
        };
        match self {
            Place::Start => match Part::begin(alloc, said) {
                Ok(part) => {
                    *self = Place::After(part);
                    Ok(())
                }
                Err(stop) => Err(stop),
            },
            Place::After(part) => part.next(said),
        }
    }

    /// The end of the input.
    pub fn finish(self) -> Result<LoadCheck, LoadStop>
        ensures ok { IfOk result (λ check. load_of_lines self [] ≡ Ok check) }
        ensures load { IfOk result (λ t. is_load t.zxid t.sessions t.rows ≡ true) }
        ensures stop { IfErr result (IsLineStop (load_of_lines self [])) }
    {
        match self {
            Place::Start => Err(LoadStop::BadLine { line: 1 }),
            Place::After(part) => Ok(part.finish()),
        }
    }
}
