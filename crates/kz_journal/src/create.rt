//! A new file.
ghost use Rattle.std.specs.Prelude.{◌≡◌, ◌+◌, ◌^◌, ◌<◌, ◌≤◌, ℕ, List, Some, true, option_map, IfOk, OnOk, OnErr};
ghost use Rattle.kz_types.specs.Causes.{HasCause};
ghost use Rattle.kz_disk.specs.Disks.{with_piece, LeavesTorn, NothingPends, LeavesOnly};
ghost use Rattle.kz_spec_data.specs.Frames.{new_file};
ghost use Rattle.kz_journal.specs.Appends.{IsTornOr};
ghost use Rattle.kz_journal.specs.Journals.{IsReadTo, HasClosedGate};

use crate::device::write_durably;
use crate::place::Place;
use kz_disk::Disk;
use kz_types::Failed;

// The header of a file of this letter, and a closed gate.
fn new_bytes(letter: u8) -> [u8; 17]
    ensures { result ≡ new_file letter }
{
    [
        b'K', b'Z', b'-', b'J', b'O', b'U', b'R', b'N', b'A', b'L', b' ', letter, b' ', b'0', b'2',
        b'\n', 0,
    ]
}

/// Makes a file a journal of this letter without frames, whatever it holds, syncs it, and answers the place of its gate.
pub(crate) fn create_at<D: Disk>(disk: &mut D, letter: u8) -> Result<Place, Failed>
    ensures place { IfOk result (λ place. (place.gate ≡ 16) × (place.summed ≡ true) × (place.gate < place.length) × (place.length < 2 ^ 63)) }
    ensures read { IfOk result (λ place. (file : List ℕ) → D.told disk.new ≡ Some file → IsReadTo letter place file × HasClosedGate place file) }
    ensures written { OnOk result (D.told disk.new ≡ option_map (with_piece 0 (new_file letter)) (D.told disk.old)) }
    ensures durable { OnOk result (NothingPends (D.told disk.new) (D.may_leave disk.new)) }
    ensures stop { LeavesTorn 0 17 (D.may_leave disk.old) (D.may_leave disk.new) }
    ensures any_moment { LeavesOnly D.moment D.left_since disk.old disk.new (IsTornOr (D.may_leave disk.old) 0 17) }
    ensures cause { HasCause (D.faults disk.old) (D.faults disk.new) result }
    ensures failed { OnErr result (D.last_failed disk.new ≡ true) }
{
    let bytes = new_bytes(letter);
    let Ok(()) = write_durably(disk, 0, &bytes) else {
        return Err(Failed);
    };
    match disk.len() {
        Ok(length) => Ok(Place {
            gate: 16,
            summed: true,
            length: length.max(17),
            sum: 0,
        }),
        Err(_) => Err(Failed),
    }
}
