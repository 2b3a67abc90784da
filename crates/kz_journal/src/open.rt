//! A file that is opened as a journal.
ghost use Rattle.std.specs.Prelude.{◌≡◌, ◌+◌, ◌^◌, ◌<◌, ◌≤◌, ℕ, List, [], Some, None, true, false, length, take, IfOk, IfErr, IfSome, OnOk, OnErr, bytes_eq};
ghost use Rattle.kz_types.specs.Causes.{HasCause};
ghost use Rattle.kz_disk.specs.Disks.{IsWithin, NothingPends, LeavesOnly};
ghost use Rattle.kz_spec_data.specs.Frames.{plain_header, summed_header, journal_of};
ghost use Rattle.kz_journal.specs.Openings.{has_header, IsNoJournal, IsRefused, HasFaultCause, Settles};
ghost use Rattle.kz_journal.specs.Reads.{OnlyReads};
ghost use Rattle.kz_journal.specs.Journals.{IsReadTo, journal_at};

use crate::device::read_piece;
use crate::fault::JournalFault;
use crate::place::Place;
use kz_crc::crc32c;
use kz_disk::Disk;
use kz_types::Failed;

// The first 16 bytes of a file of format 02.
fn summed_header(letter: u8) -> [u8; 16]
    ensures { result ≡ summed_header letter }
{
    [
        b'K', b'Z', b'-', b'J', b'O', b'U', b'R', b'N', b'A', b'L', b' ', letter, b' ', b'0', b'2',
        b'\n',
    ]
}

// The first 16 bytes of a file of format 01.
fn plain_header(letter: u8) -> [u8; 16]
    ensures { result ≡ plain_header letter }
{
    [
        b'K', b'Z', b'-', b'J', b'O', b'U', b'R', b'N', b'A', b'L', b' ', letter, b' ', b'0', b'1',
        b'\n',
    ]
}

// Whether two headers are the same.
fn is_same(a: &[u8], b: &[u8]) -> bool
    ensures { result ≡ bytes_eq a.now b.now }
{
    a == b
}

// Makes all that was written outlive a stop, and tells the length.
fn settle<D: Disk>(disk: &mut D) -> Result<u64, Failed>
    ensures length { IfOk result (λ n. (file : List ℕ) → D.told disk.old ≡ Some file → n ≡ length file) }
    ensures small { IfOk result (λ n. n < 2 ^ 63) }
    ensures same { OnOk result (D.told disk.new ≡ D.told disk.old) }
    ensures durable { OnOk result (NothingPends (D.told disk.new) (D.may_leave disk.new)) }
    ensures settles { Settles (D.told disk.old) (D.may_leave disk.old) (D.syncs disk.old) (D.syncs disk.new) (D.may_leave disk.new) }
    ensures any_moment { LeavesOnly D.moment D.left_since disk.old disk.new (D.may_leave disk.old) }
    ensures cause { HasCause (D.faults disk.old) (D.faults disk.new) result }
    ensures failed { OnErr result (D.last_failed disk.new ≡ true) }
{
    let Ok(()) = disk.sync() else {
        return Err(Failed);
    };
    match disk.len() {
        Ok(long) => Ok(long),
        Err(_) => Err(Failed),
    }
}

// The first 16 bytes.
fn read_header<D: Disk>(disk: &mut D) -> Result<[u8; 16], Failed>
    requires within { IsWithin (D.told disk.old) 16 }
    ensures header { IfOk result (λ header. (file : List ℕ) → D.told disk.old ≡ Some file → header ≡ take 16 file) }
    ensures reads { OnlyReads D.told D.may_leave D.moment D.left_since disk.old disk.new }
    ensures synced { D.syncs disk.new ≡ D.syncs disk.old }
    ensures cause { HasCause (D.faults disk.old) (D.faults disk.new) result }
    ensures failed { OnErr result (D.last_failed disk.new ≡ true) }
{
    let mut header = [0u8; 16];
    match read_piece(disk, 0, &mut header) {
        Ok(()) => Ok(header),
        Err(_) => Err(Failed),
    }
}

// The place after a header in a file that is so long, or none where it isn't a header of this letter.
fn place_of(letter: u8, long: u64, header: [u8; 16]) -> Option<Place>
    ensures read { IfSome result (λ place. (file : List ℕ) → long ≡ length file → header ≡ take 16 file
        → IsReadTo letter place file × (journal_at place file ≡ journal_of letter file)) }
    ensures place { IfSome result (λ place. (place.gate ≡ 16) × (place.length ≡ long)) }
    ensures header { IfSome result (λ place. (file : List ℕ) → header ≡ take 16 file → has_header letter file ≡ true) }
    ensures none { result ≡ None → (file : List ℕ) → header ≡ take 16 file → IsNoJournal letter file }
{
    if is_same(&header, &summed_header(letter)) {
        return Some(Place {
            gate: 16,
            summed: true,
            length: long,
            sum: 0,
        });
    }
    if is_same(&header, &plain_header(letter)) {
        return Some(Place {
            gate: 16,
            summed: false,
            length: long,
            sum: crc32c(&header),
        });
    }
    None
}

/// Opens a file as a journal of a letter, and answers the place after its header.
pub(crate) fn open_at<D: Disk>(disk: &mut D, letter: u8) -> Result<Place, JournalFault>
    ensures read { IfOk result (λ place. (file : List ℕ) → D.told disk.old ≡ Some file
        → IsReadTo letter place file × (journal_at place file ≡ journal_of letter file)) }
    ensures place { IfOk result (λ place. (place.gate ≤ place.length) × (place.length < 2 ^ 63) × (D.told disk.new ≡ D.told disk.old) × (D.faults disk.new ≡ D.faults disk.old)) }
    ensures header { IfOk result (λ place. (file : List ℕ) → D.told disk.old ≡ Some file → has_header letter file ≡ true) }
    ensures refused { IfErr result (λ fault. IsRefused letter fault (D.told disk.old) (D.told disk.new)) }
    ensures cause { IfErr result (λ fault. HasFaultCause fault (D.faults disk.old) (D.faults disk.new) (D.last_failed disk.new)) }
    ensures durable { OnOk result (NothingPends (D.told disk.new) (D.may_leave disk.new)) }
    ensures settles { Settles (D.told disk.old) (D.may_leave disk.old) (D.syncs disk.old) (D.syncs disk.new) (D.may_leave disk.new) }
    ensures any_moment { LeavesOnly D.moment D.left_since disk.old disk.new (D.may_leave disk.old) }
{
    let Ok(long) = settle(disk) else {
        return Err(JournalFault::DiskFault);
    };
    if long < 16 {
        return Err(JournalFault::Damaged { at: 0 });
    }
    let Ok(header) = read_header(disk) else {
        return Err(JournalFault::DiskFault);
    };
    match place_of(letter, long, header) {
        Some(place) => Ok(place),
        None => Err(JournalFault::Damaged { at: 0 }),
    }
}
