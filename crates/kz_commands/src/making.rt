//! The command that makes both files.
ghost use Rattle.std.specs.Prelude.{◌≡◌, ◌≢◌, ◌||◌, bytes_eq, false, List, ℕ, Some, IfOk, IfErr, MatchResult};
ghost use Rattle.kz_types.specs.Causes.{HasCause, Rose};
ghost use Rattle.kz_disk.specs.Disks.{StaysTold, LeavesNoMore, NothingPends};
ghost use Rattle.kz_spec_data.specs.Frames.{tree_letter, log_letter, new_file, journal_of};
ghost use Rattle.kz_spec_machine.specs.Files.{EndsAtDisk};
ghost use Rattle.kz_tree_store.specs.Opened.{GrowsByOne};
ghost use Rattle.kz_spec_machine.specs.Init.{is_short, tree_refusal, log_refusal, Inits};
ghost use Rattle.kz_commands.specs.Outside.{outside};
ghost use Rattle.kz_commands.specs.Makes.{MakesFiles};
ghost use Rattle.kz_commands.specs.Making.{IsShortFound, IsTreeFound, IsLogFound, IsRefusedFor, OfFile, MakesFile, MakingLeaves, is_taken, found_by};
ghost use Rattle.kz_commands.specs.Stops.{LeavesByInit, LongGrowsByOne, StaysSettled};

use crate::opening::{log_status, tree_status};
use kz_disk::Disk;
use kz_journal::Journal;
use kz_log_store::LogStore;
use kz_tree_store::TreeStore;
use kz_types::{Failed, Status};
use std::alloc::Global;

/// The most bytes of a file that has no room for a frame: a header and a gate.
const NEW_FILE_BYTES: u64 = 17;

// What stands in a file that is to be made.
#[derive(Clone, Copy, Debug, PartialEq, Eq)]
enum Found {
    // No room for a frame, and no journal.
    Unmade,
    // A journal without a tree or a log.
    Empty,
    // A tree or a log.
    Taken,
}

// What stands in a journal, by whether it holds no tree and no log.
fn found_by(fresh: bool) -> Found
    ensures { result ≡ found_by fresh }
{
    if fresh { Found::Empty } else { Found::Taken }
}

// Whether these bytes are one of two texts.
fn is_either(bytes: &[u8], first: &[u8], second: &[u8]) -> bool
    ensures { result ≡ (bytes_eq bytes.now first.now || bytes_eq bytes.now second.now) }
{
    *bytes == *first || *bytes == *second
}

// What stands in a short file: nothing, or one of these two whole journals without a frame. `None` where the file is longer.
fn look<D: Disk>(disk: &mut D, plain: &[u8], summed: &[u8]) -> Result<Option<Found>, Failed>
    ensures found { IfOk result (λ found. (file : List ℕ) → D.told disk.old ≡ Some file → IsShortFound plain.now summed.now file found) }
    ensures same { D.told disk.new ≡ D.told disk.old }
    ensures left { LeavesNoMore (D.may_leave disk.old) (D.may_leave disk.new) }
    ensures cause { HasCause (D.faults disk.old) (D.faults disk.new) result }
{
    let length = disk.len()?;
    if length > NEW_FILE_BYTES {
        return Ok(None);
    }
    let mut buffer = [0u8; 17];
    let bytes = &mut buffer[..length as usize];
    disk.read_at(0, bytes)?;
    if is_either(bytes, summed, plain) {
        Ok(Some(Found::Empty))
    } else {
        Ok(Some(Found::Unmade))
    }
}

// What stands in a tree's file that isn't short.
fn look_through_tree<D: Disk>(alloc: Global, disk: D) -> Result<(D, Found), (D, Status)>
    requires { (file : List ℕ) → D.told disk ≡ Some file → is_short file ≡ false }
    ensures found { IfOk result (λ f. OfFile (D.told disk) (D.told f.0) IsTreeFound f.1) }
    ensures told { IfOk result (λ f. StaysTold (D.told disk) (D.told f.0) × GrowsByOne (D.told disk) (D.told f.0)) }
    ensures calm { IfOk result (λ f. D.faults f.0 ≡ D.faults disk) }
    ensures refused { IfErr result (λ e. OfFile (D.told disk) (D.told e.0) (IsRefusedFor tree_letter tree_refusal) e.1) }
    ensures cause { IfErr result (λ e. EndsAtDisk Status.TreeFault e.1 (D.faults disk) (D.faults e.0)) }
    ensures other { IfErr result (λ e. (e.1 ≢ Status.LogFault) × (e.1 ≢ Status.Usage) × (e.1 ≢ Status.ReadFault) × (e.1 ≢ Status.Done)) }
    ensures settled { IfOk result (λ f. NothingPends (D.told f.0) (D.may_leave f.0)) }
    ensures left { MatchResult result (λ f. LeavesByInit tree_letter (D.told disk) (D.may_leave disk) (D.may_leave f.0)) (λ e. LeavesByInit tree_letter (D.told disk) (D.may_leave disk) (D.may_leave e.0)) }
{
    match TreeStore::attach(alloc, disk) {
        Ok(tree) => {
            let found = found_by(tree.is_fresh());
            Ok((tree.into_disk(), found))
        }
        Err((disk, fault)) => Err((disk, tree_status(fault))),
    }
}

// What stands in the tree's file.
fn find_tree<D: Disk>(alloc: Global, mut disk: D) -> Result<(D, Found), (D, Status)>
    ensures found { IfOk result (λ f. OfFile (D.told disk) (D.told f.0) IsTreeFound f.1) }
    ensures told { IfOk result (λ f. StaysTold (D.told disk) (D.told f.0) × GrowsByOne (D.told disk) (D.told f.0)) }
    ensures calm { IfOk result (λ f. D.faults f.0 ≡ D.faults disk) }
    ensures refused { IfErr result (λ e. OfFile (D.told disk) (D.told e.0) (IsRefusedFor tree_letter tree_refusal) e.1) }
    ensures cause { IfErr result (λ e. EndsAtDisk Status.TreeFault e.1 (D.faults disk) (D.faults e.0)) }
    ensures other { IfErr result (λ e. (e.1 ≢ Status.LogFault) × (e.1 ≢ Status.Usage) × (e.1 ≢ Status.ReadFault) × (e.1 ≢ Status.Done)) }
    ensures settled { IfOk result (λ f. StaysSettled (D.told disk) (D.may_leave disk) (D.told f.0) (D.may_leave f.0)) }
    ensures left { MatchResult result (λ f. LeavesByInit tree_letter (D.told disk) (D.may_leave disk) (D.may_leave f.0)) (λ e. LeavesByInit tree_letter (D.told disk) (D.may_leave disk) (D.may_leave e.0)) }
{
    match look(
        &mut disk,
        b"KZ-JOURNAL T 01\n\x00",
        b"KZ-JOURNAL T 02\n\x00",
    ) {
        Ok(Some(found)) => Ok((disk, found)),
        Ok(None) => look_through_tree(alloc, disk),
        Err(Failed) => Err((disk, Status::TreeFault)),
    }
}

// What stands in a log's file that isn't short.
fn look_through_log<E: Disk>(alloc: Global, disk: E) -> Result<(E, Found), (E, Status)>
    requires { (file : List ℕ) → E.told disk ≡ Some file → is_short file ≡ false }
    ensures found { IfOk result (λ f. OfFile (E.told disk) (E.told f.0) IsLogFound f.1) }
    ensures calm { IfOk result (λ f. E.faults f.0 ≡ E.faults disk) }
    ensures refused { IfErr result (λ e. OfFile (E.told disk) (E.told e.0) (IsRefusedFor log_letter log_refusal) e.1) }
    ensures cause { IfErr result (λ e. EndsAtDisk Status.LogFault e.1 (E.faults disk) (E.faults e.0)) }
    ensures other { IfErr result (λ e. (e.1 ≢ Status.TreeFault) × (e.1 ≢ Status.Usage) × (e.1 ≢ Status.ReadFault) × (e.1 ≢ Status.Done)) }
    ensures settled { IfOk result (λ f. NothingPends (E.told f.0) (E.may_leave f.0)) }
    ensures left { MatchResult result (λ f. LeavesByInit log_letter (E.told disk) (E.may_leave disk) (E.may_leave f.0)) (λ e. LeavesByInit log_letter (E.told disk) (E.may_leave disk) (E.may_leave e.0)) }
{
    match LogStore::attach(alloc, disk) {
        Ok(log) => {
            let found = found_by(log.is_fresh());
            Ok((log.into_disk(), found))
        }
        Err((disk, fault)) => Err((disk, log_status(fault))),
    }
}

// What stands in the log's file.
fn find_log<E: Disk>(alloc: Global, mut disk: E) -> Result<(E, Found), (E, Status)>
    ensures found { IfOk result (λ f. OfFile (E.told disk) (E.told f.0) IsLogFound f.1) }
    ensures calm { IfOk result (λ f. E.faults f.0 ≡ E.faults disk) }
    ensures refused { IfErr result (λ e. OfFile (E.told disk) (E.told e.0) (IsRefusedFor log_letter log_refusal) e.1) }
    ensures cause { IfErr result (λ e. EndsAtDisk Status.LogFault e.1 (E.faults disk) (E.faults e.0)) }
    ensures other { IfErr result (λ e. (e.1 ≢ Status.TreeFault) × (e.1 ≢ Status.Usage) × (e.1 ≢ Status.ReadFault) × (e.1 ≢ Status.Done)) }
    ensures settled { IfOk result (λ f. StaysSettled (E.told disk) (E.may_leave disk) (E.told f.0) (E.may_leave f.0)) }
    ensures left { MatchResult result (λ f. LeavesByInit log_letter (E.told disk) (E.may_leave disk) (E.may_leave f.0)) (λ e. LeavesByInit log_letter (E.told disk) (E.may_leave disk) (E.may_leave e.0)) }
{
    match look(
        &mut disk,
        b"KZ-JOURNAL L 01\n\x00",
        b"KZ-JOURNAL L 02\n\x00",
    ) {
        Ok(Some(found)) => Ok((disk, found)),
        Ok(None) => look_through_log(alloc, disk),
        Err(Failed) => Err((disk, Status::LogFault)),
    }
}

// Whether a tree or a log stands in the file.
fn is_taken(found: Found) -> bool
    ensures { result ≡ is_taken found }
{
    match found {
        Found::Unmade | Found::Empty => false,
        Found::Taken => true,
    }
}

// Makes a file, unless a journal stands in it already. At `Err` a call of the disk failed.
fn make<D: Disk>(alloc: Global, disk: D, letter: u8, found: Found) -> Result<D, D>
    ensures made { IfOk result (λ d. MakesFile letter found (D.told disk) (D.told d)) }
    ensures calm { IfOk result (λ d. D.faults d ≡ D.faults disk) }
    ensures failed { IfErr result (λ d. Rose (D.faults disk) (D.faults d)) }
    ensures settled { IfOk result (λ d. StaysSettled (D.told disk) (D.may_leave disk) (D.told d) (D.may_leave d)) }
    ensures left { MatchResult result (λ d. MakingLeaves found (D.may_leave disk) (D.may_leave d)) (λ d. MakingLeaves found (D.may_leave disk) (D.may_leave d)) }
{
    match found {
        Found::Unmade => match Journal::create(alloc, disk, letter) {
            Ok(journal) => Ok(journal.into_disk()),
            Err((disk, _)) => Err(disk),
        },
        Found::Empty | Found::Taken => Ok(disk),
    }
}

/// Makes both files journals without a tree and a log. A file of at most 17 bytes is made, unless it is such a journal already;
/// a longer one is left as it is. Both are tested before either is made, the tree's first. A stop at any moment leaves a short file
/// short, and a longer one with what it says; once both are made, it leaves an empty tree and an empty log.
///
/// `TreeFault`, `LogFault`: a call of that disk failed. `TreeDamaged`, `LogDamaged`: the file is longer, and damaged first at this
/// place. `NotEmpty`: one holds a tree or a log. `NoMemory`.
pub fn init<D: Disk, E: Disk>(alloc: Global, tree: D, log: E) -> (Status, D, E)
    ensures made { MakesFiles Inits (outside D.told D.faults D.last_failed tree) (outside D.told D.faults D.last_failed result.1)
        (outside E.told E.faults E.last_failed log) (outside E.told E.faults E.last_failed result.2) result.0 }
    ensures told { result.0 ≡ Status.Done → StaysTold (D.told tree) (D.told result.1) }
    ensures grown { result.0 ≡ Status.Done → LongGrowsByOne (D.told tree) (D.told result.1) }
    ensures unread { result.0 ≢ Status.ReadFault }
    ensures settled { result.0 ≡ Status.Done → StaysSettled (D.told tree) (D.may_leave tree) (D.told result.1) (D.may_leave result.1) × StaysSettled (E.told log) (E.may_leave log) (E.told result.2) (E.may_leave result.2) }
    ensures tree_left { LeavesByInit tree_letter (D.told tree) (D.may_leave tree) (D.may_leave result.1) }
    ensures log_left { LeavesByInit log_letter (E.told log) (E.may_leave log) (E.may_leave result.2) }
{
    let (tree, in_tree) = match find_tree(alloc, tree) {
        Ok(found) => found,
        Err((tree, status)) => return (status, tree, log),
    };
    let (log, in_log) = match find_log(alloc, log) {
        Ok(found) => found,
        Err((log, status)) => return (status, tree, log),
    };
    let taken = is_taken(in_tree) | is_taken(in_log);
    if taken {
        return (Status::NotEmpty, tree, log);
    }
    let tree = match make(alloc, tree, b'T', in_tree) {
        Ok(tree) => tree,
        Err(tree) => return (Status::TreeFault, tree, log),
    };
    match make(alloc, log, b'L', in_log) {
        Ok(log) => (Status::Done, tree, log),
        Err(log) => (Status::LogFault, tree, log),
    }
}
