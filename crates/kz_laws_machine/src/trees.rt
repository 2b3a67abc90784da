//! Laws of trees of znodes and of logs: what a multi makes of the migrated area, and what an append leaves of a log.
//!
//! A law is the contract of a function that does nothing.

ghost use Rattle.kz_laws_machine.specs.TreeLaws.{MultiKeepsShape, ClaimKeepsShape, WriteKeepsShape, OutsideLeavesArea, WriteAppliesEdits, WriteLeavesRest, WriteKeepsClaim, WriteKeepsShown, LastWriteCompletes, EarlierWriteUnclosed, ClaimGivesVersion, ClaimShowsEpoch, ClaimLeavesArea, ClaimRecordsNone, BeginLeaves, EndLeaves, ClientKeepsShape, ClientLeavesRecorded, ClientLeavesHeld, ClientMakesNoneHeld, ClientKeepsVersion};
ghost use Rattle.kz_laws_machine.specs.RefusalLaws.{DifferenceIsTaken, WriteIsTaken, MultiFailsByOperation, ClaimHasMigration, WriteKeepsMigration, ClientKeepsMigration, SessionsKeepMigration};
ghost use Rattle.kz_laws_machine.specs.LogLaws.{BatchLeavesImages, BatchLeavesEnds, BatchMovesEnd, BatchKeepsShape, AppendKeepsShape, EndIsLastBatchEnd, BatchLengthens, ReadViewsAreAtEnd, PlainKeepsState, UncommittedStays, CommitMigrates};

/// A multi that isn't refused gives the tree the next zxid, and keeps the tree's shape where each of its operations is one that
/// does, as those of claims and writes are; outside of the migrated area it leaves the area.
pub fn multi_keeps()
    ensures shape { MultiKeepsShape }
    ensures claim { ClaimKeepsShape }
    ensures write { WriteKeepsShape }
    ensures area { OutsideLeavesArea }
{}

/// A write applies the next operations, as many as it may have, of those that lead from the migrated area to the rendering, and leaves
/// the others and the claim; an earlier write leaves the tree unclosed, and the last one completes the area and closes it.
pub fn write_leads()
    ensures applies { WriteAppliesEdits }
    ensures leaves { WriteLeavesRest }
    ensures claim { WriteKeepsClaim }
    ensures shown { WriteKeepsShown }
    ensures earlier { EarlierWriteUnclosed }
    ensures last { LastWriteCompletes }
{}

/// Where all base znodes stand, none of the operations that lead from the migrated area to the rendering of a metadata in order
/// is refused with a code; nor is any of the write of a driver whose claim still stands. A limit may be passed, and a multi fails
/// by nothing else.
pub fn never_refused()
    ensures difference { DifferenceIsTaken }
    ensures write { WriteIsTaken }
    ensures faults { MultiFailsByOperation }
{}

/// `/migration` is there after a claim, and stays while a KRaft controller holds the tree: through writes, multis of clients, and
/// sessions that begin and end.
pub fn migration_stays()
    ensures claim { ClaimHasMigration }
    ensures write { WriteKeepsMigration }
    ensures client { ClientKeepsMigration }
    ensures session { SessionsKeepMigration }
{}

/// After a claim `/controller_epoch` has the data version that its driver takes as its claim, and `/controller` shows its
/// epoch. Where the driver knows a migrated log, the migrated area and what is recorded stay; else nothing is recorded yet.
pub fn claim_leads()
    ensures version { ClaimGivesVersion }
    ensures shown { ClaimShowsEpoch }
    ensures area { ClaimLeavesArea }
    ensures none { ClaimRecordsNone }
{}

/// A session of a ZooKeeper client that begins or ends keeps the tree's shape, and leaves all that drivers read of it: the
/// migrated area, what is recorded, whether the tree is closed, the claim, and the epoch that `/controller` shows.
pub fn session_leaves()
    ensures begin { BeginLeaves }
    ensures end { EndLeaves }
{}

/// A multi of a ZooKeeper client that isn't refused keeps the tree's shape, where its operations are those of a line, and what
/// is recorded; while a KRaft controller holds the tree it leaves all that drivers read of it. It makes no tree held, and lowers
/// no data version of `/controller_epoch`.
pub fn client_leaves()
    ensures shape { ClientKeepsShape }
    ensures recorded { ClientLeavesRecorded }
    ensures held { ClientLeavesHeld }
    ensures unheld { ClientMakesNoneHeld }
    ensures version { ClientKeepsVersion }
{}

/// One batch more leaves the images and the batch ends of a log.
pub fn batch_leaves()
    ensures images { BatchLeavesImages }
    ensures ends { BatchLeavesEnds }
    ensures end { BatchMovesEnd }
{}

/// A log keeps its shape, and its end is the last batch end. With one batch more, what was known of it stays true, and a view
/// that reads it to its end is what it says there.
pub fn log_keeps()
    ensures batch { BatchKeepsShape }
    ensures append { AppendKeepsShape }
    ensures end { EndIsLastBatchEnd }
    ensures longer { BatchLengthens }
    ensures view { ReadViewsAreAtEnd }
{}

/// The state of the migration changes by a record of it alone, once its transaction is ended: plain records leave it, records
/// of a state before the commit leave an unmigrated log so, and the commit makes it migrated.
pub fn migration_state()
    ensures plain { PlainKeepsState }
    ensures uncommitted { UncommittedStays }
    ensures commit { CommitMigrates }
{}
