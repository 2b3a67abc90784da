//! Laws of snapshots of the log.
//!
//! A law is the contract of a function that does nothing.

ghost use Rattle.kz_laws_machine.specs.Snapshots.{SnapshotCuts, SnapshotKeepsShape, RecordedMayBeBase, SnapshotKeepsShared, SnapshotKeepsDrivers};

/// A snapshot at a batch end outside every transaction leaves the metadata at each batch end from there on.
pub fn snapshot_leaves()
    ensures cuts { SnapshotCuts }
    ensures shape { SnapshotKeepsShape }
{}

/// In a sound world a snapshot may be taken at what is recorded, and keeps the tree, the log and every driver sound.
pub fn snapshot_keeps_sound()
    ensures may { RecordedMayBeBase }
    ensures shared { SnapshotKeepsShared }
    ensures drivers { SnapshotKeepsDrivers }
{}
