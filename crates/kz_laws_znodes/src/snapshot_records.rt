//! Laws of the records of snapshots.
//!
//! A law is the contract of a function that does nothing.

ghost use Rattle.kz_laws_znodes.specs.Returning.{SnapshotIsMetadata, BatchesAreMetadata};

/// The records of a snapshot, taken in one after another, make the metadata that the snapshot is of.
pub fn snapshot_is_metadata()
    ensures records { SnapshotIsMetadata }
    ensures batches { BatchesAreMetadata }
{}
