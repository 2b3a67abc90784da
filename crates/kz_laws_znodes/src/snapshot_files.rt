//! Laws of snapshots in a log's file.
//!
//! A law is the contract of a function that does nothing.

ghost use Rattle.kz_laws_znodes.specs.ReadBack.{SnapshotIsReadBack, BatchesAreReadBack};

/// A snapshot that is written to a log's file is read back as the log that is cut there.
pub fn snapshot_is_read_back()
    ensures records { SnapshotIsReadBack }
    ensures batches { BatchesAreReadBack }
{}
