//! Laws of renderings, translations and differences.
//!
//! A law is the contract of a function that does nothing.

ghost use Rattle.kz_laws_znodes.specs.Operations.{DifferenceIsMade, ChunkLeavesRest};
ghost use Rattle.kz_laws_znodes.specs.Translations.{TranslatedIsAccepted};
ghost use Rattle.kz_laws_znodes.specs.RoundTrip.{ReturnsTheSame};

/// The operations of a difference make the second rendering of the first. Once the operations of the next write are made, at
/// most 64, the difference is the rest of them.
pub fn chunk_leaves_rest()
    ensures whole { DifferenceIsMade }
    ensures rest { ChunkLeavesRest }
{}

/// Each record of a translation is accepted, one after another, where the metadata holds nothing but brokers and a state of the
/// migration.
pub fn translated_is_accepted()
    ensures { TranslatedIsAccepted }
{}

/// Metadata is rendered to znodes that are translated to records that make the same metadata again: the same topics, partitions,
/// configurations, quotas, credentials and access control entries.
pub fn round_trip()
    ensures { ReturnsTheSame }
{}
