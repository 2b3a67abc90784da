//! Laws of the agreement of tree and log: each path of the migrated area by itself.
//!
//! A law is the contract of a function that does nothing.
#![tactic(auto)]

ghost use Rattle.kz_laws_agreement.specs.Agreement.{StepsKeepPaths};

/// On a migrated log each path of the migrated area, its absence included, is as it is rendered at a batch end that isn't before a
/// commit or before the recorded offset; until a first offset is recorded it may also be as it was at the commit. Every step
/// keeps this under every plan.
pub fn paths_agree()
    ensures { StepsKeepPaths }
{}
