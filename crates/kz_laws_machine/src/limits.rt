//! Laws of limits: which metadata keeps them, whatever the epochs of its records.
//!
//! A law is the contract of a function that does nothing.

ghost use Rattle.kz_laws_machine.specs.Limits.{TranslatedKeepLimits, BareKeepsLimits, OthersKeepLimits};

/// Metadata that holds nothing but brokers and a state of the migration keeps the limits. Records of a translation that keep them
/// at the greatest epoch keep them at all epochs. Brokers and the state pass none.
pub fn limits_keep()
    ensures translated { TranslatedKeepLimits }
    ensures bare { BareKeepsLimits }
    ensures others { OthersKeepLimits }
{}
