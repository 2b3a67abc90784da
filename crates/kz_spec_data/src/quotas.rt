//! The texts of quotas: which texts are quotas, which value they have, and the text that a value is written as.
//!
//! The definitions stand in specs/. They are computed here on examples, each of which stands on a function that does nothing.

ghost use Rattle.std.specs.Prelude.{◌≡◌, [], codes, pos, ℕ, List, Ok, Err};
ghost use Rattle.kz_types.specs.declared.value_fault.QuotaFault.TheVariants.{NotNumber, TooFine, TooLarge};
ghost use Rattle.kz_spec_data.specs.Quotas.{quota_of, quota_text};

/// Quotas and their texts.
#[tactic(auto, unfolding(crate::proofs::QuotasOnLiterals::quotas_on_literals))]
pub fn quotas()
    ensures whole { quota_of (codes "1024") ≡ Ok (record { whole = pos 1024; micros = pos 0 }) }
    ensures decimal { quota_of (codes "1024.0") ≡ Ok (record { whole = pos 1024; micros = pos 0 }) }
    ensures exponent { quota_of (codes "1.024E3") ≡ Ok (record { whole = pos 1024; micros = pos 0 }) }
    ensures half { quota_of (codes "12.5") ≡ Ok (record { whole = pos 12; micros = pos 500000 }) }
    ensures small { quota_of (codes "1.0E-4") ≡ Ok (record { whole = pos 0; micros = pos 100 }) }
    ensures fine { quota_of (codes "0.0000001") ≡ Err TooFine }
    ensures fine_exponent { quota_of (codes "1e-7") ≡ Err TooFine }
    ensures greatest { quota_of (codes "9223372036854775807.999999") ≡ Ok (record { whole = pos 9223372036854775807; micros = pos 999999 }) }
    ensures large { quota_of (codes "9223372036854775808") ≡ Err TooLarge }
    ensures fine_first { quota_of (codes "9223372036854775808.0000001") ≡ Err TooFine }
    ensures no_decimals { quota_of (codes "1.") ≡ Err (NotNumber 2) }
    ensures empty { quota_of [] ≡ Err (NotNumber 0) }
    ensures no_exponent { quota_of (codes "1E+") ≡ Err (NotNumber 3) }
    ensures letter { quota_of (codes "1x") ≡ Err (NotNumber 1) }
    ensures written { quota_text (record { whole = pos 1024; micros = pos 0 }) ≡ codes "1024" }
    ensures written_decimals { quota_text (record { whole = pos 12; micros = pos 500000 }) ≡ codes "12.5" }
    ensures written_small { quota_text (record { whole = pos 0; micros = pos 100 }) ≡ codes "0.0001" }
{}
