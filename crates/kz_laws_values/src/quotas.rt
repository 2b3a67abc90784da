//! Laws of the texts of quotas: the decimals are what is read, a text that is none is at fault at the first byte with which no decimal
//! goes on, and the text that is written for a quota is read as that quota.
//!
//! Each law is the contract of a function that does nothing.

ghost use Rattle.std.specs.Prelude.{◌≡◌, ℕ, true, ◌≤ℤ◌, List, Ok, Err};
ghost use Rattle.std.specs.Str.{is_utf8};
ghost use Rattle.kz_types.specs.Quotas.{is_quota};
ghost use Rattle.kz_types.specs.Faults.{IsFaultPlace};
ghost use Rattle.kz_types.specs.declared.value_fault.QuotaFault.TheVariants.{NotNumber};
ghost use Rattle.kz_types.specs.declared.limits.TheConstants.{MAX_LONG};
ghost use Rattle.kz_spec_data.specs.Quotas.{Numeral, numeral_of, quota_of, quota_text};
ghost use Rattle.kz_laws_values.specs.Grammar.{IsDecimal, BeginsDecimal};
ghost use Rattle.kz_types.specs.declared.row.QuotaValue.{QuotaValue};

/// The texts that are read are the decimals.
pub fn decimals_are_read()
    ensures read { (text : List ℕ) → IsDecimal text → (n : Numeral) × (numeral_of text ≡ Ok n) }
    ensures decimal { (text : List ℕ) (n : Numeral) → numeral_of text ≡ Ok n → IsDecimal text }
{}

/// The place of `NotNumber` is the first byte with which no decimal goes on: some decimal begins with the bytes before it, and none with
/// these and the byte there. It is the length of a text that ends too early.
pub fn fault_is_the_first_byte()
    ensures { (text : List ℕ) (at : ℕ) → quota_of text ≡ Err (NotNumber at) → IsFaultPlace BeginsDecimal text at }
{}

/// The text that is written for a quota is read as that quota, where its whole part fits 64 bits.
pub fn quotas_are_restored()
    ensures { (value : QuotaValue) → is_quota value ≡ true → value.whole ≤ℤ MAX_LONG → quota_of (quota_text value) ≡ Ok value }
{}

/// And it is UTF-8.
pub fn quota_texts_are_utf8()
    ensures { (value : QuotaValue) → is_quota value ≡ true → value.whole ≤ℤ MAX_LONG → is_utf8 (quota_text value) ≡ true }
{}
