//! Quotas, on tables of literals.
use kz_body_parts::QuotaText;
use kz_types::{QuotaFault, QuotaValue};
use std::test::Fail;

/// Texts of quotas, their whole parts and millionths, and the texts that are written for them.
const QUOTAS: [(&str, i64, i32, &str); 12] = [
    ("1024", 1024, 0, "1024"),
    ("1024.0", 1024, 0, "1024"),
    ("1.024E3", 1024, 0, "1024"),
    ("12.5", 12, 500_000, "12.5"),
    ("1.0E-4", 0, 100, "0.0001"),
    ("1.000001", 1, 1, "1.000001"),
    ("00700e-2", 7, 0, "7"),
    ("2e+1", 20, 0, "20"),
    (
        "9223372036854775807.999999",
        9_223_372_036_854_775_807,
        999_999,
        "9223372036854775807.999999",
    ),
    ("0E99999999999999999999999", 0, 0, "0"),
    ("0.000E-99999999999999999999999", 0, 0, "0"),
    ("0.00000000000000000000000000000000123E35", 123, 0, "123"),
];

/// Texts that are none.
const FAULTS: [(&str, QuotaFault); 18] = [
    ("0.0000001", QuotaFault::TooFine),
    ("1e-7", QuotaFault::TooFine),
    ("1E-99999999999999999999999", QuotaFault::TooFine),
    (
        "100000000000000000000000000000000000000000.0000001",
        QuotaFault::TooFine,
    ),
    ("1E40", QuotaFault::TooLarge),
    ("1E99999999999999999999999", QuotaFault::TooLarge),
    ("9223372036854775808", QuotaFault::TooLarge),
    (
        "100000000000000000000000000000000000000000",
        QuotaFault::TooLarge,
    ),
    ("", QuotaFault::NotNumber { at: 0 }),
    ("-1", QuotaFault::NotNumber { at: 0 }),
    (".5", QuotaFault::NotNumber { at: 0 }),
    ("1.", QuotaFault::NotNumber { at: 2 }),
    ("1 ", QuotaFault::NotNumber { at: 1 }),
    ("1.5.", QuotaFault::NotNumber { at: 3 }),
    ("1E", QuotaFault::NotNumber { at: 2 }),
    ("1.5e-", QuotaFault::NotNumber { at: 5 }),
    ("1e++1", QuotaFault::NotNumber { at: 3 }),
    ("1e1.0", QuotaFault::NotNumber { at: 3 }),
];

#[test]
fn quotas(rt: HostRuntime) -> Result<(), Fail> {
    for (text, whole, micros, written) in QUOTAS {
        let Ok(quota) = QuotaValue::read(text.as_bytes()) else {
            return Err("refused".into());
        };
        assert_eq!(rt; quota, QuotaValue { whole, micros }, "{text}");
        let again = quota.text(rt.alloc()).ok().ok_or("memory")?;
        assert_eq!(rt; again.as_str(), written);
    }
    Ok(())
}

#[test]
fn refused_quotas(rt: HostRuntime) {
    for (text, fault) in FAULTS {
        assert_eq!(rt; QuotaValue::read(text.as_bytes()), Err(fault), "{text}");
    }
}
