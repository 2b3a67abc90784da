use kz_crc::{crc32c, crc32c_add};
use std::test::Fail;

// The sum one bit at a time, to compare with.
fn plain(bytes: &[u8]) -> u32 {
    let mut state: u32 = 0xFFFFFFFF;
    for byte in bytes {
        state ^= *byte as u32;
        for _ in 0..8 {
            state = if state % 2 == 0 {
                state / 2
            } else {
                state / 2 ^ 0x82F63B78
            };
        }
    }
    state ^ 0xFFFFFFFF
}

// The check values of RFC 3720 and of the usual catalogues.
#[test]
fn check_values(rt: HostRuntime) {
    assert_eq!(rt; crc32c(b""), 0);
    assert_eq!(rt; crc32c(b"123456789"), 0xE3069283);
    assert_eq!(rt; crc32c(&[0; 32]), 0x8A9136AA);
    assert_eq!(rt; crc32c(&[0xFF; 32]), 0x62A8AB43);
}

// Each length from 0 to 40 gives what the plain body gives.
#[test]
fn every_remainder(rt: HostRuntime) -> Result<(), Fail> {
    let mut bytes = Vec::new(rt.alloc());
    for i in 0..40u8 {
        assert_eq!(rt; crc32c(&bytes), plain(&bytes));
        bytes.push(i * 6 + 3)?;
    }
    assert_eq!(rt; crc32c(&bytes), plain(&bytes));
    Ok(())
}

// Bytes in two pieces, cut at each place, have the sum of the whole.
#[test]
fn sums_of_pieces(rt: HostRuntime) {
    let bytes = b"The quick brown fox";
    for at in 0..bytes.len() {
        let front = crc32c(&bytes[..at]);
        assert_eq!(rt; crc32c_add(front, &bytes[at..]), crc32c(bytes));
    }
}
