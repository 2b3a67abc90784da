use kz_batch::{Batch, BatchFault, batch_size, write_batch};
use kz_crc::crc32c;
use std::test::Fail;

// The first batch of a migration: two records, `01140000` and `0115000100`, at offset 0, of epoch 1 and time 0.
const FIRST: [u8; 84] = [
    0, 0, 0, 0, 0, 0, 0, 0, 0, 0, 0, 72, 0, 0, 0, 1, 2, 183, 173, 82, 186, 0, 0, 0, 0, 0, 1, 0, 0,
    0, 0, 0, 0, 0, 0, 0, 0, 0, 0, 0, 0, 0, 0, 255, 255, 255, 255, 255, 255, 255, 255, 255, 255,
    255, 255, 255, 255, 0, 0, 0, 2, 20, 0, 0, 0, 1, 8, 1, 20, 0, 0, 0, 22, 0, 0, 2, 1, 10, 1, 21,
    0, 1, 0, 0,
];

// Its sum.
const SUM: u32 = 0xB7AD52BA;

// A batch without records, at offset 7, of epoch 3 and time 1000.
const EMPTY: [u8; 61] = [
    0, 0, 0, 0, 0, 0, 0, 7, 0, 0, 0, 49, 0, 0, 0, 3, 2, 251, 247, 76, 14, 0, 0, 255, 255, 255, 255,
    0, 0, 0, 0, 0, 0, 3, 232, 0, 0, 0, 0, 0, 0, 3, 232, 255, 255, 255, 255, 255, 255, 255, 255,
    255, 255, 255, 255, 255, 255, 0, 0, 0, 0,
];

// By another Kafka client: one record with a key, an empty value and a header.
const OTHER: [u8; 81] = [
    0, 0, 0, 0, 0, 0, 0, 0, 0, 0, 0, 69, 0, 0, 0, 0, 2, 219, 253, 34, 16, 0, 0, 0, 0, 0, 0, 0, 0,
    0, 0, 0, 0, 0, 1, 0, 0, 0, 0, 0, 0, 0, 1, 255, 255, 255, 255, 255, 255, 255, 255, 255, 255,
    255, 255, 255, 255, 0, 0, 0, 1, 38, 0, 0, 0, 2, 107, 0, 6, 4, 195, 188, 1, 4, 195, 188, 1, 2,
    104, 2, 49,
];

// Such records as a control batch, of time 1000.
const CONTROL: [u8; 84] = [
    0, 0, 0, 0, 0, 0, 0, 0, 0, 0, 0, 72, 0, 0, 0, 1, 2, 169, 142, 37, 52, 0, 32, 0, 0, 0, 1, 0, 0,
    0, 0, 0, 0, 3, 232, 0, 0, 0, 0, 0, 0, 3, 232, 255, 255, 255, 255, 255, 255, 255, 255, 255, 255,
    255, 255, 255, 255, 0, 0, 0, 2, 20, 0, 0, 0, 1, 8, 1, 20, 0, 0, 0, 22, 0, 0, 2, 1, 10, 1, 21,
    0, 1, 0, 0,
];

#[test]
fn reads_and_lends(rt: HostRuntime) -> Result<(), Fail> {
    let batch = Batch::read(&FIRST).ok().ok_or("a batch")?;
    assert_eq!(rt; batch.first(), 0);
    assert_eq!(rt; batch.epoch(), 1);
    assert_eq!(rt; batch.time(), 0);
    assert_eq!(rt; batch.last(), 1);
    assert!(rt; !batch.is_control());
    assert!(rt; matches!(batch.value(0), Some([1, 20, 0, 0])));
    assert!(rt; matches!(batch.value(1), Some([1, 21, 0, 1, 0])));
    assert!(rt; batch.value(2).is_none());
    let mut values = batch.values();
    assert!(rt; matches!(values.next(), Some([1, 20, 0, 0])));
    assert!(rt; matches!(values.next(), Some([1, 21, 0, 1, 0])));
    assert!(rt; values.next().is_none());
    let other = Batch::read(&OTHER).ok().ok_or("a batch")?;
    assert!(rt; matches!(other.value(0), Some([])));
    let control = Batch::read(&CONTROL).ok().ok_or("a batch")?;
    assert!(rt; control.is_control());
    assert_eq!(rt; control.time(), 1000);
    assert_eq!(rt; control.last(), 1);
    assert!(rt; control.value(0).is_none());
    Ok(())
}

// A batch cut anywhere is short, and bytes after it are a wrong count.
#[test]
fn every_truncation(rt: HostRuntime) -> Result<(), Fail> {
    for end in 0..FIRST.len() {
        assert_eq!(rt; Batch::read(&FIRST[..end]).err(), Some(BatchFault::Short));
    }
    let mut longer = FIRST.to_vec(rt.alloc())?;
    longer.push(0)?;
    assert_eq!(rt; Batch::read(&longer).err(), Some(BatchFault::BadCount));
    Ok(())
}

// A batch that says that it has more records than it has bytes, with the right sum.
#[test]
fn a_count_past_the_bytes(rt: HostRuntime) -> Result<(), Fail> {
    let mut batch = FIRST;
    batch[23..27].copy_from_slice(&[0x7F, 0xFF, 0xFF, 0xFE]);
    batch[57..61].copy_from_slice(&[0x7F, 0xFF, 0xFF, 0xFF]);
    let sum = crc32c(&batch[21..]).to_be_bytes();
    batch[17..21].copy_from_slice(&sum);
    assert_eq!(rt; Batch::read(&batch).err(), Some(BatchFault::BadCount));
    Ok(())
}

// What reading says of the first batch where one bit of this place is turned, which makes it this byte.
fn is_expected(place: usize, bit: u32, byte: u8, fault: Option<BatchFault>) -> bool {
    match place {
        0..8 | 12..16 => fault.is_none(),
        11 if bit == 3 => is_summed_otherwise(fault),
        8..12 => fault == Some(BatchFault::Short),
        16 => fault == Some(BatchFault::BadMagic { byte }),
        17..21 => is_stated_otherwise(fault),
        _ => is_summed_otherwise(fault),
    }
}

fn is_summed_otherwise(fault: Option<BatchFault>) -> bool {
    match fault {
        Some(BatchFault::BadCrc { stored, computed }) => stored == SUM && computed != SUM,
        _ => false,
    }
}

fn is_stated_otherwise(fault: Option<BatchFault>) -> bool {
    match fault {
        Some(BatchFault::BadCrc { stored, computed }) => stored != SUM && computed == SUM,
        _ => false,
    }
}

#[test]
fn every_bit(rt: HostRuntime) {
    for place in 0..FIRST.len() {
        for bit in 0..8u32 {
            let mut bytes = FIRST;
            bytes[place] ^= 1u8 << bit;
            let fault = Batch::read(&bytes).err();
            assert!(rt; is_expected(place, bit, bytes[place], fault));
        }
    }
}

#[test]
fn writes_and_sizes(rt: HostRuntime) -> Result<(), Fail> {
    let empty = write_batch(rt.alloc(), 7, 3, 1000, &[])
        .ok()
        .ok_or("memory")?;
    assert_eq!(rt; empty.as_slice(), EMPTY.as_slice());
    assert_eq!(rt; batch_size(&[]), 61);
    let first = Vec::from_slice(rt.alloc(), &[1, 20, 0, 0])?;
    let second = Vec::from_slice(rt.alloc(), &[1, 21, 0, 1, 0])?;
    let values = [first, second];
    assert_eq!(rt; batch_size(&values), FIRST.len() as u128);
    let written = write_batch(rt.alloc(), 0, 1, 0, &values)
        .ok()
        .ok_or("memory")?;
    assert_eq!(rt; written.as_slice(), FIRST.as_slice());
    Ok(())
}
