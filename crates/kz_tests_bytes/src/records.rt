//! Records as bytes, from the log of a cluster and from its faults.
ghost use Rattle.std.specs.Prelude.{◌≡◌, length};
ghost use Rattle.kz_spec_data.specs.Records.{LengthsFit};

use kz_codec::{read_value, value_size, write_value};
use kz_types::{CodecFault, MetaRecord, Text};
use std::alloc::Global;
use std::process::Abort;

// Written values of each record: each is read, and has its size.
static WRITTEN: [&str; 30] = [
    "01190000",
    "0119000100050575736572",
    "0112004ac0f881cb657b69bcbbf16384c2d8ce7f07225c0a09017f8001026100ff00",
    "01120030b9319cea8c34cb4c03e4322649723f7f010907225c0a09017f096120622a7e2fc3bc01ff00",
    "01170000",
    "010e40020575736572000004e282ac7fffffffffffffff000000010000",
    "010e40020575736572000007225c0a09017f0000000000000001ffffffff0000",
    "0104008003c3bc04e282ac0000",
    "010400ff0261096120622a7e2fc3bc07225c0a09017f00",
    "01180000",
    "01140000",
    "01030000000000cb72182b61d1e0a6cf2dc5108c947447010102ffffffff0100000000000000018000000000",
    "010300ffffffff720c4925333ffeb688e21b82d5544f0a020000000002000000000104800000000000000100000001ffffffffffffffffffffffff00",
    "0105007fffffff33c4298b4a6d0bbdec3ec6989370a69201050101",
    "010500cf8ef6e5a6ec25d361c0d69ab39814867e6d682e030005027fffffff010400000001040101",
    "010f000000000100000000000000007fffffffffffffff00",
    "010f000000000100000000000000017fffffffffffffff00",
    "010002000000010193ca0f281085d71bb9b8bf5ab7d49cd78079cce72889ec58010100000100",
    "0100027fffffff0138cd77566a16596dcddad3431d7a29b27fffffffffffffff020a636c69656e742d696407225c0a09017fffff8000000101010100",
    "0113009092570e4345ad7d4b9d4a4b4fd2cc2b00",
    "011300ae598ab2f8827967bfde9737ae27f64b00",
    "0109002eed0dbe4ebb53ab4832513ffdb8459e00",
    "0109004fc352b6051b12e7230d0cf2fe3e244900",
    "01160003c3bc8000",
    "01160007225c0a09017f0100",
    "01020003c3bc2242eaba214f35677457e0fcd8367fc200",
    "010200096120622a7e2fc3bc4183bcfc5776b9a6e97bbb40ba0ebf0b00",
    "010b0005f09f98800111273d0b3d8243cb94e70f7fce5751b88e02cc111fa11d79bf8e75533e53ecb051b28e3cf44263f600",
    "0115008000",
    "0115000100",
];

// Other spellings of values, each with its written one.
static SPELLED: [(&str, &str); 5] = [
    ("011400010500", "01140000"),
    ("0194000000", "01140000"),
    ("8100948000800080808000", "01140000"),
    ("01190001000100", "01190000"),
    (
        "010e40030a636c69656e742d696400000575736572026100026b0000000000000005ffffffff0100",
        "010e400305757365720261000a636c69656e742d69640000026b0000000000000005ffffffff0100",
    ),
];

// Bytes that are no value, each with its fault.
static FAULTS: [(&str, CodecFault); 59] = [
    ("09190000", CodecFault::BadField { at: 0 }),
    ("21170000", CodecFault::BadField { at: 0 }),
    ("41180000", CodecFault::BadField { at: 0 }),
    ("00140000", CodecFault::BadField { at: 0 }),
    ("01160000", CodecFault::BadField { at: 3 }),
    ("111500ff00", CodecFault::BadField { at: 0 }),
    (
        "110400ff096120622a7e2fc3bc04e282ac0100",
        CodecFault::BadField { at: 0 },
    ),
    (
        "210900b6cc2476381ab14d1230f94326229fe600",
        CodecFault::BadField { at: 0 },
    ),
    (
        "410f00000000000000000000000000ffffffffffffffff00",
        CodecFault::BadField { at: 0 },
    ),
    (
        "05020005f09f9880e60ecb4b8fcde31347f0a72b91a4dbdd00",
        CodecFault::BadField { at: 0 },
    ),
    (
        "090e400205757365720000057573657200000000000000007fffffff0000",
        CodecFault::BadField { at: 0 },
    ),
    (
        "010500ec3451af2889253570443c479e1678fc110ea03602230502ffffffff050100",
        CodecFault::BadField { at: 31 },
    ),
    (
        "010002000000010193ca0f281085d71bb9b8bf5ab7d49cd78079cce72889ec58090100000100",
        CodecFault::BadField { at: 34 },
    ),
    (
        "01120030b9319cea8c34cb4c03e4322649723f7f010907225c0a09017f096120622a7e2f43bc01ff00",
        CodecFault::BadField { at: 37 },
    ),
    (
        "01030000000000cb72182b61d1e0a6cf2dc5108c947447010302ffffffff0100000000000000018000000000",
        CodecFault::BadField { at: 33 },
    ),
    ("0114000000", CodecFault::Rest { at: 4 }),
    (
        "010500000000000858e7ea30e4b532c39ad299fcf64d9801800502d620e849",
        CodecFault::Rest { at: 29 },
    ),
    (
        "018500000000010309e8436203399da2a563acff812b45020005027fffffff040d0430b1b22e0000000037544d0c",
        CodecFault::Rest { at: 25 },
    ),
    ("01190080", CodecFault::Short { at: 4 }),
    ("01178000", CodecFault::Short { at: 4 }),
    ("01040000", CodecFault::Short { at: 4 }),
    ("01180010", CodecFault::Short { at: 4 }),
    ("01140008", CodecFault::Short { at: 4 }),
    ("0115000080", CodecFault::Short { at: 5 }),
    ("0116000b6120622a7e2fc3bc1d00", CodecFault::Short { at: 14 }),
    (
        "01130039736ce5c511da7672e3f38278c79bba20",
        CodecFault::Short { at: 20 },
    ),
    (
        "0105007fffffff33c4298b4a6d0bbdec3ec6989370a69209050101",
        CodecFault::Short { at: 27 },
    ),
    (
        "010e40020575736572000006e282ac00000000000000007fffffff0000",
        CodecFault::Short { at: 29 },
    ),
    (
        "0100027fffffff008c38c1e2924e07718702ea68b2ceda920000000000000000050107225c0a09017f010100",
        CodecFault::Short { at: 44 },
    ),
    (
        "010300ffffffff720c4925333ffeb688e21b82d5544f0a020000000002000000000104800000000000000100000001ffffffffffffffffffffffff80",
        CodecFault::Short { at: 60 },
    ),
    ("01380000", CodecFault::UnknownKey { key: 56 }),
    ("01580000", CodecFault::UnknownKey { key: 88 }),
    ("01340000", CodecFault::UnknownKey { key: 52 }),
    ("01100000", CodecFault::UnknownKey { key: 16 }),
    ("0155008000", CodecFault::UnknownKey { key: 85 }),
    ("0159000100020261", CodecFault::UnknownKey { key: 89 }),
    ("011e0003c3bc0000", CodecFault::UnknownKey { key: 30 }),
    (
        "015300b2a6a59c9deb5df3431e61c1a881774900",
        CodecFault::UnknownKey { key: 83 },
    ),
    (
        "010d00178a27ab27fff82b6178e159c2856d4a00",
        CodecFault::UnknownKey { key: 13 },
    ),
    (
        "01190200",
        CodecFault::UnknownVersion {
            key: 25,
            version: 2,
        },
    ),
    (
        "01170400",
        CodecFault::UnknownVersion {
            key: 23,
            version: 4,
        },
    ),
    (
        "01181000",
        CodecFault::UnknownVersion {
            key: 24,
            version: 16,
        },
    ),
    (
        "01140400",
        CodecFault::UnknownVersion {
            key: 20,
            version: 4,
        },
    ),
    (
        "0115020000",
        CodecFault::UnknownVersion {
            key: 21,
            version: 2,
        },
    ),
    (
        "01132040bfcef8c465310036c78a1ced2e013500",
        CodecFault::UnknownVersion {
            key: 19,
            version: 32,
        },
    ),
    (
        "0109012eed0dbe4ebb53ab4832513ffdb8459e00",
        CodecFault::UnknownVersion { key: 9, version: 1 },
    ),
    (
        "010f0200000000fa3a3cb180e81aa1657ac29918ac34e800",
        CodecFault::UnknownVersion {
            key: 15,
            version: 2,
        },
    ),
    (
        "010e000000000100000000000000007fffffffffffffff00",
        CodecFault::UnknownVersion {
            key: 14,
            version: 0,
        },
    ),
    ("0114", CodecFault::Short { at: 2 }),
    ("0114000000", CodecFault::Rest { at: 4 }),
    (
        "01140100",
        CodecFault::UnknownVersion {
            key: 20,
            version: 1,
        },
    ),
    ("0114000205000500", CodecFault::BadField { at: 6 }),
    ("01160000", CodecFault::BadField { at: 3 }),
    ("01190001000404e228ac", CodecFault::BadField { at: 8 }),
    ("01190001000303e282", CodecFault::BadField { at: 7 }),
    ("01190001000403e282ac", CodecFault::BadField { at: 4 }),
    ("01190001000405e282ac", CodecFault::BadField { at: 4 }),
    ("ffffffff7f", CodecFault::BadField { at: 4 }),
    ("", CodecFault::Short { at: 0 }),
];

// The value of a hexadecimal digit.
fn digit(byte: u8) -> u8 {
    match byte {
        b'0'..=b'9' => byte - b'0',
        b'a'..=b'f' => byte - b'a' + 10,
        _ => 0,
    }
}

// The bytes that a text of hexadecimal digits stands for.
fn unhex(rt: &impl Abort, alloc: Global, text: &str) -> Vec<u8> {
    let mut bytes = Vec::new(alloc);
    for pair in text.as_bytes().chunks_exact(2) {
        if let [high, low] = pair {
            let byte = digit(*high).wrapping_mul(16).wrapping_add(digit(*low));
            if bytes.push(byte).is_err() {
                panic!(rt; "no memory");
            }
        }
    }
    bytes
}

// The size of the record that these bytes spell.
fn size_of(rt: &impl Abort, alloc: Global, text: &str) -> u128 {
    match read_value(alloc, &unhex(rt, alloc, text)) {
        Ok(record) => value_size(&record),
        Err(_) => panic!(rt; "no record"),
    }
}

#[test]
fn values_have_their_sizes(rt: HostRuntime) {
    let alloc = rt.alloc();
    for text in &WRITTEN {
        assert!(rt; size_of(&rt, alloc, text) == text.len() as u128 / 2);
    }
    for (text, written) in &SPELLED {
        assert!(rt; size_of(&rt, alloc, text) == written.len() as u128 / 2);
    }
}

// Whether reading these bytes ends with this fault.
fn is_fault(rt: &impl Abort, alloc: Global, text: &str, fault: CodecFault) -> bool {
    match read_value(alloc, &unhex(rt, alloc, text)) {
        Ok(_) => false,
        Err(found) => found == fault,
    }
}

#[test]
fn each_fault_is_at_its_place(rt: HostRuntime) {
    let alloc = rt.alloc();
    for (text, fault) in &FAULTS {
        assert!(rt; is_fault(&rt, alloc, text, *fault), "{text}");
    }
}

// Whether these are the bytes that are written for a record.
fn is_written(rt: &impl Abort, alloc: Global, record: &MetaRecord, text: &str) -> bool
    requires { LengthsFit record.now }
{
    match write_value(alloc, record) {
        Ok(bytes) => bytes.as_slice() == unhex(rt, alloc, text).as_slice(),
        Err(_) => false,
    }
}

// Whether these are the bytes that are written for the beginning of a transaction of this name.
fn is_written_beginning(rt: &impl Abort, alloc: Global, name: &str, text: &str) -> bool
    requires { length name.now ≡ 12 }
{
    match Text::from_str(alloc, name) {
        Ok(name) => {
            let name = Some(name);
            is_written(rt, alloc, &MetaRecord::BeginTransaction { name }, text)
        }
        Err(_) => false,
    }
}

#[test]
fn records_are_written(rt: HostRuntime) {
    let alloc = rt.alloc();
    assert!(rt; is_written(&rt, alloc, &MetaRecord::NoOp, "01140000"));
    let state = MetaRecord::ZkMigrationState { state: 1 };
    assert!(rt; is_written(&rt, alloc, &state, "0115000100"));
    let begin = "01170001000d0d5a4b204d6967726174696f6e";
    assert!(rt; is_written_beginning(&rt, alloc, "ZK Migration", begin));
    assert!(rt; is_written(&rt, alloc, &MetaRecord::EndTransaction, "01180000"));
}

// Whether these bytes spell a `NoOp`.
fn is_no_op(rt: &impl Abort, alloc: Global, text: &str) -> bool {
    matches!(
        read_value(alloc, &unhex(rt, alloc, text)),
        Ok(MetaRecord::NoOp)
    )
}

#[test]
fn other_spellings_are_read(rt: HostRuntime) {
    let alloc = rt.alloc();
    assert!(rt; is_no_op(&rt, alloc, "011400010500"));
    assert!(rt; is_no_op(&rt, alloc, "0194000000"));
}
