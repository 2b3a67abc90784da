//! The order of strings of bytes.
use kz_order::{are_equal, begins_with, compare};
use std::cmp::Ordering;

// Strings of which the first comes before the second: at a byte before, in and after the first eight, and by their lengths.
static RISING: [(&[u8], &[u8]); 12] = [
    (b"", b"a"),
    (b"a", b"b"),
    (b"a\xff", b"b"),
    (b"\x7f", b"\x80"),
    (b"aaaaaaa", b"aaaaaaaa"),
    (b"aaaaaaaa", b"aaaaaaaab"),
    (b"aaaaaaab", b"aaaaaaaca"),
    (b"abbbbbbb", b"baaaaaaa"),
    (b"aaaaaaaabbbbbbbb", b"aaaaaaaacbbbbbbb"),
    (b"aaaaaaaabbbbbbba", b"aaaaaaaabbbbbbbb"),
    (b"aaaaaaaabbbbbbbb\x00", b"aaaaaaaabbbbbbbb\x01"),
    (b"/brokers/topics/a", b"/brokers/topics/a/partitions"),
];

#[test]
fn strings_are_ordered_by_their_bytes(rt: HostRuntime) {
    for (low, high) in &RISING {
        assert!(rt; compare(low, high) == Ordering::Less);
        assert!(rt; compare(high, low) == Ordering::Greater);
        assert!(rt; compare(low, low) == Ordering::Equal);
        assert!(rt; compare(high, high) == Ordering::Equal);
    }
}

#[test]
fn equal_strings_have_equal_bytes(rt: HostRuntime) {
    for (low, high) in &RISING {
        assert!(rt; are_equal(low, low));
        assert!(rt; are_equal(high, high));
        assert!(rt; !are_equal(low, high));
        assert!(rt; !are_equal(high, low));
    }
}

#[test]
fn a_string_begins_with_its_front(rt: HostRuntime) {
    let text = b"/brokers/topics/a/partitions".as_slice();
    for length in 0..text.len() {
        assert!(rt; begins_with(text, &text[..length]));
        assert!(rt; !begins_with(&text[..length], text));
    }
    assert!(rt; begins_with(text, text));
    assert!(rt; !begins_with(text, b"/config"));
    assert!(rt; !begins_with(text, b"/brokers/topics/b"));
}
