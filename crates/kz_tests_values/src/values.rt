//! Paths, texts, ids, keys, decimals and lists.
use crate::made::{made, put, text_of};
use kz_types::{
    Duplicate, EntityKey, Id, NoMemory, PathFault, QuotaEntities, QuotaEntity, Sequence, Text,
    ZPath, canonical, copy_all, digits_up_to, may_be_address, may_be_part, may_be_topic, number_in,
};
use std::alloc::Global;
use std::process::Abort;

// Paths, and the places at which other bytes stop being the beginning of one.
static PATHS: [(&[u8], Option<usize>); 22] = [
    (b"/a", None),
    (b"/a/...", None),
    (b"/config/users/a%20b", None),
    (b"/\xc3\xbc", None),
    (b"/a/../b", Some(5)),
    (b"/a/./b", Some(4)),
    (b"/..", Some(3)),
    (b"/", Some(1)),
    (b"//", Some(1)),
    (b"/a/", Some(3)),
    (b"a", Some(0)),
    (b"", Some(0)),
    (b"/a//b", Some(3)),
    (b"/users/topics/\x7f", Some(14)),
    (b"/*/t\x00pics", Some(4)),
    (b"/\x1f/10", Some(1)),
    (b"/brokers/\x80igration", Some(9)),
    (b"/t\xc3config", Some(3)),
    (b"/\xedonfig/topics/0", Some(2)),
    (b"/a/../b/\xf0\x80\x98\x80", Some(5)),
    (b"/\xf0\x80\x98\x80", Some(2)),
    (b"/controller/x/.", Some(15)),
];

// Where bytes are at fault as a path.
fn fault_of(rt: &impl Abort, alloc: Global, bytes: &[u8]) -> Option<usize> {
    match ZPath::new(alloc, bytes) {
        Ok(path) => {
            assert!(rt; path.bytes() == bytes);
            None
        }
        Err(PathFault::BadName { at }) => Some(at),
        Err(PathFault::NoMemory) => panic!(rt; "no memory"),
    }
}

#[test]
fn paths_are_made_of_bytes_of_the_rule(rt: HostRuntime) {
    for (bytes, fault) in &PATHS {
        assert!(rt; fault_of(&rt, rt.alloc(), bytes) == *fault);
    }
}

// Letters after a slash, so many bytes in all.
fn long_path(rt: &impl Abort, alloc: Global, length: usize) -> Vec<u8> {
    let mut bytes = made(rt, vec![in alloc; b'y'; length]);
    if let Some(first) = bytes.first_mut() {
        *first = b'/';
    }
    bytes
}

#[test]
fn a_path_has_at_most_1024_bytes(rt: HostRuntime) {
    for (length, fault) in [(1024, None), (1025, Some(1025))] {
        let bytes = long_path(&rt, rt.alloc(), length);
        assert!(rt; fault_of(&rt, rt.alloc(), &bytes) == fault);
    }
}

#[tactic(auto, unfolding(kz_types::proofs::OnLiterals::values_on_literals))]
fn literal_path(alloc: Global) -> Result<ZPath, NoMemory> {
    Ok(ZPath::from_text(Text::from_str(alloc, "/migration")?))
}

#[test]
fn a_path_lends_its_text(rt: HostRuntime) {
    let path = made(&rt, literal_path(rt.alloc()));
    assert!(rt; path.as_str() == "/migration");
}

// Whether bytes are read as a text.
fn is_text(rt: &impl Abort, alloc: Global, bytes: &[u8]) -> bool {
    match made(rt, Text::new(alloc, bytes)) {
        Some(text) => text.bytes() == bytes,
        None => false,
    }
}

#[test]
fn texts_are_utf8(rt: HostRuntime) {
    let alloc = rt.alloc();
    assert!(rt; is_text(&rt, alloc, b"\xc3\xbc"));
    assert!(rt; !is_text(&rt, alloc, b"\xc3"));
    let text = Text::from_string(made(&rt, String::from_str(alloc, "a")));
    assert!(rt; text.as_str() == "a");
}

// Ids with their bytes, and texts that are none.
static IDS: [(&str, Option<[u8; 16]>); 10] = [
    (
        "AAECAwQFBgcICQoLDA0ODw",
        Some([0, 1, 2, 3, 4, 5, 6, 7, 8, 9, 10, 11, 12, 13, 14, 15]),
    ),
    ("AAAAAAAAAAAAAAAAAAAAAA", Some([0; 16])),
    ("_____________________w", Some([255; 16])),
    (
        "-oDyhkA235mFw_ouvKBiuQ",
        Some([
            0xfa, 0x80, 0xf2, 0x86, 0x40, 0x36, 0xdf, 0x99, 0x85, 0xc3, 0xfa, 0x2e, 0xbc, 0xa0,
            0x62, 0xb9,
        ]),
    ),
    ("AAAAAAAAAAAAAAAAAAAAAB", None),
    ("_____________________x", None),
    ("AAECAwQFBgcICQoLDA0OD", None),
    ("AAECAwQFBgcICQoLDA0ODw=", None),
    ("AAECAwQFBgcICQoLDA0OD+", None),
    ("AAECAwQFBgcICQoLDA0OD/", None),
];

#[test]
fn ids_have_one_text(rt: HostRuntime) {
    for (text, bytes) in &IDS {
        match Id::read(text.as_bytes()) {
            Some(id) => {
                assert!(rt; Some(id.bytes) == *bytes);
                assert!(rt; id.text().as_slice() == text.as_bytes());
            }
            None => assert!(rt; bytes.is_none()),
        }
    }
}

// Decimals of 0 to 2147483647.
static DECIMALS: [(&[u8], Option<i32>); 9] = [
    (b"0", Some(0)),
    (b"7", Some(7)),
    (b"2147483647", Some(2147483647)),
    (b"2147483648", None),
    (b"", None),
    (b"01", None),
    (b"+1", None),
    (b"-1", None),
    (b"1x", None),
];

#[test]
fn decimals_are_canonical(rt: HostRuntime) {
    for (text, number) in &DECIMALS {
        assert!(rt; number_in(text) == *number);
        assert!(rt; canonical(text).is_some() == number.is_some());
    }
    assert!(rt; canonical(b"2147483647") == Some(2147483647));
    assert!(rt; digits_up_to(b"0999", 999) == Some(999));
    assert!(rt; digits_up_to(b"1000", 999).is_none());
}

// What may be a topic's name, an address and a part of a path.
static NAMES: [(&[u8], bool, bool, bool); 9] = [
    (b"orders-1_a.B", true, true, true),
    (b"...", true, true, true),
    (b"", false, false, false),
    (b".", false, false, false),
    (b"..", false, false, false),
    (b"a b", false, true, true),
    (b"<default>", false, false, true),
    (b"a/b", false, false, false),
    (b"a\x7f", false, false, false),
];

#[test]
fn names_keep_their_rules(rt: HostRuntime) {
    for (name, topic, address, part) in &NAMES {
        assert!(rt; may_be_topic(name) == *topic);
        assert!(rt; may_be_address(name) == *address);
        assert!(rt; may_be_part(name) == *part);
    }
}

// A key of each kind.
fn legal_keys(rt: &impl Abort, alloc: Global) -> Sequence<EntityKey> {
    let mut keys = Sequence::new(alloc);
    let name = text_of(rt, alloc, "t");
    put(rt, &mut keys, EntityKey::Topic { name });
    let topic = text_of(rt, alloc, "t");
    put(rt, &mut keys, EntityKey::Partition { topic, number: 0 });
    let name = text_of(rt, alloc, "t");
    put(rt, &mut keys, EntityKey::TopicConfig { name });
    put(rt, &mut keys, EntityKey::BrokerConfig { broker: Some(0) });
    let client = Some(text_of(rt, alloc, "a b"));
    put(rt, &mut keys, EntityKey::Client { client });
    let user = Some(text_of(rt, alloc, "<default>"));
    put(rt, &mut keys, EntityKey::User { user });
    let client = Some(text_of(rt, alloc, "c"));
    put(rt, &mut keys, EntityKey::UserClient { user: None, client });
    let address = Some(text_of(rt, alloc, "10.0.0.1"));
    put(rt, &mut keys, EntityKey::Ip { address });
    let name = text_of(rt, alloc, "*");
    put(
        rt,
        &mut keys,
        EntityKey::Acl {
            pattern: 3,
            kind: 2,
            name,
        },
    );
    put(rt, &mut keys, EntityKey::Producer);
    keys
}

// Keys with a name or a number that there can't be.
fn other_keys(rt: &impl Abort, alloc: Global) -> Sequence<EntityKey> {
    let mut keys = Sequence::new(alloc);
    let name = text_of(rt, alloc, "a b");
    put(rt, &mut keys, EntityKey::Topic { name });
    let topic = text_of(rt, alloc, "t");
    put(rt, &mut keys, EntityKey::Partition { topic, number: -1 });
    put(rt, &mut keys, EntityKey::BrokerConfig { broker: Some(-1) });
    let user = Some(text_of(rt, alloc, ""));
    put(rt, &mut keys, EntityKey::User { user });
    let address = Some(text_of(rt, alloc, "<default>"));
    put(rt, &mut keys, EntityKey::Ip { address });
    let name = text_of(rt, alloc, "*");
    put(
        rt,
        &mut keys,
        EntityKey::Acl {
            pattern: 3,
            kind: 7,
            name,
        },
    );
    keys
}

#[test]
fn keys_are_legal_by_their_names_and_numbers(rt: HostRuntime) {
    let alloc = rt.alloc();
    let legal = made(&rt, legal_keys(&rt, alloc).copy(alloc));
    assert!(rt; legal.as_slice().iter().all(EntityKey::is_legal));
    let others = other_keys(&rt, alloc);
    assert!(rt; !others.as_slice().iter().any(EntityKey::is_legal));
}

#[test]
fn lists_keep_their_items(rt: HostRuntime) {
    let alloc = rt.alloc();
    let mut list = Sequence::new(alloc);
    put(&rt, &mut list, 7);
    put(&rt, &mut list, 5);
    assert!(rt; list.len() == 2);
    let items: Vec<i32> = made(&rt, list.copy(alloc)).into_vec();
    let copy = Sequence::from_vec(made(&rt, copy_all(alloc, &items)));
    assert!(rt; copy.as_slice() == [7, 5].as_slice());
}

fn entity(rt: &impl Abort, alloc: Global, kind: &str) -> QuotaEntity {
    QuotaEntity {
        kind: text_of(rt, alloc, kind),
        name: Some(text_of(rt, alloc, "a")),
    }
}

fn entities(rt: &impl Abort, alloc: Global, first: &str, second: &str) -> QuotaEntities {
    let mut parts = Vec::new(alloc);
    made(rt, parts.push(entity(rt, alloc, first)));
    made(rt, parts.push(entity(rt, alloc, second)));
    QuotaEntities::from_vec(parts)
}

#[test]
fn a_quotas_user_stands_first(rt: HostRuntime) {
    let alloc = rt.alloc();
    for (first, second) in [("user", "client-id"), ("client-id", "user")] {
        let made = entities(&rt, alloc, first, second);
        assert!(rt; made.len() == 2);
        let kinds = made.as_slice();
        assert!(rt; kinds.first().map(|part| part.kind.as_str()) == Some("user"));
    }
}
