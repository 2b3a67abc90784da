//! Each public call with ample memory, on a table of paths.
use kz_path::{key_of, kind, path_of, restore, sanitise};
use kz_types::{EntityKey, Kind, Text, ZPath};
use std::test::Fail;

/// Paths at the boundaries of kinds.
const KINDS: [(&str, Kind); 22] = [
    ("/brokers", Kind::Base),
    ("/brokers/ids", Kind::Outside),
    ("/brokers/topics", Kind::Scaffold),
    ("/brokers/topics/t", Kind::Entity),
    ("/brokers/topics/t/partitions", Kind::Scaffold),
    ("/brokers/topics/t/partitions/0/state", Kind::Entity),
    ("/brokers/topics/t/partitions/01/state", Kind::Stray),
    ("/config/brokers/2147483647", Kind::Entity),
    ("/config/brokers/2147483648", Kind::Stray),
    ("/config/brokers-2", Kind::Outside),
    ("/config/clients/c%2a", Kind::Stray),
    ("/config/clients/c%2A", Kind::Entity),
    ("/config/users/a/clients", Kind::Scaffold),
    ("/config/users/a/clients/<default>", Kind::Entity),
    ("/config/ips/::1", Kind::Entity),
    ("/kafka-acl-extended/prefixed", Kind::Base),
    ("/kafka-acl-extended/prefixed/Group/g", Kind::Entity),
    ("/kafka-acl/Topic/a/b", Kind::Stray),
    ("/kafka-acl/topic", Kind::Outside),
    ("/controller_epoch", Kind::Control),
    ("/controller/x", Kind::Reserved),
    ("/latest_producer_id_block", Kind::Entity),
];

#[test]
fn kinds(rt: HostRuntime) -> Result<(), Fail> {
    for (text, wanted) in KINDS {
        let path = ZPath::new(rt.alloc(), text.as_bytes())?;
        assert_eq!(rt; kind(&path), wanted, "{text}");
    }
    Ok(())
}

#[test]
fn keys(rt: HostRuntime) -> Result<(), Fail> {
    for (text, wanted) in KINDS {
        let path = ZPath::new(rt.alloc(), text.as_bytes())?;
        match key_of(rt.alloc(), &path)? {
            Some(key) => {
                assert!(rt; wanted == Kind::Entity, "{text}");
                assert!(rt; key.is_legal(), "{text}");
                let back = path_of_key(rt.alloc(), &key)?;
                assert!(rt; back.bytes() == path.bytes(), "{text}");
            }
            None => assert!(rt; wanted != Kind::Entity, "{text}"),
        }
    }
    Ok(())
}

/// The path of a key, which is tested to be legal first.
fn path_of_key(alloc: std::alloc::Global, key: &EntityKey) -> Result<ZPath, &'static str> {
    if !key.is_legal() {
        return Err("no legal key");
    }
    match path_of(alloc, key) {
        Ok(path) => Ok(path),
        Err(_) => Err("no path"),
    }
}

#[test]
fn names(rt: HostRuntime) -> Result<(), Fail> {
    for (name, part) in [
        ("a b*~/\u{fc}", "a%20b%2A~%2F%C3%BC"),
        ("<default>", "%3Cdefault%3E"),
        ("", ""),
    ] {
        let text = Text::from_str(rt.alloc(), name)?;
        assert!(rt;
            sanitise(rt.alloc(), &text)?.as_slice() == part.as_bytes(),
            "{name}"
        );
        match restore(rt.alloc(), part.as_bytes())? {
            Some(back) => assert!(rt; back.bytes() == name.as_bytes(), "{name}"),
            None => assert!(rt; false, "{name}"),
        }
    }
    for part in ["%2a", "%41", "%7E", "%", "%4", "%C3", " "] {
        assert!(rt; restore(rt.alloc(), part.as_bytes())?.is_none(), "{part}");
    }
    Ok(())
}
