//! Access control entries by id, and by the name of their resource.
use crate::made::{made, text_of};
use kz_acls::AclList;
use kz_types::{AclEntry, AclRow, Duplicate, Id};
use std::alloc::Global;
use std::process::Abort;

// An id with this last byte.
fn id(last: u8) -> Id {
    Id {
        bytes: [0, 0, 0, 0, 0, 0, 0, 0, 0, 0, 0, 0, 0, 0, 0, last],
    }
}

// An entry of a topic.
fn entry(rt: &impl Abort, alloc: Global, last: u8, name: &str) -> AclEntry {
    AclEntry {
        id: id(last),
        row: AclRow {
            kind: 2,
            pattern: 3,
            name: text_of(rt, alloc, name),
            principal: text_of(rt, alloc, "User:alice"),
            host: text_of(rt, alloc, "*"),
            operation: 3,
            permission: 3,
        },
    }
}

// Whether the entries of a name are those of ids with these last bytes.
fn are_named(rt: &impl Abort, alloc: Global, list: &AclList, name: &str, lasts: &[u8]) -> bool {
    let found = made(rt, list.named(alloc, name.as_bytes()));
    if found.len() != lasts.len() {
        return false;
    }
    for (at, last) in lasts.iter().enumerate() {
        let entry = found[at];
        if entry.id != id(*last) || entry.row.name.as_str() != name {
            return false;
        }
    }
    true
}

fn put(rt: &impl Abort, alloc: Global, list: &mut AclList, last: u8, name: &str) {
    let item = entry(rt, alloc, last, name);
    made(rt, list.put(alloc, item));
}

#[test]
fn entries_are_found_by_the_name_of_their_resource(rt: HostRuntime) {
    let alloc = rt.alloc();
    let mut list = AclList::new(alloc);
    assert!(rt; are_named(&rt, alloc, &list, "a", &[]));
    put(&rt, alloc, &mut list, 3, "a");
    put(&rt, alloc, &mut list, 1, "a");
    put(&rt, alloc, &mut list, 2, "ab");
    assert!(rt; list.entries().len() == 3);
    assert!(rt; are_named(&rt, alloc, &list, "a", &[1, 3]));
    assert!(rt; are_named(&rt, alloc, &list, "ab", &[2]));
    assert!(rt; are_named(&rt, alloc, &list, "b", &[]));
    let copy = made(&rt, list.copy(alloc));
    made(&rt, list.without(alloc, id(1)));
    made(&rt, list.without(alloc, id(2)));
    made(&rt, list.without(alloc, id(4)));
    assert!(rt; list.entries().len() == 1);
    assert!(rt; are_named(&rt, alloc, &list, "a", &[3]));
    assert!(rt; are_named(&rt, alloc, &list, "ab", &[]));
    assert!(rt; copy.entries().len() == 3);
    assert!(rt; are_named(&rt, alloc, &copy, "a", &[1, 3]));
    drop(copy);
    drop(list);
}

#[test]
fn an_entry_of_another_name_replaces_the_one_with_its_id(rt: HostRuntime) {
    let alloc = rt.alloc();
    let mut list = AclList::new(alloc);
    put(&rt, alloc, &mut list, 1, "a");
    put(&rt, alloc, &mut list, 1, "b");
    assert!(rt; list.entries().len() == 1);
    assert!(rt; are_named(&rt, alloc, &list, "a", &[]));
    assert!(rt; are_named(&rt, alloc, &list, "b", &[1]));
    drop(list);
}
