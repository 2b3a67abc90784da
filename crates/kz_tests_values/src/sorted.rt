//! Lists in the order of their keys.
ghost use Rattle.kz_types.specs.Order.{bytes_cmp};
ghost use Rattle.kz_types.specs.Ordered.{Rises};

use crate::copies::{configuration, pair, rendered, row};
use crate::made::text_of;
use kz_sorted::{Keyed, find, put, spot, without};
use kz_types::{NoMemory, Pair};
use std::alloc::Global;
use std::process::Abort;

// Puts an item into a list that rises, which still rises.
#[tactic(auto, using(crate::proofs::Rising::rises_put))]
fn put_rising<T: Keyed + Drop>(rt: &impl Abort, items: &mut Vec<T>, item: T)
    requires { Rises bytes_cmp T.key items.old.items }
    ensures { Rises bytes_cmp T.key items.new.items }
{
    match put(items, item) {
        Ok(()) => (),
        Err(NoMemory) => panic!(rt; "no memory"),
    }
}

// Takes an item out of a list.
fn taken_out<T: Keyed + Drop>(mut items: Vec<T>, key: &[u8]) -> Vec<T>
    requires { Rises bytes_cmp T.key items.items }
{
    without(&mut items, key);
    items
}

fn named(rt: &impl Abort, alloc: Global, name: &str, value: &str) -> Pair {
    Pair {
        name: text_of(rt, alloc, name),
        value: text_of(rt, alloc, value),
    }
}

// Pairs by rising name.
fn pairs(rt: &impl Abort, alloc: Global) -> Vec<Pair>
    ensures { Rises bytes_cmp (λ (p : Pair). p.name) result.items }
{
    let mut items = Vec::new(alloc);
    put_rising(rt, &mut items, named(rt, alloc, "b", "1"));
    put_rising(rt, &mut items, named(rt, alloc, "\u{fc}", "2"));
    put_rising(rt, &mut items, named(rt, alloc, "B", "3"));
    put_rising(rt, &mut items, named(rt, alloc, "b10", "4"));
    put_rising(rt, &mut items, named(rt, alloc, "b2", "5"));
    put_rising(rt, &mut items, named(rt, alloc, "", "6"));
    put_rising(rt, &mut items, named(rt, alloc, "b10", "7"));
    items
}

// Whether the pairs have these values.
fn have_values(pairs: &[Pair], values: &[&str]) -> bool {
    pairs.len() == values.len()
        && pairs
            .iter()
            .zip(values)
            .all(|(pair, value)| pair.value.as_str() == *value)
}

#[test]
fn items_are_put_by_the_bytes_of_their_keys(rt: HostRuntime) {
    let items = pairs(&rt, rt.alloc());
    assert!(rt; have_values(&items, &["6", "3", "1", "7", "5", "2"]));
}

#[test]
fn items_are_taken_out_by_their_keys(rt: HostRuntime) {
    let items = taken_out(pairs(&rt, rt.alloc()), b"b");
    assert!(rt; have_values(&items, &["6", "3", "7", "5", "2"]));
    let items = taken_out(pairs(&rt, rt.alloc()), b"b1");
    assert!(rt; items.len() == 6);
}

static PLACES: [(&[u8], Result<usize, usize>); 6] = [
    (b"", Ok(0)),
    (b"A", Err(1)),
    (b"b", Ok(2)),
    (b"b1", Err(3)),
    (b"\xc3\xbc", Ok(5)),
    (b"\xc3\xbd", Err(6)),
];

#[test]
fn items_are_found_by_their_keys(rt: HostRuntime) {
    let items = pairs(&rt, rt.alloc());
    for (key, place) in &PLACES {
        assert!(rt; spot(&items, key) == *place);
        assert!(rt; find(&items, key).is_some() == place.is_ok());
    }
}

// Whether an item has this key.
fn has_key<T: Keyed + Drop>(item: T, key: &[u8]) -> bool {
    item.key() == key
}

#[test]
fn znodes_and_configurations_have_keys(rt: HostRuntime) {
    let alloc = rt.alloc();
    assert!(rt; has_key(row(&rt, alloc), b"/a"));
    assert!(rt; has_key(rendered(&rt, alloc), b"/a"));
    assert!(rt; has_key(configuration(&rt, alloc), b"1"));
    assert!(rt; has_key(pair(&rt, alloc), b"a"));
}
