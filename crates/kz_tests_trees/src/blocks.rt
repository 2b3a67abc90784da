//! Each call with ample memory, on lists that have more items than a block.
use kz_sorted::{Blocks, Keyed};
use kz_types::{Duplicate, NoMemory};
use std::alloc::Global;
use std::process::Abort;

// How many items a list of the tests has: those of three parts or more. It has no factor with 7 and 11.
const COUNT: u32 = 10_007;

#[derive(Drop)]
struct Item {
    key: [u8; 4],
    value: u32,
}

impl Keyed for Item {
    ghost key = { λ i. i.key };

    fn key(&self) -> &[u8] {
        &self.key
    }
}

impl Duplicate for Item {
    fn copy(&self, _alloc: Global) -> Result<Self, NoMemory> {
        Ok(Item {
            key: self.key,
            value: self.value,
        })
    }
}

// What a call gave, which must not have failed.
fn made<T: Drop>(rt: &impl Abort, outcome: Result<T, NoMemory>) -> T {
    match outcome {
        Ok(value) => value,
        Err(NoMemory) => panic!(rt; "no memory"),
    }
}

// The key of a number. Keys rise as their numbers do.
fn key_of(number: u32) -> [u8; 4] {
    number.to_be_bytes()
}

fn put(rt: &impl Abort, list: &mut Blocks<Item>, number: u32, value: u32) {
    let key = key_of(number);
    made(rt, list.put(Item { key, value }));
}

fn take_out(rt: &impl Abort, list: &mut Blocks<Item>, number: u32) {
    made(rt, list.without(&key_of(number)));
}

// The list of the numbers from 0 on, each with the value 1, which are put in another order.
fn full_list(rt: &impl Abort, alloc: Global) -> Blocks<Item> {
    let mut list = Blocks::new(alloc);
    for number in 0..COUNT {
        put(rt, &mut list, number.wrapping_mul(7) % COUNT, 1);
    }
    list
}

fn value_of(list: &Blocks<Item>, number: u32) -> Option<u32> {
    match list.find(&key_of(number)) {
        Some(item) => Some(item.value),
        None => None,
    }
}

fn number_of(item: Option<&Item>) -> Option<u32> {
    match item {
        Some(item) => Some(u32::from_be_bytes(item.key)),
        None => None,
    }
}

// Whether these are the items of the numbers from this one up to another, and no others.
fn are_from_to(items: &[Item], from: u32, to: u32) -> bool {
    let mut next = from;
    for item in items {
        if number_of(Some(item)) != Some(next) {
            return false;
        }
        next = next.wrapping_add(1);
    }
    next == to
}

#[test]
fn items_are_put_found_and_taken_out(rt: HostRuntime) {
    let mut list = full_list(&rt, rt.alloc());
    assert!(rt; list.len() == 10_007);
    assert!(rt; value_of(&list, 0) == Some(1));
    assert!(rt; value_of(&list, 10_006) == Some(1));
    assert!(rt; value_of(&list, 10_007).is_none());
    put(&rt, &mut list, 700, 2);
    take_out(&rt, &mut list, 10_007);
    assert!(rt; list.len() == 10_007);
    assert!(rt; value_of(&list, 700) == Some(2));
    for number in 0..COUNT {
        assert!(rt; !list.is_empty());
        take_out(&rt, &mut list, number.wrapping_mul(11) % COUNT);
    }
    assert!(rt; list.is_empty());
    assert!(rt; list.first().is_none());
    assert!(rt; list.last().is_none());
}

#[test]
fn a_change_of_a_copy_leaves_the_list(rt: HostRuntime) {
    let list = full_list(&rt, rt.alloc());
    let mut copy = made(&rt, list.copy(rt.alloc()));
    put(&rt, &mut copy, 3, 2);
    put(&rt, &mut copy, 20_000, 2);
    take_out(&rt, &mut copy, 900);
    assert!(rt; list.len() == 10_007);
    assert!(rt; value_of(&list, 3) == Some(1));
    assert!(rt; value_of(&list, 900) == Some(1));
    assert!(rt; value_of(&list, 20_000).is_none());
    drop(list);
    assert!(rt; copy.len() == 10_007);
    assert!(rt; value_of(&copy, 3) == Some(2));
    assert!(rt; value_of(&copy, 4) == Some(1));
    assert!(rt; value_of(&copy, 900).is_none());
    assert!(rt; value_of(&copy, 20_000) == Some(2));
}

// A number that may be given, and the number of the first item after it.
static NEXT: [(Option<u32>, Option<u32>); 6] = [
    (None, Some(0)),
    (Some(0), Some(1)),
    (Some(511), Some(512)),
    (Some(4799), Some(4800)),
    (Some(10_006), None),
    (Some(20_000), None),
];

// The number of the first item after a number, or of all items.
fn next_number(list: &Blocks<Item>, after: Option<u32>) -> Option<u32> {
    match after {
        Some(number) => {
            let key = key_of(number);
            number_of(list.next_after(Some(key.as_slice())))
        }
        None => number_of(list.next_after(None)),
    }
}

// The number of the item at a place of a page.
fn number_at(page: &[&Item], place: usize) -> Option<u32> {
    match page.get(place) {
        Some(item) => number_of(Some(*item)),
        None => None,
    }
}

#[test]
fn items_come_in_order(rt: HostRuntime) {
    let list = full_list(&rt, rt.alloc());
    let copies = made(&rt, list.copies(rt.alloc()));
    assert!(rt; are_from_to(&copies, 0, 10_007));
    assert!(rt; number_of(list.first()) == Some(0));
    assert!(rt; number_of(list.last()) == Some(10_006));
    for (after, next) in &NEXT {
        assert!(rt; next_number(&list, *after) == *next);
    }
    let mut next = 0u32;
    for item in list.items() {
        assert!(rt; number_of(Some(item)) == Some(next));
        next = next.wrapping_add(1);
    }
    assert!(rt; next == 10_007);
    let key = key_of(699);
    let mut next = 700u32;
    for item in list.items_after(Some(key.as_slice())) {
        assert!(rt; number_of(Some(item)) == Some(next));
        next = next.wrapping_add(1);
    }
    assert!(rt; next == 10_007);
    let key = key_of(511);
    let page = made(&rt, list.page(rt.alloc(), Some(key.as_slice()), 600));
    assert!(rt; page.len() == 600);
    assert!(rt; number_at(&page, 0) == Some(512));
    assert!(rt; number_at(&page, 599) == Some(1111));
}
