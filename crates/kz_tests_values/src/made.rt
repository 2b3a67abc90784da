//! Values for the tests, made with ample memory: where a call fails, the test ends.
use kz_types::{Sequence, Text};
use std::alloc::Global;
use std::process::Abort;

/// What a call gave, which must not have failed.
pub fn made<T: Drop, E: Drop>(rt: &impl Abort, outcome: Result<T, E>) -> T {
    match outcome {
        Ok(value) => value,
        Err(_) => panic!(rt; "a call failed"),
    }
}

/// A text.
pub fn text_of(rt: &impl Abort, alloc: Global, text: &str) -> Text {
    made(rt, Text::from_str(alloc, text))
}

/// A list of these items.
pub fn list_of<T: Copy>(rt: &impl Abort, alloc: Global, items: &[T]) -> Sequence<T> {
    Sequence::from_vec(made(rt, items.to_vec(alloc)))
}

/// The bytes of a body.
pub fn body_of(rt: &impl Abort, alloc: Global, text: &str) -> Sequence<u8> {
    list_of(rt, alloc, text.as_bytes())
}

/// Puts an item at the end of a list.
pub fn put<T: Drop>(rt: &impl Abort, items: &mut Sequence<T>, item: T) {
    made(rt, items.push(item));
}

/// A list of one item.
pub fn one<T: Drop>(rt: &impl Abort, alloc: Global, item: T) -> Sequence<T> {
    let mut items = Sequence::new(alloc);
    put(rt, &mut items, item);
    items
}
