//! The znodes of metadata, and their limits.
use crate::made::{are_znodes, image_of, long_body, made, path_of, put};
use kz_image::Image;
use kz_render::{bare_roots, first_excess, fits, render, render_one, whole_path};
use kz_types::{Duplicate, Rendered, Sequence};
use std::alloc::Global;
use std::process::Abort;

static ROOTS: [(&str, &str); 17] = [
    ("/brokers/topics", ""),
    ("/config/brokers", ""),
    ("/config/clients", ""),
    ("/config/ips", ""),
    ("/config/topics", ""),
    ("/config/users", ""),
    ("/kafka-acl-extended/prefixed/Cluster", ""),
    ("/kafka-acl-extended/prefixed/DelegationToken", ""),
    ("/kafka-acl-extended/prefixed/Group", ""),
    ("/kafka-acl-extended/prefixed/Topic", ""),
    ("/kafka-acl-extended/prefixed/TransactionalId", ""),
    ("/kafka-acl/Cluster", ""),
    ("/kafka-acl/DelegationToken", ""),
    ("/kafka-acl/Group", ""),
    ("/kafka-acl/Topic", ""),
    ("/kafka-acl/TransactionalId", ""),
    ("/latest_producer_id_block", ""),
];

#[test]
fn the_empty_metadata_has_the_roots(rt: HostRuntime) {
    let alloc = rt.alloc();
    let roots = made(&rt, bare_roots(alloc));
    assert!(rt; are_znodes(&roots, &ROOTS));
    let znodes = made(&rt, render(alloc, &Image::new(alloc)));
    assert!(rt; are_znodes(&znodes, &ROOTS));
}

static CONFIGS: [(&str, &str, &str); 4] = [
    ("", "c", "1"),
    ("10", "a", ""),
    ("1", "b", "x\"y\\/\u{7}"),
    ("1", "a", "\u{fc}"),
];

// The znodes of the configurations, after the root of topics.
static CONFIGURED: [(&str, &str); 5] = [
    ("/brokers/topics", ""),
    ("/config/brokers", ""),
    (
        "/config/brokers/1",
        "{\"config\":{\"a\":\"\u{fc}\",\"b\":\"x\\\"y\\\\/\\u0007\"},\"version\":1}",
    ),
    (
        "/config/brokers/10",
        "{\"config\":{\"a\":\"\"},\"version\":1}",
    ),
    (
        "/config/brokers/<default>",
        "{\"config\":{\"c\":\"1\"},\"version\":1}",
    ),
];

#[test]
fn configurations_have_their_paths_and_texts(rt: HostRuntime) {
    let alloc = rt.alloc();
    let znodes = made(&rt, render(alloc, &image_of(&rt, alloc, &CONFIGS)));
    assert!(rt; znodes.len() == 20);
    assert!(rt; are_znodes(&znodes[..5], &CONFIGURED));
}

// Whether a path is rendered with this data.
fn is_rendered(rt: &impl Abort, alloc: Global, image: &Image, path: &str, text: &str) -> bool {
    match made(rt, render_one(alloc, image, &path_of(rt, alloc, path))) {
        Some(body) => body.as_slice() == text.as_bytes(),
        None => false,
    }
}

#[test]
fn single_paths_are_rendered(rt: HostRuntime) {
    let alloc = rt.alloc();
    let image = image_of(&rt, alloc, &CONFIGS);
    for (path, text) in &CONFIGURED {
        assert!(rt; is_rendered(&rt, alloc, &image, path, text));
    }
    let absent = path_of(&rt, alloc, "/config/brokers/2");
    assert!(rt; made(&rt, render_one(alloc, &image, &absent)).is_none());
    assert!(rt; fits(alloc, &image).is_ok());
    drop(absent);
    drop(image);
}

// Puts so many znodes at the end of a list, each with a body of so many bytes.
fn put_znodes(
    rt: &impl Abort,
    alloc: Global,
    znodes: &mut Sequence<Rendered>,
    at: &str,
    count: usize,
    length: usize,
) {
    let path = path_of(rt, alloc, at);
    for _ in 0..count {
        let path = made(rt, path.copy(alloc));
        let body = long_body(rt, alloc, length);
        put(rt, znodes, Rendered { path, body });
    }
    drop(path);
}

// Whether this limit is told at this path; 0 where none is.
fn is_told(alloc: Global, znodes: &[Rendered], number: u8, path: &str) -> bool {
    match first_excess(alloc, znodes) {
        Ok(Some(excess)) => excess.number == number && excess.path.as_str() == path,
        Ok(None) => number == 0,
        Err(_) => false,
    }
}

// Lists whose last znode passes a limit: how many znodes stand before it, how long their bodies are, how long its own is;
// the limit, and the path at which it is told. That of all data together is told by a law, in `limits.rt`.
static LIMITS: [(usize, usize, usize, u8, &str); 2] = [
    (1, 1_048_575, 1_048_576, 2, "/b"),
    (200_000, 0, 0, 3, "/brokers/topics"),
];

#[test]
fn the_first_limit_that_is_passed_is_told(rt: HostRuntime) {
    let alloc = rt.alloc();
    for (count, length, last, number, path) in &LIMITS {
        let mut znodes = Sequence::new(alloc);
        put_znodes(&rt, alloc, &mut znodes, "/a", *count, *length);
        assert!(rt; is_told(alloc, znodes.as_slice(), 0, ""));
        put_znodes(&rt, alloc, &mut znodes, "/b", 1, *last);
        assert!(rt; is_told(alloc, znodes.as_slice(), *number, path));
        drop(znodes);
    }
    let path = made(&rt, whole_path(alloc));
    assert!(rt; path.as_str() == "/brokers/topics");
}
