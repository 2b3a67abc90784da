//! Keys with paths and without, on tables of literals.
use kz_types::{EntityKey, Text};
use std::alloc::Global;
use std::test::Fail;

/// A copy of a text.
fn text(alloc: Global, name: &str) -> Result<Text, &'static str> {
    Text::from_str(alloc, name).ok().ok_or("memory")
}

/// The key of a user.
fn user(alloc: Global, name: &str) -> Result<EntityKey, &'static str> {
    let name = text(alloc, name)?;
    Ok(EntityKey::User { user: Some(name) })
}

/// Whether a legal key has a path.
fn has_path(key: &EntityKey) -> Option<bool> {
    key.is_legal().then(|| kz_paths::has_path(key))
}

// A name may make a path too long, and may be a part that no path has.
#[test]
fn users_with_paths(rt: HostRuntime) -> Result<(), Fail> {
    let stars = "*".repeat(rt.alloc(), 336)?;
    let longest = format!(in rt.alloc(); "{stars}ab")?;
    let longer = format!(in rt.alloc(); "{stars}abc")?;
    let users: [(&str, Option<bool>); 6] = [
        ("", None),
        (".", Some(false)),
        ("..", Some(false)),
        ("...", Some(true)),
        (&longest, Some(true)),
        (&longer, Some(false)),
    ];
    for (name, wanted) in users {
        assert_eq!(rt; has_path(&user(rt.alloc(), name)?), wanted);
    }
    Ok(())
}

/// A key of each form other than a user's, by numbers below 9.
fn key(alloc: Global, form: u8) -> Result<EntityKey, &'static str> {
    let name = text(alloc, "n")?;
    Ok(match form {
        0 => EntityKey::Topic { name },
        1 => EntityKey::Partition {
            topic: name,
            number: 2147483647,
        },
        2 => EntityKey::TopicConfig { name },
        3 => EntityKey::BrokerConfig { broker: Some(10) },
        4 => EntityKey::Client { client: None },
        5 => EntityKey::UserClient {
            user: None,
            client: Some(name),
        },
        6 => EntityKey::Ip {
            address: Some(name),
        },
        7 => EntityKey::Acl {
            pattern: 4,
            kind: 5,
            name,
        },
        _ => EntityKey::Producer,
    })
}

#[test]
fn keys_with_paths(rt: HostRuntime) -> Result<(), Fail> {
    for form in 0..9 {
        assert_eq!(rt; has_path(&key(rt.alloc(), form)?), Some(true));
    }
    Ok(())
}
