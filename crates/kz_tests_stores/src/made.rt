//! Values for the tests, made with ample memory: where a call fails, the test ends.
use kz_image::Image;
use kz_types::{
    ConfigRecord, Id, MetaRecord, Op, RegisterBrokerRecord, Rendered, Sequence, Text, ZPath,
};
use std::alloc::Global;
use std::process::Abort;

/// What a call gave, which must not have failed.
pub fn made<T: Drop, E: Drop>(rt: &impl Abort, outcome: Result<T, E>) -> T {
    match outcome {
        Ok(value) => value,
        Err(_) => panic!(rt; "a call failed"),
    }
}

/// Puts an item at the end of a list.
pub fn put<T: Drop>(rt: &impl Abort, items: &mut Sequence<T>, item: T) {
    made(rt, items.push(item));
}

/// A text.
pub fn text_of(rt: &impl Abort, alloc: Global, text: &str) -> Text {
    made(rt, Text::from_str(alloc, text))
}

/// A path.
pub fn path_of(rt: &impl Abort, alloc: Global, text: &str) -> ZPath {
    made(rt, ZPath::new(alloc, text.as_bytes()))
}

/// The bytes of a body.
pub fn body_of(rt: &impl Abort, alloc: Global, text: &str) -> Sequence<u8> {
    Sequence::from_vec(made(rt, text.as_bytes().to_vec(alloc)))
}

/// A body of so many bytes.
pub fn long_body(rt: &impl Abort, alloc: Global, length: usize) -> Sequence<u8> {
    Sequence::from_vec(made(rt, vec![in alloc; b'x'; length]))
}

/// The ids of controllers.
pub fn ids_of(rt: &impl Abort, alloc: Global, ids: &[i32]) -> Sequence<i32> {
    Sequence::from_vec(made(rt, ids.to_vec(alloc)))
}

/// The record of a broker that registers.
pub fn broker_record(alloc: Global, broker_id: i32, migrating: bool) -> MetaRecord {
    MetaRecord::RegisterBroker(RegisterBrokerRecord {
        broker_id,
        migrating,
        incarnation: Id { bytes: [0; 16] },
        broker_epoch: 0,
        endpoints: Sequence::new(alloc),
        features: Sequence::new(alloc),
        rack: None,
        fenced: true,
        in_shutdown: false,
    })
}

/// The record that sets a member of a broker's configuration.
pub fn config_record(
    rt: &impl Abort,
    alloc: Global,
    resource: &str,
    name: &str,
    value: &str,
) -> MetaRecord {
    MetaRecord::Config(ConfigRecord {
        resource_type: 4,
        resource_name: text_of(rt, alloc, resource),
        name: text_of(rt, alloc, name),
        value: Some(text_of(rt, alloc, value)),
    })
}

/// The metadata of these configurations: a broker, a name and its value.
pub fn image_of(rt: &impl Abort, alloc: Global, configs: &[(&str, &str, &str)]) -> Image {
    let mut records = Sequence::new(alloc);
    for (resource, name, value) in configs {
        put(
            rt,
            &mut records,
            config_record(rt, alloc, resource, name, value),
        );
    }
    let mut image = Image::new(alloc);
    made(rt, image.apply_all(1, records.as_slice()));
    image
}

/// Whether these are the paths and bodies of znodes.
pub fn are_znodes(znodes: &[Rendered], wanted: &[(&str, &str)]) -> bool {
    znodes.len() == wanted.len()
        && znodes.iter().zip(wanted).all(|(znode, (path, body))| {
            znode.path.as_str() == *path && znode.body.as_slice() == body.as_bytes()
        })
}

/// An operation of a table: a word, a path, a body, and a version, which is 0 for a create.
pub type OpText = (&'static str, &'static str, &'static str, i32);

// Whether this is the operation.
fn is_op(op: &Op, wanted: &OpText) -> bool {
    let (word, text, written, number) = wanted;
    match op {
        Op::Create { path, body, owner } => {
            *word == "create"
                && path.as_str() == *text
                && body.as_slice() == written.as_bytes()
                && owner.is_none()
        }
        Op::Set {
            path,
            body,
            version,
        } => {
            *word == "set"
                && path.as_str() == *text
                && body.as_slice() == written.as_bytes()
                && version == number
        }
        Op::Delete { path, version } => {
            *word == "delete" && path.as_str() == *text && version == number
        }
        Op::Check { path, version } => {
            *word == "check" && path.as_str() == *text && version == number
        }
    }
}

/// Whether these are the operations.
pub fn are_ops(ops: &[Op], wanted: &[OpText]) -> bool {
    ops.len() == wanted.len() && ops.iter().zip(wanted).all(|(op, wanted)| is_op(op, wanted))
}
