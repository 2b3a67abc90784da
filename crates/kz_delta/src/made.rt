//! The keys of the topics that a record makes or removes.
ghost use Rattle.std.specs.Prelude.{◌≡◌, ◌++◌, OnOk};
ghost use Rattle.std.specs.List.{flat_map};
ghost use Rattle.kz_spec_data.specs.Touched.{keys_of_topic, topics_made_or_removed};

use crate::topics::push_keys_of_topic;
use kz_image::Image;
use kz_types::{EntityKey, MetaRecord, NoMemory};
use std::alloc::Global;

/// Adds the keys of the topics that a record makes or removes.
pub(crate) fn push_keys_of_topics(
    alloc: Global,
    keys: &mut Vec<EntityKey>,
    old: &Image,
    new: &Image,
    change: &MetaRecord,
) -> Result<(), NoMemory>
    ensures { OnOk result (keys.new.items ≡ keys.old.items ++ flat_map (keys_of_topic old.now new.now) (topics_made_or_removed old.now change.now)) }
{
    match change {
        MetaRecord::Topic(made) => push_keys_of_topic(alloc, keys, old, new, &made.name),
        MetaRecord::RemoveTopic { topic_id } => match old.topic_name(*topic_id) {
            Some(name) => push_keys_of_topic(alloc, keys, old, new, name),
            None => Ok(()),
        },
        _ => Ok(()),
    }
}
