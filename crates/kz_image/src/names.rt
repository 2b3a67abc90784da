//! The names of topics, by rising id.
use kz_sorted::Keyed;
use kz_types::{Id, Text};

/// The name of the topic of an id.
#[derive(Drop)]
pub struct TopicName {
    pub id: Id,
    pub name: Text,
}

impl Keyed for TopicName {
    ghost key = { λ n. n.id.bytes };

    fn key(&self) -> &[u8] {
        &self.id.bytes
    }
}
