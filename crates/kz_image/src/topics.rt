//! The topics, by rising name, and their names, by rising id.
ghost use Rattle.std.specs.Prelude.{◌≡◌, true, [], None, option_map, option_and_then, IfOk, OnOk, OnErr};
ghost use Rattle.std.specs.List.{find as find_by};
ghost use Rattle.kz_types.specs.Order.{bytes_cmp};
ghost use Rattle.kz_types.specs.Ordered.{find as find_in, Rises};
ghost use Rattle.kz_spec_data.specs.Metadata.{name_of_topic, same_id, partition_at};
ghost use Rattle.kz_spec_data.specs.ImageRules.{new_row, leaves_row};
ghost use Rattle.kz_spec_data.specs.Image.{put_topic, new_topic, with_changed, put_partition, partition_changed, without_topic, topic_configured};
ghost use Rattle.kz_spec_data.specs.InOrder.{AreTopicsInOrder};
ghost use Rattle.kz_spec_data.specs.Legal.{AreApart};
ghost use Rattle.kz_image.specs.Names.{topic_if};

use crate::names::TopicName;
use crate::topic::{with_member, with_partition, with_partition_changed};
use kz_image_rules::new_row;
use kz_order::are_equal;
use kz_sorted::Blocks;
use kz_types::{
    ConfigRecord, Duplicate, Id, NoMemory, PartitionChangeRecord, PartitionRecord, Sequence, Text,
    TopicEntry, TopicRecord,
};
use std::alloc::Global;
use std::marker::Model;

/// The topics, by rising name, as contracts see them, and their names, by rising id: a look-up by an id searches these, and
/// then the topics by the name. A copy costs two pointers. There may be names of topics that aren't there, where memory ran out.
#[derive(Drop)]
pub struct Topics {
    topics: Blocks<TopicEntry>,
    names: Blocks<TopicName>,
}

impl Model for Topics {
    ghost use Rattle.std.specs.Prelude.{List};
    ghost use Rattle.kz_types.specs.declared.image.TopicEntry.{TopicEntry};
    ghost use Rattle.kz_image.specs.Names.{AreNames};

    ghost Value = { List TopicEntry };

    ghost view = { λ t. t.topics };

    ghost invariant = { λ t. AreNames t.names t.topics };
}

// The topic that a record makes.
fn topic_made(alloc: Global, change: &TopicRecord) -> Result<TopicEntry, NoMemory>
    ensures { IfOk result (λ made. made ≡ new_topic change.now) }
{
    Ok(TopicEntry {
        name: change.name.copy(alloc)?,
        id: change.topic_id,
        partitions: Sequence::new(alloc),
        pairs: Sequence::new(alloc),
    })
}

// The name of the topic that a record makes.
fn name_made(alloc: Global, change: &TopicRecord) -> Result<TopicName, NoMemory>
    ensures { IfOk result (λ made. made ≡ record { id = change.now.topic_id; name = change.now.name }) }
{
    Ok(TopicName {
        id: change.topic_id,
        name: change.name.copy(alloc)?,
    })
}

impl Topics {
    /// No topics.
    pub fn new(alloc: Global) -> Self
        ensures { result ≡ [] }
    {
        Topics {
            topics: Blocks::new(alloc),
            names: Blocks::new(alloc),
        }
    }

    /// Lends the topics, by rising name.
    pub fn entries(&self) -> &Blocks<TopicEntry>
        ensures { result.now ≡ self.now }
    {
        &self.topics
    }

    // ---- look-ups

    /// The topic of a name.
    pub fn named(&self, name: &Text) -> Option<&TopicEntry>
        ensures { option_map (λ t. t.now) result ≡ find_in bytes_cmp name_of_topic name.now self.now }
    {
        self.topics.find(name.bytes())
    }

    // The topic of a name, where it has this id.
    fn named_if(&self, name: &Text, id: Id) -> Option<&TopicEntry>
        ensures { option_map (λ t. t.now) result ≡ topic_if id (find_in bytes_cmp name_of_topic name.now self.now) }
    {
        match self.topics.find(name.bytes()) {
            Some(topic) => {
                if are_equal(&topic.id.bytes, &id.bytes) {
                    Some(topic)
                } else {
                    None
                }
            }
            None => None,
        }
    }

    /// The topic of an id.
    pub fn with_id(&self, id: Id) -> Option<&TopicEntry>
        requires { Rises bytes_cmp name_of_topic self.now }
        ensures { option_map (λ t. t.now) result ≡ find_by (λ t. same_id t.id id) self.now }
    {
        match self.names.find(&id.bytes) {
            Some(named) => self.named_if(&named.name, id),
            None => None,
        }
    }

    // ---- changes

    /// Makes a topic of a new name and a new id. At `Err` nothing has changed.
    pub fn make(&mut self, alloc: Global, change: &TopicRecord) -> Result<(), NoMemory>
        requires rising { Rises bytes_cmp name_of_topic self.old }
        requires new_name { find_in bytes_cmp name_of_topic change.now.name self.old ≡ None }
        requires new_id { find_by (λ t. same_id t.id change.now.topic_id) self.old ≡ None }
        ensures ok { OnOk result (self.new ≡ put_topic (new_topic change.now) self.old) }
        ensures err { OnErr result (self.new ≡ self.old) }
    {
        let topic = topic_made(alloc, change)?;
        let name = name_made(alloc, change)?;
        // Where memory runs out after this, the name stays. No look-up finds a topic by it.
        self.names.put(name)?;
        self.topics.put(topic)?;
        Ok(())
    }

    /// Removes the topic of an id, with its partitions and its configuration. At `Err` nothing has changed.
    pub fn remove(&mut self, alloc: Global, id: Id) -> Result<(), NoMemory>
        requires rising { Rises bytes_cmp name_of_topic self.old }
        requires apart { AreApart self.old }
        ensures ok { OnOk result (self.new ≡ without_topic id self.old) }
        ensures err { OnErr result (self.new ≡ self.old) }
    {
        let name = match self.with_id(id) {
            Some(topic) => topic.name.copy(alloc)?,
            None => return Ok(()),
        };
        self.topics.without(name.bytes())?;
        // Where memory runs out here, the name stays. No look-up finds a topic by it.
        let _done = self.names.without(&id.bytes);
        Ok(())
    }

    /// Makes a partition of a topic, where the topic is there. At `Err` nothing has changed.
    pub fn make_partition(
        &mut self,
        alloc: Global,
        epoch: i32,
        change: &PartitionRecord,
    ) -> Result<(), NoMemory>
        requires order { AreTopicsInOrder self.old }
        requires apart { AreApart self.old }
        ensures ok { OnOk result (self.new ≡ with_changed (put_partition change.now.partition_id (new_row epoch change.now)) (find_by (λ t. same_id t.id change.now.topic_id) self.old) self.old) }
        ensures err { OnErr result (self.new ≡ self.old) }
    {
        let changed = match self.with_id(change.topic_id) {
            Some(topic) => {
                let row = new_row(alloc, epoch, change)?;
                with_partition(alloc, topic, change.partition_id, row)?
            }
            None => return Ok(()),
        };
        self.topics.put(changed)?;
        Ok(())
    }

    /// Changes a partition of a topic, where the topic is there. At `Err` nothing has changed.
    pub fn change_partition(
        &mut self,
        alloc: Global,
        epoch: i32,
        change: &PartitionChangeRecord,
    ) -> Result<(), NoMemory>
        requires order { AreTopicsInOrder self.old }
        requires apart { AreApart self.old }
        requires fits { leaves_row change.now (option_and_then (λ t. partition_at change.now.partition_id t.partitions) (find_by (λ t. same_id t.id change.now.topic_id) self.old)) ≡ true }
        ensures ok { OnOk result (self.new ≡ with_changed (partition_changed epoch change.now) (find_by (λ t. same_id t.id change.now.topic_id) self.old) self.old) }
        ensures err { OnErr result (self.new ≡ self.old) }
    {
        let changed = match self.with_id(change.topic_id) {
            Some(topic) => with_partition_changed(alloc, epoch, topic, change)?,
            None => return Ok(()),
        };
        self.topics.put(changed)?;
        Ok(())
    }

    /// Sets or removes a member of a topic's configuration, where the topic is there. At `Err` nothing has changed.
    pub fn configure(&mut self, alloc: Global, change: &ConfigRecord) -> Result<(), NoMemory>
        requires order { AreTopicsInOrder self.old }
        requires apart { AreApart self.old }
        ensures ok { OnOk result (self.new ≡ with_changed (topic_configured change.now) (find_in bytes_cmp name_of_topic change.now.resource_name self.old) self.old) }
        ensures err { OnErr result (self.new ≡ self.old) }
    {
        let changed = match self.named(&change.resource_name) {
            Some(topic) => with_member(alloc, topic, change)?,
            None => return Ok(()),
        };
        self.topics.put(changed)?;
        Ok(())
    }
}

impl Duplicate for Topics {
    // The same topics in the same blocks.
    fn copy(&self, alloc: Global) -> Result<Self, NoMemory> {
        Ok(Topics {
            topics: self.topics.copy(alloc)?,
            names: self.names.copy(alloc)?,
        })
    }
}
