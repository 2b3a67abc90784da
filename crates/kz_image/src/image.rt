//! The metadata.
ghost use Rattle.std.specs.Prelude.{ℕ, ◌≡◌, ◌∷◌, [], ◌&&◌, true, false, All, None, Some, pos, int_le, option_map, bytes_eq, map, IfOk, OnOk, OnErr, IfErr, take, if◌then◌else◌};
ghost use Rattle.std.specs.Ordering.{int_cmp, int_eq};
ghost use Rattle.std.specs.List.{list_any, filter};
ghost use Rattle.kz_types.specs.Order.{bytes_cmp};
ghost use Rattle.kz_types.specs.Ordered.{put as put_in, without as without_in, Rises};
ghost use Rattle.kz_types.specs.declared.codes.TheConstants.{NO_MIGRATION, POST_MIGRATION};
ghost use Rattle.kz_types.specs.declared.record.MetaRecord.TheVariants as meta;
ghost use Rattle.kz_spec_data.specs.Metadata.{empty_image, topic_named, id_of_acl, id_of_broker, topic_id_of, topic_name_of, partition_of, configs_of, quotas_of, scram_of, acl_of};
ghost use Rattle.kz_spec_data.specs.ImageRules.{broken_rule, quota_key, is_broker_name, is_empty};
ghost use Rattle.kz_spec_data.specs.Image.{acl_row, configurations_after, topic_configured, with_changed, put_topic, new_topic, without_topic, scram_set, scram_removed, quota_changed, effect, image_with, all_applied, first_bad};
ghost use Rattle.kz_spec_data.specs.InOrder.{AreTopicsInOrder, AreInOrder, AreQuotasInOrder, AreUsersInOrder};
ghost use Rattle.kz_spec_data.specs.Legal.{AreTopics, IsConfiguration, IsQuotaEntry, IsScramEntry, IsAcl, IsBroker, IsNext};
ghost use Rattle.kz_image.specs.Faults.{IsFirstBad};
ghost use Rattle.kz_image.specs.QuotaPaths.{IsEntityRead};
ghost use Rattle.kz_laws_znodes.specs.Writable.{IsHeld};

use crate::rules::{broken, refused};
use crate::{
    QuotaList, Topics, configure, is_migrating, partition_at, register, remove_scram, scram_at,
    set_scram,
};
use kz_acls::AclList;
use kz_laws_znodes::{
    held_config_is_writable, held_credential_is_writable, held_entry_is_writable,
    held_name_is_text, held_partition_change_is_writable, held_partition_is_writable,
    held_quota_is_writable, held_topic_is_writable,
};
use kz_sorted::Blocks;
use kz_types::{
    AccessControlEntryRecord, AclEntry, AclRow, ClientQuotaRecord, ConfigRecord, Configuration,
    Duplicate, EntityKey, Id, ImageFault, MetaRecord, NO_MIGRATION, NoMemory, POST_MIGRATION, Pair,
    PartitionChangeRecord, PartitionRecord, PartitionRow, ProducerIdsRecord, QuotaEntry, QuotaRow,
    RegisterBrokerRecord, ScramEntry, ScramRow, Sequence, Text, TopicEntry, TopicRecord,
    UserScramCredentialRecord,
};
use std::alloc::Global;
use std::marker::Model;

/// The members of a configuration, by rising name.
pub type Pairs = Sequence<Pair>;

/// The quotas of an entity, by rising key.
pub type Quotas = Sequence<QuotaRow>;

/// The registered brokers, by rising id.
pub type Brokers = Sequence<RegisterBrokerRecord>;

/// The metadata of the cluster: topics, configurations of brokers, quotas, credentials, access control entries, the
/// registered brokers, the next producer id, and the state of the migration. A copy costs a pointer for each list of entries, and
/// the registrations of the brokers.
pub struct Image {
    alloc: Global,
    topics: Topics,
    broker_configs: Blocks<Configuration>,
    quotas: QuotaList,
    users: Blocks<ScramEntry>,
    acls: AclList,
    brokers: Brokers,
    next_producer: Option<i64>,
    state: i8,
}

// Written out, so that it is proved here once: a derived one is proved in each crate that holds metadata.
impl Drop for Image {
    fn drop(self) {
        let Image {
            alloc: _,
            topics: _topics,
            broker_configs: _broker_configs,
            quotas: _quotas,
            users: _users,
            acls: _acls,
            brokers: _brokers,
            next_producer: _,
            state: _,
        } = self;
    }
}

impl Model for Image {
    ghost use Rattle.kz_spec_data.specs.Metadata.{Image as ImageValue};
    ghost use Rattle.kz_laws_znodes.specs.Writable.{IsHeld};

    ghost Value = { ImageValue };

    ghost view = { λ i. record {
      topics = i.topics;
      broker_configs = i.broker_configs;
      quotas = i.quotas;
      users = i.users;
      acls = i.acls;
      brokers = i.brokers;
      next_producer = i.next_producer;
      state = i.state;
    } };

    ghost invariant = { λ i. IsHeld (record {
      topics = i.topics;
      broker_configs = i.broker_configs;
      quotas = i.quotas;
      users = i.users;
      acls = i.acls;
      brokers = i.brokers;
      next_producer = i.next_producer;
      state = i.state;
    }) };
}

// ---- access control entries

// The entry that a record makes.
fn acl_entry(alloc: Global, change: &AccessControlEntryRecord) -> Result<AclEntry, NoMemory>
    ensures { IfOk result (λ made. made ≡ record { id = change.now.id; row = acl_row change.now }) }
{
    Ok(AclEntry {
        id: change.id,
        row: AclRow {
            kind: change.resource_type,
            pattern: change.pattern_type,
            name: change.resource_name.copy(alloc)?,
            principal: change.principal.copy(alloc)?,
            host: change.host.copy(alloc)?,
            operation: change.operation,
            permission: change.permission,
        },
    })
}

impl Image {
    /// Nothing, and no migration.
    pub fn new(alloc: Global) -> Self
        ensures { result ≡ empty_image }
    {
        Image {
            alloc,
            topics: Topics::new(alloc),
            broker_configs: Blocks::new(alloc),
            quotas: QuotaList::new(alloc),
            users: Blocks::new(alloc),
            acls: AclList::new(alloc),
            brokers: Sequence::new(alloc),
            next_producer: None,
            state: NO_MIGRATION,
        }
    }

    /// Metadata that a program holds is in order, and its values are in the ranges of their types: no law of it asks for that. It does
    /// nothing.
    pub fn is_held(&self)
        ensures { IsHeld self.now }
    {
        let _state = self.state;
    }

    // ---- look-ups

    /// The id of the topic of a name.
    pub fn topic(&self, name: &Text) -> Option<Id>
        ensures { result ≡ topic_id_of name.now self.now }
    {
        match self.topics.named(name) {
            Some(topic) => Some(topic.id),
            None => None,
        }
    }

    /// The name of the topic of an id.
    pub fn topic_name(&self, id: Id) -> Option<&Text>
        ensures { option_map (λ name. name.now) result ≡ topic_name_of id self.now }
    {
        match self.topics.with_id(id) {
            Some(topic) => Some(&topic.name),
            None => None,
        }
    }

    /// A partition of the topic of an id.
    pub fn partition(&self, id: Id, number: i32) -> Option<&PartitionRow>
        ensures { option_map (λ row. row.now) result ≡ partition_of id number self.now }
    {
        match self.topics.with_id(id) {
            Some(topic) => partition_at(topic.partitions.as_slice(), number),
            None => None,
        }
    }

    /// The configuration of a resource, where it has one. `kind` is 2 for a topic and 4 for a broker, where the empty name
    /// stands for all brokers.
    pub fn configs(&self, kind: i8, name: &Text) -> Option<&Pairs>
        ensures { option_map (λ pairs. pairs.now) result ≡ configs_of kind name.now self.now }
    {
        match kind {
            2 => self.topic_configs(name),
            4 => self.configs_of_broker(name),
            _ => None,
        }
    }

    // The configuration of a topic, where it has one.
    fn topic_configs(&self, name: &Text) -> Option<&Pairs>
        ensures { option_map (λ pairs. pairs.now) result ≡ configs_of (pos 2) name.now self.now }
    {
        let topic = self.topics.named(name)?;
        if topic.pairs.len() == 0 {
            return None;
        }
        Some(&topic.pairs)
    }

    // The configuration of a broker, where it has one.
    fn configs_of_broker(&self, name: &Text) -> Option<&Pairs>
        ensures { option_map (λ pairs. pairs.now) result ≡ configs_of (pos 4) name.now self.now }
    {
        let config = self.broker_configs.find(name.bytes())?;
        if config.pairs.len() == 0 {
            return None;
        }
        Some(&config.pairs)
    }

    /// The quotas of an entity, where it has any.
    pub fn quotas(&self, key: &EntityKey) -> Option<&Quotas>
        ensures { option_map (λ quotas. quotas.now) result ≡ quotas_of key.now self.now }
    {
        self.quotas.of(key)
    }

    /// The credential of a user by a mechanism: 1 is SCRAM-SHA-256, 2 is SCRAM-SHA-512.
    pub fn scram(&self, name: &Text, mechanism: i8) -> Option<&ScramRow>
        ensures { option_map (λ row. row.now) result ≡ scram_of name.now mechanism self.now }
    {
        match self.users.find(name.bytes()) {
            Some(user) => scram_at(user.scrams.as_slice(), mechanism),
            None => None,
        }
    }

    /// The access control entry of an id.
    pub fn acl(&self, id: Id) -> Option<&AclRow>
        ensures { option_map (λ row. row.now) result ≡ acl_of id self.now }
    {
        match self.acls.entries().find(&id.bytes) {
            Some(entry) => Some(&entry.row),
            None => None,
        }
    }

    /// Lends the registered brokers, by rising id.
    pub fn brokers(&self) -> &Brokers
        ensures brokers { result.now ≡ self.now.brokers }
        ensures rising { Rises int_cmp id_of_broker self.now.brokers }
        ensures legal { All IsBroker self.now.brokers }
    {
        &self.brokers
    }

    /// The first producer id that no broker has taken, where one has taken a block.
    pub fn next_producer(&self) -> Option<i64>
        ensures next { result ≡ self.now.next_producer }
        ensures legal { IsNext self.now.next_producer }
    {
        self.next_producer
    }

    /// The state of the migration: [`NO_MIGRATION`](kz_types::NO_MIGRATION), or one of those up to
    /// [`POST_MIGRATION`](kz_types::POST_MIGRATION).
    pub fn state(&self) -> i8
        ensures state { result ≡ self.now.state }
        ensures legal { int_le NO_MIGRATION self.now.state && int_le self.now.state POST_MIGRATION ≡ true }
    {
        self.state
    }

    /// Whether a broker is registered as one that is ready to migrate.
    pub fn is_migrating(&self, broker: i32) -> bool
        ensures { result ≡ list_any (λ b. int_eq b.broker_id broker && b.migrating) self.now.brokers }
    {
        is_migrating(self.brokers.as_slice(), broker)
    }

    // ---- lists

    /// Lends the topics, by rising name.
    pub fn topics(&self) -> &Blocks<TopicEntry>
        ensures topics { result.now ≡ self.now.topics }
        ensures in_order { AreTopicsInOrder self.now.topics }
        ensures legal { AreTopics self.now.topics }
    {
        self.topics.entries()
    }

    /// Lends the configurations of brokers, by rising name, where the empty name stands for all brokers. None of them is
    /// empty.
    pub fn broker_configs(&self) -> &Blocks<Configuration>
        ensures configs { result.now ≡ self.now.broker_configs }
        ensures in_order { AreInOrder self.now.broker_configs }
        ensures legal { All IsConfiguration self.now.broker_configs }
    {
        &self.broker_configs
    }

    /// Lends the quotas, by the rising path of their entity's znode. No entity has none, and each path is read as that of an
    /// entity.
    pub fn quota_entries(&self) -> &Blocks<QuotaEntry>
        ensures quotas { result.now ≡ self.now.quotas }
        ensures in_order { AreQuotasInOrder self.now.quotas }
        ensures legal { All IsQuotaEntry self.now.quotas }
        ensures read { All IsEntityRead self.now.quotas }
    {
        self.quotas.entries()
    }

    /// Lends the credentials of users, by rising name. No user has none.
    pub fn users(&self) -> &Blocks<ScramEntry>
        ensures users { result.now ≡ self.now.users }
        ensures in_order { AreUsersInOrder self.now.users }
        ensures legal { All IsScramEntry self.now.users }
    {
        &self.users
    }

    /// Lends the access control entries, by rising id.
    pub fn acls(&self) -> &Blocks<AclEntry>
        ensures acls { result.now ≡ self.now.acls }
        ensures rising { Rises bytes_cmp id_of_acl self.now.acls }
        ensures legal { All IsAcl self.now.acls }
    {
        self.acls.entries()
    }

    /// The access control entries of the resources of a name, by rising id. It looks at no other entry. Memory for the references
    /// is taken from this allocator; at `Err` it ran out.
    pub fn acls_named(&self, alloc: Global, name: &Text) -> Result<Vec<&AclEntry>, NoMemory>
        ensures { IfOk result (λ found. map (λ a. a.now) found.items ≡ filter (λ a. bytes_eq a.row.name name.now) self.now.acls) }
    {
        self.acls.named(alloc, name.bytes())
    }

    // ---- changes

    fn register_broker(&mut self, change: &RegisterBrokerRecord) -> Result<(), NoMemory>
        requires { broken_rule self.old (meta.RegisterBroker change.now) ≡ None }
        ensures ok { OnOk result (self.new ≡ record self.old { brokers = put_in int_cmp id_of_broker change.now self.old.brokers }) }
        ensures err { OnErr result (self.new ≡ self.old) }
    {
        register(self.alloc, &mut self.brokers, change)?;
        Ok(())
    }

    fn make_topic(&mut self, change: &TopicRecord) -> Result<(), NoMemory>
        requires { broken_rule self.old (meta.Topic change.now) ≡ None }
        ensures ok { OnOk result (self.new ≡ record self.old { topics = put_topic (new_topic change.now) self.old.topics }) }
        ensures err { OnErr result (self.new ≡ self.old) }
    {
        held_topic_is_writable(change);
        self.topics.make(self.alloc, change)?;
        Ok(())
    }

    fn make_partition(&mut self, epoch: i32, change: &PartitionRecord) -> Result<(), NoMemory>
        requires { broken_rule self.old (meta.Partition change.now) ≡ None }
        ensures ok { OnOk result (self.new ≡ effect epoch (meta.Partition change.now) self.old) }
        ensures err { OnErr result (self.new ≡ self.old) }
    {
        held_partition_is_writable(change);
        self.topics.make_partition(self.alloc, epoch, change)?;
        Ok(())
    }

    fn configure_topic(&mut self, change: &ConfigRecord) -> Result<(), NoMemory>
        requires { is_empty change.now.name ≡ false }
        ensures ok { OnOk result (self.new ≡ record self.old { topics = with_changed (topic_configured change.now) (topic_named change.now.resource_name self.old) self.old.topics }) }
        ensures err { OnErr result (self.new ≡ self.old) }
    {
        held_config_is_writable(change);
        self.topics.configure(self.alloc, change)?;
        Ok(())
    }

    fn configure_broker(&mut self, change: &ConfigRecord) -> Result<(), NoMemory>
        requires resource { is_broker_name change.now.resource_name ≡ true }
        requires member { is_empty change.now.name ≡ false }
        ensures ok { OnOk result (self.new ≡ record self.old { broker_configs = configurations_after change.now self.old.broker_configs }) }
        ensures err { OnErr result (self.new ≡ self.old) }
    {
        held_config_is_writable(change);
        configure(self.alloc, &mut self.broker_configs, change)?;
        Ok(())
    }

    fn configure(&mut self, change: &ConfigRecord) -> Result<(), NoMemory>
        requires { broken_rule self.old (meta.Config change.now) ≡ None }
        ensures ok { OnOk result (self.new ≡ (if int_eq change.now.resource_type (pos 2) then record self.old { topics = with_changed (topic_configured change.now) (topic_named change.now.resource_name self.old) self.old.topics } else record self.old { broker_configs = configurations_after change.now self.old.broker_configs })) }
        ensures err { OnErr result (self.new ≡ self.old) }
    {
        if change.resource_type == 2 {
            self.configure_topic(change)
        } else {
            self.configure_broker(change)
        }
    }

    fn change_partition(
        &mut self,
        epoch: i32,
        change: &PartitionChangeRecord,
    ) -> Result<(), NoMemory>
        requires { broken_rule self.old (meta.PartitionChange change.now) ≡ None }
        ensures ok { OnOk result (self.new ≡ effect epoch (meta.PartitionChange change.now) self.old) }
        ensures err { OnErr result (self.new ≡ self.old) }
    {
        held_partition_change_is_writable(change);
        self.topics.change_partition(self.alloc, epoch, change)?;
        Ok(())
    }

    fn remove_topic(&mut self, topic_id: Id) -> Result<(), NoMemory>
        ensures ok { OnOk result (self.new ≡ record self.old { topics = without_topic topic_id self.old.topics }) }
        ensures err { OnErr result (self.new ≡ self.old) }
    {
        self.topics.remove(self.alloc, topic_id)?;
        Ok(())
    }

    fn set_scram(&mut self, change: &UserScramCredentialRecord) -> Result<(), NoMemory>
        requires { broken_rule self.old (meta.UserScramCredential change.now) ≡ None }
        ensures ok { OnOk result (self.new ≡ record self.old { users = scram_set change.now self.old.users }) }
        ensures err { OnErr result (self.new ≡ self.old) }
    {
        held_credential_is_writable(change);
        set_scram(self.alloc, &mut self.users, change)?;
        Ok(())
    }

    fn remove_scram(&mut self, name: &Text, mechanism: i8) -> Result<(), NoMemory>
        ensures ok { OnOk result (self.new ≡ record self.old { users = scram_removed name.now mechanism self.old.users }) }
        ensures err { OnErr result (self.new ≡ self.old) }
    {
        held_name_is_text(name);
        remove_scram(self.alloc, &mut self.users, name, mechanism)?;
        Ok(())
    }

    fn change_quota(&mut self, change: &ClientQuotaRecord) -> Result<(), NoMemory>
        requires { broken_rule self.old (meta.ClientQuota change.now) ≡ None }
        ensures ok { OnOk result (self.new ≡ record self.old { quotas = quota_changed change.now (quota_key change.now.entity) self.old.quotas }) }
        ensures err { OnErr result (self.new ≡ self.old) }
    {
        held_quota_is_writable(change);
        self.quotas.change(self.alloc, change)?;
        Ok(())
    }

    fn make_acl(&mut self, change: &AccessControlEntryRecord) -> Result<(), NoMemory>
        requires { broken_rule self.old (meta.AccessControlEntry change.now) ≡ None }
        ensures ok { OnOk result (self.new ≡ record self.old { acls = put_in bytes_cmp id_of_acl (record { id = change.now.id; row = acl_row change.now }) self.old.acls }) }
        ensures err { OnErr result (self.new ≡ self.old) }
    {
        held_entry_is_writable(change);
        let entry = acl_entry(self.alloc, change)?;
        self.acls.put(self.alloc, entry)?;
        Ok(())
    }

    fn remove_acl(&mut self, id: Id) -> Result<(), NoMemory>
        ensures ok { OnOk result (self.new ≡ record self.old { acls = without_in bytes_cmp id_of_acl id.bytes self.old.acls }) }
        ensures err { OnErr result (self.new ≡ self.old) }
    {
        self.acls.without(self.alloc, id)?;
        Ok(())
    }

    fn set_next_producer(&mut self, change: &ProducerIdsRecord)
        requires { broken_rule self.old (meta.ProducerIds change.now) ≡ None }
        ensures { self.new ≡ record self.old { next_producer = Some change.now.next } }
    {
        self.next_producer = Some(change.next);
    }

    fn set_state(&mut self, state: i8)
        ensures { self.new ≡ (if int_le NO_MIGRATION state && int_le state POST_MIGRATION then record self.old { state = state } else self.old) }
    {
        if NO_MIGRATION <= state && state <= POST_MIGRATION {
            self.state = state;
        }
    }

    // Takes in a record that breaks no rule.
    fn take_in(&mut self, epoch: i32, item: &MetaRecord) -> Result<(), NoMemory>
        requires { broken_rule self.old item.now ≡ None }
        ensures ok { OnOk result (self.new ≡ effect epoch item.now self.old) }
        ensures err { OnErr result (self.new ≡ self.old) }
    {
        match item {
            MetaRecord::RegisterBroker(change) => self.register_broker(change),
            MetaRecord::Topic(change) => self.make_topic(change),
            MetaRecord::Partition(change) => self.make_partition(epoch, change),
            MetaRecord::Config(change) => self.configure(change),
            MetaRecord::PartitionChange(change) => self.change_partition(epoch, change),
            MetaRecord::RemoveTopic { topic_id } => self.remove_topic(*topic_id),
            MetaRecord::UserScramCredential(change) => self.set_scram(change),
            MetaRecord::ClientQuota(change) => self.change_quota(change),
            MetaRecord::ProducerIds(change) => {
                self.set_next_producer(change);
                Ok(())
            }
            MetaRecord::AccessControlEntry(change) => self.make_acl(change),
            MetaRecord::RemoveAccessControlEntry { id } => self.remove_acl(*id),
            MetaRecord::ZkMigrationState { state } => {
                self.set_state(*state);
                Ok(())
            }
            MetaRecord::RemoveUserScramCredential { name, mechanism } => {
                self.remove_scram(name, *mechanism)
            }
            MetaRecord::NoOp
            | MetaRecord::BeginTransaction { name: _ }
            | MetaRecord::EndTransaction
            | MetaRecord::AbortTransaction { reason: _ } => Ok(()),
        }
    }

    /// Takes in a record of a batch of this epoch. One that breaks a rule changes nothing. At `Err` nothing has changed.
    pub fn apply(&mut self, epoch: i32, item: &MetaRecord) -> Result<(), NoMemory>
        ensures ok { OnOk result (self.new ≡ image_with epoch item.now self.old) }
        ensures err { OnErr result (self.new ≡ self.old) }
    {
        match broken(self, item) {
            Some(_) => Ok(()),
            None => self.take_in(epoch, item),
        }
    }

    /// Takes in the records of a batch of this epoch, one after another. At `Err` the first few were taken in.
    pub fn apply_all(&mut self, epoch: i32, items: &[MetaRecord]) -> Result<(), NoMemory>
        ensures ok { OnOk result (self.new ≡ all_applied epoch items.now self.old) }
        ensures err { OnErr result ((n : ℕ) × (self.new ≡ all_applied epoch (take n items.now) self.old)) }
    {
        for item in items {
            self.apply(epoch, item)?;
        }
        Ok(())
    }
}

impl Duplicate for Image {
    fn copy(&self, alloc: Global) -> Result<Self, NoMemory> {
        Ok(Image {
            alloc,
            topics: self.topics.copy(alloc)?,
            broker_configs: self.broker_configs.copy(alloc)?,
            quotas: self.quotas.copy(alloc)?,
            users: self.users.copy(alloc)?,
            acls: self.acls.copy(alloc)?,
            brokers: self.brokers.copy(alloc)?,
            next_producer: self.next_producer,
            state: self.state,
        })
    }
}

// Whether a controller may be asked for one record alone.
fn valid_alone(image: &Image, item: &MetaRecord) -> Result<(), ImageFault>
    ensures ok { OnOk result (first_bad 0 (item.now ∷ []) image.now ≡ None) }
    ensures err { IfErr result (IsFirstBad (first_bad 0 (item.now ∷ []) image.now)) }
{
    match refused(image, item) {
        Some(why) => Err(ImageFault::BadRecord { index: 0, why }),
        None => Ok(()),
    }
}

/// Whether a controller may be asked for these records, each judged on the metadata that those before it leave. Nothing
/// changes. A record alone is judged without a copy.
///
/// `BadRecord`: the first record that breaks a rule, and the first rule that it breaks. `NoMemory`: memory ran out.
pub fn valid(alloc: Global, image: &Image, items: &[MetaRecord]) -> Result<(), ImageFault>
    ensures ok { OnOk result (first_bad 0 items.now image.now ≡ None) }
    ensures err { IfErr result (IsFirstBad (first_bad 0 items.now image.now)) }
{
    if items.len() == 1 {
        return valid_alone(image, &items[0]);
    }
    let Ok(mut after) = image.copy(alloc) else {
        return Err(ImageFault::NoMemory);
    };
    for index in 0..items.len() {
        if let Some(why) = refused(&after, &items[index]) {
            return Err(ImageFault::BadRecord { index, why });
        }
        let Ok(()) = after.apply(0, &items[index]) else {
            return Err(ImageFault::NoMemory);
        };
    }
    Ok(())
}
