//! Bodies of every entity, read and written.
ghost use Rattle.std.specs.Prelude.{◌≡◌, ◌≢◌, IfOk, IfErr, Err, string_bytes, true};
ghost use Rattle.kz_types.specs.declared.fault.BodyFault.{BodyFault};
ghost use Rattle.kz_spec_data.specs.Bodies.{read_body, text_of_body, is_of_kind};
ghost use Rattle.kz_json.specs.Entries.{keeps_quotas};

use crate::acls::Resource;
use crate::quotas::quotas_text;
use crate::reading::{read_acls, read_config, read_producer, read_quotas, read_state, read_topic};
use kz_body_texts::{
    PartitionState, acls_text, config_text, producer_text, state_text, topic_text,
};
use kz_types::{Body, BodyFault, EntityKey, NoMemory};
use std::alloc::Global;

/// What the body of an entity's znode says. Members that aren't named are passed over, and of equal members the last
/// counts. Empty data is an empty configuration, no quota or credential, no access control entry, or a blank block of
/// producer ids.
///
/// # Errors
///
/// The first of these that holds, with the members in this order:
///
/// - `NotJson`: the bytes are no JSON object in UTF-8.
/// - `Missing` or `BadField`: a member isn't there, or its value isn't one of its form. `version` is the first, then
///   - of a topic `partitions`, `adding_replicas` and `removing_replicas`, and last `topic_id`, which is `NoTopicId`
///     where it isn't there or is zero;
///   - of a partition `leader`, `leader_epoch`, `controller_epoch`, `isr`, `leader_recovery_state`;
///   - of a configuration `config`, an object of texts;
///   - of access control entries `acls`;
///   - of the block of producer ids `broker`, `block_start`, `block_end`.
/// - Of quotas and credentials, the first member of `config` at fault, in the order of their names: `BadField` with the
///   name of a credential or a quota whose text is none, `UnknownKey` with a name that the entity can't have.
/// - `NoMemory`, at any time: memory ran out.
pub fn read_body(alloc: Global, key: &EntityKey, bytes: &[u8]) -> Result<Body, BodyFault>
    ensures { result ≢ Err BodyFault.NoMemory → result ≡ read_body key.now bytes.now }
{
    match key {
        EntityKey::Topic { .. } => read_topic(alloc, bytes),
        EntityKey::Partition { .. } => read_state(alloc, bytes),
        EntityKey::TopicConfig { .. } | EntityKey::BrokerConfig { .. } => read_config(alloc, bytes),
        EntityKey::Client { .. }
        | EntityKey::User { .. }
        | EntityKey::UserClient { .. }
        | EntityKey::Ip { .. } => read_quotas(alloc, key, bytes),
        EntityKey::Acl {
            pattern,
            kind,
            name,
        } => read_acls(
            alloc,
            &Resource {
                pattern: *pattern,
                kind: *kind,
                name: name.as_str(),
            },
            bytes,
        ),
        EntityKey::Producer => read_producer(alloc, bytes),
    }
}

/// The text of a body.
#[tactic(auto, unfolding(kz_spec_data::specs::Bodies::text_of_body))]
fn body_text(alloc: Global, body: &Body) -> Result<String, NoMemory>
    requires { keeps_quotas body.now ≡ true }
    ensures { IfOk result (λ text. string_bytes text ≡ text_of_body body.now) }
{
    match body {
        Body::Topic { id, partitions } => topic_text(alloc, id, partitions.as_slice()),
        Body::State {
            leader,
            leader_epoch,
            controller_epoch,
            isr,
            recovery,
        } => state_text(
            alloc,
            &PartitionState {
                leader: *leader,
                leader_epoch: *leader_epoch,
                controller_epoch: *controller_epoch,
                isr: isr.as_slice(),
                recovery: *recovery,
            },
        ),
        Body::Config { pairs } => config_text(alloc, pairs.as_slice()),
        Body::Quota { quotas, scrams } => quotas_text(alloc, quotas.as_slice(), scrams.as_slice()),
        Body::Acls { rows } => acls_text(alloc, rows.as_slice()),
        Body::Producer { broker, start, end } => producer_text(alloc, *broker, *start, *end),
        Body::Blank => Ok(String::new(alloc)),
    }
}

/// The text of an entity's body: compact JSON with its members in byte order, and no text for a blank block of producer
/// ids. The only error is `NoMemory`.
pub fn write_body(alloc: Global, key: &EntityKey, body: &Body) -> Result<Vec<u8>, BodyFault>
    requires kind { is_of_kind key.now body.now ≡ true }
    requires quotas { keeps_quotas body.now ≡ true }
    ensures text { IfOk result (λ text. text.items ≡ text_of_body body.now) }
    ensures memory { IfErr result (λ fault. fault ≡ BodyFault.NoMemory) }
{
    match body_text(alloc, body) {
        Ok(text) => Ok(text.into_bytes()),
        Err(NoMemory) => Err(BodyFault::NoMemory),
    }
}
