//! Reading bodies.
ghost use Rattle.std.specs.Prelude.{◌≡◌, ◌≢◌, ◌==◌, IfOk, Ok, Err, Option, Some, None, true, List, ℕ, ℤ, length, if◌then◌else◌, MatchOption, is_some, option_map};
ghost use Rattle.serde_json.specs.View.{view};
ghost use Rattle.serde_json.specs.Find.{as_object};
ghost use Rattle.kz_types.specs.declared.fault.BodyFault.{BodyFault};
ghost use Rattle.kz_types.specs.declared.key.EntityKey.TheVariants.{Topic, Partition, TopicConfig, BrokerConfig, Acl, Producer};
ghost use Rattle.kz_spec_data.specs.Bodies.{json_of, object_of, read_body};
ghost use Rattle.kz_json.specs.Entries.{has_quotas};

use crate::acls::{Resource, acls_of};
use crate::configs::config_of;
use crate::entries::quota_of;
use crate::others::{producer_of, state_of};
use crate::topics::topic_of;
use kz_body_parts::read_json;
use kz_types::{Body, BodyFault, EntityKey, NoMemory, Sequence};
use serde_json::Value;
use std::alloc::Global;

/// The object that a text is.
pub fn read_object(alloc: Global, bytes: &[u8]) -> Result<Option<Value>, NoMemory>
    ensures { IfOk result (λ value. option_map view value ≡ object_of (json_of bytes.now)) }
{
    match read_json(alloc, bytes)? {
        Some(value) => if value.is_object() {
            Ok(Some(value))
        } else {
            Ok(None)
        },
        None => Ok(None),
    }
}

/// What the body of a topic's or a broker's configuration says. Empty data is an empty configuration.
#[tactic(auto, unfolding(kz_spec_data::specs::Bodies::read_body, kz_spec_data::specs::Bodies::empty_body, kz_spec_data::specs::Bodies::body_of))]
pub fn read_config(alloc: Global, bytes: &[u8]) -> Result<Body, BodyFault>
    ensures broker { (broker : Option ℤ) → result ≢ Err BodyFault.NoMemory → result ≡ read_body (BrokerConfig broker) bytes.now }
    ensures topic { (name : List ℕ) → result ≢ Err BodyFault.NoMemory → result ≡ read_body (TopicConfig name) bytes.now }
{
    if bytes.len() == 0 {
        return Ok(Body::Config {
            pairs: Sequence::new(alloc),
        });
    }
    match read_object(alloc, bytes) {
        Ok(Some(value)) => config_of(alloc, &value),
        Ok(None) => Err(BodyFault::NotJson),
        Err(NoMemory) => Err(BodyFault::NoMemory),
    }
}

/// What the body of a topic says.
#[tactic(auto, unfolding(kz_spec_data::specs::Bodies::read_body, kz_spec_data::specs::Bodies::empty_body, kz_spec_data::specs::Bodies::body_of))]
pub fn read_topic(alloc: Global, bytes: &[u8]) -> Result<Body, BodyFault>
    ensures { (name : List ℕ) → result ≢ Err BodyFault.NoMemory → result ≡ read_body (Topic name) bytes.now }
{
    match read_object(alloc, bytes) {
        Ok(Some(value)) => topic_of(alloc, &value),
        Ok(None) => Err(BodyFault::NotJson),
        Err(NoMemory) => Err(BodyFault::NoMemory),
    }
}

/// What the body of a partition's state says.
#[tactic(auto, unfolding(kz_spec_data::specs::Bodies::read_body, kz_spec_data::specs::Bodies::empty_body, kz_spec_data::specs::Bodies::body_of))]
pub fn read_state(alloc: Global, bytes: &[u8]) -> Result<Body, BodyFault>
    ensures { (topic : List ℕ) (number : ℤ) → result ≢ Err BodyFault.NoMemory → result ≡ read_body (Partition topic number) bytes.now }
{
    match read_object(alloc, bytes) {
        Ok(Some(value)) => state_of(alloc, &value),
        Ok(None) => Err(BodyFault::NotJson),
        Err(NoMemory) => Err(BodyFault::NoMemory),
    }
}

/// What the access control entries of a resource say. Empty data is none.
#[tactic(auto, unfolding(kz_spec_data::specs::Bodies::read_body, kz_spec_data::specs::Bodies::empty_body, kz_spec_data::specs::Bodies::body_of))]
pub fn read_acls(alloc: Global, resource: &Resource<'_>, bytes: &[u8]) -> Result<Body, BodyFault>
    ensures { result ≢ Err BodyFault.NoMemory → result ≡ read_body (Acl resource.now.pattern resource.now.kind resource.now.name.now) bytes.now }
{
    if bytes.len() == 0 {
        return Ok(Body::Acls {
            rows: Sequence::new(alloc),
        });
    }
    match read_object(alloc, bytes) {
        Ok(Some(value)) => acls_of(alloc, resource, &value),
        Ok(None) => Err(BodyFault::NotJson),
        Err(NoMemory) => Err(BodyFault::NoMemory),
    }
}

/// What the body of the producer ids says. Empty data is no block.
#[tactic(auto, unfolding(kz_spec_data::specs::Bodies::read_body, kz_spec_data::specs::Bodies::empty_body, kz_spec_data::specs::Bodies::body_of))]
pub fn read_producer(alloc: Global, bytes: &[u8]) -> Result<Body, BodyFault>
    ensures { result ≢ Err BodyFault.NoMemory → result ≡ read_body Producer bytes.now }
{
    if bytes.len() == 0 {
        return Ok(Body::Blank);
    }
    match read_object(alloc, bytes) {
        Ok(Some(value)) => producer_of(alloc, &value),
        Ok(None) => Err(BodyFault::NotJson),
        Err(NoMemory) => Err(BodyFault::NoMemory),
    }
}

/// What the quotas and credentials of a client, a user or an address say. Empty data is none.
#[tactic(auto, unfolding(kz_spec_data::specs::Bodies::read_body, kz_spec_data::specs::Bodies::empty_body, kz_spec_data::specs::Bodies::body_of))]
pub fn read_quotas(alloc: Global, key: &EntityKey, bytes: &[u8]) -> Result<Body, BodyFault>
    requires { has_quotas key.now ≡ true }
    ensures { result ≢ Err BodyFault.NoMemory → result ≡ read_body key.now bytes.now }
{
    if bytes.len() == 0 {
        return Ok(Body::Quota {
            quotas: Sequence::new(alloc),
            scrams: Sequence::new(alloc),
        });
    }
    match read_object(alloc, bytes) {
        Ok(Some(value)) => quota_of(alloc, key, &value),
        Ok(None) => Err(BodyFault::NotJson),
        Err(NoMemory) => Err(BodyFault::NoMemory),
    }
}
