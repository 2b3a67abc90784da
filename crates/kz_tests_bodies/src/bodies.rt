//! Bodies, read and written.
ghost use Rattle.std.specs.Prelude.{◌≡◌};
ghost use Rattle.kz_types.specs.Quotas.{is_quota};
ghost use Rattle.kz_spec_data.specs.Bodies.{is_of_kind};
ghost use Rattle.kz_json.specs.Entries.{are_quotas, keeps_quotas};

use kz_json::{read_body, write_body};
use kz_types::{Body, BodyFault, EntityKey, NoMemory, QuotaRow, QuotaValue, Text};
use std::alloc::Global;
use std::test::Fail;

// Whether a quota is in its range.
fn is_quota(value: &QuotaValue) -> bool
    ensures { result ≡ is_quota value.now }
{
    0 <= value.whole && 0 <= value.micros && value.micros <= 999_999
}

fn are_quotas(rows: &[QuotaRow]) -> bool
    ensures { result ≡ are_quotas rows.now }
{
    rows.iter().all(|row| is_quota(&row.value))
}

fn keeps_quotas(body: &Body) -> bool
    ensures { result ≡ keeps_quotas body.now }
{
    match body {
        Body::Quota { quotas, .. } => are_quotas(quotas.as_slice()),
        _ => true,
    }
}

// Whether a body is of its entity's kind.
#[tactic(auto, unfolding(kz_spec_data::specs::Bodies::is_of_kind))]
fn is_of_kind(key: &EntityKey, body: &Body) -> bool
    ensures { result ≡ is_of_kind key.now body.now }
{
    match key {
        EntityKey::Topic { .. } => matches!(body, Body::Topic { .. }),
        EntityKey::Partition { .. } => matches!(body, Body::State { .. }),
        EntityKey::TopicConfig { .. } | EntityKey::BrokerConfig { .. } => matches!(
            body,
            Body::Config { .. }
        ),
        EntityKey::Acl { .. } => matches!(body, Body::Acls { .. }),
        EntityKey::Producer => matches!(body, Body::Producer { .. } | Body::Blank),
        _ => matches!(body, Body::Quota { .. }),
    }
}

// The text that is written for a body. `None` where it isn't its entity's, or a quota is out of its range.
fn written(alloc: Global, key: &EntityKey, body: &Body) -> Result<Option<Text>, NoMemory> {
    if !is_of_kind(key, body) || !keeps_quotas(body) {
        return Ok(None);
    }
    match write_body(alloc, key, body) {
        Ok(text) => Text::new(alloc, &text),
        Err(_) => Err(NoMemory),
    }
}

// Why a body can't be read, as a reply line writes it.
fn shown_fault(alloc: Global, fault: &BodyFault) -> Result<String, NoMemory> {
    match fault {
        BodyFault::NotJson => Ok(format!(in alloc; "not-json")?),
        BodyFault::Missing { field } => {
            let field = field.as_str();
            Ok(format!(in alloc; "missing \"{field}\"")?)
        }
        BodyFault::BadField { field } => {
            let field = field.as_str();
            Ok(format!(in alloc; "bad-field \"{field}\"")?)
        }
        BodyFault::NoTopicId => Ok(format!(in alloc; "no-topic-id")?),
        BodyFault::UnknownKey { name } => {
            let name = name.as_str();
            Ok(format!(in alloc; "unknown-key \"{name}\"")?)
        }
        BodyFault::NoMemory => Err(NoMemory),
    }
}

// The text that is written for what bytes say, or why they say nothing.
fn shown(alloc: Global, key: &EntityKey, bytes: &[u8]) -> Result<String, NoMemory> {
    match read_body(alloc, key, bytes) {
        Ok(body) => match written(alloc, key, &body)? {
            Some(text) => Ok(String::from_str(alloc, text.as_str())?),
            None => Ok(format!(in alloc; "not-written")?),
        },
        Err(fault) => shown_fault(alloc, &fault),
    }
}

// A name that is there.
fn text(alloc: Global, text: &str) -> Result<Option<Text>, NoMemory> {
    Ok(Some(Text::from_str(alloc, text)?))
}

// The key of an entity.
fn key(alloc: Global, entity: &str) -> Result<EntityKey, NoMemory> {
    match entity {
        "topic" => Ok(EntityKey::Topic {
            name: Text::from_str(alloc, "t")?,
        }),
        "partition" => Ok(EntityKey::Partition {
            topic: Text::from_str(alloc, "t")?,
            number: 0,
        }),
        "topic's configuration" => Ok(EntityKey::TopicConfig {
            name: Text::from_str(alloc, "t")?,
        }),
        "broker" => Ok(EntityKey::BrokerConfig { broker: Some(1) }),
        "client" => Ok(EntityKey::Client {
            client: text(alloc, "c")?,
        }),
        "user" => Ok(EntityKey::User {
            user: text(alloc, "alice")?,
        }),
        "default user" => Ok(EntityKey::User { user: None }),
        "user's client" => Ok(EntityKey::UserClient {
            user: text(alloc, "u")?,
            client: None,
        }),
        "address" => Ok(EntityKey::Ip {
            address: text(alloc, "10.0.0.1")?,
        }),
        "resource" => Ok(EntityKey::Acl {
            pattern: 3,
            kind: 2,
            name: Text::from_str(alloc, "orders")?,
        }),
        _ => Ok(EntityKey::Producer),
    }
}

// The place of the first case whose bytes aren't shown as they should be.
fn first_other(alloc: Global, cases: &[(&str, &[u8], &str)]) -> Result<Option<usize>, NoMemory> {
    for at in 0..cases.len() {
        let (entity, bytes, text) = cases[at];
        let key = key(alloc, entity)?;
        if shown(alloc, &key, bytes)?.as_str() != text {
            return Ok(Some(at));
        }
    }
    Ok(None)
}

static CONFIGS: [(&str, &[u8], &str); 15] = [
    ("broker", b"", "{\"config\":{},\"version\":1}"),
    (
        "topic's configuration",
        b"{\"version\": 1, \"config\": {}}",
        "{\"config\":{},\"version\":1}",
    ),
    (
        "broker",
        b"{\"version\":1,\"config\":{\"Z\":\"\xc3\xbc\",\"a\":\"x\\\"y\\\\/\\u0007\",\"\xf0\x9f\x98\x80\":\"1\"}}",
        "{\"config\":{\"Z\":\"\u{fc}\",\"a\":\"x\\\"y\\\\/\\u0007\",\"\u{1f600}\":\"1\"},\"version\":1}",
    ),
    (
        "broker",
        b"{\"v\\u0065rsion\": 1, \"config\": {\"\": \"1\", \"b\": \"\xc3\xbc\", \"a\": \"1\"}}",
        "{\"config\":{\"\":\"1\",\"a\":\"1\",\"b\":\"\u{fc}\"},\"version\":1}",
    ),
    ("broker", b"{\"version\":1}", "missing \"config\""),
    (
        "broker",
        b"{\"config\": {\"b\": \"1\"}}",
        "missing \"version\"",
    ),
    (
        "broker",
        b"{\"version\": 1.0, \"config\": {\"\": \"\", \"b\": \"\"}}",
        "bad-field \"version\"",
    ),
    (
        "broker",
        b"{\"version\":1,\"config\":[0]}",
        "bad-field \"config\"",
    ),
    ("broker", b"{\"version\": 1\xff \"config\": {}}", "not-json"),
    (
        "broker",
        b"{\"version\":9,\"version\":1,\"config\":{\"a\":\"1\",\"a\":\"2\"}}",
        "{\"config\":{\"a\":\"2\"},\"version\":1}",
    ),
    (
        "broker",
        b"{\"version\":1e0,\"config\":{}}",
        "bad-field \"version\"",
    ),
    (
        "broker",
        b"{\"version\":1,\"config\":{\"b\":\"1\",\"a\":1}}",
        "bad-field \"config\"",
    ),
    (
        "broker",
        b"{\"version\":1,\"config\":{\"a\":\"\\ud800\"}}",
        "not-json",
    ),
    ("broker", b" {\"version\": 1, \"config\": {}}{}", "not-json"),
    ("broker", b"[]", "not-json"),
];

#[test]
fn configurations(rt: HostRuntime) {
    assert_eq!(rt; first_other(rt.alloc(), &CONFIGS), Ok(None));
}

// The text of a configuration with a further member that has so many lists in one another.
fn nested(alloc: Global, lists: usize) -> Result<String, NoMemory> {
    let mut text = String::from_str(alloc, "{\"version\":1,\"config\":{},\"note\":")?;
    for _ in 0..lists {
        text.push_str("[")?;
    }
    for _ in 0..lists {
        text.push_str("]")?;
    }
    text.push_str("}")?;
    Ok(text)
}

// What is shown of a configuration with a further member of that many lists.
fn shown_nested(alloc: Global, lists: usize) -> Result<String, NoMemory> {
    let key = EntityKey::BrokerConfig { broker: None };
    let text = nested(alloc, lists)?;
    shown(alloc, &key, text.as_bytes())
}

// 127 levels are read, and 128 are not.
#[test]
fn nesting(rt: HostRuntime) -> Result<(), Fail> {
    let read = shown_nested(rt.alloc(), 126)?;
    assert_eq!(rt; read.as_str(), "{\"config\":{},\"version\":1}");
    let refused = shown_nested(rt.alloc(), 127)?;
    assert_eq!(rt; refused.as_str(), "not-json");
    Ok(())
}

static TOPICS: [(&str, &[u8], &str); 10] = [
    (
        "topic",
        b"{\"version\":3, \"topic_id\":\"AAECAwQFBgcICQoLDA0ODw\",\"partitions\":{\"0\":[1,2],\"1\":[2,3],\"2\":[3,1]},\"adding_replicas\":{},\"removing_replicas\":{},\"note\":1}",
        "{\"adding_replicas\":{},\"partitions\":{\"0\":[1,2],\"1\":[2,3],\"2\":[3,1]},\"removing_replicas\":{},\"topic_id\":\"AAECAwQFBgcICQoLDA0ODw\",\"version\":3}",
    ),
    (
        "topic",
        b"{\"version\": 1, \"partitions\": {\"6\": [5], \"2\": [3, 0], \"10\": [2, 0, 4], \"7\": [3, 4, 0]}, \"adding_replicas\": {\"2\": [3]}, \"removing_replicas\": {\"2\": [0]}, \"topic_id\": \"AAECAwQFBgcICQoLDA0ODw\"}",
        "{\"adding_replicas\":{\"2\":[3]},\"partitions\":{\"10\":[2,0,4],\"2\":[3,0],\"6\":[5],\"7\":[3,4,0]},\"removing_replicas\":{\"2\":[0]},\"topic_id\":\"AAECAwQFBgcICQoLDA0ODw\",\"version\":3}",
    ),
    (
        "topic",
        b"{\"partitions\":{\"5\":[1,4]},\"adding_replicas\":{},\"removing_replicas\":{},\"topic_id\":\"AAECAwQFBgcICQoLDA0ODw\"}",
        "missing \"version\"",
    ),
    (
        "topic",
        b"{\"version\": 3, \"partitions\": {\"8\": [2]}, \"adding_replicas\": {}, \"removing_replicas\": {}, \"topic_id\": \"AAAAAAAAAAAAAAAAAAAAAA\"}",
        "no-topic-id",
    ),
    (
        "topic",
        b"{\"version\": 1, \"partitions\": {\"11\": [3, 0, 5]}, \"adding_replicas\": {}, \"removing_replicas\": {\"11\": [5]}, \"topic_id\": \"short\"}",
        "bad-field \"topic_id\"",
    ),
    (
        "topic",
        b"{\"version\": 1, \"partitions\": {\"6\": [\"1\"], \"9\": [4, 5, 0]}, \"adding_replicas\": {\"9\": [4]}, \"removing_replicas\": {\"6\": [4]}, \"topic_id\": \"AAECAwQFBgcICQoLDA0ODw\"}",
        "bad-field \"partitions\"",
    ),
    (
        "topic",
        b"{\"version\":3,\"partitions\":{\"11\":[3,4,0],\"3\":[4]},\"adding_replicas\":{\"11\":1.5},\"removing_replicas\":{\"11\":[0],\"3\":[4]},\"topic_id\":\"AAECAwQFBgcICQoLDA0ODw\"}",
        "bad-field \"adding_replicas\"",
    ),
    (
        "topic",
        b"{\"version\": 3, \"partitions\": {\"10\": [2, 3, 4], \"7",
        "not-json",
    ),
    ("topic", b"", "not-json"),
    ("topic", b"{\"version\":1,\"partitions\":{}}", "no-topic-id"),
];

#[test]
fn topics(rt: HostRuntime) {
    assert_eq!(rt; first_other(rt.alloc(), &TOPICS), Ok(None));
}

static STATES: [(&str, &[u8], &str); 9] = [
    (
        "partition",
        b"{\"controller_epoch\":5,\"leader\":1,\"version\":1,\"leader_epoch\":4,\"isr\":[1,2]}",
        "{\"controller_epoch\":5,\"isr\":[1,2],\"leader\":1,\"leader_epoch\":4,\"leader_recovery_state\":0,\"version\":1}",
    ),
    (
        "partition",
        b"{\"version\": 1, \"leader\": 0, \"leader_epoch\": 4, \"controller_epoch\": 2, \"isr\": [0, 4, 3], \"leader_recovery_state\": 1}",
        "{\"controller_epoch\":2,\"isr\":[0,4,3],\"leader\":0,\"leader_epoch\":4,\"leader_recovery_state\":1,\"version\":1}",
    ),
    (
        "partition",
        b"{\"leader\":-2,\"leader_epoch\":8,\"controller_epoch\":8,\"isr\":[4,3,1]}",
        "missing \"version\"",
    ),
    (
        "partition",
        b"{\"version\": 1, \"leader_epoch\": 0, \"controller_epoch\": 9, \"isr\": [1, 0], \"leader_recovery_state\": 0}",
        "missing \"leader\"",
    ),
    (
        "partition",
        b"{\"v\\u0065rsion\":1,\"leader\":0,\"leader_epoch\":true,\"controller_epoch\":4,\"isr\":[0,2,4],\"leader_recovery_state\":0}",
        "bad-field \"leader_epoch\"",
    ),
    (
        "partition",
        b"{\"version\": 1, \"leader\": 0, \"leader_epoch\": 9, \"isr\": [0, 2]}",
        "missing \"controller_epoch\"",
    ),
    (
        "partition",
        b"{\"version\":1,\"leader\":-2,\"leader_epoch\":6,\"controller_epoch\":7,\"isr\":2147483647}",
        "bad-field \"isr\"",
    ),
    (
        "partition",
        b"\xef\xbb\xbf{\"version\":1,\"leader\":5,\"leader_epoch\":7,\"controller_epoch\":0,\"isr\":[3,5]} ",
        "not-json",
    ),
    (
        "partition",
        b"{\"version\":1,\"leader\":0,\"leader_epoch\":-0,\"controller_epoch\":4,\"isr\":[]}",
        "bad-field \"leader_epoch\"",
    ),
];

#[test]
fn states(rt: HostRuntime) {
    assert_eq!(rt; first_other(rt.alloc(), &STATES), Ok(None));
}

static ACLS: [(&str, &[u8], &str); 8] = [
    ("resource", b"", "{\"acls\":[],\"version\":1}"),
    (
        "resource",
        b"{\"version\":1,\"acls\":[{\"principal\":\"User:alice\",\"permissionType\":\"Allow\",\"operation\":\"Read\",\"host\":\"*\"},{\"principal\":\"User:alice\",\"permissionType\":\"Allow\",\"operation\":\"Write\",\"host\":\"*\"}]}",
        "{\"acls\":[{\"host\":\"*\",\"operation\":\"Read\",\"permissionType\":\"Allow\",\"principal\":\"User:alice\"},{\"host\":\"*\",\"operation\":\"Write\",\"permissionType\":\"Allow\",\"principal\":\"User:alice\"}],\"version\":1}",
    ),
    (
        "resource",
        b"{\"version\": 1, \"acls\": [{\"principal\": \"User:a\", \"permissionType\": \"Deny\", \"operation\": \"IdempotentWrite\", \"host\": \"\"}]}",
        "{\"acls\":[{\"host\":\"\",\"operation\":\"IdempotentWrite\",\"permissionType\":\"Deny\",\"principal\":\"User:a\"}],\"version\":1}",
    ),
    (
        "resource",
        b"{\"version\": 1, \"acls\": [2147483647]}",
        "bad-field \"acls\"",
    ),
    (
        "resource",
        b"{\"version\":1,\"acls\":3}",
        "bad-field \"acls\"",
    ),
    ("resource", b"{\"version\":1}", "missing \"acls\""),
    (
        "resource",
        b" {\"version\": [1, 1], \"acls\": []} ",
        "bad-field \"version\"",
    ),
    (
        "resource",
        b"\n\t{\"version\": 1, \"acls\": []}{}",
        "not-json",
    ),
];

#[test]
fn access_control_entries(rt: HostRuntime) {
    assert_eq!(rt; first_other(rt.alloc(), &ACLS), Ok(None));
}

static BLOCKS: [(&str, &[u8], &str); 6] = [
    ("producer ids", b"", ""),
    (
        "producer ids",
        b"{\"version\":1,\"broker\":7,\"block_start\":\"0\",\"block_end\":\"1999\"}",
        "{\"block_end\":\"1999\",\"block_start\":\"0\",\"broker\":7,\"version\":1}",
    ),
    (
        "producer ids",
        b"{\"version\": 1, \"broker\": -1, \"block_start\": \"1000\", \"block_end\": \"999\"}",
        "{\"block_end\":\"999\",\"block_start\":\"1000\",\"broker\":-1,\"version\":1}",
    ),
    (
        "producer ids",
        b"{\"version\":1,\"broker\":-1,\"block_start\":\"007\",\"block_end\":\"9223372036854775808\"}",
        "bad-field \"block_end\"",
    ),
    (
        "producer ids",
        b"{\"version\": 1, \"broker\": 7, \"block_start\": \"0\"}",
        "missing \"block_end\"",
    ),
    (
        "producer ids",
        b"{\"version\":1,\"broker\":-2,\"block_start\":\"0\",\"block_end\":\"1999\"}",
        "bad-field \"broker\"",
    ),
];

#[test]
fn producer_blocks(rt: HostRuntime) {
    assert_eq!(rt; first_other(rt.alloc(), &BLOCKS), Ok(None));
}

static QUOTAS: [(&str, &[u8], &str); 21] = [
    ("user", b"", "{\"config\":{},\"version\":1}"),
    (
        "user",
        b"{\"version\":1,\"config\":{\"producer_byte_rate\":\"1024.0\",\"SCRAM-SHA-256\":\"salt=c2FsdA==,stored_key=a2V5,server_key=c2Vy,iterations=4096\"}}",
        "{\"config\":{\"SCRAM-SHA-256\":\"salt=c2FsdA==,stored_key=a2V5,server_key=c2Vy,iterations=4096\",\"producer_byte_rate\":\"1024\"},\"version\":1}",
    ),
    (
        "user",
        b"{\"version\":1,\"config\":{\"SCRAM-SHA-256\":\"iterations=1,salt=,server_key=c2Vy,stored_key=a2V5\"}}",
        "{\"config\":{\"SCRAM-SHA-256\":\"salt=,stored_key=a2V5,server_key=c2Vy,iterations=1\"},\"version\":1}",
    ),
    (
        "user",
        b"{\"version\":1,\"config\":{\"SCRAM-SHA-512\":\"salt=c2FsdA==,stored_key=a2V5,server_key=c2Vy,iterations=4096\",\"request_percentage\":\"1.5\"}}",
        "{\"config\":{\"SCRAM-SHA-512\":\"salt=c2FsdA==,stored_key=a2V5,server_key=c2Vy,iterations=4096\",\"request_percentage\":\"1.5\"},\"version\":1}",
    ),
    (
        "user",
        b"{\"version\":1,\"config\":{\"SCRAM-SHA-256\":\"salt=c2FsdA==,salt=c2FsdA==,server_key=c2Vy,iterations=4096\"}}",
        "bad-field \"SCRAM-SHA-256\"",
    ),
    (
        "user",
        b"{\"version\":1,\"config\":{\"SCRAM-SHA-256\":\"salt=c2FsdA==,stored_key=a2V5,server_key=c2Vy\"}}",
        "bad-field \"SCRAM-SHA-256\"",
    ),
    (
        "user",
        b"{\"version\":1,\"config\":{\"SCRAM-SHA-256\":\"salt=c2FsdA,stored_key=a2V5,server_key=c2Vy,iterations=4096\"}}",
        "bad-field \"SCRAM-SHA-256\"",
    ),
    (
        "user",
        b"{\"version\":1,\"config\":{\"SCRAM-SHA-256\":\"salt=c2FsdB==,stored_key=a2V5,server_key=c2Vy,iterations=1\"}}",
        "bad-field \"SCRAM-SHA-256\"",
    ),
    (
        "user",
        b"{\"version\":1,\"config\":{\"SCRAM-SHA-256\":\"salt=c2FsdA==, stored_key=a2V5,server_key=c2Vy,iterations=4096\"}}",
        "bad-field \"SCRAM-SHA-256\"",
    ),
    (
        "user",
        b"{\"version\":1,\"config\":{\"SCRAM-SHA-256\":\"salt=c2FsdA==,stored_key=a2V5,server_key=c2Vy,iterations=0\"}}",
        "bad-field \"SCRAM-SHA-256\"",
    ),
    (
        "user",
        b"{\"version\":1,\"config\":{\"SCRAM-SHA-256\":\"salt=c2FsdA==,stored_key=a2V5,server_key=c2Vy,iterations=04096\"}}",
        "bad-field \"SCRAM-SHA-256\"",
    ),
    (
        "user",
        b"{\"version\":1,\"config\":{\"producer_byte_rate\":\"-1\",\"consumer_byte_rate\":\"0.0000001\"}}",
        "bad-field \"consumer_byte_rate\"",
    ),
    (
        "user",
        b"{\"version\":1,\"config\":{\"producer_byte_rate\":\"-1\",\"SCRAM-SHA-256\":\"\"}}",
        "bad-field \"SCRAM-SHA-256\"",
    ),
    (
        "user",
        b"{\"version\":1,\"config\":{\"producer_byte_rate\":\"1.5\",\"connection_creation_rate\":\"1\"}}",
        "unknown-key \"connection_creation_rate\"",
    ),
    (
        "user",
        b"{\"version\":1,\"config\":{\"producer_byte_rate\":\"1.5\",\"quota\":\"\"}}",
        "unknown-key \"quota\"",
    ),
    (
        "default user",
        b"{\"version\":1,\"config\":{\"producer_byte_rate\":\"1e3\"}}",
        "{\"config\":{\"producer_byte_rate\":\"1000\"},\"version\":1}",
    ),
    (
        "default user",
        b"{\"version\":1,\"config\":{\"SCRAM-SHA-256\":\"salt=c2FsdA==,stored_key=a2V5,server_key=c2Vy,iterations=4096\"}}",
        "unknown-key \"SCRAM-SHA-256\"",
    ),
    (
        "user's client",
        b"{\"version\":1,\"config\":{\"controller_mutation_rate\":\"0\",\"consumer_byte_rate\":\"1e3\"}}",
        "{\"config\":{\"consumer_byte_rate\":\"1000\",\"controller_mutation_rate\":\"0\"},\"version\":1}",
    ),
    (
        "client",
        b"{\"version\":1,\"config\":{\"SCRAM-SHA-256\":\"salt=c2FsdA==,stored_key=a2V5,server_key=c2Vy,iterations=4096\"}}",
        "unknown-key \"SCRAM-SHA-256\"",
    ),
    (
        "address",
        b"{\"version\":1,\"config\":{\"connection_creation_rate\":\"1.5\"}}",
        "{\"config\":{\"connection_creation_rate\":\"1.5\"},\"version\":1}",
    ),
    (
        "address",
        b"{\"version\":1,\"config\":{\"producer_byte_rate\":\"-1\"}}",
        "unknown-key \"producer_byte_rate\"",
    ),
];

#[test]
fn quotas_and_credentials(rt: HostRuntime) {
    assert_eq!(rt; first_other(rt.alloc(), &QUOTAS), Ok(None));
}
