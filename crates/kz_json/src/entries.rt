//! Quotas and credentials, in the configurations of clients, users and addresses.
ghost use Rattle.std.specs.Prelude.{◌≡◌, ◌≢◌, [], IfOk, IfErr, OnOk, Ok, Err};
ghost use Rattle.std.specs.Result.{result_ok};
ghost use Rattle.serde_json.specs.View.{view};
ghost use Rattle.kz_types.specs.Paths.{is_among};
ghost use Rattle.kz_spec_data.specs.Quotas.{quota_of};
ghost use Rattle.kz_types.specs.declared.fault.BodyFault.{BodyFault};
ghost use Rattle.kz_types.specs.declared.fault.BodyFault.TheVariants.{UnknownKey};
ghost use Rattle.kz_spec_data.specs.Credentials as said;
ghost use Rattle.kz_spec_data.specs.Credentials.{quota_keys, mechanism_of, credential_key, credential_of, credential_entry, quota_entry, entry_of, entries_of, entries_of_both};
ghost use Rattle.kz_spec_data.specs.Bodies.{quota_of_data};
ghost use Rattle.kz_json.specs.Entries.{entry_value};

use crate::configs::pairs_of;
use crate::credentials::credential_of;
use kz_body_parts::{QuotaText, bad_field};
use kz_types::{
    Body, BodyFault, EntityKey, NoMemory, Pair, QuotaRow, QuotaValue, ScramPair, Sequence, Text,
};
use serde_json::Value;
use std::alloc::Global;
use std::marker::Model;

/// Kafka's code of a mechanism.
fn mechanism_of(name: &str) -> Option<i8>
    ensures { result ≡ mechanism_of name.now }
{
    match name {
        "SCRAM-SHA-256" => Some(1),
        "SCRAM-SHA-512" => Some(2),
        _ => None,
    }
}

/// The mechanism that a member's name is. Only a user with a name has credentials.
fn credential_key(key: &EntityKey, name: &str) -> Option<i8>
    ensures { result ≡ credential_key key.now name.now }
{
    match key {
        EntityKey::User { user: Some(_) } => mechanism_of(name),
        _ => None,
    }
}

/// Whether an entity may have the quota of this key.
fn is_quota_key(key: &EntityKey, name: &str) -> bool
    ensures { result ≡ is_among (quota_keys key.now) name.now }
{
    match key {
        EntityKey::Client { .. } | EntityKey::User { .. } | EntityKey::UserClient { .. } =>
            matches!(
                name,
                "producer_byte_rate"
                    | "consumer_byte_rate"
                    | "request_percentage"
                    | "controller_mutation_rate"
            ),
        EntityKey::Ip { .. } => name == "connection_creation_rate",
        _ => false,
    }
}

/// What one member of a configuration says.
#[derive(Drop)]
enum Entry {
    Quota(QuotaRow),
    Credential(ScramPair),
}

/// The credential of a mechanism.
fn credential_entry(
    alloc: Global,
    name: &str,
    mechanism: i8,
    text: &str,
) -> Result<Entry, BodyFault>
    ensures ok { IfOk result (λ entry. credential_entry name.now mechanism (credential_of text.now) ≡ Ok (entry_value entry)) }
    ensures err { IfErr result (λ fault. fault ≢ BodyFault.NoMemory → credential_entry name.now mechanism (credential_of text.now) ≡ Err fault) }
{
    match credential_of(alloc, text) {
        Ok(Some(value)) => Ok(Entry::Credential(ScramPair { mechanism, value })),
        Ok(None) => Err(bad_field(alloc, name)),
        Err(NoMemory) => Err(BodyFault::NoMemory),
    }
}

/// The quota of a key.
fn quota_entry(alloc: Global, name: &str, text: &str) -> Result<Entry, BodyFault>
    ensures ok { IfOk result (λ entry. quota_entry name.now (result_ok (quota_of text.now)) ≡ Ok (entry_value entry)) }
    ensures err { IfErr result (λ fault. fault ≢ BodyFault.NoMemory → quota_entry name.now (result_ok (quota_of text.now)) ≡ Err fault) }
{
    let Ok(value) = QuotaValue::read(text.as_bytes()) else {
        return Err(bad_field(alloc, name));
    };
    match Text::from_str(alloc, name) {
        Ok(key) => Ok(Entry::Quota(QuotaRow { key, value })),
        Err(NoMemory) => Err(BodyFault::NoMemory),
    }
}

/// The fault of a member that its entity can't have.
fn unknown_key(alloc: Global, name: &str) -> BodyFault
    ensures { result ≢ BodyFault.NoMemory → result ≡ UnknownKey name.now }
{
    match Text::from_str(alloc, name) {
        Ok(name) => BodyFault::UnknownKey { name },
        Err(NoMemory) => BodyFault::NoMemory,
    }
}

/// What a member says: a credential where its name is a mechanism that the entity may have, and else a quota.
fn entry_of(alloc: Global, key: &EntityKey, pair: &Pair) -> Result<Entry, BodyFault>
    ensures ok { IfOk result (λ entry. entry_of key.now pair.now ≡ Ok (entry_value entry)) }
    ensures err { IfErr result (λ fault. fault ≢ BodyFault.NoMemory → entry_of key.now pair.now ≡ Err fault) }
{
    let name = pair.name.as_str();
    let text = pair.value.as_str();
    if let Some(mechanism) = credential_key(key, name) {
        credential_entry(alloc, name, mechanism, text)
    } else if is_quota_key(key, name) {
        quota_entry(alloc, name, text)
    } else {
        Err(unknown_key(alloc, name))
    }
}

/// What a configuration says: quotas and credentials.
#[derive(Drop)]
struct Entries {
    quotas: Sequence<QuotaRow>,
    scrams: Sequence<ScramPair>,
}

impl Model for Entries {
    ghost Value = { said.Entries };

    ghost view = { λ e. record { quotas = e.quotas; scrams = e.scrams } };
}

impl Entries {
    /// No quota and no credential.
    fn new(alloc: Global) -> Self
        ensures { result ≡ record { quotas = []; scrams = [] } }
    {
        Entries {
            quotas: Sequence::new(alloc),
            scrams: Sequence::new(alloc),
        }
    }

    /// Adds what one member says.
    fn push(&mut self, entry: Entry) -> Result<(), NoMemory>
        ensures { OnOk result (self.new ≡ entries_of_both self.old (entry_value entry)) }
    {
        match entry {
            Entry::Quota(row) => self.quotas.push(row),
            Entry::Credential(pair) => self.scrams.push(pair),
        }
    }
}

/// What the members of a configuration say, or the fault of the first member at fault.
fn entries_of(alloc: Global, key: &EntityKey, pairs: &[Pair]) -> Result<Entries, BodyFault>
    ensures { result ≢ Err BodyFault.NoMemory → result ≡ entries_of key.now pairs.now }
{
    let mut entries = Entries::new(alloc);
    for pair in pairs {
        let entry = match entry_of(alloc, key, pair) {
            Ok(entry) => entry,
            Err(fault) => return Err(fault),
        };
        match entries.push(entry) {
            Ok(()) => (),
            Err(NoMemory) => return Err(BodyFault::NoMemory),
        }
    }
    Ok(entries)
}

/// What the configuration of a client, a user or an address says.
pub fn quota_of(alloc: Global, key: &EntityKey, value: &Value) -> Result<Body, BodyFault>
    ensures { result ≢ Err BodyFault.NoMemory → result ≡ quota_of_data key.now (view value.now) }
{
    let pairs = match pairs_of(alloc, value) {
        Ok(pairs) => pairs,
        Err(fault) => return Err(fault),
    };
    match entries_of(alloc, key, pairs.as_slice()) {
        Ok(Entries { quotas, scrams }) => Ok(Body::Quota { quotas, scrams }),
        Err(fault) => Err(fault),
    }
}
