//! Configurations with quotas and credentials, written.
ghost use Rattle.std.specs.Prelude.{◌≡◌, ◌++◌, IfOk, map, codes, string_bytes, true};
ghost use Rattle.base64.specs.Engines.{standard};
ghost use Rattle.base64.specs.GeneralPurpose.{encode_of};
ghost use Rattle.serde_json.specs.Written.{compact_text};
ghost use Rattle.kz_types.specs.Quotas.{is_quota};
ghost use Rattle.kz_spec_data.specs.Credentials.{mechanism_name, credential_text, quota_pair, credential_pair};
ghost use Rattle.kz_spec_data.specs.Bodies.{config_data};
ghost use Rattle.kz_json.specs.Entries.{are_quotas};

use base64::engine::general_purpose::STANDARD;
use kz_body_parts::QuotaText;
use kz_body_texts::{config_text, number_text};
use kz_types::{Duplicate, NoMemory, Pair, QuotaRow, ScramPair, ScramRow, Text};
use std::alloc::Global;

/// The name of a mechanism.
fn mechanism_name(mechanism: i8) -> &'static str
    ensures { result.now ≡ mechanism_name mechanism }
{
    if mechanism <= 1 {
        "SCRAM-SHA-256"
    } else {
        "SCRAM-SHA-512"
    }
}

/// The text of bytes: base64 with its padding.
fn encoded(alloc: Global, bytes: &[u8]) -> Result<String, NoMemory>
    ensures { IfOk result (λ text. string_bytes text ≡ encode_of standard bytes.now) }
{
    Ok(STANDARD.encode(alloc, bytes)?)
}

/// The text of a credential of these members.
fn members_text(
    alloc: Global,
    salt: &str,
    stored_key: &str,
    server_key: &str,
    iterations: &str,
) -> Result<String, NoMemory>
    ensures { IfOk result (λ text. string_bytes text ≡ codes "salt=" ++ (salt.now ++ (codes ",stored_key=" ++ (stored_key.now
        ++ (codes ",server_key=" ++ (server_key.now ++ (codes ",iterations=" ++ iterations.now))))))) }
{
    Ok(format!(in alloc;
        "salt={salt},stored_key={stored_key},server_key={server_key},iterations={iterations}"
    )?)
}

/// The text of a credential.
#[tactic(auto, unfolding(kz_spec_data::specs::Credentials::credential_text))]
fn credential_text(alloc: Global, row: &ScramRow) -> Result<Text, NoMemory>
    ensures { IfOk result (λ text. text ≡ credential_text row.now) }
{
    let salt = encoded(alloc, row.salt.as_slice())?;
    let stored_key = encoded(alloc, row.stored_key.as_slice())?;
    let server_key = encoded(alloc, row.server_key.as_slice())?;
    let iterations = number_text(alloc, row.iterations)?;
    let text = members_text(alloc, &salt, &stored_key, &server_key, &iterations)?;
    Ok(Text::from_string(text))
}

/// The member that is written for a quota.
fn quota_pair(alloc: Global, row: &QuotaRow) -> Result<Pair, NoMemory>
    requires { is_quota row.now.value ≡ true }
    ensures { IfOk result (λ pair. pair ≡ quota_pair row.now) }
{
    let name = row.key.copy(alloc)?;
    let value = row.value.text(alloc)?;
    Ok(Pair { name, value })
}

/// The member that is written for a credential.
fn credential_pair(alloc: Global, pair: &ScramPair) -> Result<Pair, NoMemory>
    ensures { IfOk result (λ made. made ≡ credential_pair pair.now) }
{
    let name = Text::from_str(alloc, mechanism_name(pair.mechanism))?;
    let value = credential_text(alloc, &pair.value)?;
    Ok(Pair { name, value })
}

/// The members of a configuration with quotas and credentials.
fn pairs_of(alloc: Global, quotas: &[QuotaRow], scrams: &[ScramPair]) -> Result<Vec<Pair>, NoMemory>
    requires { are_quotas quotas.now ≡ true }
    ensures { IfOk result (λ pairs. pairs.items ≡ map quota_pair quotas.now ++ map credential_pair scrams.now) }
{
    let mut pairs = Vec::new(alloc);
    for row in quotas {
        pairs.push(quota_pair(alloc, row)?)?;
    }
    for pair in scrams {
        pairs.push(credential_pair(alloc, pair)?)?;
    }
    Ok(pairs)
}

/// The text of the body of a client's, a user's or an address's quotas and credentials.
pub fn quotas_text(
    alloc: Global,
    quotas: &[QuotaRow],
    scrams: &[ScramPair],
) -> Result<String, NoMemory>
    requires { are_quotas quotas.now ≡ true }
    ensures { IfOk result (λ text. string_bytes text ≡ compact_text (config_data (map quota_pair quotas.now ++ map credential_pair scrams.now))) }
{
    let pairs = pairs_of(alloc, quotas, scrams)?;
    config_text(alloc, &pairs)
}
