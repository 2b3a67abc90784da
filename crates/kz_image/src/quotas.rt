//! The quotas of clients, users and addresses, by the rising path of their znode.
ghost use Rattle.std.specs.Prelude.{◌≡◌, ◌≢◌, List, [], ◌∷◌, true, All, None, Some, Ok, IfOk, OnOk, OnErr, option_map, if◌then◌else◌};
ghost use Rattle.kz_types.specs.Paths.{path_of, is_legal};
ghost use Rattle.kz_types.specs.PathRule.{is_path};
ghost use Rattle.kz_types.specs.declared.bodies.QuotaRow.{QuotaRow};
ghost use Rattle.kz_types.specs.Order.{bytes_cmp};
ghost use Rattle.kz_types.specs.Ordered.{find as find_in, put as put_in, without as without_in, Rises};
ghost use Rattle.kz_spec_data.specs.Metadata.{path_of_quotas, key_of_quota};
ghost use Rattle.kz_spec_data.specs.ImageRules.{quota_key, has_quota};
ghost use Rattle.kz_spec_data.specs.Image.{quotas_in, with_quota, with_quotas, quota_changed};
ghost use Rattle.kz_spec_data.specs.InOrder.{AreQuotasInOrder};
ghost use Rattle.kz_image_rules.specs.QuotaKeys.{entity_of};
ghost use Rattle.kz_image.specs.QuotaPaths.{IsEntityRead};

use kz_image_rules::{QuotaKey, path_of, quota_key};
use kz_sorted::{Blocks, put, without};
use kz_types::{
    ClientQuotaRecord, Duplicate, EntityKey, NoMemory, PathFault, QuotaEntry, QuotaRow, Sequence,
    ZPath,
};
use std::alloc::Global;
use std::marker::Model;

/// The entities that have quotas, by the rising path of their znode. Each path is read as that of an entity.
#[derive(Drop)]
pub struct QuotaList {
    entries: Blocks<QuotaEntry>,
}

impl Model for QuotaList {
    ghost use Rattle.std.specs.Prelude.{List, All};
    ghost use Rattle.kz_types.specs.declared.image.QuotaEntry.{QuotaEntry};
    ghost use Rattle.kz_image.specs.QuotaPaths.{IsEntityRead};

    ghost Value = { List QuotaEntry };

    ghost view = { λ q. q.entries };

    ghost invariant = { λ q. All IsEntityRead q.entries };
}

// ---- look-ups

// The quotas under a path.
fn quotas_at<'a>(entries: &'a Blocks<QuotaEntry>, path: &[u8]) -> Option<&'a Sequence<QuotaRow>>
    ensures { option_map (λ quotas. quotas.now) result ≡ option_map (λ q. q.quotas) (find_in bytes_cmp path_of_quotas path.now entries.entry.now) }
{
    match entries.find(path) {
        Some(entry) => Some(&entry.quotas),
        None => None,
    }
}

// The quotas of an entity that may have some.
fn quotas_of_key<'a>(
    entries: &'a Blocks<QuotaEntry>,
    key: &QuotaKey<'_>,
) -> Option<&'a Sequence<QuotaRow>>
    requires { AreQuotasInOrder entries.now }
    ensures { option_map (λ quotas. quotas.now) result ≡ option_map (λ q. q.quotas) (find_in bytes_cmp path_of_quotas (path_of (entity_of key.now)) entries.entry.now) }
{
    match path_of(key) {
        Some(path) => quotas_at(entries, path.bytes()),
        None => None,
    }
}

// The quotas of an entity. What is no entity has none.
fn quotas_of<'a>(entries: &'a Blocks<QuotaEntry>, key: &EntityKey) -> Option<&'a Sequence<QuotaRow>>
    requires { AreQuotasInOrder entries.now }
    ensures { option_map (λ quotas. quotas.now) result ≡ (if is_legal key.now then option_map (λ q. q.quotas) (find_in bytes_cmp path_of_quotas (path_of key.now) entries.entry.now) else None) }
{
    if !key.is_legal() {
        return None;
    }
    match key {
        EntityKey::Client { client } => quotas_of_key(entries, &QuotaKey::Client(client)),
        EntityKey::User { user } => quotas_of_key(entries, &QuotaKey::User(user)),
        EntityKey::UserClient { user, client } => {
            quotas_of_key(entries, &QuotaKey::UserClient(user, client))
        }
        EntityKey::Ip { address } => quotas_of_key(entries, &QuotaKey::Ip(address)),
        EntityKey::Topic { name: _ }
        | EntityKey::Partition {
            topic: _,
            number: _,
        }
        | EntityKey::TopicConfig { name: _ }
        | EntityKey::BrokerConfig { broker: _ }
        | EntityKey::Acl {
            pattern: _,
            kind: _,
            name: _,
        }
        | EntityKey::Producer => None,
    }
}

// ---- changes

fn quota_row(alloc: Global, change: &ClientQuotaRecord) -> Result<QuotaRow, NoMemory>
    ensures { IfOk result (λ row. row ≡ record { key = change.now.key; value = change.now.value }) }
{
    Ok(QuotaRow {
        key: change.key.copy(alloc)?,
        value: change.value,
    })
}

fn change_rows(
    alloc: Global,
    quotas: &mut Vec<QuotaRow>,
    change: &ClientQuotaRecord,
) -> Result<(), NoMemory>
    requires { Rises bytes_cmp key_of_quota quotas.old.items }
    ensures ok { OnOk result (quotas.new.items ≡ with_quota change.now quotas.old.items) }
    ensures err { OnErr result (quotas.new.items ≡ quotas.old.items) }
{
    if change.remove {
        without(quotas, change.key.bytes());
        return Ok(());
    }
    let row = quota_row(alloc, change)?;
    put(quotas, row)
}

// A path of these bytes.
fn path_copy(alloc: Global, path: &[u8]) -> Result<ZPath, NoMemory>
    requires { is_path path.now ≡ true }
    ensures { IfOk result (λ made. made ≡ path.now) }
{
    match ZPath::new(alloc, path) {
        Ok(path) => Ok(path),
        Err(PathFault::NoMemory) => Err(NoMemory),
        Err(PathFault::BadName { at: _ }) => unreachable!(),
    }
}

// A copy of the quotas under a path. Where there is no entity, there are none.
fn rows_of(
    alloc: Global,
    entries: &Blocks<QuotaEntry>,
    path: &[u8],
) -> Result<Vec<QuotaRow>, NoMemory>
    ensures { IfOk result (λ rows. rows.items ≡ quotas_in (find_in bytes_cmp path_of_quotas path.now entries.now)) }
{
    match entries.find(path) {
        Some(entry) => Ok(entry.quotas.copy(alloc)?.into_vec()),
        None => Ok(Vec::new(alloc)),
    }
}

// Puts an entity with these quotas in the place of the one of its path. One without quotas isn't kept.
fn put_rows(
    alloc: Global,
    entries: &mut Blocks<QuotaEntry>,
    path: &[u8],
    rows: Vec<QuotaRow>,
) -> Result<(), NoMemory>
    requires { is_path path.now ≡ true }
    ensures ok { OnOk result (entries.new ≡ with_quotas path.now rows.items entries.old) }
    ensures err { OnErr result (entries.new ≡ entries.old) }
{
    if rows.len() == 0 {
        return entries.without(path);
    }
    let entry = QuotaEntry {
        path: path_copy(alloc, path)?,
        quotas: Sequence::from_vec(rows),
    };
    entries.put(entry)
}

// Sets or removes a quota of the entity of a path.
fn change_under(
    alloc: Global,
    entries: &mut Blocks<QuotaEntry>,
    path: &[u8],
    change: &ClientQuotaRecord,
) -> Result<(), NoMemory>
    requires order { AreQuotasInOrder entries.old }
    requires rule { is_path path.now ≡ true }
    ensures ok { OnOk result (entries.new ≡ with_quotas path.now (with_quota change.now (quotas_in (find_in bytes_cmp path_of_quotas path.now entries.old))) entries.old) }
    ensures err { OnErr result (entries.new ≡ entries.old) }
{
    let mut rows = rows_of(alloc, entries, path)?;
    change_rows(alloc, &mut rows, change)?;
    put_rows(alloc, entries, path, rows)
}

// Sets or removes a quota of whom the record speaks. At `Err` nothing has changed.
fn change_entries(
    alloc: Global,
    entries: &mut Blocks<QuotaEntry>,
    change: &ClientQuotaRecord,
) -> Result<(), NoMemory>
    requires order { AreQuotasInOrder entries.old }
    requires read { All IsEntityRead entries.old }
    requires named { has_quota (quota_key change.now.entity) change.now.key ≡ true }
    ensures ok { OnOk result (entries.new ≡ quota_changed change.now (quota_key change.now.entity) entries.old) }
    ensures err { OnErr result (entries.new ≡ entries.old) }
    ensures read { All IsEntityRead entries.new }
{
    let Some(key) = quota_key(change.entity.as_slice()) else {
        return Ok(());
    };
    let Some(path) = path_of(&key) else {
        return Ok(());
    };
    change_under(alloc, entries, path.bytes(), change)?;
    Ok(())
}

impl QuotaList {
    /// No quotas.
    pub fn new(alloc: Global) -> Self
        ensures { result ≡ [] }
    {
        QuotaList {
            entries: Blocks::new(alloc),
        }
    }

    /// Lends the entities with their quotas, by rising path.
    pub fn entries(&self) -> &Blocks<QuotaEntry>
        ensures entries { result.now ≡ self.now }
        ensures read { All IsEntityRead self.now }
    {
        &self.entries
    }

    /// The quotas of an entity. What is no entity has none.
    pub fn of(&self, key: &EntityKey) -> Option<&Sequence<QuotaRow>>
        requires { AreQuotasInOrder self.now }
        ensures { option_map (λ quotas. quotas.now) result ≡ (if is_legal key.now then option_map (λ q. q.quotas) (find_in bytes_cmp path_of_quotas (path_of key.now) self.now) else None) }
    {
        quotas_of(&self.entries, key)
    }

    /// Sets or removes a quota of whom the record speaks. At `Err` nothing has changed.
    pub fn change(&mut self, alloc: Global, change: &ClientQuotaRecord) -> Result<(), NoMemory>
        requires order { AreQuotasInOrder self.old }
        requires named { has_quota (quota_key change.now.entity) change.now.key ≡ true }
        ensures ok { OnOk result (self.new ≡ quota_changed change.now (quota_key change.now.entity) self.old) }
        ensures err { OnErr result (self.new ≡ self.old) }
    {
        change_entries(alloc, &mut self.entries, change)?;
        Ok(())
    }
}

impl Duplicate for QuotaList {
    fn copy(&self, alloc: Global) -> Result<Self, NoMemory> {
        Ok(QuotaList {
            entries: self.entries.copy(alloc)?,
        })
    }
}
