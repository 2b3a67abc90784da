//! The znodes of quotas.
ghost use Rattle.std.specs.Prelude.{◌≡◌, ◌∷◌, ◌++◌, [], Some, All, true, codes, OnOk};
ghost use Rattle.std.specs.List.{flat_map};
ghost use Rattle.kz_types.specs.Paths.{key_of, path_of, is_legal, has_path};
ghost use Rattle.kz_types.specs.PathRule.{is_path};
ghost use Rattle.kz_json.specs.Entries.{are_quotas};
ghost use Rattle.kz_spec_data.specs.InOrder.{IsUserFilled};
ghost use Rattle.kz_spec_data.specs.Legal.{IsQuotaEntry, IsScramEntry};
ghost use Rattle.kz_spec_data.specs.Rendering.{bare, client_parents, quota_parents, own_znodes, quota_znodes};

use crate::paths::{entity_path, path_after};
use crate::push::{push_bare, push_znode};
use crate::quota_body::quota_text;
use crate::users::push_users;
use kz_path::key_of;
use kz_sorted::Blocks;
use kz_types::{Duplicate, EntityKey, NoMemory, QuotaEntry, Rendered, ScramEntry, ZPath};
use std::alloc::Global;

// Adds the parents of a user's client.
fn push_client_parents(
    alloc: Global,
    znodes: &mut Vec<Rendered>,
    user: EntityKey,
) -> Result<(), NoMemory>
    requires legal { is_legal user ≡ true }
    requires path { has_path user ≡ true }
    requires clients { is_path (path_of user ++ codes "/clients") ≡ true }
    ensures { OnOk result (znodes.new.items ≡ znodes.old.items ++ (bare (path_of user) ∷ bare (path_of user ++ codes "/clients") ∷ [])) }
{
    let path = entity_path(alloc, &user)?;
    let clients = path_after(alloc, &path, "/clients")?;
    push_bare(alloc, znodes, path)?;
    push_bare(alloc, znodes, clients)
}

// Adds the parents of the entity at a path, where it is a user's client.
fn push_parents_of(
    alloc: Global,
    znodes: &mut Vec<Rendered>,
    path: &ZPath,
    key: EntityKey,
) -> Result<(), NoMemory>
    requires { key_of path.now ≡ Some key }
    ensures { OnOk result (znodes.new.items ≡ znodes.old.items ++ client_parents (Some key)) }
{
    let _rule = path.bytes();
    match key {
        EntityKey::UserClient {
            user,
            client: _client,
        } => push_client_parents(alloc, znodes, EntityKey::User { user }),
        _ => Ok(()),
    }
}

// Adds the parents of an entity, where it is a user's client.
fn push_parents(
    alloc: Global,
    znodes: &mut Vec<Rendered>,
    entry: &QuotaEntry,
) -> Result<(), NoMemory>
    ensures { OnOk result (znodes.new.items ≡ znodes.old.items ++ quota_parents entry.now) }
{
    match key_of(alloc, &entry.path)? {
        Some(key) => push_parents_of(alloc, znodes, &entry.path, key),
        None => Ok(()),
    }
}

// Adds the znode of an entity with quotas.
fn push_own(alloc: Global, znodes: &mut Vec<Rendered>, entry: &QuotaEntry) -> Result<(), NoMemory>
    requires { are_quotas entry.now.quotas ≡ true }
    ensures { OnOk result (znodes.new.items ≡ znodes.old.items ++ own_znodes entry.now) }
{
    match key_of(alloc, &entry.path)? {
        Some(_) => {
            let text = quota_text(alloc, entry.quotas.as_slice(), &[])?;
            push_znode(znodes, entry.path.copy(alloc)?, text)
        }
        None => Ok(()),
    }
}

// Adds the parents of all entities with quotas.
fn push_all_parents(
    alloc: Global,
    znodes: &mut Vec<Rendered>,
    entries: &Blocks<QuotaEntry>,
) -> Result<(), NoMemory>
    ensures { OnOk result (znodes.new.items ≡ znodes.old.items ++ flat_map quota_parents entries.now) }
{
    for entry in entries.items() {
        push_parents(alloc, znodes, entry)?;
    }
    Ok(())
}

// Adds the znodes of all entities with quotas.
#[tactic(auto, using(crate::proofs::QuotaLists::entry_quotas))]
fn push_all_own(
    alloc: Global,
    znodes: &mut Vec<Rendered>,
    entries: &Blocks<QuotaEntry>,
) -> Result<(), NoMemory>
    requires { All IsQuotaEntry entries.now }
    ensures { OnOk result (znodes.new.items ≡ znodes.old.items ++ flat_map own_znodes entries.now) }
{
    for entry in entries.items() {
        push_own(alloc, znodes, entry)?;
    }
    Ok(())
}

/// Adds the znodes of all entities with quotas, of the parents of users' clients, and of users with credentials.
pub fn push_quotas(
    alloc: Global,
    znodes: &mut Vec<Rendered>,
    entries: &Blocks<QuotaEntry>,
    users: &Blocks<ScramEntry>,
) -> Result<(), NoMemory>
    requires quotas { All IsQuotaEntry entries.now }
    requires filled { All IsUserFilled users.now }
    requires legal { All IsScramEntry users.now }
    ensures { OnOk result (znodes.new.items ≡ znodes.old.items ++ quota_znodes entries.now users.now) }
{
    push_all_parents(alloc, znodes, entries)?;
    push_all_own(alloc, znodes, entries)?;
    push_users(alloc, znodes, entries, users)
}
