//! The znodes of users with credentials.
ghost use Rattle.std.specs.Prelude.{◌≡◌, ◌∷◌, ◌++◌, [], Some, All, true, map, IfOk, OnOk};
ghost use Rattle.kz_types.specs.declared.key.EntityKey.TheVariants as key;
ghost use Rattle.kz_types.specs.Paths.{path_of, is_legal, has_path};
ghost use Rattle.kz_types.specs.Order.{bytes_cmp};
ghost use Rattle.kz_types.specs.Ordered.{find as find_in};
ghost use Rattle.kz_json.specs.Entries.{are_quotas};
ghost use Rattle.kz_spec_data.specs.Metadata.{path_of_quotas};
ghost use Rattle.kz_spec_data.specs.Image.{quotas_in};
ghost use Rattle.kz_spec_data.specs.InOrder.{IsUserFilled};
ghost use Rattle.kz_spec_data.specs.Legal.{IsQuotaEntry, IsScramEntry};
ghost use Rattle.kz_spec_data.specs.Rendering.{user_znode};

use crate::paths::entity_path;
use crate::push::push_znode;
use crate::quota_body::quota_text;
use kz_sorted::Blocks;
use kz_types::{
    Duplicate, EntityKey, NoMemory, QuotaEntry, QuotaRow, Rendered, ScramEntry, Text, ZPath,
};
use std::alloc::Global;

// The path of a user.
fn user_path(alloc: Global, name: &Text) -> Result<ZPath, NoMemory>
    requires legal { is_legal (key.User (Some name.now)) ≡ true }
    requires rule { has_path (key.User (Some name.now)) ≡ true }
    ensures { IfOk result (λ path. path ≡ path_of (key.User (Some name.now))) }
{
    let key = EntityKey::User {
        user: Some(name.copy(alloc)?),
    };
    entity_path(alloc, &key)
}

/// The quotas of the entity at a path, where it has some.
pub fn quotas_at<'a>(entries: &'a Blocks<QuotaEntry>, path: &[u8]) -> &'a [QuotaRow]
    requires { All IsQuotaEntry entries.now }
    ensures quotas { result.now ≡ quotas_in (find_in bytes_cmp path_of_quotas path.now entries.entry.now) }
    ensures range { are_quotas result.now ≡ true }
{
    match entries.find(path) {
        Some(entry) => entry.quotas.as_slice(),
        None => &[],
    }
}

// Adds the znode of a user with credentials, and with its quotas.
fn push_user(
    alloc: Global,
    znodes: &mut Vec<Rendered>,
    entries: &Blocks<QuotaEntry>,
    user: &ScramEntry,
) -> Result<(), NoMemory>
    requires quotas { All IsQuotaEntry entries.now }
    requires filled { IsUserFilled user.now }
    requires legal { IsScramEntry user.now }
    ensures { OnOk result (znodes.new.items ≡ znodes.old.items ++ user_znode entries.now user.now ∷ []) }
{
    let path = user_path(alloc, &user.name)?;
    let quotas = quotas_at(entries, path.bytes());
    let text = quota_text(alloc, quotas, user.scrams.as_slice())?;
    push_znode(znodes, path, text)
}

/// Adds the znodes of all users with credentials.
pub fn push_users(
    alloc: Global,
    znodes: &mut Vec<Rendered>,
    entries: &Blocks<QuotaEntry>,
    users: &Blocks<ScramEntry>,
) -> Result<(), NoMemory>
    requires quotas { All IsQuotaEntry entries.now }
    requires filled { All IsUserFilled users.now }
    requires legal { All IsScramEntry users.now }
    ensures { OnOk result (znodes.new.items ≡ znodes.old.items ++ map (user_znode entries.now) users.now) }
{
    for user in users.items() {
        push_user(alloc, znodes, entries, user)?;
    }
    Ok(())
}
