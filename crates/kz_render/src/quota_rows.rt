//! The bodies of quotas and credentials, and whether there are quotas below a path.
ghost use Rattle.std.specs.Prelude.{◌≡◌, ◌++◌, ℕ, List, true, option_map, IfOk, codes};
ghost use Rattle.kz_json.specs.Entries.{are_quotas};
ghost use Rattle.kz_spec_data.specs.Bodies.{text_of_body};
ghost use Rattle.kz_spec_data.specs.Entities.{quota_body};
ghost use Rattle.kz_spec_data.specs.Lookups.{has_quotas_below, first_above, is_entry_below};

use crate::quota_text;
use kz_image::Image;
use kz_sorted::Blocks;
use kz_types::{NoMemory, QuotaEntry, QuotaRow, ScramPair, ZPath};
use std::alloc::Global;

/// The text of quotas and credentials, where there are some.
pub fn quota_body(
    alloc: Global,
    quotas: &[QuotaRow],
    scrams: &[ScramPair],
) -> Result<Option<Vec<u8>>, NoMemory>
    requires { are_quotas quotas.now ≡ true }
    ensures { IfOk result (λ body. option_map (λ b. b.items) body ≡ option_map text_of_body (quota_body quotas.now scrams.now)) }
{
    if quotas.is_empty() && scrams.is_empty() {
        return Ok(None);
    }
    let text = quota_text(alloc, quotas, scrams)?;
    Ok(Some(text))
}

// A path and a slash.
fn with_slash(alloc: Global, path: &ZPath) -> Result<Vec<u8>, NoMemory>
    ensures { IfOk result (λ text. text.items ≡ path.now ++ codes "/") }
{
    let mut text = path.bytes().to_vec(alloc)?;
    text.extend_from_slice(b"/")?;
    Ok(text)
}

// The first entry with a path above this one.
fn first_above<'a>(entries: &'a Blocks<QuotaEntry>, path: &[u8]) -> Option<&'a QuotaEntry>
    ensures { option_map (λ q. q.now) result ≡ first_above path.now entries.entry.now }
{
    entries.next_after(Some(path))
}

// Whether an entry has a path that begins with this one, which ends with a slash.
fn is_entry_below(entry: Option<&QuotaEntry>, front: &[u8]) -> bool
    ensures { (path : List ℕ) → front.now ≡ path ++ codes "/" → result ≡ is_entry_below path (option_map (λ q. q.now) entry.entry) }
{
    match entry {
        Some(entry) => entry.path.bytes().starts_with(front),
        None => false,
    }
}

/// Whether an entity with quotas has a path below this one. One entry is looked at.
pub fn has_quotas_below(alloc: Global, image: &Image, path: &ZPath) -> Result<bool, NoMemory>
    ensures { IfOk result (λ below. below ≡ has_quotas_below path.now image.now) }
{
    let front = with_slash(alloc, path)?;
    let entry = first_above(image.quota_entries(), &front);
    Ok(is_entry_below(entry, &front))
}
