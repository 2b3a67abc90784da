//! Where a path stands to the znodes of the table: at one of them, or below one.
ghost use Rattle.std.specs.Prelude.{◌≡◌, ◌||◌, bytes_eq};
ghost use Rattle.std.specs.List.{list_any};
ghost use Rattle.kz_types.specs.Paths.{roots, base_paths, control_paths, is_among, is_below, is_migrated};
ghost use Rattle.kz_spec_data.specs.Control.{control_path, epoch_path, migration_path, broker_ids_path};

use crate::texts::{
    BROKER_IDS_TEXT, CONTROL_TEXT, EPOCH_TEXT, MIGRATION_TEXT, base_texts, control_texts,
    root_texts,
};
use kz_order::{are_equal, begins_with};

/// Whether a path is at another or below it. Most paths have no slash where the other ends, so that is looked at first.
fn is_at_or_below(above: &[u8], path: &[u8]) -> bool
    ensures { result ≡ (bytes_eq path.now above.now || is_below above.now path.now) }
{
    if above.len() < path.len() && path[above.len()] != b'/' {
        return false;
    }
    begins_with(path, above) && (path.len() == above.len() || path[above.len()] == b'/')
}

/// Whether a path is below another.
fn is_below(above: &[u8], path: &[u8]) -> bool
    ensures { result ≡ is_below above.now path.now }
{
    begins_with(path, above) && above.len() < path.len() && path[above.len()] == b'/'
}

/// Whether a path is one of these texts.
fn is_among(texts: &[&str], path: &[u8]) -> bool
    ensures { result ≡ list_any (λ t. bytes_eq path.now t.now) texts.now }
{
    texts.iter().any(|text| are_equal(path, text.as_bytes()))
}

/// Whether a path is below one of these texts.
fn is_below_any(texts: &[&str], path: &[u8]) -> bool
    ensures { result ≡ list_any (λ t. is_below t.now path.now) texts.now }
{
    texts.iter().any(|text| is_below(text.as_bytes(), path))
}

/// Whether a path is at or below one of these texts.
fn is_at_or_below_any(texts: &[&str], path: &[u8]) -> bool
    ensures { result ≡ list_any (λ t. bytes_eq path.now t.now || is_below t.now path.now) texts.now }
{
    texts
        .iter()
        .any(|text| is_at_or_below(text.as_bytes(), path))
}

/// Whether a path is a root.
pub fn is_root(path: &[u8]) -> bool
    ensures { result ≡ is_among roots path.now }
{
    is_among(root_texts(), path)
}

/// Whether a path is a parent of roots.
pub fn is_base(path: &[u8]) -> bool
    ensures { result ≡ is_among base_paths path.now }
{
    is_among(base_texts(), path)
}

/// Whether a path is a control znode.
pub fn is_control(path: &[u8]) -> bool
    ensures { result ≡ is_among control_paths path.now }
{
    is_among(control_texts(), path)
}

/// Whether a path is below a control znode.
pub fn is_below_control(path: &[u8]) -> bool
    ensures { result ≡ list_any (λ control. is_below control path.now) control_paths }
{
    is_below_any(control_texts(), path)
}

/// Whether a path is at or below a root.
#[tactic(auto, unfolding(kz_types::specs::Paths::is_migrated))]
pub fn is_migrated(path: &[u8]) -> bool
    ensures { result ≡ is_migrated path.now }
{
    is_at_or_below_any(root_texts(), path)
}

/// Whether a path is [`CONTROL_TEXT`].
pub fn is_controller_path(path: &[u8]) -> bool
    ensures { result ≡ bytes_eq path.now control_path }
{
    are_equal(path, CONTROL_TEXT.as_bytes())
}

/// Whether a path is [`EPOCH_TEXT`].
pub fn is_epoch_path(path: &[u8]) -> bool
    ensures { result ≡ bytes_eq path.now epoch_path }
{
    are_equal(path, EPOCH_TEXT.as_bytes())
}

/// Whether a path is [`MIGRATION_TEXT`].
pub fn is_migration_path(path: &[u8]) -> bool
    ensures { result ≡ bytes_eq path.now migration_path }
{
    are_equal(path, MIGRATION_TEXT.as_bytes())
}

/// Whether a path is [`BROKER_IDS_TEXT`].
pub fn is_broker_ids_path(path: &[u8]) -> bool
    ensures { result ≡ bytes_eq path.now broker_ids_path }
{
    are_equal(path, BROKER_IDS_TEXT.as_bytes())
}
