//! The paths of the table, made of their texts.
ghost use Rattle.std.specs.Prelude.{◌≡◌, ◌∷◌, true, map, codes, length, vec_len, IfOk};
ghost use Rattle.std.specs.List.{list_all};
ghost use Rattle.kz_types.specs.PathRule.{is_path};
ghost use Rattle.kz_types.specs.Paths.{roots, base_paths, control_paths};
ghost use Rattle.kz_spec_data.specs.Control.{control_path, epoch_path, migration_path};

use crate::texts::{
    CONTROL_TEXT, EPOCH_TEXT, MIGRATION_TEXT, TOPICS_TEXT, base_texts, control_texts, root_texts,
};
use kz_types::{NoMemory, Text, ZPath};
use std::alloc::Global;

/// The path that a text is.
fn path(alloc: Global, text: &str) -> Result<ZPath, NoMemory>
    requires { is_path text.now ≡ true }
    ensures { IfOk result (λ path. path ≡ text.now) }
{
    Ok(ZPath::from_text(Text::from_str(alloc, text)?))
}

/// The path [`CONTROL_TEXT`].
#[tactic(auto, unfolding(kz_types::proofs::OnLiterals::values_on_literals))]
pub fn control_path(alloc: Global) -> Result<ZPath, NoMemory>
    ensures { IfOk result (λ path. path ≡ control_path) }
{
    path(alloc, CONTROL_TEXT)
}

/// The path [`EPOCH_TEXT`].
#[tactic(auto, unfolding(kz_types::proofs::OnLiterals::values_on_literals))]
pub fn epoch_path(alloc: Global) -> Result<ZPath, NoMemory>
    ensures { IfOk result (λ path. path ≡ epoch_path) }
{
    path(alloc, EPOCH_TEXT)
}

/// The path [`MIGRATION_TEXT`].
#[tactic(auto, unfolding(kz_types::proofs::OnLiterals::values_on_literals))]
pub fn migration_path(alloc: Global) -> Result<ZPath, NoMemory>
    ensures { IfOk result (λ path. path ≡ migration_path) }
{
    path(alloc, MIGRATION_TEXT)
}

/// The path [`TOPICS_TEXT`].
#[tactic(auto, unfolding(kz_types::proofs::OnLiterals::values_on_literals))]
pub fn topics_path(alloc: Global) -> Result<ZPath, NoMemory>
    ensures { IfOk result (λ path. path ≡ codes "/brokers/topics") }
{
    path(alloc, TOPICS_TEXT)
}

/// The paths that texts are.
fn paths(alloc: Global, texts: &[&str]) -> Result<Vec<ZPath>, NoMemory>
    requires { list_all is_path (map (λ t. t.now) texts.now) ≡ true }
    ensures paths { IfOk result (λ paths. paths.items ≡ map (λ t. t.now) texts.now) }
    ensures count { IfOk result (λ paths. vec_len paths ≡ length texts.now) }
{
    let mut paths = Vec::new(alloc);
    for text in texts {
        paths.push(path(alloc, text)?)?;
    }
    Ok(paths)
}

/// The paths of the 17 roots, in path order.
pub fn root_paths(alloc: Global) -> Result<Vec<ZPath>, NoMemory>
    ensures paths { IfOk result (λ paths. paths.items ≡ roots) }
    ensures count { IfOk result (λ paths. vec_len paths ≡ 17) }
{
    paths(alloc, root_texts())
}

/// The paths of the 5 parents of roots, in path order.
pub fn base_paths(alloc: Global) -> Result<Vec<ZPath>, NoMemory>
    ensures paths { IfOk result (λ paths. paths.items ≡ base_paths) }
    ensures count { IfOk result (λ paths. vec_len paths ≡ 5) }
{
    paths(alloc, base_texts())
}

/// The paths of the 3 control znodes, in path order.
pub fn control_paths(alloc: Global) -> Result<Vec<ZPath>, NoMemory>
    ensures paths { IfOk result (λ paths. paths.items ≡ control_paths) }
    ensures count { IfOk result (λ paths. vec_len paths ≡ 3) }
{
    paths(alloc, control_texts())
}

/// The paths of the control znodes, and after them those of the parents of roots.
#[tactic(auto, unfolding(kz_types::specs::Paths::control_paths))]
pub fn control_and_base_paths(alloc: Global) -> Result<Vec<ZPath>, NoMemory>
    ensures paths { IfOk result (λ paths. paths.items ≡ control_path ∷ epoch_path ∷ migration_path ∷ base_paths) }
    ensures count { IfOk result (λ paths. vec_len paths ≡ 8) }
{
    let mut bases = base_paths(alloc)?;
    let mut paths = control_paths(alloc)?;
    paths.append(&mut bases)?;
    Ok(paths)
}
