//! The paths that keys of entities span.
ghost use Rattle.std.specs.Prelude.{◌≡◌, ◌++◌, [], true, IfOk, OnOk, All, string_bytes, codes};
ghost use Rattle.std.specs.List.{flat_map};
ghost use Rattle.std.specs.Fmt.{signed_decimal};
ghost use Rattle.kz_types.specs.Paths.{path_of, is_legal};
ghost use Rattle.kz_types.specs.declared.key.EntityKey.TheVariants as key;
ghost use Rattle.kz_spec_data.specs.Rendering.{partitions_path, number_path};
ghost use Rattle.kz_spec_data.specs.Spans.{clients_path};
ghost use Rattle.kz_writer.specs.PathLists.{path_of_spanned, path_or_nothing, spanned_by, spanned_by_all};

use kz_path::{path_of, sanitise};
use kz_sorted::{Keyed, put_all};
use kz_types::{EntityKey, NoMemory, PathFault, Text, ZPath};
use std::alloc::Global;

/// A path that a key spans.
#[derive(Drop)]
pub struct SpannedPath {
    /// The path.
    pub path: ZPath,
}

impl Keyed for SpannedPath {
    ghost key = { λ s. s.path };

    fn key(&self) -> &[u8] {
        self.path.bytes()
    }
}

// ---- texts of paths

#[tactic(auto, unfolding(kz_types::specs::Paths::path_of))]
fn topic_text(alloc: Global, name: &Text) -> Result<Vec<u8>, NoMemory>
    ensures { IfOk result (λ text. text.items ≡ path_of (key.Topic name.now)) }
{
    let mut text = b"/brokers/topics/".to_vec(alloc)?;
    text.extend_from_slice(name.bytes())?;
    Ok(text)
}

// That of the parent of a topic's partitions.
fn partitions_text(alloc: Global, name: &Text) -> Result<Vec<u8>, NoMemory>
    ensures { IfOk result (λ text. text.items ≡ partitions_path name.now) }
{
    let mut text = topic_text(alloc, name)?;
    text.extend_from_slice(b"/partitions")?;
    Ok(text)
}

// A number as a part of a path, with the slash before it.
fn number_part(alloc: Global, number: i32) -> Result<String, NoMemory>
    ensures { IfOk result (λ part. string_bytes part ≡ codes "/" ++ signed_decimal number) }
{
    Ok(format!(in alloc; "/{number}")?)
}

// That of the parent of a partition's state.
fn number_text(alloc: Global, topic: &Text, number: i32) -> Result<Vec<u8>, NoMemory>
    ensures { IfOk result (λ text. text.items ≡ number_path topic.now number) }
{
    let mut text = partitions_text(alloc, topic)?;
    let part = number_part(alloc, number)?;
    text.extend_from_slice(part.as_bytes())?;
    Ok(text)
}

#[tactic(auto, unfolding(kz_types::specs::Paths::path_of))]
fn user_text(alloc: Global, user: &Option<Text>) -> Result<Vec<u8>, NoMemory>
    ensures { IfOk result (λ text. text.items ≡ path_of (key.User user.now)) }
{
    let mut text = b"/config/users/".to_vec(alloc)?;
    match user {
        Some(name) => {
            let part = sanitise(alloc, name)?;
            text.extend_from_slice(&part)?;
        }
        None => text.extend_from_slice(b"<default>")?,
    }
    Ok(text)
}

// That of the parent of a user's clients.
fn clients_text(alloc: Global, user: &Option<Text>) -> Result<Vec<u8>, NoMemory>
    ensures { IfOk result (λ text. text.items ≡ clients_path (key.User user.now)) }
{
    let mut text = user_text(alloc, user)?;
    text.extend_from_slice(b"/clients")?;
    Ok(text)
}

// ---- the paths of a key

// Adds the path of these bytes, where they are one.
fn push_path(alloc: Global, paths: &mut Vec<SpannedPath>, text: &[u8]) -> Result<(), NoMemory>
    ensures { OnOk result (paths.new.items ≡ paths.old.items ++ path_or_nothing text.now) }
{
    match ZPath::new(alloc, text) {
        Ok(path) => Ok(paths.push(SpannedPath { path })?),
        Err(PathFault::BadName { .. }) => Ok(()),
        Err(PathFault::NoMemory) => Err(NoMemory),
    }
}

// Adds the path of a key, where it has one.
fn push_own(alloc: Global, paths: &mut Vec<SpannedPath>, key: &EntityKey) -> Result<(), NoMemory>
    requires { is_legal key.now ≡ true }
    ensures { OnOk result (paths.new.items ≡ paths.old.items ++ path_or_nothing (path_of key.now)) }
{
    match path_of(alloc, key) {
        Ok(path) => Ok(paths.push(SpannedPath { path })?),
        Err(PathFault::BadName { .. }) => Ok(()),
        Err(PathFault::NoMemory) => Err(NoMemory),
    }
}

// Adds the path of a topic and that of the parent of its partitions.
fn push_topic(alloc: Global, paths: &mut Vec<SpannedPath>, name: &Text) -> Result<(), NoMemory>
    ensures { OnOk result (paths.new.items ≡ paths.old.items ++ (path_or_nothing (path_of (key.Topic name.now)) ++ path_or_nothing (partitions_path name.now))) }
{
    let topic = topic_text(alloc, name)?;
    push_path(alloc, paths, &topic)?;
    let partitions = partitions_text(alloc, name)?;
    push_path(alloc, paths, &partitions)
}

// Adds the path of a user and that of the parent of its clients.
fn push_user(
    alloc: Global,
    paths: &mut Vec<SpannedPath>,
    user: &Option<Text>,
) -> Result<(), NoMemory>
    ensures { OnOk result (paths.new.items ≡ paths.old.items ++ (path_or_nothing (path_of (key.User user.now)) ++ path_or_nothing (clients_path (key.User user.now)))) }
{
    let text = user_text(alloc, user)?;
    push_path(alloc, paths, &text)?;
    let clients = clients_text(alloc, user)?;
    push_path(alloc, paths, &clients)
}

// Adds the path of the parent of a partition's state.
fn push_number(
    alloc: Global,
    paths: &mut Vec<SpannedPath>,
    topic: &Text,
    number: i32,
) -> Result<(), NoMemory>
    ensures { OnOk result (paths.new.items ≡ paths.old.items ++ path_or_nothing (number_path topic.now number)) }
{
    let text = number_text(alloc, topic, number)?;
    push_path(alloc, paths, &text)
}

// Adds the paths that a key spans.
fn push_spanned(
    alloc: Global,
    paths: &mut Vec<SpannedPath>,
    key: &EntityKey,
) -> Result<(), NoMemory>
    requires { is_legal key.now ≡ true }
    ensures { OnOk result (paths.new.items ≡ paths.old.items ++ spanned_by key.now) }
{
    match key {
        EntityKey::Topic { name } => push_topic(alloc, paths, name),
        EntityKey::Partition { topic, number } => {
            push_topic(alloc, paths, topic)?;
            push_number(alloc, paths, topic, *number)?;
            push_own(alloc, paths, key)
        }
        EntityKey::UserClient { user, .. } => {
            push_user(alloc, paths, user)?;
            push_own(alloc, paths, key)
        }
        _ => push_own(alloc, paths, key),
    }
}

// ---- the paths of all keys

fn push_all(alloc: Global, paths: &mut Vec<SpannedPath>, keys: &[EntityKey]) -> Result<(), NoMemory>
    requires { All (λ k. is_legal k ≡ true) keys.now }
    ensures { OnOk result (paths.new.items ≡ paths.old.items ++ flat_map spanned_by keys.now) }
{
    for key in keys {
        push_spanned(alloc, paths, key)?;
    }
    Ok(())
}

/// The paths that keys span, by rising path, each once. What isn't a path is left out.
pub fn spanned_in_order(alloc: Global, keys: &[EntityKey]) -> Result<Vec<SpannedPath>, NoMemory>
    requires { All (λ k. is_legal k ≡ true) keys.now }
    ensures { IfOk result (λ paths. paths.items ≡ spanned_by_all keys.now) }
{
    let mut paths = Vec::new(alloc);
    push_all(alloc, &mut paths, keys)?;
    put_all(alloc, paths)
}
