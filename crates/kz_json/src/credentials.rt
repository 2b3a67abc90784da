//! Credentials, as configurations of users have them.
ghost use Rattle.std.specs.Prelude.{◌≡◌, ◌==◌, IfOk, map, option_map};
ghost use Rattle.std.specs.List.{slice_split};
ghost use Rattle.base64.specs.Engines.{standard};
ghost use Rattle.base64.specs.GeneralPurpose.{decoded_of};
ghost use Rattle.kz_spec_data.specs.Credentials.{after_name, value_of, bytes_of, iterations_of, credential_of_pieces, credential_of};

use base64::DecodeAllocError;
use base64::engine::general_purpose::STANDARD;
use kz_types::{NoMemory, ScramRow, Sequence, canonical};
use std::alloc::Global;

/// What follows a name and `=`, in a piece that begins with them.
fn after_name<'a>(name: &str, piece: &'a str) -> Option<&'a [u8]>
    ensures { option_map (λ value. value.now) result ≡ after_name name.now piece.now }
{
    let rest = piece.as_bytes().strip_prefix(name.as_bytes())?;
    rest.strip_prefix(b"=".as_slice())
}

/// The value of the first piece of that name.
fn value_of<'a>(name: &str, pieces: &[&'a str]) -> Option<&'a [u8]>
    ensures { option_map (λ value. value.now) result ≡ value_of name.now (map (λ piece. piece.now) pieces.now) }
{
    for piece in pieces {
        if let Some(value) = after_name(name, piece) {
            return Some(value);
        }
    }
    None
}

/// The bytes that base64 with its padding spells.
fn decoded(alloc: Global, text: &[u8]) -> Result<Option<Sequence<u8>>, NoMemory>
    ensures { IfOk result (λ bytes. bytes ≡ decoded_of standard text.now) }
{
    match STANDARD.decode(alloc, text) {
        Ok(bytes) => Ok(Some(Sequence::from_vec(bytes))),
        Err(DecodeAllocError::DecodeError(_)) => Ok(None),
        Err(DecodeAllocError::OutOfMemory) => Err(NoMemory),
    }
}

/// The bytes that a member's base64 spells.
fn bytes_of(alloc: Global, name: &str, pieces: &[&str]) -> Result<Option<Sequence<u8>>, NoMemory>
    ensures { IfOk result (λ bytes. bytes ≡ bytes_of name.now (map (λ piece. piece.now) pieces.now)) }
{
    match value_of(name, pieces) {
        Some(value) => decoded(alloc, value),
        None => Ok(None),
    }
}

/// The iterations: at least one.
fn iterations_of(pieces: &[&str]) -> Option<i32>
    ensures { result ≡ iterations_of (map (λ piece. piece.now) pieces.now) }
{
    let iterations = canonical(value_of("iterations", pieces)?)?;
    if iterations == 0 {
        None
    } else {
        Some(iterations as i32)
    }
}

/// The credential that pieces are, where there is one of each name.
fn credential_of_pieces(alloc: Global, pieces: &[&str]) -> Result<Option<ScramRow>, NoMemory>
    ensures { IfOk result (λ row. row ≡ credential_of_pieces (map (λ piece. piece.now) pieces.now)) }
{
    let Some(salt) = bytes_of(alloc, "salt", pieces)? else {
        return Ok(None);
    };
    let Some(stored_key) = bytes_of(alloc, "stored_key", pieces)? else {
        return Ok(None);
    };
    let Some(server_key) = bytes_of(alloc, "server_key", pieces)? else {
        return Ok(None);
    };
    let Some(iterations) = iterations_of(pieces) else {
        return Ok(None);
    };
    Ok(Some(ScramRow {
        salt,
        stored_key,
        server_key,
        iterations,
    }))
}

/// The pieces of a text between commas.
fn pieces_of<'a>(alloc: Global, text: &'a str) -> Result<Vec<&'a str>, NoMemory>
    ensures { IfOk result (λ pieces. map (λ piece. piece.now) pieces.items ≡ slice_split (λ b. b == 44) text.now) }
{
    Ok(text.split(',').collect(alloc)?)
}

/// The credential that a text is: its members `salt`, `stored_key` and `server_key` in base64 and `iterations`, each
/// once and in any order. `None` where it is none.
#[tactic(auto, unfolding(kz_spec_data::specs::Credentials::credential_of))]
pub fn credential_of(alloc: Global, text: &str) -> Result<Option<ScramRow>, NoMemory>
    ensures { IfOk result (λ row. row ≡ credential_of text.now) }
{
    let pieces = pieces_of(alloc, text)?;
    if pieces.len() == 4 {
        credential_of_pieces(alloc, &pieces)
    } else {
        Ok(None)
    }
}
