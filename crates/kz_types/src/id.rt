//! Ids of topics and access control entries.
ghost use Rattle.std.specs.Prelude.{◌≡◌, Some, IfSome, option_map};
ghost use Rattle.kz_types.specs.Ids.{id_text, id_of};
ghost use Rattle.kz_types.specs.declared.id.Id.{Id};

use crate::{Duplicate, NoMemory};
use base64::engine::general_purpose::URL_SAFE_NO_PAD;
use std::alloc::Global;

/// The characters of an id.
const TEXT_LENGTH: usize = 22;

/// A 16-byte id, as Kafka's `Uuid`.
#[derive(Clone, Copy, Debug, PartialEq, Eq)]
pub struct Id {
    /// The bytes, the most significant first.
    pub bytes: [u8; 16],
}

impl Id {
    /// The id that a text of 22 characters of URL-safe base64 (RFC 4648, section 5) without padding is. Only the text
    /// that is written is read: the unused bits of the last character are zero.
    pub fn read(text: &[u8]) -> Option<Id>
        ensures value { option_map (λ id. id.bytes) result ≡ id_of text.now }
        ensures text { IfSome result (λ id. text.now ≡ id_text id.bytes) }
    {
        if text.len() != TEXT_LENGTH {
            return None;
        }
        let mut decoded = [0; 18];
        match URL_SAFE_NO_PAD.decode_slice_unchecked(text, &mut decoded) {
            Ok(count) => {
                if count != 16 {
                    return None;
                }
                let mut bytes = [0; 16];
                bytes.copy_from_slice(&decoded[..16]);
                Some(Id { bytes })
            }
            Err(_) => None,
        }
    }

    /// The text of an id.
    pub fn text(&self) -> [u8; 22]
        ensures text { result ≡ id_text self.now.bytes }
        ensures reads_back { id_of result ≡ Some self.now.bytes }
    {
        written(&self.bytes)
    }
}

/// The text of 16 bytes.
fn written(bytes: &[u8; 16]) -> [u8; 22]
    ensures text { result ≡ id_text bytes.now }
    ensures reads_back { id_of result ≡ Some bytes.now }
{
    let mut text = [0; 22];
    let _ = URL_SAFE_NO_PAD.encode_slice(bytes, &mut text);
    text
}

impl Duplicate for Id {
    fn copy(&self, _alloc: Global) -> Result<Self, NoMemory> {
        Ok(*self)
    }
}
