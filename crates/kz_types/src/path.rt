//! A path of a znode.
ghost use Rattle.std.specs.Cmp.{partial_equiv_from_equiv};
ghost use Rattle.std.specs.Cmp.Lexicographic.{pointwise, nat_list_eq_equiv};
ghost use Rattle.std.specs.Prelude.{◌≡◌, List, ℕ, nat_eq, true, false, MatchResult};
ghost use Rattle.kz_types.specs.PathRule.{is_path, IsPathFault};

use crate::path_rule::{fault_place, path_text};
use crate::{Duplicate, NoMemory, PathFault, Text};
use std::alloc::Global;
use std::marker::Model;

/// The path of a znode, which contracts see as the list of its bytes. Paths are ordered by bytes.
///
/// A path is UTF-8 of 2 to [`MAX_PATH_BYTES`](crate::MAX_PATH_BYTES) bytes. It begins with `/`, one `/` stands between its parts, and it doesn't end with
/// one. No part is empty, `.` or `..`, and no character is below U+0020 or is U+007F.
#[derive(Drop)]
pub struct ZPath {
    text: Text,
}

impl Model for ZPath {
    ghost Value = { List ℕ };

    ghost view = { λ p. p.text };

    ghost invariant = { λ p. is_path p.text ≡ true };
}

impl ZPath {
    /// The path that the bytes are. `BadName` exactly where they are none, with the place of the first byte at which no
    /// path goes on, or their length where they end too early or are too many.
    pub fn new(alloc: Global, bytes: &[u8]) -> Result<ZPath, PathFault>
        ensures { MatchResult result (λ path. (path ≡ bytes.now) × (is_path bytes.now ≡ true)) (IsPathFault bytes.now) }
    {
        let Some(text) = path_text(bytes) else {
            return Err(PathFault::BadName {
                at: fault_place(bytes),
            });
        };
        match Text::from_str(alloc, text) {
            Ok(text) => Ok(ZPath { text }),
            Err(NoMemory) => Err(PathFault::NoMemory),
        }
    }

    /// The path that a text is.
    pub fn from_text(text: Text) -> ZPath
        requires { is_path text ≡ true }
        ensures { result ≡ text }
    {
        ZPath { text }
    }

    /// Lends the bytes.
    pub fn bytes(&self) -> &[u8]
        ensures value { result.now ≡ self.now }
        ensures rule { is_path result.now ≡ true }
    {
        self.text.bytes()
    }

    /// Lends the text.
    pub fn as_str(&self) -> &str
        ensures value { result.now ≡ self.now }
        ensures rule { is_path result.now ≡ true }
    {
        self.text.as_str()
    }
}

impl PartialEq for ZPath {
    ghost eq = { pointwise nat_eq };

    ghost laws = { partial_equiv_from_equiv nat_list_eq_equiv };

    fn eq(&self, other: &ZPath) -> bool {
        self.bytes() == other.bytes()
    }
}

impl Duplicate for ZPath {
    fn copy(&self, alloc: Global) -> Result<Self, NoMemory> {
        Ok(ZPath {
            text: self.text.copy(alloc)?,
        })
    }
}
