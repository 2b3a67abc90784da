//! What has a key of bytes.
ghost use Rattle.std.specs.Prelude.{◌≡◌, List, ℕ};

use kz_types::{
    AclEntry, Configuration, Pair, QuotaEntry, QuotaRow, Rendered, Row, ScramEntry, Shared,
    TopicEntry,
};

/// What has a key of bytes, by which lists of it are ordered.
pub trait Keyed {
    /// The key.
    ghost key: { Self → List ℕ };

    /// Lends the key.
    fn key(&self) -> &[u8]
        ensures { result.now ≡ key self.entry.now };
}

impl Keyed for Row {
    ghost key = { λ r. r.path };

    fn key(&self) -> &[u8] {
        self.path.bytes()
    }
}

impl Keyed for Rendered {
    ghost key = { λ r. r.path };

    fn key(&self) -> &[u8] {
        self.path.bytes()
    }
}

impl Keyed for Configuration {
    ghost key = { λ c. c.name };

    fn key(&self) -> &[u8] {
        self.name.bytes()
    }
}

impl Keyed for Pair {
    ghost key = { λ p. p.name };

    fn key(&self) -> &[u8] {
        self.name.bytes()
    }
}

impl Keyed for TopicEntry {
    ghost key = { λ t. t.name };

    fn key(&self) -> &[u8] {
        self.name.bytes()
    }
}

impl Keyed for QuotaEntry {
    ghost key = { λ q. q.path };

    fn key(&self) -> &[u8] {
        self.path.bytes()
    }
}

impl Keyed for QuotaRow {
    ghost key = { λ q. q.key };

    fn key(&self) -> &[u8] {
        self.key.bytes()
    }
}

impl Keyed for ScramEntry {
    ghost key = { λ u. u.name };

    fn key(&self) -> &[u8] {
        self.name.bytes()
    }
}

impl Keyed for AclEntry {
    ghost key = { λ a. a.id.bytes };

    fn key(&self) -> &[u8] {
        &self.id.bytes
    }
}

impl<T: Keyed> Keyed for Shared<T> {
    ghost key = { λ s. T.key s };

    fn key(&self) -> &[u8] {
        self.get().key()
    }
}
