//! Paths of entities, gathered without memory.

ghost use Rattle.std.specs.Prelude.{◌≡◌, ◌+◌, ◌<◌, ◌≤◌, ◌*◌, ◌/◌, ◌%◌, ℕ, ℤ, pos, ◌≤ℤ◌, true, false, List, [], ◌∷◌, ◌++◌, length, if◌then◌else◌, codes, decimal};
ghost use Rattle.std.specs.Fmt.{signed_decimal};
ghost use Rattle.std.specs.Ordering.{int_eq};
ghost use Rattle.kz_types.specs.Paths.{hex_digit, is_plain, sanitised_byte, part_for_name, part_or_default, resource_type_name, is_absent_or, is_not_negative, is_legal, path_of, has_path};

use kz_types::{EntityKey, MAX_PATH_BYTES, Text, keeps_rule};
use std::marker::Model;

/// The first bytes of a path, as far as a path may be long, which contracts see as their list.
#[derive(Drop)]
pub struct PathBuffer {
    bytes: [u8; MAX_PATH_BYTES],
    len: usize,
}

impl Model for PathBuffer {
    ghost use Rattle.std.specs.Prelude.{◌≡◌, ◌≤◌, ℕ, List, length, take};
    ghost use Rattle.kz_types.specs.declared.limits.TheConstants.{MAX_PATH_BYTES};

    ghost Value = { List ℕ };

    ghost view = { λ b. take b.len b.bytes };

    ghost invariant = { λ b. (b.len ≤ MAX_PATH_BYTES) × (length b.bytes ≡ MAX_PATH_BYTES) };
}

impl PathBuffer {
    /// No bytes yet.
    pub fn new() -> PathBuffer
        ensures { result ≡ [] }
    {
        PathBuffer {
            bytes: [0; MAX_PATH_BYTES],
            len: 0,
        }
    }

    /// Lends the bytes.
    pub fn bytes(&self) -> &[u8]
        ensures value { result.now ≡ self.now }
    {
        &self.bytes[..self.len]
    }

    /// Adds bytes. `false`: they make it longer than a path.
    pub fn push(&mut self, part: &[u8]) -> bool
        ensures added { result ≡ true → self.new ≡ self.old ++ part.now }
        ensures too_long { result ≡ false → MAX_PATH_BYTES < length self.old + length part.now }
    {
        if MAX_PATH_BYTES - self.len < part.len() {
            return false;
        }
        let end = self.len + part.len();
        self.bytes[self.len..end].copy_from_slice(part);
        self.len = end;
        true
    }

    /// Adds one text and then another.
    fn push_both(&mut self, front: &[u8], back: &[u8]) -> bool
        ensures added { result ≡ true → self.new ≡ self.old ++ (front.now ++ back.now) }
        ensures too_long { result ≡ false → MAX_PATH_BYTES < length self.old + length (front.now ++ back.now) }
    {
        self.push(front) && self.push(back)
    }

    /// Adds the decimal text of a number.
    fn push_decimal(&mut self, number: u32) -> bool
        ensures added { result ≡ true → self.new ≡ self.old ++ decimal number }
        ensures too_long { result ≡ false → MAX_PATH_BYTES < length self.old + length (decimal number) }
    {
        if 10 <= number && !self.push_decimal(number / 10) {
            return false;
        }
        self.push(&[b'0' + (number % 10) as u8])
    }

    /// Adds a byte of a name as it stands, or as `%` and its two digits.
    fn push_sanitised_byte(&mut self, byte: u8) -> bool
        ensures added { result ≡ true → self.new ≡ self.old ++ sanitised_byte byte }
        ensures too_long { result ≡ false → MAX_PATH_BYTES < length self.old + length (sanitised_byte byte) }
    {
        if is_plain(byte) {
            self.push(&[byte])
        } else {
            self.push(&[b'%', hex_digit(byte / 16), hex_digit(byte % 16)])
        }
    }

    /// Adds the part that a name is written as.
    pub fn push_sanitised(&mut self, name: &[u8]) -> bool
        ensures added { result ≡ true → self.new ≡ self.old ++ part_for_name name.now }
        ensures too_long { result ≡ false → MAX_PATH_BYTES < length self.old + length (part_for_name name.now) }
    {
        for at in 0..name.len() {
            if !self.push_sanitised_byte(name[at]) {
                return false;
            }
        }
        true
    }

    /// Adds the part of the default, or of a name.
    pub fn push_name(&mut self, name: &Option<Text>) -> bool
        ensures added { result ≡ true → self.new ≡ self.old ++ part_or_default part_for_name name.now }
        ensures too_long { result ≡ false → MAX_PATH_BYTES < length self.old + length (part_or_default part_for_name name.now) }
    {
        match name {
            Some(name) => self.push_sanitised(name.bytes()),
            None => self.push(b"<default>"),
        }
    }

    /// Adds the part of the default, or of an address.
    pub fn push_address(&mut self, address: &Option<Text>) -> bool
        ensures added { result ≡ true → self.new ≡ self.old ++ part_or_default (λ a. a) address.now }
        ensures too_long { result ≡ false → MAX_PATH_BYTES < length self.old + length (part_or_default (λ a. a) address.now) }
    {
        match address {
            Some(address) => self.push(address.bytes()),
            None => self.push(b"<default>"),
        }
    }

    /// Adds the text of a number that isn't negative.
    fn push_number(&mut self, number: i32) -> bool
        requires { is_not_negative number ≡ true }
        ensures added { result ≡ true → self.new ≡ self.old ++ signed_decimal number }
        ensures too_long { result ≡ false → MAX_PATH_BYTES < length self.old + length (signed_decimal number) }
    {
        self.push_decimal(number.unsigned_abs())
    }

    /// Adds the part of the default, or of a broker.
    fn push_broker(&mut self, broker: Option<i32>) -> bool
        requires { is_absent_or is_not_negative broker ≡ true }
        ensures added { result ≡ true → self.new ≡ self.old ++ part_or_default signed_decimal broker }
        ensures too_long { result ≡ false → MAX_PATH_BYTES < length self.old + length (part_or_default signed_decimal broker) }
    {
        match broker {
            Some(number) => self.push_number(number),
            None => self.push(b"<default>"),
        }
    }

    /// Adds the last parts of the path of a partition.
    fn push_state(&mut self, number: i32) -> bool
        requires { is_not_negative number ≡ true }
        ensures added { result ≡ true → self.new ≡ self.old ++ (signed_decimal number ++ codes "/state") }
        ensures too_long { result ≡ false → MAX_PATH_BYTES < length self.old + length (signed_decimal number ++ codes "/state") }
    {
        self.push_number(number) && self.push(b"/state")
    }

    /// Adds what stands after a topic in the path of its partition.
    fn push_partition(&mut self, number: i32) -> bool
        requires { is_not_negative number ≡ true }
        ensures added { result ≡ true → self.new ≡ self.old ++ (codes "/partitions/" ++ (signed_decimal number ++ codes "/state")) }
        ensures too_long { result ≡ false → MAX_PATH_BYTES < length self.old + length (codes "/partitions/" ++ (signed_decimal number ++ codes "/state")) }
    {
        self.push(b"/partitions/") && self.push_state(number)
    }

    /// Adds the parts of a user and of its client id.
    fn push_user_client(&mut self, user: &Option<Text>, client: &Option<Text>) -> bool
        ensures added { result ≡ true → self.new ≡ self.old ++ (part_or_default part_for_name user.now ++ (codes "/clients/" ++ part_or_default part_for_name client.now)) }
        ensures too_long { result ≡ false → MAX_PATH_BYTES < length self.old + length (part_or_default part_for_name user.now ++ (codes "/clients/" ++ part_or_default part_for_name client.now)) }
    {
        self.push_name(user) && self.push(b"/clients/") && self.push_name(client)
    }

    /// Adds the path of a resource's access control entries.
    pub fn push_acl(&mut self, pattern: i8, kind: i8, name: &[u8]) -> bool
        ensures added { result ≡ true → self.new ≡ self.old ++ ((if int_eq pattern (pos 3) then codes "/kafka-acl/" else codes "/kafka-acl-extended/prefixed/")
            ++ (resource_type_name kind ++ (codes "/" ++ name.now))) }
        ensures too_long { result ≡ false → MAX_PATH_BYTES < length self.old + length ((if int_eq pattern (pos 3) then codes "/kafka-acl/" else codes "/kafka-acl-extended/prefixed/")
            ++ (resource_type_name kind ++ (codes "/" ++ name.now))) }
    {
        self.push(acl_front(pattern))
            && self.push(resource_type_name(kind))
            && self.push_both(b"/", name)
    }

    /// Adds the path of an entity.
    #[tactic(auto, unfolding(kz_types::specs::Paths::path_of, kz_types::specs::Paths::is_legal))]
    fn push_key(&mut self, key: &EntityKey) -> bool
        requires { is_legal key.now ≡ true }
        ensures added { result ≡ true → self.new ≡ self.old ++ path_of key.now }
        ensures too_long { result ≡ false → MAX_PATH_BYTES < length self.old + length (path_of key.now) }
    {
        match key {
            EntityKey::Topic { name } => self.push_both(b"/brokers/topics/", name.bytes()),
            EntityKey::Partition { topic, number } => {
                self.push_both(b"/brokers/topics/", topic.bytes()) && self.push_partition(*number)
            }
            EntityKey::TopicConfig { name } => self.push_both(b"/config/topics/", name.bytes()),
            EntityKey::BrokerConfig { broker } => {
                self.push(b"/config/brokers/") && self.push_broker(*broker)
            }
            EntityKey::Client { client } => {
                self.push(b"/config/clients/") && self.push_name(client)
            }
            EntityKey::User { user } => self.push(b"/config/users/") && self.push_name(user),
            EntityKey::UserClient { user, client } => {
                self.push(b"/config/users/") && self.push_user_client(user, client)
            }
            EntityKey::Ip { address } => {
                self.push(b"/config/ips/") && self.push_address(address)
            }
            EntityKey::Acl {
                pattern,
                kind,
                name,
            } => self.push_acl(*pattern, *kind, name.bytes()),
            EntityKey::Producer => self.push(b"/latest_producer_id_block"),
        }
    }
}

/// An upper-case hexadecimal digit.
fn hex_digit(value: u8) -> u8
    requires { value < 16 }
    ensures { result ≡ hex_digit value }
{
    if value < 10 {
        b'0' + value
    } else {
        b'A' - 10 + value
    }
}

/// Whether a byte stands for itself: a letter, a digit, `.`, `_`, `-` or `~`.
fn is_plain(byte: u8) -> bool
    ensures { result ≡ is_plain byte }
{
    matches!(byte, b'A'..=b'Z' | b'a'..=b'z' | b'0'..=b'9' | b'.' | b'_' | b'-' | b'~')
}

/// The name of a type of resource.
fn resource_type_name(kind: i8) -> &'static [u8]
    ensures { result.now ≡ resource_type_name kind }
{
    match kind {
        2 => b"Topic",
        3 => b"Group",
        4 => b"Cluster",
        5 => b"TransactionalId",
        _ => b"DelegationToken",
    }
}

/// The beginning of the path of a resource's access control entries.
fn acl_front(pattern: i8) -> &'static [u8]
    ensures { result.now ≡ (if int_eq pattern (pos 3) then codes "/kafka-acl/" else codes "/kafka-acl-extended/prefixed/") }
{
    if pattern == 3 {
        b"/kafka-acl/"
    } else {
        b"/kafka-acl-extended/prefixed/"
    }
}

/// Whether the path of a key keeps the rule of paths: it doesn't where a name makes it longer than [`MAX_PATH_BYTES`] or is
/// `.` or `..`. It takes no memory.
#[tactic(auto, unfolding(kz_types::specs::Paths::has_path))]
pub fn has_path(key: &EntityKey) -> bool
    requires { is_legal key.now ≡ true }
    ensures { result ≡ has_path key.now }
{
    let mut path = PathBuffer::new();
    path.push_key(key) && keeps_rule(path.bytes())
}
