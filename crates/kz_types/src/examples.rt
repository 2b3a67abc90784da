//! The definitions of paths, computed on examples. Each example stands on a function that does nothing.
#![tactic(auto, unfolding(crate::proofs::OnLiterals::values_on_literals))]

ghost use Rattle.std.specs.Prelude.{◌≡◌, ◌∷◌, ◌++◌, [], codes, true, false, pos, ℕ, List, None};
ghost use Rattle.kz_types.specs.Numbers.{canonical};
ghost use Rattle.kz_types.specs.Paths.{is_path, kind_of, key_of, path_of, is_legal, is_migrated};
ghost use Rattle.kz_types.specs.Ids.{id_of, id_text, zero_id};

use crate::{EntityKey, Kind};

/// A user's name and its path.
pub fn user_path()
    ensures path { path_of (EntityKey.User (Some (codes "a b*~/" ++ 195 ∷ 188 ∷ []))) ≡ codes "/config/users/a%20b%2A~%2F%C3%BC" }
    ensures key { key_of (codes "/config/users/a%20b%2A~%2F%C3%BC") ≡ Some (EntityKey.User (Some (codes "a b*~/" ++ 195 ∷ 188 ∷ []))) }
    ensures lower_case { kind_of (codes "/config/users/a%2a") ≡ Kind.Stray }
{}

/// The default user, and a user of that name.
pub fn default_user()
    ensures default { path_of (EntityKey.User None) ≡ codes "/config/users/<default>" }
    ensures default_key { key_of (codes "/config/users/<default>") ≡ Some (EntityKey.User None) }
    ensures named { path_of (EntityKey.User (Some (codes "<default>"))) ≡ codes "/config/users/%3Cdefault%3E" }
    ensures named_key { key_of (codes "/config/users/%3Cdefault%3E") ≡ Some (EntityKey.User (Some (codes "<default>"))) }
{}

/// Partitions have canonical numbers.
pub fn partition_paths()
    ensures key { key_of (codes "/brokers/topics/t/partitions/1/state") ≡ Some (EntityKey.Partition (codes "t") (pos 1)) }
    ensures path { path_of (EntityKey.Partition (codes "t") (pos 1)) ≡ codes "/brokers/topics/t/partitions/1/state" }
    ensures leading_zero { kind_of (codes "/brokers/topics/t/partitions/01/state") ≡ Kind.Stray }
    ensures greatest { canonical (codes "2147483647") ≡ Some 2147483647 }
    ensures too_great { canonical (codes "2147483648") ≡ None }
    ensures empty { canonical [] ≡ None }
    ensures sign { canonical (codes "+1") ≡ None }
{}

/// Addresses.
pub fn address_paths()
    ensures default { path_of (EntityKey.Ip None) ≡ codes "/config/ips/<default>" }
    ensures named { is_legal (EntityKey.Ip (Some (codes "<default>"))) ≡ false }
    ensures slash { is_legal (EntityKey.Ip (Some (codes "a/b"))) ≡ false }
{}

/// Kinds at their boundaries.
pub fn kinds()
    ensures root { kind_of (codes "/brokers/topics") ≡ Kind.Scaffold }
    ensures ids { kind_of (codes "/brokers/ids") ≡ Kind.Outside }
    ensures clients { kind_of (codes "/config/users/a/clients") ≡ Kind.Scaffold }
    ensures prefixed { kind_of (codes "/kafka-acl-extended/prefixed") ≡ Kind.Base }
    ensures acl { key_of (codes "/kafka-acl/DelegationToken/x") ≡ Some (EntityKey.Acl (pos 3) (pos 6) (codes "x")) }
    ensures below_acl { kind_of (codes "/kafka-acl/Topic/a/b") ≡ Kind.Stray }
    ensures no_type { kind_of (codes "/kafka-acl/topic") ≡ Kind.Outside }
    ensures control { kind_of (codes "/controller_epoch") ≡ Kind.Control }
    ensures reserved { kind_of (codes "/controller/x") ≡ Kind.Reserved }
    ensures block { kind_of (codes "/latest_producer_id_block") ≡ Kind.Entity }
    ensures below_block { kind_of (codes "/latest_producer_id_block/a") ≡ Kind.Stray }
    ensures beside { is_migrated (codes "/config/brokers-2") ≡ false }
{}

/// Broker configurations.
pub fn broker_paths()
    ensures key { key_of (codes "/config/brokers/0") ≡ Some (EntityKey.BrokerConfig (Some (pos 0))) }
    ensures default { key_of (codes "/config/brokers/<default>") ≡ Some (EntityKey.BrokerConfig None) }
    ensures path { path_of (EntityKey.BrokerConfig (Some (pos 0))) ≡ codes "/config/brokers/0" }
    ensures leading_zero { kind_of (codes "/config/brokers/00") ≡ Kind.Stray }
    ensures too_great { kind_of (codes "/config/brokers/2147483648") ≡ Kind.Stray }
{}

/// Paths, and bytes that are none.
pub fn rule()
    ensures path { is_path (codes "/a/...") ≡ true }
    ensures text { is_path (codes "/" ++ 195 ∷ 188 ∷ []) ≡ true }
    ensures slash { is_path (codes "/") ≡ false }
    ensures end { is_path (codes "/a/") ≡ false }
    ensures dots { is_path (codes "/a/../b") ≡ false }
{}

/// Ids and their texts.
pub fn ids()
    ensures zero { id_text zero_id ≡ codes "AAAAAAAAAAAAAAAAAAAAAA" }
    ensures read { id_of (codes "AAECAwQFBgcICQoLDA0ODw") ≡ Some (0 ∷ 1 ∷ 2 ∷ 3 ∷ 4 ∷ 5 ∷ 6 ∷ 7 ∷ 8 ∷ 9 ∷ 10 ∷ 11 ∷ 12 ∷ 13 ∷ 14 ∷ 15 ∷ []) }
    ensures unused_bits { id_of (codes "AAAAAAAAAAAAAAAAAAAAAB") ≡ None }
    ensures short { id_of (codes "AAAAAAAAAAAAAAAAAAAAA") ≡ None }
{}
