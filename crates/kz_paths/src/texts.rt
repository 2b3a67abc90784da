//! The table of the paths, as texts.
ghost use Rattle.std.specs.Prelude.{◌≡◌, map, length};
ghost use Rattle.kz_types.specs.Paths.{roots, base_paths, control_paths};

/// The path of the znode by which controllers find each other.
pub const CONTROL_TEXT: &str = "/controller";
/// The path of the znode that holds the epoch of the controller.
pub const EPOCH_TEXT: &str = "/controller_epoch";
/// The path of the znode that records the migration.
pub const MIGRATION_TEXT: &str = "/migration";
/// The path of the znode whose children are the brokers that are there.
pub const BROKER_IDS_TEXT: &str = "/brokers/ids";
/// The path of the root of topics. Limits of all znodes together are told at it.
pub const TOPICS_TEXT: &str = "/brokers/topics";
/// The path of the znode of producer ids, which is a root and an entity.
pub const PRODUCER_TEXT: &str = "/latest_producer_id_block";

/// The roots, in path order.
static ROOTS: [&str; 17] = [
    TOPICS_TEXT,
    "/config/brokers",
    "/config/clients",
    "/config/ips",
    "/config/topics",
    "/config/users",
    "/kafka-acl-extended/prefixed/Cluster",
    "/kafka-acl-extended/prefixed/DelegationToken",
    "/kafka-acl-extended/prefixed/Group",
    "/kafka-acl-extended/prefixed/Topic",
    "/kafka-acl-extended/prefixed/TransactionalId",
    "/kafka-acl/Cluster",
    "/kafka-acl/DelegationToken",
    "/kafka-acl/Group",
    "/kafka-acl/Topic",
    "/kafka-acl/TransactionalId",
    PRODUCER_TEXT,
];

/// The parents of roots, in path order.
static BASES: [&str; 5] = [
    "/brokers",
    "/config",
    "/kafka-acl",
    "/kafka-acl-extended",
    "/kafka-acl-extended/prefixed",
];

/// The control znodes, in path order.
static CONTROLS: [&str; 3] = [CONTROL_TEXT, EPOCH_TEXT, MIGRATION_TEXT];

/// Lends the texts of the roots, in path order.
#[tactic(auto, unfolding(kz_types::specs::Paths::roots))]
pub fn root_texts() -> &'static [&'static str]
    ensures texts { map (λ t. t.now) result.now ≡ roots }
    ensures count { length result.now ≡ 17 }
{
    &ROOTS
}

/// Lends the texts of the parents of roots, in path order.
#[tactic(auto, unfolding(kz_types::specs::Paths::base_paths))]
pub fn base_texts() -> &'static [&'static str]
    ensures texts { map (λ t. t.now) result.now ≡ base_paths }
    ensures count { length result.now ≡ 5 }
{
    &BASES
}

/// Lends the texts of the control znodes, in path order.
#[tactic(auto, unfolding(kz_types::specs::Paths::control_paths))]
pub fn control_texts() -> &'static [&'static str]
    ensures texts { map (λ t. t.now) result.now ≡ control_paths }
    ensures count { length result.now ≡ 3 }
{
    &CONTROLS
}
