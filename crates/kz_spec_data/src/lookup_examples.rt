//! Laws by example: the data that look-ups find at paths.
#![tactic(auto, unfolding(crate::proofs::ZnodesOnLiterals::znodes_on_literals))]

ghost use Rattle.std.specs.Prelude.{◌≡◌, [], ◌∷◌, Some, None, false, pos, codes};
ghost use Rattle.kz_types.specs.declared.record.MetaRecord.TheVariants as meta;
ghost use Rattle.kz_spec_data.specs.Metadata.{empty_image};
ghost use Rattle.kz_spec_data.specs.ImageExamples.{credential, user_quota, topic_member, broker_member, block};
ghost use Rattle.kz_spec_data.specs.ZnodeExamples.{image_of_records, orders_records, counting_topic, partition_on, allowing_entry, client_quota};
ghost use Rattle.kz_spec_data.specs.Lookups.{body_at};

/// Roots stand always. Above them, beside them and below them nothing stands without an entity.
pub fn roots_at()
    ensures root { body_at empty_image (codes "/config/users") ≡ Some [] }
    ensures resources { body_at empty_image (codes "/kafka-acl-extended/prefixed/Topic") ≡ Some [] }
    ensures producer { body_at empty_image (codes "/latest_producer_id_block") ≡ Some [] }
    ensures block { body_at (image_of_records (block (pos 1000) ∷ [])) (codes "/latest_producer_id_block") ≡ Some (codes "{\"block_end\":\"1999\",\"block_start\":\"1000\",\"broker\":-1,\"version\":1}") }
    ensures above { body_at empty_image (codes "/config") ≡ None }
    ensures control { body_at empty_image (codes "/controller") ≡ None }
    ensures stray { body_at empty_image (codes "/config/other/t") ≡ None }
{}

/// A topic stands with the parent of its partitions, and a partition with its number and its state. A configuration stands where it has
/// members.
pub fn topics_at()
    ensures topic { body_at (image_of_records orders_records) (codes "/brokers/topics/orders")
        ≡ Some (codes "{\"adding_replicas\":{},\"partitions\":{\"0\":[1,2],\"1\":[2,3],\"2\":[3,1]},\"removing_replicas\":{},\"topic_id\":\"AAECAwQFBgcICQoLDA0ODw\",\"version\":3}") }
    ensures no_topic { body_at empty_image (codes "/brokers/topics/t") ≡ None }
    ensures partitions { body_at (image_of_records (counting_topic (codes "t") ∷ [])) (codes "/brokers/topics/t/partitions") ≡ Some [] }
    ensures no_partitions { body_at empty_image (codes "/brokers/topics/t/partitions") ≡ None }
    ensures number { body_at (image_of_records (counting_topic (codes "t") ∷ partition_on (pos 7) (pos 1 ∷ []) (pos 1) (pos 0) ∷ [])) (codes "/brokers/topics/t/partitions/7") ≡ Some [] }
    ensures no_number { body_at (image_of_records (counting_topic (codes "t") ∷ partition_on (pos 7) (pos 1 ∷ []) (pos 1) (pos 0) ∷ [])) (codes "/brokers/topics/t/partitions/0") ≡ None }
    ensures leading_zero { body_at (image_of_records (counting_topic (codes "t") ∷ partition_on (pos 7) (pos 1 ∷ []) (pos 1) (pos 0) ∷ [])) (codes "/brokers/topics/t/partitions/07") ≡ None }
    ensures state { body_at (image_of_records (counting_topic (codes "t") ∷ partition_on (pos 7) (pos 1 ∷ []) (pos 1) (pos 0) ∷ [])) (codes "/brokers/topics/t/partitions/7/state")
        ≡ Some (codes "{\"controller_epoch\":1,\"isr\":[1],\"leader\":1,\"leader_epoch\":0,\"leader_recovery_state\":0,\"version\":1}") }
    ensures no_state { body_at (image_of_records (counting_topic (codes "t") ∷ [])) (codes "/brokers/topics/t/partitions/7/state") ≡ None }
    ensures config { body_at (image_of_records orders_records) (codes "/config/topics/orders") ≡ Some (codes "{\"config\":{\"retention.ms\":\"86400000\"},\"version\":1}") }
    ensures no_config { body_at (image_of_records (counting_topic (codes "t") ∷ [])) (codes "/config/topics/t") ≡ None }
{}

/// The configuration of a broker, and of all brokers.
pub fn broker_configs_at()
    ensures broker { body_at (image_of_records (broker_member (codes "1") (codes "a") (Some (codes "1")) ∷ [])) (codes "/config/brokers/1") ≡ Some (codes "{\"config\":{\"a\":\"1\"},\"version\":1}") }
    ensures all_brokers { body_at (image_of_records (broker_member [] (codes "a") (Some (codes "1")) ∷ [])) (codes "/config/brokers/<default>") ≡ Some (codes "{\"config\":{\"a\":\"1\"},\"version\":1}") }
    ensures no_broker { body_at (image_of_records (broker_member [] (codes "a") (Some (codes "1")) ∷ [])) (codes "/config/brokers/1") ≡ None }
{}

/// A user with quotas or credentials has them as its data. One that has neither stands without data where a client of it has quotas, and
/// so does the parent of its clients.
pub fn users_at()
    ensures quota { body_at (image_of_records (client_quota (codes "a") (codes "c") ∷ user_quota (codes "a") (codes "producer_byte_rate") false ∷ [])) (codes "/config/users/a")
        ≡ Some (codes "{\"config\":{\"producer_byte_rate\":\"1024\"},\"version\":1}") }
    ensures credential { body_at (image_of_records (credential (codes "a") (pos 2) (pos 1) ∷ [])) (codes "/config/users/a")
        ≡ Some (codes "{\"config\":{\"SCRAM-SHA-512\":\"salt=cw==,stored_key=aw==,server_key=dg==,iterations=1\"},\"version\":1}") }
    ensures both { body_at (image_of_records orders_records) (codes "/config/users/alice")
        ≡ Some (codes "{\"config\":{\"SCRAM-SHA-256\":\"salt=c2FsdA==,stored_key=a2V5,server_key=c2Vy,iterations=4096\",\"producer_byte_rate\":\"1024\"},\"version\":1}") }
    ensures user { body_at (image_of_records (client_quota (codes "a b") (codes "c") ∷ [])) (codes "/config/users/a%20b") ≡ Some [] }
    ensures clients { body_at (image_of_records (client_quota (codes "a b") (codes "c") ∷ [])) (codes "/config/users/a%20b/clients") ≡ Some [] }
    ensures client { body_at (image_of_records (client_quota (codes "a b") (codes "c") ∷ [])) (codes "/config/users/a%20b/clients/c") ≡ Some (codes "{\"config\":{\"consumer_byte_rate\":\"7.5\"},\"version\":1}") }
    ensures other_user { body_at (image_of_records (client_quota (codes "ab") (codes "c") ∷ [])) (codes "/config/users/a") ≡ None }
    ensures no_clients { body_at (image_of_records (credential (codes "a") (pos 2) (pos 1) ∷ user_quota (codes "b") (codes "producer_byte_rate") false ∷ [])) (codes "/config/users/a/clients") ≡ None }
    ensures no_client { body_at (image_of_records (client_quota (codes "a") (codes "c") ∷ [])) (codes "/config/users/a/clients/d") ≡ None }
{}

/// A client without a user, an address, and the entries of a resource by rising id.
pub fn others_at()
    ensures client { body_at (image_of_records (meta.ClientQuota (record { entity = record { kind = codes "client-id"; name = Some (codes "c") } ∷ []; key = codes "producer_byte_rate"; value = record { whole = pos 1; micros = pos 0 }; remove = false }) ∷ [])) (codes "/config/clients/c")
        ≡ Some (codes "{\"config\":{\"producer_byte_rate\":\"1\"},\"version\":1}") }
    ensures no_client { body_at (image_of_records (client_quota (codes "a") (codes "c") ∷ [])) (codes "/config/clients/c") ≡ None }
    ensures address { body_at (image_of_records (meta.ClientQuota (record { entity = record { kind = codes "ip"; name = None } ∷ []; key = codes "connection_creation_rate"; value = record { whole = pos 1; micros = pos 0 }; remove = false }) ∷ [])) (codes "/config/ips/<default>")
        ≡ Some (codes "{\"config\":{\"connection_creation_rate\":\"1\"},\"version\":1}") }
    ensures no_address { body_at empty_image (codes "/config/ips/127.0.0.1") ≡ None }
    ensures entries { body_at (image_of_records (allowing_entry 1 (codes "t") (pos 4) ∷ allowing_entry 2 (codes "u") (pos 5) ∷ allowing_entry 0 (codes "t") (pos 3) ∷ [])) (codes "/kafka-acl/Topic/t")
        ≡ Some (codes "{\"acls\":[{\"host\":\"*\",\"operation\":\"Read\",\"permissionType\":\"Allow\",\"principal\":\"User:alice\"},{\"host\":\"*\",\"operation\":\"Write\",\"permissionType\":\"Allow\",\"principal\":\"User:alice\"}],\"version\":1}") }
    ensures no_entries { body_at (image_of_records (allowing_entry 1 (codes "t") (pos 4) ∷ [])) (codes "/kafka-acl-extended/prefixed/Topic/t") ≡ None }
{}
