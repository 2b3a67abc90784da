//! Laws by example: the znodes of worked metadata.
#![tactic(auto, unfolding(crate::proofs::ZnodesOnLiterals::znodes_on_literals))]

ghost use Rattle.std.specs.Prelude.{◌≡◌, [], ◌∷◌, Some, None, true, false, pos, negsuc, codes, map, take, length};
ghost use Rattle.kz_types.specs.Paths.{roots};
ghost use Rattle.kz_types.specs.declared.record.MetaRecord.TheVariants as meta;
ghost use Rattle.kz_spec_data.specs.Tree.{path_of_rendered};
ghost use Rattle.kz_spec_data.specs.Metadata.{empty_image};
ghost use Rattle.kz_spec_data.specs.Rendering.{bare, render, body_at_path};
ghost use Rattle.kz_spec_data.specs.ImageExamples.{id, topic, partition, change, credential, entry, user_quota, topic_member, broker_member, block};
ghost use Rattle.kz_spec_data.specs.ZnodeExamples.{image_of_records, made_later, orders_records, counting_topic, partition_on, allowing_entry, quota_of_pair, client_quota};

/// A topic, the state of a partition with the epoch of its batch, a user, entries, and no next producer id.
pub fn worked_bodies()
    ensures topic { body_at_path (image_of_records orders_records) (codes "/brokers/topics/orders")
        ≡ Some (codes "{\"adding_replicas\":{},\"partitions\":{\"0\":[1,2],\"1\":[2,3],\"2\":[3,1]},\"removing_replicas\":{},\"topic_id\":\"AAECAwQFBgcICQoLDA0ODw\",\"version\":3}") }
    ensures state { body_at_path (image_of_records orders_records) (codes "/brokers/topics/orders/partitions/0/state")
        ≡ Some (codes "{\"controller_epoch\":1,\"isr\":[1,2],\"leader\":1,\"leader_epoch\":4,\"leader_recovery_state\":0,\"version\":1}") }
    ensures config { body_at_path (image_of_records orders_records) (codes "/config/topics/orders") ≡ Some (codes "{\"config\":{\"retention.ms\":\"86400000\"},\"version\":1}") }
    ensures user { body_at_path (image_of_records orders_records) (codes "/config/users/alice")
        ≡ Some (codes "{\"config\":{\"SCRAM-SHA-256\":\"salt=c2FsdA==,stored_key=a2V5,server_key=c2Vy,iterations=4096\",\"producer_byte_rate\":\"1024\"},\"version\":1}") }
    ensures entries { body_at_path (image_of_records orders_records) (codes "/kafka-acl/Topic/orders")
        ≡ Some (codes "{\"acls\":[{\"host\":\"*\",\"operation\":\"Read\",\"permissionType\":\"Allow\",\"principal\":\"User:alice\"},{\"host\":\"*\",\"operation\":\"Write\",\"permissionType\":\"Allow\",\"principal\":\"User:alice\"}],\"version\":1}") }
    ensures producer { body_at_path (image_of_records orders_records) (codes "/latest_producer_id_block") ≡ Some [] }
    ensures none { render empty_image ≡ map bare roots }
{}

/// A partition has its number and its state below its topic's `partitions`, which is there without any. No configuration is
/// rendered where it is empty.
pub fn topics()
    ensures partitions { body_at_path (image_of_records (counting_topic (codes "t") ∷ [])) (codes "/brokers/topics/t/partitions") ≡ Some [] }
    ensures no_number { body_at_path (image_of_records (counting_topic (codes "t") ∷ [])) (codes "/brokers/topics/t/partitions/0") ≡ None }
    ensures number { body_at_path (image_of_records (counting_topic (codes "t") ∷ partition_on (pos 0) (pos 1 ∷ []) (pos 1) (pos 0) ∷ [])) (codes "/brokers/topics/t/partitions/0") ≡ Some [] }
    ensures state { body_at_path (image_of_records (counting_topic (codes "t") ∷ partition_on (pos 0) (pos 1 ∷ []) (pos 1) (pos 0) ∷ [])) (codes "/brokers/topics/t/partitions/0/state")
        ≡ Some (codes "{\"controller_epoch\":1,\"isr\":[1],\"leader\":1,\"leader_epoch\":0,\"leader_recovery_state\":0,\"version\":1}") }
    ensures config { body_at_path (image_of_records (counting_topic (codes "t") ∷ topic_member (codes "t") (codes "a") (Some (codes "1")) ∷ topic_member (codes "t") (codes "a") None ∷ [])) (codes "/config/topics/t") ≡ None }
    ensures count { length (render (image_of_records (counting_topic (codes "t") ∷ partition_on (pos 0) (pos 1 ∷ []) (pos 1) (pos 0) ∷ []))) ≡ 21 }
{}

/// A user whose clients have quotas is rendered without data where it has no keys of its own, and with its own data where it
/// has.
pub fn clients_of_users()
    ensures user { body_at_path (image_of_records (client_quota (codes "a b") (codes "c") ∷ [])) (codes "/config/users/a%20b") ≡ Some [] }
    ensures clients { body_at_path (image_of_records (client_quota (codes "a b") (codes "c") ∷ [])) (codes "/config/users/a%20b/clients") ≡ Some [] }
    ensures client { body_at_path (image_of_records (client_quota (codes "a b") (codes "c") ∷ [])) (codes "/config/users/a%20b/clients/c")
        ≡ Some (codes "{\"config\":{\"consumer_byte_rate\":\"7.5\"},\"version\":1}") }
    ensures count { length (render (image_of_records (client_quota (codes "a b") (codes "c") ∷ client_quota (codes "a b") (codes "d") ∷ []))) ≡ 21 }
    ensures quota { body_at_path (image_of_records (client_quota (codes "a") (codes "c") ∷ user_quota (codes "a") (codes "producer_byte_rate") false ∷ [])) (codes "/config/users/a")
        ≡ Some (codes "{\"config\":{\"producer_byte_rate\":\"1024\"},\"version\":1}") }
    ensures credential { body_at_path (image_of_records (client_quota (codes "a") (codes "c") ∷ credential (codes "a") (pos 2) (pos 1) ∷ [])) (codes "/config/users/a")
        ≡ Some (codes "{\"config\":{\"SCRAM-SHA-512\":\"salt=cw==,stored_key=aw==,server_key=dg==,iterations=1\"},\"version\":1}") }
    ensures no_clients { body_at_path (image_of_records (credential (codes "a") (pos 2) (pos 1) ∷ [])) (codes "/config/users/a/clients") ≡ None }
{}

/// The entries of a resource stand by rising id, whatever order they come in, and each pattern has its own znode.
pub fn resources()
    ensures rising { body_at_path (image_of_records (allowing_entry 1 (codes "t") (pos 4) ∷ allowing_entry 2 (codes "u") (pos 5) ∷ allowing_entry 0 (codes "t") (pos 3) ∷ [])) (codes "/kafka-acl/Topic/t")
        ≡ Some (codes "{\"acls\":[{\"host\":\"*\",\"operation\":\"Read\",\"permissionType\":\"Allow\",\"principal\":\"User:alice\"},{\"host\":\"*\",\"operation\":\"Write\",\"permissionType\":\"Allow\",\"principal\":\"User:alice\"}],\"version\":1}") }
    ensures prefixed { body_at_path (image_of_records (allowing_entry 1 (codes "t") (pos 4)
        ∷ meta.AccessControlEntry (record { id = id 1; resource_type = pos 3; resource_name = codes "t"; pattern_type = pos 4; principal = codes "User:b"; host = codes "h"; operation = pos 2; permission = pos 2 }) ∷ [])) (codes "/kafka-acl-extended/prefixed/Group/t")
        ≡ Some (codes "{\"acls\":[{\"host\":\"h\",\"operation\":\"All\",\"permissionType\":\"Deny\",\"principal\":\"User:b\"}],\"version\":1}") }
{}

/// The block begins at the next id and ends 999 later, the last one at the greatest of 64 bits.
pub fn producer_blocks()
    ensures block { body_at_path (image_of_records (block (pos 1000) ∷ [])) (codes "/latest_producer_id_block")
        ≡ Some (codes "{\"block_end\":\"1999\",\"block_start\":\"1000\",\"broker\":-1,\"version\":1}") }
    ensures last { body_at_path (image_of_records (block (pos 9223372036854774808) ∷ [])) (codes "/latest_producer_id_block")
        ≡ Some (codes "{\"block_end\":\"9223372036854775807\",\"block_start\":\"9223372036854774808\",\"broker\":-1,\"version\":1}") }
{}

/// A state has the epoch of the batch that last changed its partition.
pub fn epochs_of_states()
    ensures isr { body_at_path (made_later (topic (codes "t") 1 ∷ partition 1 (pos 4) ∷ []) (change 1 (Some (pos 1 ∷ [])) (negsuc 1) ∷ [])) (codes "/brokers/topics/t/partitions/0/state")
        ≡ Some (codes "{\"controller_epoch\":3,\"isr\":[1],\"leader\":1,\"leader_epoch\":4,\"leader_recovery_state\":0,\"version\":1}") }
    ensures no_leader { body_at_path (made_later (topic (codes "t") 1 ∷ partition 1 (pos 4) ∷ []) (change 1 None (negsuc 0) ∷ [])) (codes "/brokers/topics/t/partitions/0/state")
        ≡ Some (codes "{\"controller_epoch\":3,\"isr\":[1,2],\"leader\":-1,\"leader_epoch\":5,\"leader_recovery_state\":0,\"version\":1}") }
    ensures other_topic { body_at_path (made_later (topic (codes "t") 1 ∷ partition 1 (pos 4) ∷ []) (topic (codes "u") 2 ∷ [])) (codes "/brokers/topics/t/partitions/0/state")
        ≡ Some (codes "{\"controller_epoch\":1,\"isr\":[1,2],\"leader\":1,\"leader_epoch\":4,\"leader_recovery_state\":0,\"version\":1}") }
{}

/// Paths rise by their bytes, so that what is below a topic stands after other topics whose names go on with `-` or `.`.
pub fn order_of_paths()
    ensures { map path_of_rendered (take 8 (render (image_of_records (topic (codes "a.b") 3 ∷ topic (codes "a") 1 ∷ partition 1 (pos 0) ∷ topic (codes "a-b") 2 ∷ []))))
        ≡ codes "/brokers/topics" ∷ codes "/brokers/topics/a" ∷ codes "/brokers/topics/a-b" ∷ codes "/brokers/topics/a-b/partitions" ∷ codes "/brokers/topics/a.b" ∷ codes "/brokers/topics/a.b/partitions"
        ∷ codes "/brokers/topics/a/partitions" ∷ codes "/brokers/topics/a/partitions/0" ∷ [] }
{}

/// The default entities, users with everything, and what is gone again.
pub fn further_entities()
    ensures default_broker { body_at_path (image_of_records (broker_member [] (codes "a") (Some (codes "1")) ∷ [])) (codes "/config/brokers/<default>") ≡ Some (codes "{\"config\":{\"a\":\"1\"},\"version\":1}") }
    ensures no_broker { body_at_path (image_of_records (broker_member (codes "1") (codes "a") (Some (codes "1")) ∷ broker_member (codes "1") (codes "a") None ∷ [])) (codes "/config/brokers/1") ≡ None }
    ensures default_pair { body_at_path (image_of_records (quota_of_pair None None ∷ [])) (codes "/config/users/<default>/clients/<default>") ≡ Some (codes "{\"config\":{\"consumer_byte_rate\":\"7.5\"},\"version\":1}") }
    ensures default_user { body_at_path (image_of_records (quota_of_pair None None ∷ [])) (codes "/config/users/<default>") ≡ Some [] }
    ensures named_default { body_at_path (image_of_records (credential (codes "<default>") (pos 1) (pos 1) ∷ [])) (codes "/config/users/%3Cdefault%3E")
        ≡ Some (codes "{\"config\":{\"SCRAM-SHA-256\":\"salt=cw==,stored_key=aw==,server_key=dg==,iterations=1\"},\"version\":1}") }
    ensures everything { body_at_path (image_of_records (user_quota (codes "u") (codes "producer_byte_rate") false ∷ credential (codes "u") (pos 2) (pos 2) ∷ client_quota (codes "u") (codes "c") ∷ credential (codes "u") (pos 1) (pos 1) ∷ [])) (codes "/config/users/u")
        ≡ Some (codes "{\"config\":{\"SCRAM-SHA-256\":\"salt=cw==,stored_key=aw==,server_key=dg==,iterations=1\",\"SCRAM-SHA-512\":\"salt=cw==,stored_key=aw==,server_key=dg==,iterations=2\",\"producer_byte_rate\":\"1024\"},\"version\":1}") }
    ensures no_quota { body_at_path (image_of_records (user_quota (codes "u") (codes "producer_byte_rate") false ∷ user_quota (codes "u") (codes "producer_byte_rate") true ∷ [])) (codes "/config/users/u") ≡ None }
    ensures no_entries { body_at_path (image_of_records (entry 1 (pos 2) (codes "t") ∷ meta.RemoveAccessControlEntry (id 1) ∷ [])) (codes "/kafka-acl/Topic/t") ≡ None }
    ensures no_topic { body_at_path (image_of_records (topic (codes "t") 1 ∷ partition 1 (pos 4) ∷ topic_member (codes "t") (codes "a") (Some (codes "1")) ∷ meta.RemoveTopic (id 1) ∷ [])) (codes "/config/topics/t") ≡ None }
{}
