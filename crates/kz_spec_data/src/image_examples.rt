//! Laws by example: the metadata after worked records, and the records that are refused.
ghost use Rattle.std.specs.Prelude.{◌≡◌, [], ◌∷◌, Some, None, true, false, pos, negsuc, codes, replicate};
ghost use Rattle.kz_types.specs.declared.record.MetaRecord.TheVariants as meta;
ghost use Rattle.kz_types.specs.declared.key.EntityKey.TheVariants as key;
ghost use Rattle.kz_types.specs.declared.image_fault.ImageRule.TheVariants.{NotAllowed, Exists, Absent, BadName, BadValue};
ghost use Rattle.kz_spec_data.specs.Metadata.{empty_image, topic_id_of, topic_name_of, partition_of, configs_of, quotas_of, scram_of, acl_of};
ghost use Rattle.kz_spec_data.specs.Image.{all_applied, first_bad};
ghost use Rattle.kz_spec_data.specs.ImageExamples.{id, topic, partition, change, topic_member, broker_member, user_quota, credential, entry, block};

/// A change of the brokers in sync leaves the leader epoch; a stated leader raises it; each change raises the partition
/// epoch.
#[tactic(auto, unfolding(crate::proofs::StoresOnLiterals::stores_on_literals))]
pub fn partition_changes()
    ensures isr { partition_of (id 7) (pos 0) (all_applied (pos 1) (topic (codes "orders") 7 ∷ partition 7 (pos 4) ∷ change 7 (Some (pos 1 ∷ [])) (negsuc 1) ∷ []) empty_image)
        ≡ Some (record { replicas = pos 1 ∷ pos 2 ∷ []; isr = pos 1 ∷ []; removing = []; adding = []; leader = pos 1; recovery = pos 0; leader_epoch = pos 4; partition_epoch = pos 1; controller_epoch = pos 1 }) }
    ensures leader { partition_of (id 7) (pos 0) (all_applied (pos 1) (topic (codes "orders") 7 ∷ partition 7 (pos 4) ∷ change 7 (Some (pos 1 ∷ [])) (negsuc 1) ∷ change 7 (Some (pos 2 ∷ [])) (pos 2) ∷ []) empty_image)
        ≡ Some (record { replicas = pos 1 ∷ pos 2 ∷ []; isr = pos 2 ∷ []; removing = []; adding = []; leader = pos 2; recovery = pos 0; leader_epoch = pos 5; partition_epoch = pos 2; controller_epoch = pos 1 }) }
    ensures same_leader { partition_of (id 7) (pos 0) (all_applied (pos 2) (topic (codes "orders") 7 ∷ partition 7 (pos 4) ∷ change 7 None (pos 1) ∷ []) empty_image)
        ≡ Some (record { replicas = pos 1 ∷ pos 2 ∷ []; isr = pos 1 ∷ pos 2 ∷ []; removing = []; adding = []; leader = pos 1; recovery = pos 0; leader_epoch = pos 5; partition_epoch = pos 1; controller_epoch = pos 2 }) }
{}

/// A topic takes its partitions and its configuration along.
#[tactic(auto, unfolding(crate::proofs::StoresOnLiterals::stores_on_literals))]
pub fn removed_topics()
    ensures there { configs_of (pos 2) (codes "t") (all_applied (pos 1) (topic (codes "t") 1 ∷ topic_member (codes "t") (codes "a") (Some (codes "1")) ∷ []) empty_image) ≡ Some (record { name = codes "a"; value = codes "1" } ∷ []) }
    ensures gone { all_applied (pos 1) (topic (codes "t") 1 ∷ partition 1 (pos 0) ∷ topic_member (codes "t") (codes "a") (Some (codes "1")) ∷ meta.RemoveTopic (id 1) ∷ []) empty_image ≡ empty_image }
    ensures named { topic_id_of (codes "t") (all_applied (pos 1) (topic (codes "t") 1 ∷ topic (codes "u") 2 ∷ []) empty_image) ≡ Some (id 1) }
    ensures found { topic_name_of (id 2) (all_applied (pos 1) (topic (codes "t") 1 ∷ topic (codes "u") 2 ∷ []) empty_image) ≡ Some (codes "u") }
{}

/// Quotas, credentials and entries are set and removed, and what isn't there stays so.
#[tactic(auto, unfolding(crate::proofs::StoresOnLiterals::stores_on_literals))]
pub fn removed_members()
    ensures quota { quotas_of (key.User (Some (codes "a"))) (all_applied (pos 1) (user_quota (codes "a") (codes "producer_byte_rate") false ∷ []) empty_image)
        ≡ Some (record { key = codes "producer_byte_rate"; value = record { whole = pos 1024; micros = pos 0 } } ∷ []) }
    ensures no_quota { all_applied (pos 1) (user_quota (codes "a") (codes "producer_byte_rate") false ∷ user_quota (codes "a") (codes "consumer_byte_rate") true ∷ user_quota (codes "a") (codes "producer_byte_rate") true ∷ []) empty_image ≡ empty_image }
    ensures credential { scram_of (codes "a") (pos 2) (all_applied (pos 1) (credential (codes "a") (pos 1) (pos 4096) ∷ credential (codes "a") (pos 2) (pos 8192) ∷ meta.RemoveUserScramCredential (codes "a") (pos 1) ∷ []) empty_image)
        ≡ Some (record { salt = codes "s"; stored_key = codes "k"; server_key = codes "v"; iterations = pos 8192 }) }
    ensures no_credential { all_applied (pos 1) (credential (codes "a") (pos 1) (pos 4096) ∷ meta.RemoveUserScramCredential (codes "a") (pos 1) ∷ []) empty_image ≡ empty_image }
    ensures entry { acl_of (id 2) (all_applied (pos 1) (entry 1 (pos 2) (codes "t") ∷ entry 2 (pos 3) (codes "g") ∷ meta.RemoveAccessControlEntry (id 1) ∷ []) empty_image)
        ≡ Some (record { kind = pos 3; pattern = pos 3; name = codes "g"; principal = codes "User:a"; host = codes "*"; operation = pos 3; permission = pos 3 }) }
    ensures member { all_applied (pos 1) (broker_member (codes "1") (codes "a") (Some (codes "1")) ∷ broker_member (codes "1") (codes "b") None ∷ broker_member (codes "1") (codes "a") None ∷ []) empty_image ≡ empty_image }
{}

/// Each record is judged after those before it, and by the first rule that it breaks.
#[tactic(auto, unfolding(crate::proofs::StoresOnLiterals::stores_on_literals))]
pub fn refused_records()
    ensures exists { first_bad 0 (topic (codes "t") 1 ∷ topic (codes "t") 2 ∷ []) empty_image ≡ Some (record { index = 1; why = Exists }) }
    ensures same_id { first_bad 0 (topic (codes "t") 1 ∷ topic (codes "u") 1 ∷ []) empty_image ≡ Some (record { index = 1; why = Exists }) }
    ensures absent { first_bad 0 (meta.RemoveTopic (id 1) ∷ []) empty_image ≡ Some (record { index = 0; why = Absent }) }
    ensures anew { first_bad 0 (topic (codes "t") 1 ∷ meta.RemoveTopic (id 1) ∷ topic (codes "t") 2 ∷ []) empty_image ≡ None }
    ensures kept_back { first_bad 0 (meta.NoOp ∷ meta.ZkMigrationState (pos 3) ∷ []) empty_image ≡ Some (record { index = 1; why = NotAllowed }) }
    ensures zero { first_bad 0 (meta.RemoveTopic (id 0) ∷ []) empty_image ≡ Some (record { index = 0; why = BadName }) }
    ensures misnamed { first_bad 0 (topic (codes "a/b") 0 ∷ []) empty_image ≡ Some (record { index = 0; why = BadName }) }
    ensures broker { first_bad 0 (broker_member (codes "01") (codes "a") None ∷ []) empty_image ≡ Some (record { index = 0; why = BadName }) }
    ensures no_topic { first_bad 0 (topic_member (codes "t") (codes "a") None ∷ []) empty_image ≡ Some (record { index = 0; why = Absent }) }
    ensures mechanism { first_bad 0 (credential (codes "a") (pos 3) (pos 0) ∷ []) empty_image ≡ Some (record { index = 0; why = BadValue }) }
    ensures no_user { first_bad 0 (credential (codes "..") (pos 3) (pos 1) ∷ []) empty_image ≡ Some (record { index = 0; why = BadName }) }
    ensures key { first_bad 0 (user_quota (codes "a") (codes "SCRAM-SHA-256") false ∷ []) empty_image ≡ Some (record { index = 0; why = BadName }) }
    ensures resource { first_bad 0 (entry 1 (pos 7) (codes "a") ∷ []) empty_image ≡ Some (record { index = 0; why = BadValue }) }
    ensures slash { first_bad 0 (entry 1 (pos 7) (codes "a/b") ∷ []) empty_image ≡ Some (record { index = 0; why = BadName }) }
    ensures next { first_bad 0 (block (pos 1000) ∷ block (pos 1000) ∷ block (pos 999) ∷ []) empty_image ≡ Some (record { index = 2; why = BadValue }) }
    ensures in_sync { first_bad 0 (topic (codes "t") 1 ∷ partition 1 (pos 0) ∷ change 1 (Some (pos 3 ∷ [])) (negsuc 1) ∷ []) empty_image ≡ Some (record { index = 2; why = BadValue }) }
    ensures no_partition { first_bad 0 (topic (codes "t") 1 ∷ change 1 (Some (pos 3 ∷ [])) (negsuc 1) ∷ []) empty_image ≡ Some (record { index = 1; why = Absent }) }
    ensures full_epoch { first_bad 0 (topic (codes "t") 1 ∷ partition 1 (pos 2147483647) ∷ change 1 None (pos 2) ∷ []) empty_image ≡ Some (record { index = 2; why = BadValue }) }
{}

/// A name that makes a path too long is refused whatever the mechanism, in a removal too. A resource has a path only where its
/// codes are those of one: others are judged by the codes.
#[tactic(auto, unfolding(crate::proofs::StoresOnLiterals::stores_on_literals))]
pub fn long_names()
    ensures user { first_bad 0 (credential (replicate 1100 97) (pos 1) (pos 1) ∷ []) empty_image ≡ Some (record { index = 0; why = BadName }) }
    ensures mechanism { first_bad 0 (credential (replicate 1100 97) (pos 3) (pos 1) ∷ []) empty_image ≡ Some (record { index = 0; why = BadName }) }
    ensures removal { first_bad 0 (meta.RemoveUserScramCredential (replicate 1100 97) (pos 3) ∷ []) empty_image ≡ Some (record { index = 0; why = BadName }) }
    ensures resource { first_bad 0 (entry 1 (pos 2) (replicate 1100 97) ∷ []) empty_image ≡ Some (record { index = 0; why = BadName }) }
    ensures code { first_bad 0 (entry 1 (pos 7) (replicate 1100 97) ∷ []) empty_image ≡ Some (record { index = 0; why = BadValue }) }
{}
