//! Laws by example: what metadata holds for keys, and which keys records touch.
#![tactic(auto, unfolding(crate::proofs::ZnodesOnLiterals::znodes_on_literals))]

ghost use Rattle.std.specs.Prelude.{◌≡◌, [], ◌∷◌, Some, None, is_some, false, true, pos, negsuc, codes};
ghost use Rattle.kz_types.specs.declared.bodies.Body.TheVariants as body;
ghost use Rattle.kz_types.specs.declared.key.EntityKey.TheVariants as key;
ghost use Rattle.kz_types.specs.declared.record.MetaRecord.TheVariants as meta;
ghost use Rattle.kz_spec_data.specs.Metadata.{empty_image};
ghost use Rattle.kz_spec_data.specs.ImageExamples.{id, topic, partition, change, topic_member, broker_member, user_quota, credential, entry, block};
ghost use Rattle.kz_spec_data.specs.ZnodeExamples.{image_of_records};
ghost use Rattle.kz_spec_data.specs.Entities.{entity};
ghost use Rattle.kz_spec_data.specs.Spans.{all_spanned_paths};
ghost use Rattle.kz_spec_data.specs.Touched.{touched_keys};

/// A topic, one without members, the configuration of all brokers, a user with a quota and without a credential, and what isn't there.
pub fn worked_entities()
    ensures topic { entity (image_of_records (topic (codes "t") 1 ∷ [])) (key.Topic (codes "t")) ≡ Some (body.Topic (id 1) []) }
    ensures no_members { entity (image_of_records (topic (codes "t") 1 ∷ [])) (key.TopicConfig (codes "t")) ≡ None }
    ensures all_brokers { entity (image_of_records (broker_member [] (codes "a") (Some (codes "1")) ∷ [])) (key.BrokerConfig None)
        ≡ Some (body.Config (record { name = codes "a"; value = codes "1" } ∷ [])) }
    ensures user { entity (image_of_records (user_quota (codes "u") (codes "producer_byte_rate") true ∷ [])) (key.User (Some (codes "u"))) ≡ None }
    ensures producer { entity (image_of_records (block (pos 1000) ∷ [])) key.Producer ≡ Some (body.Producer (negsuc 0) (pos 1000) (pos 1999)) }
    ensures partition { entity (image_of_records (topic (codes "t") 1 ∷ [])) (key.Partition (codes "t") (pos 0)) ≡ None }
    ensures quota { is_some (entity (image_of_records (user_quota (codes "u") (codes "producer_byte_rate") false ∷ [])) (key.User (Some (codes "u")))) ≡ true }
    ensures entry { is_some (entity (image_of_records (entry 1 (pos 2) (codes "t") ∷ [])) (key.Acl (pos 3) (pos 2) (codes "t"))) ≡ true }
    ensures none { entity empty_image (key.Acl (pos 3) (pos 2) (codes "t")) ≡ None }
{}

/// A change of a partition touches that partition alone, where its topic's id has a name before. A new partition does, too. A member of
/// a topic's configuration touches the configuration alone. A topic that is made is touched with the partitions that it has after, and one
/// that is removed with those that it has before. Other records touch the key that they name. A topic that isn't there before isn't
/// touched by its id.
pub fn worked_touched_keys()
    ensures partition { touched_keys (image_of_records (topic (codes "t") 1 ∷ partition 1 (pos 0) ∷ [])) empty_image (change 1 None (pos 2) ∷ [])
        ≡ key.Partition (codes "t") (pos 0) ∷ [] }
    ensures new_partition { touched_keys (image_of_records (topic (codes "t") 1 ∷ [])) empty_image (partition 1 (pos 0) ∷ []) ≡ key.Partition (codes "t") (pos 0) ∷ [] }
    ensures made { touched_keys empty_image (image_of_records (topic (codes "t") 1 ∷ partition 1 (pos 0) ∷ [])) (topic (codes "t") 1 ∷ partition 1 (pos 0) ∷ [])
        ≡ key.Topic (codes "t") ∷ key.TopicConfig (codes "t") ∷ key.Partition (codes "t") (pos 0) ∷ [] }
    ensures removed { touched_keys (image_of_records (topic (codes "t") 1 ∷ partition 1 (pos 0) ∷ [])) empty_image (meta.RemoveTopic (id 1) ∷ [])
        ≡ key.Topic (codes "t") ∷ key.TopicConfig (codes "t") ∷ key.Partition (codes "t") (pos 0) ∷ [] }
    ensures configs { touched_keys empty_image empty_image (broker_member (codes "7") (codes "a") None ∷ topic_member (codes "t") (codes "a") None ∷ [])
        ≡ key.BrokerConfig (Some (pos 7)) ∷ key.TopicConfig (codes "t") ∷ [] }
    ensures user { touched_keys empty_image empty_image (credential (codes "u") (pos 1) (pos 4096) ∷ block (pos 1000) ∷ []) ≡ key.User (Some (codes "u")) ∷ key.Producer ∷ [] }
    ensures entry { touched_keys empty_image (image_of_records (entry 1 (pos 2) (codes "t") ∷ [])) (entry 1 (pos 2) (codes "t") ∷ []) ≡ key.Acl (pos 3) (pos 2) (codes "t") ∷ [] }
    ensures unknown { touched_keys empty_image empty_image (meta.RemoveTopic (id 1) ∷ change 1 None (pos 2) ∷ []) ≡ [] }
{}

/// The one key of a partition's change spans four paths, and that of a topic's member one.
pub fn worked_spans_of_touched()
    ensures partition { all_spanned_paths (touched_keys (image_of_records (topic (codes "t") 1 ∷ partition 1 (pos 0) ∷ [])) empty_image (change 1 None (pos 2) ∷ []))
        ≡ codes "/brokers/topics/t" ∷ codes "/brokers/topics/t/partitions" ∷ codes "/brokers/topics/t/partitions/0" ∷ codes "/brokers/topics/t/partitions/0/state" ∷ [] }
    ensures config { all_spanned_paths (touched_keys empty_image empty_image (topic_member (codes "t") (codes "a") None ∷ [])) ≡ codes "/config/topics/t" ∷ [] }
{}
