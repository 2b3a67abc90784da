//! Laws by example: which worked records are accepted, and what they say.
ghost use Rattle.std.specs.Prelude.{◌≡◌, [], ◌∷◌, Some, None, pos, negsuc, codes};
ghost use Rattle.kz_types.specs.declared.record.MetaRecord.TheVariants as meta;
ghost use Rattle.kz_spec_data.specs.Metadata.{empty_image};
ghost use Rattle.kz_spec_data.specs.ImageExamples.{id, topic, partition, change, topic_member};
ghost use Rattle.kz_laws_znodes.specs.Said.{acceptable_records, value_by_records};
ghost use Rattle.kz_laws_znodes.specs.Words.{partition_word, topic_member_word};

/// A change of a partition that isn't there and a second topic of a name are not accepted; once the topic is removed, its
/// name is free.
#[tactic(auto, unfolding(kz_spec_data::proofs::StoresOnLiterals::stores_on_literals))]
pub fn accepted_records()
    ensures { acceptable_records (pos 1) (change 1 None (pos 2) ∷ topic (codes "t") 1 ∷ topic (codes "t") 2 ∷ meta.RemoveTopic (id 1) ∷ topic (codes "t") 2 ∷ []) empty_image
        ≡ topic (codes "t") 1 ∷ meta.RemoveTopic (id 1) ∷ topic (codes "t") 2 ∷ [] }
{}

/// A partition is its last record with each change after that; a new topic of a name has none of the members of the one
/// before it.
pub fn said_of_topics()
    ensures partition { value_by_records (partition_word (pos 3) (id 7) (pos 0)) (partition 7 (pos 4) ∷ change 7 (Some (pos 2 ∷ [])) (pos 2) ∷ change 8 None (pos 1) ∷ []) None
        ≡ Some (record { replicas = pos 1 ∷ pos 2 ∷ []; isr = pos 2 ∷ []; removing = []; adding = []; leader = pos 2; recovery = pos 0; leader_epoch = pos 5; partition_epoch = pos 1; controller_epoch = pos 3 }) }
    ensures removed { value_by_records (partition_word (pos 3) (id 7) (pos 0)) (partition 7 (pos 4) ∷ meta.RemoveTopic (id 7) ∷ []) None ≡ None }
    ensures member { value_by_records (topic_member_word (codes "t") (codes "a")) (topic (codes "t") 1 ∷ topic_member (codes "t") (codes "a") (Some (codes "1")) ∷ []) (record { topic = None; value = None })
        ≡ record { topic = Some (id 1); value = Some (codes "1") } }
    ensures anew { value_by_records (topic_member_word (codes "t") (codes "a")) (topic (codes "t") 1 ∷ topic_member (codes "t") (codes "a") (Some (codes "1")) ∷ meta.RemoveTopic (id 1) ∷ topic (codes "t") 2 ∷ []) (record { topic = None; value = None })
        ≡ record { topic = Some (id 2); value = None } }
{}
