//! Laws by example: the batches of snapshots.
#![tactic(auto, unfolding(crate::proofs::ZnodesOnLiterals::znodes_on_literals))]

ghost use Rattle.std.specs.Prelude.{◌≡◌, [], ◌∷◌, Some, false, pos, negsuc, codes};
ghost use Rattle.kz_types.specs.declared.record.MetaRecord.TheVariants as meta;
ghost use Rattle.kz_spec_data.specs.Metadata.{empty_image};
ghost use Rattle.kz_spec_data.specs.ImageExamples.{registration, topic, partition, topic_member, broker_member, user_quota, credential, entry, block};
ghost use Rattle.kz_spec_data.specs.ZnodeExamples.{image_of_records};
ghost use Rattle.kz_spec_data.specs.SnapshotBatches.{snapshot_batches};

/// Empty metadata has no batch. A partition stands in a batch of the epoch of the controller that changed it last. A topic comes before the members of configurations, those of topics before those of brokers, and
/// then the next producer id, in one batch where all have one epoch.
pub fn worked_snapshots()
    ensures empty { snapshot_batches (pos 3) empty_image ≡ [] }
    ensures epochs { snapshot_batches (pos 3) (image_of_records (topic (codes "t") 1 ∷ partition 1 (pos 0) ∷ block (pos 1000) ∷ []))
        ≡ record { first = pos 0; epoch = pos 3; time = pos 0; items = topic (codes "t") 1 ∷ [] }
        ∷ record { first = pos 1; epoch = pos 1; time = pos 0; items = partition 1 (pos 0) ∷ [] }
        ∷ record { first = pos 2; epoch = pos 3; time = pos 0; items = meta.ProducerIds (record { broker_id = negsuc 0; broker_epoch = negsuc 0; next = pos 1000 }) ∷ [] } ∷ [] }
    ensures one { snapshot_batches (pos 3) (image_of_records (broker_member [] (codes "a") (Some (codes "1")) ∷ topic (codes "t") 1 ∷ topic_member (codes "t") (codes "b") (Some (codes "2")) ∷ block (pos 1000) ∷ []))
        ≡ record {
          first = pos 0;
          epoch = pos 3;
          time = pos 0;
          items = topic (codes "t") 1 ∷ topic_member (codes "t") (codes "b") (Some (codes "2")) ∷ broker_member [] (codes "a") (Some (codes "1"))
              ∷ meta.ProducerIds (record { broker_id = negsuc 0; broker_epoch = negsuc 0; next = pos 1000 }) ∷ [];
        } ∷ [] }
{}

/// A quota comes before a credential, both before an access control entry, and the state of the migration comes last.
pub fn worked_users()
    ensures order { snapshot_batches (pos 3) (image_of_records (meta.ZkMigrationState (pos 1) ∷ entry 1 (pos 2) (codes "t") ∷ credential (codes "u") (pos 1) (pos 4096) ∷ user_quota (codes "u") (codes "producer_byte_rate") false ∷ []))
        ≡ record {
          first = pos 0;
          epoch = pos 3;
          time = pos 0;
          items = user_quota (codes "u") (codes "producer_byte_rate") false ∷ credential (codes "u") (pos 1) (pos 4096) ∷ entry 1 (pos 2) (codes "t") ∷ meta.ZkMigrationState (pos 1) ∷ [];
        } ∷ [] }
{}

/// A broker's registration comes before the topics, and keeps the epoch that the controller gave to it.
pub fn worked_brokers()
    ensures first { snapshot_batches (pos 3) (image_of_records (topic (codes "t") 1 ∷ registration (pos 1) (pos 5) ∷ []))
        ≡ record { first = pos 0; epoch = pos 3; time = pos 0; items = registration (pos 1) (pos 5) ∷ topic (codes "t") 1 ∷ [] } ∷ [] }
{}
