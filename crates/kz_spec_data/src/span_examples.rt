//! Laws by example: the paths that keys span.
#![tactic(auto, unfolding(kz_types::specs::Paths::path_of))]

ghost use Rattle.std.specs.Prelude.{◌≡◌, [], ◌∷◌, Some, None, pos, codes};
ghost use Rattle.kz_types.specs.declared.key.EntityKey.TheVariants as key;
ghost use Rattle.kz_spec_data.specs.Spans.{spanned_paths};

/// A partition spans its state, its number, the parent of the partitions, and the topic. A client of a user spans the user and
/// the parent of its clients. Any other key spans its own path alone, but for a topic.
pub fn worked_spans()
    ensures topic { spanned_paths (key.Topic (codes "t")) ≡ codes "/brokers/topics/t" ∷ codes "/brokers/topics/t/partitions" ∷ [] }
    ensures partition { spanned_paths (key.Partition (codes "t") (pos 7)) ≡ codes "/brokers/topics/t" ∷ codes "/brokers/topics/t/partitions" ∷ codes "/brokers/topics/t/partitions/7" ∷ codes "/brokers/topics/t/partitions/7/state" ∷ [] }
    ensures config { spanned_paths (key.TopicConfig (codes "t")) ≡ codes "/config/topics/t" ∷ [] }
    ensures client { spanned_paths (key.UserClient (Some (codes "a")) None) ≡ codes "/config/users/a" ∷ codes "/config/users/a/clients" ∷ codes "/config/users/a/clients/<default>" ∷ [] }
    ensures producer { spanned_paths key.Producer ≡ codes "/latest_producer_id_block" ∷ [] }
{}
