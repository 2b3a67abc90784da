//! Lists of brokers.
ghost use Rattle.std.specs.Prelude.{◌≡◌};
ghost use Rattle.std.specs.List.{list_all};
ghost use Rattle.kz_types.specs.Numbers.{is_in, are_distinct};
ghost use Rattle.kz_spec_data.specs.Bodies.{are_replicas, are_some_of};

/// Whether a broker is among these.
pub fn is_in(ids: &[i32], id: i32) -> bool
    ensures { result ≡ is_in ids.now id }
{
    ids.iter().any(|other| id == *other)
}

/// Whether no id stands twice.
pub fn are_distinct(ids: &[i32]) -> bool
    ensures { result ≡ are_distinct ids.now }
{
    for at in 0..ids.len() {
        if is_in(&ids[at + 1..], ids[at]) {
            return false;
        }
    }
    true
}

/// Whether these may be the replicas of a partition: at least one, and none twice.
pub fn are_replicas(ids: &[i32]) -> bool
    ensures { result ≡ are_replicas ids.now }
{
    !ids.is_empty() && are_distinct(ids)
}

// Whether each broker is a replica.
fn are_in(replicas: &[i32], ids: &[i32]) -> bool
    ensures { result ≡ list_all (is_in replicas.now) ids.now }
{
    ids.iter().all(|id| is_in(replicas, *id))
}

/// Whether these are some of the replicas, none twice.
pub fn are_some_of(replicas: &[i32], ids: &[i32]) -> bool
    ensures { result ≡ are_some_of replicas.now ids.now }
{
    are_distinct(ids) && are_in(replicas, ids)
}
