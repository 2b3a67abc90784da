//! The records of a partition's state: none, where it can be read and fits the brokers of the partition.
ghost use Rattle.std.specs.Prelude.{◌≡◌, [], not, option_map, IfOk, Ok, codes, if◌then◌else◌};
ghost use Rattle.kz_spec_data.specs.Bodies.{are_some_of};
ghost use Rattle.kz_spec_data.specs.Translation.{leader_of, may_lead, bad_field, records_of_state, records_if_assigned};

use kz_body_parts::{are_some_of, is_in};
use kz_types::{AssignmentRow, Body, BodyFault, MetaRecord, NoMemory, ReadWhy, Sequence, Text};
use std::alloc::Global;

/// A leader of -2 is none, as -1 is.
pub fn leader_of(leader: i32) -> i32
    ensures { result ≡ leader_of leader }
{
    if leader == -2 { -1 } else { leader }
}

// None, or a replica.
fn may_lead(replicas: &[i32], leader: i32) -> bool
    ensures { result ≡ may_lead replicas.now leader }
{
    leader == -1 || is_in(replicas, leader)
}

// The fault of a member's value.
fn bad_field(alloc: Global, name: &str) -> Result<Result<Sequence<MetaRecord>, ReadWhy>, NoMemory>
    ensures { IfOk result (λ records. records ≡ bad_field name.now) }
{
    Ok(Err(ReadWhy::Body(BodyFault::BadField {
        field: Text::from_str(alloc, name)?,
    })))
}

// The records of a state with this leader and these brokers in sync.
fn state_records(
    alloc: Global,
    replicas: &[i32],
    leader: i32,
    isr: &[i32],
) -> Result<Result<Sequence<MetaRecord>, ReadWhy>, NoMemory>
    ensures { IfOk result (λ records. records ≡ (if not (are_some_of replicas.now isr.now) then bad_field (codes "isr")
        else if not (may_lead replicas.now (leader_of leader)) then bad_field (codes "leader")
        else Ok [])) }
{
    if !are_some_of(replicas, isr) {
        return bad_field(alloc, "isr");
    }
    if !may_lead(replicas, leader_of(leader)) {
        return bad_field(alloc, "leader");
    }
    Ok(Ok(Sequence::new(alloc)))
}

// The records of the state of a partition with these replicas.
fn records_of_state(
    alloc: Global,
    replicas: &[i32],
    read: Result<Body, BodyFault>,
) -> Result<Result<Sequence<MetaRecord>, ReadWhy>, NoMemory>
    ensures { IfOk result (λ records. records ≡ records_of_state replicas.now read) }
{
    match read {
        Ok(Body::State { leader, isr, .. }) => {
            state_records(alloc, replicas, leader, isr.as_slice())
        }
        Ok(_) => Ok(Ok(Sequence::new(alloc))),
        Err(fault) => Ok(Err(ReadWhy::Body(fault))),
    }
}

/// The records of a partition's state, or why there are none. The state of a partition that isn't assigned isn't read.
pub fn records_if_assigned(
    alloc: Global,
    assigned: Option<&AssignmentRow>,
    read: Result<Body, BodyFault>,
) -> Result<Result<Sequence<MetaRecord>, ReadWhy>, NoMemory>
    ensures { IfOk result (λ records. records ≡ records_if_assigned (option_map (λ a. a.now) assigned.entry) read) }
{
    match assigned {
        Some(row) => records_of_state(alloc, row.replicas.as_slice(), read),
        None => Ok(Ok(Sequence::new(alloc))),
    }
}
