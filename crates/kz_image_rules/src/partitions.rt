//! Partitions that records make and change.
ghost use Rattle.std.specs.Prelude.{◌≡◌, ◌+ℤ◌, pos, negsuc, true, IfOk, if◌then◌else◌, option_map};
ghost use Rattle.std.specs.List.{list_all};
ghost use Rattle.std.specs.Ordering.{int_eq};
ghost use Rattle.kz_spec_data.specs.ImageRules.{is_epoch, is_replica, is_recovery, is_assigned, is_row, new_row, changed_row, leaves_row, stated_or, states_leader};

use kz_body_parts::{are_replicas, are_some_of, is_in};
use kz_types::{
    Duplicate, MAX_EPOCH, NoMemory, PartitionChangeRecord, PartitionRecord, PartitionRow, Sequence,
};
use std::alloc::Global;
use std::marker::Model;

// A partition as a record makes or leaves it, of lists that are lent. Contracts see it as a partition that was changed in
// epoch 0.
#[derive(Drop)]
struct RowView<'a> {
    replicas: &'a [i32],
    isr: &'a [i32],
    removing: &'a [i32],
    adding: &'a [i32],
    leader: i32,
    recovery: i8,
    leader_epoch: i64,
    partition_epoch: i64,
}

impl<'a> Model for RowView<'a> {
    ghost use Rattle.std.specs.Prelude.{pos};
    ghost use Rattle.kz_types.specs.declared.row.PartitionRow.{PartitionRow};

    ghost Value = { PartitionRow };

    ghost view = { λ v. record {
      replicas = v.replicas.now;
      isr = v.isr.now;
      removing = v.removing.now;
      adding = v.adding.now;
      leader = v.leader;
      recovery = v.recovery;
      leader_epoch = v.leader_epoch;
      partition_epoch = v.partition_epoch;
      controller_epoch = pos 0;
    } };
}

/// Whether an epoch is from 0 to the greatest.
pub fn is_epoch(epoch: i64) -> bool
    ensures { result ≡ is_epoch epoch }
{
    0 <= epoch && epoch <= MAX_EPOCH as i64
}

// Whether no broker's id is negative.
fn are_ids(ids: &[i32]) -> bool
    ensures { result ≡ list_all is_replica ids.now }
{
    ids.iter().all(|id| 0 <= *id)
}

// Whether a code is that of a leader that is recovered, or recovering.
fn is_recovery(recovery: i8) -> bool
    ensures { result ≡ is_recovery recovery }
{
    recovery == 0 || recovery == 1
}

// What is stated, or else what was there before.
fn stated<'a>(change: &'a Option<Sequence<i32>>, before: &'a Sequence<i32>) -> &'a [i32]
    ensures { result.now ≡ stated_or change.entry.now before.entry.now }
{
    match change {
        Some(list) => list.as_slice(),
        None => before.as_slice(),
    }
}

// Whether a change states a leader.
fn states_leader(change: &PartitionChangeRecord) -> bool
    ensures { result ≡ states_leader change.now }
{
    change.leader != -2
}

// The leader that a change leaves.
fn leader_after(change: &PartitionChangeRecord, row: &PartitionRow) -> i32
    ensures { result ≡ (if states_leader change.now then change.now.leader else row.now.leader) }
{
    if states_leader(change) {
        change.leader
    } else {
        row.leader
    }
}

// The recovery that a change leaves.
fn recovery_after(change: &PartitionChangeRecord, row: &PartitionRow) -> i8
    ensures { result ≡ (if int_eq change.now.recovery (negsuc 0) then row.now.recovery else change.now.recovery) }
{
    if change.recovery == -1 {
        row.recovery
    } else {
        change.recovery
    }
}

// One more.
fn next(epoch: i32) -> i64
    ensures { result ≡ epoch +ℤ pos 1 }
{
    epoch as i64 + 1
}

// The leader epoch that a change leaves.
fn leader_epoch_after(change: &PartitionChangeRecord, epoch: i32) -> i64
    ensures { result ≡ (if states_leader change.now then epoch +ℤ pos 1 else epoch) }
{
    if states_leader(change) {
        next(epoch)
    } else {
        epoch as i64
    }
}

impl<'a> RowView<'a> {
    // The partition that a record makes.
    fn made(change: &'a PartitionRecord) -> RowView<'a>
        ensures { result ≡ new_row (pos 0) change.entry.now }
    {
        RowView {
            replicas: change.replicas.as_slice(),
            isr: change.isr.as_slice(),
            removing: change.removing.as_slice(),
            adding: change.adding.as_slice(),
            leader: change.leader,
            recovery: change.recovery,
            leader_epoch: change.leader_epoch as i64,
            partition_epoch: change.partition_epoch as i64,
        }
    }

    // The partition that a change leaves.
    fn changed(change: &'a PartitionChangeRecord, row: &'a PartitionRow) -> RowView<'a>
        ensures { result ≡ changed_row (pos 0) change.entry.now row.entry.now }
    {
        RowView {
            replicas: stated(&change.replicas, &row.replicas),
            isr: stated(&change.isr, &row.isr),
            removing: stated(&change.removing, &row.removing),
            adding: stated(&change.adding, &row.adding),
            leader: leader_after(change, row),
            recovery: recovery_after(change, row),
            leader_epoch: leader_epoch_after(change, row.leader_epoch),
            partition_epoch: next(row.partition_epoch),
        }
    }

    // Whether the brokers may be those of a partition, and one of them its leader.
    fn is_assigned(&self) -> bool
        ensures { result ≡ is_assigned self.now }
    {
        are_replicas(self.replicas)
            && are_ids(self.replicas)
            && are_some_of(self.replicas, self.isr)
            && are_some_of(self.replicas, self.adding)
            && are_some_of(self.replicas, self.removing)
            && (self.leader == -1 || is_in(self.replicas, self.leader))
    }

    // Whether the partition has values that it may have.
    fn is_row(&self) -> bool
        ensures { result ≡ is_row self.now }
    {
        self.is_assigned()
            && is_recovery(self.recovery)
            && is_epoch(self.leader_epoch)
            && is_epoch(self.partition_epoch)
    }
}

/// Whether the partition that a record makes has values that it may have.
pub fn makes_row(change: &PartitionRecord) -> bool
    ensures { result ≡ is_row (new_row (pos 0) change.now) }
{
    RowView::made(change).is_row()
}

/// Whether the partition that a change leaves has values that it may have. One that isn't there has none.
pub fn leaves_row(change: &PartitionChangeRecord, row: Option<&PartitionRow>) -> bool
    ensures { result ≡ leaves_row change.now (option_map (λ r. r.now) row.entry) }
{
    match row {
        Some(row) => RowView::changed(change, row).is_row(),
        None => false,
    }
}

// A copy of what is stated, or else of what was there before.
fn stated_copy(
    alloc: Global,
    change: &Option<Sequence<i32>>,
    before: &Sequence<i32>,
) -> Result<Sequence<i32>, NoMemory>
    ensures { IfOk result (λ made. made ≡ stated_or change.now before.now) }
{
    match change {
        Some(list) => list.copy(alloc),
        None => before.copy(alloc),
    }
}

// One more, of an epoch that isn't the greatest.
fn raised(epoch: i32) -> i32
    requires { is_epoch (epoch +ℤ pos 1) ≡ true }
    ensures { result ≡ epoch +ℤ pos 1 }
{
    epoch + 1
}

// The leader epoch that a change leaves.
fn leader_epoch_raised(change: &PartitionChangeRecord, epoch: i32) -> i32
    requires { is_epoch (if states_leader change.now then epoch +ℤ pos 1 else epoch) ≡ true }
    ensures { result ≡ (if states_leader change.now then epoch +ℤ pos 1 else epoch) }
{
    if states_leader(change) {
        raised(epoch)
    } else {
        epoch
    }
}

// The leader epoch that a change of a partition leaves.
fn next_leader_epoch(change: &PartitionChangeRecord, row: &PartitionRow) -> i32
    requires { is_row (changed_row (pos 0) change.now row.now) ≡ true }
    ensures { result ≡ (if states_leader change.now then row.now.leader_epoch +ℤ pos 1 else row.now.leader_epoch) }
{
    leader_epoch_raised(change, row.leader_epoch)
}

// The partition epoch that a change of a partition leaves.
fn next_partition_epoch(change: &PartitionChangeRecord, row: &PartitionRow) -> i32
    requires { is_row (changed_row (pos 0) change.now row.now) ≡ true }
    ensures { result ≡ row.now.partition_epoch +ℤ pos 1 }
{
    let _ = change;
    raised(row.partition_epoch)
}

/// The partition that a record makes, by a controller of this epoch.
pub fn new_row(
    alloc: Global,
    epoch: i32,
    change: &PartitionRecord,
) -> Result<PartitionRow, NoMemory>
    ensures { IfOk result (λ row. row ≡ new_row epoch change.now) }
{
    Ok(PartitionRow {
        replicas: change.replicas.copy(alloc)?,
        isr: change.isr.copy(alloc)?,
        removing: change.removing.copy(alloc)?,
        adding: change.adding.copy(alloc)?,
        leader: change.leader,
        recovery: change.recovery,
        leader_epoch: change.leader_epoch,
        partition_epoch: change.partition_epoch,
        controller_epoch: epoch,
    })
}

/// The partition that a change leaves, by a controller of this epoch.
pub fn changed_row(
    alloc: Global,
    epoch: i32,
    change: &PartitionChangeRecord,
    row: &PartitionRow,
) -> Result<PartitionRow, NoMemory>
    requires { is_row (changed_row (pos 0) change.now row.now) ≡ true }
    ensures { IfOk result (λ made. made ≡ changed_row epoch change.now row.now) }
{
    Ok(PartitionRow {
        replicas: stated_copy(alloc, &change.replicas, &row.replicas)?,
        isr: stated_copy(alloc, &change.isr, &row.isr)?,
        removing: stated_copy(alloc, &change.removing, &row.removing)?,
        adding: stated_copy(alloc, &change.adding, &row.adding)?,
        leader: leader_after(change, row),
        recovery: recovery_after(change, row),
        leader_epoch: next_leader_epoch(change, row),
        partition_epoch: next_partition_epoch(change, row),
        controller_epoch: epoch,
    })
}
