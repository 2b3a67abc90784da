//! Appends by a leader.
ghost use Rattle.std.specs.Prelude.{◌≡◌, ◌<◌, pos, false, ◌≤ℤ◌, length, None, IfNone, IfSome, IfOk, OnErr};
ghost use Rattle.kz_spec_data.specs.Image.{all_applied};
ghost use Rattle.kz_spec_data.specs.Log.{end_of};
ghost use Rattle.kz_spec_machine.specs.Failures.{is_failure};
ghost use Rattle.kz_driver.specs.Disks.{payloads_of};
ghost use Rattle.kz_world_parts.specs.EventDisks.{disks_in, AppendsRecords};
ghost use Rattle.kz_world_parts.specs.EventStops.{FailureLeaves, append_pairs};
ghost use Rattle.kz_world_parts.specs.Refusals.{records_refusal};
ghost use Rattle.kz_world_parts.specs.Worlds.{world_of, world_of_parts, world_after_append, IsAppended, AreKept};

use crate::faults::{EventFault, after_log_fault};
use crate::parts::Parts;
use kz_counted_view::{CountedImage, CountedView};
use kz_log::MetaLog;
use kz_tree::ZTree;
use kz_types::{Answer, MetaRecord};

/// The leader appends these records, where the log has room for them.
pub fn append<T: ZTree, L: MetaLog>(
    parts: &mut Parts<T, L>,
    records: &[MetaRecord],
    now: i64,
) -> Result<Answer, EventFault>
    requires kept { AreKept L.log parts.old }
    requires elected { pos 1 ≤ℤ (L.log parts.old.log.inner).epoch }
    requires some { 0 < length records.now }
    ensures ok { IfOk result (λ answer. (world_after_append (world_of T.tree L.log parts.old) records.now now ≡ (world_of T.tree L.log parts.new, answer)) × (is_failure answer ≡ false)) }
    ensures appended { IfOk result (IsAppended (L.log parts.old.log.inner) records.now now (L.log parts.new.log.inner)) }
    ensures view { parts.new.view ≡ parts.old.view }
    ensures kept { AreKept L.log parts.new }
    ensures err { OnErr result (world_of T.tree L.log parts.new ≡ world_of T.tree L.log parts.old) }
    ensures disks { AppendsRecords (L.log parts.old.log.inner) records.now now (payloads_of T.payload_bytes L.payload_bytes) result (disks_in T.disk L.disk (world_of_parts parts.old)) (disks_in T.disk L.disk (world_of_parts parts.new)) }
    ensures stop { FailureLeaves (world_of T.tree L.log parts.old) (append_pairs (world_of T.tree L.log parts.old) records.now now) result (disks_in T.disk L.disk (world_of_parts parts.old)) (T.left parts.new.tree.inner) (L.left parts.new.log.inner) }
{
    let epoch = parts.log.inner().epoch();
    match parts.log.inner_mut().append(epoch, now, records) {
        Ok(offset) => Ok(Answer::Appended { offset }),
        Err(fault) => after_log_fault(fault),
    }
}

// The view at a log's end takes what was appended, where no transaction is open there; where one is, it stays.
fn take_appended(view: &mut CountedView, position: i64, epoch: i32, made: CountedImage)
    ensures none { IfNone view.old.begun (view.new ≡ record view.old { position = position; epoch = epoch; image = made }) }
    ensures open { IfSome view.old.begun (λ _. view.new ≡ view.old) }
{
    if view.begun().is_none() {
        view.put_appended(position, epoch, made);
    }
}

/// The leader appends records that nothing refuses but the log's room; the metadata is what they make of that at the log's end, to which
/// the view has read. Once they are appended, the view is at the log's end again, unless a transaction is open there.
pub fn append_judged<T: ZTree, L: MetaLog>(
    parts: &mut Parts<T, L>,
    records: &[MetaRecord],
    now: i64,
    made: CountedImage,
) -> Result<Answer, EventFault>
    requires kept { AreKept L.log parts.old }
    requires elected { pos 1 ≤ℤ (L.log parts.old.log.inner).epoch }
    requires some { 0 < length records.now }
    requires end { parts.old.view.position ≡ end_of (L.log parts.old.log.inner) }
    requires accepted { records_refusal (L.log parts.old.log.inner).epoch parts.old.view.image records.now ≡ None }
    requires made { made ≡ all_applied (L.log parts.old.log.inner).epoch records.now parts.old.view.image }
    ensures ok { IfOk result (λ answer. (world_after_append (world_of T.tree L.log parts.old) records.now now ≡ (world_of T.tree L.log parts.new, answer)) × (is_failure answer ≡ false)) }
    ensures kept { AreKept L.log parts.new }
    ensures err { OnErr result (world_of T.tree L.log parts.new ≡ world_of T.tree L.log parts.old) }
    ensures disks { AppendsRecords (L.log parts.old.log.inner) records.now now (payloads_of T.payload_bytes L.payload_bytes) result (disks_in T.disk L.disk (world_of_parts parts.old)) (disks_in T.disk L.disk (world_of_parts parts.new)) }
    ensures stop { FailureLeaves (world_of T.tree L.log parts.old) (append_pairs (world_of T.tree L.log parts.old) records.now now) result (disks_in T.disk L.disk (world_of_parts parts.old)) (T.left parts.new.tree.inner) (L.left parts.new.log.inner) }
{
    let epoch = parts.log.inner().epoch();
    match append(parts, records, now) {
        Ok(Answer::Appended { offset }) => {
            take_appended(&mut parts.view, offset, epoch, made);
            Ok(Answer::Appended { offset })
        }
        Ok(answer) => Ok(answer),
        Err(fault) => Err(fault),
    }
}
