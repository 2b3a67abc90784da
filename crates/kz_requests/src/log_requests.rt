//! Requests of the log.
ghost use Rattle.std.specs.Prelude.{◌≡◌, ◌<◌, ◌≤ℤ◌, true, false, pos, IfOk, OnOk, OnErr, IsErrOf, if◌then◌else◌, length};
ghost use Rattle.kz_spec_data.specs.Requests.{Append, Done, Either, IsTaken, ChangesDisk, ReadsDisk};
ghost use Rattle.kz_spec_data.specs.Log.{View as ViewValue, IsViewOf, append, feed_from, read_view};
ghost use Rattle.kz_log.specs.Requests.{IsFeed};
ghost use Rattle.kz_spec_machine.specs.Driver.{is_limit, reaches};
ghost use Rattle.kz_requests.specs.Fares.{Fares, IsAfterRequest, fault_of_log_read};
ghost use Rattle.kz_requests.specs.Appends.{IsAppendAnswer, log_after};
ghost use Rattle.kz_requests.specs.Disks.{answer_of_made, LogDisk};

use crate::fault::StepFault;
use kz_log::{Feed, LogWire, LogWireFault, MetaLog, View};
use kz_types::{LogFault, MetaRecord, NoMemory};

// Why a read of the log has no answer.
fn read_fault(fault: LogWireFault) -> StepFault
    ensures { result ≡ fault_of_log_read fault }
{
    match fault {
        LogWireFault::Lost => StepFault::Lost,
        LogWireFault::Log(LogFault::NoMemory) => StepFault::NoMemory,
        LogWireFault::Log(other) => StepFault::Log(other),
    }
}

/// What a log holds after a view of it. `Lost` by the plan of the connection; `Log`: the store failed; `NoMemory`.
pub fn read_feed<L: MetaLog>(view: &View, log: &mut LogWire<L>) -> Result<Feed, StepFault>
    ensures ok { IfOk result (IsFeed (feed_from (L.log log.old.inner) view.now.position)) }
    ensures same { L.log log.new.inner ≡ L.log log.old.inner }
    ensures fares { Fares true false result log.old log.new }
    ensures disk { LogDisk ReadsDisk Done log.old.plan result (L.disk log.old.inner) (L.disk log.new.inner) }
{
    match log.read_from(view.position()) {
        Ok(feed) => Ok(feed),
        Err(fault) => Err(read_fault(fault)),
    }
}

/// Brings a view to the log's end. Where the latest view of the log stands there, its metadata are shared. At `Err` the view is as
/// it was. `Lost` by the plan of the connection; `Log`: the store failed; `NoMemory`.
pub fn read<L: MetaLog>(
    view: &mut View,
    log: &mut LogWire<L>,
    latest: &View,
) -> Result<(), StepFault>
    requires view { IsViewOf (L.log log.old.inner) view.old }
    requires latest { IsViewOf (L.log log.old.inner) latest.now }
    ensures ok { OnOk result (view.new ≡ read_view (L.log log.old.inner) view.old) }
    ensures view { IsViewOf (L.log log.new.inner) view.new }
    ensures err { OnErr result (view.new ≡ view.old) }
    ensures same { L.log log.new.inner ≡ L.log log.old.inner }
    ensures fares { Fares true false result log.old log.new }
    ensures disk { LogDisk ReadsDisk Done log.old.plan result (L.disk log.old.inner) (L.disk log.new.inner) }
{
    let feed = match read_feed(view, log) {
        Ok(feed) => feed,
        Err(fault) => return Err(fault),
    };
    match view.advance_beside(feed, latest) {
        Ok(()) => Ok(()),
        Err(NoMemory) => Err(StepFault::NoMemory),
    }
}

/// A controller of this epoch appends records, and is told the last offset or the refusal. `Lost` by the plan of the
/// connection, but where a limit refuses them; `Log`: the store failed, and the log is as it was; `NoMemory`.
pub fn append<L: MetaLog>(
    log: &mut LogWire<L>,
    epoch: i32,
    now: i64,
    items: &[MetaRecord],
) -> Result<Result<i64, LogFault>, StepFault>
    requires { (0 < length items.now) × (pos 1 ≤ℤ epoch) }
    ensures said { IfOk result (IsAppendAnswer (append (L.log log.old.inner) epoch now items.now)) }
    ensures log { IsAfterRequest (reaches log.old.plan true) (log_after (append (L.log log.old.inner) epoch now items.now) (L.log log.old.inner)) (L.log log.old.inner) result (L.log log.new.inner) }
    ensures views { (v : ViewValue) → IsViewOf (L.log log.old.inner) v → IsViewOf (L.log log.new.inner) v }
    ensures fares { Fares true (is_limit (append (L.log log.old.inner) epoch now items.now)) result log.old log.new }
    ensures disk { LogDisk (ChangesDisk (IsTaken (append (L.log log.old.inner) epoch now items.now)) (L.payload_bytes (L.log log.old.inner) (Append epoch now items.now)))
        (answer_of_made (append (L.log log.old.inner) epoch now items.now)) log.old.plan result (L.disk log.old.inner) (L.disk log.new.inner) }
    ensures stop { IsErrOf result (StepFault.Log LogFault.Failed) → Either (L.log log.old.inner)
        (if reaches log.old.plan true then log_after (append (L.log log.old.inner) epoch now items.now) (L.log log.old.inner) else L.log log.old.inner) (L.left log.new.inner) }
{
    match log.append(epoch, now, items) {
        Ok(end) => Ok(Ok(end)),
        Err(LogWireFault::Lost) => Err(StepFault::Lost),
        Err(LogWireFault::Log(LogFault::Stale { epoch })) => Ok(Err(LogFault::Stale { epoch })),
        Err(LogWireFault::Log(LogFault::Limit { number })) => Ok(Err(LogFault::Limit { number })),
        Err(LogWireFault::Log(LogFault::NoMemory)) => Err(StepFault::NoMemory),
        Err(LogWireFault::Log(LogFault::Failed)) => Err(StepFault::Log(LogFault::Failed)),
        Err(LogWireFault::Log(LogFault::Down)) => Err(StepFault::Log(LogFault::Down)),
        Err(LogWireFault::Log(LogFault::Full { length })) => {
            Err(StepFault::Log(LogFault::Full { length }))
        }
    }
}
