//! A store that holds a metadata log.
ghost use Rattle.std.specs.Prelude.{◌≡◌, ◌<◌, ◌≤ℤ◌, ℕ, true, false, Option, pos, length, IfOk, IfErr, OnOk, OnErr, IsErrOf, Ok};
ghost use Rattle.kz_spec_data.specs.Log as logs;
ghost use Rattle.kz_spec_data.specs.Log.{Log, IsLog, end_of, feed_from, may_be_base};
ghost use Rattle.kz_spec_data.specs.Requests.{Disk, LogChange, Append, Elect, Reset, Snapshot, answer_of_log_fault, answer_by, IsTaken, ChangesDisk, ReadsDisk, Only, Between};
ghost use Rattle.kz_log.specs.Requests.{IsElected, IsFeed, IsRefusal, made_by_reset, made_by_snapshot};

use kz_image::Feed;
use kz_types::{LogFault, MetaRecord};

/// What an election answers.
#[derive(Clone, Copy, Debug, PartialEq, Eq)]
pub struct Elected {
    /// The epoch of the log from now on.
    pub epoch: i32,
    /// The last offset.
    pub end: i64,
}

/// A store that holds a committed metadata log (KIP-595, KIP-630), in memory or on a disk. Its offsets begin at 0.
pub trait MetaLog {
    /// The log as it stands.
    ghost log: { Self → Log };

    /// What the store tells of its disk: how often a call of it has failed, whether the store is down, which it is from the
    /// first request on that answers `Failed`, and its file, where it has one.
    ghost disk: { Self → Disk };

    /// The bytes of the payload of the frame that the store's file gets for a change of a log. Nothing refuses the change.
    ghost payload_bytes: { Log → LogChange → ℕ };

    /// What a stop at this moment may leave: a log, or `None` where what is left stands for none. A store in memory leaves
    /// nothing.
    ghost left: { Self → Option Log → Type 0 };

    /// The epoch of the controller that was elected last, or 0.
    fn epoch(&self) -> i32
        ensures { result ≡ (log self.now).epoch };

    /// The offset up to which the log is metadata alone, or -1 where it begins with its first record.
    fn base(&self) -> i64
        ensures { result ≡ (log self.now).base };

    /// The last offset, or the base where there is no record after it.
    fn end(&self) -> i64
        ensures { result ≡ end_of (log self.now) };

    /// A controller of this epoch appends a batch, and is told its last offset. Refused are, in this order: `Stale` with the
    /// log's epoch where the controller's is another; `Limit` with the number of `Limit::Records` where the log would have
    /// more than `MAX_RECORDS` records after its base, and with that of `Limit::Long` where its last offset would be above
    /// `MAX_LONG`. Where nothing refuses the batch: `Full` with the bytes that the file would have, where these are more than
    /// `MAX_FILE_BYTES`; `Failed` where a call of the disk fails. `Down`: one failed in an earlier request. `NoMemory`.
    fn append(&mut self, epoch: i32, now: i64, items: &[MetaRecord]) -> Result<i64, LogFault>
        requires some { 0 < length items.now }
        requires elected { pos 1 ≤ℤ epoch }
        ensures ok { IfOk result (λ end. (logs.append (log self.old) epoch now items.now ≡ Ok (log self.new)) × (end ≡ end_of (log self.new))) }
        ensures refused { IfErr result (IsRefusal (logs.append (log self.old) epoch now items.now)) }
        ensures same { OnErr result (log self.new ≡ log self.old) }
        ensures disk { ChangesDisk (IsTaken (logs.append (log self.old) epoch now items.now)) (payload_bytes (log self.old) (Append epoch now items.now)) (answer_by answer_of_log_fault result) (disk self.old) (disk self.new) }
        ensures stop { IsErrOf result LogFault.Failed → Between (log self.old) (logs.append (log self.old) epoch now items.now) (left self.new) };

    /// A controller is elected: the epoch rises by one, and a batch of that epoch is appended. Refused are, in this order:
    /// `Limit` with the number of `Limit::Epoch` where the epoch is `MAX_EPOCH`, and then as in an append. The faults of the
    /// disk and `NoMemory` are those of an append too.
    fn elect(&mut self, now: i64, items: &[MetaRecord]) -> Result<Elected, LogFault>
        requires { 0 < length items.now }
        ensures ok { IfOk result (λ elected. (logs.elect (log self.old) now items.now ≡ Ok (log self.new)) × IsElected (log self.new) elected) }
        ensures refused { IfErr result (IsRefusal (logs.elect (log self.old) now items.now)) }
        ensures same { OnErr result (log self.new ≡ log self.old) }
        ensures disk { ChangesDisk (IsTaken (logs.elect (log self.old) now items.now)) (payload_bytes (log self.old) (Elect now items.now)) (answer_by answer_of_log_fault result) (disk self.old) (disk self.new) }
        ensures stop { IsErrOf result LogFault.Failed → Between (log self.old) (logs.elect (log self.old) now items.now) (left self.new) };

    /// The batches after an offset, and, where the offset is below the base, the base with its metadata. It makes no call of
    /// the disk: the faults are `Down`, where one failed in an earlier request, and `NoMemory`.
    fn read_from(&mut self, after: i64) -> Result<Feed, LogFault>
        ensures ok { IfOk result (λ feed. IsFeed (feed_from (log self.old) after) feed) }
        ensures same { log self.new ≡ log self.old }
        ensures disk { ReadsDisk (answer_by answer_of_log_fault result) (disk self.old) (disk self.new) };

    /// Drops all batches and the base. The epoch stays. Nothing refuses it; the faults of the disk and `NoMemory` are those of
    /// an append.
    fn reset(&mut self) -> Result<(), LogFault>
        ensures ok { OnOk result (log self.new ≡ logs.reset (log self.old)) }
        ensures refused { IfErr result (IsRefusal (made_by_reset (log self.old))) }
        ensures same { OnErr result (log self.new ≡ log self.old) }
        ensures disk { ChangesDisk (IsTaken (made_by_reset (log self.old))) (payload_bytes (log self.old) Reset) (answer_by answer_of_log_fault result) (disk self.old) (disk self.new) }
        ensures stop { IsErrOf result LogFault.Failed → Between (log self.old) (made_by_reset (log self.old)) (left self.new) };

    /// Cuts the log at an offset, a batch end at which no transaction is open: up to it, the log is its metadata alone from then on
    /// (KIP-630). Nothing refuses it; the faults of the disk and `NoMemory` are those of an append.
    fn snapshot(&mut self, offset: i64) -> Result<(), LogFault>
        requires { may_be_base (log self.old) offset ≡ true }
        ensures ok { OnOk result (log self.new ≡ logs.snapshot (log self.old) offset) }
        ensures refused { IfErr result (IsRefusal (made_by_snapshot (log self.old) offset)) }
        ensures same { OnErr result (log self.new ≡ log self.old) }
        ensures disk { ChangesDisk (IsTaken (made_by_snapshot (log self.old) offset)) (payload_bytes (log self.old) (Snapshot offset)) (answer_by answer_of_log_fault result) (disk self.old) (disk self.new) }
        ensures stop { IsErrOf result LogFault.Failed → Between (log self.old) (made_by_snapshot (log self.old) offset) (left self.new) };

    /// What the store holds is a log.
    ghost is_log: { (s : Self) → IsLog (log s) };

    /// While the store isn't down, a stop leaves the log as it stands, and nothing else.
    ghost settled: { (s : Self) → (disk s).down ≡ false → Only (log s) (left s) };
}
