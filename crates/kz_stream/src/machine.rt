//! What a run asks of the machine.
ghost use Rattle.std.specs.Prelude.{◌≡◌, true, false, Option, IfOk};
ghost use Rattle.kz_spec_data.specs.Tree.{Tree};
ghost use Rattle.kz_spec_data.specs.Log.{Log, end_of};
ghost use Rattle.kz_spec_data.specs.Requests.{Only};
ghost use Rattle.kz_spec_machine.specs.Machine.{World, next};
ghost use Rattle.kz_spec_machine.specs.Sound.{Sound, IsLawful};
ghost use Rattle.kz_spec_machine.specs.Failures.{is_failure, IsLeft};
ghost use Rattle.kz_spec_machine.specs.Output.{recorded_offset};
ghost use Rattle.kz_world_parts.specs.Disks.{Disks};
ghost use Rattle.kz_world_parts.specs.TurnStops.{AreUp, LeavesOneOf, failure_pairs};
ghost use Rattle.kz_stream.specs.Failures.{failure_of};
ghost use Rattle.kz_stream.specs.FailureDisks.{AnswerDisks};

use kz_types::{Answer, Event, NoMemory};

/// A machine that has a world: a tree, a log, and the controllers that run.
pub trait Machine {
    /// The world that it has.
    ghost world: { Self → World };

    /// What it tells of the disks below its tree and its log.
    ghost disks: { Self → Disks };

    /// What a stop at this moment may leave of the tree.
    ghost tree_left: { Self → Option Tree → Type 0 };

    /// What a stop at this moment may leave of the log.
    ghost log_left: { Self → Option Log → Type 0 };

    /// Lets an event happen, as a line of a script gives it, and answers it. Of a world that isn't sound nothing is said. A sound
    /// one stays so. An event that fails leaves the world as it was, but for a turn: the last reply of `Turn` tells the failure after
    /// the replies of the steps before, and the world is as these left it. A rollback that fails may have reset the log. Where neither
    /// store was down, a disk fails exactly where the event does by it, and a stop after a failure finds the tree and the log from
    /// before the event, or those after one of its requests; after a turn, those from before its last step, or that step's.
    fn event(&mut self, event: &Event) -> Answer
        requires { IsLawful event.now }
        ensures next { Sound (world self.old) → is_failure result ≡ false → next (world self.old) event.now ≡ (world self.new, result) }
        ensures failed { Sound (world self.old) → is_failure result ≡ true → IsLeft (world self.old) event.now result (world self.new) }
        ensures sound { Sound (world self.old) → Sound (world self.new) }
        ensures disks { Sound (world self.old) → AreUp (disks self.old) → AnswerDisks (failure_of result) (disks self.old) (disks self.new) }
        ensures stop { Sound (world self.old) → AreUp (disks self.old) → is_failure result ≡ true
            → LeavesOneOf (failure_pairs (world self.old) event.now result) (tree_left self.new) (log_left self.new) };

    /// The last transaction of the tree.
    fn zxid(&self) -> i64
        ensures { result ≡ (world self.now).shared.tree.zxid };

    /// The last offset of the log.
    fn end(&self) -> i64
        ensures { result ≡ end_of (world self.now).shared.log };

    /// The offset that the tree records.
    fn recorded(&self) -> Result<Option<i64>, NoMemory>
        ensures { IfOk result (λ offset. offset ≡ recorded_offset (world self.now).shared.tree) };

    /// While neither store is down, a stop leaves the tree and the log as they stand.
    ghost settled: { (m : Self) → AreUp (disks m) → Only (world m).shared.tree (tree_left m) × Only (world m).shared.log (log_left m) };
}
