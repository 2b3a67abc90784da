//! Requests of the tree.
ghost use Rattle.std.specs.Prelude.{◌≡◌, ◌<◌, ℕ, false, IfOk, IfSome, IsErrOf, MatchOption, Ok, Err, option_map, if◌then◌else◌, length};
ghost use Rattle.kz_types.specs.declared.fault.TreeFault.TheVariants.{Limit};
ghost use Rattle.kz_types.specs.Order.{bytes_cmp};
ghost use Rattle.kz_types.specs.Ordered.{Rises};
ghost use Rattle.kz_spec_data.specs.Requests.{Multi, Done, Either, IsTaken, ChangesDisk, ReadsDisk};
ghost use Rattle.kz_spec_data.specs.Tree.{path_of_op, multi, scan, look, broker_ids, path_of_row};
ghost use Rattle.kz_spec_machine.specs.Driver.{path_at, reaches};
ghost use Rattle.kz_requests.specs.Fares.{Fares, IsAfterRequest, fault_of_read, tree_after};
ghost use Rattle.kz_requests.specs.Disks.{answer_of_made, TreeDisk};

use crate::fault::StepFault;
use kz_tree::{Wire, WireFault, ZTree};
use kz_types::{Duplicate, NoMemory, Op, Row, TreeFault, ZPath};
use std::alloc::Global;

// Why a read of the tree has no answer.
fn read_fault(fault: WireFault) -> StepFault
    ensures { result ≡ fault_of_read fault }
{
    match fault {
        WireFault::Lost => StepFault::Lost,
        WireFault::Expired => StepFault::Expired,
        WireFault::Tree(TreeFault::NoMemory) => StepFault::NoMemory,
        WireFault::Tree(other) => StepFault::Tree(other),
    }
}

/// Asks the tree for a multi, and answers its refusal where it has one. The operation that a limit names is one of them.
/// `Lost` and `Expired` by the plan of the connection; `Tree`: the store failed, and the tree is as it was; `NoMemory`.
#[tactic(auto, using(crate::proofs::Faults::limit_told))]
pub fn multi<T: ZTree>(tree: &mut Wire<T>, ops: &[Op]) -> Result<Option<TreeFault>, StepFault>
    requires { 0 < length ops.now }
    ensures said { IfOk result (λ fault. MatchOption fault
        (multi (T.tree tree.old.inner) ops.now ≡ Ok (T.tree tree.new.inner))
        (λ f. multi (T.tree tree.old.inner) ops.now ≡ Err f)) }
    ensures within { IfOk result (λ fault. IfSome fault (λ f. (index number : ℕ) → f ≡ Limit index number → index < length ops.now)) }
    ensures tree { IsAfterRequest (reaches tree.old.plan false) (tree_after (multi (T.tree tree.old.inner) ops.now) (T.tree tree.old.inner)) (T.tree tree.old.inner) result (T.tree tree.new.inner) }
    ensures fares { Fares false false result tree.old tree.new }
    ensures disk { TreeDisk (ChangesDisk (IsTaken (multi (T.tree tree.old.inner) ops.now)) (T.payload_bytes (T.tree tree.old.inner) (Multi ops.now)))
        (answer_of_made (multi (T.tree tree.old.inner) ops.now)) tree.old.plan result (T.disk tree.old.inner) (T.disk tree.new.inner) }
    ensures stop { IsErrOf result (StepFault.Tree TreeFault.Device) → Either (T.tree tree.old.inner)
        (if reaches tree.old.plan false then tree_after (multi (T.tree tree.old.inner) ops.now) (T.tree tree.old.inner) else T.tree tree.old.inner) (T.left tree.new.inner) }
{
    match tree.multi(ops) {
        Ok(_) => Ok(None),
        Err(WireFault::Lost) => Err(StepFault::Lost),
        Err(WireFault::Expired) => Err(StepFault::Expired),
        Err(WireFault::Tree(TreeFault::Refused { index, code })) => {
            Ok(Some(TreeFault::Refused { index, code }))
        }
        Err(WireFault::Tree(TreeFault::Limit { index, number })) => {
            Ok(Some(TreeFault::Limit { index, number }))
        }
        Err(WireFault::Tree(TreeFault::NoMemory)) => Err(StepFault::NoMemory),
        Err(WireFault::Tree(TreeFault::Device)) => Err(StepFault::Tree(TreeFault::Device)),
        Err(WireFault::Tree(TreeFault::Down)) => Err(StepFault::Tree(TreeFault::Down)),
        Err(WireFault::Tree(TreeFault::Full { length })) => {
            Err(StepFault::Tree(TreeFault::Full { length }))
        }
    }
}

/// The first `limit` znodes of the migrated area after a path, or its first ones. The faults are those of [`multi`].
pub fn page<T: ZTree>(
    tree: &mut Wire<T>,
    after: Option<&ZPath>,
    limit: usize,
) -> Result<Vec<Row>, StepFault>
    ensures ok { IfOk result (λ rows. rows.items ≡ scan (T.tree tree.old.inner) (option_map (λ path. path.now) after.entry) limit) }
    ensures rising { IfOk result (λ rows. Rises bytes_cmp path_of_row rows.items) }
    ensures same { T.tree tree.new.inner ≡ T.tree tree.old.inner }
    ensures fares { Fares false false result tree.old tree.new }
    ensures disk { TreeDisk ReadsDisk Done tree.old.plan result (T.disk tree.old.inner) (T.disk tree.new.inner) }
{
    match tree.scan(after, limit) {
        Ok(rows) => Ok(rows),
        Err(fault) => Err(read_fault(fault)),
    }
}

/// The znodes at these paths, in their order. The faults are those of [`multi`].
pub fn rows_at<T: ZTree>(tree: &mut Wire<T>, paths: &[ZPath]) -> Result<Vec<Option<Row>>, StepFault>
    ensures ok { IfOk result (λ rows. rows.items ≡ look (T.tree tree.old.inner) paths.now) }
    ensures same { T.tree tree.new.inner ≡ T.tree tree.old.inner }
    ensures fares { Fares false false result tree.old tree.new }
    ensures disk { TreeDisk ReadsDisk Done tree.old.plan result (T.disk tree.old.inner) (T.disk tree.new.inner) }
{
    match tree.look(paths) {
        Ok(rows) => Ok(rows),
        Err(fault) => Err(read_fault(fault)),
    }
}

/// The ids of the brokers that are there, rising. The faults are those of [`multi`].
pub fn broker_ids<T: ZTree>(tree: &mut Wire<T>) -> Result<Vec<i32>, StepFault>
    ensures ok { IfOk result (λ ids. ids.items ≡ broker_ids (T.tree tree.old.inner)) }
    ensures same { T.tree tree.new.inner ≡ T.tree tree.old.inner }
    ensures fares { Fares false false result tree.old tree.new }
    ensures disk { TreeDisk ReadsDisk Done tree.old.plan result (T.disk tree.old.inner) (T.disk tree.new.inner) }
{
    match tree.broker_ids() {
        Ok(ids) => Ok(ids),
        Err(fault) => Err(read_fault(fault)),
    }
}

/// The path that an operation names.
pub fn path_of_op(op: &Op) -> &ZPath
    ensures { result.now ≡ path_of_op op.entry.now }
{
    match op {
        Op::Create { path, .. } => path,
        Op::Set { path, .. } => path,
        Op::Delete { path, .. } => path,
        Op::Check { path, .. } => path,
    }
}

/// The path of the operation at an index.
pub fn path_at(alloc: Global, ops: &[Op], index: usize) -> Result<ZPath, NoMemory>
    requires { index < length ops.now }
    ensures { IfOk result (λ path. path ≡ path_at ops.now index) }
{
    path_of_op(&ops[index]).copy(alloc)
}
