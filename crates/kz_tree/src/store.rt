//! A store that holds a tree.
ghost use Rattle.std.specs.Prelude.{◌≡◌, ℕ, false, Option, option_map, IfOk, IfErr, OnErr, IsErrOf, Ok};
ghost use Rattle.kz_types.specs.Order.{bytes_cmp};
ghost use Rattle.kz_types.specs.Ordered.{Rises};
ghost use Rattle.kz_spec_data.specs.Tree as znodes;
ghost use Rattle.kz_spec_data.specs.Tree.{Tree as TreeValue, path_of_row};
ghost use Rattle.kz_spec_data.specs.Requests.{Disk, TreeChange, Multi, answer_by, answer_of_tree_fault, IsTaken, ChangesDisk, ReadsDisk, Only, Between};
ghost use Rattle.kz_tree.specs.Requests.{IsRefusal};

use crate::Tree;
use kz_types::{Op, Row, TreeFault, ZPath};

/// A store that holds a tree, in memory or on a disk.
pub trait ZTree {
    /// The tree as it stands.
    ghost tree: { Self → TreeValue };

    /// What the store tells of its disk: how often a call of it has failed, whether the store is down since, and the store's
    /// file, where it has one.
    ghost disk: { Self → Disk };

    /// The bytes of the payload of the frame that the store's file gets for a change of a tree. Nothing refuses the change.
    ghost payload_bytes: { TreeValue → TreeChange → ℕ };

    /// What a stop at this moment may leave: a tree, or `None` where what is left stands for none. A store that tells
    /// nothing of its disk leaves nothing.
    ghost left: { Self → Option TreeValue → Type 0 };

    /// Lends the tree as it stands.
    fn tree(&self) -> &Tree
        ensures { result.now ≡ tree self.now };

    /// Makes all operations, with one new zxid, which it answers, or none of them. `Refused` and `Limit` name the first
    /// operation that is refused, each judged after those before it. `Device`: a call of the disk failed, and the store is
    /// down. `Down`: one failed in an earlier request. `Full`: the file would have so many bytes.
    fn multi(&mut self, ops: &[Op]) -> Result<i64, TreeFault>
        ensures ok { IfOk result (λ zxid. (znodes.multi (tree self.old) ops.now ≡ Ok (tree self.new)) × (zxid ≡ (tree self.new).zxid)) }
        ensures refused { IfErr result (IsRefusal (znodes.multi (tree self.old) ops.now)) }
        ensures same { OnErr result (tree self.new ≡ tree self.old) }
        ensures disk { ChangesDisk (IsTaken (znodes.multi (tree self.old) ops.now)) (payload_bytes (tree self.old) (Multi ops.now)) (answer_by answer_of_tree_fault result) (disk self.old) (disk self.new) }
        ensures stop { IsErrOf result TreeFault.Device → Between (tree self.old) (znodes.multi (tree self.old) ops.now) (left self.new) };

    /// The first `limit` znodes of the migrated area after a path, or its first ones. `Down`: a call of the disk failed in
    /// an earlier request.
    fn scan(&mut self, after: Option<&ZPath>, limit: usize) -> Result<Vec<Row>, TreeFault>
        ensures ok { IfOk result (λ rows. rows.items ≡ znodes.scan (tree self.old) (option_map (λ path. path.now) after.entry) limit) }
        ensures rising { IfOk result (λ rows. Rises bytes_cmp path_of_row rows.items) }
        ensures same { tree self.new ≡ tree self.old }
        ensures disk { ReadsDisk (answer_by answer_of_tree_fault result) (disk self.old) (disk self.new) };

    /// The znodes at these paths, in their order. `Down`: a call of the disk failed in an earlier request.
    fn look(&mut self, paths: &[ZPath]) -> Result<Vec<Option<Row>>, TreeFault>
        ensures ok { IfOk result (λ rows. rows.items ≡ znodes.look (tree self.old) paths.now) }
        ensures same { tree self.new ≡ tree self.old }
        ensures disk { ReadsDisk (answer_by answer_of_tree_fault result) (disk self.old) (disk self.new) };

    /// The ids of the brokers that are there, rising: the children of `/brokers/ids` whose names are canonical decimals of
    /// 0 to [`kz_types::MAX_NUMBER`]. `Down`: a call of the disk failed in an earlier request.
    fn broker_ids(&mut self) -> Result<Vec<i32>, TreeFault>
        ensures ok { IfOk result (λ ids. ids.items ≡ znodes.broker_ids (tree self.old)) }
        ensures same { tree self.new ≡ tree self.old }
        ensures disk { ReadsDisk (answer_by answer_of_tree_fault result) (disk self.old) (disk self.new) };

    /// While no call of the disk has failed, a stop leaves the tree as it stands and nothing else.
    ghost settled: { (s : Self) → (disk s).down ≡ false → Only (tree s) (left s) };
}
