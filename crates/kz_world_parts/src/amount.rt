//! How many znodes or operations there are, and their bytes.
ghost use Rattle.std.specs.Prelude.{◌≡◌, ◌+◌, ◌*◌, ◌/◌, ◌<◌, ◌≤◌, ◌^◌, List, ◌∷◌, length, map, sum};
ghost use Rattle.kz_types.specs.declared.limits.TheConstants.{MAX_CHUNK_BYTES, OP_BYTES};
ghost use Rattle.kz_types.specs.declared.tree.Row.{Row as RowValue};
ghost use Rattle.kz_spec_data.specs.Tree.{area};
ghost use Rattle.kz_spec_data.specs.Difference.{op_size};
ghost use Rattle.kz_spec_machine.specs.Machine.{amount_of_znodes, amount_of_ops, no_amount, most_steps, znode_size};
ghost use Rattle.kz_world_parts.specs.Amounts.{area_of_rows};

use kz_tree::{Tree, is_migrated};
use kz_types::{
    MAX_APPEND_RECORDS, MAX_CHUNK, MAX_CHUNK_BYTES, MAX_SCAN_ROWS, OP_BYTES, Op, Rendered, Row,
};
use std::marker::Model;

// The units of bytes.
const UNIT: u128 = MAX_CHUNK_BYTES as u128;

/// How many znodes or operations there are, and their bytes as operations of a write. The bytes are kept as whole units of
/// [`MAX_CHUNK_BYTES`] and what is beyond them, so that they can be weighted and added up.
#[derive(Drop)]
pub struct Amount {
    count: usize,
    units: u128,
    rest: u128,
}

impl Model for Amount {
    ghost use Rattle.std.specs.Prelude.{◌+◌, ◌*◌};
    ghost use Rattle.kz_types.specs.declared.limits.TheConstants.{MAX_CHUNK_BYTES};
    ghost use Rattle.kz_spec_machine.specs.Machine.{Amount as AmountValue};
    ghost use Rattle.kz_world_parts.specs.Amounts.{AreUnits};

    ghost Value = { AmountValue };

    ghost view = { λ a. record { count = a.count; bytes = MAX_CHUNK_BYTES * a.units + a.rest } };

    ghost invariant = { λ a. AreUnits a.count a.units a.rest };
}

impl Amount {
    /// Nothing.
    pub fn none() -> Self
        ensures { result ≡ no_amount }
    {
        Amount {
            count: 0,
            units: 0,
            rest: 0,
        }
    }

    // One znode or operation more, of a path and a body of so many bytes.
    fn add(&mut self, path_len: usize, body_len: usize)
        requires { self.old.count + 1 < 2 ^ 64 }
        ensures count { self.new.count ≡ self.old.count + 1 }
        ensures bytes { self.new.bytes ≡ self.old.bytes + (OP_BYTES + path_len + body_len) }
    {
        let rest = self.rest + OP_BYTES as u128 + path_len as u128 + body_len as u128;
        self.count += 1;
        self.units += rest / UNIT;
        self.rest = rest % UNIT;
    }
}

// Counts a znode too, where it is in the migrated area.
fn add_migrated(amount: &mut Amount, row: &Row)
    requires { amount.old.count + 1 < 2 ^ 64 }
    ensures within { amount.new.count ≤ amount.old.count + 1 }
    ensures count { (rows : List RowValue) → amount.new.count + length (area_of_rows rows) ≡ amount.old.count + length (area_of_rows (row.now ∷ rows)) }
    ensures bytes { (rows : List RowValue) → amount.new.bytes + sum (map znode_size (area_of_rows rows)) ≡ amount.old.bytes + sum (map znode_size (area_of_rows (row.now ∷ rows))) }
{
    if is_migrated(row.path.bytes()) {
        amount.add(row.path.bytes().len(), row.body.len());
    }
}

/// The amount of the znodes of the migrated area. No znode is copied.
pub fn amount_of_area(tree: &Tree) -> Amount
    ensures { result ≡ amount_of_znodes (area tree.now) }
{
    let mut amount = Amount::none();
    let _count = tree.count();
    for row in tree.rows() {
        add_migrated(&mut amount, row);
    }
    amount
}

/// The amount of znodes, as operations that create them.
pub fn amount_of_znodes(znodes: &[Rendered]) -> Amount
    ensures { result ≡ amount_of_znodes znodes.now }
{
    let mut amount = Amount::none();
    for znode in znodes {
        amount.add(znode.path.bytes().len(), znode.body.len());
    }
    amount
}

// How many bytes the path and the body of an operation have. A delete and a check have no body.
fn text_lens(op: &Op) -> (usize, usize)
    ensures { OP_BYTES + result.0 + result.1 ≡ op_size op.now }
{
    match op {
        Op::Create { path, body, .. } => (path.bytes().len(), body.len()),
        Op::Set { path, body, .. } => (path.bytes().len(), body.len()),
        Op::Delete { path, .. } => (path.bytes().len(), 0),
        Op::Check { path, .. } => (path.bytes().len(), 0),
    }
}

/// The amount of operations.
pub fn amount_of_ops(ops: &[Op]) -> Amount
    ensures { result ≡ amount_of_ops ops.now }
{
    let mut amount = Amount::none();
    for op in ops {
        let (path_len, body_len) = text_lens(op);
        amount.add(path_len, body_len);
    }
    amount
}

// How many more writes the bytes of these znodes and operations make. Any two writes one after another have more than
// [`MAX_CHUNK_BYTES`] together.
fn byte_writes(znodes: &Amount, rendered: &Amount, remaining: &Amount) -> u128
    ensures value { result ≡ (2 * (znodes.now.bytes + rendered.now.bytes + 2 * remaining.now.bytes)) / MAX_CHUNK_BYTES }
    ensures bound { result ≤ 2 ^ 120 }
{
    let units = znodes.units + rendered.units + 2 * remaining.units;
    let rest = znodes.rest + rendered.rest + 2 * remaining.rest;
    2 * units + 2 * rest / UNIT
}

/// The most steps of a turn, for the znodes that there are, so many records to be appended, the znodes that there will be, and
/// what remains to be written.
pub fn most_steps(znodes: &Amount, records: usize, rendered: &Amount, remaining: &Amount) -> u128
    ensures { result ≡ most_steps znodes.now records rendered.now remaining.now }
{
    let count = znodes.count as u128 + rendered.count as u128 + 2 * (remaining.count as u128);
    20 + 2 * (znodes.count as u128 / MAX_SCAN_ROWS as u128)
        + records as u128 / MAX_APPEND_RECORDS as u128
        + count / MAX_CHUNK as u128
        + byte_writes(znodes, rendered, remaining)
}
