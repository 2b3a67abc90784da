//! Values of a load.
ghost use Rattle.std.specs.Prelude.{◌≡◌, ◌≤◌, ◌+◌, ◌++◌, length, vec_len, vec_capacity, IfOk};
ghost use Rattle.kz_tree_store.specs.LoadCalls.{load_fault_of, rows_so_far, rows_of_txn};

use kz_journal::ChangeFault;
use kz_spec_data::Txn;
use kz_tree::TreeFault;
use kz_types::{NoMemory, Row, Sequence};
use std::alloc::Global;

/// The fault of a call of a load whose frame wasn't written.
pub(crate) fn load_fault(fault: ChangeFault) -> TreeFault
    ensures { result ≡ load_fault_of fault }
{
    match fault {
        ChangeFault::Failed => TreeFault::Device,
        ChangeFault::Full { length } => TreeFault::Full { length },
        ChangeFault::NoMemory => TreeFault::NoMemory,
    }
}

/// The znodes of a load so far, with room for so many more.
pub(crate) fn with_room(
    alloc: Global,
    before: Option<Sequence<Row>>,
    count: usize,
) -> Result<Vec<Row>, NoMemory>
    ensures rows { IfOk result (λ made. made.items ≡ rows_so_far before) }
    ensures room { IfOk result (λ made. vec_len made + count ≤ vec_capacity made) }
{
    let mut rows = match before {
        None => Vec::new(alloc),
        Some(before) => before.into_vec(),
    };
    rows.reserve(count)?;
    Ok(rows)
}

/// Znodes, and after them those of a transaction that loads some. There is room for them, so that this takes no memory.
pub(crate) fn joined(mut before: Vec<Row>, txn: Txn) -> Sequence<Row>
    requires { vec_len before + length (rows_of_txn txn) ≤ vec_capacity before }
    ensures { result ≡ before.items ++ rows_of_txn txn }
{
    let mut further = match txn {
        Txn::LoadRows { rows, .. } => rows.into_vec(),
        Txn::Multi { .. } => return Sequence::from_vec(before),
        Txn::LoadEnd { .. } => return Sequence::from_vec(before),
        Txn::Begin { .. } => return Sequence::from_vec(before),
        Txn::End { .. } => return Sequence::from_vec(before),
    };
    match before.append(&mut further) {
        Ok(()) => Sequence::from_vec(before),
        Err(_) => unreachable!(),
    }
}
