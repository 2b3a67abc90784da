//! The tree of a load.
ghost use Rattle.std.specs.Prelude.{◌≡◌};
ghost use Rattle.kz_spec_data.specs.TreeFile.{stored_by_load, under_way};
ghost use Rattle.kz_tree_store.specs.Taken.{Says, ended, frame_fault_of};

use crate::fault::FrameFault;
use kz_tree::{LoadCheck, LoadFault, Tree};
use kz_types::Row;
use std::alloc::Global;

// Why a load isn't taken.
fn frame_fault(fault: LoadFault) -> FrameFault
    ensures { result ≡ frame_fault_of fault }
{
    match fault {
        LoadFault::Broken => FrameFault::Damaged,
        LoadFault::Limit { .. } => FrameFault::Damaged,
        LoadFault::NoMemory => FrameFault::NoMemory,
    }
}

/// The tree that has these znodes, where they keep the rules and limits of a load. They are moved into it.
pub(crate) fn loaded_tree(
    alloc: Global,
    zxid: i64,
    sessions: &[i64],
    rows: Vec<Row>,
) -> Result<Tree, FrameFault>
    ensures { Says ended result (stored_by_load zxid sessions.now (under_way rows.items)) }
{
    let mut check = match LoadCheck::new(alloc, zxid, sessions) {
        Ok(check) => check,
        Err(fault) => return Err(frame_fault(fault)),
    };
    for row in rows {
        match check.take_owned(row) {
            Ok(()) => {}
            Err(fault) => return Err(frame_fault(fault)),
        }
    }
    Ok(check.into_tree())
}
