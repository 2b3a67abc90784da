//! Why a tree doesn't answer.
ghost use Rattle.std.specs.Prelude.{◌≡◌};
ghost use Rattle.kz_tree.specs.Refusals.{tree_fault};

use kz_types::{TreeFault, ZPath};

/// Why no multi was prepared.
#[derive(Clone, Copy, Debug, PartialEq, Eq)]
pub enum MultiFault {
    /// The operation at this index is refused with ZooKeeper's code.
    Refused { index: usize, code: i32 },
    /// The operation at this index would pass the limit of this number.
    Limit { index: usize, number: u8 },
    /// Memory ran out.
    NoMemory,
}

/// Why a tree isn't known to be closed.
#[derive(Drop)]
pub enum ClosedFault {
    /// `/migration` where no offset is recorded, else the first znode of the migrated area that was written, or whose
    /// children were, after `/migration`.
    Unclosed { path: ZPath },
    /// Memory ran out.
    NoMemory,
}

/// The fault of a request whose multi wasn't prepared.
pub fn tree_fault(fault: MultiFault) -> TreeFault
    ensures { result ≡ tree_fault fault }
{
    match fault {
        MultiFault::Refused { index, code } => TreeFault::Refused { index, code },
        MultiFault::Limit { index, number } => TreeFault::Limit { index, number },
        MultiFault::NoMemory => TreeFault::NoMemory,
    }
}
