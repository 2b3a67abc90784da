//! Why a migration isn't taken back, and why it may not be finalised.
use kz_types::{LogFault, NoMemory, TreeFault, ZPath};

/// Why a migration isn't taken back, and why it may not be finalised.
#[derive(Drop)]
pub enum ExitFault {
    /// The migration is finalised.
    Finalised,
    /// The tree isn't closed: `/migration` records no offset, which is told by its own path, or this znode of the migrated
    /// area, the first such, was written, or its children were, after `/migration`.
    Unclosed { path: ZPath },
    /// `/migration` records this offset, and the log ends at another.
    Behind { recorded: i64, end: i64 },
    /// The log's store didn't answer its read or its reset. `Failed`: a call of its disk failed. `Down`: one failed in an
    /// earlier request. `Full`: the file would have so many bytes. No other fault is held.
    Log(LogFault),
    /// The tree's store didn't make the multi. `Refused` and `Limit`: it is refused at this operation, or,
    /// at the limit on transactions, which stands at operation 0, as a whole. `Device`: a call of its
    /// disk failed. `Down`: one failed in an earlier request. `Full`: the file would have so many bytes. It is never
    /// `NoMemory`.
    Tree(TreeFault),
    /// Memory ran out.
    NoMemory,
}

impl From<NoMemory> for ExitFault {
    ghost use Rattle.std.specs.Prelude.{◌≡◌};
    ghost use Rattle.kz_exit.specs.declared.faults.ExitFault.{ExitFault};

    ghost from_gives = { λ _ fault. fault ≡ ExitFault.NoMemory };

    fn from(_: NoMemory) -> ExitFault {
        ExitFault::NoMemory
    }
}
