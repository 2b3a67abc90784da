//! Why a request of a driver has no answer from which the driver goes on.
use kz_types::{LogFault, NoMemory, TreeFault};

/// Why a request has no answer from which the driver goes on. A refusal of the tree or of the log, a limit among them, is an
/// answer.
#[derive(Clone, Copy, Debug, PartialEq, Eq)]
pub enum StepFault {
    /// The request or its answer was lost.
    Lost,
    /// The session had expired, and the store didn't take the request.
    Expired,
    /// The store of the tree failed: its disk in this call or an earlier one, or its file is full.
    Tree(TreeFault),
    /// The store of the log failed: its disk in this call or an earlier one, or its file is full.
    Log(LogFault),
    /// Memory ran out.
    NoMemory,
}

impl From<NoMemory> for StepFault {
    ghost use Rattle.std.specs.Prelude.{◌≡◌};
    ghost use Rattle.kz_requests.specs.declared.fault.StepFault.{StepFault};

    ghost from_gives = { λ _ fault. fault ≡ StepFault.NoMemory };

    fn from(_: NoMemory) -> StepFault {
        StepFault::NoMemory
    }
}
