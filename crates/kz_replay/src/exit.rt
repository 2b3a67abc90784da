//! How the process tells how a run ended.
ghost use Rattle.std.specs.Prelude.{◌≡◌, IfOk};
ghost use Rattle.kz_spec_data.specs.Statuses.{status_code, status_text};

use kz_script::{status_code, status_text};
use kz_types::{NoMemory, Status};
use std::alloc::Global;

/// The exit code of the process: 0 where the run is done, 1 `Usage`, 2 `Script`, 3 `ReadFault`, 4 `WriteFault`, 5
/// `TreeFault`, 6 `LogFault`, 7 `TreeDamaged`, 8 `LogDamaged`, 9 `Disagrees`, 10 `NoMemory`, 11 `Limit`, 12 `NotEmpty`, 13
/// `NoOffset`.
pub fn code(status: &Status) -> u8
    ensures { result ≡ status_code status.now }
{
    status_code(status)
}

/// The text for standard error, without a line feed: empty where the run is done.
pub fn text(alloc: Global, status: &Status) -> Result<Vec<u8>, NoMemory>
    ensures { IfOk result (λ text. text.items ≡ status_text status.now) }
{
    status_text(alloc, status)
}
