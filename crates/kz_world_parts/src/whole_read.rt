//! Reading a log that isn't down.
ghost use Rattle.std.specs.Prelude.{◌≡◌, false, IfOk};

use kz_log::{LogRows, MetaLog, read_all};
use kz_types::{LogFault, NoMemory};

/// All of a log that isn't down.
pub fn read_whole<L: MetaLog>(log: &mut L) -> Result<LogRows, NoMemory>
    requires { (L.disk log.old).down ≡ false }
    ensures ok { IfOk result (λ rows. rows ≡ L.log log.old) }
    ensures same { L.log log.new ≡ L.log log.old }
    ensures disk { L.disk log.new ≡ L.disk log.old }
{
    match read_all(log) {
        Ok(rows) => Ok(rows),
        Err(LogFault::NoMemory) => Err(NoMemory),
        Err(_) => unreachable!(),
    }
}
