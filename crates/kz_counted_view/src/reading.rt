//! Reading a log.
ghost use Rattle.std.specs.Prelude.{◌≡◌, OnOk, OnErr};
ghost use Rattle.kz_spec_data.specs.Log.{IsViewOf, read_view};
ghost use Rattle.kz_spec_data.specs.Requests.{answer_of_log_fault, answer_by, ReadsDisk};

use crate::view::CountedView;
use kz_log::MetaLog;
use kz_types::{LogFault, NoMemory};

/// Brings a view to the log's end. At `Err` it is as it was. The faults are those of `read_from`.
pub fn read_to_end<L: MetaLog>(view: &mut CountedView, log: &mut L) -> Result<(), LogFault>
    requires { IsViewOf (L.log log.old) view.old }
    ensures ok { OnOk result (view.new ≡ read_view (L.log log.old) view.old) }
    ensures is_view { IsViewOf (L.log log.new) view.new }
    ensures err { OnErr result (view.new ≡ view.old) }
    ensures same { L.log log.new ≡ L.log log.old }
    ensures disk { ReadsDisk (answer_by answer_of_log_fault result) (L.disk log.old) (L.disk log.new) }
{
    let feed = match log.read_from(view.view().position()) {
        Ok(feed) => feed,
        Err(fault) => return Err(fault),
    };
    match view.take(feed) {
        Ok(()) => Ok(()),
        Err(NoMemory) => Err(LogFault::NoMemory),
    }
}
