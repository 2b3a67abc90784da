//! Reading a log to its end.
ghost use Rattle.std.specs.Prelude.{◌≡◌, true, false, IfOk};
ghost use Rattle.kz_spec_data.specs.Requests.{Done, ReadsDisk};
ghost use Rattle.kz_spec_data.specs.Log.{IsViewOf, read_view};
ghost use Rattle.kz_requests.specs.Fares.{Fares};
ghost use Rattle.kz_requests.specs.Disks.{LogDisk};
ghost use Rattle.kz_view_delta.specs.Reads.{IsReadAfter, WasRead, Makes, MakesBeside};

use kz_image::Feed;
use kz_log::{LogWire, MetaLog, View};
use kz_requests::{StepFault, read_feed};
use kz_types::{Duplicate, NoMemory};
use std::alloc::Global;

/// The view of the log's end, which what was read after a view makes of it. The one before it stays. `NoMemory` is the only error.
pub fn view_after(alloc: Global, view: &View, feed: &Feed) -> Result<View, NoMemory>
    requires { IsReadAfter view.now feed.now }
    ensures made { IfOk result (λ made. Makes view.now feed.now made) }
    ensures read { IfOk result (λ made. WasRead view.now feed.now made) }
{
    let mut made = view.copy(alloc)?;
    let feed = feed.copy(alloc)?;
    made.advance(feed)?;
    Ok(made)
}

// The view of the log's end, which what was read after a view makes of it beside the latest view of the log.
fn view_beside(alloc: Global, view: &View, feed: &Feed, latest: &View) -> Result<View, NoMemory>
    requires { IsReadAfter view.now feed.now }
    ensures { IfOk result (MakesBeside latest.now view.now feed.now) }
{
    if latest.position() == feed.end {
        return view.beside(feed, latest);
    }
    let made = view_after(alloc, view, feed)?;
    Ok(made)
}

/// The view that has read to the log's end, and what it has read. Where the latest view of the log stands there, its metadata are
/// shared. The view before it stays. `Lost` by the plan of the connection; `Log`: the store failed; `NoMemory`.
pub fn read_to_end<L: MetaLog>(
    alloc: Global,
    view: &View,
    log: &mut LogWire<L>,
    latest: &View,
) -> Result<(View, Feed), StepFault>
    requires view { IsViewOf (L.log log.old.inner) view.now }
    requires latest { IsViewOf (L.log log.old.inner) latest.now }
    ensures ok { IfOk result (λ made. made.0 ≡ read_view (L.log log.old.inner) view.now) }
    ensures read { IfOk result (λ made. WasRead view.now made.1 made.0) }
    ensures view { IfOk result (λ made. IsViewOf (L.log log.new.inner) made.0) }
    ensures same { L.log log.new.inner ≡ L.log log.old.inner }
    ensures fares { Fares true false result log.old log.new }
    ensures disk { LogDisk ReadsDisk Done log.old.plan result (L.disk log.old.inner) (L.disk log.new.inner) }
{
    let feed = read_feed(view, log)?;
    let made = view_beside(alloc, view, &feed, latest)?;
    Ok((made, feed))
}
