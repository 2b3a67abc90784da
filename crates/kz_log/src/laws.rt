//! Laws of views. Each is the contract of a function that does nothing.
ghost use Rattle.kz_log.specs.ViewLaws.{NewIsView, FeedFits, AppendLeavesViews, ElectLeavesViews, OpenIsBegun, AppendedIsView};

/// What is known before the first read is a view of every log; what is read after a view can be taken by it; and a batch
/// more leaves each view of the log a view of it. A transaction is open at a log's end exactly where one has begun there; where
/// none is, a view of the log's end takes records that were appended, and no markers, by applying them.
pub fn views_stay()
    ensures first { NewIsView }
    ensures fits { FeedFits }
    ensures append { AppendLeavesViews }
    ensures elect { ElectLeavesViews }
    ensures open { OpenIsBegun }
    ensures appended { AppendedIsView }
{}
