//! Laws of what is read of a log.
//!
//! A law is the contract of a function that does nothing.

ghost use Rattle.kz_laws_machine.specs.Feeds.{FeedLeads, FeedTouches};

/// What is read of a log after a view of it leads from the metadata of the view to those at the log's end. Where the log's base has
/// passed the view, a base is read. Else each record is taken in, in a batch of some epoch, or is passed over. The view knows of no
/// open transaction. One that knows nothing is a view of each log.
pub fn feed_leads()
    ensures { FeedLeads }
{}

/// So the keys that are touched by what is read span every path at which the renderings of the two metadata differ.
pub fn feed_touches()
    ensures { FeedTouches }
{}
