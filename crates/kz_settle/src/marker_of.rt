//! Which marker a record is.
ghost use Rattle.kz_settle.specs.Steps.{IsMarkerOf};

use crate::marks::{Marker, is_abort, is_begin, is_end};
use kz_types::MetaRecord;

/// The marker that a record is, if it is one.
pub fn marker_of(item: &MetaRecord) -> Option<Marker>
    ensures { IsMarkerOf item.now result }
{
    if is_begin(item) {
        Some(Marker::Begin)
    } else if is_end(item) {
        Some(Marker::End)
    } else if is_abort(item) {
        Some(Marker::Abort)
    } else {
        None
    }
}
