//! Laws of journals' files: what the front of a file says of the whole, and that what is written is read again.
//!
//! A law is the contract of a function that does nothing.

ghost use Rattle.kz_laws_values.specs.Fronts.{FrontGoesOn, FrontEnds, FrameIsRead, SealIsRead};

/// What stands behind a gate changes nothing in front of it; and where no frame is found at a gate, nothing behind it counts.
pub fn fronts_stay()
    ensures goes_on { FrontGoesOn }
    ensures ends { FrontEnds }
{}

/// A frame or a seal that is written after an open gate is read again, after all those before it.
pub fn what_is_written_is_read()
    ensures frame { FrameIsRead }
    ensures seal { SealIsRead }
{}
