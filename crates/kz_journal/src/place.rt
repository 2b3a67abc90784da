//! A gate of a journal's file.
ghost use Rattle.std.specs.Prelude.{◌≡◌, ◌+◌, ◌^◌, ◌<◌, ◌≤◌, max, length};
ghost use Rattle.kz_spec_data.specs.Frames.{size_before};

/// How far a journal's file has been read.
#[derive(Clone, Copy, Debug, PartialEq, Eq)]
pub(crate) struct Place {
    /// Where the next gate stands.
    pub(crate) gate: u64,
    /// A frame there has a sum.
    pub(crate) summed: bool,
    /// How long the file is.
    pub(crate) length: u64,
    /// The sum of all bytes before the gate, where a frame there has none.
    pub(crate) sum: u32,
}

/// The place after a frame with this payload. The sum is that of all bytes before it, where the frame has none.
pub(crate) fn past_frame(place: Place, payload: &[u8], sum: u32) -> Place
    requires room { place.gate + size_before place.summed + length payload.now ≤ place.length }
    ensures gate { result.gate ≡ place.gate + size_before place.summed + length payload.now }
    ensures onward { place.gate < result.gate }
    ensures sum { result.sum ≡ sum }
    ensures kept { (result.summed ≡ place.summed) × (result.length ≡ place.length) }
{
    let size = if place.summed { 9 } else { 5 };
    Place {
        gate: place.gate + size + payload.len() as u64,
        sum,
        ..place
    }
}

/// The same gate, in a file in which it stands.
pub(crate) fn with_gate(place: Place) -> Place
    requires fits { place.gate + 1 < 2 ^ 64 }
    ensures length { result.length ≡ max place.length (place.gate + 1) }
    ensures kept { (result.gate ≡ place.gate) × (result.summed ≡ place.summed) × (result.sum ≡ place.sum) }
{
    Place {
        length: place.length.max(place.gate + 1),
        ..place
    }
}
