//! Which paths a change of metadata touches.
ghost use Rattle.kz_laws_znodes.specs.Delta.{KeysCoverRenderings, TouchedSuffices, TouchedCover, DeltaIsDifference};

/// Keys that span all paths of the legal keys at which two metadata differ span every path at which their renderings differ. The
/// paths of a key are its own, and those of the parents that it has below its root; a topic's are also that of the parent of its
/// partitions.
pub fn keys_cover_renderings()
    ensures { KeysCoverRenderings }
{}

/// Where the metadata after a feed differ at a legal key from that before, the keys that the feed touches span all paths of
/// that key. The key itself needn't be touched: a partition's record changes the topic's own body, and touches the key of the partition
/// alone, which spans the topic's paths too. Each record of the feed is taken in or passed over. Where the feed has a base, its keys
/// are all legal keys of either metadata, and the other legal keys hold nothing in both.
pub fn touched_suffices()
    ensures { TouchedSuffices }
{}

/// So the keys that the feed touches span every path at which the two renderings differ.
pub fn touched_cover()
    ensures { TouchedCover }
{}

/// So the operations between two renderings are those between the znodes at the paths that the keys span: a rendering need not be
/// made as a whole.
pub fn delta_is_difference()
    ensures { DeltaIsDifference }
{}
